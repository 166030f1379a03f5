use rdf_terms::OutOfMemory;
use std::alloc::{AllocError, AllocFailed};
use std::io;
use thiserror::Error;

/// Why cases were not answered.
#[derive(Debug, Drop, Error)]
pub enum CaseError {
    /// There is not one word, which names the text of cases.
    #[error("usage: shape_cases FILE")]
    Usage,
    /// The line with this number, counted from 1, stands before the first case.
    #[error("line {line} stands before the first case")]
    Line { line: u64 },
    /// The document of the case of that name is no N-Triples: the line with this number, counted from 1
    /// behind that name, is the first that is none.
    #[error("{name}: line {line} of the document is no line of N-Triples")]
    Document { name: String, line: u64 },
    /// The bytes are no UTF-8.
    #[error("it is no text")]
    NoText,
    /// The file could not be read, or an answer not be written.
    #[error("reading or writing failed")]
    Device,
    /// Memory could not be had.
    #[error("out of memory")]
    OutOfMemory,
}

impl From<OutOfMemory> for CaseError {
    fn from(_: OutOfMemory) -> CaseError {
        CaseError::OutOfMemory
    }
}

impl From<AllocError> for CaseError {
    fn from(_: AllocError) -> CaseError {
        CaseError::OutOfMemory
    }
}

impl<T: Drop> From<AllocFailed<T>> for CaseError {
    fn from(_: AllocFailed<T>) -> CaseError {
        CaseError::OutOfMemory
    }
}

impl From<io::Error> for CaseError {
    fn from(_: io::Error) -> CaseError {
        CaseError::Device
    }
}
