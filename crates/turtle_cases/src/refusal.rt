use rdf_terms::OutOfMemory;
use std::alloc::{AllocError, AllocFailed};
use std::io;
use thiserror::Error;

/// Why cases were not answered.
#[derive(Debug, Drop, Error)]
pub enum CaseError {
    /// There is not one word, which names the text of cases.
    #[error("usage: turtle_cases FILE")]
    Usage,
    /// The line with this number, counted from 1, cannot stand there.
    #[error("line {line} cannot stand there")]
    Line { line: u64 },
    /// The bytes are no UTF-8.
    #[error("it is no text")]
    NoText,
    /// The file could not be read, or an answer not be written.
    #[error("reading or writing failed")]
    Device,
    /// Memory could not be had.
    #[error("out of memory")]
    OutOfMemory,
}

impl From<OutOfMemory> for CaseError {
    fn from(_: OutOfMemory) -> CaseError {
        CaseError::OutOfMemory
    }
}

impl From<AllocError> for CaseError {
    fn from(_: AllocError) -> CaseError {
        CaseError::OutOfMemory
    }
}

impl<T: Drop> From<AllocFailed<T>> for CaseError {
    fn from(_: AllocFailed<T>) -> CaseError {
        CaseError::OutOfMemory
    }
}

impl From<io::Error> for CaseError {
    fn from(_: io::Error) -> CaseError {
        CaseError::Device
    }
}
