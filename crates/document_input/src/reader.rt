ghost use Rattle.std.specs.Prelude.{◌≡◌, IfOk, IfErr, true, false};
ghost use Rattle.ntriples_io.specs.RoundTrip.{HasScope};
ghost use Rattle.ntriples_io.specs.Text.{AreLawful};
ghost use Rattle.document_input.specs.NamedDocument.{scope_of, IsTurtleName, IsGraph, IsClaim, RefusesGraph};
ghost use Rattle.document_input.specs.NamedDocument.{RefusesClaim};
ghost use Rattle.document_input.specs.NamedDocument.NamedDocument.{GraphDocument, ClaimDocument};
ghost use Rattle.document_input.specs.Parsing.{IfShort, IsParseError, ReadsBytes};
ghost use Rattle.document_input.specs.Reading.{Reads};
ghost use Rattle.document_input.specs.Told.{during, shelf_told};

use crate::{DocumentRefusal, GraphRefusal, InputError, InputRefusal, Role};
use ntriples_io::{NtRefusal, read_ntriples};
use proof_documents::{DocRefusal, DocumentText, read_document_text};
use rdf_terms::{Bytes, Graph};
use shelf_io::{ReadRefusal, Shelf, read_document};
use std::alloc::Global;
use turtle_io::{TurtleRefusal, read_turtle};

/// Reads documents from a shelf, one after another.
///
/// Each call reads one document and says why where there is none: the shelf's count of faults for its
/// name rose, its bytes are refused, or memory could not be had. After each call the shelf holds what
/// it held, and no count has fallen. So the first error in a list of calls is that of the first
/// document that has one, and those before it are in order.
#[derive(Drop)]
pub struct Reader<'a, H> {
    /// Where the documents get their memory.
    pub alloc: Global,
    /// The shelf that holds the documents.
    pub shelf: &'a mut H,
}

impl<'a, H: Shelf> Reader<'a, H> {
    /// A reader of that shelf. It takes no memory.
    pub fn new(alloc: Global, shelf: &'a mut H) -> Reader<'a, H>
        ensures same_shelf { result.shelf.ghost_name ≡ shelf.entry.ghost_name }
        ensures unchanged { result.shelf.now ≡ shelf.old }
    {
        Reader { alloc, shelf }
    }

    /// Reads the graph of that role from the document of that name: its length first, then its grammar, which is that
    /// of Turtle where the name ends in `.ttl`, and else that of N-Triples.
    pub fn graph(&mut self, role: Role, name: &str) -> Result<Graph, InputError>
        ensures read { Reads (IsGraph role name.now) (GraphDocument role name.now)
            (during (shelf_told H.held H.faults) self.old.shelf.now self.new.shelf.now) result }
        ensures lawful { IfOk result AreLawful }
        ensures scope { IfOk result (HasScope (scope_of role)) }
        ensures same_shelf { self.new.shelf.ghost_name ≡ self.old.shelf.ghost_name }
    {
        let too_long = InputRefusal::Graph {
            role,
            refusal: GraphRefusal::TooLong,
        };
        let bytes = self.bytes(role, name, too_long)?;
        parse_graph(self.alloc, role, name, bytes.as_slice())
    }

    /// Reads the claim from the document of that name: its length first, then its lines.
    pub fn document(&mut self, name: &str) -> Result<DocumentText, InputError>
        ensures read { Reads IsClaim (ClaimDocument name.now)
            (during (shelf_told H.held H.faults) self.old.shelf.now self.new.shelf.now) result }
        ensures same_shelf { self.new.shelf.ghost_name ≡ self.old.shelf.ghost_name }
    {
        let too_long = InputRefusal::Document(DocumentRefusal::TooLong);
        let bytes = self.bytes(Role::Document, name, too_long)?;
        parse_claim(self.alloc, bytes.as_slice())
    }

    /// The bytes of the document of that name and role, and the given refusal where there are too many.
    fn bytes(&mut self, role: Role, name: &str, too_long: InputRefusal) -> Result<Bytes, InputError>
        ensures read { ReadsBytes role name.now too_long
            (during (shelf_told H.held H.faults) self.old.shelf.now self.new.shelf.now) result }
        ensures same_shelf { self.new.shelf.ghost_name ≡ self.old.shelf.ghost_name }
    {
        match read_document(self.alloc, self.shelf, name) {
            Ok(bytes) => Ok(bytes),
            Err(ReadRefusal::ReadFault) => Err(InputError::Unread { role }),
            Err(ReadRefusal::TooLong) => Err(InputError::Refused(too_long)),
            Err(ReadRefusal::OutOfMemory) => Err(InputError::OutOfMemory),
        }
    }
}

/// Whether a graph's document of that name is read as Turtle.
fn is_turtle_name(name: &str) -> bool
    ensures turtle { result ≡ true → IsTurtleName name.now }
    ensures other { result ≡ false → ¬ (IsTurtleName name.now) }
{
    name.as_bytes().ends_with(b".ttl")
}

/// The graph of a document's bytes, by the format that its name tells.
fn parse_graph(alloc: Global, role: Role, name: &str, bytes: &[u8]) -> Result<Graph, InputError>
    ensures ok { IfOk result (λ g. IfShort (IsGraph role name.now g) bytes.now) }
    ensures err { IfErr result (IsParseError (RefusesGraph role name.now) bytes.now) }
    ensures lawful { IfOk result AreLawful }
    ensures scope { IfOk result (HasScope (scope_of role)) }
{
    if is_turtle_name(name) {
        return parse_turtle(alloc, role, name, bytes);
    }
    parse_ntriples(alloc, role, name, bytes)
}

/// The graph of a document's bytes, read as Turtle.
fn parse_turtle(alloc: Global, role: Role, name: &str, bytes: &[u8]) -> Result<Graph, InputError>
    requires { IsTurtleName name.now }
    ensures ok { IfOk result (λ g. IfShort (IsGraph role name.now g) bytes.now) }
    ensures err { IfErr result (IsParseError (RefusesGraph role name.now) bytes.now) }
    ensures lawful { IfOk result AreLawful }
    ensures scope { IfOk result (HasScope (scope_of role)) }
{
    match read_turtle(alloc, bytes, role.turtle_role()) {
        Ok(graph) => Ok(graph),
        Err(TurtleRefusal::Syntax { statement_at }) => {
            Err(graph_error(role, GraphRefusal::Statement { at: statement_at }))
        }
        Err(TurtleRefusal::TooDeep { at }) => Err(graph_error(role, GraphRefusal::TooDeep { at })),
        Err(TurtleRefusal::ReservedLabel { at }) => {
            Err(graph_error(role, GraphRefusal::ReservedLabel { at }))
        }
        Err(TurtleRefusal::OutOfMemory) => Err(InputError::OutOfMemory),
    }
}

/// The graph of a document's bytes, read as N-Triples.
fn parse_ntriples(alloc: Global, role: Role, name: &str, bytes: &[u8]) -> Result<Graph, InputError>
    requires { ¬ (IsTurtleName name.now) }
    ensures ok { IfOk result (λ g. IfShort (IsGraph role name.now g) bytes.now) }
    ensures err { IfErr result (IsParseError (RefusesGraph role name.now) bytes.now) }
    ensures lawful { IfOk result AreLawful }
    ensures scope { IfOk result (HasScope (scope_of role)) }
{
    match read_ntriples(alloc, role.scope(), bytes) {
        Ok(graph) => Ok(graph),
        Err(NtRefusal::Syntax { line }) => Err(graph_error(role, GraphRefusal::Line { line })),
        Err(NtRefusal::OutOfMemory) => Err(InputError::OutOfMemory),
    }
}

/// The error of a refused graph.
fn graph_error(role: Role, refusal: GraphRefusal) -> InputError
    ensures { result ≡ InputError.Refused (InputRefusal.Graph role refusal) }
{
    InputError::Refused(InputRefusal::Graph { role, refusal })
}

/// The claim that a document's bytes are.
fn parse_claim(alloc: Global, bytes: &[u8]) -> Result<DocumentText, InputError>
    ensures ok { IfOk result (λ claim. IfShort (IsClaim claim) bytes.now) }
    ensures err { IfErr result (IsParseError RefusesClaim bytes.now) }
{
    match read_document_text(alloc, bytes) {
        Ok(claim) => Ok(claim),
        Err(DocRefusal::Line { line }) => {
            Err(InputError::Refused(InputRefusal::Document(DocumentRefusal::Line { line })))
        }
        Err(DocRefusal::OutOfMemory) => Err(InputError::OutOfMemory),
    }
}
