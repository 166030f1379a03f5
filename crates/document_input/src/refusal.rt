ghost use Rattle.std.specs.Prelude.{◌≡◌, ◌++◌, IfOk};
ghost use Rattle.ntriples_io.specs.CanonicalText.{term_text};

use crate::Role;
use crate::text::bytes_of;
use ntriples_io::write_term;
use rdf_terms::{Bytes, OutOfMemory, Term};
use std::alloc::Global;
use std::fmt;

/// Why the document of a graph is refused. Bytes are counted from 0, and the first statement of Turtle that is not
/// accepted is refused.
#[derive(Debug, PartialEq, Eq, Drop)]
pub enum GraphRefusal {
    /// It has more than 2^30 bytes.
    TooLong,
    /// As N-Triples: that line, counted from 1, is the first that is no line.
    Line { line: u64 },
    /// As Turtle: the statement that begins at that byte is not in the grammar, or it has no meaning.
    Statement { at: u64 },
    /// As Turtle: the bracket at that byte is open beside 128 others.
    TooDeep { at: u64 },
    /// As Turtle: the label of the blank node at that byte begins with `x-anon-`.
    ReservedLabel { at: u64 },
}

/// Why the document of a claim is refused.
#[derive(Debug, PartialEq, Eq, Drop)]
pub enum DocumentRefusal {
    /// It has more than 2^30 bytes.
    TooLong,
    /// That line, counted from 1, is the first that can't stand where it stands, or the line after the
    /// last where the end is missing.
    Line { line: u64 },
}

/// Why the graph of the shapes is refused.
#[derive(Debug, PartialEq, Eq, Drop)]
pub enum ShapesRefusal {
    /// It has a triple with this predicate, which is of a part of SHACL that is left out.
    Unsupported { predicate: Term },
    /// The first ill-formed shape, and the smallest rule on shapes that it breaks.
    IllFormed { node: Term, rule: u8 },
    /// This shape refers to itself, over one or more references.
    Recursive { shape: Term },
    /// This path, or rest of a sequence, has a depth over 32.
    PathTooDeep { node: Term },
    /// This shape has a rank over 128.
    ShapeTooDeep { shape: Term },
}

/// Why a claim can't be applied to the data.
#[derive(Debug, PartialEq, Eq, Drop)]
pub enum ClaimRefusal {
    /// It is no claim of a pair.
    NoPair,
    /// On that line of its document, counted from 1, stands the first addition that is in the data
    /// already, or the first deletion that is not in it.
    PairOutside { line: u64 },
}

/// Why the input of a command is refused, by what is at fault.
#[derive(Debug, PartialEq, Eq, Drop)]
pub enum InputRefusal {
    /// The document of the graph of that role.
    Graph { role: Role, refusal: GraphRefusal },
    /// The document of the claim.
    Document(DocumentRefusal),
    /// The shapes, read from a document in order.
    Shapes(ShapesRefusal),
    /// The claim, read from a document in order.
    Claim(ClaimRefusal),
    /// A literal of the data or a value of `sh:targetNode`, which a range constraint would have to compare and
    /// which can't be compared. It is said of the data.
    Literal(Term),
}

impl fmt::Display for GraphRefusal {
    ghost use Rattle.std.specs.Prelude.{Some};
    ghost use Rattle.document_input.specs.Notes.{graph_text};

    ghost output = { λ refusal. Some (graph_text refusal) };

    fn fmt<W: fmt::Write>(&self, f: &mut fmt::Formatter<W>) -> fmt::Result {
        match self {
            GraphRefusal::TooLong => f.write_str("too long"),
            GraphRefusal::Line { line } => write!(f, "line {line}"),
            GraphRefusal::Statement { at } => write!(f, "statement at {at}"),
            GraphRefusal::TooDeep { at } => write!(f, "too deep at {at}"),
            GraphRefusal::ReservedLabel { at } => write!(f, "reserved label at {at}"),
        }
    }
}

impl fmt::Display for DocumentRefusal {
    ghost use Rattle.std.specs.Prelude.{Some};
    ghost use Rattle.document_input.specs.Notes.{document_text};

    ghost output = { λ refusal. Some (document_text refusal) };

    fn fmt<W: fmt::Write>(&self, f: &mut fmt::Formatter<W>) -> fmt::Result {
        match self {
            DocumentRefusal::TooLong => f.write_str("too long"),
            DocumentRefusal::Line { line } => write!(f, "line {line}"),
        }
    }
}

impl ShapesRefusal {
    ghost use Rattle.std.specs.Prelude.{◌≡◌, IfOk};
    ghost use Rattle.document_input.specs.Notes.{shapes_text};

    /// How the reason is written in the notes, with the canonical spelling of the term at fault.
    fn text(&self, alloc: Global) -> Result<Bytes, OutOfMemory>
        ensures { IfOk result (λ b. b ≡ shapes_text self.now) }
    {
        match self {
            ShapesRefusal::Unsupported { predicate } => words_of_term(
                alloc,
                "unsupported ",
                predicate,
            ),
            ShapesRefusal::IllFormed { node, rule } => {
                let mut text = words_of_term(alloc, "ill formed ", node)?;
                let rule = format!(in alloc; " rule {rule}")?;
                text.append(rule.as_bytes())?;
                Ok(text)
            }
            ShapesRefusal::Recursive { shape } => words_of_term(alloc, "recursive ", shape),
            ShapesRefusal::PathTooDeep { node } => words_of_term(alloc, "path too deep ", node),
            ShapesRefusal::ShapeTooDeep { shape } => words_of_term(alloc, "shape too deep ", shape),
        }
    }
}

impl fmt::Display for ClaimRefusal {
    ghost use Rattle.std.specs.Prelude.{Some};
    ghost use Rattle.document_input.specs.Notes.{claim_text};

    ghost output = { λ refusal. Some (claim_text refusal) };

    fn fmt<W: fmt::Write>(&self, f: &mut fmt::Formatter<W>) -> fmt::Result {
        match self {
            ClaimRefusal::NoPair => f.write_str("no pair"),
            ClaimRefusal::PairOutside { line } => write!(f, "pair outside line {line}"),
        }
    }
}

/// The words, and behind them the canonical spelling of the term.
fn words_of_term(alloc: Global, words: &str, term: &Term) -> Result<Bytes, OutOfMemory>
    ensures { IfOk result (λ b. b ≡ words.now ++ term_text term.now) }
{
    let mut text = bytes_of(alloc, words)?;
    text.append(write_term(alloc, term)?.as_slice())?;
    Ok(text)
}

impl InputRefusal {
    ghost use Rattle.std.specs.Prelude.{◌≡◌, IfOk};
    ghost use Rattle.document_input.specs.Notes.{refusal_text};

    /// How the refusal is written in the notes: the role of the document at fault, and why.
    pub fn text(&self, alloc: Global) -> Result<Bytes, OutOfMemory>
        ensures { IfOk result (λ b. b ≡ refusal_text self.now) }
    {
        match self {
            InputRefusal::Graph { role, refusal } => {
                let text = format!(in alloc; "{role}: {refusal}")?;
                bytes_of(alloc, text.as_str())
            }
            InputRefusal::Document(refusal) => {
                let text = format!(in alloc; "DOCUMENT: {refusal}")?;
                bytes_of(alloc, text.as_str())
            }
            InputRefusal::Shapes(refusal) => {
                let mut text = bytes_of(alloc, "SHAPES: ")?;
                text.append(refusal.text(alloc)?.as_slice())?;
                Ok(text)
            }
            InputRefusal::Claim(refusal) => {
                let text = format!(in alloc; "DOCUMENT: {refusal}")?;
                bytes_of(alloc, text.as_str())
            }
            InputRefusal::Literal(literal) => words_of_term(alloc, "DATA: literal ", literal),
        }
    }
}
