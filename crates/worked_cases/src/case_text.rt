//! How cases are written, line by line:
//!
//!     words explain s.nt d.nt o.nt    the words of all cases of the text, with one space between two
//!     --- s.nt                        a document that all cases have
//!     <http://example.org/S> ..       its lines, as they are, up to the next === or ---
//!     === ten bytes fit               a case, by its name
//!     words explain                   words of its own, in the place of those of the text
//!     word a name with spaces         one word more, as it stands
//!     keep e.txt                      what the call wrote to `out` is held under that name, and not shown
//!     keep e.txt claim                of such a document the claim and its triples are shown; for `sizes` how many
//!                                     triples it adds and deletes, for `steps` how many steps its proof has
//!     then check s.nt d.nt o.nt e.txt another call, which may be followed by `keep` too
//!     out 10                          the sink `out` takes ten bytes; so for `notes`
//!     out fails 1                     the first write to `out` fails
//!     --- d.nt                        a document of the case, in the place of a shared one
//!     --- o.nt fails 2 fails 3        a document whose second and third pulls fail
//!     --- x.nt unfinished             a document whose last line has no LF
//!     --- y.nt bytes                  a document by its bytes: pairs of hexadecimal digits
//!
//! Before the first document, and between a case's name and its first document, stand also empty lines
//! and lines that begin with #, which say nothing. No line of a document begins with === or ---, unless
//! the document is written by its bytes.

ghost use Rattle.std.specs.Prelude.{◌<◌, IfSome};

use crate::case::{Call, Case, Cases, Document, Kept, Shown, SinkPlan};
use crate::refusal::CaseError;
use numerals::parse_numeral;
use std::alloc::Global;

/// What the lines of a document are.
#[derive(Clone, Copy, Debug, PartialEq, Eq)]
enum Content {
    Text,
    Unfinished,
    Bytes,
}

/// What was read so far: the cases that are complete, and the case and the document that are not.
#[derive(Drop)]
struct Draft {
    alloc: Global,
    done: Cases,
    case: Option<Case>,
    document: Option<Document>,
    content: Content,
}

/// The cases of a text. `Line` names the first line that can't stand where it stands.
pub fn parse_cases(alloc: Global, text: &str) -> Result<Cases, CaseError> {
    let mut draft = Draft {
        alloc,
        done: Cases {
            words: Vec::new(alloc),
            documents: Vec::new(alloc),
            cases: Vec::new(alloc),
        },
        case: None,
        document: None,
        content: Content::Text,
    };
    let mut line = 0u64;
    for text in text.split_terminator('\n') {
        line = line.saturating_add(1);
        if !draft.take_line(text)? {
            return Err(CaseError::Line { line });
        }
    }
    draft.end_case()?;
    Ok(draft.done)
}

impl Draft {
    /// Takes the next line, and answers whether it can stand there.
    fn take_line(&mut self, text: &str) -> Result<bool, CaseError> {
        if let Some(name) = text.strip_prefix("=== ") {
            self.end_case()?;
            self.case = Some(Case::new(self.alloc, name)?);
            return Ok(!name.is_empty());
        }
        if let Some(head) = text.strip_prefix("--- ") {
            self.end_document()?;
            return self.begin_document(head);
        }
        if text.starts_with("===") || text.starts_with("---") {
            return Ok(false);
        }
        match &mut self.document {
            Some(document) => push_line(document, self.content, text),
            None => self.take_head_line(text),
        }
    }

    fn end_document(&mut self) -> Result<(), CaseError> {
        let Some(mut document) = self.document.take() else {
            return Ok(());
        };
        if self.content == Content::Unfinished {
            let _line_feed = document.bytes.pop();
        }
        match &mut self.case {
            Some(case) => case.documents.push(document)?,
            None => self.done.documents.push(document)?,
        }
        Ok(())
    }

    fn end_case(&mut self) -> Result<(), CaseError> {
        self.end_document()?;
        if let Some(case) = self.case.take() {
            self.done.cases.push(case)?;
        }
        Ok(())
    }

    /// Begins the document of that name, with what is said of it behind the name.
    fn begin_document(&mut self, head: &str) -> Result<bool, CaseError> {
        let (name, said) = split_word(head);
        let mut failing = Vec::new(self.alloc);
        let mut is_call = false;
        self.content = Content::Text;
        for word in said.split(' ') {
            match (word, parse_call(word)) {
                (_, Some(call)) if is_call => {
                    failing.push(call)?;
                    is_call = false;
                }
                ("fails", _) => is_call = true,
                ("unfinished", _) => self.content = Content::Unfinished,
                ("bytes", _) => self.content = Content::Bytes,
                ("", _) => {}
                _ => return Ok(false),
            }
        }
        self.document = Some(Document {
            name: String::from_str(self.alloc, name)?,
            bytes: Vec::new(self.alloc),
            failing,
        });
        Ok(!name.is_empty() && !is_call)
    }

    /// A line before the first document of the text or of a case.
    fn take_head_line(&mut self, text: &str) -> Result<bool, CaseError> {
        if text.is_empty() || text.starts_with("#") {
            return Ok(true);
        }
        let (kind, rest) = split_word(text);
        match (kind, &mut self.case) {
            ("words", None) => self.done.words = words_of(self.alloc, rest)?,
            ("words", Some(case)) => case.words = Some(words_of(self.alloc, rest)?),
            ("word", Some(case)) => case.push_word(self.alloc, rest)?,
            ("keep", Some(case)) => return keep(self.alloc, case, rest),
            ("then", Some(case)) => case.later.push(Call {
                words: words_of(self.alloc, rest)?,
                kept: None,
            })?,
            ("out", Some(case)) => return plan(&mut case.out, rest),
            ("notes", Some(case)) => return plan(&mut case.notes, rest),
            _ => return Ok(false),
        }
        Ok(true)
    }
}

/// Takes the name under which what the last call writes is held, and what is shown of it.
fn keep(alloc: Global, case: &mut Case, text: &str) -> Result<bool, CaseError> {
    let (name, said) = split_word(text);
    let shown = match said {
        "" => Shown::Nothing,
        "claim" => Shown::Claim,
        "sizes" => Shown::Sizes,
        "steps" => Shown::Steps,
        _ => return Ok(false),
    };
    case.keep(Kept {
        name: String::from_str(alloc, name)?,
        shown,
    });
    Ok(!name.is_empty())
}

/// The text before its first space, and what stands behind that space.
fn split_word(text: &str) -> (&str, &str) {
    match text.split_once(' ') {
        Some((word, rest)) => (word, rest),
        None => (text, ""),
    }
}

/// The words of a line, with one space between two. An empty line has none.
fn words_of(alloc: Global, text: &str) -> Result<Vec<String>, CaseError> {
    let mut words = Vec::new(alloc);
    if text.is_empty() {
        return Ok(words);
    }
    for word in text.split(' ') {
        words.push(String::from_str(alloc, word)?)?;
    }
    Ok(words)
}

/// The number of a pull or a write, counted from 1.
fn parse_call(digits: &str) -> Option<u64> {
    parse_numeral(digits).filter(|call| *call > 0)
}

/// Takes the room of a sink, or the number of a write that is to fail.
fn plan(sink: &mut SinkPlan, text: &str) -> Result<bool, CaseError> {
    if let Some(digits) = text.strip_prefix("fails ") {
        let Some(call) = parse_call(digits) else {
            return Ok(false);
        };
        sink.failing.push(call)?;
        return Ok(true);
    }
    let Some(room) = parse_numeral(text) else {
        return Ok(false);
    };
    sink.room = room;
    Ok(true)
}

/// Appends a line to the document, and answers whether it can stand there.
fn push_line(document: &mut Document, content: Content, text: &str) -> Result<bool, CaseError> {
    if content == Content::Bytes {
        return push_pairs(&mut document.bytes, text);
    }
    document.bytes.extend_from_slice(text.as_bytes())?;
    document.bytes.push(b'\n')?;
    Ok(true)
}

/// Appends the bytes that pairs of hexadecimal digits spell, with spaces between the pairs.
fn push_pairs(bytes: &mut Vec<u8>, text: &str) -> Result<bool, CaseError> {
    for pair in text.split_whitespace() {
        match pair.as_bytes() {
            [high, low] => match (hex_value(*high), hex_value(*low)) {
                (Some(high), Some(low)) => bytes.push(high * 16 + low)?,
                _ => return Ok(false),
            },
            _ => return Ok(false),
        }
    }
    Ok(true)
}

fn hex_value(digit: u8) -> Option<u8>
    ensures { IfSome result (λ value. value < 16) }
{
    match digit {
        b'0'..=b'9' => Some(digit - b'0'),
        b'A'..=b'F' => Some(digit - b'A' + 10),
        b'a'..=b'f' => Some(digit - b'a' + 10),
        _ => None,
    }
}
