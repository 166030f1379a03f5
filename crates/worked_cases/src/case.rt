use std::alloc::{AllocError, Global};

/// The room of a sink where a case names none, in bytes.
const AMPLE_ROOM: u64 = 1 << 20;

/// A document of a case.
#[derive(Drop)]
pub struct Document {
    pub name: String,
    pub bytes: Vec<u8>,
    /// The numbers of the pulls that are to fail, counted from 1.
    pub failing: Vec<u64>,
}

/// A sink of a case.
#[derive(Drop)]
pub struct SinkPlan {
    /// How many bytes it takes.
    pub room: u64,
    /// The numbers of the writes that are to fail, counted from 1.
    pub failing: Vec<u64>,
}

impl SinkPlan {
    /// A sink with ample room that never fails.
    pub fn new(alloc: Global) -> SinkPlan {
        SinkPlan {
            room: AMPLE_ROOM,
            failing: Vec::new(alloc),
        }
    }
}

/// What is shown of a document that a call wrote.
#[derive(Clone, Copy, Debug, PartialEq, Eq)]
pub enum Shown {
    Nothing,
    /// What is claimed, and the triples of a claimed pair.
    Claim,
    /// What is claimed, and how many triples a claimed pair has.
    Sizes,
    /// What is claimed, and how many steps its proof has.
    Steps,
}

/// Where the later calls of a case find what a call wrote to `out`.
#[derive(Drop)]
pub struct Kept {
    pub name: String,
    pub shown: Shown,
}

/// A later call of a case, over the same documents and those that were kept.
#[derive(Drop)]
pub struct Call {
    pub words: Vec<String>,
    pub kept: Option<Kept>,
}

/// A call of the program and, one after another, later ones, over documents of its own. Each call has sinks of its own.
#[derive(Drop)]
pub struct Case {
    pub name: String,
    /// The words of its first call, where it doesn't take those of the text.
    pub words: Option<Vec<String>>,
    /// What is kept of its first call.
    pub kept: Option<Kept>,
    pub later: Vec<Call>,
    pub documents: Vec<Document>,
    pub out: SinkPlan,
    pub notes: SinkPlan,
}

impl Case {
    /// A case of that name, with no word and no document.
    pub fn new(alloc: Global, name: &str) -> Result<Case, AllocError> {
        Ok(Case {
            name: String::from_str(alloc, name)?,
            words: None,
            kept: None,
            later: Vec::new(alloc),
            documents: Vec::new(alloc),
            out: SinkPlan::new(alloc),
            notes: SinkPlan::new(alloc),
        })
    }

    /// Keeps what the last call writes.
    pub fn keep(&mut self, kept: Kept) {
        match self.later.last_mut() {
            Some(call) => call.kept = Some(kept),
            None => self.kept = Some(kept),
        }
    }

    /// Appends a word to those of the first call.
    pub fn push_word(&mut self, alloc: Global, word: &str) -> Result<(), AllocError> {
        let word = String::from_str(alloc, word)?;
        let mut words = self.words.take().unwrap_or(Vec::new(alloc));
        words.push(word)?;
        self.words = Some(words);
        Ok(())
    }
}

/// The cases of a text, and the words and documents that each of them has where it has no other.
#[derive(Drop)]
pub struct Cases {
    pub words: Vec<String>,
    pub documents: Vec<Document>,
    pub cases: Vec<Case>,
}
