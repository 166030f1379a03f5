ghost use Rattle.std.specs.Prelude.{◌≡◌, ◌+◌, ◌<◌, ◌^◌, length, OnOk, IfErr};

use crate::DocumentText;
use crate::claim_line::parse_claim_line;
use crate::proof_line::parse_proof_line;
use crate::rising::RisingTriples;
use crate::triple_line::parse_triple_line;
use proof_lines::{Claim, Proof, ProofLines};
use rdf_grammar::ParseError;
use std::alloc::Global;

const VERSION: &str = "explanation 1";

const ADD: &str = "add ";

const DELETE: &str = "delete ";

const END: &str = "end";

/// Which lines may come next.
#[derive(Clone, Copy, Debug, PartialEq, Eq)]
pub enum Stage {
    /// The line of the version.
    Version,
    /// The claim.
    Claimed,
    /// An addition or what comes behind the additions.
    Adds,
    /// A deletion or what comes behind the deletions.
    Deletes,
    /// A line of the proof or the end.
    Proved,
    /// None.
    Ended,
}

/// What the lines so far give. The triples of each kind are in order, each once.
#[derive(Drop)]
pub struct Draft {
    pub stage: Stage,
    /// The claim, once its line was read.
    pub claim: Claim,
    pub adds: RisingTriples,
    pub deletes: RisingTriples,
    pub lines: ProofLines,
}

impl Draft {
    ghost use Rattle.proof_documents.specs.Stages.{nothing_read, document_of, TakesClaim, TakesAdd};
    ghost use Rattle.proof_documents.specs.Stages.{TakesDelete, TakesAt, Takes};
    ghost use Rattle.proof_documents.specs.Refusing.{IsRefused};
    ghost use Rattle.proof_documents.specs.Taking.{Took};

    /// Nothing was read.
    pub fn new(alloc: Global) -> Draft
        ensures { result ≡ nothing_read }
    {
        Draft {
            stage: Stage::Version,
            claim: Claim::NoPair,
            adds: RisingTriples::new(alloc),
            deletes: RisingTriples::new(alloc),
            lines: ProofLines::new(alloc),
        }
    }

    /// Takes the next line, without its LF. `NoMatch` exactly where it can't stand there.
    pub fn take(&mut self, alloc: Global, text: &[u8]) -> Result<(), ParseError>
        ensures ok { OnOk result (Takes self.old text.now self.new) }
        ensures err { IfErr result (λ e. IsRefused e self.old text.now) }
    {
        match self.stage {
            Stage::Version => self.take_version(text),
            Stage::Claimed => self.take_claim(text),
            Stage::Adds => self.take_from_adds(alloc, text),
            Stage::Deletes => self.take_from_deletes(alloc, text),
            Stage::Proved => self.take_from_proof(alloc, text),
            Stage::Ended => Err(ParseError::NoMatch),
        }
    }

    /// What was read, as a document. It takes no memory.
    pub fn into_document(self) -> DocumentText
        requires { length self.adds + length self.deletes < 2 ^ 63 }
        ensures { result ≡ document_of self }
    {
        let Draft {
            stage: _,
            claim,
            adds,
            deletes,
            lines,
        } = self;
        DocumentText {
            adds: adds.into_triples(),
            deletes: deletes.into_triples(),
            proof: Proof { claim, lines },
        }
    }

    fn take_version(&mut self, text: &[u8]) -> Result<(), ParseError>
        ensures { Took result (TakesAt Stage.Version self.old text.now) self.old self.new }
    {
        if text != VERSION.as_bytes() {
            return Err(ParseError::NoMatch);
        }
        self.stage = Stage::Claimed;
        Ok(())
    }

    fn take_claim(&mut self, text: &[u8]) -> Result<(), ParseError>
        ensures { Took result (TakesClaim self.old text.now) self.old self.new }
    {
        let claim = parse_claim_line(text).ok_or(ParseError::NoMatch)?;
        self.claim = claim;
        self.stage = match claim {
            Claim::Pair => Stage::Adds,
            Claim::NoPair | Claim::Spent => Stage::Proved,
        };
        Ok(())
    }

    /// An addition, or what may come behind the additions.
    fn take_from_adds(&mut self, alloc: Global, text: &[u8]) -> Result<(), ParseError>
        ensures { Took result (TakesAt Stage.Adds self.old text.now) self.old self.new }
    {
        match self.take_add(alloc, text) {
            Err(ParseError::NoMatch) => self.take_from_deletes(alloc, text),
            answer => answer,
        }
    }

    /// A deletion, or what may come behind the deletions.
    fn take_from_deletes(&mut self, alloc: Global, text: &[u8]) -> Result<(), ParseError>
        ensures { Took result (TakesAt Stage.Deletes self.old text.now) self.old self.new }
    {
        match self.take_delete(alloc, text) {
            Err(ParseError::NoMatch) => self.take_from_proof(alloc, text),
            answer => answer,
        }
    }

    /// The end, or a line of the proof.
    fn take_from_proof(&mut self, alloc: Global, text: &[u8]) -> Result<(), ParseError>
        ensures { Took result (TakesAt Stage.Proved self.old text.now) self.old self.new }
    {
        if text == END.as_bytes() {
            self.stage = Stage::Ended;
            return Ok(());
        }
        let line = parse_proof_line(alloc, text)?;
        self.lines.push(line)?;
        self.stage = Stage::Proved;
        Ok(())
    }

    fn take_add(&mut self, alloc: Global, text: &[u8]) -> Result<(), ParseError>
        ensures { Took result (TakesAdd self.old text.now) self.old self.new }
    {
        let triple = parse_triple_line(alloc, ADD, text)?;
        if !self.adds.push(triple)? {
            return Err(ParseError::NoMatch);
        }
        self.stage = Stage::Adds;
        Ok(())
    }

    fn take_delete(&mut self, alloc: Global, text: &[u8]) -> Result<(), ParseError>
        ensures { Took result (TakesDelete self.old text.now) self.old self.new }
    {
        let triple = parse_triple_line(alloc, DELETE, text)?;
        if !self.deletes.push(triple)? {
            return Err(ParseError::NoMatch);
        }
        self.stage = Stage::Deletes;
        Ok(())
    }
}
