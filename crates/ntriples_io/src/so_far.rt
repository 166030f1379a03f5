ghost use Rattle.std.specs.Prelude.{◌≡◌, ℕ, ◌+◌, ◌<◌, ◌≤◌, ◌^◌, ◌∷◌, ◌++◌, [], List, length, None, Some, Err, IfOk, IfSome, IfErr, OnOk, true};
ghost use Rattle.std.specs.List.{list_all};
ghost use Rattle.ntriples_io.specs.Cutting.{is_break, is_plain};

use crate::NtRefusal;
use crate::pieces::{ends_pair, push_line_triple, split_at_break};
use rdf_grammar::RecentTexts;
use rdf_terms::{Graph, Scope, Triples};
use std::alloc::Global;

/// The lines that a reader has read so far: their triples, and the bytes of the line that has not
/// ended yet. An `NtReader` is one of these, seen as its `Progress`, so that no public contract speaks
/// of fields.
#[derive(Drop)]
pub struct LinesSoFar {
    alloc: Global,
    scope: Scope,
    texts: RecentTexts,
    triples: Triples,
    rest: Vec<u8>,
    line: u64,
    after_cr: bool,
    taken: u64,
    refusal: Option<NtRefusal>,
    ghost few: { line ≤ taken + 1 },
}

impl LinesSoFar {
    ghost use Rattle.ntriples_io.specs.RoundTrip.{HasScope};
    ghost use Rattle.ntriples_io.specs.Text.{IsAnswer, IsOnlyAnswer, AreLawful};
    ghost use Rattle.ntriples_io.specs.Feeding.{HasRead, HasReadOr, progress_of};

    /// A reader that has read nothing. Blank nodes will have this scope. It takes no memory.
    pub fn new(alloc: Global, scope: Scope) -> LinesSoFar
        ensures read { HasRead (progress_of result) [] }
        ensures scope { result.scope ≡ scope }
        ensures taken { result.taken ≡ 0 }
    {
        LinesSoFar {
            alloc,
            scope,
            texts: RecentTexts::new(alloc),
            triples: Triples::new(alloc),
            rest: Vec::new(alloc),
            line: 1,
            after_cr: false,
            taken: 0,
            refusal: None,
        }
    }

    /// How many bytes were taken.
    pub fn bytes_taken(&self) -> u64
        ensures { result ≡ self.now.taken }
    {
        self.taken
    }

    /// Takes bytes among which there is no break.
    fn extend_line(&mut self, run: &[u8]) -> Result<(), NtRefusal>
        requires open { self.old.refusal ≡ None }
        requires few { self.old.taken + length run.now < 2 ^ 63 }
        requires plain { list_all is_plain run.now ≡ true }
        ensures read { (so_far : List ℕ) → HasRead (progress_of self.old) so_far →
            HasReadOr result (progress_of self.new) (so_far ++ run.now) }
        ensures open { self.new.refusal ≡ None }
        ensures scope { self.new.scope ≡ self.old.scope }
        ensures taken { OnOk result (self.new.taken ≡ self.old.taken + length run.now) }
        ensures bound { self.new.taken ≤ self.old.taken + length run.now }
    {
        if run.is_empty() {
            return Ok(());
        }
        self.rest.extend_from_slice(run)?;
        self.after_cr = false;
        self.taken += run.len() as u64;
        Ok(())
    }

    /// Takes a break, which ends a line.
    fn end_line(&mut self, b: u8) -> Result<(), NtRefusal>
        requires open { self.old.refusal ≡ None }
        requires few { self.old.taken + 1 < 2 ^ 63 }
        requires ended { is_break b ≡ true }
        ensures read { (so_far : List ℕ) → HasRead (progress_of self.old) so_far →
            HasReadOr result (progress_of self.new) (so_far ++ b ∷ []) }
        ensures open { self.new.refusal ≡ None }
        ensures scope { self.new.scope ≡ self.old.scope }
        ensures taken { OnOk result (self.new.taken ≡ self.old.taken + 1) }
        ensures bound { self.new.taken ≤ self.old.taken + 1 }
    {
        if ends_pair(b, self.after_cr) {
            // The line between CR and LF is empty, and has no number of its own.
            self.rest.clear();
            self.after_cr = false;
            self.taken += 1;
            return Ok(());
        }
        push_line_triple(
            self.alloc,
            &mut self.texts,
            self.scope,
            self.line,
            &self.rest,
            &mut self.triples,
        )?;
        self.rest.clear();
        self.line += 1;
        self.after_cr = b == b'\r';
        self.taken += 1;
        Ok(())
    }

    /// Takes a piece of the bytes, line by line.
    fn take(&mut self, piece: &[u8]) -> Result<(), NtRefusal>
        requires open { self.old.refusal ≡ None }
        requires few { self.old.taken + length piece.now < 2 ^ 63 }
        ensures read { (so_far : List ℕ) → HasRead (progress_of self.old) so_far →
            HasReadOr result (progress_of self.new) (so_far ++ piece.now) }
        ensures open { self.new.refusal ≡ None }
        ensures scope { self.new.scope ≡ self.old.scope }
        ensures taken { OnOk result (self.new.taken ≡ self.old.taken + length piece.now) }
        ensures bound { self.new.taken ≤ self.old.taken + length piece.now }
    {
        self.texts.keep()?;
        let mut bytes = piece;
        'lines: while let Some((plain, b, after)) = split_at_break(bytes) {
            self.extend_line(plain)?;
            self.end_line(b)?;
            bytes = after;
        }
        self.extend_line(bytes)
    }

    /// Takes the next piece of the bytes. `Syntax` comes exactly where a line that ended within the
    /// bytes so far is none of N-Triples, and names the first such line.
    pub fn feed(&mut self, piece: &[u8]) -> Result<(), NtRefusal>
        // All bytes so far are fewer than 2 ^ 63.
        requires { self.old.taken + length piece.now < 2 ^ 63 }
        ensures read { (so_far : List ℕ) → HasRead (progress_of self.old) so_far →
            HasRead (progress_of self.new) (so_far ++ piece.now) }
        ensures ok { OnOk result (self.new.refusal ≡ None) }
        ensures err { IfErr result (λ e. self.new.refusal ≡ Some e) }
        ensures same { IfSome self.old.refusal (λ e. result ≡ Err e) }
        ensures scope { self.new.scope ≡ self.old.scope }
        ensures taken { OnOk result (self.new.taken ≡ self.old.taken + length piece.now) }
        ensures bound { self.new.taken ≤ self.old.taken + length piece.now }
    {
        if let Some(refusal) = self.refusal {
            return Err(refusal);
        }
        match self.take(piece) {
            Ok(()) => Ok(()),
            Err(refusal) => {
                self.refusal = Some(refusal);
                Err(refusal)
            }
        }
    }

    /// The graph of all bytes, the rest being the last line. `Syntax` names the first line that is
    /// none of N-Triples.
    pub fn finish(self) -> Result<Graph, NtRefusal>
        ensures answer { (so_far : List ℕ) → HasRead (progress_of self) so_far →
            IsAnswer so_far self.scope result }
        ensures only { (so_far : List ℕ) → HasRead (progress_of self) so_far →
            IsOnlyAnswer so_far self.scope result }
        ensures lawful { (so_far : List ℕ) → HasRead (progress_of self) so_far → IfOk result AreLawful }
        ensures scope { (so_far : List ℕ) → HasRead (progress_of self) so_far → IfOk result (HasScope self.scope) }
        ensures same { IfSome self.refusal (λ e. result ≡ Err e) }
    {
        let LinesSoFar {
            alloc,
            scope,
            mut texts,
            mut triples,
            rest,
            line,
            after_cr: _,
            taken: _,
            refusal,
        } = self;
        if let Some(refusal) = refusal {
            return Err(refusal);
        }
        push_line_triple(alloc, &mut texts, scope, line, &rest, &mut triples)?;
        let graph = Graph::from_triples(alloc, triples)?;
        Ok(graph)
    }
}
