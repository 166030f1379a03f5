ghost use Rattle.std.specs.Prelude.{◌≡◌, ◌≢◌, ℕ, ◌≤◌, ◌<◌, ◌+◌, ◌-◌, ◌++◌, [], List, Some, IfOk, OnOk, OnErr, IsSome, IfSome, length, take, drop, nat_eq, position, replicate};
ghost use Rattle.std.specs.Cmp.Lexicographic.{pointwise};
ghost use Rattle.shelf_io.specs.Content.{bytes_of};
ghost use Rattle.shelf_io.specs.Kept.{kept_at, held_anew, failing_at, pull_answer, after_pull, faults_in, HoldsAnew, ChangesKept};

use crate::calls::CallLog;
use crate::content::Content;
use crate::{Failed, Shelf};
use rdf_terms::{OutOfMemory, Text};
use std::alloc::Global;
use std::marker::Model;

/// What is held under one name.
#[derive(Drop)]
struct Entry {
    name: Text,
    content: Content,
    calls: CallLog,
}

impl Model for Entry {
    ghost use Rattle.shelf_io.specs.Kept.{Kept};

    ghost Value = { Kept };

    ghost use Rattle.shelf_io.specs.Content.{bytes_of};

    ghost view = { λ e. record { name = e.name; bytes = bytes_of e.content; calls = e.calls } };
}

impl Entry {
    /// An entry with no pull yet.
    fn new(alloc: Global, name: &str, content: Content) -> Result<Entry, OutOfMemory>
        ensures { IfOk result (λ e. e ≡ held_anew name.now (bytes_of content) None) }
    {
        let name = Text::from_str(alloc, name)?;
        Ok(Entry {
            name,
            content,
            calls: CallLog::new(alloc),
        })
    }

    /// Whether it is held under that name.
    fn is_named(&self, name: &str) -> bool
        ensures { result ≡ pointwise nat_eq self.now.name name.now }
    {
        self.name.as_str() == name
    }

    /// Other bytes in the place of those that were held. The calls stay.
    fn replace(&mut self, content: Content)
        ensures { self.new ≡ record self.old { bytes = bytes_of content } }
    {
        self.content = content;
    }

    /// The pull of that number is to fail.
    fn fail_at(&mut self, call: u64) -> Result<(), OutOfMemory>
        ensures ok { OnOk result (self.new ≡ failing_at call self.old) }
        ensures err { OnErr result (self.new ≡ self.old) }
    {
        self.calls.fail_at(call)
    }

    /// Fails where this pull is to fail, and else hands out as many bytes as fit.
    fn pull(&mut self, at: u64, buf: &mut [u8]) -> Result<usize, Failed>
        ensures answer { result ≡ pull_answer (Some self.old) at (length buf.old) }
        ensures buffer { IfOk result (λ n. buf.new ≡ take n (drop at self.old.bytes) ++ drop n buf.old) }
        ensures err { OnErr result (buf.new ≡ buf.old) }
        ensures after { self.new ≡ after_pull self.old }
        ensures later { self.old.calls.faults ≤ self.new.calls.faults }
    {
        if self.calls.count(false) {
            return Err(Failed);
        }
        Ok(self.content.copy_to(at, buf))
    }
}

/// A shelf in memory, which tells what it holds. It counts the pulls and the faults of each held
/// name; the counts of every other name always stand at their end, 2^64 - 1.
#[derive(Drop)]
pub struct MemoryShelf {
    alloc: Global,
    entries: Vec<Entry>,
}

impl Model for MemoryShelf {
    ghost use Rattle.std.specs.Prelude.{List};
    ghost use Rattle.shelf_io.specs.Kept.{Kept};

    ghost Value = { List Kept };

    ghost view = { λ s. s.entries.items };
}

/// The place of the first entry of that name.
fn place_of(entries: &[Entry], name: &str) -> Option<usize>
    ensures { result ≡ position (λ k. pointwise nat_eq k.name name.now) entries.now }
{
    entries.iter().position(|entry| entry.is_named(name))
}

impl MemoryShelf {
    /// A shelf that holds nothing. It takes no memory.
    pub fn new(alloc: Global) -> MemoryShelf
        ensures { result ≡ [] }
    {
        MemoryShelf {
            alloc,
            entries: Vec::new(alloc),
        }
    }

    /// Holds the bytes under the name, in the place of those that were held under it. The name's
    /// count of faults, the number of its pulls and those that are to fail stay, and so does all
    /// that is held under other names. After `OutOfMemory` the shelf is as before.
    pub fn hold(&mut self, name: &str, bytes: &[u8]) -> Result<(), OutOfMemory>
        ensures ok { OnOk result (HoldsAnew self.old self.new name.now bytes.now) }
        ensures err { OnErr result (self.new ≡ self.old) }
    {
        let bytes = Vec::from_slice(self.alloc, bytes)?;
        self.hold_content(name, Content::Stored(bytes))
    }

    /// Holds one byte, so many times, under the name, as `hold` does, but without storing them.
    pub fn hold_repeated(&mut self, name: &str, byte: u8, count: u64) -> Result<(), OutOfMemory>
        ensures ok { OnOk result (HoldsAnew self.old self.new name.now (replicate count byte)) }
        ensures err { OnErr result (self.new ≡ self.old) }
    {
        self.hold_content(name, Content::Repeated { byte, count })
    }

    /// Holds the content under the name, as `hold` says.
    fn hold_content(&mut self, name: &str, content: Content) -> Result<(), OutOfMemory>
        ensures ok { OnOk result (HoldsAnew self.old self.new name.now (bytes_of content)) }
        ensures err { OnErr result (self.new ≡ self.old) }
    {
        match place_of(&self.entries, name) {
            Some(i) => {
                let entry = &mut self.entries[i];
                entry.replace(content);
            }
            None => {
                let entry = Entry::new(self.alloc, name, content)?;
                self.entries.push(entry)?;
            }
        }
        Ok(())
    }

    /// The pull of that number of this name is to fail, counted from 1 and from its first pull
    /// on. The name must be held. After `OutOfMemory` the shelf is as before.
    pub fn fail_at(&mut self, name: &str, call: u64) -> Result<(), OutOfMemory>
        requires { IsSome (kept_at self.old name.now) }
        ensures ok { OnOk result (ChangesKept (failing_at call) self.old self.new name.now) }
        ensures err { OnErr result (self.new ≡ self.old) }
    {
        match place_of(&self.entries, name) {
            Some(i) => {
                let entry = &mut self.entries[i];
                entry.fail_at(call)
            }
            None => unreachable!(),
        }
    }

    /// Pulls from the entry of that name, if there is one.
    fn pull_entry(&mut self, name: &str, at: u64, buf: &mut [u8]) -> Result<usize, Failed>
        ensures answer { result ≡ pull_answer (kept_at self.old name.now) at (length buf.old) }
        ensures buffer { IfOk result (λ n. IfSome (kept_at self.old name.now)
            (λ k. buf.new ≡ take n (drop at k.bytes) ++ drop n buf.old)) }
        ensures err { OnErr result (buf.new ≡ buf.old) }
        ensures after { ChangesKept after_pull self.old self.new name.now }
        ensures later { faults_in self.old name.now ≤ faults_in self.new name.now }
    {
        match place_of(&self.entries, name) {
            Some(i) => {
                let entry = &mut self.entries[i];
                entry.pull(at, buf)
            }
            None => Err(Failed),
        }
    }
}

impl Shelf for MemoryShelf {
    ghost use Rattle.std.specs.Prelude.{Some};
    ghost use Rattle.shelf_io.specs.Causes.{HasCause, raised};
    ghost use Rattle.shelf_io.specs.Held.{Pulls};
    ghost use Rattle.shelf_io.specs.Kept.{kept_at, held_in, faults_in, pulls_in, pull_answer, after_pull, ChangesKept};
    ghost use Rattle.shelf_io.specs.Named.{ChangesOnly};

    ghost held = { λ s. Some (held_in s) };

    ghost faults = { faults_in };

    ghost pulls = { pulls_in };

    /// Fails exactly where the name isn't held or this pull is to fail, and else hands out as many
    /// bytes as fit. Where it fails, the buffer stays.
    fn pull(&mut self, name: &str, at: u64, buf: &mut [u8]) -> Result<usize, Failed>
        ensures answer { result ≡ pull_answer (kept_at self.old name.now) at (length buf.old) }
        ensures untouched { OnErr result (buf.new ≡ buf.old) }
        ensures after { ChangesKept after_pull self.old self.new name.now }
        ensures bound { IfOk result (λ n. n ≤ length buf.old) }
        ensures rest { IfOk result (λ n. drop n buf.new ≡ drop n buf.old) }
        ensures bytes { Pulls (Some (held_in self.old)) name.now at result buf.new }
        ensures kept { Some (held_in self.new) ≡ Some (held_in self.old) }
        ensures cause { HasCause (faults_in self.old name.now) (faults_in self.new name.now) result }
        ensures later { (any : List ℕ) → faults_in self.old any ≤ faults_in self.new any }
        ensures others { (other : List ℕ) → other ≢ name.now → faults_in self.new other ≡ faults_in self.old other }
        ensures counted { ChangesOnly (pulls_in self.old) (pulls_in self.new) name.now
            (raised (pulls_in self.old name.now)) }
    {
        self.pull_entry(name, at, buf)
    }
}
