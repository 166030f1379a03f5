ghost use Rattle.std.specs.Prelude.{◌≡◌, ◌≢◌, ℕ, IfOk, ◌<◌, ◌≤◌, ◌^◌, List, length, drop, map, nat_eq, position, string_bytes, is_err};
ghost use Rattle.std.specs.Cmp.Lexicographic.{pointwise};
ghost use Rattle.shelf_io.specs.Counted.{unasked, after_pull, faults_at, pulls_at, CountsPull};

use crate::{Failed, Shelf};
use rdf_terms::OutOfMemory;
use std::alloc::Global;
use std::io::{Read, Seek, SeekFrom};
use std::marker::Model;
use std::rt::Files;
use std::{fs, io};

/// A word of the command line, how many pulls of that name were made, and how many have failed.
#[derive(Drop)]
struct WordCount<'a> {
    word: &'a str,
    pulls: u64,
    faults: u64,
}

impl<'a> Model for WordCount<'a> {
    ghost use Rattle.shelf_io.specs.Counted.{Counted};

    ghost Value = { Counted };

    ghost view = { λ c. record { word = c.word.now; pulls = c.pulls; faults = c.faults } };
}

impl WordCount<'_> {
    /// Counts one more pull, which failed or not.
    fn count(&mut self, failed: bool)
        ensures after { self.new ≡ after_pull failed self.old }
        ensures later { self.old.faults ≤ self.new.faults }
    {
        self.pulls = self.pulls.saturating_add(1);
        if failed {
            self.faults = self.faults.saturating_add(1);
        }
    }
}

/// The files of the system, seen as the counts of pulls and faults of the words of the command line.
/// It tells nothing of what the files hold.
#[derive(Drop)]
pub struct FileShelf<'a, R> {
    rt: &'a R,
    counts: Vec<WordCount<'a>>,
}

impl<'a, R> Model for FileShelf<'a, R> {
    ghost use Rattle.std.specs.Prelude.{List};
    ghost use Rattle.shelf_io.specs.Counted.{Counted};

    ghost Value = { List Counted };

    ghost view = { λ s. s.counts.items };
}

impl<'a, R: Files> FileShelf<'a, R> {
    /// A shelf whose names are paths. It counts the pulls and the faults of each of the words, from 0
    /// on. The counts of every other name always stand at their end, 2^64 - 1.
    pub fn new(
        rt: &'a R,
        alloc: Global,
        words: &'a [String],
    ) -> Result<FileShelf<'a, R>, OutOfMemory>
        ensures { IfOk result (λ s. s ≡ map (λ word. unasked (string_bytes word)) words.now) }
    {
        let counts = words
            .iter()
            .map(|word| WordCount {
                word: word.as_str(),
                pulls: 0,
                faults: 0,
            })
            .collect(alloc)?;
        Ok(FileShelf { rt, counts })
    }

    /// Counts a pull of that name, if it is a word.
    fn count(&mut self, name: &str, failed: bool)
        ensures after { CountsPull failed self.old self.new name.now }
        ensures later { faults_at self.old name.now ≤ faults_at self.new name.now }
    {
        if let Some(i) = place_of(&self.counts, name) {
            let count = &mut self.counts[i];
            count.count(failed);
        }
    }
}

/// The place of the first word that equals the name.
fn place_of(counts: &[WordCount], name: &str) -> Option<usize>
    ensures { result ≡ position (λ counted. pointwise nat_eq counted.word name.now) counts.now }
{
    counts.iter().position(|count| count.word == name)
}

/// The most bytes that are read at a time.
const PIECE: usize = 1 << 14;

/// Opens the file, goes to the place and reads.
fn read_at<R: Files>(rt: &R, name: &str, at: u64, buf: &mut [u8]) -> io::Result<usize>
    ensures { IfOk result (λ n. n ≤ length buf.old) }
{
    let mut file = fs::open(rt, name)?;
    file.seek(SeekFrom::Start(at))?;
    file.read(buf)
}

/// As `read_at`, but the rest of the buffer stays, which a reader of std doesn't promise.
fn read_front<R: Files>(rt: &R, name: &str, at: u64, buf: &mut [u8]) -> io::Result<usize>
    ensures bound { IfOk result (λ n. n ≤ length buf.old) }
    ensures rest { IfOk result (λ n. drop n buf.new ≡ drop n buf.old) }
{
    let mut piece = [0u8; PIECE];
    let room = buf.len().min(PIECE);
    let count = read_at(rt, name, at, &mut piece[..room])?;
    buf[..count].copy_from_slice(&piece[..count]);
    Ok(count)
}

impl<'a, R: Files> Shelf for FileShelf<'a, R> {
    ghost use Rattle.std.specs.Prelude.{None};
    ghost use Rattle.shelf_io.specs.Causes.{HasCause, raised};
    ghost use Rattle.shelf_io.specs.Named.{ChangesOnly};

    ghost held = { λ _. None };

    ghost faults = { faults_at };

    ghost pulls = { pulls_at };

    /// Opens the file of that name, goes to the place and reads once. Each error of the system
    /// counts as a failure.
    fn pull(&mut self, name: &str, at: u64, buf: &mut [u8]) -> Result<usize, Failed>
        ensures count { CountsPull (is_err result) self.old self.new name.now }
        ensures bound { IfOk result (λ n. n ≤ length buf.old) }
        ensures rest { IfOk result (λ n. drop n buf.new ≡ drop n buf.old) }
        ensures cause { HasCause (faults_at self.old name.now) (faults_at self.new name.now) result }
        ensures later { (any : List ℕ) → faults_at self.old any ≤ faults_at self.new any }
        ensures others { (other : List ℕ) → other ≢ name.now → faults_at self.new other ≡ faults_at self.old other }
        ensures counted { ChangesOnly (pulls_at self.old) (pulls_at self.new) name.now
            (raised (pulls_at self.old name.now)) }
    {
        match read_front(self.rt, name, at, buf) {
            Ok(count) => {
                self.count(name, false);
                Ok(count)
            }
            Err(_) => {
                self.count(name, true);
                Err(Failed)
            }
        }
    }
}
