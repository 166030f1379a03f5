ghost use Rattle.std.specs.Prelude.{◌≡◌, ◌+◌, ◌≤◌, ◌<◌, ◌||◌, ◌==◌, OnOk, OnErr};
ghost use Rattle.std.specs.List.{list_any};
ghost use Rattle.shelf_io.specs.Calls.{no_calls, fails_next, with_failing, after_call};

use rdf_terms::OutOfMemory;
use std::alloc::Global;
use std::marker::Model;

/// The calls of a device in memory: which are to fail, how many were made, how many failed.
#[derive(Drop)]
pub struct CallLog {
    failing: Vec<u64>,
    made: u64,
    faults: u64,
}

impl Model for CallLog {
    ghost use Rattle.shelf_io.specs.Calls.{Calls};

    ghost Value = { Calls };

    ghost view = { λ c. record { failing = c.failing.items; made = c.made; faults = c.faults } };
}

/// Whether the call after so many is in the list. No call past the end of a u64 can be.
fn is_listed(failing: &[u64], made: u64) -> bool
    ensures { result ≡ list_any (λ number. number == made + 1) failing.now }
{
    match made.checked_add(1) {
        Some(call) => failing.contains(&call),
        None => false,
    }
}

impl CallLog {
    /// No call yet, and none that is to fail. It takes no memory.
    pub fn new(alloc: Global) -> CallLog
        ensures { result ≡ no_calls }
    {
        CallLog {
            failing: Vec::new(alloc),
            made: 0,
            faults: 0,
        }
    }

    /// The call of that number is to fail.
    pub fn fail_at(&mut self, call: u64) -> Result<(), OutOfMemory>
        ensures ok { OnOk result (self.new ≡ with_failing call self.old) }
        ensures err { OnErr result (self.new ≡ self.old) }
    {
        self.failing.push(call)?;
        Ok(())
    }

    /// Counts one more call, and tells whether it fails: where it is refused, or is to fail.
    pub fn count(&mut self, refused: bool) -> bool
        ensures failed { result ≡ (refused || fails_next self.old) }
        ensures after { self.new ≡ after_call self.old result }
        ensures later { self.old.faults ≤ self.new.faults }
    {
        let failed = refused || is_listed(&self.failing, self.made);
        self.made = self.made.saturating_add(1);
        if failed {
            self.faults = self.faults.saturating_add(1);
        }
        failed
    }
}
