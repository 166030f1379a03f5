ghost use Rattle.std.specs.Prelude.{◌≡◌, ◌≢◌, ℕ, ◌≤◌, ◌<◌, ◌^◌, List, Option, IfOk, length, drop};
ghost use Rattle.shelf_io.specs.Causes.{HasCause, raised};
ghost use Rattle.shelf_io.specs.Held.{Held, Pulls, Writes};
ghost use Rattle.shelf_io.specs.Named.{ChangesOnly};

/// A device could not do what it was asked.
#[derive(Clone, Copy, Debug, PartialEq, Eq)]
pub struct Failed;

/// A place where bytes are held under names.
///
/// Counts stand at their end at 2^64 - 1. A count of faults rose in a call where it is greater after
/// the call than before, or stands at its end after the call.
pub trait Shelf {
    /// The bytes under each name that is held, where the shelf tells them. They never change.
    ghost held: { Self → Held };

    /// How many pulls of that name have failed.
    ghost faults: { Self → List ℕ → ℕ };

    /// How many pulls of that name were made.
    ghost pulls: { Self → List ℕ → ℕ };

    /// Copies held bytes from place `at` on to the front of the buffer, and answers how many. The
    /// rest of the buffer stays. A buffer with room gets none exactly at or past the end.
    ///
    /// `Failed` comes only where the count of faults of this name rose. Where the shelf tells what
    /// it holds, a name that isn't held fails. No count falls, and those of other names stay. The
    /// count of pulls of this name rises by one, until it stands at its end.
    fn pull(&mut self, name: &str, at: u64, buf: &mut [u8]) -> Result<usize, Failed>
        requires { at ≤ 2 ^ 30 }
        ensures bound { IfOk result (λ n. n ≤ length buf.old) }
        ensures rest { IfOk result (λ n. drop n buf.new ≡ drop n buf.old) }
        ensures bytes { Pulls (held self.old) name.now at result buf.new }
        ensures kept { held self.new ≡ held self.old }
        ensures cause { HasCause (faults self.old name.now) (faults self.new name.now) result }
        ensures later { (any : List ℕ) → faults self.old any ≤ faults self.new any }
        ensures others { (other : List ℕ) → other ≢ name.now → faults self.new other ≡ faults self.old other }
        ensures counted { ChangesOnly (pulls self.old) (pulls self.new) name.now
            (raised (pulls self.old name.now)) };
}

/// A place that bytes are written to. Its count of faults rises as that of a `Shelf` does.
pub trait Sink {
    /// The bytes that were written, where the sink tells them.
    ghost written: { Self → Option (List ℕ) };

    /// How many writes have failed.
    ghost faults: { Self → ℕ };

    /// Appends bytes from the front of the piece, at least one, and answers how many.
    ///
    /// `Failed` comes only where the count of faults rose, and then nothing was appended. A device
    /// that takes nothing of the piece has failed. The count never falls.
    fn write(&mut self, bytes: &[u8]) -> Result<usize, Failed>
        requires { 0 < length bytes.now }
        ensures taken { IfOk result (λ n. (0 < n) × (n ≤ length bytes.now)) }
        ensures bytes { Writes (written self.old) (written self.new) result bytes.now }
        ensures cause { HasCause (faults self.old) (faults self.new) result };
}
