// Where bytes are written to.
ghost use Rattle.std.specs.Prelude.{◌≡◌, ◌<◌, ◌^◌, ◌-◌, ◌≤◌, Option, ℕ, [], length, IfOk, IsOk};
ghost use Rattle.th_outside.specs.Held.{Held, held_after, HasRoom, KeepsEnd};
ghost use Rattle.th_outside.specs.Faults.{faults_after_write};

use std::error::Error;
use std::fmt;

/// A write that was not made.
#[derive(Clone, Copy, Debug, PartialEq, Eq)]
pub struct Failed;

impl fmt::Display for Failed {
    fn fmt<W: fmt::Write>(&self, f: &mut fmt::Formatter<W>) -> fmt::Result {
        f.write_str("write failed")
    }
}

impl Error for Failed {}

/// A sink of bytes. What it holds need not be told.
pub trait Sink {
    /// What it holds, and how many bytes it takes at most, where this is told.
    ghost held: { Self → Option Held };

    /// How often a call has failed.
    ghost faults: { Self → ℕ };

    /// Takes the front of a piece, and answers how many bytes it took. Taking nothing of a piece
    /// that isn't empty is a failure; a failure takes nothing.
    fn write(&mut self, piece: &[u8]) -> Result<usize, Failed>
        requires { faults self.old < 2 ^ 64 - 1 }
        ensures within { IfOk result (λ n. n ≤ length piece.now) }
        ensures some { IfOk result (λ n. n ≡ 0 → piece.now ≡ []) }
        ensures held { held self.new ≡ held_after (held self.old) piece.now result }
        ensures end { KeepsEnd (held self.old) (held self.new) }
        ensures room { HasRoom (held self.old) → IsOk result }
        ensures counted { faults self.new ≡ faults_after_write (faults self.old) result };
}
