// A store of files, by name.
ghost use Rattle.std.specs.Prelude.{◌≡◌, ◌↔◌, ◌<◌, ◌^◌, ◌-◌, Option, List, ℕ, Bool, IfOk, IsTrue, IsErrOf};
ghost use Rattle.th_outside.specs.Store.{NamedFile, Lacks, Reads};
ghost use Rattle.th_outside.specs.Faults.{faults_after_read, FailedAfter};

use std::error::Error;
use std::fmt;

/// Why a read gave nothing.
#[derive(Clone, Copy, Debug, PartialEq, Eq)]
pub enum ReadError {
    /// The store tells what it holds, and has no file of this name.
    Missing,
    /// The read failed, and the count of faults rose.
    Failed,
}

impl fmt::Display for ReadError {
    fn fmt<W: fmt::Write>(&self, f: &mut fmt::Formatter<W>) -> fmt::Result {
        f.write_str(match self {
            ReadError::Missing => "no such file",
            ReadError::Failed => "read failed",
        })
    }
}

impl Error for ReadError {}

/// A store of files, by name. What it holds need not be told.
pub trait Files {
    /// The files, where they are told. No call changes them.
    ghost told: { Self → Option (List NamedFile) };

    /// Whether no call fails. No call changes it.
    ghost steady: { Self → Bool };

    /// How often a call has failed.
    ghost faults: { Self → ℕ };

    /// The name that the last failed call was given, where it is told.
    ghost failed: { Self → Option (List ℕ) };

    /// Reads from an offset, in bytes, into the front of the buffer, and answers how many bytes
    /// came: 0 exactly where the buffer is empty or the offset is at or past the file's end.
    fn read_at(&mut self, name: &str, offset: u64, buf: &mut [u8]) -> Result<usize, ReadError>
        requires { faults self.old < 2 ^ 64 - 1 }
        ensures reads { IfOk result (λ n. Reads (told self.old) name.now offset buf.new n) }
        ensures missing { IsErrOf result ReadError.Missing ↔ Lacks (told self.old) name.now }
        ensures counted { faults self.new ≡ faults_after_read (faults self.old) result }
        ensures failed { FailedAfter (failed self.old) name.now result (failed self.new) }
        ensures steady { IsTrue (steady self.old) → faults self.new ≡ faults self.old }
        ensures same_files { told self.new ≡ told self.old }
        ensures same_steady { steady self.new ≡ steady self.old };
}
