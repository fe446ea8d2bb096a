// A file, read in pieces.
ghost use Rattle.std.specs.Prelude.{◌≡◌, ◌↔◌, ◌<◌, ◌≤◌, ◌^◌, ◌-◌, ◌+◌, IfOk, IsTrue, IsErrOf, vec_len};
ghost use Rattle.th_outside.specs.Store.{Lacks};
ghost use Rattle.th_input.specs.Fetching.{IsFront, IsFrontSoFar, EndsAt, FailedAfterFetch, faults_after_fetch};

use crate::MOST_FILE_BYTES;
use std::alloc::Global;
use th_outside::{Files, ReadError};

/// As many bytes as are read of one file at most: one more than a file may have.
const MOST: usize = MOST_FILE_BYTES + 1;

/// How many bytes one read asks for at most.
const PIECE: usize = 4096;

/// Why a file was not read.
#[derive(Clone, Copy, Debug, PartialEq, Eq)]
pub enum FetchFault {
    /// The store has no file of this name.
    Missing,
    /// A read failed.
    Failed,
    /// Want of memory.
    Memory,
}

// Reads the next piece of a file to the end of what was read of it, and answers how many bytes.
fn read_more<F: Files>(files: &mut F, name: &str, bytes: &mut Vec<u8>) -> Result<usize, FetchFault>
    requires count { F.faults files.old < 2 ^ 64 - 1 }
    requires room { vec_len bytes.old < MOST }
    ensures bound { IfOk result (λ n. (vec_len bytes.new ≡ vec_len bytes.old + n) × (vec_len bytes.new ≤ MOST)) }
    ensures front { IsFrontSoFar (F.told files.old) name.now bytes.old.items → IfOk result (λ n. IsFrontSoFar (F.told files.old) name.now bytes.new.items) }
    ensures end { IfOk result (λ n. n ≡ 0 → EndsAt (F.told files.old) name.now (vec_len bytes.old)) }
    ensures missing { IsErrOf result FetchFault.Missing → Lacks (F.told files.old) name.now }
    ensures there { IfOk result (λ n. Lacks (F.told files.old) name.now → ⊥) }
    ensures counted { F.faults files.new ≡ faults_after_fetch (F.faults files.old) result }
    ensures failed { FailedAfterFetch (F.failed files.old) name.now result (F.failed files.new) }
    ensures steady { IsTrue (F.steady files.old) → F.faults files.new ≡ F.faults files.old }
    ensures same_files { F.told files.new ≡ F.told files.old }
    ensures same_steady { F.steady files.new ≡ F.steady files.old }
{
    let mut buf = [0u8; PIECE];
    let want = (MOST - bytes.len()).min(PIECE);
    let piece = &mut buf[..want];
    match files.read_at(name, bytes.len() as u64, piece) {
        Ok(n) => match bytes.extend_from_slice(&piece[..n]) {
            Ok(()) => Ok(n),
            Err(_) => Err(FetchFault::Memory),
        },
        Err(ReadError::Missing) => Err(FetchFault::Missing),
        Err(ReadError::Failed) => Err(FetchFault::Failed),
    }
}

/// Reads a file to its end, or as far as one byte more than a file may have. After the first fault
/// no further call is made on the store.
pub fn read_file<F: Files>(alloc: Global, files: &mut F, name: &str) -> Result<Vec<u8>, FetchFault>
    requires { F.faults files.old < 2 ^ 64 - 1 }
    ensures front { IfOk result (λ bytes. IsFront (F.told files.old) name.now bytes.items) }
    ensures missing { IsErrOf result FetchFault.Missing → Lacks (F.told files.old) name.now }
    ensures there { IfOk result (λ _. Lacks (F.told files.old) name.now → ⊥) }
    ensures counted { F.faults files.new ≡ faults_after_fetch (F.faults files.old) result }
    ensures failed { FailedAfterFetch (F.failed files.old) name.now result (F.failed files.new) }
    ensures steady { IsTrue (F.steady files.old) → F.faults files.new ≡ F.faults files.old }
    ensures same_files { F.told files.new ≡ F.told files.old }
    ensures same_steady { F.steady files.new ≡ F.steady files.old }
{
    let mut bytes = Vec::new(alloc);
    while bytes.len() < MOST {
        if read_more(files, name, &mut bytes)? == 0 {
            return Ok(bytes);
        }
    }
    Ok(bytes)
}
