// A store and a sink in memory, which fail where they are told to.
ghost use Rattle.std.specs.Prelude.{◌≡◌, ◌≢◌, ◌↔◌, ◌<◌, ◌≤◌, ◌+◌, ◌-◌, ◌^◌, ◌==◌, [], length, min, vec_len, vec_capacity, None, Some, Err, IfNone, IfSome, IfOk, IsOk, IsErr, IsTrue, IsErrOf, Contains};
ghost use Rattle.th_outside.specs.Store.{content, IsPiece, IsPlace, Lacks, Reads, name_at};
ghost use Rattle.th_outside.specs.Faults.{faults_after_read, faults_after_write, FailedAfter};
ghost use Rattle.th_outside.specs.Held.{end_of, held_after, HasRoom, KeepsEnd, held_in};

use crate::{Failed, Files, ReadError, Sink};
use std::alloc::{AllocError, Global};
use th_base::{Name, Seq, Text};

/// Files in memory, by name; of two files with one name the first counts. The store is steady
/// exactly where no call is listed as failing.
#[derive(Debug, Drop)]
pub struct MemFiles {
    /// The files, each with its name and its bytes.
    pub files: Seq<(Name, Text)>,
    /// The numbers of the calls that fail, counted from 0, where the file is there.
    pub failing: Seq<u64>,
    /// How many calls were made; it stays at its last value.
    pub calls: u64,
    /// How often a call has failed.
    pub faults: u64,
    /// The place in `files` that the last failed call was for.
    pub failed: Option<usize>,
}

impl MemFiles {
    /// A store of these files, in which these calls fail.
    pub fn new(files: Seq<(Name, Text)>, failing: Seq<u64>) -> MemFiles
        ensures files { result.files ≡ files }
        ensures failing { result.failing ≡ failing }
        ensures calls { result.calls ≡ 0 }
        ensures faults { result.faults ≡ 0 }
        ensures failed { result.failed ≡ None }
    {
        MemFiles {
            files,
            failing,
            calls: 0,
            faults: 0,
            failed: None,
        }
    }
}

// The place of the first file of a name.
fn place_of(files: &[(Name, Text)], name: &str) -> Option<usize>
    ensures none { IfNone result (content files.now name.now ≡ None) }
    ensures place { IfSome result (IsPlace files.now name.now) }
{
    for (place, file) in files.iter().enumerate() {
        if file.0.as_str() == name {
            return Some(place);
        }
    }
    None
}

// Copies what stands from an offset on, as far as the buffer has room.
fn copy_piece(bytes: &[u8], offset: u64, buf: &mut [u8]) -> usize
    ensures { IsPiece bytes.now offset buf.new result }
{
    if offset >= bytes.len() as u64 {
        return 0;
    }
    let rest = &bytes[offset as usize..];
    let n = rest.len().min(buf.len());
    buf[..n].copy_from_slice(&rest[..n]);
    n
}

impl Files for MemFiles {
    ghost told = { λ m. Some m.files };

    ghost steady = { λ m. length m.failing == 0 };

    ghost faults = { λ m. m.faults };

    ghost failed = { λ m. name_at m.files m.failed };

    fn read_at(&mut self, name: &str, offset: u64, buf: &mut [u8]) -> Result<usize, ReadError>
        requires { self.old.faults < 2 ^ 64 - 1 }
        ensures reads { IfOk result (λ n. Reads (Some self.old.files) name.now offset buf.new n) }
        ensures missing { IsErrOf result ReadError.Missing ↔ Lacks (Some self.old.files) name.now }
        ensures counted { self.new.faults ≡ faults_after_read self.old.faults result }
        ensures failed { FailedAfter (name_at self.old.files self.old.failed) name.now result (name_at self.new.files self.new.failed) }
        ensures steady { IsTrue (length self.old.failing == 0) → self.new.faults ≡ self.old.faults }
        ensures same_files { Some self.new.files ≡ Some self.old.files }
        ensures same_steady { (length self.new.failing == 0) ≡ (length self.old.failing == 0) }

        // Exactly the listed calls fail, where the file is there.
        ensures fails { IsErrOf result ReadError.Failed ↔ (Contains self.old.failing self.old.calls × (Lacks (Some self.old.files) name.now → ⊥)) }
        ensures names { IsErrOf result ReadError.Failed → name_at self.new.files self.new.failed ≡ Some name.now }
        ensures same_failing { self.new.failing ≡ self.old.failing }
        ensures calls { self.new.calls ≡ min (self.old.calls + 1) (2 ^ 64 - 1) }
    {
        let call = self.calls;
        self.calls = call.saturating_add(1);
        let Some(place) = place_of(self.files.as_slice(), name) else {
            return Err(ReadError::Missing);
        };
        if self.failing.as_slice().contains(&call) {
            self.faults += 1;
            self.failed = Some(place);
            return Err(ReadError::Failed);
        }
        let files = self.files.as_slice();
        Ok(copy_piece(files[place].1.as_bytes(), offset, buf))
    }
}

/// Bytes in memory. The room for them is reserved, so that a write takes no memory.
#[derive(Debug, Drop)]
pub struct MemSink {
    /// What was written.
    pub bytes: Vec<u8>,
    /// How many bytes there is room for.
    pub room: u64,
    /// The number of bytes at which the sink fails, if it is less than the room.
    pub fail_at: Option<u64>,
    /// How often a call has failed.
    pub faults: u64,
    ghost reserved: { room ≤ vec_capacity bytes },
    ghost within: { vec_len bytes ≤ room },
}

impl MemSink {
    /// An empty sink with room for so many bytes, which fails at so many. The only error is want of
    /// memory.
    pub fn new(alloc: Global, room: u64, fail_at: Option<u64>) -> Result<MemSink, AllocError>
        ensures bytes { IfOk result (λ sink. sink.bytes.items ≡ []) }
        ensures room { IfOk result (λ sink. sink.room ≡ room) }
        ensures fail_at { IfOk result (λ sink. sink.fail_at ≡ fail_at) }
        ensures faults { IfOk result (λ sink. sink.faults ≡ 0) }
    {
        let bytes = Vec::with_capacity(alloc, room as usize)?;
        Ok(MemSink {
            bytes,
            room,
            fail_at,
            faults: 0,
        })
    }
}

// The lesser of the room and the number of bytes at which a sink fails.
fn end_at(room: u64, fail_at: Option<u64>) -> u64
    ensures { result ≡ end_of room fail_at }
{
    match fail_at {
        Some(at) => room.min(at),
        None => room,
    }
}

impl Sink for MemSink {
    ghost held = { λ s. Some (held_in s.bytes.items s.room s.fail_at) };

    ghost faults = { λ s. s.faults };

    fn write(&mut self, piece: &[u8]) -> Result<usize, Failed>
        requires { self.old.faults < 2 ^ 64 - 1 }
        ensures within { IfOk result (λ n. n ≤ length piece.now) }
        ensures some { IfOk result (λ n. n ≡ 0 → piece.now ≡ []) }
        ensures held { Some (held_in self.new.bytes.items self.new.room self.new.fail_at)
            ≡ held_after (Some (held_in self.old.bytes.items self.old.room self.old.fail_at)) piece.now result }
        ensures end { KeepsEnd (Some (held_in self.old.bytes.items self.old.room self.old.fail_at))
            (Some (held_in self.new.bytes.items self.new.room self.new.fail_at)) }
        ensures room { HasRoom (Some (held_in self.old.bytes.items self.old.room self.old.fail_at)) → IsOk result }
        ensures counted { self.new.faults ≡ faults_after_write self.old.faults result }

        // As much is taken as there is room for; where there is none, a piece that isn't empty fails.
        ensures fails { IsErr result ↔ ((piece.now ≢ []) × (end_of self.old.room self.old.fail_at ≤ vec_len self.old.bytes)) }
        ensures amount { IfOk result (λ n. n ≡ min (end_of self.old.room self.old.fail_at - vec_len self.old.bytes) (length piece.now)) }
        ensures same_room { self.new.room ≡ self.old.room }
        ensures same_fail_at { self.new.fail_at ≡ self.old.fail_at }
    {
        let end = end_at(self.room, self.fail_at);
        let left = end.saturating_sub(self.bytes.len() as u64) as usize;
        let n = left.min(piece.len());
        if n == 0 && !piece.is_empty() {
            self.faults += 1;
            return Err(Failed);
        }
        self.bytes.extend_from_slice(&piece[..n]).unwrap();
        Ok(n)
    }
}
