// The real files and streams. They tell nothing of what they hold, so that no contract rests on it.
ghost use Rattle.std.specs.Prelude.{◌≤◌, false, length, None, IfOk};

use crate::{Failed, Files, ReadError, Sink};
use std::io::{Read, Seek, SeekFrom, Write};
use std::{fs, io};

/// The host's files. Each call opens the named file anew; a file that isn't there is a failure,
/// never `Missing`.
#[derive(Drop)]
pub struct HostFiles<'a, H: std::rt::Files> {
    pub rt: &'a H,
    /// How often a call has failed.
    pub faults: u64,
}

fn read_piece<H: std::rt::Files>(
    rt: &H,
    name: &str,
    offset: u64,
    buf: &mut [u8],
) -> io::Result<usize>
    ensures { IfOk result (λ n. n ≤ length buf.new) }
{
    let mut file = fs::open(rt, name)?;
    file.seek(SeekFrom::Start(offset))?;
    file.read(buf)
}

impl<H: std::rt::Files> Files for HostFiles<'_, H> {
    ghost told = { λ _. None };

    ghost steady = { λ _. false };

    ghost faults = { λ h. h.faults };

    ghost failed = { λ _. None };

    fn read_at(&mut self, name: &str, offset: u64, buf: &mut [u8]) -> Result<usize, ReadError> {
        match read_piece(self.rt, name, offset, buf) {
            Ok(n) => Ok(n),
            Err(_) => {
                self.faults += 1;
                Err(ReadError::Failed)
            }
        }
    }
}

/// A stream of the host, such as the standard output.
#[derive(Drop)]
pub struct HostSink<W: Write> {
    pub writer: W,
    /// How often a call has failed.
    pub faults: u64,
}

impl<W: Write> Sink for HostSink<W> {
    ghost held = { λ _. None };

    ghost faults = { λ h. h.faults };

    fn write(&mut self, piece: &[u8]) -> Result<usize, Failed> {
        match self.writer.write(piece) {
            Ok(n) if n > 0 || piece.is_empty() => Ok(n),
            _ => {
                self.faults += 1;
                Err(Failed)
            }
        }
    }
}
