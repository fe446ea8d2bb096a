// What no clause says: faults of the host's streams, and what a real file gives.
use std::fs;
use std::io::{self, ErrorKind, Write};
use std::test::Fail;
use th_outside::{Failed, Files, HostFiles, HostSink, Sink};

// A stream that takes so many bytes in each write, and fails where it takes none.
#[derive(Drop)]
struct Narrow {
    width: usize,
    fails: bool,
}

impl Write for Narrow {
    fn write(&mut self, bytes: &[u8]) -> io::Result<usize> {
        if self.fails {
            return Err(io::Error::from(ErrorKind::BrokenPipe));
        }
        Ok(bytes.len().min(self.width))
    }

    fn flush(&mut self) -> io::Result<()> {
        Ok(())
    }
}

// A width, whether the stream fails, a piece, and what comes of a write.
#[test]
fn host_sinks_count_their_faults(rt: HostRuntime) -> Result<(), Fail> {
    let rows = [
        (2, false, b"abc".as_slice(), Ok(2)),
        (9, false, b"abc".as_slice(), Ok(3)),
        (0, false, b"".as_slice(), Ok(0)),
        (0, false, b"abc".as_slice(), Err(Failed)),
        (2, true, b"abc".as_slice(), Err(Failed)),
        (2, true, b"".as_slice(), Err(Failed)),
    ];
    for (width, fails, piece, wanted) in rows {
        let mut sink = HostSink {
            writer: Narrow { width, fails },
            faults: 0,
        };
        let answer = sink.write(piece);
        assert_eq!(rt; answer, wanted);
        assert_eq!(rt; sink.faults, u64::from(wanted.is_err()));
    }
    Ok(())
}

// A real file is read from an offset, as far as the buffer has room.
#[test]
fn host_files_give_what_they_hold(rt: HostRuntime) -> Result<(), Fail> {
    let path = "th_outside-test-file";
    fs::write(&rt, path, "five!")?;
    let mut files = HostFiles { rt: &rt, faults: 0 };
    let mut buf = [0u8; 3];
    assert_eq!(rt; files.read_at(path, 0, &mut buf), Ok(3));
    assert_eq!(rt; buf.as_slice(), b"fiv".as_slice());
    assert_eq!(rt; files.read_at(path, 3, &mut buf), Ok(2));
    assert_eq!(rt; buf.as_slice(), b"e!v".as_slice());
    assert_eq!(rt; files.read_at(path, 5, &mut buf), Ok(0));
    assert_eq!(rt; files.faults, 0);
    fs::remove_file(&rt, path)?;
    assert!(rt; files.read_at(path, 0, &mut buf).is_err());
    assert_eq!(rt; files.faults, 1);
    Ok(())
}
