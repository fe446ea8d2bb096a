// Runs of the whole program on streams of the host that fail.
use crate::files::ROW1;
use crate::runs::store;
use std::io::{self, ErrorKind, Write};
use std::test::Fail;
use th_outside::{HostSink, NoGate};
use th_top::thresher;

// A stream that takes so many bytes and then fails.
#[derive(Drop)]
struct Full {
    room: usize,
}

impl Write for Full {
    fn write(&mut self, bytes: &[u8]) -> io::Result<usize> {
        if self.room == 0 {
            return Err(io::Error::from(ErrorKind::BrokenPipe));
        }
        let taken = bytes.len().min(self.room);
        self.room -= taken;
        Ok(taken)
    }

    fn flush(&mut self) -> io::Result<()> {
        Ok(())
    }
}

// The room of the output and of the errors, the last word, the status, and what room is left.
#[test]
fn failing_streams_end_a_run(rt: HostRuntime) -> Result<(), Fail> {
    let alloc = rt.alloc();
    let rows = [
        (100, 100, "Act.class", 0, 100 - 66, 100),
        (10, 100, "Act.class", 5, 0, 100 - 12),
        (0, 0, "Act.class", 5, 0, 0),
        (100, 0, "Act.class", 0, 100 - 66, 0),
        (100, 0, "-x", 2, 100, 0),
        (0, 3, "-x", 2, 0, 0),
    ];
    for (room, err_room, word, code, left, err_left) in rows {
        let mut files = store(alloc, "Act.class", ROW1, &[])?;
        let mut words = Vec::new(alloc);
        words.push(String::from_str(alloc, "check")?)?;
        words.push(String::from_str(alloc, word)?)?;
        let mut out = HostSink {
            writer: Full { room },
            faults: 0,
        };
        let mut err = HostSink {
            writer: Full { room: err_room },
            faults: 0,
        };
        let status = thresher(
            &rt,
            alloc,
            words.as_slice(),
            &mut files,
            &mut out,
            &mut err,
            &NoGate,
        );
        assert_eq!(rt; status.code(), code);
        assert_eq!(rt; out.writer.room, left);
        assert_eq!(rt; err.writer.room, err_left);
    }
    Ok(())
}
