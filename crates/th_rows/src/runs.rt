// One run of the program, and a table of runs.
ghost use Rattle.std.specs.Prelude.{◌≡◌, IfOk};

use std::alloc::{AllocError, Global};
use std::process::Abort;
use std::test::Fail;
use std::thread::Threads;
use th_base::{Name, Seq, Text};
use th_outside::{MemFiles, MemSink, NoGate};
use th_top::{Status, thresher};

// What a run answers and leaves.
#[derive(Drop)]
pub struct Ran {
    pub status: Status,
    pub out: Vec<u8>,
    pub err: Vec<u8>,
}

// A store with one file.
pub fn store(
    alloc: Global,
    name: &str,
    bytes: &[u8],
    failing: &[u64],
) -> Result<MemFiles, AllocError>
    ensures { IfOk result (λ made. made.faults ≡ 0) }
{
    let mut named = Seq::new(alloc);
    let name = Name::from_str(alloc, name)?;
    let bytes = Text::from_slice(alloc, bytes)?;
    named.push((name, bytes))?;
    Ok(MemFiles::new(named, Seq::from_slice(alloc, failing)?))
}

pub fn run<R: Threads + Sync + AllocGlobal>(
    rt: &R,
    words: &[&str],
    mut files: MemFiles,
    fail_at: Option<u64>,
    err_fail_at: Option<u64>,
) -> Result<Ran, Fail>
    requires { files.faults ≡ 0 }
{
    let alloc = rt.alloc();
    let mut given = Vec::new(alloc);
    for word in words {
        given.push(String::from_str(alloc, word)?)?;
    }
    let mut out = MemSink::new(alloc, 1000, fail_at)?;
    let mut err = MemSink::new(alloc, 1000, err_fail_at)?;
    let status = thresher(
        rt,
        alloc,
        given.as_slice(),
        &mut files,
        &mut out,
        &mut err,
        &NoGate,
    );
    Ok(Ran {
        status,
        out: out.bytes,
        err: err.bytes,
    })
}

// `check Act.class` on these bytes.
pub fn check<R: Threads + Sync + AllocGlobal>(rt: &R, bytes: &[u8]) -> Result<Ran, Fail> {
    let files = store(rt.alloc(), "Act.class", bytes, &[])?;
    run(rt, &["check", "Act.class"], files, None, None)
}

// The run must end with this exit code, output and errors.
pub fn expect<R: Abort>(rt: &R, ran: &Ran, code: u8, out: &[u8], err: &[u8]) {
    assert_eq!(rt; ran.out.as_slice(), out);
    assert_eq!(rt; ran.err.as_slice(), err);
    assert_eq!(rt; ran.status.code(), code);
}
