// What reading files comes to, by hand from the rules of docs/COMMANDS.md.
ghost use Rattle.std.specs.Prelude.{◌≡◌, IfOk};

use std::alloc::{AllocError, Global};
use std::process::Abort;
use std::test::Fail as TestFail;
use th_base::{Fail, Name, Seq, Text};
use th_input::{Unread, read_class_files};
use th_outside::MemFiles;

// A store with `A`, `B` and a list.
fn store(alloc: Global, list: &[u8], failing: &[u64]) -> Result<MemFiles, AllocError>
    ensures { IfOk result (λ made. made.faults ≡ 0) }
{
    let mut files = Seq::new(alloc);
    files.push((Name::from_str(alloc, "A")?, Text::from_slice(alloc, b"a")?))?;
    files.push((Name::from_str(alloc, "B")?, Text::from_slice(alloc, b"bb")?))?;
    files.push((
        Name::from_str(alloc, "list")?,
        Text::from_slice(alloc, list)?,
    ))?;
    Ok(MemFiles::new(files, Seq::from_slice(alloc, failing)?))
}

// The names that were read, each with the number of its bytes.
fn shown(alloc: Global, files: &[(Text, Text)]) -> Result<String, AllocError> {
    let mut text = String::new(alloc);
    for file in files {
        for byte in file.0.as_bytes() {
            text.push(char::from(*byte))?;
        }
        let size = format!(in alloc; " {} ", file.1.len())?;
        text.push_str(size.as_str())?;
    }
    Ok(text)
}

fn answer(
    alloc: Global,
    list: Option<&[u8]>,
    operands: &str,
    failing: &[u64],
) -> Result<String, AllocError> {
    let mut names = Vec::new(alloc);
    for name in operands.split_whitespace() {
        names.push(Name::from_str(alloc, name)?)?;
    }
    let (list, bytes) = match list {
        Some(bytes) => (Some(Name::from_str(alloc, "list")?), bytes),
        None => (None, b"".as_slice()),
    };
    let mut files = store(alloc, bytes, failing)?;
    match read_class_files(alloc, &mut files, &list, names.as_slice()) {
        Ok(files) => shown(alloc, files.as_slice()),
        Err(Fail::Refused(Unread::Missing(name))) => format!(in alloc; "missing {}", name.as_str()),
        Err(Fail::Refused(Unread::Failed(name))) => format!(in alloc; "failed {}", name.as_str()),
        Err(Fail::Refused(Unread::BadLine { offset, .. })) => format!(in alloc;
            "bad line {offset}"
        ),
        Err(Fail::Refused(Unread::TooManyFiles)) => format!(in alloc; "too many files"),
        Err(Fail::Refused(Unread::TooManyBytes(name))) => format!(in alloc;
            "too many bytes {}",
            name.as_str()
        ),
        Err(Fail::NoMemory) => format!(in alloc; "no memory"),
    }
}

fn row<R: Abort + AllocGlobal>(
    rt: &R,
    list: Option<&[u8]>,
    operands: &str,
    failing: &[u64],
    want: &str,
) -> Result<(), AllocError> {
    let answer = answer(rt.alloc(), list, operands, failing)?;
    assert_eq!(rt; answer.as_str(), want);
    Ok(())
}

#[test]
fn names_of_a_list_stand_behind_the_operands(rt: HostRuntime) -> Result<(), TestFail> {
    row(&rt, None, "A B A", &[], "A 1 B 2 A 1 ")?;
    row(&rt, Some(b"B\n\nA"), "A", &[], "A 1 B 2 A 1 ")?;
    row(&rt, Some(b"B\n"), "", &[], "B 2 ")?;
    row(&rt, Some(b""), "", &[], "")?;
    row(&rt, None, "list C", &[], "missing C")?;
    row(&rt, Some(b"\nC\nA"), "A", &[], "missing C")?;
    Ok(())
}

// A bad line of the list comes before a missing operand, and a failure before what stands behind it.
#[test]
fn the_first_fault_ends_the_reading(rt: HostRuntime) -> Result<(), TestFail> {
    row(&rt, Some(b"B\n\xffA\nC"), "C", &[], "bad line 2")?;
    row(&rt, Some(b"\xc3\xa9\n\xc3"), "C", &[], "bad line 3")?;
    row(&rt, Some(b"\xff"), "", &[0], "failed list")?;
    row(&rt, None, "A C", &[0], "failed A")?;
    row(&rt, None, "A B C", &[2], "failed B")?;
    row(&rt, None, "A B C", &[4], "missing C")?;
    Ok(())
}

#[test]
fn too_many_names_are_refused_before_any_is_read(rt: HostRuntime) -> Result<(), TestFail> {
    let mut list = Vec::new(rt.alloc());
    for _ in 0..4096 {
        list.extend_from_slice(b"C\n")?;
    }
    row(&rt, Some(list.as_slice()), "", &[], "missing C")?;
    row(&rt, Some(list.as_slice()), "A", &[], "too many files")?;
    Ok(())
}
