ghost use Rattle.std.specs.Prelude.{◌≡◌, IfOk};

use crate::files::*;
use crate::runs::{check, expect, run, store};
use std::alloc::{AllocError, Global};
use std::test::Fail;
use th_base::{Name, Seq, Text};
use th_outside::MemFiles;

const NOTHING: &[u8] = b"classes 1\nhandlers not followed 0\nalarms 0\nfiltered 0\nsurviving 0\n";

// A stored static field of a launched class survives; null counts as a store too.
#[test]
fn stores_of_a_launched_class_survive(rt: HostRuntime) -> Result<(), Fail> {
    let last =
        b"classes 1\nhandlers not followed 0\nalarms 1\nalarm 1 survives Act.last:Landroid/app/Activity; -> Act\nfiltered 0\nsurviving 1\n";
    let kept =
        b"classes 1\nhandlers not followed 0\nalarms 1\nalarm 1 survives Act.kept:Ljava/lang/Object; -> Act\nfiltered 0\nsurviving 1\n";
    let both =
        b"classes 1\nhandlers not followed 0\nalarms 2\nalarm 1 survives Act.a:Ljava/lang/Object; -> Act\nalarm 2 survives Act.b:Lp/T; -> Act\nfiltered 0\nsurviving 2\n";
    expect(&rt, &check(&rt, ROW1)?, 0, NOTHING, b"");
    expect(&rt, &check(&rt, ROW2)?, 1, last, b"");
    expect(&rt, &check(&rt, TWO_FIELDS)?, 1, kept, b"");
    expect(&rt, &check(&rt, NULL_ONLY)?, 1, kept, b"");
    expect(&rt, &check(&rt, BOTH)?, 1, both, b"");
    expect(&rt, &check(&rt, ABSTRACT)?, 0, NOTHING, b"");
    expect(&rt, &check(&rt, NOT_LAUNCHED)?, 0, NOTHING, b"");
    Ok(())
}

// Each file is refused for its first flaw, at its first place.
#[test]
fn other_files_are_refused(rt: HostRuntime) -> Result<(), Fail> {
    let mut longer = Vec::from_slice(rt.alloc(), ROW1)?;
    longer.push(0)?;
    let rows: [(&[u8], &[u8]); 14] = [
        (longer.as_slice(), b"refused E5 Trailing Act.class - 122\n"),
        (&ROW1[..3], b"refused E1 NotClass Act.class - 0\n"),
        (&ROW1[..4], b"refused E2 Truncated Act.class - 4\n"),
        (&ROW1[..121], b"refused E2 Truncated Act.class - 120\n"),
        (
            INSTANCE,
            b"refused E18 Member Act Act.own:Ljava/lang/Object; 1\n",
        ),
        (
            FIELD_TWICE,
            b"refused E18 Member Act kept:Ljava/lang/Object; 0\n",
        ),
        (METHOD_TWICE, b"refused E18 Member Act <init>()V 0\n"),
        (OTHER_OWNER, b"refused E15 MissingClass Act Other 1\n"),
        (INTERFACE, b"refused E19 InterfaceCode Act.class - 89\n"),
        (CLINIT, b"refused E18 Member Act <clinit>()V 0\n"),
        (NO_STACK, b"refused E12 Kinds Act <init>()V 0\n"),
        (EMPTY_PART, b"refused E6 Name Act.class - 104\n"),
        (
            FRAGMENT,
            b"refused E15 MissingClass Act android/app/Fragment 0\n",
        ),
        (BUILT_IN, b"refused E14 BuiltIn android/os/Bundle - 0\n"),
    ];
    for (bytes, line) in rows {
        expect(&rt, &check(&rt, bytes)?, 3, b"", line);
    }
    Ok(())
}

// A store with two class files, and a list that names them.
fn two_files(alloc: Global, list: &[u8], failing: &[u64]) -> Result<MemFiles, AllocError>
    ensures { IfOk result (λ made. made.faults ≡ 0) }
{
    let mut files = Seq::new(alloc);
    files.push((
        Name::from_str(alloc, "Act.class")?,
        Text::from_slice(alloc, ROW2)?,
    ))?;
    files.push((
        Name::from_str(alloc, "Bad.class")?,
        Text::from_slice(alloc, b"")?,
    ))?;
    files.push((
        Name::from_str(alloc, "list")?,
        Text::from_slice(alloc, list)?,
    ))?;
    Ok(MemFiles::new(files, Seq::from_slice(alloc, failing)?))
}

// The files of the list stand behind the operands. The first refusal is told: of the reading, or else
// of the first file, or else of linking.
#[test]
fn several_files_are_read_in_order(rt: HostRuntime) -> Result<(), Fail> {
    let none = b"classes 0\nhandlers not followed 0\nalarms 0\nfiltered 0\nsurviving 0\n";
    let one =
        b"classes 1\nhandlers not followed 0\nalarms 1\nalarm 1 survives Act.last:Landroid/app/Activity; -> Act\nfiltered 0\nsurviving 1\n";
    let rows: [(&[&str], &[u8], u8, &[u8], &[u8]); 8] = [
        (&["check", "--list", "list"], b"", 0, none, b""),
        (
            &["check", "--list", "list", "--lifecycle", "chart"],
            b"Act.class",
            1,
            one,
            b"",
        ),
        (
            &["check", "--budget", "0", "Act.class", "--workers", "16"],
            b"",
            1,
            one,
            b"",
        ),
        (
            &["check", "Act.class", "Act.class"],
            b"",
            3,
            b"",
            b"refused E13 Duplicate Act - 0\n",
        ),
        (
            &["check", "Act.class", "--list", "list"],
            b"Act.class\nBad.class\n",
            3,
            b"",
            b"refused E1 NotClass Bad.class - 0\n",
        ),
        (
            &["check", "Bad.class", "--list", "list"],
            b"Act.class\n\xff",
            3,
            b"",
            b"refused E6 Name list - 10\n",
        ),
        (
            &["check", "Bad.class", "C.class"],
            b"",
            4,
            b"",
            b"read fault C.class\n",
        ),
        (&["check", "--list", "C"], b"", 4, b"", b"read fault C\n"),
    ];
    for (words, list, code, out, line) in rows {
        let files = two_files(rt.alloc(), list, &[])?;
        expect(&rt, &run(&rt, words, files, None, None)?, code, out, line);
    }
    Ok(())
}

#[test]
fn words_that_are_no_command(rt: HostRuntime) -> Result<(), Fail> {
    let cases: [(&[&str], &[u8]); 9] = [
        (&[], b"usage: no command\n"),
        (&["gen", "20"], b"usage: unknown command\n"),
        (&["--help"], b"usage: unknown command\n"),
        (&["run"], b"usage: bad words\n"),
        (&["run", "Act.class"], b"usage: bad words\n"),
        (&["check"], b"usage: bad words\n"),
        (&["check", ""], b"usage: bad words\n"),
        (&["check", "-x"], b"usage: bad words\n"),
        (
            &["check", "--workers", "17", "Act.class"],
            b"usage: bad words\n",
        ),
    ];
    for (words, line) in cases {
        let files = store(rt.alloc(), "Act.class", ROW1, &[])?;
        expect(&rt, &run(&rt, words, files, None, None)?, 2, b"", line);
    }
    Ok(())
}

// The second read fails, or the file isn't there.
#[test]
fn read_faults_name_the_file(rt: HostRuntime) -> Result<(), Fail> {
    let words = ["check", "Act.class"];
    let failing = store(rt.alloc(), "Act.class", ROW1, &[1])?;
    let line = b"read fault Act.class\n";
    expect(&rt, &run(&rt, &words, failing, None, None)?, 4, b"", line);
    let missing = store(rt.alloc(), "B.class", ROW1, &[])?;
    expect(&rt, &run(&rt, &words, missing, None, None)?, 4, b"", line);
    let second = two_files(rt.alloc(), b"", &[2])?;
    let words = ["check", "Act.class", "Bad.class", "C.class"];
    let line = b"read fault Bad.class\n";
    expect(&rt, &run(&rt, &words, second, None, None)?, 4, b"", line);
    Ok(())
}

#[test]
fn write_faults_leave_a_front(rt: HostRuntime) -> Result<(), Fail> {
    let words = ["check", "Act.class"];
    for end in 0..NOTHING.len() {
        let files = store(rt.alloc(), "Act.class", ROW1, &[])?;
        let ran = run(&rt, &words, files, Some(end as u64), None)?;
        expect(&rt, &ran, 5, &NOTHING[..end], b"write fault\n");
    }
    let files = store(rt.alloc(), "Act.class", b"", &[])?;
    let ran = run(&rt, &words, files, None, Some(7))?;
    expect(&rt, &ran, 3, b"", b"refused");
    Ok(())
}
