// Runs of scripts by the whole program, as they were worked out by hand.
ghost use Rattle.std.specs.Prelude.{◌≡◌, IfOk};

use crate::files::*;
use crate::runs::{expect, run};
use std::alloc::{AllocError, Global};
use std::test::Fail;
use th_base::{Name, Seq, Text};
use th_outside::MemFiles;

// A store with a class that remembers itself in `onCreate`, a file that is no class file, and a script.
fn scripted(alloc: Global, script: &str) -> Result<MemFiles, AllocError>
    ensures { IfOk result (λ made. made.faults ≡ 0) }
{
    let mut files = Seq::new(alloc);
    files.push((
        Name::from_str(alloc, "Act.class")?,
        Text::from_slice(alloc, ROW2)?,
    ))?;
    files.push((
        Name::from_str(alloc, "Bad.class")?,
        Text::from_slice(alloc, b"")?,
    ))?;
    files.push((
        Name::from_str(alloc, "s")?,
        Text::from_slice(alloc, script.as_bytes())?,
    ))?;
    Ok(MemFiles::new(files, Seq::new(alloc)))
}

// What each event comes to is written, and what is joined then; the status is that of the last event. A
// fault of the script is told in its order: a file that is missing, a bad line, a refusal of class files,
// a launch of a class that isn't launchable, an event that can't happen.
#[test]
fn scripts_are_run(rt: HostRuntime) -> Result<(), Fail> {
    let created =
        b"event 1 idle\nevent 2 idle\njoined Act.last:Landroid/app/Activity; -> Act\n".as_slice();
    let rows: [(&[&str], &str, u8, &[u8], &[u8]); 13] = [
        (&["Act.class"], "", 0, b"", b""),
        (&["Act.class"], "launch Act", 0, b"event 1 idle\n", b""),
        (
            &["Act.class"],
            "launch Act\n\nevent 1 onCreate\n",
            1,
            created,
            b"",
        ),
        (
            &["Act.class", "--fuel", "0"],
            "launch Act\nevent 9 onStop\n",
            0,
            b"event 1 fuel\n",
            b"",
        ),
        (
            &["Act.class"],
            "launch Act\nevent 2 onCreate\n",
            2,
            b"",
            b"usage: script event 2\n",
        ),
        (
            &["Act.class"],
            "event 1 onCreate\nlaunch Act\nlaunch Gone\n",
            2,
            b"",
            b"usage: script event 3\n",
        ),
        (
            &["Act.class", "--lifecycle", "chart"],
            "launch Act\nevent 1 onResume\n",
            2,
            b"",
            b"usage: script event 2\n",
        ),
        (
            &["Act.class", "Bad.class"],
            "launch Act\n\nstop\n",
            2,
            b"",
            b"usage: script line 3\n",
        ),
        (
            &["Act.class", "Bad.class"],
            "launch Gone\n",
            3,
            b"",
            b"refused E1 NotClass Bad.class - 0\n",
        ),
        (
            &["Act.class", "Gone.class"],
            "stop\n",
            4,
            b"",
            b"read fault Gone.class\n",
        ),
        (&["gone", "Act.class"], "", 4, b"", b"read fault gone\n"),
        (
            &["Act.class", "--list", "s"],
            "",
            2,
            b"",
            b"usage: bad words\n",
        ),
        (&[], "", 2, b"", b"usage: bad words\n"),
    ];
    for (words, script, code, out, err) in rows {
        let mut given = Vec::from_slice(rt.alloc(), &["run", "--script", "s"])?;
        given.extend_from_slice(words)?;
        let files = scripted(rt.alloc(), script)?;
        let ran = run(&rt, given.as_slice(), files, None, None)?;
        expect(&rt, &ran, code, out, err);
    }
    Ok(())
}
