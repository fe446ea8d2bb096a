// A script and the class files, read in order.
ghost use Rattle.std.specs.Prelude.{◌≡◌, ◌<◌, ◌-◌, ◌^◌, IfOk, IsTrue};
ghost use Rattle.th_input.specs.Input.{IfStopped, faults_after_unread, FailedAfterUnread};
ghost use Rattle.th_input.specs.Scripted.{IsScripted, EndsScripted};

use crate::class_files::{all_names, fetch, fetch_all};
use crate::{MOST_CLASS_FILES, Unread};
use std::alloc::Global;
use th_base::{Fail, Name, Seq, Text};
use th_outside::Files;

/// What was read of a script and of class files.
#[derive(Drop)]
pub struct Scripted {
    /// The content of the script.
    pub script: Text,
    /// The class files in order, each by its name and its content.
    pub files: Seq<(Text, Text)>,
}

/// Reads a script, and then the class files of the operands, in order.
///
/// The reading ends at the first of these: too many operands, before anything is read; a script that the
/// store lacks, whose read fails, or that is too long; such a class file, or one with which there are too
/// many bytes. The bytes of the script count for themselves. No call is made on the store after one that
/// failed.
pub fn read_scripted<F: Files>(
    alloc: Global,
    files: &mut F,
    script: &Name,
    operands: &[Name],
) -> Result<Scripted, Fail<Unread>>
    requires { F.faults files.old < 2 ^ 64 - 1 }
    ensures read { IfOk result (λ read. IsScripted (F.told files.old) script.now operands.now read.script read.files) }
    ensures unread { IfStopped result (EndsScripted (F.told files.old) script.now operands.now) }
    ensures counted { F.faults files.new ≡ faults_after_unread (F.faults files.old) result }
    ensures failed { FailedAfterUnread (F.failed files.old) result (F.failed files.new) }
    ensures steady { IsTrue (F.steady files.old) → F.faults files.new ≡ F.faults files.old }
    ensures same_files { F.told files.new ≡ F.told files.old }
{
    if operands.len() > MOST_CLASS_FILES {
        return Err(Fail::Refused(Unread::TooManyFiles));
    }
    let names = all_names(alloc, operands, &[])?;
    let script = fetch(alloc, files, script.as_str())?;
    let contents = fetch_all(alloc, files, names.as_slice())?;
    Ok(Scripted {
        script,
        files: contents,
    })
}
