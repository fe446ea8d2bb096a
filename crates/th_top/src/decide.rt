// What is written, and how the program ends, before anything is written.
ghost use Rattle.std.specs.Prelude.{◌≡◌, ◌<◌, ◌-◌, ◌^◌, IfOk, IsErr, IsTrue};
ghost use Rattle.th_top.specs.Asked.{asked};
ghost use Rattle.th_top.specs.Answer.{CountsOnce, FaultIsNamed};
ghost use Rattle.th_top.specs.Decided.{Decides, DecidesOne};
ghost use Rattle.th_top.specs.Outcome.{Comes};

use crate::Status;
use crate::checking::decide_check;
use crate::lines::usage_line;
use crate::running::decide_run;
use crate::shown::Decided;
use std::alloc::{AllocError, Global};
use std::thread::Threads;
use th_base::{Fail, Text};
use th_outside::Files;
use th_words::{Command, read_words};

// What is decided of a command.
fn decide_command<T: Threads + Sync, F: Files>(
    rt: &T,
    alloc: Global,
    command: &Command,
    files: &mut F,
) -> Result<Decided, AllocError>
    requires { F.faults files.old < 2 ^ 64 - 1 }
    ensures decides { IfOk result (DecidesOne (Comes (F.told files.old) command.now) (F.faults files.old) (F.faults files.new) (F.failed files.new)) }
    ensures named { FaultIsNamed (F.told files.old) (F.faults files.old) (F.faults files.new) (F.failed files.new) command.now }
    ensures counted { CountsOnce (F.faults files.old) (F.faults files.new) }
    ensures steady { IsTrue (F.steady files.old) → F.faults files.new ≡ F.faults files.old }
    ensures same_files { F.told files.new ≡ F.told files.old }
{
    match command {
        Command::Check {
            list,
            files: operands,
            ..
        } => decide_check(rt, alloc, list, operands.as_slice(), files),
        Command::Run {
            script,
            fuel,
            lifecycle,
            files: operands,
        } => decide_run(
            rt,
            alloc,
            script,
            *fuel,
            *lifecycle,
            operands.as_slice(),
            files,
        ),
    }
}

/// What the words ask for, as far as it is decided before anything is written.
pub fn decide<T: Threads + Sync, F: Files>(
    rt: &T,
    alloc: Global,
    words: &[String],
    files: &mut F,
) -> Result<Decided, AllocError>
    requires { F.faults files.old < 2 ^ 64 - 1 }
    ensures decides { IfOk result (Decides (asked words.now) (F.told files.old) (F.faults files.old) (F.faults files.new) (F.failed files.new)) }
    ensures named { IfOk (asked words.now) (FaultIsNamed (F.told files.old) (F.faults files.old) (F.faults files.new) (F.failed files.new)) }
    ensures unread { IsErr (asked words.now) → files.new ≡ files.old }
    ensures counted { CountsOnce (F.faults files.old) (F.faults files.new) }
    ensures steady { IsTrue (F.steady files.old) → F.faults files.new ≡ F.faults files.old }
    ensures same_files { F.told files.new ≡ F.told files.old }
{
    match read_words(alloc, words) {
        Ok(command) => decide_command(rt, alloc, &command, files),
        Err(Fail::Refused(fault)) => Ok(Decided {
            status: Status::Usage,
            text: Text::new(alloc)?,
            line: usage_line(alloc, fault)?,
        }),
        Err(Fail::NoMemory) => Err(AllocError),
    }
}
