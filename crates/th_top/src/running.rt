// What is decided of `run`.
ghost use Rattle.std.specs.Prelude.{◌≡◌, ◌<◌, ◌≤◌, ◌-◌, ◌^◌, All, IfOk, IsTrue, List, ℕ, Ok, length};
ghost use Rattle.th_linker.specs.declared.linkable.TheConstants.{MOST_FILES};
ghost use Rattle.th_accept.specs.Answers.{IsShort};
ghost use Rattle.th_harness.specs.Script.{script_of};
ghost use Rattle.th_runs.specs.Verified.{IsVerified};
ghost use Rattle.th_top.specs.Answer.{CountsOnce, FaultIsOf};
ghost use Rattle.th_top.specs.Decided.{DecidesOne, Shows, ShowsOne};
ghost use Rattle.th_top.specs.Outcome.{runs, GivesRun, IsOutcomeOf, IsOutcomeOfScript, IsRun};

use crate::Status;
use crate::accepting::accept_within;
use crate::run_text::{some_joined, write_run};
use crate::shown::{Decided, decide_misuse, decide_refusal, decide_unread};
use std::alloc::{AllocError, Global};
use std::thread::Threads;
use th_base::{Fail, Lifecycle, Name, Text};
use th_harness::{ScriptError, check_form, read_script};
use th_input::read_scripted;
use th_machine::{Report, run_script};
use th_outside::Files;
use th_syntax::{Event, Program};

// The run of a script, and the status that it gives.
fn decide_reports(
    alloc: Global,
    program: &Program,
    reports: &[Report],
) -> Result<Decided, AllocError>
    ensures { IfOk result (Shows (runs program.now reports.now)) }
{
    let status = if some_joined(reports) {
        Status::SomeSurvive
    } else {
        Status::NoneSurvive
    };
    Ok(Decided {
        status,
        text: Text::from_vec(write_run(alloc, program, reports)?)?,
        line: Text::new(alloc)?,
    })
}

// What is decided of a program and the events of a script.
fn decide_events(
    alloc: Global,
    program: &Program,
    events: &[Event],
    fuel: u32,
    lifecycle: Lifecycle,
) -> Result<Decided, AllocError>
    requires { length events.now < 2 ^ 32 }
    ensures { (script : List ℕ) → script_of program.now script ≡ Ok events.now → IsVerified program.now
        → IfOk result (ShowsOne (GivesRun script fuel lifecycle program.now)) }
{
    match run_script(alloc, program, events, fuel as u64, lifecycle) {
        Ok(reports) => decide_reports(alloc, program, reports.as_slice()),
        Err(Fail::Refused(fault)) => decide_misuse(alloc, ScriptError::Event(fault.event)),
        Err(Fail::NoMemory) => Err(AllocError),
    }
}

// What is decided of a program and a script.
fn decide_script(
    alloc: Global,
    program: &Program,
    script: &[u8],
    fuel: u32,
    lifecycle: Lifecycle,
) -> Result<Decided, AllocError>
    requires { length script.now < 2 ^ 32 - 1 }
    ensures { IsVerified program.now → IfOk result (ShowsOne (GivesRun script.now fuel lifecycle program.now)) }
{
    match read_script(alloc, script, program) {
        Ok(events) => decide_events(alloc, program, events.as_slice(), fuel, lifecycle),
        Err(Fail::Refused(error)) => decide_misuse(alloc, error),
        Err(Fail::NoMemory) => Err(AllocError),
    }
}

// What is decided of files and a script whose lines all have a form.
fn decide_files<T: Threads + Sync>(
    rt: &T,
    alloc: Global,
    files: &[(Text, Text)],
    script: &[u8],
    fuel: u32,
    lifecycle: Lifecycle,
) -> Result<Decided, AllocError>
    requires few { length files.now ≤ MOST_FILES }
    requires short { All IsShort files.now }
    requires short_script { length script.now < 2 ^ 32 - 1 }
    ensures { IfOk result (ShowsOne (IsOutcomeOf (GivesRun script.now fuel lifecycle) files.now)) }
{
    match accept_within(rt, alloc, files) {
        Ok(accepted) => decide_script(alloc, &accepted.program, script, fuel, lifecycle),
        Err(Fail::Refused(refusal)) => decide_refusal(alloc, &refusal),
        Err(Fail::NoMemory) => Err(AllocError),
    }
}

// What is decided of files and a script that were read.
fn decide_read<T: Threads + Sync>(
    rt: &T,
    alloc: Global,
    files: &[(Text, Text)],
    script: &[u8],
    fuel: u32,
    lifecycle: Lifecycle,
) -> Result<Decided, AllocError>
    requires few { length files.now ≤ MOST_FILES }
    requires short { All IsShort files.now }
    requires short_script { length script.now < 2 ^ 32 - 1 }
    ensures { IfOk result (ShowsOne (IsOutcomeOfScript script.now fuel lifecycle files.now)) }
{
    match check_form(script) {
        Ok(()) => decide_files(rt, alloc, files, script, fuel, lifecycle),
        Err(line) => decide_misuse(alloc, ScriptError::Line(line)),
    }
}

/// What is decided of a script on the class files of these names.
pub(crate) fn decide_run<T: Threads + Sync, F: Files>(
    rt: &T,
    alloc: Global,
    script: &Name,
    fuel: u32,
    lifecycle: Lifecycle,
    operands: &[Name],
    files: &mut F,
) -> Result<Decided, AllocError>
    requires { F.faults files.old < 2 ^ 64 - 1 }
    ensures decides { IfOk result (DecidesOne (IsRun (F.told files.old) script.now fuel lifecycle operands.now) (F.faults files.old) (F.faults files.new) (F.failed files.new)) }
    ensures named { FaultIsOf (IsRun (F.told files.old) script.now fuel lifecycle operands.now) (F.faults files.old) (F.faults files.new) (F.failed files.new) }
    ensures counted { CountsOnce (F.faults files.old) (F.faults files.new) }
    ensures steady { IsTrue (F.steady files.old) → F.faults files.new ≡ F.faults files.old }
    ensures same_files { F.told files.new ≡ F.told files.old }
{
    match read_scripted(alloc, files, script, operands) {
        Ok(read) => decide_read(
            rt,
            alloc,
            read.files.as_slice(),
            read.script.as_bytes(),
            fuel,
            lifecycle,
        ),
        Err(Fail::Refused(unread)) => decide_unread(alloc, &unread),
        Err(Fail::NoMemory) => Err(AllocError),
    }
}
