// What is decided of `check`.
ghost use Rattle.std.specs.Prelude.{◌≡◌, ◌<◌, ◌≤◌, ◌-◌, ◌^◌, All, IfOk, IsTrue, length};
ghost use Rattle.th_linker.specs.declared.linkable.TheConstants.{MOST_FILES};
ghost use Rattle.th_accept.specs.Answers.{IsShort};
ghost use Rattle.th_coarse.specs.Coarse.{coarse_alarms};
ghost use Rattle.th_coarse.specs.Report.{report_of};
ghost use Rattle.th_top.specs.Answer.{CountsOnce, FaultIsOf};
ghost use Rattle.th_top.specs.Decided.{DecidesOne, Shows, ShowsOne};
ghost use Rattle.th_top.specs.Outcome.{reports, GivesReport, IsChecked, IsOutcomeOf};

use crate::Status;
use crate::accepting::{Accepted, accept_within};
use crate::shown::{Decided, decide_refusal, decide_unread};
use std::alloc::{AllocError, Global};
use std::thread::Threads;
use th_base::{Fail, Name, Text};
use th_coarse::{Judged, some_survive, write_report};
use th_input::read_class_files;
use th_outside::Files;
use th_syntax::Program;

// The report of an accepted program, and the status that it gives.
fn decide_report(alloc: Global, program: &Program, report: &[Judged]) -> Result<Decided, AllocError>
    ensures { IfOk result (Shows (reports program.now report.now)) }
{
    let status = if some_survive(report) {
        Status::SomeSurvive
    } else {
        Status::NoneSurvive
    };
    Ok(Decided {
        status,
        text: Text::from_vec(write_report(alloc, program, report)?)?,
        line: Text::new(alloc)?,
    })
}

// What is decided of a program with these alarms.
fn decide_alarms(alloc: Global, accepted: &Accepted) -> Result<Decided, AllocError>
    requires { accepted.now.alarms ≡ coarse_alarms accepted.now.program }
    ensures { IfOk result (Shows (reports accepted.now.program (report_of accepted.now.program))) }
{
    let report = accepted.alarms.surviving(alloc)?;
    decide_report(alloc, &accepted.program, report.as_slice())
}

// What is decided of files that were read.
fn decide_files<T: Threads + Sync>(
    rt: &T,
    alloc: Global,
    files: &[(Text, Text)],
) -> Result<Decided, AllocError>
    requires few { length files.now ≤ MOST_FILES }
    requires short { All IsShort files.now }
    ensures { IfOk result (ShowsOne (IsOutcomeOf GivesReport files.now)) }
{
    match accept_within(rt, alloc, files) {
        Ok(accepted) => decide_alarms(alloc, &accepted),
        Err(Fail::Refused(refusal)) => decide_refusal(alloc, &refusal),
        Err(Fail::NoMemory) => Err(AllocError),
    }
}

/// What is decided of a report on the class files of these names, and of those that a list names.
pub(crate) fn decide_check<T: Threads + Sync, F: Files>(
    rt: &T,
    alloc: Global,
    list: &Option<Name>,
    operands: &[Name],
    files: &mut F,
) -> Result<Decided, AllocError>
    requires { F.faults files.old < 2 ^ 64 - 1 }
    ensures decides { IfOk result (DecidesOne (IsChecked (F.told files.old) list.now operands.now) (F.faults files.old) (F.faults files.new) (F.failed files.new)) }
    ensures named { FaultIsOf (IsChecked (F.told files.old) list.now operands.now) (F.faults files.old) (F.faults files.new) (F.failed files.new) }
    ensures counted { CountsOnce (F.faults files.old) (F.faults files.new) }
    ensures steady { IsTrue (F.steady files.old) → F.faults files.new ≡ F.faults files.old }
    ensures same_files { F.told files.new ≡ F.told files.old }
{
    match read_class_files(alloc, files, list, operands) {
        Ok(read) => decide_files(rt, alloc, read.as_slice()),
        Err(Fail::Refused(unread)) => decide_unread(alloc, &unread),
        Err(Fail::NoMemory) => Err(AllocError),
    }
}
