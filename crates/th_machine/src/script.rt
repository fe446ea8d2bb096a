// Scripts: events one after the other, from the initial state.
ghost use Rattle.std.specs.Prelude.{◌≡◌, ◌<◌, ◌^◌, [], false, IfOk, length};
ghost use Rattle.th_runs.specs.Verified.{IsVerified};
ghost use Rattle.th_machine.specs.Script.{Answered, RunsScript, Tells};
ghost use Rattle.th_machine.specs.Running.{is_at_rest};

use crate::machine::Machine;
use crate::outcome::Outcome;
use crate::report::{Report, ScriptFault};
use std::alloc::{AllocError, Global};
use th_base::{Fail, Lifecycle, Seq};
use th_syntax::{Event, Program, State};

// What is told of an event.
#[derive(Drop)]
struct Told<'a> {
    machine: Machine<'a>,
    fuel: u64,
    // None where the event can't happen.
    report: Option<Report>,
}

/// What comes of the events of a script, from the initial state of a program: a report of each in order, until
/// one has an outcome other than `Idle`, after which no event is made. Each step takes a unit of the fuel, which
/// all events share, and the events themselves take none. Refused is the first event that is reached and can't
/// happen: a launch of a class that isn't launchable, or a call of a handler that the lifecycle doesn't allow
/// then, or on an object that isn't launched.
pub fn run_script(
    alloc: Global,
    program: &Program,
    events: &[Event],
    fuel: u64,
    lifecycle: Lifecycle,
) -> Result<Seq<Report>, Fail<ScriptFault>>
    requires { length events.now < 2 ^ 32 }
    ensures { IsVerified program.now → Answered (RunsScript program.now lifecycle fuel events.now) result }
{
    let mut machine = Machine::start(alloc, program, lifecycle)?;
    let mut left = fuel;
    let mut reports = Seq::new(alloc);
    for (place, event) in events.iter().enumerate() {
        // Of a verified program the machine is always at rest here.
        if !is_at_rest(machine.state()) {
            return Ok(reports);
        }
        let told = tell(machine, *event, left)?;
        let Told {
            machine: next,
            fuel: rest,
            report,
        } = told;
        let Some(report) = report else {
            return Err(Fail::Refused(ScriptFault {
                event: place as u32 + 1,
            }));
        };
        let goes_on = report.outcome == Outcome::Idle;
        reports.push(report)?;
        if !goes_on {
            return Ok(reports);
        }
        machine = next;
        left = rest;
    }
    Ok(reports)
}

// Whether nothing runs, and the run hasn't ended.
fn is_at_rest(state: &State) -> bool
    ensures { result ≡ is_at_rest state.now }
{
    !state.ended && state.frames.is_empty()
}

// What is told of an event that a machine at rest makes with so much fuel.
fn tell<'a>(machine: Machine<'a>, event: Event, fuel: u64) -> Result<Told<'a>, AllocError>
    requires runs { machine.state.ended ≡ false }
    requires idle { machine.state.frames ≡ [] }
    ensures { IfOk result (λ r. IsVerified machine.entry.files → Tells machine.entry event fuel r.machine r.fuel r.report) }
{
    let answered = machine.event(event, fuel)?;
    let Some(outcome) = answered.outcome else {
        return Ok(Told {
            machine: answered.machine,
            fuel: answered.fuel,
            report: None,
        });
    };
    let reached = answered.machine.reached()?;
    Ok(Told {
        machine: answered.machine,
        fuel: answered.fuel,
        report: Some(Report {
            outcome,
            reached: Seq::from_vec(reached),
        }),
    })
}
