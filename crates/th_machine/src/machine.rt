// The machine: a program, and the state of its run.
ghost use Rattle.std.specs.Prelude.{◌≡◌, [], false, IfOk};
ghost use Rattle.th_runs.specs.Verified.{IsVerified};
ghost use Rattle.th_syntax.specs.Initial.{initial};
ghost use Rattle.th_syntax.specs.declared.machine.State.{State};
ghost use Rattle.th_machine.specs.Reached.{AreJoined};
ghost use Rattle.th_machine.specs.Running.{Answers, HasRun, IsStep, finds_no_room, last_of, rest_of, told_after, told_of};

use crate::beginning::{heap_held, initial};
use crate::happening::{Came, happen};
use crate::laws::steps_are_found;
use crate::outcome::{Outcome, Stepped};
use crate::reached::joined_pairs;
use crate::stepping::{Advance, step_state};
use std::alloc::{AllocError, Global};
use std::marker::Model;
use th_base::{ClassId, FieldId, Lifecycle};
use th_resolved::Resolved;
use th_syntax::{Event, Program, State};

/// A program, the lifecycle that its harness follows, and the state in which its run stands. A call that
/// moves it takes it by value, so that after want of memory there is no machine.
#[derive(Drop)]
pub struct Machine<'a> {
    alloc: Global,
    resolved: Resolved<'a>,
    lifecycle: Lifecycle,
    state: State,
    held: u64,
}

impl<'a> Model for Machine<'a> {
    ghost use Rattle.th_machine.specs.Running.{IsStanding, Standing};

    ghost Value = { Standing };

    ghost view = { λ m. record { files = m.resolved; lifecycle = m.lifecycle; state = m.state } };

    ghost invariant = { λ m. IsStanding m.resolved m.lifecycle m.state m.held };
}

/// What comes of an event.
#[derive(Drop)]
pub struct Answered<'a> {
    /// The machine then.
    pub machine: Machine<'a>,
    /// The fuel that is left.
    pub fuel: u64,
    /// What it came to; none where the event can't happen, and nothing was changed.
    pub outcome: Option<Outcome>,
}

// What comes of a run.
#[derive(Drop)]
struct Ran<'a> {
    machine: Machine<'a>,
    left: u64,
    outcome: Outcome,
}

// What comes of a run that rests or has ended.
fn rest_of(state: &State) -> Option<Outcome>
    ensures { result ≡ rest_of state.now }
{
    if state.ended {
        return Some(Outcome::Ended);
    }
    if state.frames.is_empty() {
        Some(Outcome::Idle)
    } else {
        None
    }
}

// What comes of a run that has no fuel left.
fn last_of(state: &State) -> Outcome
    ensures { result ≡ last_of state.now }
{
    match rest_of(state) {
        Some(outcome) => outcome,
        None => Outcome::Fuel,
    }
}

// Whether a step found no room.
fn finds_no_room(told: Stepped) -> bool
    ensures { result ≡ finds_no_room told }
{
    match told {
        Stepped::Full => true,
        Stepped::Running | Stepped::Idle | Stepped::Ended => false,
    }
}

// What is told of a state after a step.
fn told_of(state: &State) -> Stepped
    ensures { result ≡ told_of state.now }
{
    if state.ended {
        return Stepped::Ended;
    }
    if state.frames.is_empty() {
        Stepped::Idle
    } else {
        Stepped::Running
    }
}

// What is told of what came of a step.
fn told_after(advance: &Advance) -> Stepped
    ensures { result ≡ told_after advance.now }
{
    if advance.is_full {
        Stepped::Full
    } else {
        told_of(&advance.state)
    }
}

impl<'a> Machine<'a> {
    /// A machine in the initial state of a program.
    pub fn start(
        alloc: Global,
        program: &'a Program,
        lifecycle: Lifecycle,
    ) -> Result<Machine<'a>, AllocError>
        ensures { IfOk result (λ m. m ≡ record { files = program.now; lifecycle = lifecycle; state = initial program.now }) }
    {
        let resolved = Resolved::new(alloc, program)?;
        let state = initial(alloc, &resolved)?;
        let held = heap_held(state.heap.as_slice())?;
        Ok(Machine {
            alloc,
            resolved,
            lifecycle,
            state,
            held,
        })
    }

    /// The state.
    pub fn state(&self) -> &State
        ensures { result.now ≡ self.now.state }
    {
        &self.state
    }

    /// The joined pairs of the state, in order of field and class: each static field of reference type that
    /// leads, through zero or more instance fields and elements, to an object whose class is exactly this one,
    /// which is `android/app/Activity` or a subclass of it. One walk over the heap for each static field.
    pub fn reached(&self) -> Result<Vec<(FieldId, ClassId)>, AllocError>
        ensures { IfOk result (λ pairs. AreJoined self.now.files self.now.state pairs.items) }
    {
        joined_pairs(self.alloc, self.resolved.program(), &self.state)
    }

    /// One step. Where it finds no room, nothing is changed.
    pub fn step(self) -> Result<(Machine<'a>, Stepped), AllocError>
        requires running { self.state.ended ≡ false }
        requires framed { self.state.frames ≡ [] → ⊥ }
        ensures { IfOk result (λ r. IsVerified self.entry.files → IsStep self.entry r.0 r.1) }
    {
        steps_are_found();
        let Machine {
            alloc,
            resolved,
            lifecycle,
            state,
            held,
        } = self;
        let advance = step_state(alloc, &resolved, state, held)?;
        let told = told_after(&advance);
        let machine = Machine {
            alloc,
            resolved,
            lifecycle,
            state: advance.state,
            held: advance.held,
        };
        Ok((machine, told))
    }

    /// An event, and then the steps that follow, as long as there is fuel: each takes one unit, and the event none.
    pub fn event(self, asked: Event, fuel: u64) -> Result<Answered<'a>, AllocError>
        requires runs { self.state.ended ≡ false }
        requires idle { self.state.frames ≡ [] }
        ensures { IfOk result (λ r. IsVerified self.entry.files → Answers self.entry asked fuel r.machine r.fuel r.outcome) }
    {
        let Machine {
            alloc,
            resolved,
            lifecycle,
            state,
            held,
        } = self;
        let happening = happen(alloc, &resolved, lifecycle, state, asked, held)?;
        let came = happening.came;
        let machine = Machine {
            alloc,
            resolved,
            lifecycle,
            state: happening.state,
            held: happening.held,
        };
        match came {
            Came::Nothing => Ok(Answered {
                machine,
                fuel,
                outcome: None,
            }),
            Came::Full => Ok(Answered {
                machine,
                fuel,
                outcome: Some(Outcome::Full),
            }),
            Came::Made => {
                let ran = machine.run(fuel)?;
                Ok(Answered {
                    machine: ran.machine,
                    fuel: ran.left,
                    outcome: Some(ran.outcome),
                })
            }
        }
    }

    // The run goes on until it rests, has ended, has no fuel or finds no room.
    fn run(self, fuel: u64) -> Result<Ran<'a>, AllocError>
        ensures { IfOk result (λ r. IsVerified self.entry.files → HasRun self.entry fuel r.machine r.left r.outcome) }
    {
        let mut machine = self;
        for taken in 0..fuel {
            let rest = rest_of(&machine.state);
            if let Some(outcome) = rest {
                return Ok(Ran {
                    machine,
                    left: fuel - taken,
                    outcome,
                });
            }
            let (next, told) = machine.step()?;
            if finds_no_room(told) {
                return Ok(Ran {
                    machine: next,
                    left: fuel - taken,
                    outcome: Outcome::Full,
                });
            }
            machine = next;
        }
        let outcome = last_of(&machine.state);
        Ok(Ran {
            machine,
            left: 0,
            outcome,
        })
    }
}
