// The program of files that were read.
ghost use Rattle.std.specs.Prelude.{◌≡◌, ◌<◌, ◌≤◌, ◌^◌, All, IfOk, length};
ghost use Rattle.th_linker.specs.declared.linkable.TheConstants.{MOST_FILES};
ghost use Rattle.th_accept.specs.Answers.{IsShort, IfRefused};
ghost use Rattle.th_coarse.specs.Coarse.{alarms_refusal};
ghost use Rattle.th_top.specs.Decided.{IsProgramOf};
ghost use Rattle.th_top.specs.Program.{IsFirstRefused};

use std::alloc::{AllocError, Global};
use std::thread::Threads;
use th_accept::accept;
use th_base::{Fail, Text};
use th_coarse::{CoarseAlarms, coarse_alarms};
use th_syntax::{Program, Refusal, cause};

/// A program, and the coarse alarms that it has.
#[derive(Drop)]
pub(crate) struct Accepted {
    pub(crate) program: Program,
    pub(crate) alarms: CoarseAlarms,
}

// The refusal of a program with too many alarms.
fn alarms_refusal(alloc: Global) -> Result<Refusal, AllocError>
    ensures { IfOk result (λ refusal. refusal ≡ alarms_refusal) }
{
    Ok(Refusal {
        number: cause::LIMIT,
        class: Text::new(alloc)?,
        member: Text::from_slice(alloc, b"alarms")?,
        offset: 0,
    })
}

// The program of files; they are refused where they aren't accepted, or have too many alarms.
pub(crate) fn accept_within<T: Threads + Sync>(
    rt: &T,
    alloc: Global,
    files: &[(Text, Text)],
) -> Result<Accepted, Fail<Refusal>>
    requires few { length files.now ≤ MOST_FILES }
    requires short { All IsShort files.now }
    ensures accepted { IfOk result (IsProgramOf files.now) }
    ensures refused { IfRefused result (IsFirstRefused files.now) }
{
    let program = accept(rt, alloc, files)?;
    let alarms = coarse_alarms(alloc, &program)?;
    if !alarms.are_few() {
        return Err(Fail::Refused(alarms_refusal(alloc)?));
    }
    Ok(Accepted { program, alarms })
}
