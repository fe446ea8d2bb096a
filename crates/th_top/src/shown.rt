// What is decided, and what is decided where there is nothing to report.
ghost use Rattle.std.specs.Prelude.{◌≡◌, IfOk};
ghost use Rattle.th_syntax.specs.LinkChecks.{refusal_of};
ghost use Rattle.th_top.specs.Decided.{Shows};
ghost use Rattle.th_top.specs.Outcome.{misuses, refuses, lacks, fails, outcome_of};

use crate::Status;
use crate::lines::{read_fault_line, refused_line, script_line};
use std::alloc::{AllocError, Global};
use th_base::{Name, Text};
use th_harness::ScriptError;
use th_input::Unread;
use th_syntax::{Refusal, cause};

/// A status with what goes to the output and to the errors.
#[derive(Debug, Drop)]
pub struct Decided {
    pub status: Status,
    /// What is written to the output.
    pub text: Text,
    /// What is written to the errors.
    pub line: Text,
}

// What is decided of files that are refused for this.
pub(crate) fn decide_refusal(alloc: Global, refusal: &Refusal) -> Result<Decided, AllocError>
    ensures { IfOk result (Shows (refuses refusal.now)) }
{
    Ok(Decided {
        status: Status::Refused,
        text: Text::new(alloc)?,
        line: refused_line(alloc, refusal)?,
    })
}

// What is decided where a refusal has this number, this class and member and this offset.
fn decide_refused(
    alloc: Global,
    number: u8,
    class: &[u8],
    member: &[u8],
    offset: u32,
) -> Result<Decided, AllocError>
    ensures { IfOk result (Shows (refuses (refusal_of number class.now member.now offset))) }
{
    let refusal = Refusal {
        number,
        class: Text::from_slice(alloc, class)?,
        member: Text::from_slice(alloc, member)?,
        offset,
    };
    decide_refusal(alloc, &refusal)
}

// What is decided of a script with this fault.
pub(crate) fn decide_misuse(alloc: Global, error: ScriptError) -> Result<Decided, AllocError>
    ensures { IfOk result (Shows (misuses error)) }
{
    Ok(Decided {
        status: Status::Usage,
        text: Text::new(alloc)?,
        line: script_line(alloc, error)?,
    })
}

// What is decided of a file that is missing, or for which a call of the store failed.
fn decide_read_fault(alloc: Global, name: &Name) -> Result<Decided, AllocError>
    ensures missing { IfOk result (Shows (lacks name.now)) }
    ensures failed { IfOk result (Shows (fails name.now)) }
{
    Ok(Decided {
        status: Status::ReadFault,
        text: Text::new(alloc)?,
        line: read_fault_line(alloc, name)?,
    })
}

// What is decided of a reading that ends before all is read.
pub(crate) fn decide_unread(alloc: Global, unread: &Unread) -> Result<Decided, AllocError>
    ensures { IfOk result (Shows (outcome_of unread.now)) }
{
    match unread {
        Unread::Missing(name) => decide_read_fault(alloc, name),
        Unread::Failed(name) => decide_read_fault(alloc, name),
        Unread::BadLine { list, offset } => {
            decide_refused(alloc, cause::NAME, list.as_str().as_bytes(), b"", *offset)
        }
        Unread::TooManyFiles => decide_refused(alloc, cause::LIMIT, b"", b"files", 0),
        Unread::TooManyBytes(name) => {
            decide_refused(alloc, cause::LIMIT, name.as_str().as_bytes(), b"bytes", 0)
        }
    }
}
