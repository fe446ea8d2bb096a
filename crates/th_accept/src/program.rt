// A program of files.
ghost use Rattle.std.specs.Prelude.{◌≤◌, ◌↔◌, All, IfOk, IsTrue, length};
ghost use Rattle.th_linker.specs.declared.linkable.TheConstants.{MOST_FILES};
ghost use Rattle.th_accept.specs.Accepted.{IsAccepted, IsRefused};
ghost use Rattle.th_accept.specs.Answers.{IfRefused, IsShort};

use crate::kinds::check_kinds;
use crate::laws::members_are_few;
use crate::reading::read_all;
use std::alloc::Global;
use std::thread::Threads;
use th_base::{Fail, Text};
use th_kinds::laws::class_files_flow_well;
use th_linker::{MOST_FILES, link};
use th_syntax::{Program, Refusal};

/// Whether `accept` may be asked: the files are not too many, and offsets of 32 bits lead anywhere in
/// each. Files that were read within the limits are so.
pub fn can_accept(files: &[(Text, Text)]) -> bool
    ensures { IsTrue result ↔ ((length files.now ≤ MOST_FILES) × All IsShort files.now) }
{
    files.len() <= MOST_FILES && are_short(files)
}

fn are_short(files: &[(Text, Text)]) -> bool
    ensures { IsTrue result ↔ All IsShort files.now }
{
    for file in files {
        if file.1.len() > u32::MAX as usize {
            return false;
        }
    }
    true
}

/// The program of files, each with its name and its bytes, or why they are refused.
///
/// `Ok` comes exactly where the files are accepted: each stands for a class file, these are linked with
/// each other, and the kinds of their methods have no conflict. A refusal is the first one: of the first
/// file in order, or else of linking, or else of the first method in order.
pub fn accept<T: Threads + Sync>(
    rt: &T,
    alloc: Global,
    files: &[(Text, Text)],
) -> Result<Program, Fail<Refusal>>
    requires few { length files.now ≤ MOST_FILES }
    requires short { All IsShort files.now }
    ensures accepted { IfOk result (IsAccepted files.now) }
    ensures refused { IfRefused result (IsRefused files.now) }
{
    members_are_few();
    class_files_flow_well();
    let classes = read_all(rt, alloc, files)?;
    let program = link(alloc, classes)?;
    match check_kinds(rt, alloc, program.files()) {
        Ok(()) => Ok(program),
        Err(fail) => Err(fail),
    }
}
