// Kinds of methods that are made by repetition. Each workload counts the instructions that have kinds.
ghost use Rattle.std.specs.Prelude.{◌<◌};

use std::alloc::{AllocError, Global};
use th_base::{Fail, Relation, Seq, Text};
use th_kinds::{Kinds, flows_well, infer};
use th_syntax::{ACC_STATIC, Code, Instr, Member};

// How many instructions lie between two merges.
const APART: u32 = 30;

// How many local variables the methods have.
const LOCALS: u16 = 200;

// The instructions that a method has room for.
const MOST_INSTRUCTIONS: u32 = 65_000;

// The instruction at a place of code in which a branch passes over each store of a reference.
fn merging(place: u32, size: u32) -> Instr
    requires { place < size }
{
    if place + 1 == size {
        return Instr::Return;
    }
    let block = place / APART;
    match place % APART {
        0 => Instr::ILoad(0),
        1 if size - place > APART => Instr::IfZero(Relation::Eq, place + (APART - 1)),
        2 => Instr::Null,
        3 => Instr::AStore((block % (LOCALS as u32 - 1)) as u16 + 1),
        _ => Instr::Inc(0, 1),
    }
}

// The instruction at a place of code that is entered from its end, jump by jump.
fn backward(place: u32, size: u32) -> Instr
    requires { place < size }
{
    match place {
        0 => Instr::Goto(size - 1),
        1 => Instr::Return,
        _ => Instr::Goto(place - 1),
    }
}

// So many instructions, each of which takes one byte.
fn code_of(alloc: Global, is_backward: bool, size: u32) -> Result<Vec<(u32, Instr)>, AllocError> {
    let mut instrs = Vec::new(alloc);
    for place in 0..size {
        let instr = if is_backward {
            backward(place, size)
        } else {
            merging(place, size)
        };
        instrs.push((place, instr))?;
    }
    Ok(instrs)
}

// How many instructions of so many have kinds.
fn count(alloc: Global, kinds: &Kinds, most: usize) -> Result<u64, AllocError> {
    let mut walk = kinds.walk(alloc)?;
    let mut count = 0u64;
    for _ in 0..most {
        if walk.here().is_none() {
            return Ok(count);
        }
        count = count.wrapping_add(1);
        walk.advance(alloc)?;
    }
    Ok(count)
}

// How many instructions of a method have kinds; none where it has no code in which control stays.
fn infer_in(alloc: Global, class: &Text, method: &Member) -> Result<u64, AllocError> {
    let code = match &method.code {
        Some(code) => code,
        None => return Ok(0),
    };
    let well = flows_well(alloc, code.instrs.as_slice())?;
    if !well {
        return Ok(0);
    }
    match infer(alloc, class, method) {
        Ok(kinds) => count(alloc, &kinds, code.instrs.as_slice().len()),
        Err(Fail::Refused(_)) => Ok(0),
        Err(Fail::NoMemory) => Err(AllocError),
    }
}

// Infers the kinds of a static method with this code.
fn infer_code(alloc: Global, instrs: Vec<(u32, Instr)>) -> Result<u64, AllocError> {
    let code = Code {
        max_stack: 2,
        max_locals: LOCALS,
        instrs: Seq::from_vec(instrs),
        handlers: 0,
    };
    let method = Member {
        access: ACC_STATIC,
        name: Text::from_slice(alloc, b"m")?,
        descriptor: Text::from_slice(alloc, b"(I)V")?,
        constant: None,
        code: Some(code),
    };
    infer_in(alloc, &Text::from_slice(alloc, b"A")?, &method)
}

// The kinds of so many instructions with a merge in every thirty.
pub(crate) fn kinds(alloc: Global, size: u32) -> Result<u64, AllocError> {
    let size = size.clamp(1, MOST_INSTRUCTIONS);
    infer_code(alloc, code_of(alloc, false, size)?)
}

// The kinds of so many instructions, each of which jumps to the one before.
pub(crate) fn back_jumps(alloc: Global, size: u32) -> Result<u64, AllocError> {
    let size = size.clamp(1, MOST_INSTRUCTIONS);
    infer_code(alloc, code_of(alloc, true, size)?)
}
