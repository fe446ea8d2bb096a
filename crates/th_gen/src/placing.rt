// Where the instructions of a method stand.
ghost use Rattle.std.specs.Prelude.{◌≡◌, ◌≤◌, ◌<◌, ◌+◌, ◌*◌, min, length, IfOk, IfSome, IfNone, MatchOption};
ghost use Rattle.th_gen.specs.Placing as spec;

use crate::pool::Pool;
use crate::spelling::{Spelling, spelling_of};
use std::alloc::{AllocError, Global};
use th_syntax::Instr;
use th_syntax::limit::MOST_CODE_BYTES;

// How many bytes lead from behind the opcode at `pc` to the next multiple of four.
pub(crate) fn padding_size(pc: u16) -> u16
    ensures value { result ≡ spec.padding_size pc }
    ensures most { result ≤ 3 }
{
    3 - pc % 4
}

// A size of so many bytes and so many items of `each` bytes, or 65,536 where it is more.
fn capped(bytes: u32, each: u32, count: usize) -> u32
    requires bytes_fit { bytes ≤ 16 }
    requires each_fits { (1 ≤ each) × (each ≤ 8) }
    ensures { result ≡ min (bytes + each * count) 65536 }
{
    if count >= 65_536 {
        return 65_536;
    }
    let size = bytes + each * count as u32;
    if size < 65_536 { size } else { 65_536 }
}

// How many bytes a switch takes, or 65,536 where it is more.
fn switch_size(pc: u16, instr: &Instr) -> u32
    ensures value { result ≡ min (spec.switch_size pc instr.now) 65536 }
    ensures most { result ≤ 65536 }
{
    match instr {
        Instr::TableSwitch { targets, .. } => {
            capped(u32::from(padding_size(pc)) + 13, 4, targets.len())
        }
        Instr::LookupSwitch { pairs, .. } => {
            capped(u32::from(padding_size(pc)) + 9, 8, pairs.len())
        }
        _ => 1,
    }
}

// How many bytes an instruction takes, or 65,536 where it is more.
fn size(pc: u16, instr: &Instr, spelling: Spelling) -> u32
    ensures value { result ≡ min (spec.size_by pc instr.now spelling) 65536 }
    ensures most { result ≤ 65536 }
{
    match spelling {
        Spelling::Bare(_) => 1,
        Spelling::Byte(..) => 2,
        Spelling::Short(..) | Spelling::Branch(..) | Spelling::Increment(..) => 3,
        Spelling::Wide(..) => 4,
        Spelling::Interface(_) => 5,
        Spelling::WideIncrement(..) => 6,
        Spelling::Switch(_) => switch_size(pc, instr),
    }
}

/// The offsets of a method's instructions, and the length of its code.
#[derive(Drop)]
pub(crate) struct Starts {
    pub(crate) offsets: Vec<u16>,
    pub(crate) length: u16,
}

// The offsets of instructions; none exactly where their code is longer than 65,535 bytes.
pub(crate) fn starts_of(
    alloc: Global,
    pool: &Pool,
    instrs: &[Instr],
) -> Result<Option<Starts>, AllocError>
    ensures { IfOk result (λ found. MatchOption found (65535 < spec.code_length pool.now.items.keys instrs.now) (λ starts. (starts.offsets.items ≡ spec.starts_of pool.now.items.keys instrs.now) × (starts.length ≡ spec.code_length pool.now.items.keys instrs.now) × (starts.length ≤ 65535))) }
{
    let mut offsets = Vec::new(alloc);
    let mut pc: u16 = 0;
    for instr in instrs {
        offsets.push(pc)?;
        let spelling = spelling_of(alloc, pool, instr)?;
        let behind = u32::from(pc) + size(pc, instr, spelling);
        if behind > MOST_CODE_BYTES {
            return Ok(None);
        }
        pc = behind as u16;
    }
    Ok(Some(Starts {
        offsets,
        length: pc,
    }))
}

// The offset of the instruction at a place; 0 past the last.
pub(crate) fn start_at(starts: &[u16], place: u32) -> u16
    ensures { result ≡ spec.start_at starts.now place }
{
    let place = place as usize;
    if place < starts.len() {
        starts[place]
    } else {
        0
    }
}

// Whether an offset of two bytes leads from one offset to another.
fn is_near(pc: u16, to: u16) -> bool
    ensures { result ≡ spec.is_near pc to }
{
    u32::from(to) <= u32::from(pc) + 32_767 && u32::from(pc) <= u32::from(to) + 32_768
}

// Whether a branch by an offset of two bytes has room for it.
fn reaches(starts: &[u16], pc: u16, instr: &Instr) -> bool
    ensures { result ≡ spec.reaches starts.now pc instr.now }
{
    match instr {
        Instr::IfZero(_, place)
        | Instr::IfInts(_, place)
        | Instr::IfSame(place)
        | Instr::IfOther(place)
        | Instr::IfNull(place)
        | Instr::IfNotNull(place)
        | Instr::Goto(place) => is_near(pc, start_at(starts, *place)),
        _ => true,
    }
}

// Whether each branch has room for its offset.
pub(crate) fn all_reach(starts: &[u16], instrs: &[Instr]) -> bool
    requires { length starts.now ≡ length instrs.now }
    ensures { result ≡ spec.all_reach starts.now starts.now instrs.now }
{
    for (place, instr) in instrs.iter().enumerate() {
        if !reaches(starts, starts[place], instr) {
            return false;
        }
    }
    true
}
