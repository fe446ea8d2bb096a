// Decoding a code array.
ghost use Rattle.std.specs.Prelude.{◌≡◌, ◌+◌, ◌^◌, ◌<◌, ◌≤◌, [], length, IfOk, false, true, nat_le, nat_lt, slice_set, ℕ};
ghost use Rattle.th_syntax.specs.Flaws.{IsFirst, flaw_at};
ghost use Rattle.th_syntax.specs.Decoding as decoding;
ghost use Rattle.th_pool.specs.Gives.{IfRefused};
ghost use Rattle.th_code.specs.Decoded.{IsRead, IsStopped, placed_fail};
ghost use Rattle.th_code.specs.Starts.{is_marked};

use crate::by_opcode::instruction;
use crate::flow::first_stray;
use std::alloc::{AllocError, Global};
use th_base::{Fail, Seq};
use th_pool::{Place, Pool};
use th_syntax::cause::CODE_SHAPE;
use th_syntax::laws::class_files::flaws_ascend;
use th_syntax::{Flaw, Instr};

// The instructions of a code array, each with its offset, and for each offset whether one starts there.
#[derive(Debug, Drop)]
pub(crate) struct Decoded {
    pub instrs: Vec<(u32, Instr)>,
    pub starts: Vec<bool>,
}

// How many local variables there have to be for those that an instruction names.
fn locals_named(instr: &Instr) -> u32
    ensures { result ≡ decoding.locals_named instr.now }
{
    match instr {
        Instr::ILoad(index) | Instr::ALoad(index) => u32::from(*index) + 1,
        Instr::IStore(index) | Instr::AStore(index) => u32::from(*index) + 1,
        Instr::LLoad(index) | Instr::LStore(index) => u32::from(*index) + 2,
        Instr::Inc(index, _) => u32::from(*index) + 1,
        _ => 0,
    }
}

// Whether there are as many local variables as an instruction names.
fn has_locals(max_locals: u16, instr: &Instr) -> bool
    ensures { result ≡ nat_le (decoding.locals_named instr.now) max_locals }
{
    locals_named(instr) <= u32::from(max_locals)
}

// No offset of so many is marked.
#[tactic(auto, using(crate::proofs::Passing::not_marked))]
fn no_starts(alloc: Global, len: usize) -> Result<Vec<bool>, AllocError>
    ensures len { IfOk result (λ starts. length starts.items ≡ len) }
    ensures none { IfOk result (λ starts. (offset : ℕ) → is_marked starts.items offset ≡ false) }
{
    vec![in alloc; false; len]
}

// The flaw of an opcode in code that stands at an offset of the file.
fn refused(number: u8, at: u32, pc: u32) -> Fail<Flaw>
    requires { at + pc < 2 ^ 32 }
    ensures { result ≡ Fail.Refused (flaw_at number (at + pc)) }
{
    Fail::Refused(Flaw {
        number,
        offset: at + pc,
    })
}

// The same of what a reader of an instruction answers.
fn placed(fail: Fail<u8>, at: u32, pc: u32) -> Fail<Flaw>
    requires { at + pc < 2 ^ 32 }
    ensures { result ≡ placed_fail fail (at + pc) }
{
    match fail {
        Fail::Refused(number) => refused(number, at, pc),
        Fail::NoMemory => Fail::NoMemory,
    }
}

// Marks an offset.
fn mark(starts: &mut Vec<bool>, pc: u32)
    requires { pc < length starts.old.items }
    ensures { starts.new.items ≡ slice_set starts.old.items pc true }
{
    starts[pc as usize] = true;
}

// The place where the code begins.
fn start_of(code: &[u8]) -> Place
    requires { length code.now < 2 ^ 32 }
    ensures at { result.at ≡ 0 }
    ensures rest { result.rest.now ≡ code.now }
{
    Place { at: 0, rest: code }
}

// Whether the code goes on at a place.
fn has_more(place: Place) -> bool
    ensures { result ≡ nat_lt 0 (length place.entry.rest.now) }
{
    !place.rest.is_empty()
}

fn offset_of(place: Place) -> u32
    ensures { result ≡ place.entry.at }
{
    place.at
}

// The instructions, where none of them has a flaw, or else the first flaw of one.
fn read_instrs(
    alloc: Global,
    code: &[u8],
    at: u32,
    max_locals: u16,
    pool: &Pool,
) -> Result<Decoded, Fail<Flaw>>
    requires { at + length code.now < 2 ^ 32 }
    ensures read { IfOk result (λ d. IsRead pool.now max_locals at code.now d.instrs.items d.starts.items) }
    ensures stopped { IfRefused result (IsStopped pool.now max_locals at code.now) }
{
    let mut instrs = Vec::new(alloc);
    let mut starts = no_starts(alloc, code.len())?;
    let mut place = start_of(code);
    while has_more(place) {
        let pc = offset_of(place);
        let (instr, behind) = match instruction(alloc, pool, place) {
            Ok(found) => found,
            Err(fail) => return Err(placed(fail, at, pc)),
        };
        if !has_locals(max_locals, &instr) {
            return Err(refused(CODE_SHAPE, at, pc));
        }
        mark(&mut starts, pc);
        instrs.push((pc, instr))?;
        place = behind;
    }
    Ok(Decoded { instrs, starts })
}

/// The instructions of a code array, each with its offset in the code (Java specification 4.9.1), for
/// a method with so many local variables. The code stands at an offset of the file.
///
/// Refused is the first of its flaws: at the first opcode that has one, the least number. 6 and 7 are
/// names and descriptors, 10 an opcode or a constant that isn't of the profile, 11 the shape of the
/// code; where no opcode has a flaw, 11 at the first instruction that leads to where none starts.
pub fn decode(
    alloc: Global,
    code: &[u8],
    at: u32,
    max_locals: u16,
    pool: &Pool,
) -> Result<Seq<(u32, Instr)>, Fail<Flaw>>
    requires { at + length code.now < 2 ^ 32 }
    ensures value { IfOk result (λ instrs. instrs ≡ decoding.instrs_in pool.now code.now) }
    ensures flawless { IfOk result (λ instrs. decoding.flaws_in pool.now max_locals at code.now ≡ []) }
    ensures first { IfRefused result (IsFirst (decoding.flaws_in pool.now max_locals at code.now)) }
{
    flaws_ascend();
    let Decoded { instrs, starts } = match read_instrs(alloc, code, at, max_locals, pool) {
        Ok(decoded) => decoded,
        Err(fail) => return Err(fail),
    };
    match first_stray(starts.as_slice(), instrs.as_slice()) {
        Some(pc) => Err(refused(CODE_SHAPE, at, pc)),
        None => Ok(Seq::from_vec(instrs)),
    }
}
