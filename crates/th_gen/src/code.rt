// The bytes of instructions.
ghost use Rattle.std.specs.Prelude.{◌≡◌, ◌<◌, ◌≤◌, ◌*◌, ◌%◌, ◌+◌, ◌-◌, ◌^◌, ◌++◌, ◌∷◌, [], true, length, map, take, OnOk};
ghost use Rattle.std.specs.List.{flat_map, list_all};
ghost use Rattle.std.specs.Int.{w32, cast_unsigned};
ghost use Rattle.th_gen.specs.Placing.{padding_size, start_at};
ghost use Rattle.th_gen.specs.ClassText as spec;

use crate::placing;
use crate::pool::Pool;
use crate::spelling::{Spelling, spelling_of};
use crate::write::{put_u2, put_u4};
use std::alloc::{AllocError, Global};
use th_syntax::{Instr, opcode};

// The offset of two bytes from `pc` to the instruction at a place.
fn put_near(out: &mut Vec<u8>, starts: &[u16], pc: u16, place: u32) -> Result<(), AllocError>
    ensures { OnOk result (out.new.items ≡ out.old.items ++ spec.near pc (start_at starts.now place)) }
{
    put_u2(out, placing::start_at(starts, place).wrapping_sub(pc))
}

// The offset of four bytes from `pc` to the instruction at a place.
fn put_far(out: &mut Vec<u8>, starts: &[u16], pc: u16, place: u32) -> Result<(), AllocError>
    ensures { OnOk result (out.new.items ≡ out.old.items ++ spec.far pc (start_at starts.now place)) }
{
    let to = u32::from(placing::start_at(starts, place));
    put_u4(out, to.wrapping_sub(u32::from(pc)))
}

fn put_padding(out: &mut Vec<u8>, pc: u16) -> Result<(), AllocError>
    ensures { OnOk result (out.new.items ≡ out.old.items ++ take (padding_size pc) (0 ∷ 0 ∷ 0 ∷ [])) }
{
    let zeros = [0u8; 3];
    out.extend_from_slice(&zeros[..placing::padding_size(pc) as usize])
}

fn put_targets(out: &mut Vec<u8>, starts: &[u16], pc: u16, places: &[u32]) -> Result<(), AllocError>
    ensures { OnOk result (out.new.items ≡ out.old.items ++ flat_map (λ place. spec.far pc (start_at starts.now place)) places.now) }
{
    for place in places {
        put_far(out, starts, pc, *place)?;
    }
    Ok(())
}

fn put_pairs(
    out: &mut Vec<u8>,
    starts: &[u16],
    pc: u16,
    pairs: &[(i32, u32)],
) -> Result<(), AllocError>
    ensures { OnOk result (out.new.items ≡ out.old.items ++ flat_map (λ pair. spec.u4 (cast_unsigned w32 pair.0) ++ spec.far pc (start_at starts.now pair.1)) pairs.now) }
{
    for (key, place) in pairs {
        put_u4(out, key.cast_unsigned())?;
        put_far(out, starts, pc, *place)?;
    }
    Ok(())
}

// The operands of a tableswitch.
fn put_table(
    out: &mut Vec<u8>,
    starts: &[u16],
    pc: u16,
    low: i32,
    places: &[u32],
    other: u32,
) -> Result<(), AllocError>
    requires { length places.now ≤ 65535 }
    ensures { OnOk result (out.new.items ≡ out.old.items ++ spec.switch_operands starts.now pc (Instr.TableSwitch low places.now other)) }
{
    let first = low.cast_unsigned();
    let more = places.len().saturating_sub(1) as u32;
    put_padding(out, pc)?;
    put_far(out, starts, pc, other)?;
    put_u4(out, first)?;
    put_u4(out, first.wrapping_add(more))?;
    put_targets(out, starts, pc, places)?;
    Ok(())
}

// The operands of a lookupswitch.
fn put_lookup(
    out: &mut Vec<u8>,
    starts: &[u16],
    pc: u16,
    pairs: &[(i32, u32)],
    other: u32,
) -> Result<(), AllocError>
    requires { length pairs.now ≤ 65535 }
    ensures { OnOk result (out.new.items ≡ out.old.items ++ spec.switch_operands starts.now pc (Instr.LookupSwitch pairs.now other)) }
{
    put_padding(out, pc)?;
    put_far(out, starts, pc, other)?;
    put_u4(out, pairs.len() as u32)?;
    put_pairs(out, starts, pc, pairs)?;
    Ok(())
}

fn put_switch(out: &mut Vec<u8>, starts: &[u16], pc: u16, instr: &Instr) -> Result<(), AllocError>
    requires { spec.switch_fits instr.now ≡ true }
    ensures { OnOk result (out.new.items ≡ out.old.items ++ spec.switch_operands starts.now pc instr.now) }
{
    match instr {
        Instr::TableSwitch {
            low,
            targets,
            other,
        } => put_table(out, starts, pc, *low, targets.as_slice(), *other),
        Instr::LookupSwitch { pairs, other } => {
            put_lookup(out, starts, pc, pairs.as_slice(), *other)
        }
        _ => Ok(()),
    }
}

fn put_spelled(
    out: &mut Vec<u8>,
    starts: &[u16],
    pc: u16,
    instr: &Instr,
    spelling: Spelling,
) -> Result<(), AllocError>
    requires { spec.switch_fits instr.now ≡ true }
    ensures { OnOk result (out.new.items ≡ out.old.items ++ spec.spelled_by starts.now pc instr.now spelling) }
{
    match spelling {
        Spelling::Bare(code) => out.push(code)?,
        Spelling::Byte(code, operand) => out.extend_from_slice(&[code, operand])?,
        Spelling::Short(code, operand) => {
            out.push(code)?;
            put_u2(out, operand)?;
        }
        Spelling::Wide(code, index) => {
            out.extend_from_slice(&[opcode::WIDE, code])?;
            put_u2(out, index)?;
        }
        Spelling::Increment(index, by) => {
            out.extend_from_slice(&[opcode::IINC, index, by.cast_unsigned()])?;
        }
        Spelling::WideIncrement(index, by) => {
            out.extend_from_slice(&[opcode::WIDE, opcode::IINC])?;
            put_u2(out, index)?;
            put_u2(out, by.cast_unsigned())?;
        }
        Spelling::Branch(code, place) => {
            out.push(code)?;
            put_near(out, starts, pc, place)?;
        }
        Spelling::Interface(index) => {
            out.push(opcode::INVOKEINTERFACE)?;
            put_u2(out, index)?;
            out.extend_from_slice(&[1, 0])?;
        }
        Spelling::Switch(code) => {
            out.push(code)?;
            put_switch(out, starts, pc, instr)?;
        }
    }
    Ok(())
}

// The bytes of instructions at these offsets.
pub(crate) fn put_code(
    alloc: Global,
    out: &mut Vec<u8>,
    pool: &Pool,
    starts: &[u16],
    instrs: &[Instr],
) -> Result<(), AllocError>
    requires same { length starts.now ≡ length instrs.now }
    requires fits { list_all spec.switch_fits instrs.now ≡ true }
    ensures { OnOk result (out.new.items ≡ out.old.items ++ spec.code_from pool.now.items.keys starts.now starts.now instrs.now) }
{
    for (place, instr) in instrs.iter().enumerate() {
        let spelling = spelling_of(alloc, pool, instr)?;
        put_spelled(out, starts, starts[place], instr, spelling)?;
    }
    Ok(())
}
