// Whether control stays within code.
ghost use Rattle.std.specs.Prelude.{◌≡◌, ◌↔◌, ◌-◌, ◌<◌, ℕ, All, Contains, length, slice_index, IfOk, IsTrue};
ghost use Rattle.th_kinds.specs.Flowing.{FlowsWell, line, jumps as jumps_of};
ghost use Rattle.th_kinds.specs.Kept.{Ascend};

use crate::listing::{instr_at, offsets_of};
use crate::walk::jumps;
use std::alloc::{AllocError, Global};
use th_syntax::Instr;

// Whether the offset at a place is above the one before.
fn is_above(offsets: &[u32], at: usize) -> bool
    requires some { 0 < at }
    requires inside { at < length offsets.now }
    ensures { IsTrue result ↔ (slice_index offsets.now (at - 1) < slice_index offsets.now at) }
{
    offsets[at - 1] < offsets[at]
}

// Whether offsets ascend.
fn ascend(offsets: &[u32]) -> bool
    ensures { IsTrue result ↔ Ascend offsets.now }
{
    for at in 1..offsets.len() {
        if !is_above(offsets, at) {
            return false;
        }
    }
    true
}

// Whether an offset is among those that ascend.
fn is_among(offsets: &[u32], offset: u32) -> bool
    requires { Ascend offsets.now }
    ensures { IsTrue result ↔ Contains offsets.now offset }
{
    match offsets.binary_search(&offset) {
        Ok(_) => true,
        Err(_) => false,
    }
}

// Whether these offsets are all among those that ascend.
fn are_among(offsets: &[u32], targets: &[u32]) -> bool
    requires { Ascend offsets.now }
    ensures { IsTrue result ↔ All (λ target. Contains offsets.now target) targets.now }
{
    for target in targets {
        if !is_among(offsets, *target) {
            return false;
        }
    }
    true
}

// Whether there are offsets, and the first one is 0.
fn begin(offsets: &[u32]) -> bool
    ensures { IsTrue result ↔ ((0 < length offsets.now) × (slice_index offsets.now 0 ≡ 0)) }
{
    if offsets.is_empty() {
        return false;
    }
    offsets[0] == 0
}

// Whether each jump lands on one of these offsets, which ascend.
fn jumps_land(alloc: Global, instrs: &[(u32, Instr)], offsets: &[u32]) -> Result<bool, AllocError>
    requires { Ascend offsets.now }
    ensures { IfOk result (λ land. IsTrue land ↔ ((k : ℕ) → k < length instrs.now → All (λ target. Contains offsets.now target) (jumps_of (line instrs.now k).1))) }
{
    for place in 0..instrs.len() {
        let targets = jumps(alloc, instr_at(instrs, place))?;
        if !are_among(offsets, targets.as_slice()) {
            return Ok(false);
        }
    }
    Ok(true)
}

/// Whether control stays within these instructions, as `infer` asks: offsets ascend from 0, and each
/// jump lands on an instruction. Takes time in the number of instructions and jumps.
pub fn flows_well(alloc: Global, instrs: &[(u32, Instr)]) -> Result<bool, AllocError>
    ensures { IfOk result (λ well. IsTrue well ↔ FlowsWell instrs.now) }
{
    let offsets = offsets_of(alloc, instrs)?;
    let starts = offsets.as_slice();
    if !begin(starts) {
        return Ok(false);
    }
    if !ascend(starts) {
        return Ok(false);
    }
    let land = jumps_land(alloc, instrs, starts)?;
    Ok(land)
}
