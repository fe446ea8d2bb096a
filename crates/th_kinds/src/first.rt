// What is kept at first: nothing yet, at each instruction to which one jumps.
ghost use Rattle.std.specs.Prelude.{◌≡◌, ℕ, ◌<◌, true, false, All, Contains, length, slice_index, slice_index_or, IfOk, OnOk};
ghost use Rattle.th_kinds.specs.States.{seen_state};
ghost use Rattle.th_kinds.specs.Kept.{seen_kept, kept_places, Ascend, IsSettled, IsNothing};
ghost use Rattle.th_kinds.specs.Listings.{IsReady};
ghost use Rattle.th_kinds.specs.Walk as walk;

use crate::kept::place_of;
use crate::listing::{Listing, instr_at};
use crate::settle::settle;
use crate::state::State;
use crate::walk::jumps;
use std::alloc::{AllocError, Global};

// Keeps nothing, at so many places.
fn nowhere(alloc: Global, places: usize) -> Result<Vec<Option<State>>, AllocError>
    ensures length { IfOk result (λ kept. length kept.items ≡ places) }
    ensures nothing { IfOk result (λ kept. IsNothing (seen_kept kept.items)) }
{
    let mut kept = Vec::new(alloc);
    for _added in 0..places {
        kept.push(None)?;
    }
    Ok(kept)
}

// Keeps a state at a place, of which nothing is known yet.
fn mark(kept: &mut [Option<State>], place: usize)
    requires { place < length kept.old }
    ensures length { length kept.new ≡ length kept.old }
    ensures nothing { IsNothing (seen_kept kept.old) → IsNothing (seen_kept kept.new) }
    ensures marked { slice_index_or (kept_places kept.new) place false ≡ true }
    ensures more { (k : ℕ) → slice_index_or (kept_places kept.old) k false ≡ true → slice_index_or (kept_places kept.new) k false ≡ true }
{
    kept[place] = Some(State::NoKinds);
}

// Keeps states at the instructions at these offsets.
fn mark_all(kept: &mut [Option<State>], offsets: &[u32], targets: &[u32])
    requires length { length kept.old ≡ length offsets.now }
    requires ascending { Ascend offsets.now }
    requires there { All (λ target. Contains offsets.now target) targets.now }
    ensures length { length kept.new ≡ length kept.old }
    ensures nothing { IsNothing (seen_kept kept.old) → IsNothing (seen_kept kept.new) }
    ensures marked { (t j : ℕ) → t < length targets.now → j < length offsets.now → slice_index offsets.now j ≡ slice_index targets.now t → slice_index_or (kept_places kept.new) j false ≡ true }
    ensures more { (k : ℕ) → slice_index_or (kept_places kept.old) k false ≡ true → slice_index_or (kept_places kept.new) k false ≡ true }
{
    for target in targets {
        mark(kept, place_of(offsets, *target));
    }
}

// Keeps states at the instructions to which one jumps.
fn mark_jumps(alloc: Global, code: &Listing, kept: &mut [Option<State>]) -> Result<(), AllocError>
    requires ready { IsReady code.now }
    requires length { length kept.old ≡ length code.now.offsets.items }
    ensures length { length kept.new ≡ length kept.old }
    ensures nothing { OnOk result (IsNothing (seen_kept kept.old) → IsNothing (seen_kept kept.new)) }
    ensures marked { OnOk result ((k j : ℕ) → k < length code.now.instrs.now → j < length code.now.offsets.items → Contains (walk.jumps (walk.line code.now.instrs.now k).1) (slice_index code.now.offsets.items j) → slice_index_or (kept_places kept.new) j false ≡ true) }
{
    for place in 0..code.instrs.len() {
        let targets = jumps(alloc, instr_at(code.instrs, place))?;
        mark_all(kept, code.offsets.as_slice(), targets.as_slice());
    }
    Ok(())
}

// Keeps what is known of the least table at the instructions to which one jumps.
fn fill(
    alloc: Global,
    code: &Listing,
    entry: &State,
    kept: &mut [Option<State>],
) -> Result<(), AllocError>
    requires ready { IsReady code.now }
    requires length { length kept.old ≡ length code.now.instrs.now }
    requires nothing { IsNothing (seen_kept kept.old) }
    ensures length { length kept.new ≡ length kept.old }
    ensures settled { OnOk result (IsSettled (seen_state entry.now) code.now.instrs.now code.now.offsets.items (seen_kept kept.new)) }
{
    mark_jumps(alloc, code, kept)?;
    settle(alloc, code, entry, kept)?;
    Ok(())
}

// What is kept of the least table, where this is known at the entry.
pub(crate) fn settled(
    alloc: Global,
    code: &Listing,
    entry: &State,
) -> Result<Vec<Option<State>>, AllocError>
    requires { IsReady code.now }
    ensures length { IfOk result (λ kept. length kept.items ≡ length code.now.instrs.now) }
    ensures settled { IfOk result (λ kept. IsSettled (seen_state entry.now) code.now.instrs.now code.now.offsets.items (seen_kept kept.items)) }
{
    let mut kept = nowhere(alloc, code.instrs.len())?;
    fill(alloc, code, entry, kept.as_mut_slice())?;
    Ok(kept)
}
