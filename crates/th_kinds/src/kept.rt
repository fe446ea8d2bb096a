// The states that are kept at some instructions, by their places.
ghost use Rattle.std.specs.Prelude.{◌≡◌, ℕ, ◌<◌, ◌≤◌, true, false, length, slice_index, All, Contains, IfOk, OnOk};
ghost use Rattle.th_syntax.specs.Kinds.{KindsAt};
ghost use Rattle.th_kinds.specs.States.{seen_state};
ghost use Rattle.th_kinds.specs.Kept.{seen_kept, kept_room, kept_places, work_left, with_merged, IsUnder, IsUnderAt, IsHeldAt, Ascend};

use crate::queue::Queue;
use crate::state::{State, merge};
use std::alloc::{AllocError, Global};

// The place of an offset among those of the instructions.
pub(crate) fn place_of(offsets: &[u32], offset: u32) -> usize
    requires ascending { Ascend offsets.now }
    requires there { Contains offsets.now offset }
    ensures inside { result < length offsets.now }
    ensures found { slice_index offsets.now result ≡ offset }
{
    match offsets.binary_search(&offset) {
        Ok(place) => place,
        Err(_) => unreachable!(),
    }
}

// Merges what is brought into the state that is kept at a place, if one is.
pub(crate) fn merge_at(
    alloc: Global,
    kept: &mut [Option<State>],
    place: usize,
    brought: &State,
) -> Result<bool, AllocError>
    requires { place < length kept.old }
    ensures merged { OnOk result (seen_kept kept.new ≡ with_merged (seen_kept kept.old) place (seen_state brought.now)) }
    ensures places { OnOk result (kept_places kept.new ≡ kept_places kept.old) }
    ensures same { IfOk result (λ changed. changed ≡ false → seen_kept kept.new ≡ seen_kept kept.old) }
    ensures less { IfOk result (λ changed. changed ≡ true → kept_room kept.new < kept_room kept.old) }
    ensures most { OnOk result (kept_room kept.new ≤ kept_room kept.old) }
{
    match &mut kept[place] {
        Some(known) => Ok(merge(alloc, known, brought)?),
        None => Ok(false),
    }
}

// Merges what is brought into the state that is kept at a place, and queues the place where that has
// changed.
pub(crate) fn bring(
    alloc: Global,
    kept: &mut [Option<State>],
    queue: &mut Queue,
    place: usize,
    brought: &State,
) -> Result<bool, AllocError>
    requires { place < length kept.old }
    ensures merged { OnOk result (seen_kept kept.new ≡ with_merged (seen_kept kept.old) place (seen_state brought.now)) }
    ensures places { OnOk result (kept_places kept.new ≡ kept_places kept.old) }
    ensures same { IfOk result (λ changed. changed ≡ false → seen_kept kept.new ≡ seen_kept kept.old) }
    ensures less { IfOk result (λ changed. changed ≡ true → kept_room kept.new < kept_room kept.old) }
    ensures most { OnOk result (kept_room kept.new ≤ kept_room kept.old) }
    ensures work { OnOk result (work_left kept.new queue.new ≤ work_left kept.old queue.old) }
{
    let changed = merge_at(alloc, kept, place, brought)?;
    if changed {
        queue.push(place)?;
        return Ok(true);
    }
    Ok(false)
}

// Merges what is brought into the states that are kept at the instructions at these offsets, and queues
// those that have changed. The answer tells whether one has.
pub(crate) fn spread(
    alloc: Global,
    kept: &mut [Option<State>],
    queue: &mut Queue,
    offsets: &[u32],
    targets: &[u32],
    brought: &State,
) -> Result<bool, AllocError>
    requires length { length kept.old ≡ length offsets.now }
    requires ascending { Ascend offsets.now }
    requires there { All (λ target. Contains offsets.now target) targets.now }
    ensures length { length kept.new ≡ length kept.old }
    ensures under { OnOk result ((u : ℕ → KindsAt) → IsUnder (seen_kept kept.old) u → IsUnderAt u offsets.now targets.now (seen_state brought.now) → IsUnder (seen_kept kept.new) u) }
    ensures places { OnOk result (kept_places kept.new ≡ kept_places kept.old) }
    ensures same { IfOk result (λ changed. changed ≡ false → seen_kept kept.new ≡ seen_kept kept.old) }
    ensures held { IfOk result (λ changed. changed ≡ false → IsHeldAt (seen_kept kept.old) offsets.now targets.now (seen_state brought.now)) }
    ensures less { IfOk result (λ changed. changed ≡ true → kept_room kept.new < kept_room kept.old) }
    ensures most { OnOk result (kept_room kept.new ≤ kept_room kept.old) }
    ensures work { OnOk result (work_left kept.new queue.new ≤ work_left kept.old queue.old) }
{
    let mut changed = false;
    for target in targets {
        let place = place_of(offsets, *target);
        if bring(alloc, kept, queue, place, brought)? {
            changed = true;
        }
    }
    Ok(changed)
}
