// The work list: control is followed from where something has changed until nothing changes any more.
ghost use Rattle.std.specs.Prelude.{◌≡◌, ◌<◌, ◌≤◌, ℕ, length, OnOk};
ghost use Rattle.th_syntax.specs.Kinds.{KindsAt};
ghost use Rattle.th_syntax.specs.KindTable.{IsHeld};
ghost use Rattle.th_kinds.specs.States.{seen_state};
ghost use Rattle.th_kinds.specs.Kept.{seen_kept, kept_room, kept_places, work_left, IsUnder, IsStable, IsStill};
ghost use Rattle.th_kinds.specs.Listings.{IsReady};

use crate::kept::bring;
use crate::listing::Listing;
use crate::queue::Queue;
use crate::state::{State, copied_state};
use crate::walk::{round, visit};
use std::alloc::{AllocError, Global};

// Follows control from a place on, to the next one at which a state is kept.
fn follow(
    alloc: Global,
    code: &Listing,
    kept: &mut [Option<State>],
    queue: &mut Queue,
    start: usize,
    entry: State,
) -> Result<(), AllocError>
    requires ready { IsReady code.now }
    requires length { length kept.old ≡ length code.now.instrs.now }
    ensures length { length kept.new ≡ length kept.old }
    ensures under { OnOk result ((first : KindsAt) (u : ℕ → KindsAt) → IsStable first code.now.instrs.now code.now.offsets.items u → IsHeld (seen_state entry) (u start) → IsUnder (seen_kept kept.old) u → IsUnder (seen_kept kept.new) u) }
    ensures places { OnOk result (kept_places kept.new ≡ kept_places kept.old) }
    ensures most { OnOk result (kept_room kept.new ≤ kept_room kept.old) }
    ensures work { OnOk result (work_left kept.new queue.new ≤ work_left kept.old queue.old) }
{
    let mut place = start;
    let mut fallen = entry;
    while place < code.instrs.len() {
        let gone = visit(alloc, code, kept, queue, place, fallen)?;
        fallen = gone.state;
        place += 1;
        if place < code.instrs.len() && kept[place].is_some() {
            let _changed = bring(alloc, kept, queue, place, &fallen)?;
            return Ok(());
        }
        if matches!(fallen, State::NoKinds) {
            return Ok(());
        }
    }
    Ok(())
}

// Follows control from each place that waits, until none does.
fn work_off(
    alloc: Global,
    code: &Listing,
    kept: &mut [Option<State>],
    queue: &mut Queue,
) -> Result<(), AllocError>
    requires ready { IsReady code.now }
    requires length { length kept.old ≡ length code.now.instrs.now }
    ensures length { length kept.new ≡ length kept.old }
    ensures under { OnOk result ((first : KindsAt) (u : ℕ → KindsAt) → IsStable first code.now.instrs.now code.now.offsets.items u → IsUnder (seen_kept kept.old) u → IsUnder (seen_kept kept.new) u) }
    ensures places { OnOk result (kept_places kept.new ≡ kept_places kept.old) }
    ensures most { OnOk result (kept_room kept.new ≤ kept_room kept.old) }
{
    while let Some(place) = queue.pop() {
        follow(alloc, code, kept, queue, place, State::NoKinds)?;
    }
    Ok(())
}

// Follows control from the entry until no state that is kept changes any more. A last round through the
// code finds nothing new, which shows that this is so.
pub(crate) fn settle(
    alloc: Global,
    code: &Listing,
    entry: &State,
    kept: &mut [Option<State>],
) -> Result<(), AllocError>
    requires ready { IsReady code.now }
    requires length { length kept.old ≡ length code.now.instrs.now }
    ensures length { length kept.new ≡ length kept.old }
    ensures under { OnOk result ((u : ℕ → KindsAt) → IsStable (seen_state entry.now) code.now.instrs.now code.now.offsets.items u → IsUnder (seen_kept kept.old) u → IsUnder (seen_kept kept.new) u) }
    ensures places { OnOk result (kept_places kept.new ≡ kept_places kept.old) }
    ensures still { OnOk result ((k : ℕ) → k < length code.now.instrs.now → IsStill (seen_state entry.now) code.now.instrs.now code.now.offsets.items (seen_kept kept.new) k) }
{
    let mut queue = Queue::new(alloc, kept.len())?;
    follow(
        alloc,
        code,
        kept,
        &mut queue,
        0,
        copied_state(alloc, entry)?,
    )?;
    loop {
        work_off(alloc, code, kept, &mut queue)?;
        let changed = round(alloc, code, entry, kept, &mut queue)?;
        if !changed {
            return Ok(());
        }
    }
}
