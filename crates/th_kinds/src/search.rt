// A walk through the code for the first conflict.
ghost use Rattle.std.specs.Prelude.{◌≡◌, length, IfOk};
ghost use Rattle.th_syntax.specs.declared.class_file.Member.{Member};
ghost use Rattle.th_syntax.specs.KindRows as rows;
ghost use Rattle.th_kinds.specs.States.{seen_state};
ghost use Rattle.th_kinds.specs.Kept.{seen_kept};
ghost use Rattle.th_kinds.specs.Listings.{IsReady};
ghost use Rattle.th_kinds.specs.Places.{IsFirstPlace};
ghost use Rattle.th_kinds.specs.Walk as walk;

use crate::conflict::is_conflict;
use crate::listing::{Listing, instr_at, row_at};
use crate::state::{State, copied_state};
use crate::walk::{fallen_out, state_before};
use std::alloc::{AllocError, Global};
use th_syntax::{Code, SlotKind};

// The place of the first instruction whose kinds are a conflict, in a method that gives these slots.
pub(crate) fn first_conflict(
    alloc: Global,
    code: &Code,
    gives: &[SlotKind],
    listing: &Listing,
    entry: &State,
    kept: &[Option<State>],
) -> Result<Option<usize>, AllocError>
    requires ready { IsReady listing.now }
    requires length { length kept.now ≡ length listing.now.instrs.now }
    ensures { IfOk result (λ found. (m : Member) → rows.result_slots m.descriptor ≡ gives.now → IsFirstPlace m code.now listing.now.instrs.now (walk.state_at (seen_state entry.now) listing.now.instrs.now (seen_kept kept.now)) found) }
{
    let mut fallen = copied_state(alloc, entry)?;
    for place in 0..listing.instrs.len() {
        let instr = instr_at(listing.instrs, place);
        let row = row_at(listing, place);
        let state = state_before(alloc, kept, place, fallen)?;
        if is_conflict(code, gives, instr, row, &state) {
            return Ok(Some(place));
        }
        fallen = fallen_out(alloc, instr, row, state)?;
    }
    Ok(None)
}
