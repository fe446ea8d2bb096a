// A walk through the code, from what falls into an instruction to what falls out of it.
ghost use Rattle.std.specs.Prelude.{◌≡◌, ◌<◌, ◌≤◌, ℕ, Some, true, false, length, IfOk, OnOk};
ghost use Rattle.th_syntax.specs.Kinds.{KindsAt};
ghost use Rattle.th_syntax.specs.KindTable.{IsHeld};
ghost use Rattle.th_syntax.specs.KindRows as rows;
ghost use Rattle.th_kinds.specs.Rows.{seen_row};
ghost use Rattle.th_kinds.specs.States.{seen_state};
ghost use Rattle.th_kinds.specs.Kept.{seen_kept, kept_room, kept_places, work_left, with_merged, IsUnder, IsUnderAt, IsHeldAt, IsStable, IsStill};
ghost use Rattle.th_kinds.specs.Listings.{IsReady};
ghost use Rattle.th_kinds.specs.Walk as walk;

use crate::behind::behind;
use crate::kept::{merge_at, spread};
use crate::listing::{Listing, instr_at, row_at};
use crate::queue::Queue;
use crate::row::Row;
use crate::state::{State, copied_state};
use std::alloc::{AllocError, Global};
use th_syntax::Instr;

// Whether control goes on behind an instruction.
pub(crate) fn falls(instr: &Instr) -> bool
    ensures { result ≡ walk.falls instr.now }
{
    !matches!(
        instr,
        Instr::Goto(_)
            | Instr::TableSwitch { .. }
            | Instr::LookupSwitch { .. }
            | Instr::IReturn
            | Instr::LReturn
            | Instr::AReturn
            | Instr::Return
            | Instr::Throw
    )
}

// The offsets to which an instruction jumps.
pub(crate) fn jumps(alloc: Global, instr: &Instr) -> Result<Vec<u32>, AllocError>
    ensures { IfOk result (λ targets. targets.items ≡ walk.jumps instr.now) }
{
    match instr {
        Instr::IfZero(_, target) | Instr::IfInts(_, target) => {
            Ok(Vec::from_slice(alloc, &[*target])?)
        }
        Instr::IfSame(target)
        | Instr::IfOther(target)
        | Instr::IfNull(target)
        | Instr::IfNotNull(target)
        | Instr::Goto(target) => Ok(Vec::from_slice(alloc, &[*target])?),
        Instr::TableSwitch {
            low: _,
            targets,
            other,
        } => {
            let mut all = Vec::from_slice(alloc, targets.as_slice())?;
            all.push(*other)?;
            Ok(all)
        }
        Instr::LookupSwitch { pairs, other } => {
            let mut all = Vec::new(alloc);
            for pair in pairs.as_slice() {
                all.push(pair.1)?;
            }
            all.push(*other)?;
            Ok(all)
        }
        _ => Ok(Vec::new(alloc)),
    }
}

// What is known before an instruction: what is kept there, or else what falls in.
pub(crate) fn state_before(
    alloc: Global,
    kept: &[Option<State>],
    place: usize,
    fallen: State,
) -> Result<State, AllocError>
    requires { place < length kept.now }
    ensures { IfOk result (λ state. seen_state state ≡ walk.here (seen_state fallen) (walk.kept_at (seen_kept kept.now) place)) }
{
    match &kept[place] {
        Some(known) => Ok(copied_state(alloc, known)?),
        None => Ok(fallen),
    }
}

// What falls out of an instruction.
pub(crate) fn fallen_out(
    alloc: Global,
    instr: &Instr,
    row: &Row,
    state: State,
) -> Result<State, AllocError>
    requires { seen_row row.now ≡ rows.row_of instr.now }
    ensures { IfOk result (λ fallen. seen_state fallen ≡ walk.fallen_behind instr.now (seen_state state)) }
{
    if falls(instr) {
        return Ok(behind(alloc, row, state)?);
    }
    Ok(State::NoKinds)
}

// What is known before or behind an instruction, and whether a state that is kept has changed.
#[derive(Debug, Drop)]
pub(crate) struct Arrived {
    pub(crate) state: State,
    pub(crate) changed: bool,
}

// Merges what falls into an instruction into the state that is kept there, and gives what is known
// before it.
fn arrive(
    alloc: Global,
    kept: &mut [Option<State>],
    place: usize,
    fallen: State,
) -> Result<Arrived, AllocError>
    requires { place < length kept.old }
    ensures length { length kept.new ≡ length kept.old }
    ensures merged { OnOk result (seen_kept kept.new ≡ with_merged (seen_kept kept.old) place (seen_state fallen)) }
    ensures state { IfOk result (λ arrived. seen_state arrived.state ≡ walk.here (seen_state fallen) (walk.kept_at (seen_kept kept.new) place)) }
    ensures places { OnOk result (kept_places kept.new ≡ kept_places kept.old) }
    ensures same { IfOk result (λ arrived. arrived.changed ≡ false → seen_kept kept.new ≡ seen_kept kept.old) }
    ensures less { IfOk result (λ arrived. arrived.changed ≡ true → kept_room kept.new < kept_room kept.old) }
    ensures most { OnOk result (kept_room kept.new ≤ kept_room kept.old) }
{
    let changed = merge_at(alloc, kept, place, &fallen)?;
    let state = state_before(alloc, kept, place, fallen)?;
    Ok(Arrived { state, changed })
}

// Goes through an instruction: what falls in is merged where a state is kept, and what is known behind
// is merged where the instruction jumps. Gives what falls out.
pub(crate) fn visit(
    alloc: Global,
    code: &Listing,
    kept: &mut [Option<State>],
    queue: &mut Queue,
    place: usize,
    fallen: State,
) -> Result<Arrived, AllocError>
    requires ready { IsReady code.now }
    requires length { length kept.old ≡ length code.now.instrs.now }
    requires inside { place < length code.now.instrs.now }
    ensures length { length kept.new ≡ length kept.old }
    ensures under { OnOk result ((u : ℕ → KindsAt) → IsUnder (seen_kept kept.old) u → IsHeld (seen_state fallen) (u place) → IsUnderAt u code.now.offsets.items (walk.jumps (walk.line code.now.instrs.now place).1) (rows.after (rows.row_of (walk.line code.now.instrs.now place).1) (u place)) → IsUnder (seen_kept kept.new) u) }
    ensures out { IfOk result (λ gone. (u : ℕ → KindsAt) → IsUnder (seen_kept kept.old) u → IsHeld (seen_state fallen) (u place) → IsHeld (seen_state gone.state) (walk.fallen_behind (walk.line code.now.instrs.now place).1 (u place))) }
    ensures places { OnOk result (kept_places kept.new ≡ kept_places kept.old) }
    ensures same { IfOk result (λ gone. gone.changed ≡ false → seen_kept kept.new ≡ seen_kept kept.old) }
    ensures state { IfOk result (λ gone. gone.changed ≡ false → seen_state gone.state ≡ walk.fallen_behind (walk.line code.now.instrs.now place).1 (walk.here (seen_state fallen) (walk.kept_at (seen_kept kept.old) place))) }
    ensures falling { IfOk result (λ gone. gone.changed ≡ false → (known : KindsAt) → walk.kept_at (seen_kept kept.old) place ≡ Some known → IsHeld (seen_state fallen) known) }
    ensures jumping { IfOk result (λ gone. gone.changed ≡ false → IsHeldAt (seen_kept kept.old) code.now.offsets.items (walk.jumps (walk.line code.now.instrs.now place).1) (rows.after (rows.row_of (walk.line code.now.instrs.now place).1) (walk.here (seen_state fallen) (walk.kept_at (seen_kept kept.old) place)))) }
    ensures less { IfOk result (λ gone. gone.changed ≡ true → kept_room kept.new < kept_room kept.old) }
    ensures most { OnOk result (kept_room kept.new ≤ kept_room kept.old) }
    ensures work { OnOk result (work_left kept.new queue.new ≤ work_left kept.old queue.old) }
{
    let arrived = arrive(alloc, kept, place, fallen)?;
    let state = behind(alloc, row_at(code, place), arrived.state)?;
    let instr = instr_at(code.instrs, place);
    let targets = jumps(alloc, instr)?;
    let changed = spread(
        alloc,
        kept,
        queue,
        code.offsets.as_slice(),
        targets.as_slice(),
        &state,
    )?;
    let gone = if falls(instr) { state } else { State::NoKinds };
    Ok(Arrived {
        state: gone,
        changed: arrived.changed || changed,
    })
}

// Goes through the code once. The answer tells whether a state that is kept has changed.
pub(crate) fn round(
    alloc: Global,
    code: &Listing,
    entry: &State,
    kept: &mut [Option<State>],
    queue: &mut Queue,
) -> Result<bool, AllocError>
    requires ready { IsReady code.now }
    requires length { length kept.old ≡ length code.now.instrs.now }
    ensures length { length kept.new ≡ length kept.old }
    ensures under { OnOk result ((u : ℕ → KindsAt) → IsStable (seen_state entry.now) code.now.instrs.now code.now.offsets.items u → IsUnder (seen_kept kept.old) u → IsUnder (seen_kept kept.new) u) }
    ensures places { OnOk result (kept_places kept.new ≡ kept_places kept.old) }
    ensures same { IfOk result (λ changed. changed ≡ false → seen_kept kept.new ≡ seen_kept kept.old) }
    ensures still { IfOk result (λ changed. changed ≡ false → (k : ℕ) → k < length code.now.instrs.now → IsStill (seen_state entry.now) code.now.instrs.now code.now.offsets.items (seen_kept kept.old) k) }
    ensures less { IfOk result (λ changed. changed ≡ true → kept_room kept.new < kept_room kept.old) }
    ensures most { OnOk result (kept_room kept.new ≤ kept_room kept.old) }
{
    let mut changed = false;
    let mut fallen = copied_state(alloc, entry)?;
    for place in 0..code.instrs.len() {
        let gone = visit(alloc, code, kept, queue, place, fallen)?;
        fallen = gone.state;
        if gone.changed {
            changed = true;
        }
    }
    Ok(changed)
}
