// What is known before an instruction, and how what paths bring is merged into it.
ghost use Rattle.std.specs.Prelude.{◌≡◌, ◌+◌, ◌<◌, ◌≤◌, true, false, length, reverse, slice_set, slice_index_or, IfOk, OnOk};
ghost use Rattle.th_syntax.specs.Kinds.{OfKinds, merged, merged_at, merged_slots};
ghost use Rattle.th_kinds.specs.States.{seen_state, slots_room, state_room};

use std::alloc::{AllocError, Global};
use th_base::Same;
use th_syntax::SlotKind;

// The kinds of the locals and of the operand stack, the top last.
#[derive(Debug, Drop)]
pub(crate) struct Frame {
    pub(crate) locals: Vec<SlotKind>,
    pub(crate) stack: Vec<SlotKind>,
}

// What is known before an instruction.
#[derive(Debug, Drop)]
pub(crate) enum State {
    // No path brings anything.
    NoKinds,
    OfKinds(Frame),
    // Paths bring operand stacks of different depths, or one that has lacked operands.
    DepthsDiffer,
}

// A copy.
pub(crate) fn copied(alloc: Global, frame: &Frame) -> Result<Frame, AllocError>
    ensures locals { IfOk result (λ copy. copy.locals.items ≡ frame.now.locals.items) }
    ensures stack { IfOk result (λ copy. copy.stack.items ≡ frame.now.stack.items) }
{
    Ok(Frame {
        locals: Vec::from_slice(alloc, frame.locals.as_slice())?,
        stack: Vec::from_slice(alloc, frame.stack.as_slice())?,
    })
}

// A copy of what is known.
pub(crate) fn copied_state(alloc: Global, state: &State) -> Result<State, AllocError>
    ensures { IfOk result (λ copy. seen_state copy ≡ seen_state state.now) }
{
    match state {
        State::NoKinds => Ok(State::NoKinds),
        State::OfKinds(frame) => Ok(State::OfKinds(copied(alloc, frame)?)),
        State::DepthsDiffer => Ok(State::DepthsDiffer),
    }
}

// The kind of a slot that is known and brought.
fn merged_kind(known: SlotKind, brought: SlotKind) -> SlotKind
    ensures { result ≡ merged brought known }
{
    if known == brought {
        known
    } else {
        SlotKind::Unusable
    }
}

// Merges a slot with one that is brought. The answer tells whether it has changed.
fn merge_slot(known: &mut [SlotKind], at: usize, brought: SlotKind) -> bool
    requires { at < length known.old }
    ensures merged { known.new ≡ slice_set known.old at (merged brought (slice_index_or known.old at brought)) }
    ensures same { result ≡ false → known.new ≡ known.old }
    ensures less { result ≡ true → slots_room known.new < slots_room known.old }
{
    let kind = merged_kind(known[at], brought);
    if kind.same(&known[at]) {
        return false;
    }
    known[at] = kind;
    true
}

// Merges slots with those that are brought. The answer tells whether one has changed.
fn merge_slots(known: &mut [SlotKind], brought: &[SlotKind]) -> bool
    requires { length known.old ≤ length brought.now }
    ensures merged { known.new ≡ merged_slots brought.now known.old }
    ensures same { result ≡ false → known.new ≡ known.old }
    ensures less { result ≡ true → slots_room known.new < slots_room known.old }
    ensures most { slots_room known.new ≤ slots_room known.old }
{
    let mut changed = false;
    for at in 0..known.len() {
        if merge_slot(known, at, brought[at]) {
            changed = true;
        }
    }
    changed
}

// Merges a list of slots with those that are brought.
fn merge_list(known: &mut Vec<SlotKind>, brought: &[SlotKind]) -> bool
    requires { length known.old.items ≤ length brought.now }
    ensures merged { known.new.items ≡ merged_slots brought.now known.old.items }
    ensures same { result ≡ false → known.new.items ≡ known.old.items }
    ensures less { result ≡ true → slots_room known.new.items < slots_room known.old.items }
    ensures most { slots_room known.new.items ≤ slots_room known.old.items }
{
    merge_slots(known.as_mut_slice(), brought)
}

// Merges a list of slots with those that are brought, as many as both have.
#[tactic(auto, using(crate::proofs::Fronts::cut_merged, crate::proofs::Fronts::room_cut))]
fn merge_lists(known: &mut Vec<SlotKind>, brought: &[SlotKind]) -> bool
    ensures merged { known.new.items ≡ merged_slots brought.now known.old.items }
    ensures same { result ≡ false → known.new.items ≡ known.old.items }
    ensures less { result ≡ true → slots_room known.new.items < slots_room known.old.items }
    ensures most { slots_room known.new.items ≤ slots_room known.old.items }
{
    if known.len() > brought.len() {
        known.truncate(brought.len());
        let _changed = merge_list(known, brought);
        return true;
    }
    merge_list(known, brought)
}

// Merges the kinds of a frame into those of another whose stack is as deep.
fn merge_frames(known: &mut Frame, brought: &Frame) -> bool
    requires { length known.old.stack.items ≡ length brought.now.stack.items }
    ensures locals { known.new.locals.items ≡ merged_slots brought.now.locals.items known.old.locals.items }
    ensures stack { known.new.stack.items ≡ merged_slots brought.now.stack.items known.old.stack.items }
    ensures same_locals { result ≡ false → known.new.locals.items ≡ known.old.locals.items }
    ensures same_stack { result ≡ false → known.new.stack.items ≡ known.old.stack.items }
    ensures less { result ≡ true → slots_room known.new.locals.items + slots_room known.new.stack.items < slots_room known.old.locals.items + slots_room known.old.stack.items }
{
    let locals = merge_lists(&mut known.locals, brought.locals.as_slice());
    let stack = merge_lists(&mut known.stack, brought.stack.as_slice());
    locals || stack
}

// No kinds are known any more. The answer tells whether any were before, or nothing was.
fn differ(known: &mut State) -> bool
    ensures differ { known.new ≡ State.DepthsDiffer }
    ensures same { result ≡ false → known.new ≡ known.old }
    ensures less { result ≡ true → state_room known.new < state_room known.old }
{
    match known {
        State::DepthsDiffer => false,
        _ => {
            *known = State::DepthsDiffer;
            true
        }
    }
}

// Merges the kinds of a frame into what is known.
fn merge_frame(alloc: Global, known: &mut State, frame: &Frame) -> Result<bool, AllocError>
    ensures merged { OnOk result (seen_state known.new ≡ merged_at (OfKinds frame.now.locals.items (reverse frame.now.stack.items)) (seen_state known.old)) }
    ensures same { IfOk result (λ changed. changed ≡ false → seen_state known.new ≡ seen_state known.old) }
    ensures less { IfOk result (λ changed. changed ≡ true → state_room known.new < state_room known.old) }
    ensures most { OnOk result (state_room known.new ≤ state_room known.old) }
{
    match known {
        State::NoKinds => {
            *known = State::OfKinds(copied(alloc, frame)?);
            Ok(true)
        }
        State::DepthsDiffer => Ok(false),
        State::OfKinds(own) => {
            if own.stack.len() == frame.stack.len() {
                return Ok(merge_frames(own, frame));
            }
            *known = State::DepthsDiffer;
            Ok(true)
        }
    }
}

// Merges what a path brings into what is known. The answer tells whether that has changed.
pub(crate) fn merge(alloc: Global, known: &mut State, brought: &State) -> Result<bool, AllocError>
    ensures merged { OnOk result (seen_state known.new ≡ merged_at (seen_state brought.now) (seen_state known.old)) }
    ensures same { IfOk result (λ changed. changed ≡ false → seen_state known.new ≡ seen_state known.old) }
    ensures less { IfOk result (λ changed. changed ≡ true → state_room known.new < state_room known.old) }
    ensures most { OnOk result (state_room known.new ≤ state_room known.old) }
{
    match brought {
        State::NoKinds => Ok(false),
        State::DepthsDiffer => Ok(differ(known)),
        State::OfKinds(frame) => merge_frame(alloc, known, frame),
    }
}
