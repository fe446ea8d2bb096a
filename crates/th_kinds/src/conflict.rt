// Where the kinds before an instruction are a conflict.
ghost use Rattle.std.specs.Prelude.{◌≡◌, ◌+◌, ◌≤◌, ◌∷◌, [], false, List, not, length, take, reverse};
ghost use Rattle.std.specs.Option.{option_map_or};
ghost use Rattle.th_syntax.specs.declared.class_file.Member.{Member};
ghost use Rattle.th_syntax.specs.declared.kind.SlotKind.{SlotKind};
ghost use Rattle.th_syntax.specs.Kinds as kinds;
ghost use Rattle.th_syntax.specs.KindRows as rows;
ghost use Rattle.th_syntax.specs.KindTable as table;
ghost use Rattle.th_kinds.specs.Rows.{seen_row};
ghost use Rattle.th_kinds.specs.States.{seen_state};

use crate::behind::{slots_taken, top};
use crate::row::{INT, LONG, NONE, REF, Row, slots_of};
use crate::state::{Frame, State};
use th_syntax::{Code, Instr, SlotKind, StackOp};

// Whether two kinds are the same.
fn is_same(left: SlotKind, right: SlotKind) -> bool
    ensures { result ≡ kinds.is_same_kind left right }
{
    left == right
}

// Whether slots are the same.
fn are_same(left: &[SlotKind], right: &[SlotKind]) -> bool
    ensures { result ≡ kinds.are_same_kinds left.now right.now }
{
    if left.len() != right.len() {
        return false;
    }
    for at in 0..left.len() {
        if !is_same(left[at], right[at]) {
            return false;
        }
    }
    true
}

// The slots on top of a stack.
fn top_slots(stack: &[SlotKind], size: usize) -> &[SlotKind]
    requires { size ≤ length stack.now }
    ensures { reverse result.now ≡ take size (reverse stack.now) }
{
    let (_, above) = stack.split_at(stack.len() - size);
    above
}

// Whether the slots on top aren't these.
fn are_other_operands(slots: &[SlotKind], stack: &[SlotKind]) -> bool
    requires { length slots.now ≤ length stack.now }
    ensures { result ≡ rows.are_other_operands slots.now (reverse stack.now) }
{
    !are_same(top_slots(stack, slots.len()), slots)
}

// Whether a local isn't of this kind.
fn is_other_local(value: SlotKind, local: u16, locals: &[SlotKind]) -> bool
    ensures { result ≡ rows.is_other_local value local locals.now }
{
    match locals.get(local as usize) {
        Some(kind) => value != *kind,
        None => true,
    }
}

// Whether a slot that is moved alone is unusable or half of a long.
fn is_torn(slot: SlotKind) -> bool
    ensures { result ≡ rows.is_torn (slot ∷ []) }
{
    !matches!(slot, SlotKind::Int | SlotKind::Ref)
}

// Whether two slots that are moved together have an unusable one, or half of a long.
fn are_torn(upper: SlotKind, lower: SlotKind) -> bool
    ensures { result ≡ rows.is_torn (upper ∷ lower ∷ []) }
{
    matches!(upper, SlotKind::Unusable | SlotKind::Long)
        || matches!(lower, SlotKind::Unusable | SlotKind::SecondHalf)
}

// Whether a move takes half of a long, or an unusable slot.
fn is_torn_by(op: StackOp, stack: &[SlotKind]) -> bool
    requires { rows.slots_taken (rows.move_row op) ≤ length stack.now }
    ensures { result ≡ rows.are_wrong (rows.move_row op) [] (reverse stack.now) }
{
    match op {
        StackOp::Pop | StackOp::Dup => is_torn(top(stack, 0)),
        StackOp::Pop2 | StackOp::Dup2 => are_torn(top(stack, 0), top(stack, 1)),
        StackOp::DupX1 | StackOp::Swap => is_torn(top(stack, 0)) || is_torn(top(stack, 1)),
        StackOp::DupX2 => is_torn(top(stack, 0)) || are_torn(top(stack, 1), top(stack, 2)),
        StackOp::Dup2X1 => are_torn(top(stack, 0), top(stack, 1)) || is_torn(top(stack, 2)),
        StackOp::Dup2X2 => {
            are_torn(top(stack, 0), top(stack, 1)) || are_torn(top(stack, 2), top(stack, 3))
        }
    }
}

// Whether an operand or a local is of a wrong kind.
fn are_wrong(row: &Row, locals: &[SlotKind], stack: &[SlotKind]) -> bool
    requires { rows.slots_taken (seen_row row.now) ≤ length stack.now }
    ensures { result ≡ rows.are_wrong (seen_row row.now) locals.now (reverse stack.now) }
{
    match row {
        Row::Works { takes, gives: _ } => are_other_operands(takes.as_slice(), stack),
        Row::Loads { value, local } => is_other_local(*value, *local, locals),
        Row::Stores { value, local: _ } => are_other_operands(slots_of(*value), stack),
        Row::Increments { local } => is_other_local(SlotKind::Int, *local, locals),
        Row::Moves { op } => is_torn_by(*op, stack),
    }
}

// How many slots an instruction gives to the stack.
fn slots_given(row: &Row) -> usize
    ensures { (stack : List SlotKind) → result ≡ length (rows.slots_given (seen_row row.now) stack) }
{
    match row {
        Row::Works { takes: _, gives } => gives.len(),
        Row::Loads { value, local: _ } => slots_of(*value).len(),
        Row::Stores { value: _, local: _ } | Row::Increments { local: _ } => 0,
        Row::Moves { op } => match op {
            StackOp::Pop | StackOp::Pop2 => 0,
            StackOp::Dup | StackOp::Swap => 2,
            StackOp::DupX1 => 3,
            StackOp::DupX2 | StackOp::Dup2 => 4,
            StackOp::Dup2X1 => 5,
            StackOp::Dup2X2 => 6,
        },
    }
}

// Whether an operand is missing or wrong, or the stack is then deeper than this.
fn is_misfit(max_stack: u16, row: &Row, frame: &Frame) -> bool
    ensures { result ≡ rows.is_misfit max_stack (seen_row row.now) frame.now.locals.items (reverse frame.now.stack.items) }
{
    let taken = slots_taken(row);
    let depth = frame.stack.len();
    taken > depth
        || are_wrong(row, frame.locals.as_slice(), frame.stack.as_slice())
        || slots_given(row).saturating_add(depth - taken) > max_stack as usize
}

// Whether a return hands over other slots than these.
fn is_other_return(instr: &Instr, gives: &[SlotKind]) -> bool
    ensures { result ≡ option_map_or (λ slots. not (kinds.are_same_kinds slots gives.now)) (table.returned_slots instr.now) false }
{
    match instr {
        Instr::IReturn => !are_same(INT, gives),
        Instr::LReturn => !are_same(LONG, gives),
        Instr::AReturn => !are_same(REF, gives),
        Instr::Return => !are_same(NONE, gives),
        _ => false,
    }
}

// Whether the kinds before an instruction are a conflict, in a method that gives these slots.
pub(crate) fn is_conflict(
    code: &Code,
    gives: &[SlotKind],
    instr: &Instr,
    row: &Row,
    state: &State,
) -> bool
    requires { seen_row row.now ≡ rows.row_of instr.now }
    ensures { (m : Member) → rows.result_slots m.descriptor ≡ gives.now → result ≡ table.is_conflict m code.now instr.now (seen_state state.now) }
{
    match state {
        State::NoKinds => false,
        State::DepthsDiffer => true,
        State::OfKinds(frame) => {
            is_misfit(code.max_stack, row, frame) || is_other_return(instr, gives)
        }
    }
}
