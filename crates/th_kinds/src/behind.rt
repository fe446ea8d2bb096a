// What an instruction makes of the kinds before it.
ghost use Rattle.std.specs.Prelude.{◌≡◌, ◌+◌, ◌-◌, ◌<◌, ◌≤◌, ◌++◌, length, map, take, drop, reverse, slice_set, slice_index_or, IfOk, OnOk};
ghost use Rattle.th_syntax.specs.KindRows as rows;
ghost use Rattle.th_syntax.specs.declared.kind.SlotKind.TheVariants as kind;
ghost use Rattle.th_kinds.specs.Rows.{seen_row};
ghost use Rattle.th_kinds.specs.States.{seen_state};

use crate::row::{Row, slots_of};
use crate::state::{Frame, State};
use std::alloc::{AllocError, Global};
use th_syntax::{SlotKind, StackOp};

// ---- locals

// A first half whose second half is stored over.
fn without_second(kind: SlotKind) -> SlotKind
    ensures { result ≡ rows.without_second kind }
{
    match kind {
        SlotKind::Long => SlotKind::Unusable,
        SlotKind::Int | SlotKind::Ref | SlotKind::SecondHalf | SlotKind::Unusable => kind,
    }
}

// A second half whose first half is stored over.
fn without_first(kind: SlotKind) -> SlotKind
    ensures { result ≡ rows.without_first kind }
{
    match kind {
        SlotKind::SecondHalf => SlotKind::Unusable,
        SlotKind::Int | SlotKind::Ref | SlotKind::Long | SlotKind::Unusable => kind,
    }
}

// Puts a kind into a local, where there is one.
fn put(locals: &mut [SlotKind], local: usize, kind: SlotKind)
    ensures { locals.new ≡ slice_set locals.old local kind }
{
    if local < locals.len() {
        locals[local] = kind;
    }
}

// Makes a long in a local unusable.
fn put_without_second(locals: &mut [SlotKind], local: usize)
    ensures { locals.new ≡ rows.changed rows.without_second local locals.old }
{
    if local < locals.len() {
        locals[local] = without_second(locals[local]);
    }
}

// Makes a second half in a local unusable.
fn put_without_first(locals: &mut [SlotKind], local: usize)
    ensures { locals.new ≡ rows.changed rows.without_first local locals.old }
{
    if local < locals.len() {
        locals[local] = without_first(locals[local]);
    }
}

// Writes the slots of a value from a local on.
fn write(locals: &mut [SlotKind], value: SlotKind, local: u16)
    ensures { locals.new ≡ rows.written (rows.slots_of value) local locals.old }
{
    let local = local as usize;
    match value {
        SlotKind::Long => {
            put(locals, local, SlotKind::Long);
            put(locals, local + 1, SlotKind::SecondHalf);
        }
        SlotKind::Int | SlotKind::Ref | SlotKind::SecondHalf | SlotKind::Unusable => {
            put(locals, local, value);
        }
    }
}

// Stores a value into a local.
fn store(locals: &mut [SlotKind], value: SlotKind, local: u16)
    ensures { locals.new ≡ rows.stored value local locals.old }
{
    put_without_first(locals, local as usize + slots_of(value).len());
    put_without_second(locals, (local as usize).saturating_sub(1));
    write(locals, value, local);
}

// ---- operand stacks

// How many slots a move takes.
fn slots_moved(op: StackOp) -> usize
    ensures { result ≡ rows.slots_taken (rows.move_row op) }
{
    match op {
        StackOp::Pop | StackOp::Dup => 1,
        StackOp::Pop2 | StackOp::DupX1 | StackOp::Dup2 | StackOp::Swap => 2,
        StackOp::DupX2 | StackOp::Dup2X1 => 3,
        StackOp::Dup2X2 => 4,
    }
}

// How many slots an instruction takes from the stack.
pub(crate) fn slots_taken(row: &Row) -> usize
    ensures { result ≡ rows.slots_taken (seen_row row.now) }
{
    match row {
        Row::Works { takes, gives: _ } => takes.len(),
        Row::Stores { value, local: _ } => slots_of(*value).len(),
        Row::Moves { op } => slots_moved(*op),
        Row::Loads { value: _, local: _ } | Row::Increments { local: _ } => 0,
    }
}

// The slot at a place, counted from the top.
pub(crate) fn top(stack: &[SlotKind], place: usize) -> SlotKind
    requires { place < length stack.now }
    ensures { result ≡ slice_index_or (reverse stack.now) place kind.Unusable }
{
    stack[stack.len() - 1 - place]
}

// The slots that a move gives, the last on top.
fn moved_slots(alloc: Global, op: StackOp, stack: &[SlotKind]) -> Result<Vec<SlotKind>, AllocError>
    requires { rows.slots_taken (rows.move_row op) ≤ length stack.now }
    ensures { IfOk result (λ slots. reverse slots.items ≡ rows.slots_given (rows.move_row op) (reverse stack.now)) }
{
    match op {
        StackOp::Pop | StackOp::Pop2 => Ok(Vec::new(alloc)),
        StackOp::Dup => Vec::from_slice(alloc, &[top(stack, 0), top(stack, 0)]),
        StackOp::DupX1 => Vec::from_slice(alloc, &[top(stack, 0), top(stack, 1), top(stack, 0)]),
        StackOp::DupX2 => Vec::from_slice(
            alloc,
            &[top(stack, 0), top(stack, 2), top(stack, 1), top(stack, 0)],
        ),
        StackOp::Dup2 => Vec::from_slice(
            alloc,
            &[top(stack, 1), top(stack, 0), top(stack, 1), top(stack, 0)],
        ),
        StackOp::Dup2X1 => Vec::from_slice(
            alloc,
            &[
                top(stack, 1),
                top(stack, 0),
                top(stack, 2),
                top(stack, 1),
                top(stack, 0),
            ],
        ),
        StackOp::Dup2X2 => Vec::from_slice(
            alloc,
            &[
                top(stack, 1),
                top(stack, 0),
                top(stack, 3),
                top(stack, 2),
                top(stack, 1),
                top(stack, 0),
            ],
        ),
        StackOp::Swap => Vec::from_slice(alloc, &[top(stack, 0), top(stack, 1)]),
    }
}

// Takes so many slots from a stack and puts these onto it.
#[tactic(auto, using(crate::proofs::Stacks::top_replaced))]
fn replace_top(
    stack: &mut Vec<SlotKind>,
    taken: usize,
    gives: &[SlotKind],
) -> Result<(), AllocError>
    requires { taken ≤ length stack.old.items }
    ensures { OnOk result (reverse stack.new.items ≡ reverse gives.now ++ drop taken (reverse stack.old.items)) }
{
    stack.truncate(stack.len() - taken);
    stack.extend_from_slice(gives)
}

// The kinds behind an instruction that lacks no operand.
fn frame_behind(alloc: Global, row: &Row, mut frame: Frame) -> Result<Frame, AllocError>
    requires { rows.slots_taken (seen_row row.now) ≤ length frame.stack.items }
    ensures locals { IfOk result (λ behind. behind.locals.items ≡ rows.locals_after (seen_row row.now) frame.locals.items) }
    ensures stack { IfOk result (λ behind. reverse behind.stack.items ≡ rows.stack_after (seen_row row.now) (reverse frame.stack.items)) }
{
    match row {
        Row::Works { takes, gives } => {
            replace_top(&mut frame.stack, takes.len(), gives.as_slice())?;
            Ok(frame)
        }
        Row::Loads { value, local: _ } => {
            replace_top(&mut frame.stack, 0, slots_of(*value))?;
            Ok(frame)
        }
        Row::Stores { value, local } => {
            replace_top(&mut frame.stack, slots_of(*value).len(), &[])?;
            store(frame.locals.as_mut_slice(), *value, *local);
            Ok(frame)
        }
        Row::Increments { local } => {
            store(frame.locals.as_mut_slice(), SlotKind::Int, *local);
            Ok(frame)
        }
        Row::Moves { op } => {
            let gives = moved_slots(alloc, *op, frame.stack.as_slice())?;
            replace_top(&mut frame.stack, slots_moved(*op), gives.as_slice())?;
            Ok(frame)
        }
    }
}

// What is known behind an instruction.
pub(crate) fn behind(alloc: Global, row: &Row, state: State) -> Result<State, AllocError>
    ensures { IfOk result (λ known. seen_state known ≡ rows.after (seen_row row.now) (seen_state state)) }
{
    match state {
        State::NoKinds => Ok(State::NoKinds),
        State::DepthsDiffer => Ok(State::DepthsDiffer),
        State::OfKinds(frame) => {
            if slots_taken(row) > frame.stack.len() {
                return Ok(State::DepthsDiffer);
            }
            Ok(State::OfKinds(frame_behind(alloc, row, frame)?))
        }
    }
}
