// Moves of groups of slots (Java specification 6.5, pop to swap).
ghost use Rattle.std.specs.Prelude.{◌≡◌, ◌≤◌, length, Some, IfOk};
ghost use Rattle.th_syntax.specs.Slots.{stack_moved};
ghost use Rattle.th_syntax.specs.declared.instr.StackOp.TheVariants as move;
ghost use Rattle.th_machine.specs.Standing.{slots_needed};

use std::alloc::AllocError;
use th_base::Stack;
use th_syntax::{Slot, StackOp};

// How many slots a move needs.
pub(crate) fn slots_needed(op: StackOp) -> usize
    ensures { result ≡ slots_needed op }
{
    match op {
        StackOp::Pop | StackOp::Dup => 1,
        StackOp::Pop2 | StackOp::DupX1 | StackOp::Dup2 | StackOp::Swap => 2,
        StackOp::DupX2 | StackOp::Dup2X1 => 3,
        StackOp::Dup2X2 => 4,
    }
}

// A stack after a move.
pub(crate) fn moved(stack: Stack<Slot>, op: StackOp) -> Result<Stack<Slot>, AllocError>
    requires { slots_needed op ≤ length stack }
    ensures { IfOk result (λ s. stack_moved op stack ≡ Some s) }
{
    match op {
        StackOp::Pop => Ok(popped_one(stack)),
        StackOp::Pop2 => Ok(popped_two(stack)),
        StackOp::Dup => copied_one(stack),
        StackOp::DupX1 => copied_below_one(stack),
        StackOp::DupX2 => copied_below_two(stack),
        StackOp::Dup2 => copied_two(stack),
        StackOp::Dup2X1 => copied_two_below_one(stack),
        StackOp::Dup2X2 => copied_two_below_two(stack),
        StackOp::Swap => swapped(stack),
    }
}

// pop.
fn popped_one(stack: Stack<Slot>) -> Stack<Slot>
    requires { 1 ≤ length stack }
    ensures { stack_moved move.Pop stack ≡ Some result }
{
    let mut moved = stack;
    moved.pop();
    moved
}

// pop2.
fn popped_two(stack: Stack<Slot>) -> Stack<Slot>
    requires { 2 ≤ length stack }
    ensures { stack_moved move.Pop2 stack ≡ Some result }
{
    let mut moved = stack;
    moved.pop();
    moved.pop();
    moved
}

// dup.
fn copied_one(stack: Stack<Slot>) -> Result<Stack<Slot>, AllocError>
    requires { 1 ≤ length stack }
    ensures { IfOk result (λ s. stack_moved move.Dup stack ≡ Some s) }
{
    let mut moved = stack;
    let Some(first) = moved.pop() else {
        unreachable!();
    };
    moved.push(first)?;
    moved.push(first)?;
    Ok(moved)
}

// dup_x1.
fn copied_below_one(stack: Stack<Slot>) -> Result<Stack<Slot>, AllocError>
    requires { 2 ≤ length stack }
    ensures { IfOk result (λ s. stack_moved move.DupX1 stack ≡ Some s) }
{
    let mut moved = stack;
    let Some(first) = moved.pop() else {
        unreachable!();
    };
    let Some(second) = moved.pop() else {
        unreachable!();
    };
    moved.push(first)?;
    moved.push(second)?;
    moved.push(first)?;
    Ok(moved)
}

// dup_x2.
fn copied_below_two(stack: Stack<Slot>) -> Result<Stack<Slot>, AllocError>
    requires { 3 ≤ length stack }
    ensures { IfOk result (λ s. stack_moved move.DupX2 stack ≡ Some s) }
{
    let mut moved = stack;
    let Some(first) = moved.pop() else {
        unreachable!();
    };
    let Some(second) = moved.pop() else {
        unreachable!();
    };
    let Some(third) = moved.pop() else {
        unreachable!();
    };
    moved.push(first)?;
    moved.push(third)?;
    moved.push(second)?;
    moved.push(first)?;
    Ok(moved)
}

// dup2.
fn copied_two(stack: Stack<Slot>) -> Result<Stack<Slot>, AllocError>
    requires { 2 ≤ length stack }
    ensures { IfOk result (λ s. stack_moved move.Dup2 stack ≡ Some s) }
{
    let mut moved = stack;
    let Some(first) = moved.pop() else {
        unreachable!();
    };
    let Some(second) = moved.pop() else {
        unreachable!();
    };
    moved.push(second)?;
    moved.push(first)?;
    moved.push(second)?;
    moved.push(first)?;
    Ok(moved)
}

// dup2_x1.
fn copied_two_below_one(stack: Stack<Slot>) -> Result<Stack<Slot>, AllocError>
    requires { 3 ≤ length stack }
    ensures { IfOk result (λ s. stack_moved move.Dup2X1 stack ≡ Some s) }
{
    let mut moved = stack;
    let Some(first) = moved.pop() else {
        unreachable!();
    };
    let Some(second) = moved.pop() else {
        unreachable!();
    };
    let Some(third) = moved.pop() else {
        unreachable!();
    };
    moved.push(second)?;
    moved.push(first)?;
    moved.push(third)?;
    moved.push(second)?;
    moved.push(first)?;
    Ok(moved)
}

// dup2_x2.
fn copied_two_below_two(stack: Stack<Slot>) -> Result<Stack<Slot>, AllocError>
    requires { 4 ≤ length stack }
    ensures { IfOk result (λ s. stack_moved move.Dup2X2 stack ≡ Some s) }
{
    let mut moved = stack;
    let Some(first) = moved.pop() else {
        unreachable!();
    };
    let Some(second) = moved.pop() else {
        unreachable!();
    };
    let Some(third) = moved.pop() else {
        unreachable!();
    };
    let Some(fourth) = moved.pop() else {
        unreachable!();
    };
    moved.push(second)?;
    moved.push(first)?;
    moved.push(fourth)?;
    moved.push(third)?;
    moved.push(second)?;
    moved.push(first)?;
    Ok(moved)
}

// swap.
fn swapped(stack: Stack<Slot>) -> Result<Stack<Slot>, AllocError>
    requires { 2 ≤ length stack }
    ensures { IfOk result (λ s. stack_moved move.Swap stack ≡ Some s) }
{
    let mut moved = stack;
    let Some(first) = moved.pop() else {
        unreachable!();
    };
    let Some(second) = moved.pop() else {
        unreachable!();
    };
    moved.push(first)?;
    moved.push(second)?;
    Ok(moved)
}
