// What an instruction does, found out before anything is changed.
use th_base::{ClassId, FieldId, MethodId, Text};
use th_resolved::FrameSize;
use th_syntax::{StackOp, Value};

/// What an instruction does to a state with a code frame on top. `taken` slots go from its operand
/// stack.
#[derive(Clone, Copy)]
pub enum Act<'a> {
    /// It ends the run.
    Ends,
    /// A value goes onto the stack, and the frame goes on.
    Gives {
        taken: usize,
        value: Value,
    },
    /// The frame goes on.
    Drops {
        taken: usize,
    },
    /// A value goes into a local, and the frame goes on.
    Stores {
        local: u16,
        taken: usize,
        value: Value,
    },
    /// Groups of slots of the stack are moved, and the frame goes on.
    Moves(StackOp),
    /// The frame goes on at another offset.
    Jumps {
        target: u32,
        taken: usize,
    },
    /// The frame goes, and its result goes onto the stack of the frame below.
    Returns(Option<Value>),
    /// A static field gets a value, and the frame goes on.
    SetsStatic {
        field: FieldId,
        taken: usize,
        value: Value,
    },
    /// A field of the object that a reference leads to gets a value, and the frame goes on.
    SetsField {
        object: Value,
        field: FieldId,
        taken: usize,
        value: Value,
    },
    /// An element of the array that a reference leads to gets a value, and the frame goes on.
    SetsElement {
        array: Value,
        index: u32,
        taken: usize,
        value: Value,
    },
    /// A new object of a class, whose address goes onto the stack.
    MakesObject(ClassId),
    /// A new array, whose address goes onto the stack.
    MakesArray {
        descriptor: &'a Text,
        fill: Value,
        length: u32,
        taken: usize,
    },
    /// A class is opened, and the instruction runs again later.
    Opens(ClassId),
    /// A method with code begins, whose arguments are so many slots on top of the stack.
    Calls {
        method: MethodId,
        slots: usize,
        size: FrameSize,
    },
}
