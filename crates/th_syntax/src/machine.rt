// The states of the machine that runs a program (Java specification 2.3 to 2.6).
use std::alloc::{AllocError, Global};
use th_base::{ClassId, FieldId, MethodId, Same, Seq, Stack, Text, TryCopy};

/// The most values that a state holds after a step or event that adds to them.
pub const MOST_VALUES_HELD: u32 = 16_777_216;

/// A value (Java specification 2.3, 2.4).
#[derive(Clone, Copy, Debug, PartialEq, Eq)]
pub enum Value {
    Int(i32),
    Long(i64),
    Null,
    /// The object at this place of the heap.
    Address(u32),
}

/// A place of a frame's locals or of its operand stack (Java specification 2.6.1, 2.6.2).
#[derive(Clone, Copy, Debug, PartialEq, Eq)]
pub enum Slot {
    Holds(Value),
    /// The second half of the long in the place before it.
    SecondHalf,
}

/// An object (Java specification 2.4).
#[derive(Debug, Drop)]
pub enum Object {
    /// Of a class, with the value of each of its instance fields, those of the root class first.
    Instance {
        class: ClassId,
        fields: Seq<(FieldId, Value)>,
    },
    /// An array of the type of a descriptor.
    Array {
        descriptor: Text,
        elements: Seq<Value>,
    },
}

/// How far the initialisation of a class is (Java specification 5.5).
#[derive(Clone, Copy, Debug, PartialEq, Eq)]
pub enum Mark {
    Untouched,
    InProgress,
    Done,
}

/// What an initialisation does next (Java specification 5.5).
#[derive(Clone, Copy, Debug, PartialEq, Eq)]
pub enum InitStage {
    OpenSuperclass,
    CallInitialiser,
    EndInit,
}

/// What a launch does next.
#[derive(Clone, Copy, Debug, PartialEq, Eq)]
pub enum LaunchStage {
    OpenClass,
    /// It makes the object and calls its constructor.
    MakeObject,
    /// It ends with the object at this address.
    EndLaunch(u32),
}

/// A frame (Java specification 2.6).
#[derive(Debug, Drop)]
pub enum Frame {
    /// Of a method's code, which stands at the instruction at an offset. The code frame directly
    /// under another code frame waits at its call, whose arguments have left its stack.
    Code {
        method: MethodId,
        offset: u32,
        locals: Seq<Slot>,
        stack: Stack<Slot>,
    },
    /// Of the initialisation of a class.
    Init {
        class: ClassId,
        stage: InitStage,
    },
    /// Of a launch of a class.
    Launch {
        class: ClassId,
        stage: LaunchStage,
    },
}

/// An object that the harness launched.
#[derive(Clone, Copy, Debug, PartialEq, Eq)]
pub struct Launched {
    /// Its address.
    pub object: u32,
    /// Its stage in the lifecycle, from 0 to 7.
    pub stage: u8,
}

/// A state of the machine (Java specification 2.5).
#[derive(Debug, Drop)]
pub struct State {
    /// The objects by address.
    pub heap: Seq<Object>,
    /// A value for each field of the program by number, of which those of static fields count.
    pub statics: Seq<Value>,
    /// A mark for each class.
    pub marks: Seq<Mark>,
    pub frames: Stack<Frame>,
    /// The launched objects, in order.
    pub launched: Seq<Launched>,
    /// Whether the run has ended.
    pub ended: bool,
}

impl TryCopy for Value {
    fn try_copy(&self, _alloc: Global) -> Result<Value, AllocError> {
        Ok(*self)
    }
}

impl Same for Value {
    fn same(&self, other: &Value) -> bool {
        *self == *other
    }
}

impl TryCopy for Slot {
    fn try_copy(&self, _alloc: Global) -> Result<Slot, AllocError> {
        Ok(*self)
    }
}

impl Same for Slot {
    fn same(&self, other: &Slot) -> bool {
        *self == *other
    }
}

impl TryCopy for Object {
    fn try_copy(&self, alloc: Global) -> Result<Object, AllocError> {
        Ok(match self {
            Object::Instance { class, fields } => Object::Instance {
                class: *class,
                fields: fields.copy(alloc)?,
            },
            Object::Array {
                descriptor,
                elements,
            } => Object::Array {
                descriptor: descriptor.copy(alloc)?,
                elements: elements.copy(alloc)?,
            },
        })
    }
}

impl Same for Object {
    fn same(&self, other: &Object) -> bool {
        match (self, other) {
            (
                Object::Instance { class, fields },
                Object::Instance {
                    class: class_too,
                    fields: fields_too,
                },
            ) => *class == *class_too && fields.same(fields_too),
            (
                Object::Array {
                    descriptor,
                    elements,
                },
                Object::Array {
                    descriptor: descriptor_too,
                    elements: elements_too,
                },
            ) => descriptor.same(descriptor_too) && elements.same(elements_too),
            _ => false,
        }
    }
}

impl TryCopy for Mark {
    fn try_copy(&self, _alloc: Global) -> Result<Mark, AllocError> {
        Ok(*self)
    }
}

impl Same for Mark {
    fn same(&self, other: &Mark) -> bool {
        *self == *other
    }
}

impl TryCopy for Frame {
    fn try_copy(&self, alloc: Global) -> Result<Frame, AllocError> {
        Ok(match self {
            Frame::Code {
                method,
                offset,
                locals,
                stack,
            } => Frame::Code {
                method: *method,
                offset: *offset,
                locals: locals.copy(alloc)?,
                stack: stack.try_copy(alloc)?,
            },
            Frame::Init { class, stage } => Frame::Init {
                class: *class,
                stage: *stage,
            },
            Frame::Launch { class, stage } => Frame::Launch {
                class: *class,
                stage: *stage,
            },
        })
    }
}

impl Same for Frame {
    fn same(&self, other: &Frame) -> bool {
        match (self, other) {
            (
                Frame::Code {
                    method,
                    offset,
                    locals,
                    stack,
                },
                Frame::Code {
                    method: method_too,
                    offset: offset_too,
                    locals: locals_too,
                    stack: stack_too,
                },
            ) => {
                *method == *method_too
                    && *offset == *offset_too
                    && locals.same(locals_too)
                    && stack.same(stack_too)
            }
            (
                Frame::Init { class, stage },
                Frame::Init {
                    class: class_too,
                    stage: stage_too,
                },
            ) => *class == *class_too && *stage == *stage_too,
            (
                Frame::Launch { class, stage },
                Frame::Launch {
                    class: class_too,
                    stage: stage_too,
                },
            ) => *class == *class_too && *stage == *stage_too,
            _ => false,
        }
    }
}

impl TryCopy for Launched {
    fn try_copy(&self, _alloc: Global) -> Result<Launched, AllocError> {
        Ok(*self)
    }
}

impl Same for Launched {
    fn same(&self, other: &Launched) -> bool {
        *self == *other
    }
}

impl TryCopy for State {
    fn try_copy(&self, alloc: Global) -> Result<State, AllocError> {
        Ok(State {
            heap: self.heap.copy(alloc)?,
            statics: self.statics.copy(alloc)?,
            marks: self.marks.copy(alloc)?,
            frames: self.frames.try_copy(alloc)?,
            launched: self.launched.copy(alloc)?,
            ended: self.ended,
        })
    }
}

impl Same for State {
    fn same(&self, other: &State) -> bool {
        self.heap.same(&other.heap)
            && self.statics.same(&other.statics)
            && self.marks.same(&other.marks)
            && self.frames.same(&other.frames)
            && self.launched.same(&other.launched)
            && self.ended == other.ended
    }
}
