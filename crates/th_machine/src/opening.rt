// Opening a class (Java specification 5.5).
ghost use Rattle.std.specs.Prelude.{◌≡◌, length, slice_get, IfOk};
ghost use Rattle.std.specs.Option.{option_copied};
ghost use Rattle.th_syntax.specs.Effects.{Opens, opened, opened_statics, opened_where};
ghost use Rattle.th_syntax.specs.Initial.{constant_value};
ghost use Rattle.th_syntax.specs.Program.{fields_of};
ghost use Rattle.th_wrap.specs.TwosComplement.{wrapped_value};
ghost use Rattle.th_machine.specs.Opening.{field_set, fields_set, first_field};
ghost use Rattle.th_machine.specs.Standing.{state_after};

use crate::slots::with_item;
use crate::standing::{Running, World, with_frame};
use std::alloc::AllocError;
use th_base::{BUILT_IN_COUNT, ClassId, Seq};
use th_resolved::Resolved;
use th_syntax::{
    ACC_STATIC, ClassFile, Constant, Frame, InitStage, Mark, Member, Program, State, Value,
    has_flag,
};
use th_wrap::{add64, low32, widen64};

// A long, which is its own lowest 64 bits.
fn wrapped_long(n: i64) -> i64
    ensures { result ≡ wrapped_value 64 n }
{
    add64(n, 0)
}

// An int, which is its own lowest 32 bits.
fn wrapped_int(n: i32) -> i32
    ensures { result ≡ wrapped_value 32 n }
{
    low32(widen64(n))
}

// The value of a ConstantValue attribute (Java specification 4.7.2).
fn constant_value(resolved: &Resolved<'_>, constant: &Constant) -> Value
    ensures { result ≡ constant_value resolved.now constant.now }
{
    match constant {
        Constant::Int(n) => Value::Int(wrapped_int(*n)),
        Constant::Long(n) => Value::Long(wrapped_long(*n)),
        Constant::Str(text) => match resolved.strings().number_of(text) {
            Some(address) => Value::Address(address),
            None => Value::Null,
        },
    }
}

// The static fields, where a field's constant is set.
fn with_field_set(
    resolved: &Resolved<'_>,
    at: usize,
    member: &Member,
    statics: Seq<Value>,
) -> Seq<Value>
    ensures { result ≡ field_set resolved.now at member.now statics }
{
    if !has_flag(member.access, ACC_STATIC) {
        return statics;
    }
    match &member.constant {
        Some(constant) => with_item(statics, at, constant_value(resolved, constant)),
        None => statics,
    }
}

// The static fields, where the constants of these fields are set, the first of which has this number.
fn with_fields_set(
    resolved: &Resolved<'_>,
    first: u32,
    members: &[Member],
    statics: Seq<Value>,
) -> Seq<Value>
    ensures { result ≡ fields_set resolved.now first members.now statics }
{
    let mut changed = statics;
    let mut at = first as usize;
    for member in members {
        changed = with_field_set(resolved, at, member, changed);
        at += 1;
    }
    changed
}

// The static fields after a class is opened: each of its fields with a ConstantValue has it.
fn opened_statics(resolved: &Resolved<'_>, class: ClassId, statics: Seq<Value>) -> Seq<Value>
    requires { length statics ≡ length (fields_of resolved.now) }
    ensures { result ≡ opened_statics resolved.now class.0 (fields_of resolved.now) statics }
{
    let program = resolved.program();
    if class.0 < BUILT_IN_COUNT {
        return statics;
    }
    match file_at(program.files(), (class.0 - BUILT_IN_COUNT) as usize) {
        Some(file) => match first_field(program, class) {
            Some(first) => with_fields_set(resolved, first, file.fields.as_slice(), statics),
            None => statics,
        },
        None => statics,
    }
}

// The class file at a place.
fn file_at(files: &[ClassFile], at: usize) -> Option<&ClassFile>
    ensures { option_copied result ≡ slice_get files.now at }
{
    files.get(at)
}

// The number of the first field that a class declares, if it declares any.
fn first_field(program: &Program, class: ClassId) -> Option<u32>
    ensures { result ≡ first_field program.now class.0 }
{
    match program.hierarchy().classes().get(class.0 as usize) {
        Some(info) => match info.fields.get(0) {
            Some(field) => Some(field.id.0),
            None => None,
        },
        None => None,
    }
}

// A class is opened in a state.
pub(crate) fn opened(
    resolved: &Resolved<'_>,
    state: State,
    class: ClassId,
) -> Result<State, AllocError>
    requires { length state.statics ≡ length (fields_of resolved.now) }
    ensures { IfOk result (λ s. s ≡ opened resolved.now state class.0) }
{
    let mut state = state;
    state.frames.push(Frame::Init {
        class,
        stage: InitStage::OpenSuperclass,
    })?;
    Ok(State {
        statics: opened_statics(resolved, class, state.statics),
        marks: with_item(state.marks, class.0 as usize, Mark::InProgress),
        ..state
    })
}

// A class is opened where it is untouched.
pub(crate) fn opened_where(
    resolved: &Resolved<'_>,
    state: State,
    class: ClassId,
) -> Result<State, AllocError>
    requires { length state.statics ≡ length (fields_of resolved.now) }
    ensures { IfOk result (λ s. s ≡ opened_where resolved.now state (slice_get state.marks class.0) class.0) }
{
    match state.marks.get(class.0 as usize) {
        Some(Mark::Untouched) => opened(resolved, state, class),
        Some(Mark::InProgress) => Ok(state),
        Some(Mark::Done) => Ok(state),
        None => Ok(state),
    }
}

// The frame stays, and the initialisation of a class stands on top.
pub(crate) fn opens(
    resolved: &Resolved<'_>,
    world: World,
    frame: Running,
    class: ClassId,
) -> Result<State, AllocError>
    requires { length world.statics ≡ length (fields_of resolved.now) }
    ensures { IfOk result (λ s. s ≡ state_after resolved.now world frame (Opens class.0)) }
{
    let frame = Frame::Code {
        method: frame.method,
        offset: frame.offset,
        locals: frame.locals,
        stack: frame.stack,
    };
    opened(resolved, with_frame(world, frame)?, class)
}
