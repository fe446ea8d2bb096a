// The state in which every run begins.
ghost use Rattle.std.specs.Prelude.{◌≡◌, ◌++◌, map, replicate, sum_by, IfOk, OnOk};
ghost use Rattle.std.specs.List.{flat_map};
ghost use Rattle.th_syntax.specs.Held.{object_size, values_held};
ghost use Rattle.th_syntax.specs.Initial.{default_value, initial, new_object};
ghost use Rattle.th_syntax.specs.Program.{fields_of};
ghost use Rattle.th_syntax.specs.Strings.{string_constants};
ghost use Rattle.th_syntax.specs.declared.machine.Mark.TheVariants.{Done, Untouched};
ghost use Rattle.th_base.specs.declared.built_in.TheConstants.{STRING_NUMBER};
ghost use Rattle.th_machine.specs.Beginning.{first_statics, values_of_fields};

use crate::held::{object_size, sum};
use crate::objects::{default_value, new_object};
use std::alloc::{AllocError, Global};
use th_base::{BUILT_IN_COUNT, ClassId, STRING_NUMBER, Seq, Stack};
use th_resolved::Resolved;
use th_syntax::{ClassFile, Mark, Member, Object, Program, State, Value};

// So many objects of String constants.
fn string_objects(alloc: Global, program: &Program, count: usize) -> Result<Vec<Object>, AllocError>
    ensures { IfOk result (λ objects. objects.items ≡ replicate count (new_object program.now STRING_NUMBER)) }
{
    let mut objects = Vec::new(alloc);
    for _place in 0..count {
        objects.push(new_object(alloc, program, ClassId(STRING_NUMBER))?)?;
    }
    Ok(objects)
}

// Adds the values that these fields begin with.
fn add_values(into: &mut Vec<Value>, members: &[Member]) -> Result<(), AllocError>
    ensures { OnOk result (into.new.items ≡ into.old.items ++ values_of_fields members.now) }
{
    for member in members {
        into.push(default_value(member.descriptor.as_bytes()))?;
    }
    Ok(())
}

// The values that the fields of these classes begin with.
fn first_statics(alloc: Global, files: &[ClassFile]) -> Result<Vec<Value>, AllocError>
    ensures { IfOk result (λ values. values.items ≡ first_statics files.now) }
{
    let mut values = Vec::new(alloc);
    for file in files {
        add_values(&mut values, file.fields.as_slice())?;
    }
    Ok(values)
}

// Adds so many marks.
fn add_marks(into: &mut Vec<Mark>, mark: Mark, count: usize) -> Result<(), AllocError>
    ensures { OnOk result (into.new.items ≡ into.old.items ++ replicate count mark) }
{
    for _place in 0..count {
        into.push(mark)?;
    }
    Ok(())
}

// The initial state of a program.
pub(crate) fn initial(alloc: Global, resolved: &Resolved<'_>) -> Result<State, AllocError>
    ensures { IfOk result (λ s. s ≡ initial resolved.now) }
{
    let program = resolved.program();
    let heap = string_objects(alloc, program, resolved.strings().texts().len())?;
    let statics = first_statics(alloc, program.files())?;
    let mut marks = Vec::new(alloc);
    add_marks(&mut marks, Mark::Done, BUILT_IN_COUNT as usize)?;
    add_marks(&mut marks, Mark::Untouched, program.files().len())?;
    Ok(State {
        heap: Seq::from_vec(heap),
        statics: Seq::from_vec(statics),
        marks: Seq::from_vec(marks),
        frames: Stack::new(alloc),
        launched: Seq::new(alloc),
        ended: false,
    })
}

// What these objects count.
pub(crate) fn heap_held(heap: &[Object]) -> Result<u64, AllocError>
    ensures { IfOk result (λ n. n ≡ sum_by object_size heap.now) }
{
    let mut held = 0;
    for object in heap {
        held = sum(held, object_size(object)?)?;
    }
    Ok(held)
}
