// Fields and classes as they are printed.
ghost use Rattle.std.specs.Prelude.{◌≡◌, ◌++◌, OnOk};
ghost use Rattle.th_syntax.specs.Program.{hierarchy_of};
ghost use Rattle.th_coarse.specs.Report.{class_text, declared_text, field_text, pair_text};

use std::alloc::AllocError;
use th_base::{ClassId, ClassInfo, FieldId, FieldInfo, Hierarchy};
use th_syntax::Program;

/// Writes a field and a class behind what is there, as `Class.name:descriptor -> Class`. Names are bytes,
/// as they stand in the files; nothing is written in the place of a number that the program hasn't.
pub fn write_pair(
    out: &mut Vec<u8>,
    program: &Program,
    field: FieldId,
    class: ClassId,
) -> Result<(), AllocError>
    ensures { OnOk result (out.new.items ≡ out.old.items ++ pair_text program.now (field.0, class.0)) }
{
    write_field(out, program.hierarchy(), field)?;
    out.extend_from_slice(b" -> ")?;
    write_class(out, program.hierarchy().classes(), class)
}

// Writes the field of a number.
fn write_field(out: &mut Vec<u8>, hierarchy: &Hierarchy, field: FieldId) -> Result<(), AllocError>
    ensures { OnOk result (out.new.items ≡ out.old.items ++ field_text hierarchy.now field.0) }
{
    match hierarchy.field(field) {
        Some((class, field)) => write_declared(out, hierarchy.classes(), class, field),
        None => Ok(()),
    }
}

// Writes a field by the class that declares it.
fn write_declared(
    out: &mut Vec<u8>,
    classes: &[ClassInfo],
    class: ClassId,
    field: &FieldInfo,
) -> Result<(), AllocError>
    ensures { OnOk result (out.new.items ≡ out.old.items ++ declared_text classes.now (class.0, field.now)) }
{
    write_class(out, classes, class)?;
    out.extend_from_slice(b".")?;
    out.extend_from_slice(field.name.as_bytes())?;
    out.extend_from_slice(b":")?;
    out.extend_from_slice(field.descriptor.as_bytes())?;
    Ok(())
}

// Writes the name of the class of a number.
fn write_class(out: &mut Vec<u8>, classes: &[ClassInfo], class: ClassId) -> Result<(), AllocError>
    ensures { OnOk result (out.new.items ≡ out.old.items ++ class_text classes.now class.0) }
{
    match classes.get(class.0 as usize) {
        Some(class) => {
            out.extend_from_slice(class.name.as_bytes())?;
            Ok(())
        }
        None => Ok(()),
    }
}
