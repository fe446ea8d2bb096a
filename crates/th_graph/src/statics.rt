// The static fields of the classes of files.
ghost use Rattle.std.specs.Prelude.{◌≡◌, ◌++◌, IfOk, OnOk};
ghost use Rattle.th_graph.specs.Tables.{declared_statics, own_statics, file_statics_from};

use std::alloc::{AllocError, Global};
use th_base::{BUILT_IN_COUNT, ClassInfo, FieldId, FieldInfo};

// The static fields that the classes of files declare, in order.
pub(crate) fn file_statics(alloc: Global, classes: &[ClassInfo]) -> Result<Vec<FieldId>, AllocError>
    ensures { IfOk result (λ fields. fields.items ≡ file_statics_from 0 classes.now) }
{
    let mut found = Vec::new(alloc);
    for (number, class) in classes.iter().enumerate() {
        add_own(&mut found, number, class)?;
    }
    Ok(found)
}

// Adds the static fields of a class, if it is of a file.
fn add_own(found: &mut Vec<FieldId>, number: usize, class: &ClassInfo) -> Result<(), AllocError>
    ensures { OnOk result (found.new.items ≡ found.old.items ++ own_statics number class.now) }
{
    if number >= BUILT_IN_COUNT as usize {
        return add_declared(found, class.fields.as_slice());
    }
    Ok(())
}

// Adds the static fields among these.
fn add_declared(found: &mut Vec<FieldId>, fields: &[FieldInfo]) -> Result<(), AllocError>
    ensures { OnOk result (found.new.items ≡ found.old.items ++ declared_statics fields.now) }
{
    for field in fields {
        if field.is_static {
            found.push(field.id)?;
        }
    }
    Ok(())
}
