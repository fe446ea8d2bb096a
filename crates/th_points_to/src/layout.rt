// How many sets of each kind a program needs, and its tables.
ghost use Rattle.std.specs.Prelude.{◌≡◌, ◌+◌, IfOk};
ghost use Rattle.th_ir.specs.Fields.{field_count};

use crate::place::Layout;
use std::alloc::AllocError;
use th_base::ClassInfo;

// How many fields classes declare.
fn field_count(classes: &[ClassInfo]) -> Result<usize, AllocError>
    ensures { IfOk result (λ count. count ≡ field_count classes.now) }
{
    let mut count = 0usize;
    for class in classes {
        count = add(count, class.fields.len())?;
    }
    Ok(count)
}

// The sum; no memory holds so many sets that there is none.
fn add(left: usize, right: usize) -> Result<usize, AllocError>
    ensures { IfOk result (λ sum. sum ≡ left + right) }
{
    match left.checked_add(right) {
        Some(sum) => Ok(sum),
        None => Err(AllocError),
    }
}

// The layout of a program with so many registers and sites.
pub(crate) fn layout_of(
    registers: usize,
    classes: &[ClassInfo],
    sites: usize,
) -> Result<Layout, AllocError>
    ensures registers { IfOk result (λ layout. layout.registers ≡ registers) }
    ensures fields { IfOk result (λ layout. layout.fields ≡ field_count classes.now) }
    ensures sites { IfOk result (λ layout. layout.sites ≡ sites) }
    ensures first { IfOk result (λ layout. layout.first_cell ≡ layout.registers + layout.fields + layout.sites) }
{
    let fields = field_count(classes)?;
    let first_elements = add(registers, fields)?;
    let first_cell = add(first_elements, sites)?;
    Ok(Layout {
        registers,
        fields,
        sites,
        first_cell,
    })
}
