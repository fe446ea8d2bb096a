// A table of the classes by their names.
ghost use Rattle.std.specs.Prelude.{◌<◌, ◌^◌, IfOk, length};
ghost use Rattle.th_base.specs.Lookup.{FindsFirst};

use crate::ClassInfo;
use std::alloc::{AllocError, Global};
use std::collections::BTreeMap;

// The number of the first class with each name.
pub(crate) fn names_of(
    alloc: Global,
    classes: &[ClassInfo],
) -> Result<BTreeMap<Vec<u8>, u32>, AllocError>
    requires { length classes.now < 2 ^ 32 }
    ensures { IfOk result (FindsFirst classes.now) }
{
    let mut names = BTreeMap::new(alloc);
    for (number, class) in classes.iter().enumerate() {
        let name = class.name.as_bytes();
        if !names.contains_key(name) {
            names.insert(Vec::from_slice(alloc, name)?, number as u32)?;
        }
    }
    Ok(names)
}
