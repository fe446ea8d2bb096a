// A table of the classes by their names.
ghost use Rattle.std.specs.Prelude.{◌≡◌, ◌<◌, ◌^◌, ℕ, List, IfOk, length};
ghost use Rattle.std.specs.Str.{bytes_eq};
ghost use Rattle.indexmap.specs.IndexMap.{get_by};
ghost use Rattle.th_linker.specs.Named.{first_named};

use indexmap::IndexMap;
use std::alloc::{AllocError, Global};
use th_base::Text;
use th_syntax::ClassFile;

// The number of the first class with each name.
pub(crate) fn names_of<'a>(
    alloc: Global,
    classes: &'a [ClassFile],
) -> Result<IndexMap<&'a Text, u32>, AllocError>
    requires { length classes.now < 2 ^ 32 }
    ensures { IfOk result (λ names. (name : List ℕ) → get_by (λ k. bytes_eq name k.now) names ≡ first_named classes.now name) }
{
    let mut names = IndexMap::new(alloc);
    for (number, class) in classes.iter().enumerate() {
        if names.get(&&class.name).is_none() {
            names.insert(&class.name, number as u32)?;
        }
    }
    Ok(names)
}

// The number of the class of a name.
pub(crate) fn find_number(names: &IndexMap<&Text, u32>, name: &Text) -> Option<u32>
    ensures { result ≡ get_by (λ k. bytes_eq name.now k.now) names.now }
{
    names.get(&name).copied()
}
