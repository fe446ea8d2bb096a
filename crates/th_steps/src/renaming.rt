// Linear facts are renamed, and items put after others where there are any.
ghost use Rattle.std.specs.Prelude.{◌≡◌, ◌++◌, ◌∷◌, [], map, IfOk, OnOk};
ghost use Rattle.th_linear.specs.Gathered.{renamed_form};
ghost use Rattle.th_query.specs.Unified.{present};

use std::alloc::{AllocError, Global};
use th_linear::Lin;

/// The facts with their variables renamed, each by the name in its place; one past the names keeps its
/// own. A fact in which a magnitude then reaches 2^62 goes.
pub fn rename_facts(alloc: Global, names: &[u32], facts: &[Lin]) -> Result<Vec<Lin>, AllocError>
    ensures { IfOk result (λ renamed. renamed.items ≡ present (map (renamed_form names.now) facts.now)) }
{
    let mut kept = Vec::new(alloc);
    for fact in facts {
        let renamed = fact.renamed(alloc, names)?;
        push_present(&mut kept, renamed)?;
    }
    Ok(kept)
}

// Adds an item, where there is one.
pub(crate) fn push_present<T: Drop>(items: &mut Vec<T>, item: Option<T>) -> Result<(), AllocError>
    ensures { OnOk result (items.new.items ≡ items.old.items ++ present (item ∷ [])) }
{
    match item {
        Some(item) => {
            items.push(item)?;
            Ok(())
        }
        None => Ok(()),
    }
}
