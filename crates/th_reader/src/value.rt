// The value of a class file whose indices and names are without flaw, with the fourth pass.
ghost use Rattle.std.specs.Prelude.{◌≡◌, [], IfOk, map, Some};
ghost use Rattle.std.specs.List.{flat_map};
ghost use Rattle.th_syntax.specs.declared.tag.TheConstants as tags;
ghost use Rattle.th_syntax.specs.Checks as checks;
ghost use Rattle.th_syntax.specs.ClassGrammar as grammar;
ghost use Rattle.th_syntax.specs.PoolChecks.{class_of, entry_flaws};
ghost use Rattle.th_reader.specs.RawView.{class_view, index_view};
ghost use Rattle.th_reader.specs.Passes.{Makes};

use crate::layout::{Index, RawClass};
use crate::members::{read_fields, read_methods};
use std::alloc::{AllocError, Global};
use th_base::{Fail, Seq, Text};
use th_pool::Pool;
use th_syntax::{ClassFile, Flaw};

// The name of a Class entry, which shares the pool's bytes.
fn class_name(alloc: Global, pool: &Pool, index: Index) -> Result<Text, AllocError>
    requires entries { entry_flaws pool.now ≡ [] }
    requires class { checks.index_flaws pool.now tags.CLASS (index_view index) ≡ [] }
    ensures { IfOk result (λ text. class_of pool.now index.value ≡ Some text) }
{
    pool.class_text(index.value).unwrap().text().copy(alloc)
}

// The superclass's name, where there is an index.
fn super_name(alloc: Global, class: &RawClass) -> Result<Option<Text>, AllocError>
    requires entries { entry_flaws class.now.pool ≡ [] }
    requires class { checks.super_index_flaws (class_view class.now) ≡ [] }
    ensures { IfOk result (λ name. grammar.super_value (class_view class.now) ≡ Some name) }
{
    let index = class.super_class;
    if index.value == 0 {
        return Ok(None);
    }
    let name = class_name(alloc, &class.pool, index)?;
    Ok(Some(name))
}

// The names of classes.
fn class_names(alloc: Global, pool: &Pool, classes: &[Index]) -> Result<Seq<Text>, AllocError>
    requires entries { entry_flaws pool.now ≡ [] }
    requires classes { flat_map (checks.index_flaws pool.now tags.CLASS) (map index_view classes.now) ≡ [] }
    ensures { IfOk result (λ names. grammar.all_there (map (λ i. class_of pool.now i.value) (map index_view classes.now)) ≡ Some names) }
{
    let mut names = Seq::new(alloc);
    for index in classes {
        let name = class_name(alloc, pool, *index)?;
        names.push(name)?;
    }
    Ok(names)
}

// The value of the class, or the first flaw of the fourth pass.
pub(crate) fn read_value(alloc: Global, class: &RawClass) -> Result<ClassFile, Fail<Flaw>>
    requires { checks.second_pass (class_view class.now) ≡ [] }
    ensures { Makes (checks.fourth_pass (class_view class.now)) (grammar.class_file_of (class_view class.now)) result }
{
    let pool = &class.pool;
    let fields = read_fields(alloc, pool, class.fields.as_slice())?;
    let methods = read_methods(alloc, class, class.methods.as_slice())?;
    let name = class_name(alloc, pool, class.this_class)?;
    let super_name = super_name(alloc, class)?;
    let interfaces = class_names(alloc, pool, class.interfaces.as_slice())?;
    Ok(ClassFile {
        major: class.major,
        access: class.access.value,
        name,
        super_name,
        interfaces,
        fields,
        methods,
    })
}
