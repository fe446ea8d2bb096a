// The second pass: indices that lead to no entry, or to an entry of a wrong tag.
ghost use Rattle.std.specs.Prelude.{◌≡◌, map};
ghost use Rattle.std.specs.List.{flat_map};
ghost use Rattle.th_syntax.specs.Flaws.{Ascend};
ghost use Rattle.th_syntax.specs.PoolChecks.{entry_flaws};
ghost use Rattle.th_syntax.specs.PoolChecks as entries;
ghost use Rattle.th_syntax.specs.Checks as checks;
ghost use Rattle.th_syntax.specs.declared.tag.TheConstants as tags;
ghost use Rattle.th_reader.specs.RawView.{index_view, attribute_view, member_view, class_view};
ghost use Rattle.th_reader.specs.Passes.{front_flaw, refused_flaw};

use crate::layout::{Index, RawAttribute, RawClass, RawMember};
use th_pool::Pool;
use th_syntax::{Flaw, cause, tag};

// Whether an index leads to an entry of this tag.
fn has_tag(pool: &Pool, index: u16, tag: u8) -> bool
    ensures { result ≡ entries.has_tag pool.now index tag }
{
    match pool.tag(index) {
        Some(found) => found == tag,
        None => false,
    }
}

fn check_index(pool: &Pool, tag: u8, index: Index) -> Result<(), Flaw>
    ensures { refused_flaw result ≡ front_flaw (checks.index_flaws pool.now tag (index_view index)) }
{
    if has_tag(pool, index.value, tag) {
        return Ok(());
    }
    Err(Flaw {
        number: cause::POOL,
        offset: index.at,
    })
}

// The superclass, which may be left out by index 0.
fn check_super(class: &RawClass) -> Result<(), Flaw>
    ensures { refused_flaw result ≡ front_flaw (checks.super_index_flaws (class_view class.now)) }
{
    let index = class.super_class;
    if index.value == 0 {
        return Ok(());
    }
    check_index(&class.pool, tag::CLASS, index)
}

// The entries of the pool.
fn check_entries(pool: &Pool) -> Result<(), Flaw>
    requires { Ascend (entry_flaws pool.now) }
    ensures { refused_flaw result ≡ front_flaw (entry_flaws pool.now) }
{
    pool.check()
}

// Indices of classes.
fn check_classes(pool: &Pool, classes: &[Index]) -> Result<(), Flaw>
    ensures { refused_flaw result ≡ front_flaw (flat_map (checks.index_flaws pool.now tags.CLASS) (map index_view classes.now)) }
{
    for index in classes {
        check_index(pool, tag::CLASS, *index)?;
    }
    Ok(())
}

// The names of attributes.
fn check_attributes(pool: &Pool, attributes: &[RawAttribute]) -> Result<(), Flaw>
    ensures { refused_flaw result ≡ front_flaw (flat_map (checks.attribute_index_flaws pool.now) (map attribute_view attributes.now)) }
{
    for attribute in attributes {
        check_index(pool, tag::UTF8, attribute.name)?;
    }
    Ok(())
}

// The name and the descriptor of a field or a method, and the names of its attributes.
fn check_member(pool: &Pool, member: &RawMember) -> Result<(), Flaw>
    ensures { refused_flaw result ≡ front_flaw (checks.member_index_flaws pool.now (member_view member.now)) }
{
    check_index(pool, tag::UTF8, member.name)?;
    check_index(pool, tag::UTF8, member.descriptor)?;
    check_attributes(pool, member.attributes.as_slice())
}

fn check_members(pool: &Pool, members: &[RawMember]) -> Result<(), Flaw>
    ensures { refused_flaw result ≡ front_flaw (flat_map (checks.member_index_flaws pool.now) (map member_view members.now)) }
{
    for member in members {
        check_member(pool, member)?;
    }
    Ok(())
}

// The first flaw of the second pass.
pub(crate) fn check_indices(class: &RawClass) -> Result<(), Flaw>
    requires { Ascend (checks.second_pass (class_view class.now)) }
    ensures { refused_flaw result ≡ front_flaw (checks.second_pass (class_view class.now)) }
{
    let pool = &class.pool;
    check_entries(pool)?;
    check_index(pool, tag::CLASS, class.this_class)?;
    check_super(class)?;
    check_classes(pool, class.interfaces.as_slice())?;
    check_members(pool, class.fields.as_slice())?;
    check_members(pool, class.methods.as_slice())?;
    check_attributes(pool, class.attributes.as_slice())
}
