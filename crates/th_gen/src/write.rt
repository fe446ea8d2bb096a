// The bytes of a class, item by item.
ghost use Rattle.std.specs.Prelude.{◌≡◌, ◌<◌, ◌≤◌, ◌*◌, ◌/◌, ◌%◌, ◌+◌, ◌-◌, ◌^◌, ◌++◌, ◌∷◌, [], List, true, length, map, take, OnOk};
ghost use Rattle.std.specs.List.{flat_map, list_all};
ghost use Rattle.std.specs.Int.{w32, w64, cast_unsigned};
ghost use Rattle.th_gen.specs.Items.{index_of};
ghost use Rattle.th_gen.specs.ClassText as spec;
ghost use Rattle.th_syntax.specs.declared.tag.TheConstants as TAGS;

use crate::item::PoolItem;
use crate::pool::{Pool, item_at};
use std::alloc::{AllocError, Global};
use th_base::{Text, TryCopy};
use th_syntax::{MemberRef, tag};

#[tactic(auto, unfolding(crate::specs::ClassText::u2))]
pub(crate) fn put_u2(out: &mut Vec<u8>, number: u16) -> Result<(), AllocError>
    ensures { OnOk result (out.new.items ≡ out.old.items ++ spec.u2 number) }
{
    out.extend_from_slice(&number.to_be_bytes())
}

#[tactic(auto, unfolding(crate::specs::ClassText::u4))]
pub(crate) fn put_u4(out: &mut Vec<u8>, number: u32) -> Result<(), AllocError>
    ensures { OnOk result (out.new.items ≡ out.old.items ++ spec.u4 number) }
{
    out.extend_from_slice(&number.to_be_bytes())
}

// ---- the pool

pub(crate) fn put_text_index(
    alloc: Global,
    out: &mut Vec<u8>,
    pool: &Pool,
    text: &Text,
) -> Result<(), AllocError>
    ensures { OnOk result (out.new.items ≡ out.old.items ++ spec.u2 (index_of pool.now.items.keys (PoolItem.Utf8 text.now))) }
{
    let item = PoolItem::Utf8(text.copy(alloc)?);
    put_u2(out, pool.index(&item))
}

pub(crate) fn put_class_index(
    alloc: Global,
    out: &mut Vec<u8>,
    pool: &Pool,
    name: &Text,
) -> Result<(), AllocError>
    ensures { OnOk result (out.new.items ≡ out.old.items ++ spec.u2 (index_of pool.now.items.keys (PoolItem.ClassName name.now))) }
{
    let item = PoolItem::ClassName(name.copy(alloc)?);
    put_u2(out, pool.index(&item))
}

// A tag, and the index of a text.
fn put_tagged_text(
    alloc: Global,
    out: &mut Vec<u8>,
    pool: &Pool,
    tag: u8,
    text: &Text,
) -> Result<(), AllocError>
    ensures { OnOk result (out.new.items ≡ out.old.items ++ (tag ∷ spec.u2 (index_of pool.now.items.keys (PoolItem.Utf8 text.now)))) }
{
    out.push(tag)?;
    put_text_index(alloc, out, pool, text)
}

// A tag, and the indices of a member's class and of its name and descriptor.
fn put_member(
    alloc: Global,
    out: &mut Vec<u8>,
    pool: &Pool,
    tag: u8,
    member: &MemberRef,
) -> Result<(), AllocError>
    ensures { OnOk result (out.new.items ≡ out.old.items ++ (tag ∷ spec.ref_bytes pool.now.items.keys member.now)) }
{
    out.push(tag)?;
    put_class_index(alloc, out, pool, &member.owner)?;
    let named = PoolItem::NameAndType {
        name: member.name.copy(alloc)?,
        descriptor: member.descriptor.copy(alloc)?,
    };
    put_u2(out, pool.index(&named))
}

fn put_utf8(out: &mut Vec<u8>, text: &Text) -> Result<(), AllocError>
    requires { length text.now ≤ 65535 }
    ensures { OnOk result (out.new.items ≡ out.old.items ++ (TAGS.UTF8 ∷ (spec.u2 (length text.now) ++ text.now))) }
{
    out.push(tag::UTF8)?;
    put_u2(out, text.len() as u16)?;
    out.extend_from_slice(text.as_bytes())
}

fn put_long(out: &mut Vec<u8>, value: i64) -> Result<(), AllocError>
    ensures { OnOk result (out.new.items ≡ out.old.items ++ (TAGS.LONG ∷ (spec.u4 (cast_unsigned w64 value / 2 ^ 32) ++ spec.u4 (cast_unsigned w64 value % 2 ^ 32)))) }
{
    let bits = value.cast_unsigned();
    out.push(tag::LONG)?;
    put_u4(out, (bits / 0x1_0000_0000) as u32)?;
    put_u4(out, (bits % 0x1_0000_0000) as u32)
}

fn put_entry(
    alloc: Global,
    out: &mut Vec<u8>,
    pool: &Pool,
    item: &PoolItem,
) -> Result<(), AllocError>
    requires { spec.fits_item item.now ≡ true }
    ensures { OnOk result (out.new.items ≡ out.old.items ++ spec.entry_bytes pool.now.items.keys item.now) }
{
    match item {
        PoolItem::Utf8(text) => put_utf8(out, text),
        PoolItem::Integer(value) => {
            out.push(tag::INTEGER)?;
            put_u4(out, value.cast_unsigned())
        }
        PoolItem::LongInteger(value) => {
            put_long(out, *value)?;
            Ok(())
        }
        PoolItem::ClassName(name) => put_tagged_text(alloc, out, pool, tag::CLASS, name),
        PoolItem::StringText(text) => put_tagged_text(alloc, out, pool, tag::STRING, text),
        PoolItem::NameAndType { name, descriptor } => {
            put_tagged_text(alloc, out, pool, tag::NAME_AND_TYPE, name)?;
            put_text_index(alloc, out, pool, descriptor)
        }
        PoolItem::FieldRef(field) => put_member(alloc, out, pool, tag::FIELD, field),
        PoolItem::MethodRef(method) => put_member(alloc, out, pool, tag::METHOD, method),
        PoolItem::InterfaceMethodRef(method) => {
            put_member(alloc, out, pool, tag::INTERFACE_METHOD, method)
        }
    }
}

pub(crate) fn put_pool(alloc: Global, out: &mut Vec<u8>, pool: &Pool) -> Result<(), AllocError>
    ensures { OnOk result (out.new.items ≡ out.old.items ++ spec.pool_bytes pool.now.items.keys) }
{
    put_u2(out, pool.count)?;
    for place in 0..pool.items.len() {
        put_entry(alloc, out, pool, item_at(&pool.items, place))?;
    }
    Ok(())
}
