// The constant pool of a class: each entry that it needs, once.
ghost use Rattle.std.specs.Prelude.{◌≡◌, ◌<◌, ◌≤◌, ◌^◌, ◌∷◌, [], true, false, Some, length, slice_get, IfOk, IfErr, OnOk};
ghost use Rattle.std.specs.List.{list_all, flat_map};
ghost use Rattle.th_gen.specs.Items as spec;
ghost use Rattle.th_gen.specs.ClassText.{fits_item, fits_pool};
ghost use Rattle.th_gen.specs.Refusals.{IfRefused};

use crate::draft::{ClassWriter, DraftField, DraftMethod};
use crate::item::PoolItem;
use indexmap::IndexSet;
use std::alloc::{AllocError, Global};
use th_base::{Fail, Text, TryCopy};
use th_syntax::{Instr, MemberRef};

/// A count, a name's length, a branch's offset or a method's code has no room in its field.
#[derive(Clone, Copy, Debug, PartialEq, Eq)]
pub struct TooLarge;

/// The entries of a pool that has room for them, with the index of each.
#[derive(Drop)]
pub(crate) struct Pool {
    pub(crate) items: IndexSet<PoolItem>,
    pub(crate) indices: Vec<u16>,
    pub(crate) count: u16,
    ghost indexed: { indices.items ≡ spec.indices_from 1 items.keys },
    ghost counted: { count ≡ spec.pool_count items.keys },
    ghost fits: { fits_pool items.keys ≡ true },
}

// Adds an entry, unless it stands there.
fn add(items: &mut IndexSet<PoolItem>, item: PoolItem) -> Result<(), AllocError>
    ensures { OnOk result (items.new.keys ≡ spec.with_item items.old.keys item) }
{
    items.insert(item)?;
    Ok(())
}

fn add_text(alloc: Global, items: &mut IndexSet<PoolItem>, text: &Text) -> Result<(), AllocError>
    ensures { OnOk result (items.new.keys ≡ spec.with_item items.old.keys (PoolItem.Utf8 text.now)) }
{
    add(items, PoolItem::Utf8(text.copy(alloc)?))
}

fn add_class(alloc: Global, items: &mut IndexSet<PoolItem>, name: &Text) -> Result<(), AllocError>
    ensures { OnOk result (items.new.keys ≡ spec.with_items items.old.keys (spec.class_items name.now)) }
{
    add_text(alloc, items, name)?;
    add(items, PoolItem::ClassName(name.copy(alloc)?))
}

fn add_string(alloc: Global, items: &mut IndexSet<PoolItem>, text: &Text) -> Result<(), AllocError>
    ensures { OnOk result (items.new.keys ≡ spec.with_items items.old.keys (spec.string_items text.now)) }
{
    add_text(alloc, items, text)?;
    add(items, PoolItem::StringText(text.copy(alloc)?))
}

fn add_header(
    alloc: Global,
    items: &mut IndexSet<PoolItem>,
    name: &Text,
    descriptor: &Text,
) -> Result<(), AllocError>
    ensures { OnOk result (items.new.keys ≡ spec.with_items items.old.keys (spec.header_items name.now descriptor.now)) }
{
    add_text(alloc, items, name)?;
    add_text(alloc, items, descriptor)
}

// Adds what a reference to a member names, and the reference.
fn add_member(
    alloc: Global,
    items: &mut IndexSet<PoolItem>,
    member: &MemberRef,
    item: PoolItem,
) -> Result<(), AllocError>
    ensures { OnOk result (items.new.keys ≡ spec.with_items items.old.keys (spec.member_items (λ m. item) member.now)) }
{
    add_class(alloc, items, &member.owner)?;
    add_header(alloc, items, &member.name, &member.descriptor)?;
    add(
        items,
        PoolItem::NameAndType {
            name: member.name.copy(alloc)?,
            descriptor: member.descriptor.copy(alloc)?,
        },
    )?;
    add(items, item)?;
    Ok(())
}

// Adds the entries of an instruction.
fn add_instr(alloc: Global, items: &mut IndexSet<PoolItem>, instr: &Instr) -> Result<(), AllocError>
    ensures { OnOk result (items.new.keys ≡ spec.with_items items.old.keys (spec.instr_items instr.now)) }
{
    match instr {
        Instr::Int(value) => {
            if -32768 <= *value && *value <= 32767 {
                Ok(())
            } else {
                add(items, PoolItem::Integer(*value))
            }
        }
        Instr::Long(value) => {
            if 0 <= *value && *value <= 1 {
                Ok(())
            } else {
                add(items, PoolItem::LongInteger(*value))
            }
        }
        Instr::Str(text) => add_string(alloc, items, text),
        Instr::GetStatic(field)
        | Instr::PutStatic(field)
        | Instr::GetField(field)
        | Instr::PutField(field) => {
            add_member(
                alloc,
                items,
                field,
                PoolItem::FieldRef(field.try_copy(alloc)?),
            )
        }
        Instr::InvokeVirtual(method) | Instr::InvokeSpecial(method) | Instr::InvokeStatic(method) =>
            {
                add_member(
                    alloc,
                    items,
                    method,
                    PoolItem::MethodRef(method.try_copy(alloc)?),
                )
            }
        Instr::InvokeInterface(method) => {
            let item = PoolItem::InterfaceMethodRef(method.try_copy(alloc)?);
            add_member(alloc, items, method, item)
        }
        Instr::New(name)
        | Instr::ANewArray(name)
        | Instr::CheckCast(name)
        | Instr::InstanceOf(name) => add_class(alloc, items, name),
        _ => Ok(()),
    }
}

fn add_instrs(
    alloc: Global,
    items: &mut IndexSet<PoolItem>,
    instrs: &[Instr],
) -> Result<(), AllocError>
    ensures { OnOk result (items.new.keys ≡ spec.with_items items.old.keys (flat_map spec.instr_items instrs.now)) }
{
    for instr in instrs {
        add_instr(alloc, items, instr)?;
    }
    Ok(())
}

fn add_method(
    alloc: Global,
    items: &mut IndexSet<PoolItem>,
    method: &DraftMethod,
) -> Result<(), AllocError>
    ensures { OnOk result (items.new.keys ≡ spec.with_items items.old.keys (spec.method_items method.now)) }
{
    add_header(alloc, items, &method.name, &method.descriptor)?;
    if method.instrs.is_empty() {
        return Ok(());
    }
    add(items, PoolItem::Utf8(Text::from_slice(alloc, b"Code")?))?;
    add_instrs(alloc, items, method.instrs.as_slice())?;
    Ok(())
}

fn add_fields(
    alloc: Global,
    items: &mut IndexSet<PoolItem>,
    fields: &[DraftField],
) -> Result<(), AllocError>
    ensures { OnOk result (items.new.keys ≡ spec.with_items items.old.keys (flat_map spec.field_items fields.now)) }
{
    for field in fields {
        add_header(alloc, items, &field.name, &field.descriptor)?;
    }
    Ok(())
}

fn add_methods(
    alloc: Global,
    items: &mut IndexSet<PoolItem>,
    methods: &[DraftMethod],
) -> Result<(), AllocError>
    ensures { OnOk result (items.new.keys ≡ spec.with_items items.old.keys (flat_map spec.method_items methods.now)) }
{
    for method in methods {
        add_method(alloc, items, method)?;
    }
    Ok(())
}

// The entries that a class needs.
fn items_of(alloc: Global, class: &ClassWriter) -> Result<IndexSet<PoolItem>, AllocError>
    ensures { IfOk result (λ items. items.keys ≡ spec.pool_of class.now) }
{
    let mut items = IndexSet::new(alloc);
    add_class(alloc, &mut items, &class.name)?;
    add_class(alloc, &mut items, &class.super_name)?;
    add_fields(alloc, &mut items, class.fields.as_slice())?;
    add_methods(alloc, &mut items, class.methods.as_slice())?;
    Ok(items)
}

// How many indices an entry takes.
fn width(item: &PoolItem) -> u16
    ensures value { result ≡ spec.width item.now }
    ensures most { result ≤ 2 }
{
    match item {
        PoolItem::LongInteger(_) => 2,
        _ => 1,
    }
}

// Whether a text has room for its length.
fn fits(item: &PoolItem) -> bool
    ensures { result ≡ fits_item item.now }
{
    match item {
        PoolItem::Utf8(text) => text.len() <= 65_535,
        _ => true,
    }
}

// The entry at a place.
pub(crate) fn item_at(items: &IndexSet<PoolItem>, place: usize) -> &PoolItem
    requires { place < length items.now.keys }
    ensures { slice_get items.now.keys place ≡ Some result.now }
{
    match items.get_index(place) {
        Some(item) => item,
        None => unreachable!(),
    }
}

// The indices of entries, and the count of a pool of them; too large exactly where the count or a text
// has no room.
fn indices_of(alloc: Global, items: &IndexSet<PoolItem>) -> Result<(Vec<u16>, u16), Fail<TooLarge>>
    ensures indices { IfOk result (λ found. found.0.items ≡ spec.indices_from 1 items.now.keys) }
    ensures count { IfOk result (λ found. found.1 ≡ spec.pool_count items.now.keys) }
    ensures fits { IfOk result (λ found. fits_pool items.now.keys ≡ true) }
    ensures too_large { IfErr result (λ fail. IfRefused fail (fits_pool items.now.keys ≡ false)) }
{
    let mut indices = Vec::new(alloc);
    let mut count: u16 = 1;
    for place in 0..items.len() {
        let item = item_at(items, place);
        if !fits(item) || count > 65_535 - width(item) {
            return Err(Fail::Refused(TooLarge));
        }
        indices.push(count)?;
        count += width(item);
    }
    Ok((indices, count))
}

impl Pool {
    // The pool of a class; too large exactly where a count or a text has no room.
    pub(crate) fn of(alloc: Global, class: &ClassWriter) -> Result<Pool, Fail<TooLarge>>
        ensures ok { IfOk result (λ pool. pool.items.keys ≡ spec.pool_of class.now) }
        ensures too_large { IfErr result (λ fail. IfRefused fail (fits_pool (spec.pool_of class.now) ≡ false)) }
    {
        let items = items_of(alloc, class)?;
        let (indices, count) = indices_of(alloc, &items)?;
        Ok(Pool {
            items,
            indices,
            count,
        })
    }

    // The index of an entry; 0 where it isn't there.
    pub(crate) fn index(&self, item: &PoolItem) -> u16
        ensures { result ≡ spec.index_of self.now.items.keys item.now }
    {
        match self.items.get_index_of(item) {
            Some(place) => self.indices[place],
            None => 0,
        }
    }
}
