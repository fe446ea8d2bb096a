// What indices of the pool lead to, over the list of what each index leads to.
ghost use Rattle.std.specs.Prelude.{◌≡◌, slice_get};
ghost use Rattle.std.specs.Option.{option_and_then, option_copied, option_flatten, option_map};
ghost use Rattle.th_syntax.specs.ClassBytes as file;
ghost use Rattle.th_syntax.specs.PoolChecks as checks;
ghost use Rattle.th_pool.specs.PoolView.{entry_view, slots_view, member_view, names_view};

use crate::entry::{Entry, PlacedEntry};
use crate::pool_text::PoolText;
use th_syntax::tag;

// A field or a method: the tag of its entry, its owner, its name and its descriptor.
pub(crate) type NamedMember<'a> = (u8, &'a [u8], &'a [u8], &'a [u8]);

// The entry at an index; none where the index leads to none.
pub(crate) fn entry_of<'a>(slots: &[Option<PlacedEntry<'a>>], index: u16) -> Option<Entry<'a>>
    ensures { option_map entry_view result ≡ checks.entry_of (slots_view slots.now) index }
{
    match slots.get(index as usize) {
        Some(Some(placed)) => Some(placed.entry),
        _ => None,
    }
}

// The tag of an entry.
pub(crate) fn tag_of(entry: Entry) -> u8
    ensures { result ≡ file.tag_of (entry_view entry.entry) }
{
    match entry {
        Entry::Utf8(_) => tag::UTF8,
        Entry::Integer(_) => tag::INTEGER,
        Entry::Float => tag::FLOAT,
        Entry::Long(_) => tag::LONG,
        Entry::Double => tag::DOUBLE,
        Entry::Class(_) => tag::CLASS,
        Entry::String(_) => tag::STRING,
        Entry::Field(_, _) => tag::FIELD,
        Entry::Method(_, _) => tag::METHOD,
        Entry::InterfaceMethod(_, _) => tag::INTERFACE_METHOD,
        Entry::NameAndType(_, _) => tag::NAME_AND_TYPE,
        Entry::MethodHandle => tag::METHOD_HANDLE,
        Entry::MethodType => tag::METHOD_TYPE,
        Entry::InvokeDynamic => tag::INVOKE_DYNAMIC,
    }
}

// The tag of the entry at an index.
pub(crate) fn tag_at(slots: &[Option<PlacedEntry>], index: u16) -> Option<u8>
    ensures { result ≡ checks.tag_at (slots_view slots.now) index }
{
    match entry_of(slots, index) {
        Some(entry) => Some(tag_of(entry)),
        None => None,
    }
}

// Whether an index leads to an entry of this tag.
pub(crate) fn has_tag(slots: &[Option<PlacedEntry>], index: u16, tag: u8) -> bool
    ensures { result ≡ checks.has_tag (slots_view slots.now) index tag }
{
    match tag_at(slots, index) {
        Some(found) => found == tag,
        None => false,
    }
}

// The bytes of a Utf8 entry.
pub(crate) fn utf8_of<'a>(slots: &[Option<PlacedEntry<'a>>], index: u16) -> Option<&'a [u8]>
    ensures { option_copied result ≡ checks.utf8_of (slots_view slots.now) index }
{
    match entry_of(slots, index) {
        Some(Entry::Utf8(bytes)) => Some(bytes),
        _ => None,
    }
}

// The number of an Integer entry.
pub(crate) fn integer_of(slots: &[Option<PlacedEntry>], index: u16) -> Option<i32>
    ensures { result ≡ checks.integer_of (slots_view slots.now) index }
{
    match entry_of(slots, index) {
        Some(Entry::Integer(value)) => Some(value),
        _ => None,
    }
}

// The number of a Long entry.
pub(crate) fn long_of(slots: &[Option<PlacedEntry>], index: u16) -> Option<i64>
    ensures { result ≡ checks.long_of (slots_view slots.now) index }
{
    match entry_of(slots, index) {
        Some(Entry::Long(value)) => Some(value),
        _ => None,
    }
}

// The name that a Class entry leads to.
pub(crate) fn class_of<'a>(slots: &[Option<PlacedEntry<'a>>], index: u16) -> Option<&'a [u8]>
    ensures { option_copied result ≡ checks.class_of (slots_view slots.now) index }
{
    match entry_of(slots, index) {
        Some(Entry::Class(name)) => utf8_of(slots, name),
        _ => None,
    }
}

// The text that a String entry leads to.
pub(crate) fn string_of<'a>(slots: &[Option<PlacedEntry<'a>>], index: u16) -> Option<&'a [u8]>
    ensures { option_copied result ≡ checks.string_of (slots_view slots.now) index }
{
    match entry_of(slots, index) {
        Some(Entry::String(text)) => utf8_of(slots, text),
        _ => None,
    }
}

// The name and the descriptor of a NameAndType entry.
fn names_of<'a>(slots: &[Option<PlacedEntry<'a>>], index: u16) -> Option<(&'a [u8], &'a [u8])>
    ensures { names_view result ≡ option_and_then (checks.names_in (slots_view slots.now)) (checks.entry_of (slots_view slots.now) index) }
{
    match entry_of(slots, index) {
        Some(Entry::NameAndType(name, descriptor)) => {
            Some((utf8_of(slots, name)?, utf8_of(slots, descriptor)?))
        }
        _ => None,
    }
}

// The member of a class that a NameAndType entry names, under the tag of its own entry.
fn member_by<'a>(
    slots: &[Option<PlacedEntry<'a>>],
    tag: u8,
    owner: u16,
    named: u16,
) -> Option<NamedMember<'a>>
    ensures { member_view result ≡ option_map (λ m. (tag, m)) (checks.member_by (slots_view slots.now) owner named) }
{
    let owner = class_of(slots, owner)?;
    let (name, descriptor) = names_of(slots, named)?;
    Some((tag, owner, name, descriptor))
}

// The member that a Fieldref, Methodref or InterfaceMethodref entry leads to, with its tag.
pub(crate) fn member_of<'a>(
    slots: &[Option<PlacedEntry<'a>>],
    index: u16,
) -> Option<NamedMember<'a>>
    ensures { member_view result ≡ checks.tagged_member_of (slots_view slots.now) index }
{
    match entry_of(slots, index) {
        Some(Entry::Field(owner, named)) => member_by(slots, tag::FIELD, owner, named),
        Some(Entry::Method(owner, named)) => member_by(slots, tag::METHOD, owner, named),
        Some(Entry::InterfaceMethod(owner, named)) => member_by(
            slots,
            tag::INTERFACE_METHOD,
            owner,
            named,
        ),
        _ => None,
    }
}

/// A field or a method that an entry of the pool leads to (Java specification 4.4.2).
#[derive(Clone, Copy, Debug)]
pub struct PoolMember<'a> {
    /// The tag of the entry: that of a Fieldref, a Methodref or an InterfaceMethodref.
    pub tag: u8,
    /// The class or the array type, as the entry names it.
    pub owner: &'a PoolText,
    pub name: &'a PoolText,
    pub descriptor: &'a PoolText,
}

// The text at an index, of the list of the texts.
pub(crate) fn text_at(texts: &[Option<PoolText>], index: u16) -> Option<&PoolText>
    ensures { option_copied result ≡ option_flatten (slice_get texts.now index) }
{
    match texts.get(index as usize) {
        Some(Some(text)) => Some(text),
        _ => None,
    }
}
