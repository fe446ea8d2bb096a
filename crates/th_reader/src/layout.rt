// The items of a class file as they stand in its bytes, before an index is followed.
ghost use Rattle.th_syntax.specs.ClassBytes as file;
ghost use Rattle.th_reader.specs.RawView.{index_view, word_view, bytes_view, attribute_view, member_view, indices_of, attributes_of, members_of};
ghost use Rattle.th_reader.specs.Reads.{Reads};

use std::alloc::Global;
use th_base::Fail;
use th_pool::{Place, Pool, run, u2, u4};
use th_syntax::Flaw;

// What was read, and the place behind it.
pub(crate) type Read<'a, T> = Result<(T, Place<'a>), Fail<Flaw>>;

// A number of two bytes, mostly an index of the constant pool, and the offset at which it stands.
#[derive(Clone, Copy, Debug)]
pub(crate) struct Index {
    pub at: u32,
    pub value: u16,
}

// A number of four bytes, and the offset at which it stands.
#[derive(Clone, Copy, Debug)]
pub(crate) struct Word {
    pub at: u32,
    pub value: u32,
}

// An attribute (Java specification 4.7), whose content is skipped by its length.
#[derive(Clone, Copy, Debug)]
pub(crate) struct RawAttribute<'a> {
    pub name: Index,
    // The offset of the content, and its bytes alone.
    pub content: Place<'a>,
}

// A field or a method (Java specification 4.5 and 4.6).
#[derive(Debug, Drop)]
pub(crate) struct RawMember<'a> {
    pub access: Index,
    pub name: Index,
    pub descriptor: Index,
    pub attributes: Vec<RawAttribute<'a>>,
}

// A class file behind its magic number (Java specification 4.1).
#[derive(Debug, Drop)]
pub(crate) struct RawClass<'a> {
    pub major: u16,
    pub pool: Pool<'a>,
    pub access: Index,
    pub this_class: Index,
    pub super_class: Index,
    pub interfaces: Vec<Index>,
    pub fields: Vec<RawMember<'a>>,
    pub methods: Vec<RawMember<'a>>,
    pub attributes: Vec<RawAttribute<'a>>,
}

// A number of two bytes, with its offset.
pub(crate) fn read_index(place: Place) -> Read<'_, Index>
    ensures { Reads index_view result file.u2 place.entry }
{
    let at = place.at;
    match u2(place) {
        Ok((value, after)) => Ok((Index { at, value }, after)),
        Err(flaw) => Err(Fail::Refused(flaw)),
    }
}

// A number of four bytes, with its offset.
pub(crate) fn read_word(place: Place) -> Read<'_, Word>
    ensures { Reads word_view result file.u4 place.entry }
{
    let at = place.at;
    match u4(place) {
        Ok((value, after)) => Ok((Word { at, value }, after)),
        Err(flaw) => Err(Fail::Refused(flaw)),
    }
}

// The next bytes, so many, as a place of their own.
pub(crate) fn read_part(place: Place, count: usize) -> Read<'_, Place>
    ensures { Reads bytes_view result (file.run count) place.entry }
{
    let at = place.at;
    match run(place, count) {
        Ok((rest, after)) => Ok((Place { at, rest }, after)),
        Err(flaw) => Err(Fail::Refused(flaw)),
    }
}

// An attribute.
fn read_attribute(place: Place) -> Read<'_, RawAttribute>
    ensures { Reads attribute_view result file.attribute place.entry }
{
    let (name, place) = read_index(place)?;
    let (length, place) = read_word(place)?;
    let (content, place) = read_part(place, length.value as usize)?;
    Ok((RawAttribute { name, content }, place))
}

// A count, and so many numbers of two bytes. Space is taken for those that lie within the bytes.
pub(crate) fn read_indices<'a>(alloc: Global, from: Place<'a>) -> Read<'a, Vec<Index>>
    ensures { Reads indices_of result (file.counted file.u2) from.entry }
{
    let (count, mut place) = match u2(from) {
        Ok(found) => found,
        Err(flaw) => return Err(Fail::Refused(flaw)),
    };
    let mut indices = Vec::new(alloc);
    for _ in 0..count {
        let (index, after) = read_index(place)?;
        indices.push(index)?;
        place = after;
    }
    Ok((indices, place))
}

// A count, and so many attributes. Space is taken for those that lie within the bytes.
pub(crate) fn read_attributes<'a>(alloc: Global, from: Place<'a>) -> Read<'a, Vec<RawAttribute<'a>>>
    ensures { Reads attributes_of result (file.counted file.attribute) from.entry }
{
    let (count, mut place) = match u2(from) {
        Ok(found) => found,
        Err(flaw) => return Err(Fail::Refused(flaw)),
    };
    let mut attributes = Vec::new(alloc);
    for _ in 0..count {
        let (attribute, after) = read_attribute(place)?;
        attributes.push(attribute)?;
        place = after;
    }
    Ok((attributes, place))
}

// A field or a method.
fn read_member<'a>(alloc: Global, place: Place<'a>) -> Read<'a, RawMember<'a>>
    ensures { Reads member_view result file.member place.entry }
{
    let (access, place) = read_index(place)?;
    let (name, place) = read_index(place)?;
    let (descriptor, place) = read_index(place)?;
    let (attributes, place) = read_attributes(alloc, place)?;
    let member = RawMember {
        access,
        name,
        descriptor,
        attributes,
    };
    Ok((member, place))
}

// A count, and so many fields or methods. Space is taken for those that lie within the bytes.
pub(crate) fn read_members<'a>(alloc: Global, from: Place<'a>) -> Read<'a, Vec<RawMember<'a>>>
    ensures { Reads members_of result (file.counted file.member) from.entry }
{
    let (count, mut place) = match u2(from) {
        Ok(found) => found,
        Err(flaw) => return Err(Fail::Refused(flaw)),
    };
    let mut members = Vec::new(alloc);
    for _ in 0..count {
        let (member, after) = read_member(alloc, place)?;
        members.push(member)?;
        place = after;
    }
    Ok((members, place))
}
