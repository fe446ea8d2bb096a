// The constants of static fields (Java specification 4.7.2).
ghost use Rattle.std.specs.Prelude.{◌≡◌, IfOk, codes};
ghost use Rattle.std.specs.Str.{bytes_eq};
ghost use Rattle.std.specs.Option.{option_map};
ghost use Rattle.th_syntax.specs.declared.class_file.Constant.TheVariants as constant;
ghost use Rattle.th_syntax.specs.PoolChecks.{string_of};
ghost use Rattle.th_syntax.specs.Descriptors.{field_type_of};
ghost use Rattle.th_syntax.specs.Checks as checks;
ghost use Rattle.th_syntax.specs.ClassGrammar as grammar;
ghost use Rattle.th_reader.specs.RawView.{attribute_view, member_view};
ghost use Rattle.th_reader.specs.Passes.{Makes};
ghost use Rattle.th_reader.specs.Content.{index_in};

use crate::attributes::{CONSTANT_VALUE, check_last, next_named};
use crate::layout::{RawAttribute, RawMember};
use byteorder::{BigEndian, ByteOrder};
use std::alloc::{AllocError, Global};
use th_base::{Fail, Text};
use th_pool::{Place, Pool, Slot, parse_field};
use th_syntax::laws::class_files::field_descriptors;
use th_syntax::{ACC_STATIC, Constant, Flaw, cause, has_flag};

// The descriptor of `java.lang.String`.
const STRING_DESCRIPTOR: &[u8] = b"Ljava/lang/String;";

// The index that two bytes are; `None` for any other number of bytes.
fn index_in(content: Place) -> Option<u16>
    ensures { result ≡ index_in content.entry.rest.now }
{
    if content.rest.len() != 2 {
        return None;
    }
    Some(BigEndian::read_u16(content.rest))
}

// Whether the bytes are the descriptor of `java.lang.String`.
fn is_string(descriptor: &[u8]) -> bool
    ensures { result ≡ bytes_eq descriptor.now (codes "Ljava/lang/String;") }
{
    descriptor == STRING_DESCRIPTOR
}

// The value of a String entry.
fn string_at(alloc: Global, pool: &Pool, index: u16) -> Result<Option<Constant>, AllocError>
    ensures { IfOk result (λ found. found ≡ option_map constant.Str (string_of pool.now index)) }
{
    match pool.string_text(index) {
        Some(text) => Ok(Some(Constant::Str(text.text().copy(alloc)?))),
        None => Ok(None),
    }
}

// The constant that a field of this type takes from an index.
fn constant_in(
    alloc: Global,
    pool: &Pool,
    descriptor: &Text,
    index: u16,
) -> Result<Option<Constant>, AllocError>
    ensures { IfOk result (λ found. found ≡ checks.constant_in pool.now (field_type_of descriptor.now) index) }
{
    field_descriptors();
    let Ok(shape) = parse_field(descriptor) else {
        return Ok(None);
    };
    match shape.slot {
        Slot::Int => Ok(pool.integer(index).map(Constant::Int)),
        Slot::Long => Ok(pool.long(index).map(Constant::Long)),
        Slot::Ref => {
            if is_string(descriptor.as_bytes()) {
                return string_at(alloc, pool, index);
            }
            Ok(None)
        }
    }
}

// The constant of a ConstantValue attribute.
fn constant_of(
    alloc: Global,
    pool: &Pool,
    field: &RawMember,
    attribute: RawAttribute,
) -> Result<Option<Constant>, AllocError>
    ensures { IfOk result (λ found. found ≡ checks.constant_of pool.now (member_view field.now) (attribute_view attribute.entry)) }
{
    let Some(index) = index_in(attribute.content) else {
        return Ok(None);
    };
    match pool.text(field.descriptor.value) {
        Some(descriptor) => constant_in(alloc, pool, descriptor.text(), index),
        None => Ok(None),
    }
}

// The constant of a static field, where it has one.
fn static_constant(
    alloc: Global,
    pool: &Pool,
    field: &RawMember,
) -> Result<Option<Constant>, Fail<Flaw>>
    ensures { Makes (checks.constant_flaws_of pool.now (member_view field.now) (checks.constant_values pool.now (member_view field.now))) (grammar.constant_among pool.now (member_view field.now) (checks.constant_values pool.now (member_view field.now))) result }
{
    let named = next_named(pool, CONSTANT_VALUE, field.attributes.as_slice());
    let Some((first, others)) = named else {
        return Ok(None);
    };
    let Some(constant) = constant_of(alloc, pool, field, first)? else {
        return Err(Fail::Refused(Flaw {
            number: cause::ATTRIBUTE,
            offset: first.name.at,
        }));
    };
    match check_last(pool, CONSTANT_VALUE, others) {
        Ok(()) => Ok(Some(constant)),
        Err(flaw) => Err(Fail::Refused(flaw)),
    }
}

// The constant of a field, where it has one. That of an instance field is skipped.
pub(crate) fn field_constant(
    alloc: Global,
    pool: &Pool,
    field: &RawMember,
) -> Result<Option<Constant>, Fail<Flaw>>
    ensures { Makes (checks.constant_flaws pool.now (member_view field.now)) (grammar.constant_of_field pool.now (member_view field.now)) result }
{
    if has_flag(field.access.value, ACC_STATIC) {
        return static_constant(alloc, pool, field);
    }
    Ok(None)
}
