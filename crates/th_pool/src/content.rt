// Reading an entry of the pool.
ghost use Rattle.std.specs.Prelude.{◌≡◌, true, ◌≤◌, ◌+◌, ◌*◌, ◌^◌};
ghost use Rattle.std.specs.Int.{w64, cast_signed};
ghost use Rattle.th_syntax.specs.declared.tag.TheConstants as tags;
ghost use Rattle.th_syntax.specs.Forms.{read};
ghost use Rattle.th_syntax.specs.ClassBytes as file;
ghost use Rattle.th_pool.specs.Gives.{Gives};
ghost use Rattle.th_pool.specs.PoolView.{entry_view};

use crate::entry::Entry;
use crate::items::{handle, text, two_indices, two_words, u2, u4};
use crate::place::Place;
use th_syntax::{Flaw, tag};

// Whether there are entries of this tag (Java specification, table 4.4-A).
pub(crate) fn is_tag(tag: u8) -> bool
    ensures { result ≡ file.is_tag tag }
{
    tag == tag::UTF8
        || (tag::INTEGER <= tag && tag <= tag::NAME_AND_TYPE)
        || tag == tag::METHOD_HANDLE
        || tag == tag::METHOD_TYPE
        || tag == tag::INVOKE_DYNAMIC
}

// Whether an entry of this tag takes two indices.
pub(crate) fn is_wide(tag: u8) -> bool
    ensures { result ≡ file.is_wide tag }
{
    tag == tag::LONG || tag == tag::DOUBLE
}

// The number of which these are the high and the low half.
fn long_of(high: u32, low: u32) -> i64
    ensures { result ≡ cast_signed w64 (high * 2 ^ 32 + low) }
{
    ((u64::from(high) << 32) | u64::from(low)).cast_signed()
}

// What stands behind the tag of an entry that refers to others.
#[tactic(auto, using(crate::proofs::Contents::references))]
fn reference(tag: u8, place: Place) -> Result<(Entry, Place), Flaw>
    requires { tags.CLASS ≤ tag }
    ensures { Gives entry_view result (read (file.content tag) place.entry.at place.entry.rest.now) }
{
    match tag {
        tag::CLASS => {
            let (name, place) = u2(place)?;
            Ok((Entry::Class(name), place))
        }
        tag::STRING => {
            let (bytes, place) = u2(place)?;
            Ok((Entry::String(bytes), place))
        }
        tag::FIELD => {
            let ((owner, member), place) = two_indices(place)?;
            Ok((Entry::Field(owner, member), place))
        }
        tag::METHOD => {
            let ((owner, member), place) = two_indices(place)?;
            Ok((Entry::Method(owner, member), place))
        }
        tag::INTERFACE_METHOD => {
            let ((owner, member), place) = two_indices(place)?;
            Ok((Entry::InterfaceMethod(owner, member), place))
        }
        tag::NAME_AND_TYPE => {
            let ((name, descriptor), place) = two_indices(place)?;
            Ok((Entry::NameAndType(name, descriptor), place))
        }
        tag::METHOD_HANDLE => {
            let (_, place) = handle(place)?;
            Ok((Entry::MethodHandle, place))
        }
        tag::METHOD_TYPE => {
            let (_, place) = u2(place)?;
            Ok((Entry::MethodType, place))
        }
        _ => {
            let (_, place) = two_indices(place)?;
            Ok((Entry::InvokeDynamic, place))
        }
    }
}

// What stands behind a tag.
#[tactic(auto, using(crate::proofs::Contents::values))]
pub(crate) fn content(tag: u8, place: Place) -> Result<(Entry, Place), Flaw>
    requires { file.is_tag tag ≡ true }
    ensures { Gives entry_view result (read (file.content tag) place.entry.at place.entry.rest.now) }
{
    match tag {
        tag::UTF8 => {
            let (bytes, place) = text(place)?;
            Ok((Entry::Utf8(bytes), place))
        }
        tag::INTEGER => {
            let (value, place) = u4(place)?;
            Ok((Entry::Integer(value.cast_signed()), place))
        }
        tag::FLOAT => {
            let (_, place) = u4(place)?;
            Ok((Entry::Float, place))
        }
        tag::LONG => {
            let ((high, low), place) = two_words(place)?;
            Ok((Entry::Long(long_of(high, low)), place))
        }
        tag::DOUBLE => {
            let (_, place) = two_words(place)?;
            Ok((Entry::Double, place))
        }
        _ => reference(tag, place),
    }
}
