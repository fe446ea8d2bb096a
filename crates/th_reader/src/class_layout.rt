// The items of a class file from its version on.
ghost use Rattle.std.specs.Prelude.{◌≡◌, ◌&&◌, ◌<◌, ◌≤◌, ◌^◌, nat_le, length, drop};
ghost use Rattle.th_syntax.specs.Forms.{read};
ghost use Rattle.th_syntax.specs.ClassBytes as file;
ghost use Rattle.th_pool.specs.Gives.{Answers};
ghost use Rattle.th_reader.specs.RawView.{class_view};
ghost use Rattle.th_reader.specs.Reads.{Reads, found};
ghost use Rattle.th_reader.specs.ClassParts.{behind_version, behind_pool};

use crate::layout::{RawClass, Read, read_attributes, read_index, read_indices, read_members};
use std::alloc::Global;
use th_base::Fail;
use th_pool::{Place, Pool, read_pool};
use th_syntax::limit::{NEWEST_MAJOR, OLDEST_MAJOR};
use th_syntax::{Flaw, cause};

// Whether a file of this major version is read.
fn is_known(major: u16) -> bool
    ensures { result ≡ (nat_le OLDEST_MAJOR major && nat_le major NEWEST_MAJOR) }
{
    OLDEST_MAJOR <= major && major <= NEWEST_MAJOR
}

// The items behind the pool.
fn class_behind_pool<'a>(
    alloc: Global,
    place: Place<'a>,
    major: u16,
    pool: Pool<'a>,
) -> Read<'a, RawClass<'a>>
    ensures { Reads class_view result (behind_pool major pool.entry) place.entry }
{
    let (access, place) = read_index(place)?;
    let (this_class, place) = read_index(place)?;
    let (super_class, place) = read_index(place)?;
    let (interfaces, place) = read_indices(alloc, place)?;
    let (fields, place) = read_members(alloc, place)?;
    let (methods, place) = read_members(alloc, place)?;
    let (attributes, place) = read_attributes(alloc, place)?;
    let class = RawClass {
        major,
        pool,
        access,
        this_class,
        super_class,
        interfaces,
        fields,
        methods,
        attributes,
    };
    Ok((class, place))
}

// The pool at an offset of the file, and the items behind it.
fn class_behind_version<'a>(
    alloc: Global,
    bytes: &'a [u8],
    at: usize,
    major: u16,
) -> Read<'a, RawClass<'a>>
    requires within { at ≤ length bytes.now }
    requires small { length bytes.now < 2 ^ 32 }
    ensures { Answers (found class_view) result (read (behind_version major) at (drop at bytes.now)) }
{
    let (pool, behind) = read_pool(alloc, bytes, at)?;
    let (_, rest) = bytes.split_at(behind);
    let place = Place {
        at: behind as u32,
        rest,
    };
    class_behind_pool(alloc, place, major, pool)
}

// The items of a class file behind its magic number, the version first. A version is refused at the
// major number.
pub(crate) fn class_items<'a>(alloc: Global, bytes: &'a [u8]) -> Read<'a, RawClass<'a>>
    requires long { 4 ≤ length bytes.now }
    requires small { length bytes.now < 2 ^ 32 }
    ensures { Answers (found class_view) result (read file.class_file 4 (drop 4 bytes.now)) }
{
    let (_, rest) = bytes.split_at(4);
    let (_minor, place) = read_index(Place { at: 4, rest })?;
    let (major, place) = read_index(place)?;
    let known = is_known(major.value);
    if !known {
        return Err(Fail::Refused(Flaw {
            number: cause::VERSION,
            offset: major.at,
        }));
    }
    class_behind_version(alloc, bytes, place.at as usize, major.value)
}
