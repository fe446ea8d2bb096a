// Reading the items of a class file: runs of bytes and numbers.
ghost use Rattle.std.specs.Prelude.{◌≡◌, length, IfOk};
ghost use Rattle.th_syntax.specs.Forms.{read};
ghost use Rattle.th_syntax.specs.ClassBytes.{run, u1, u2, u4, text, handle, two_indices, two_words};
ghost use Rattle.th_pool.specs.Gives.{Gives, behind, bytes_at, number_at, pair_of};

use crate::place::Place;
use byteorder::{BigEndian, ByteOrder};
use th_syntax::{Flaw, cause};

/// The next bytes, so many. Refused where fewer are left: number 2, at the place.
#[tactic(auto, unfolding(th_syntax::specs::Forms::read, th_syntax::specs::ClassBytes::run))]
pub fn run<'a>(place: Place<'a>, count: usize) -> Result<(&'a [u8], Place<'a>), Flaw>
    ensures len { IfOk result (λ x. length x.0.now ≡ count) }
    ensures read { Gives (bytes_at place.entry.at) result (read (run count) place.entry.at place.entry.rest.now) }
{
    if place.rest.len() < count {
        return Err(Flaw {
            number: cause::TRUNCATED,
            offset: place.at,
        });
    }
    let (bytes, rest) = place.rest.split_at(count);
    let at = place.at + count as u32;
    Ok((bytes, Place { at, rest }))
}

/// The next byte as a number. Refused where none is left: number 2, at the place.
#[tactic(auto, using(crate::proofs::Numbers::number_stops))]
pub fn u1(place: Place) -> Result<(u8, Place), Flaw>
    ensures { Gives (number_at place.entry.at) result (read u1 place.entry.at place.entry.rest.now) }
{
    let (bytes, after) = run(place, 1)?;
    Ok((bytes[0], after))
}

/// The next two bytes as a number, the highest first (Java specification 4). Refused where fewer are
/// left: number 2, at the place.
#[tactic(auto, using(crate::proofs::Numbers::number_stops))]
pub fn u2(place: Place) -> Result<(u16, Place), Flaw>
    ensures { Gives (number_at place.entry.at) result (read u2 place.entry.at place.entry.rest.now) }
{
    let (bytes, after) = run(place, 2)?;
    Ok((BigEndian::read_u16(bytes), after))
}

/// The next four bytes as a number, the highest first (Java specification 4). Refused where fewer are
/// left: number 2, at the place.
#[tactic(auto, using(crate::proofs::Numbers::number_stops))]
pub fn u4(place: Place) -> Result<(u32, Place), Flaw>
    ensures { Gives (number_at place.entry.at) result (read u4 place.entry.at place.entry.rest.now) }
{
    let (bytes, after) = run(place, 4)?;
    Ok((BigEndian::read_u32(bytes), after))
}

// A length, and as many bytes.
#[tactic(auto, using(crate::proofs::Parts::parts))]
pub(crate) fn text(place: Place) -> Result<(&[u8], Place), Flaw>
    ensures { Gives behind result (read text place.entry.at place.entry.rest.now) }
{
    let (len, place) = u2(place)?;
    let (bytes, place) = run(place, len as usize)?;
    Ok((bytes, place))
}

// The kind of a method handle, and an index.
#[tactic(auto, using(crate::proofs::Parts::parts))]
pub(crate) fn handle(place: Place) -> Result<((u8, u16), Place), Flaw>
    ensures { Gives pair_of result (read handle place.entry.at place.entry.rest.now) }
{
    let (kind, place) = u1(place)?;
    let (reference, place) = u2(place)?;
    Ok(((kind, reference), place))
}

// Two indices.
#[tactic(auto, using(crate::proofs::Parts::parts))]
pub(crate) fn two_indices(place: Place) -> Result<((u16, u16), Place), Flaw>
    ensures { Gives pair_of result (read two_indices place.entry.at place.entry.rest.now) }
{
    let (first, place) = u2(place)?;
    let (second, place) = u2(place)?;
    Ok(((first, second), place))
}

// Two numbers of four bytes.
#[tactic(auto, using(crate::proofs::Parts::parts))]
pub(crate) fn two_words(place: Place) -> Result<((u32, u32), Place), Flaw>
    ensures { Gives pair_of result (read two_words place.entry.at place.entry.rest.now) }
{
    let (high, place) = u4(place)?;
    let (low, place) = u4(place)?;
    Ok(((high, low), place))
}
