// Reading descriptors (Java specification 4.3).
ghost use Rattle.std.specs.Prelude.{◌≡◌, ◌≤◌, length, drop};
ghost use Rattle.std.specs.Option.{option_map};
ghost use Rattle.th_syntax.specs.Descriptors as types;
ghost use Rattle.th_pool.specs.PoolView.{names_view};
ghost use Rattle.th_pool.specs.Types.{arrayed, front_of, front_seen, seen, summed, type_seen, with_dimensions};

use crate::names::is_class_name;
use crate::shape::Slot;
use th_syntax::limit::MOST_DIMENSIONS;

// What shapes ask of a type.
#[derive(Clone, Copy, Debug)]
pub(crate) struct ParsedType {
    pub slot: Slot,
    // It is float or double, or an array of these.
    pub floating: bool,
    // Its class is named well, and it has 255 dimensions at most.
    pub well_formed: bool,
}

// The slot of a type of one letter, and whether it is float or double.
#[tactic(auto, unfolding(th_syntax::specs::Descriptors::base_type))]
fn base_type(letter: u8) -> Option<ParsedType>
    ensures { result ≡ option_map type_seen (types.base_type letter) }
{
    let (slot, floating) = match letter {
        b'B' | b'C' | b'I' | b'S' | b'Z' => (Slot::Int, false),
        b'F' => (Slot::Int, true),
        b'J' => (Slot::Long, false),
        b'D' => (Slot::Long, true),
        _ => return None,
    };
    Some(ParsedType {
        slot,
        floating,
        well_formed: true,
    })
}

// The bytes before the first `;`, and those behind it.
fn name_before(bytes: &[u8]) -> Option<(&[u8], &[u8])>
    ensures { names_view result ≡ types.name_before bytes.now }
{
    for i in 0..bytes.len() {
        if bytes[i] == b';' {
            let (name, rest) = bytes.split_at(i);
            let (_, rest) = rest.split_at(1);
            return Some((name, rest));
        }
    }
    None
}

// The first byte, and those behind it.
pub(crate) fn split_front(bytes: &[u8]) -> Option<(u8, &[u8])>
    ensures { front_seen result ≡ front_of bytes.now }
{
    if bytes.is_empty() {
        return None;
    }
    let (front, rest) = bytes.split_at(1);
    Some((front[0], rest))
}

// The type at the front, unless it is an array, and the bytes behind it.
#[tactic(auto, using(crate::proofs::Spelling::elements))]
fn element_at(bytes: &[u8]) -> Option<(ParsedType, &[u8])>
    ensures { seen result ≡ option_map summed (types.element_at bytes.now) }
{
    let (letter, rest) = split_front(bytes)?;
    if letter == b'L' {
        let (name, rest) = name_before(rest)?;
        let element = ParsedType {
            slot: Slot::Ref,
            floating: false,
            well_formed: is_class_name(name),
        };
        return Some((element, rest));
    }
    let element = base_type(letter)?;
    Some((element, rest))
}

// How many dimensions the type at the front has.
fn dimensions_at(bytes: &[u8]) -> usize
    ensures within { result ≤ length bytes.now }
    ensures element { with_dimensions result (types.element_at (drop result bytes.now)) ≡ types.type_at bytes.now }
{
    for i in 0..bytes.len() {
        if bytes[i] != b'[' {
            return i;
        }
    }
    bytes.len()
}

// An array type of so many dimensions, or the element where there are none.
fn array_of(element: ParsedType, dimensions: usize) -> ParsedType
    ensures { result ≡ arrayed element dimensions }
{
    ParsedType {
        slot: if dimensions == 0 {
            element.slot
        } else {
            Slot::Ref
        },
        floating: element.floating,
        well_formed: element.well_formed && dimensions <= MOST_DIMENSIONS,
    }
}

// The type at the front, and the bytes behind it.
#[tactic(auto, using(crate::proofs::Spelling::arrays_read))]
pub(crate) fn type_at(bytes: &[u8]) -> Option<(ParsedType, &[u8])>
    ensures { seen result ≡ option_map summed (types.type_at bytes.now) }
{
    let dimensions = dimensions_at(bytes);
    let (_, rest) = bytes.split_at(dimensions);
    let (element, rest) = element_at(rest)?;
    Some((array_of(element, dimensions), rest))
}
