// Reading what the indices of the pool lead to.
ghost use Rattle.std.specs.Prelude.{◌≡◌, ◌&&◌, ◌==◌, not, false};
ghost use Rattle.std.specs.Option.{option_map};
ghost use Rattle.th_syntax.specs.Forms.{read};
ghost use Rattle.th_syntax.specs.ClassBytes as file;
ghost use Rattle.th_pool.specs.Gives.{Gives, Answers, with_front};
ghost use Rattle.th_pool.specs.PoolView.{placed_view, slots_view};

use crate::content::{content, is_tag, is_wide};
use crate::entry::PlacedEntry;
use crate::items::{u1, u2};
use crate::lookup::tag_of;
use crate::place::Place;
use std::alloc::Global;
use th_base::Fail;
use th_syntax::{Flaw, cause};

// What each index of a pool leads to, from index 0 on.
pub(crate) type Slots<'a> = Vec<Option<PlacedEntry<'a>>>;

// Whether an entry of this tag may stand where `left` more indices follow its own.
fn is_allowed(tag: u8, left: u16) -> bool
    ensures { result ≡ (file.is_tag tag && not (file.is_wide tag && left == 0)) }
{
    is_tag(tag) && !(is_wide(tag) && left == 0)
}

#[tactic(auto, using(crate::proofs::Entries::entries))]
fn entry(place: Place, left: u16) -> Result<(PlacedEntry, Place), Flaw>
    ensures { Gives placed_view result (read (file.entry left) place.entry.at place.entry.rest.now) }
{
    let (tag, after) = u1(place)?;
    if !is_allowed(tag, left) {
        return Err(Flaw {
            number: cause::POOL,
            offset: place.at,
        });
    }
    let (entry, after) = content(tag, after)?;
    Ok((
        PlacedEntry {
            at: place.at,
            entry,
        },
        after,
    ))
}

// What the next index leads to, which may be the second one of the entry before.
#[tactic(auto, using(crate::proofs::Entries::entries))]
fn slot(place: Place, second: bool, left: u16) -> Result<(Option<PlacedEntry>, Place), Flaw>
    ensures { Gives (option_map placed_view) result (read (file.slot second left) place.entry.at place.entry.rest.now) }
{
    if second {
        return Ok((None, place));
    }
    let (entry, place) = entry(place, left)?;
    Ok((Some(entry), place))
}

// Whether the index behind this one is the second of the same entry.
fn takes_two(slot: &Option<PlacedEntry>) -> bool
    ensures { result ≡ file.takes_two (option_map placed_view slot.now) }
{
    match slot {
        Some(placed) => is_wide(tag_of(placed.entry)),
        None => false,
    }
}

// Adds what the indices behind the first ones lead to, so many.
fn read_slots<'a>(
    mut slots: Slots<'a>,
    from: Place<'a>,
    count: u16,
) -> Result<(Slots<'a>, Place<'a>), Fail<Flaw>>
    ensures { Answers (λ x. (slots_view x.0.items, x.1.at, x.1.rest.now)) result (with_front (slots_view slots.entry.items) (read (file.slots false count) from.entry.at from.entry.rest.now)) }
{
    let mut place = from;
    let mut second = false;
    let mut left = count;
    while left > 0 {
        left -= 1;
        let (slot, after) = match slot(place, second, left) {
            Ok(found) => found,
            Err(flaw) => return Err(Fail::Refused(flaw)),
        };
        second = takes_two(&slot);
        slots.push(slot)?;
        place = after;
    }
    Ok((slots, place))
}

// What the indices of the pool lead to whose count stands at a place.
#[tactic(auto, using(crate::proofs::Loop::pools))]
pub(crate) fn pool_slots<'a>(
    alloc: Global,
    place: Place<'a>,
) -> Result<(Slots<'a>, Place<'a>), Fail<Flaw>>
    ensures { Answers (λ x. (slots_view x.0.items, x.1.at, x.1.rest.now)) result (read file.pool place.entry.at place.entry.rest.now) }
{
    let (count, after) = match u2(place) {
        Ok(found) => found,
        Err(flaw) => return Err(Fail::Refused(flaw)),
    };
    if count == 0 {
        return Err(Fail::Refused(Flaw {
            number: cause::POOL,
            offset: place.at,
        }));
    }
    let mut slots = Vec::new(alloc);
    slots.push(None)?;
    read_slots(slots, after, count - 1)
}
