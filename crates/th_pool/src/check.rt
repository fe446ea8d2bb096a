// The check of the entries: each leads to entries of the right tags.
ghost use Rattle.std.specs.Prelude.{◌≡◌, [], ◌↔◌, IsOk, IfErr};
ghost use Rattle.std.specs.Option.{option_map};
ghost use Rattle.th_syntax.specs.PoolChecks as checks;
ghost use Rattle.th_pool.specs.PoolView.{entry_view, placed_view, slots_view};
ghost use Rattle.th_pool.specs.First.{BeginsWith};

use crate::entry::{Entry, PlacedEntry};
use crate::lookup::has_tag;
use th_syntax::{Flaw, cause, tag};

// Whether each index of an entry leads to an entry of the right tag.
fn refers_well(slots: &[Option<PlacedEntry>], entry: Entry) -> bool
    ensures { result ≡ checks.refers_well (slots_view slots.now) (entry_view entry.entry) }
{
    match entry {
        Entry::Class(name) => has_tag(slots, name, tag::UTF8),
        Entry::String(text) => has_tag(slots, text, tag::UTF8),
        Entry::Field(owner, named)
        | Entry::Method(owner, named)
        | Entry::InterfaceMethod(owner, named) => {
            has_tag(slots, owner, tag::CLASS) && has_tag(slots, named, tag::NAME_AND_TYPE)
        }
        Entry::NameAndType(name, descriptor) => {
            has_tag(slots, name, tag::UTF8) && has_tag(slots, descriptor, tag::UTF8)
        }
        _ => true,
    }
}

fn flaw_of(slots: &[Option<PlacedEntry>], slot: Option<PlacedEntry>) -> Option<Flaw>
    ensures { result ≡ checks.entry_flaw (slots_view slots.now) (option_map placed_view slot.entry) }
{
    match slot {
        Some(placed) if !refers_well(slots, placed.entry) => Some(Flaw {
            number: cause::POOL,
            offset: placed.at,
        }),
        _ => None,
    }
}

// The first entry that doesn't lead to entries of the right tags.
pub(crate) fn check_entries(slots: &[Option<PlacedEntry>]) -> Result<(), Flaw>
    ensures { BeginsWith (checks.entry_flaws (slots_view slots.now)) result }
{
    for slot in slots {
        if let Some(flaw) = flaw_of(slots, *slot) {
            return Err(flaw);
        }
    }
    Ok(())
}
