// An index of members by name and descriptor: their places, in the order of these.
ghost use Rattle.std.specs.Prelude.{◌≡◌, find, IfOk};
ghost use Rattle.std.specs.List.Sorted.{IsSortedByKey};
ghost use Rattle.std.specs.Option.{option_map};
ghost use Rattle.th_base.specs.MemberIndex.{IsIndex, is_of, key_cmp, key_of};

use crate::Text;
use std::alloc::AllocError;
use std::cmp::Ordering;

// A member's name and descriptor, and its place among the members of its class.
#[derive(Debug, Drop)]
pub(crate) struct Entry {
    pub(crate) name: Text,
    pub(crate) descriptor: Text,
    pub(crate) place: usize,
}

// Entries in the order of names and descriptors; those of one name and descriptor by place.
#[derive(Debug, Drop)]
pub(crate) struct Index {
    entries: Vec<Entry>,
}

impl Index {
    // The index of these entries.
    pub(crate) fn new(mut entries: Vec<Entry>) -> Result<Index, AllocError>
        ensures { IfOk result (λ index. IsIndex entries.items index.entries.items) }
    {
        entries.sort_by(by_key)?;
        Ok(Index { entries })
    }

    // The place of the first entry of this name and descriptor.
    pub(crate) fn first(&self, name: &[u8], descriptor: &[u8]) -> Option<usize>
        requires { IsSortedByKey key_of key_cmp self.now.entries.items }
        ensures { result ≡ option_map (λ e. e.place) (find (is_of name.now descriptor.now) self.now.entries.items) }
    {
        let entries = self.entries.as_slice();
        let at = entries.partition_point(|entry| compare(entry, name, descriptor).is_lt());
        let entry = entries.get(at)?;
        if compare(entry, name, descriptor).is_eq() {
            return Some(entry.place);
        }
        None
    }
}

// How an entry's name and descriptor stand to these.
fn compare(entry: &Entry, name: &[u8], descriptor: &[u8]) -> Ordering
    ensures { result ≡ key_cmp (key_of entry.now) (name.now, descriptor.now) }
{
    match entry.name.as_bytes().cmp(name) {
        Ordering::Equal => entry.descriptor.as_bytes().cmp(descriptor),
        other => other,
    }
}

// How two entries stand by name and descriptor.
fn by_key(left: &Entry, right: &Entry) -> Ordering
    ensures { result ≡ key_cmp (key_of left.now) (key_of right.now) }
{
    compare(left, right.name.as_bytes(), right.descriptor.as_bytes())
}
