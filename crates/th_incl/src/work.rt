// The sets, and what is left to do.
ghost use Rattle.std.specs.Prelude.{◌≡◌, ◌<◌, ◌^◌, [], length, slice_set, OnOk};
ghost use Rattle.th_base.specs.IdSet.{union_of, intersection_of};
ghost use Rattle.th_incl.specs.Least.{set_at};

use crate::grown::Grown;
use crate::news::News;
use std::alloc::{AllocError, Global};
use std::mem;
use th_base::IdSet;

// What a run changes: the sets, their news, and the queue of sets that have some.
#[derive(Debug, Drop)]
pub(crate) struct Work {
    pub(crate) sets: Vec<IdSet>,
    pub(crate) news: Vec<News>,
    // The sets that have news; one may stand here more than once.
    pub(crate) queue: Vec<usize>,
    // The sets that grew since they were last asked for.
    pub(crate) grown: Grown,
    // How many numbers the sets hold together.
    pub(crate) pairs: u64,
}

// Takes the news of a set.
pub(crate) fn take_news(alloc: Global, news: &mut Vec<News>, set: usize) -> News
    requires { set < length news.old.items }
    ensures value { result ≡ set_at news.old.items set }
    ensures rest { news.new.items ≡ slice_set news.old.items set [] }
{
    mem::replace(&mut news[set], News::new(alloc))
}

// Puts news in the place of those of a set.
pub(crate) fn put_news(news: &mut Vec<News>, set: usize, ids: News)
    requires { set < length news.old.items }
    ensures { news.new.items ≡ slice_set news.old.items set ids }
{
    news[set] = ids;
}

// Adds numbers to one of the sets, which has none of them.
pub(crate) fn absorb(sets: &mut Vec<IdSet>, set: usize, fresh: &IdSet) -> Result<(), AllocError>
    requires inside { set < length sets.old.items }
    requires apart { intersection_of (set_at sets.old.items set) fresh.now ≡ [] }
    ensures sets { OnOk result (sets.new.items ≡ slice_set sets.old.items set (union_of (set_at sets.old.items set) fresh.now)) }
    ensures fits { OnOk result (length (union_of (set_at sets.old.items set) fresh.now) < 2 ^ 64) }
{
    add_apart(&mut sets[set], fresh)
}

// Adds numbers to a set that has none of them.
fn add_apart(set: &mut IdSet, fresh: &IdSet) -> Result<(), AllocError>
    requires { intersection_of set.old fresh.now ≡ [] }
    ensures union { OnOk result (set.new ≡ union_of set.old fresh.now) }
    ensures fits { OnOk result (length (union_of set.old fresh.now) < 2 ^ 64) }
{
    set.insert_apart(fresh)?;
    // For the proof alone: how long a set can be.
    let _size = set.len();
    Ok(())
}
