// Passing what is fresh in a set through its inclusions.
ghost use Rattle.std.specs.Prelude.{◌≡◌, ◌≢◌, ◌<◌, ◌∷◌, ◌++◌, ℕ, [], length, Contains, OnOk};
ghost use Rattle.th_incl.specs.Least.{set_at};
ghost use Rattle.th_incl.specs.Parts.{SameMembers, missing, lacking};
ghost use Rattle.th_incl.specs.Run.{Receives, Spreads};
ghost use Rattle.th_incl.specs.declared.constraints.Inclusion.{Inclusion};

use crate::Inclusion;
use crate::filter::Filter;
use crate::news::News;
use std::alloc::AllocError;
use th_base::IdSet;

// Puts the numbers that pass a filter, and that the target hasn't, among its news.
fn pass(news: &mut News, fresh: &[u32], filter: &Filter, target: &IdSet) -> Result<(), AllocError>
    ensures { OnOk result (SameMembers (missing fresh.now filter.now target.now ++ news.old) news.new) }
{
    for id in fresh {
        if filter.passes(*id) && !target.contains(*id) {
            news.add(*id)?;
        }
    }
    Ok(())
}

// Puts what passes among the news of one of the sets.
fn pass_to(
    news: &mut [News],
    to: usize,
    fresh: &[u32],
    filter: &Filter,
    target: &IdSet,
) -> Result<(), AllocError>
    requires { to < length news.old }
    ensures len { length news.new ≡ length news.old }
    ensures here { OnOk result (SameMembers (missing fresh.now filter.now target.now ++ set_at news.old to) (set_at news.new to)) }
    ensures others { OnOk result ((k : ℕ) → k ≢ to → set_at news.new k ≡ set_at news.old k) }
{
    pass(&mut news[to], fresh, filter, target)
}

// Passes fresh numbers through one inclusion, and queues its target where it had no news before.
pub(crate) fn deliver(
    filters: &[Filter],
    inclusion: Inclusion,
    fresh: &[u32],
    sets: &[IdSet],
    news: &mut [News],
    queue: &mut Vec<usize>,
) -> Result<(), AllocError>
    requires news { inclusion.to < length news.old }
    requires sets { inclusion.to < length sets.now }
    requires filter { inclusion.filter < length filters.now }
    ensures { OnOk result (Receives inclusion.to (missing fresh.now (set_at filters.now inclusion.filter) (set_at sets.now inclusion.to))
        news.old queue.old.items news.new queue.new.items) }
{
    let to = inclusion.to;
    let had_none = news[to].is_empty();
    pass_to(news, to, fresh, &filters[inclusion.filter], &sets[to])?;
    if had_none && !news[to].is_empty() {
        queue.push(to)?;
        return Ok(());
    }
    Ok(())
}

// Passes fresh numbers through inclusions.
pub(crate) fn spread(
    filters: &[Filter],
    out: &[Inclusion],
    fresh: &[u32],
    sets: &[IdSet],
    news: &mut [News],
    queue: &mut Vec<usize>,
) -> Result<(), AllocError>
    requires news { (j : Inclusion) → Contains out.now j → j.to < length news.old }
    requires sets { (j : Inclusion) → Contains out.now j → j.to < length sets.now }
    requires filter { (j : Inclusion) → Contains out.now j → j.filter < length filters.now }
    ensures { OnOk result (Spreads sets.now filters.now out.now fresh.now news.old queue.old.items news.new queue.new.items) }
{
    for inclusion in out {
        deliver(filters, *inclusion, fresh, sets, news, queue)?;
    }
    Ok(())
}

// Puts a number among the news of a set that hasn't got it, and queues the set where it had none.
pub(crate) fn receive(
    sets: &[IdSet],
    news: &mut [News],
    queue: &mut Vec<usize>,
    set: usize,
    id: u32,
) -> Result<(), AllocError>
    requires sets { set < length sets.now }
    requires news { set < length news.old }
    ensures { OnOk result (Receives set (lacking (id ∷ []) (set_at sets.now set)) news.old queue.old.items news.new queue.new.items) }
{
    if sets[set].contains(id) {
        return Ok(());
    }
    let had_none = news[set].is_empty();
    add_to(news, set, id)?;
    if had_none {
        queue.push(set)?;
        return Ok(());
    }
    Ok(())
}

// Adds a number to the news of one of the sets.
fn add_to(news: &mut [News], set: usize, id: u32) -> Result<(), AllocError>
    requires { set < length news.old }
    ensures len { length news.new ≡ length news.old }
    ensures here { OnOk result (SameMembers (id ∷ set_at news.old set) (set_at news.new set)) }
    ensures others { OnOk result ((k : ℕ) → k ≢ set → set_at news.new k ≡ set_at news.old k) }
{
    news[set].add(id)
}
