// A run: steps in rounds, until no set has news or the limit is reached.
ghost use Rattle.std.specs.Prelude.{◌≡◌, ◌<◌, ◌≤◌, ℕ, [], true, false, length, IfOk, OnOk, MatchOption};
ghost use Rattle.th_incl.specs.Kept.{constraints_of, IsConsistent, Kept, Settles, Stops, Steps};
ghost use Rattle.th_incl.specs.Least.{In, is_in, IsLeast, HasMoreThan};
ghost use Rattle.th_incl.specs.Run.{Progress};
ghost use Rattle.th_incl.specs.View.{Grows, TellsGrowth};

use crate::news::News;
use crate::passing::spread;
use crate::system::System;
use crate::work::{Work, absorb, put_news, take_news};
use std::alloc::{AllocError, Global};
use std::mem;
use th_base::IdSet;

// Takes the news of a set into it and gives them; `None` where the sets would hold more pairs than
// the limit.
fn settle(
    alloc: Global,
    work: &mut Work,
    set: usize,
    limit: u64,
) -> Result<Option<IdSet>, AllocError>
    requires within { work.old.pairs ≤ limit }
    requires sets { set < length work.old.sets.items }
    requires news { set < length work.old.news.items }
    requires apart { (x : ℕ) → In work.old.news.items set x → is_in work.old.sets.items set x ≡ false }
    ensures within { OnOk result (work.new.pairs ≤ limit) }
    ensures grows { OnOk result (Grows work.old.sets.items work.old.grown work.new.sets.items work.new.grown) }
    ensures told { OnOk result (TellsGrowth work.old.grown work.old.pairs work.new.grown work.new.pairs) }
    ensures settles { IfOk result (λ r. MatchOption r (Stops limit set work.old work.new) (Settles set work.old work.new)) }
{
    let fresh = take_news(alloc, &mut work.news, set).into_set()?;
    let count = fresh.len() as u64;
    if count > limit - work.pairs {
        put_news(&mut work.news, set, News::from_set(fresh));
        return Ok(None);
    }
    absorb(&mut work.sets, set, &fresh)?;
    work.grown.mark(set, count)?;
    work.pairs += count;
    Ok(Some(fresh))
}

// Takes the news of a set into it and passes them on. The answer is false, and nothing is passed,
// where the sets would hold more pairs than the limit.
fn step(
    alloc: Global,
    system: &System,
    work: &mut Work,
    set: usize,
    limit: u64,
) -> Result<bool, AllocError>
    requires consistent { IsConsistent system.now work.old }
    requires within { work.old.pairs ≤ limit }
    requires inside { set < system.now.sets }
    ensures within { OnOk result (work.new.pairs ≤ limit) }
    ensures grows { OnOk result (Grows work.old.sets.items work.old.grown work.new.sets.items work.new.grown) }
    ensures told { OnOk result (TellsGrowth work.old.grown work.old.pairs work.new.grown work.new.pairs) }
    ensures steps { IfOk result (λ went. went ≡ true → Steps system.now set work.old work.new) }
    ensures stops { IfOk result (λ went. went ≡ false → Stops limit set work.old work.new) }
{
    let fresh = match settle(alloc, work, set, limit)? {
        None => return Ok(false),
        Some(fresh) => fresh,
    };
    if fresh.is_empty() {
        return Ok(true);
    }
    spread(
        system.filters.as_slice(),
        system.out[set].as_slice(),
        fresh.ids(),
        work.sets.as_slice(),
        work.news.as_mut_slice(),
        &mut work.queue,
    )?;
    Ok(true)
}

// Makes a step for each set of the queue, while a new queue gathers. The answer is false where the
// limit was reached.
fn round(alloc: Global, system: &System, work: &mut Work, limit: u64) -> Result<bool, AllocError>
    requires kept { Kept system.now work.old }
    requires within { work.old.pairs ≤ limit }
    ensures kept { OnOk result (Kept system.now work.new) }
    ensures within { OnOk result (work.new.pairs ≤ limit) }
    ensures grows { OnOk result (Grows work.old.sets.items work.old.grown work.new.sets.items work.new.grown) }
    ensures told { OnOk result (TellsGrowth work.old.grown work.old.pairs work.new.grown work.new.pairs) }
    ensures progress { IfOk result (λ went. went ≡ true → Progress work.old.sets.items work.new.sets.items [] work.new.queue.items) }
    ensures over { IfOk result (λ went. went ≡ false → HasMoreThan (constraints_of system.now) limit) }
{
    let front = mem::replace(&mut work.queue, Vec::new(alloc));
    for set in &front {
        let went = step(alloc, system, work, *set, limit)?;
        if !went {
            work.queue.extend_from_slice(front.as_slice())?;
            return Ok(false);
        }
    }
    Ok(true)
}

// Makes rounds until no set has news. The answer is false where the limit was reached.
pub(crate) fn rounds(
    alloc: Global,
    system: &System,
    work: &mut Work,
    limit: u64,
) -> Result<bool, AllocError>
    requires kept { Kept system.now work.old }
    requires within { work.old.pairs ≤ limit }
    ensures kept { OnOk result (Kept system.now work.new) }
    ensures within { OnOk result (work.new.pairs ≤ limit) }
    ensures grows { OnOk result (Grows work.old.sets.items work.old.grown work.new.sets.items work.new.grown) }
    ensures told { OnOk result (TellsGrowth work.old.grown work.old.pairs work.new.grown work.new.pairs) }
    ensures least { IfOk result (λ done. done ≡ true → IsLeast (constraints_of system.now) work.new.sets.items) }
    ensures over { IfOk result (λ done. done ≡ false → HasMoreThan (constraints_of system.now) limit) }
{
    while !work.queue.is_empty() {
        let went = round(alloc, system, work, limit)?;
        if !went {
            return Ok(false);
        }
    }
    Ok(true)
}
