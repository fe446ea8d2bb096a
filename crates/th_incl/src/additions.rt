// What additions do with the parts of a solver.
ghost use Rattle.std.specs.Prelude.{◌≡◌, ◌<◌, ◌++◌, [], length, replicate, OnOk};
ghost use Rattle.th_incl.specs.Kept.{Kept, view_of};
ghost use Rattle.th_incl.specs.View.{with_sets, with_base, with_copy};

use crate::Inclusion;
use crate::news::News;
use crate::passing::{deliver, receive};
use crate::system::{System, put_out};
use crate::work::Work;
use std::alloc::{AllocError, Global};
use th_base::{IdSet, Seq};

// Adds empty sets.
pub(crate) fn grow(
    alloc: Global,
    system: &mut System,
    work: &mut Work,
    sets: usize,
) -> Result<(), AllocError>
    requires { Kept system.old work.old }
    ensures kept { OnOk result (Kept system.new work.new) }
    ensures view { OnOk result (view_of system.new work.new ≡ with_sets (view_of system.old work.old) sets) }
{
    add_rows(alloc, &mut work.sets, &mut work.news, &mut system.out, sets)?;
    work.grown.make_room(sets)?;
    system.sets = work.sets.len();
    Ok(())
}

// Adds empty rows for so many sets.
fn add_rows(
    alloc: Global,
    sets: &mut Vec<IdSet>,
    news: &mut Vec<News>,
    out: &mut Vec<Seq<Inclusion>>,
    count: usize,
) -> Result<(), AllocError>
    ensures sets { OnOk result (sets.new.items ≡ sets.old.items ++ replicate count []) }
    ensures news { OnOk result (news.new.items ≡ news.old.items ++ replicate count []) }
    ensures out { OnOk result (out.new.items ≡ out.old.items ++ replicate count []) }
{
    for _ in 0..count {
        sets.push(IdSet::new(alloc))?;
        news.push(News::new(alloc))?;
        out.push(Seq::new(alloc))?;
    }
    Ok(())
}

// Adds a base pair: the number is news of the set, unless it is there.
pub(crate) fn add_base(
    system: &mut System,
    work: &mut Work,
    set: usize,
    id: u32,
) -> Result<(), AllocError>
    requires kept { Kept system.old work.old }
    requires inside { set < system.old.sets }
    ensures kept { OnOk result (Kept system.new work.new) }
    ensures view { OnOk result (view_of system.new work.new ≡ with_base (view_of system.old work.old) set id) }
{
    system.base.push((set, id))?;
    receive(
        work.sets.as_slice(),
        work.news.as_mut_slice(),
        &mut work.queue,
        set,
        id,
    )?;
    Ok(())
}

// Adds an inclusion: what its source holds already is delivered at once to the news of its target.
pub(crate) fn add_copy(
    system: &mut System,
    work: &mut Work,
    inclusion: Inclusion,
) -> Result<(), AllocError>
    requires kept { Kept system.old work.old }
    requires from { inclusion.from < system.old.sets }
    requires to { inclusion.to < system.old.sets }
    requires filter { inclusion.filter < length system.old.filters }
    ensures kept { OnOk result (Kept system.new work.new) }
    ensures view { OnOk result (view_of system.new work.new ≡ with_copy (view_of system.old work.old) inclusion) }
{
    system.copies.push(inclusion)?;
    put_out(&mut system.out, inclusion)?;
    deliver(
        system.filters.as_slice(),
        inclusion,
        work.sets[inclusion.from].ids(),
        work.sets.as_slice(),
        work.news.as_mut_slice(),
        &mut work.queue,
    )?;
    Ok(())
}
