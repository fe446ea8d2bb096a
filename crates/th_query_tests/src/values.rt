// What no clause says: that copies succeed, and comparisons of sets that are spelled in two ways.
use std::alloc::Global;
use std::test::Fail;
use th_base::{IdSet, Same, Seq, TryCopy};
use th_linear::{Lin, Rel};
use th_query::{Query, Sites, Sym};

fn set_of(alloc: Global, sites: &[u32]) -> Result<Sites, Fail> {
    let mut set = IdSet::new(alloc);
    for site in sites {
        set.insert(*site)?;
    }
    Ok(Sites::of(set))
}

#[test]
fn every_site_is_a_set(rt: HostRuntime) -> Result<(), Fail> {
    let alloc = rt.alloc();
    let every = Sites::every(alloc, 3);
    let listed = set_of(alloc, &[0, 1, 2])?;
    let longer = set_of(alloc, &[0, 1, 2, 5])?;
    assert!(rt; every.same(&listed));
    assert!(rt; listed.same(&every));
    assert!(rt; !every.same(&longer));
    assert!(rt; !longer.same(&every));
    assert!(rt; longer.contains(5));
    assert!(rt; !every.contains(3));
    Ok(())
}

#[test]
fn a_copy_is_the_same_query(rt: HostRuntime) -> Result<(), Fail> {
    let alloc = rt.alloc();
    let mut syms = Seq::new(alloc);
    syms.push(Sym::Ref {
        null: true,
        sites: Sites::every(alloc, 9),
    })?;
    syms.push(Sym::Int)?;
    let mut facts = Seq::new(alloc);
    let mut terms = Vec::new(alloc);
    terms.push((1, 2))?;
    if let Some(fact) = Lin::new(terms, 3, Rel::Le) {
        facts.push(fact)?;
    }
    let query = Query {
        frames: Seq::new(alloc),
        statics: Seq::new(alloc),
        cells: Seq::new(alloc),
        elems: Seq::new(alloc),
        syms,
        diffs: Seq::new(alloc),
        facts,
    };
    let copy = query.try_copy(alloc)?;
    assert!(rt; copy.same(&query));
    assert_eq!(rt; copy.facts.len(), 1);
    Ok(())
}
