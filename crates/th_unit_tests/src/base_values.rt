// Plain values: each call once with ample memory.
ghost use Rattle.std.specs.Prelude.{◌≡◌, IfOk};

use std::alloc::{AllocError, Global};
use std::marker::{Send, Sync};
use std::test::Fail;
use th_base::{IdSet, Lifecycle, Name, Same, Seq, Stack, Text, TryCopy};

fn set_of(alloc: Global, ids: &[u32]) -> Result<IdSet, AllocError> {
    let mut set = IdSet::new(alloc);
    for id in ids {
        set.insert(*id)?;
    }
    Ok(set)
}

#[test]
fn sets_are_ascending_lists(rt: HostRuntime) -> Result<(), Fail> {
    let alloc = rt.alloc();
    let low = set_of(alloc, &[7, 3, 5, 5])?;
    let high = set_of(alloc, &[9, 5])?;
    let all = low.union(alloc, &high)?;
    let common = low.intersection(alloc, &high)?;
    assert_eq!(rt; low.ids(), [3, 5, 7].as_slice());
    assert_eq!(rt; all.ids(), [3, 5, 7, 9].as_slice());
    assert_eq!(rt; common.ids(), [5].as_slice());
    assert!(rt; low.contains(7) && !low.contains(4) && low.iter().count() == 3);
    assert!(rt; common.is_subset(&high) && !low.is_subset(&high) && !low.is_disjoint(&high));
    Ok(())
}

// Two sets, and what the first becomes, the new ones, and what is in one and not in the other.
#[test]
fn sets_take_in_others(rt: HostRuntime) -> Result<(), Fail> {
    let alloc = rt.alloc();
    let rows = [
        (
            [1u32, 4, 9].as_slice(),
            [0u32, 4, 10].as_slice(),
            [0u32, 1, 4, 9, 10].as_slice(),
            [0u32, 10].as_slice(),
            [1u32, 9].as_slice(),
        ),
        (&[5, 6], &[1, 2], &[1, 2, 5, 6], &[1, 2], &[5, 6]),
        (&[1, 2], &[5, 6], &[1, 2, 5, 6], &[5, 6], &[1, 2]),
        (&[3], &[3], &[3], &[], &[]),
        (&[], &[2], &[2], &[2], &[]),
        (&[2], &[], &[2], &[], &[2]),
    ];
    for (old, more, both, new, left) in rows {
        let mut set = set_of(alloc, old)?;
        let mut news = set_of(alloc, more)?;
        assert_eq!(rt; set.difference(alloc, &news)?.ids(), left);
        assert_eq!(rt; set.try_copy(alloc)?.insert_all(alloc, &news)?.ids(), new);
        set.insert_new(&mut news)?;
        assert_eq!(rt; set.ids(), both);
        assert_eq!(rt; news.ids(), new);
    }
    Ok(())
}

#[test]
fn sets_are_cut_in_place(rt: HostRuntime) -> Result<(), Fail> {
    let alloc = rt.alloc();
    let mut set = IdSet::from_ascending(vec![in alloc; 1, 3, 5, 7, 8]?);
    let odd = set_of(alloc, &[1, 5, 9])?;
    set.subtract(&odd);
    assert_eq!(rt; set.ids(), [3, 7, 8].as_slice());
    set.keep(|x| *x % 2 == 1);
    assert_eq!(rt; set.ids(), [3, 7].as_slice());
    set.intersect_with(&set_of(alloc, &[2, 3])?);
    assert_eq!(rt; set.into_vec().as_slice(), [3].as_slice());
    Ok(())
}

#[test]
fn stacks_begin_with_the_top(rt: HostRuntime) -> Result<(), Fail> {
    let alloc = rt.alloc();
    let mut stack = Stack::new(alloc);
    assert!(rt; stack.is_empty() && stack.top().is_none());
    for item in [1u32, 2, 3] {
        stack.push(item)?;
    }
    let copy = stack.try_copy(alloc)?;
    assert!(rt; copy.same(&stack) && stack.len() == 3);
    assert_eq!(rt; stack.top().copied(), Some(3));
    assert_eq!(rt; stack.get(2).copied(), Some(1));
    assert_eq!(rt; stack.get(3), None);
    assert_eq!(rt; stack.pop(), Some(3));
    assert!(rt; !copy.same(&stack));
    Ok(())
}

// Any thread may hold the value, and several at once.
fn across<T: Send + Sync>(value: &T) -> &T {
    value
}

#[test]
fn texts_cross_threads(rt: HostRuntime) -> Result<(), Fail> {
    let text = Text::from_slice(rt.alloc(), b"ab")?;
    assert_eq!(rt; across(&text).len(), 2);
    Ok(())
}

#[test]
fn items_are_copied_by_a_function(rt: HostRuntime) -> Result<(), Fail> {
    let alloc = rt.alloc();
    let letters = Seq::from_slice(alloc, &['a', 'b'])?;
    let copy = letters.copy_with(
        alloc,
        |x: &char| -> Result<char, AllocError>
            ensures { IfOk result (λ y. y ≡ x.now) }
        { Ok(*x) },
    )?;
    assert!(rt; copy.same_with(&letters, |x: &char, y: &char| *x == *y));
    Ok(())
}

#[test]
fn plain_values_are_copied_and_compared(rt: HostRuntime) -> Result<(), Fail> {
    let alloc = rt.alloc();
    let word = Text::from_slice(alloc, b"ab")?;
    assert!(rt;
        word.try_copy(alloc)?
            .same(&Text::from_vec(vec![in alloc; b'a', b'b']?)?)
    );
    assert!(rt; Text::new(alloc)?.is_empty());
    let name = Name::from_str(alloc, "Act.class")?;
    assert!(rt; name.try_copy(alloc)?.same(&name));
    let set = set_of(alloc, &[2, 1])?;
    assert!(rt; set.try_copy(alloc)?.same(&set));
    let numbers = Seq::from_slice(alloc, &[1u8, 2])?;
    assert!(rt; numbers.try_copy(alloc)?.same(&numbers));
    let triple = (1u32, Some(2u8), name.try_copy(alloc)?);
    assert!(rt; triple.try_copy(alloc)?.same(&triple));
    assert!(rt; Lifecycle::Chart.try_copy(alloc)?.same(&Lifecycle::Chart));
    assert!(rt; !Lifecycle::Chart.same(&Lifecycle::Any));
    Ok(())
}
