// Sets of facts with answers worked by hand from the steps: what goes in, and what must come out.
use std::alloc::{AllocError, Global};
use std::process::Abort;
use std::test::Fail;
use th_linear::{Lin, Rel};
use th_pure::{Range, refutes};

// A fact: its terms, its constant, its relation.
type Row<'a> = (&'a [(u32, i128)], i128, Rel);

// A variable with its least and greatest integer.
type Bounds = (u32, i128, i128);

const EQ: Rel = Rel::Eq;

const LE: Rel = Rel::Le;

const NE: Rel = Rel::Ne;

const LOW: i128 = -2147483648;

const HIGH: i128 = 2147483647;

const WRAP: i128 = 4294967296;

const HUGE: i128 = 1 << 61;

// The range of an `int`.
fn int(variable: u32) -> Bounds {
    (variable, LOW, HIGH)
}

fn fact_of(rt: &impl Abort, alloc: Global, row: &Row) -> Result<Lin, AllocError> {
    let made = Lin::new(Vec::from_slice(alloc, row.0)?, row.1, row.2);
    Ok(made.expect(rt, "the terms are in order"))
}

fn range_of(rt: &impl Abort, bounds: Bounds) -> Range {
    let (variable, low, high) = bounds;
    let small = low.unsigned_abs() < 1 << 62 && high.unsigned_abs() < 1 << 62;
    assert!(rt; small);
    Range {
        variable,
        low,
        high,
    }
}

fn answer(
    rt: &impl Abort,
    alloc: Global,
    rows: &[Row],
    bounds: &[Bounds],
) -> Result<bool, AllocError> {
    let mut facts = Vec::new(alloc);
    for row in rows {
        facts.push(fact_of(rt, alloc, row)?)?;
    }
    let mut ranges = Vec::new(alloc);
    for one in bounds {
        ranges.push(range_of(rt, *one))?;
    }
    refutes(alloc, facts.as_slice(), ranges.as_slice())
}

fn yes(rt: &impl Abort, alloc: Global, rows: &[Row], bounds: &[Bounds]) -> Result<(), AllocError> {
    let refuted = answer(rt, alloc, rows, bounds)?;
    assert!(rt; refuted, "{rows:?} is refuted");
    Ok(())
}

fn no(rt: &impl Abort, alloc: Global, rows: &[Row], bounds: &[Bounds]) -> Result<(), AllocError> {
    let refuted = answer(rt, alloc, rows, bounds)?;
    assert!(rt; !refuted, "{rows:?} isn't refuted");
    Ok(())
}

#[test]
fn sums_of_ints(rt: HostRuntime) -> Result<(), Fail> {
    let a = rt.alloc();
    let ints = [int(0), int(1), (2, -1, 1)];
    // x < 0 and x > 0
    yes(&rt, a, &[(&[(0, 1)], 1, LE), (&[(0, -1)], 1, LE)], &ints)?;
    // v = x + 1 as ints, and v <= x: only where the sum overflows
    let sum: Row = (&[(0, 1), (1, -1), (2, -4294967296)], -1, EQ);
    let order: Row = (&[(0, 1), (1, -1)], 0, LE);
    no(&rt, a, &[sum, order], &ints)?;
    // the same without the carry
    yes(&rt, a, &[(&[(0, 1), (1, -1)], -1, EQ), order], &ints)?;
    // x <= 100 leaves no room for an overflow, x >= 100 does
    yes(&rt, a, &[sum, (&[(1, 1)], -100, LE), order], &ints)?;
    no(&rt, a, &[sum, (&[(1, -1)], 100, LE), order], &ints)?;
    // 2x - 2y + 1 = 0
    yes(&rt, a, &[(&[(0, 2), (1, -2)], 1, EQ)], &ints)?;
    no(&rt, a, &[], &[])?;
    // x = 2^31 is no int
    yes(&rt, a, &[(&[(0, 1)], -2147483648, EQ)], &ints)?;
    // x != 0 and x = 0; x != 2 and x = 1
    yes(&rt, a, &[(&[(0, 1)], 0, NE), (&[(0, 1)], 0, EQ)], &ints)?;
    no(&rt, a, &[(&[(0, 1)], -2, NE), (&[(0, 1)], -1, EQ)], &ints)?;
    Ok(())
}

#[test]
fn facts_without_variables(rt: HostRuntime) -> Result<(), Fail> {
    let a = rt.alloc();
    yes(&rt, a, &[(&[], 5, LE)], &[])?;
    no(&rt, a, &[(&[], -5, LE)], &[])?;
    yes(&rt, a, &[(&[], 0, NE)], &[])?;
    yes(&rt, a, &[(&[], -5, LE), (&[], 1, EQ)], &[])?;
    Ok(())
}

#[test]
fn equations_and_orders(rt: HostRuntime) -> Result<(), Fail> {
    let a = rt.alloc();
    let ints = [int(0), int(1), int(2)];
    // x < y < z < x
    let less: Row = (&[(0, 1), (1, -1)], 1, LE);
    let next: Row = (&[(1, 1), (2, -1)], 1, LE);
    yes(&rt, a, &[less, next, (&[(0, -1), (2, 1)], 1, LE)], &ints)?;
    no(&rt, a, &[less, next, (&[(0, 1), (2, -1)], 1, LE)], &ints)?;
    // x = y = z and x < z
    let same: Row = (&[(0, 1), (1, -1)], 0, EQ);
    let also: Row = (&[(1, 1), (2, -1)], 0, EQ);
    yes(&rt, a, &[same, also, (&[(0, 1), (2, -1)], 1, LE)], &ints)?;
    // x = 2y and x = 1
    yes(
        &rt,
        a,
        &[(&[(0, -1), (1, 2)], 0, EQ), (&[(0, 1)], -1, EQ)],
        &ints,
    )?;
    // x + y <= 1 and x + y <= 2, both from 1 to 5
    let five = [(0, 1, 5), (1, 1, 5)];
    yes(&rt, a, &[(&[(0, 1), (1, 1)], -1, LE)], &five)?;
    no(&rt, a, &[(&[(0, 1), (1, 1)], -2, LE)], &five)?;
    // 2x + 1 = 3y, x from 0 to 1, y = 0
    yes(
        &rt,
        a,
        &[(&[(0, 2), (1, -3)], 1, EQ)],
        &[(0, 0, 1), (1, 0, 0)],
    )?;
    Ok(())
}

#[test]
fn only_rationals_satisfy_them(rt: HostRuntime) -> Result<(), Fail> {
    let a = rt.alloc();
    let ints = [int(0), int(1)];
    // 2x + 4y = 7, and 1 <= 3x - 3y <= 2: seen by division
    yes(&rt, a, &[(&[(0, 2), (1, 4)], -7, EQ)], &ints)?;
    let thirds: Row = (&[(0, 3), (1, -3)], -2, LE);
    yes(&rt, a, &[thirds, (&[(0, -3), (1, 3)], 1, LE)], &ints)?;
    // 2x + 3y = 1 from 0 to 1: not seen
    no(
        &rt,
        a,
        &[(&[(0, 2), (1, 3)], -1, EQ)],
        &[(0, 0, 1), (1, 0, 1)],
    )?;
    // 27 <= 11x + 13y <= 45 and -10 <= 7x - 9y <= 4: not seen
    let hundred = [(0, -100, 100), (1, -100, 100)];
    let most: Row = (&[(0, 11), (1, 13)], -45, LE);
    let least: Row = (&[(0, -11), (1, -13)], 27, LE);
    let high: Row = (&[(0, 7), (1, -9)], -4, LE);
    let low: Row = (&[(0, -7), (1, 9)], -10, LE);
    no(&rt, a, &[most, least, high, low], &hundred)?;
    // x != 0 from 0 to 0, and 2x != 1: inequations are dropped
    no(&rt, a, &[(&[(0, 1)], 0, NE)], &[(0, 0, 0)])?;
    no(&rt, a, &[(&[(0, 2)], -1, NE)], &ints)?;
    Ok(())
}

#[test]
fn magnitudes_at_the_limit(rt: HostRuntime) -> Result<(), Fail> {
    let a = rt.alloc();
    let unit = [(0, -1, 1), (1, -1, 1), (2, -1, 1), (3, -1, 1)];
    // 2^61 x + 3y <= 0 and -3x + 2^61 y <= 0 give a coefficient of 2^122 + 9
    let far: Row = (&[(1, HUGE), (2, 3)], 0, LE);
    let wide: Row = (&[(1, -3), (2, HUGE)], 0, LE);
    // a contradiction about a variable before, at and after x
    let before: [Row; 2] = [(&[(0, 1)], 1, LE), (&[(0, -1)], 1, LE)];
    let at: [Row; 2] = [(&[(1, 1)], 1, LE), (&[(1, -1)], 1, LE)];
    let after: [Row; 2] = [(&[(3, 1)], 1, LE), (&[(3, -1)], 1, LE)];
    yes(&rt, a, &[far, wide, before[0], before[1]], &unit)?;
    no(&rt, a, &[far, wide, at[0], at[1]], &unit)?;
    no(&rt, a, &[far, wide, after[0], after[1]], &unit)?;
    yes(&rt, a, &[far, after[0], after[1]], &unit)?;
    // with x from -10 on, 2^61 x >= -10 * 2^61 is too large as well
    let ten = [(1, -10, 10), (2, -10, 10), (3, -10, 10)];
    no(&rt, a, &[far, after[0], after[1]], &ten)?;
    // x = 2^61 y, x = 1, 2^61 x + w <= 0: the first equation is taken
    let huge: Row = (&[(0, 1), (1, -HUGE)], 0, EQ);
    let one: Row = (&[(0, 1)], -1, EQ);
    let other: Row = (&[(0, HUGE), (2, 1)], 0, LE);
    no(&rt, a, &[huge, one, other], &unit)?;
    yes(&rt, a, &[one, huge, other], &unit)?;
    // a fact that turns false beside one that turns too large
    no(
        &rt,
        a,
        &[huge, (&[(0, 1), (1, -HUGE)], 1, LE), other],
        &unit,
    )?;
    yes(&rt, a, &[huge, (&[(0, 1), (1, -HUGE)], 1, LE)], &unit)?;
    Ok(())
}

#[test]
fn two_hundred_facts(rt: HostRuntime) -> Result<(), Fail> {
    let a = rt.alloc();
    // x < 0, x > 0 and n more facts x <= 0, and the two of the range
    for (more, want) in [
        (0, true),
        (194, true),
        (195, true),
        (196, false),
        (300, false),
    ] {
        let mut facts = Vec::new(a);
        facts.push(fact_of(&rt, a, &(&[(0, 1)], 1, LE))?)?;
        facts.push(fact_of(&rt, a, &(&[(0, -1)], 1, LE))?)?;
        for _ in 0..more {
            facts.push(fact_of(&rt, a, &(&[(0, 1)], 0, LE))?)?;
        }
        let ranges = [range_of(&rt, int(0))];
        assert_eq!(rt;
            refutes(a, facts.as_slice(), &ranges)?,
            want,
            "with {more} more"
        );
    }
    Ok(())
}
