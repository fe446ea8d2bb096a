// Lists of linear facts, refuted or not.
ghost use Rattle.th_linear.specs.Forms.{Small};
ghost use Rattle.th_linear.specs.Gathered.{AreSmall};

use std::alloc::{AllocError, Global};
use th_linear::{Lin, Rel};
use th_pure::{Range, refutes};

// Symbols are the numbers below this; those from it on are carries of sums.
const SYMBOLS: u32 = 8;

// As many facts as a list has, at most.
const MOST_FACTS: u32 = 24;

// What a carry is multiplied by.
const WRAP: i128 = 1 << 32;

// Numbers that look random, the same in each run.
#[derive(Drop)]
struct Numbers {
    state: u64,
}

impl Numbers {
    fn new() -> Numbers {
        Numbers { state: 1 }
    }

    // A number below another; 0 where that is 0.
    fn below(&mut self, limit: u32) -> u32 {
        self.state = self
            .state
            .wrapping_mul(6_364_136_223_846_793_005)
            .wrapping_add(1_442_695_040_888_963_407);
        let drawn = (self.state >> 33) as u32;
        if limit == 0 { 0 } else { drawn % limit }
    }
}

// The ranges of the symbols, which are `int`s, and of the carries.
fn ranges(alloc: Global) -> Result<Vec<Range>, AllocError> {
    let mut list = Vec::new(alloc);
    for variable in 0..SYMBOLS {
        list.push(Range {
            variable,
            low: -2_147_483_648,
            high: 2_147_483_647,
        })?;
    }
    for variable in SYMBOLS..SYMBOLS + MOST_FACTS {
        list.push(Range {
            variable,
            low: -1,
            high: 1,
        })?;
    }
    Ok(list)
}

// The fact of these terms.
fn fact_of(
    alloc: Global,
    terms: &[(u32, i128)],
    constant: i128,
    rel: Rel,
) -> Result<Option<Lin>, AllocError>
    requires { AreSmall terms.now }
{
    Ok(Lin::from_terms(Vec::from_slice(alloc, terms)?, constant, rel))
}

// A fact as a search makes one: a sum of `int`s with its carry, an order of two symbols, an equality
// with a constant, a bound, a difference.
fn usual_fact(alloc: Global, numbers: &mut Numbers, carry: u32) -> Result<Option<Lin>, AllocError> {
    let x = numbers.below(SYMBOLS);
    let y = numbers.below(SYMBOLS);
    let constant = i128::from(numbers.below(200)) - 100;
    match numbers.below(8) {
        0 | 1 => fact_of(alloc, &[(x, 1), (y, -1), (carry, -WRAP)], constant, Rel::Eq),
        2 | 3 => fact_of(alloc, &[(x, 1), (y, -1)], 0, Rel::Le),
        4 => fact_of(alloc, &[(x, -1), (y, 1)], 1, Rel::Le),
        5 => fact_of(alloc, &[(x, 1)], constant, Rel::Eq),
        6 => fact_of(alloc, &[(x, 1)], constant, Rel::Le),
        _ => fact_of(alloc, &[(x, 1), (y, -1)], 0, Rel::Ne),
    }
}

// A coefficient up to 9 of this sign.
fn coefficient(numbers: &mut Numbers, positive: bool) -> i128
    ensures { Small result }
{
    let magnitude = i128::from(numbers.below(9)) + 1;
    if positive { magnitude } else { -magnitude }
}

// An inequality of three symbols; every second bounds the first of them from above.
fn worst_fact(alloc: Global, numbers: &mut Numbers, at: u32) -> Result<Option<Lin>, AllocError> {
    let first = coefficient(numbers, at.is_multiple_of(2));
    let second = coefficient(numbers, at % 4 < 2);
    let even = numbers.below(2) == 0;
    let third = coefficient(numbers, even);
    let constant = i128::from(numbers.below(2000)) - 1000;
    fact_of(
        alloc,
        &[(0, first), (1, second), (2, third)],
        constant,
        Rel::Le,
    )
}

// Refutes so many lists of usual facts, each with a length between two, and counts those refuted.
fn usual(alloc: Global, size: u32, least: u32, most: u32) -> Result<u64, AllocError> {
    let ranges = ranges(alloc)?;
    let mut numbers = Numbers::new();
    let mut count = 0u64;
    for _ in 0..size {
        let mut facts = Vec::new(alloc);
        let length = numbers.below(most.saturating_sub(least).saturating_add(1));
        for at in 0..length.saturating_add(least).min(MOST_FACTS) {
            if let Some(fact) = usual_fact(alloc, &mut numbers, SYMBOLS + at)? {
                facts.push(fact)?;
            }
        }
        if refutes(alloc, facts.as_slice(), ranges.as_slice())? {
            count = count.wrapping_add(1);
        }
    }
    Ok(count)
}

// Refutes so many lists of 2 to 6 facts, as searches ask most.
pub(crate) fn few_facts(alloc: Global, size: u32) -> Result<u64, AllocError> {
    usual(alloc, size, 2, 6)
}

// Refutes so many lists of any length that a search keeps.
pub(crate) fn some_facts(alloc: Global, size: u32) -> Result<u64, AllocError> {
    usual(alloc, size, 0, MOST_FACTS)
}

// Refutes so many lists of 24 inequalities, which give thousands of combinations.
pub(crate) fn worst_facts(alloc: Global, size: u32) -> Result<u64, AllocError> {
    let ranges = ranges(alloc)?;
    let mut numbers = Numbers::new();
    let mut count = 0u64;
    for _ in 0..size {
        let mut facts = Vec::new(alloc);
        for at in 0..MOST_FACTS {
            if let Some(fact) = worst_fact(alloc, &mut numbers, at)? {
                facts.push(fact)?;
            }
        }
        if refutes(alloc, facts.as_slice(), ranges.as_slice())? {
            count = count.wrapping_add(1);
        }
    }
    Ok(count)
}
