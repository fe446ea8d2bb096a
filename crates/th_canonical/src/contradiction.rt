// Queries that no state can meet.
ghost use Rattle.std.specs.Prelude.{◌≡◌, ◌<◌, ◌^◌, [], ◌++◌, IfOk, OnOk, length, slice_get};
ghost use Rattle.std.specs.List.{list_any};
ghost use Rattle.th_query.specs.Contradiction.{has_none, is_nothing as says_nothing, is_only_null, is_no_difference as says_no_difference, ranges_at, ranges_from, is_contradiction_of};

use std::alloc::{AllocError, Global};
use th_pure::{Range, refutes};
use th_query::{Query, Sites, Sym};

/// Whether a query is a contradiction: some reference is neither null nor an object, some difference
/// is of a symbol with itself or of two that can only be null, or the linear facts are refuted.
pub fn is_contradiction(alloc: Global, query: &Query) -> Result<bool, AllocError>
    requires { length query.now.syms < 2 ^ 31 }
    ensures { IfOk result (λ answer. answer ≡ is_contradiction_of query.now) }
{
    if has_nothing(query.syms.as_slice()) || has_no_difference(query) {
        return Ok(true);
    }
    let ranges = ranges(alloc, query.syms.as_slice())?;
    refutes(alloc, query.facts.as_slice(), ranges.as_slice())
}

// Whether some symbol stands for nothing.
fn has_nothing(syms: &[Sym]) -> bool
    ensures { result ≡ list_any says_nothing syms.now }
{
    syms.iter().any(|sym| is_nothing(sym))
}

// Whether a symbol stands for nothing: it is neither null nor an object.
fn is_nothing(sym: &Sym) -> bool
    ensures { result ≡ says_nothing sym.now }
{
    match sym {
        Sym::Ref { null, sites } => !*null && is_empty(sites),
        Sym::Int => false,
        Sym::Carry => false,
    }
}

// Whether there are no sites.
pub(crate) fn is_empty(sites: &Sites) -> bool
    ensures { result ≡ has_none sites.now }
{
    sites.is_empty()
}

// Whether some difference is none.
fn has_no_difference(query: &Query) -> bool
    ensures { result ≡ list_any (says_no_difference query.now) query.now.diffs }
{
    query
        .diffs
        .as_slice()
        .iter()
        .any(|pair| is_no_difference(query, pair.0, pair.1))
}

// Whether two symbols can't differ: they are one, or both can only be null.
fn is_no_difference(query: &Query, left: u32, right: u32) -> bool
    ensures { result ≡ says_no_difference query.now (left, right) }
{
    left == right || (is_null_alone(query, left) && is_null_alone(query, right))
}

// Whether a symbol is a reference that can only be null.
fn is_null_alone(query: &Query, symbol: u32) -> bool
    ensures { result ≡ is_only_null (slice_get query.now.syms symbol) }
{
    match query.syms.get(symbol as usize) {
        Some(Sym::Ref { null, sites }) => *null && is_empty(sites),
        Some(Sym::Int) => false,
        Some(Sym::Carry) => false,
        None => false,
    }
}

// The ranges of all numbers, in order.
fn ranges(alloc: Global, syms: &[Sym]) -> Result<Vec<Range>, AllocError>
    requires { length syms.now < 2 ^ 31 }
    ensures { IfOk result (λ ranges. ranges.items ≡ ranges_from 0 syms.now) }
{
    let mut ranges = Vec::new(alloc);
    for i in 0..syms.len() {
        push_range(&mut ranges, i as u32, &syms[i])?;
    }
    Ok(ranges)
}

// Adds the range of a symbol, where it is a number.
fn push_range(ranges: &mut Vec<Range>, symbol: u32, sym: &Sym) -> Result<(), AllocError>
    ensures { OnOk result (ranges.new.items ≡ ranges.old.items ++ ranges_at symbol sym.now []) }
{
    match sym {
        Sym::Ref { null: _, sites: _ } => Ok(()),
        Sym::Int => {
            ranges.push(Range {
                variable: symbol,
                low: -2_147_483_648,
                high: 2_147_483_647,
            })?;
            Ok(())
        }
        Sym::Carry => {
            ranges.push(Range {
                variable: symbol,
                low: -1,
                high: 1,
            })?;
            Ok(())
        }
    }
}
