// A symbol that stands for others is narrowed to what all of them may stand for.
ghost use Rattle.std.specs.Prelude.{ℕ, ◌≡◌, Some, filter, IfOk, IsTrue, MatchOption};
ghost use Rattle.std.specs.List.{list_all};
ghost use Rattle.th_base.specs.IdSet.{has};
ghost use Rattle.th_linear.specs.Gathered.{name_of};
ghost use Rattle.th_query.specs.Symbols.{symbol_at, sites_in, sites_of, null_in};
ghost use Rattle.th_query.specs.Unified.{class_of, common_symbol as common_symbol_of, common_symbols as common_symbols_of};

use std::alloc::{AllocError, Global};
use th_base::{IdSet, TryCopy};
use th_query::{Query, Sites, Sym};

// The symbols, each narrowed by those that it stands for; none where that leaves them as they are, as
// each stands for itself alone.
#[tactic(auto, using(crate::proofs::Narrowed::symbols_stay))]
pub(crate) fn narrowed(
    alloc: Global,
    names: &[u32],
    query: &Query,
) -> Result<Option<Vec<Sym>>, AllocError>
    ensures { IfOk result (λ made. MatchOption made (common_symbols_of names.now query.now 0 query.now.syms ≡ query.now.syms)
        (λ all. all.items ≡ common_symbols_of names.now query.now 0 query.now.syms)) }
{
    if are_own(names) {
        return Ok(None);
    }
    let all = common_symbols(alloc, names, query)?;
    Ok(Some(all))
}

// Whether each symbol is its own name.
fn are_own(names: &[u32]) -> bool
    ensures { IsTrue result → (n : ℕ) → name_of names.now n ≡ n }
{
    for symbol in 0..names.len() {
        if names[symbol] as usize != symbol {
            return false;
        }
    }
    true
}

// The symbols, each narrowed by those that it stands for.
fn common_symbols(alloc: Global, names: &[u32], query: &Query) -> Result<Vec<Sym>, AllocError>
    ensures { IfOk result (λ all. all.items ≡ common_symbols_of names.now query.now 0 query.now.syms) }
{
    let mut all = Vec::new(alloc);
    let syms = query.syms.as_slice();
    for symbol in 0..syms.len() {
        let common = common_symbol(alloc, names, query, symbol, &syms[symbol])?;
        all.push(common)?;
    }
    Ok(all)
}

// What a symbol, and all that it stands for, may stand for.
fn common_symbol(
    alloc: Global,
    names: &[u32],
    query: &Query,
    symbol: usize,
    sym: &Sym,
) -> Result<Sym, AllocError>
    ensures { IfOk result (λ common. common ≡ common_symbol_of names.now query.now symbol sym.now) }
{
    match sym {
        Sym::Ref { null, sites } => {
            let null = *null && may_all_be_null(names, query, symbol);
            let sites = common_sites(alloc, names, query, symbol, sites)?;
            Ok(Sym::Ref { null, sites })
        }
        Sym::Int => Ok(Sym::Int),
        Sym::Carry => Ok(Sym::Carry),
    }
}

// Whether all that a symbol stands for may be null.
fn may_all_be_null(names: &[u32], query: &Query, symbol: usize) -> bool
    ensures { result ≡ list_all (λ u. null_in (symbol_at query.now u)) (class_of names.now symbol) }
{
    for other in 0..names.len() {
        if names[other] as usize == symbol && !may_be_null(query, other) {
            return false;
        }
    }
    true
}

// Whether a symbol may be null.
fn may_be_null(query: &Query, symbol: usize) -> bool
    ensures { result ≡ null_in (symbol_at query.now symbol) }
{
    match query.syms.as_slice().get(symbol) {
        Some(Sym::Ref { null, .. }) => *null,
        _ => false,
    }
}

// Those of the sites that all that a symbol stands for have.
fn common_sites(
    alloc: Global,
    names: &[u32],
    query: &Query,
    symbol: usize,
    sites: &Sites,
) -> Result<Sites, AllocError>
    ensures { IfOk result (λ common. common ≡ filter (λ a. list_all (λ u. has (sites_of query.now u) a) (class_of names.now symbol)) sites.now) }
{
    let mut common = sites.try_copy(alloc)?;
    for other in 0..names.len() {
        if names[other] as usize == symbol {
            common = those_of(alloc, query, other, &common)?;
        }
    }
    Ok(common)
}

// Those of the sites that a symbol has.
#[tactic(auto, using(crate::proofs::Narrowed::none_had))]
fn those_of(alloc: Global, query: &Query, symbol: usize, sites: &Sites) -> Result<Sites, AllocError>
    ensures { IfOk result (λ those. those ≡ filter (has (sites_of query.now symbol)) sites.now) }
{
    match query.syms.as_slice().get(symbol) {
        Some(sym) => those_in(alloc, sym, sites),
        None => Ok(Sites::of(IdSet::new(alloc))),
    }
}

// Those of the sites that a symbol's object may be from.
#[tactic(auto, using(crate::proofs::Narrowed::none_had))]
fn those_in(alloc: Global, sym: &Sym, sites: &Sites) -> Result<Sites, AllocError>
    ensures { IfOk result (λ those. those ≡ filter (has (sites_in (Some sym.now))) sites.now) }
{
    match sym {
        Sym::Ref { sites: others, .. } => sites.common(alloc, others),
        Sym::Int => Ok(Sites::of(IdSet::new(alloc))),
        Sym::Carry => Ok(Sites::of(IdSet::new(alloc))),
    }
}
