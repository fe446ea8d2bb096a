// When a query says no less than another: each fact of the other is matched, the first that fits.
ghost use Rattle.std.specs.Prelude.{◌≡◌, ◌==◌, ◌&&◌, true, false, None, Some, [], ◌∷◌, map, not, slice_get, IfOk, MatchBool, if◌then◌else◌};
ghost use Rattle.std.specs.List.{list_all};
ghost use Rattle.std.specs.Option.{option_and_then};
ghost use Rattle.std.specs.Ordering.{int_eq};
ghost use Rattle.th_pure.specs.Elimination.{same_relation as one_relation};
ghost use Rattle.th_base.specs.Hierarchy.{first_some};
ghost use Rattle.th_base.specs.IdSet.{has};
ghost use Rattle.th_query.specs.Subsumed.{same_kind, matched, matched_in_turn, matched_all, matched_register, matched_frames, matched_static, matched_cell, matched_element, matched_fact, matched_with_fact, paired};
ghost use Rattle.th_query.specs.Subsumed.{matching_of, is_subsumed};
ghost use Rattle.th_canonical.specs.Matched.{matched_frame, matched_terms, matched_known};
ghost use Rattle.th_query.specs.Subsumed.{is_narrower as narrower, are_narrower as narrower_from, are_apart as apart, has_difference as has_pair, differ as differ_by, is_as_strong as as_strong};
ghost use Rattle.th_query.specs.Symbols.{symbol_at};

use crate::contradiction::is_empty;
use std::alloc::{AllocError, Global};
use th_base::{FieldId, Reg};
use th_linear::{Lin, Rel};
use th_query::{Cell, Element, Frame, Query, Sites, Sym};

/// Whether a query says all that another does, so that each state that meets the first meets the
/// second: each fact of the second is matched with the first that fits, and nothing is tried again.
/// So a query need not be subsumed by itself.
pub fn subsumed(alloc: Global, query: &Query, by: &Query) -> Result<bool, AllocError>
    ensures { IfOk result (λ answer. answer ≡ is_subsumed query.now by.now) }
{
    if query.frames.len() != by.frames.len() {
        return Ok(false);
    }
    let mut matching = nothing_matched(alloc, by.syms.as_slice())?;
    if !match_all(alloc, query, by, &mut matching)? {
        return Ok(false);
    }
    Ok(is_as_strong(query, by, matching.as_slice()))
}

// No symbol is matched.
fn nothing_matched(alloc: Global, syms: &[Sym]) -> Result<Vec<Option<u32>>, AllocError>
    ensures { IfOk result (λ matching. matching.items ≡ map (λ x. None) syms.now) }
{
    let mut matching = Vec::new(alloc);
    for _sym in syms {
        matching.push(None)?;
    }
    Ok(matching)
}

// Matches all facts.
fn match_all(
    alloc: Global,
    query: &Query,
    by: &Query,
    matching: &mut Vec<Option<u32>>,
) -> Result<bool, AllocError>
    ensures { IfOk result (λ answer. MatchBool answer
        (option_and_then (matched_in_turn (matched_fact query.now by.now) by.now.facts) (matched_known query.now by.now matching.old.items) ≡ Some matching.new.items)
        (option_and_then (matched_in_turn (matched_fact query.now by.now) by.now.facts) (matched_known query.now by.now matching.old.items) ≡ None)) }
{
    if !match_known(query, by, matching) {
        return Ok(false);
    }
    match_facts(alloc, query, by, matching)
}

// Matches the facts of registers, static fields, cells and elements.
fn match_known(query: &Query, by: &Query, matching: &mut [Option<u32>]) -> bool
    ensures { MatchBool result (matched_known query.now by.now matching.old ≡ Some matching.new)
        (matched_known query.now by.now matching.old ≡ None) }
{
    if !match_frames(
        query,
        by,
        query.frames.as_slice(),
        by.frames.as_slice(),
        matching,
    ) {
        return false;
    }
    if !match_statics(query, by, matching) {
        return false;
    }
    if !match_all_cells(query, by, matching) {
        return false;
    }
    match_all_elements(query, by, matching)
}

// Matches frames, one with one.
fn match_frames(
    query: &Query,
    by: &Query,
    frames: &[Frame],
    others: &[Frame],
    matching: &mut [Option<u32>],
) -> bool
    ensures { MatchBool result (matched_frames query.now by.now frames.now others.now matching.old ≡ Some matching.new)
        (matched_frames query.now by.now frames.now others.now matching.old ≡ None) }
{
    if frames.len() != others.len() {
        return false;
    }
    for i in 0..frames.len() {
        if !match_frame(query, by, &frames[i], &others[i], matching) {
            return false;
        }
    }
    true
}

// Matches two frames, which stand at one node.
fn match_frame(
    query: &Query,
    by: &Query,
    frame: &Frame,
    other: &Frame,
    matching: &mut [Option<u32>],
) -> bool
    ensures { MatchBool result (matched_frame query.now by.now frame.now other.now matching.old ≡ Some matching.new)
        (matched_frame query.now by.now frame.now other.now matching.old ≡ None) }
{
    if frame.node.0 == other.node.0 {
        match_registers(
            query,
            by,
            frame.regs.as_slice(),
            other.regs.as_slice(),
            matching,
        )
    } else {
        false
    }
}

// Matches the linear facts.
fn match_facts(
    alloc: Global,
    query: &Query,
    by: &Query,
    matching: &mut Vec<Option<u32>>,
) -> Result<bool, AllocError>
    ensures { IfOk result (λ answer. MatchBool answer
        (matched_in_turn (matched_fact query.now by.now) by.now.facts matching.old.items ≡ Some matching.new.items)
        (matched_in_turn (matched_fact query.now by.now) by.now.facts matching.old.items ≡ None)) }
{
    for fact in by.facts.as_slice() {
        if !match_fact(alloc, query, by, fact, matching)? {
            return Ok(false);
        }
    }
    Ok(true)
}

// Matches a linear fact with the first that agrees.
fn match_fact(
    alloc: Global,
    query: &Query,
    by: &Query,
    fact: &Lin,
    matching: &mut Vec<Option<u32>>,
) -> Result<bool, AllocError>
    ensures { IfOk result (λ answer. MatchBool answer
        (matched_fact query.now by.now fact.now matching.old.items ≡ Some matching.new.items)
        (matched_fact query.now by.now fact.now matching.old.items ≡ None)) }
{
    for other in query.facts.as_slice() {
        if match_with_fact(alloc, query, by, fact, other, matching)? {
            return Ok(true);
        }
    }
    Ok(false)
}

// Matches two linear facts of one relation, constant and coefficients, or none of their variables.
fn match_with_fact(
    alloc: Global,
    query: &Query,
    by: &Query,
    fact: &Lin,
    other: &Lin,
    matching: &mut Vec<Option<u32>>,
) -> Result<bool, AllocError>
    ensures { IfOk result (λ answer. MatchBool answer
        (matched_with_fact query.now by.now fact.now other.now matching.old.items ≡ Some matching.new.items)
        ((matched_with_fact query.now by.now fact.now other.now matching.old.items ≡ None) × (matching.new.items ≡ matching.old.items))) }
{
    if !is_like(fact, other) {
        return Ok(false);
    }
    let mut trial = Vec::from_slice(alloc, matching.as_slice())?;
    let agrees = match_terms(
        query,
        by,
        fact.coefs.as_slice(),
        other.coefs.as_slice(),
        &mut trial,
    );
    if agrees {
        *matching = trial;
    }
    Ok(agrees)
}

// Whether two linear facts have one relation and constant.
fn is_like(fact: &Lin, other: &Lin) -> bool
    ensures { result ≡ (one_relation other.now.rel fact.now.rel && int_eq other.now.constant fact.now.constant) }
{
    same_relation(other.rel, fact.rel) && other.constant == fact.constant
}

// Whether the two relations are one.
fn same_relation(left: Rel, right: Rel) -> bool
    ensures { result ≡ one_relation left right }
{
    match (left, right) {
        (Rel::Eq, Rel::Eq) => true,
        (Rel::Le, Rel::Le) => true,
        (Rel::Ne, Rel::Ne) => true,
        _ => false,
    }
}

// Matches the variables of terms with the same coefficients, one by one.
fn match_terms(
    query: &Query,
    by: &Query,
    terms: &[(u32, i128)],
    others: &[(u32, i128)],
    matching: &mut [Option<u32>],
) -> bool
    ensures { MatchBool result (matched_terms query.now by.now terms.now others.now matching.old ≡ Some matching.new)
        (matched_terms query.now by.now terms.now others.now matching.old ≡ None) }
{
    if terms.len() != others.len() {
        return false;
    }
    for i in 0..terms.len() {
        if !match_term(query, by, terms[i], others[i], matching) {
            return false;
        }
    }
    true
}

// Matches the variables of two terms with one coefficient.
fn match_term(
    query: &Query,
    by: &Query,
    term: (u32, i128),
    other: (u32, i128),
    matching: &mut [Option<u32>],
) -> bool
    ensures { MatchBool result ((if int_eq term.1 other.1 then matched query.now by.now (term.0, other.0) matching.old else None) ≡ Some matching.new)
        ((if int_eq term.1 other.1 then matched query.now by.now (term.0, other.0) matching.old else None) ≡ None) }
{
    if term.1 == other.1 {
        match_symbol(query, by, matching, term.0, other.0)
    } else {
        false
    }
}

// Whether a symbol of the stronger query is of the kind of one of the weaker.
fn is_alike(query: &Query, by: &Query, s: u32, t: u32) -> bool
    ensures { result ≡ same_kind (symbol_at query.now t) (symbol_at by.now s) }
{
    match (query.syms.get(t as usize), by.syms.get(s as usize)) {
        (Some(Sym::Ref { null: _, sites: _ }), Some(Sym::Ref { null: _, sites: _ })) => true,
        (Some(Sym::Int), Some(Sym::Int)) => true,
        (Some(Sym::Carry), Some(Sym::Carry)) => true,
        _ => false,
    }
}

// Matches a symbol of the weaker query with one of the stronger: as it is matched already, or newly.
// Where that can't be, nothing changes.
fn match_symbol(query: &Query, by: &Query, matching: &mut [Option<u32>], s: u32, t: u32) -> bool
    ensures { MatchBool result (matched query.now by.now (s, t) matching.old ≡ Some matching.new)
        ((matched query.now by.now (s, t) matching.old ≡ None) × (matching.new ≡ matching.old)) }
{
    let place = s as usize;
    if place >= matching.len() {
        return false;
    }
    match matching[place] {
        Some(u) => u == t,
        None => {
            if is_alike(query, by, s, t) {
                matching[place] = Some(t);
                true
            } else {
                false
            }
        }
    }
}

// The symbol of a register, in the first fact of it.
fn symbol_of_register(facts: &[(Reg, u32)], reg: Reg) -> Option<u32>
    ensures { result ≡ first_some (λ y. if y.0.0 == reg.0 then Some y.1 else None) facts.now }
{
    for fact in facts {
        if fact.0.0 == reg.0 {
            return Some(fact.1);
        }
    }
    None
}

// The symbol of a static field, in the first fact of it.
fn symbol_of_static(facts: &[(FieldId, u32)], field: FieldId) -> Option<u32>
    ensures { result ≡ first_some (λ y. if y.0.0 == field.0 then Some y.1 else None) facts.now }
{
    for fact in facts {
        if fact.0.0 == field.0 {
            return Some(fact.1);
        }
    }
    None
}

// Matches the fact of a register.
fn match_register(
    query: &Query,
    by: &Query,
    facts: &[(Reg, u32)],
    fact: (Reg, u32),
    matching: &mut [Option<u32>],
) -> bool
    ensures { MatchBool result (matched_register query.now by.now facts.now fact matching.old ≡ Some matching.new)
        (matched_register query.now by.now facts.now fact matching.old ≡ None) }
{
    match symbol_of_register(facts, fact.0) {
        Some(symbol) => match_symbol(query, by, matching, fact.1, symbol),
        None => false,
    }
}

// Matches the fact of a static field.
fn match_static(
    query: &Query,
    by: &Query,
    fact: (FieldId, u32),
    matching: &mut [Option<u32>],
) -> bool
    ensures { MatchBool result (matched_static query.now by.now fact matching.old ≡ Some matching.new)
        (matched_static query.now by.now fact matching.old ≡ None) }
{
    match symbol_of_static(query.statics.as_slice(), fact.0) {
        Some(symbol) => match_symbol(query, by, matching, fact.1, symbol),
        None => false,
    }
}

// Matches the facts of registers of a frame.
fn match_registers(
    query: &Query,
    by: &Query,
    facts: &[(Reg, u32)],
    regs: &[(Reg, u32)],
    matching: &mut [Option<u32>],
) -> bool
    ensures { MatchBool result (matched_in_turn (matched_register query.now by.now facts.now) regs.now matching.old ≡ Some matching.new)
        (matched_in_turn (matched_register query.now by.now facts.now) regs.now matching.old ≡ None) }
{
    for fact in regs {
        if !match_register(query, by, facts, *fact, matching) {
            return false;
        }
    }
    true
}

// Matches the facts of static fields.
fn match_statics(query: &Query, by: &Query, matching: &mut [Option<u32>]) -> bool
    ensures { MatchBool result (matched_in_turn (matched_static query.now by.now) by.now.statics matching.old ≡ Some matching.new)
        (matched_in_turn (matched_static query.now by.now) by.now.statics matching.old ≡ None) }
{
    for fact in by.statics.as_slice() {
        if !match_static(query, by, *fact, matching) {
            return false;
        }
    }
    true
}

// Matches two pairs of symbols, or neither.
fn match_pair(
    query: &Query,
    by: &Query,
    matching: &mut [Option<u32>],
    first: (u32, u32),
    second: (u32, u32),
) -> bool
    ensures { MatchBool result (matched_all query.now by.now (first ∷ second ∷ []) matching.old ≡ Some matching.new)
        ((matched_all query.now by.now (first ∷ second ∷ []) matching.old ≡ None) × (matching.new ≡ matching.old)) }
{
    let place = first.0 as usize;
    if place >= matching.len() {
        return false;
    }
    let before = matching[place];
    if !match_symbol(query, by, matching, first.0, first.1) {
        return false;
    }
    if match_symbol(query, by, matching, second.0, second.1) {
        return true;
    }
    matching[place] = before;
    false
}

// Matches a cell with the first of the same field that agrees.
fn match_cell(query: &Query, by: &Query, cell: Cell, matching: &mut [Option<u32>]) -> bool
    ensures { MatchBool result (matched_cell query.now by.now cell matching.old ≡ Some matching.new)
        (matched_cell query.now by.now cell matching.old ≡ None) }
{
    for other in query.cells.as_slice() {
        if match_cells(query, by, cell, *other, matching) {
            return true;
        }
    }
    false
}

// Matches two cells of one field.
fn match_cells(
    query: &Query,
    by: &Query,
    cell: Cell,
    other: Cell,
    matching: &mut [Option<u32>],
) -> bool
    ensures { MatchBool result
        ((if other.field.0 == cell.field.0 then matched_all query.now by.now ((cell.base, other.base) ∷ (cell.value, other.value) ∷ []) matching.old else None) ≡ Some matching.new)
        (((if other.field.0 == cell.field.0 then matched_all query.now by.now ((cell.base, other.base) ∷ (cell.value, other.value) ∷ []) matching.old else None) ≡ None)
        × (matching.new ≡ matching.old)) }
{
    if other.field.0 == cell.field.0 {
        match_pair(
            query,
            by,
            matching,
            (cell.base, other.base),
            (cell.value, other.value),
        )
    } else {
        false
    }
}

// Matches an element with the first that agrees.
fn match_element(query: &Query, by: &Query, element: Element, matching: &mut [Option<u32>]) -> bool
    ensures { MatchBool result (matched_element query.now by.now element matching.old ≡ Some matching.new)
        (matched_element query.now by.now element matching.old ≡ None) }
{
    match_element_in(query, by, element, query.elems.as_slice(), matching)
}

// Matches an element with the first of these that agrees.
fn match_element_in(
    query: &Query,
    by: &Query,
    element: Element,
    others: &[Element],
    matching: &mut [Option<u32>],
) -> bool
    ensures { MatchBool result (first_some (λ d. matched_all query.now by.now ((element.array, d.array) ∷ (element.value, d.value) ∷ []) matching.old) others.now ≡ Some matching.new)
        (first_some (λ d. matched_all query.now by.now ((element.array, d.array) ∷ (element.value, d.value) ∷ []) matching.old) others.now ≡ None) }
{
    for other in others {
        if match_elements(query, by, element, *other, matching) {
            return true;
        }
    }
    false
}

// Matches two elements.
fn match_elements(
    query: &Query,
    by: &Query,
    element: Element,
    other: Element,
    matching: &mut [Option<u32>],
) -> bool
    ensures { MatchBool result (matched_all query.now by.now ((element.array, other.array) ∷ (element.value, other.value) ∷ []) matching.old ≡ Some matching.new)
        ((matched_all query.now by.now ((element.array, other.array) ∷ (element.value, other.value) ∷ []) matching.old ≡ None) × (matching.new ≡ matching.old)) }
{
    match_pair(
        query,
        by,
        matching,
        (element.array, other.array),
        (element.value, other.value),
    )
}

// Matches the cells.
fn match_all_cells(query: &Query, by: &Query, matching: &mut [Option<u32>]) -> bool
    ensures { MatchBool result (matched_in_turn (matched_cell query.now by.now) by.now.cells matching.old ≡ Some matching.new)
        (matched_in_turn (matched_cell query.now by.now) by.now.cells matching.old ≡ None) }
{
    for cell in by.cells.as_slice() {
        if !match_cell(query, by, *cell, matching) {
            return false;
        }
    }
    true
}

// Matches the elements.
fn match_all_elements(query: &Query, by: &Query, matching: &mut [Option<u32>]) -> bool
    ensures { MatchBool result (matched_in_turn (matched_element query.now by.now) by.now.elems matching.old ≡ Some matching.new)
        (matched_in_turn (matched_element query.now by.now) by.now.elems matching.old ≡ None) }
{
    for element in by.elems.as_slice() {
        if !match_element(query, by, *element, matching) {
            return false;
        }
    }
    true
}

// Whether a symbol of the stronger query allows no more than one of the weaker.
#[tactic(auto, using(crate::proofs::Turning::in_nothing))]
fn is_narrower(query: &Query, by: &Query, t: u32, s: usize) -> bool
    ensures { result ≡ narrower query.now by.now t s }
{
    match query.syms.get(t as usize) {
        Some(Sym::Ref { null, sites }) => match by.syms.get(s) {
            Some(
                Sym::Ref {
                    null: flag,
                    sites: others,
                },
            ) => sites.is_subset(others) && (!*null || *flag),
            Some(Sym::Int) => is_empty(sites) && !*null,
            Some(Sym::Carry) => is_empty(sites) && !*null,
            None => is_empty(sites) && !*null,
        },
        Some(Sym::Int) => true,
        Some(Sym::Carry) => true,
        None => true,
    }
}

// Whether each matched symbol of the stronger query allows no more than its partner.
fn are_narrower(query: &Query, by: &Query, matching: &[Option<u32>]) -> bool
    ensures { result ≡ narrower_from query.now by.now 0 matching.now }
{
    for s in 0..matching.len() {
        if let Some(t) = matching[s] {
            if !is_narrower(query, by, t, s) {
                return false;
            }
        }
    }
    true
}

// Whether two symbols can't be one value: no site is in both from-sets, and not both may be null.
fn are_apart(query: &Query, s: u32, u: u32) -> bool
    ensures { result ≡ apart query.now s u }
{
    match query.syms.get(s as usize) {
        Some(Sym::Ref { null, sites }) => match query.syms.get(u as usize) {
            Some(
                Sym::Ref {
                    null: flag,
                    sites: others,
                },
            ) => sites.is_disjoint(others) && !(*null && *flag),
            Some(Sym::Int) => shares_nothing(sites),
            Some(Sym::Carry) => shares_nothing(sites),
            None => shares_nothing(sites),
        },
        Some(Sym::Int) => true,
        Some(Sym::Carry) => true,
        None => true,
    }
}

// Yes: no site is in the empty set.
#[tactic(auto, using(crate::proofs::Turning::none_in_nothing))]
fn shares_nothing(sites: &Sites) -> bool
    ensures { result ≡ list_all (λ a. not (has [] a)) sites.now }
{
    let _ = sites;
    true
}

// Whether there is a difference of two symbols, in either order.
fn has_difference(query: &Query, s: u32, u: u32) -> bool
    ensures { result ≡ has_pair query.now s u }
{
    query.diffs.as_slice().iter().any(|pair| (pair.0 == s && pair.1 == u)
        || (pair.0 == u && pair.1 == s))
}

// Whether the partners of two symbols differ: by a difference, or by their from-sets.
fn differ(query: &Query, matching: &[Option<u32>], left: u32, right: u32) -> bool
    ensures { result ≡ differ_by query.now (slice_get matching.now left) (slice_get matching.now right) }
{
    match (matching.get(left as usize), matching.get(right as usize)) {
        (Some(Some(s)), Some(Some(u))) => has_difference(query, *s, *u) || are_apart(query, *s, *u),
        _ => false,
    }
}

// Whether the matched symbols of the stronger query allow no more, and its differences hold.
fn is_as_strong(query: &Query, by: &Query, matching: &[Option<u32>]) -> bool
    ensures { result ≡ as_strong query.now by.now matching.now }
{
    are_narrower(query, by, matching) && all_differ(query, by, matching)
}

// Whether the differences of the weaker query hold of the partners.
fn all_differ(query: &Query, by: &Query, matching: &[Option<u32>]) -> bool
    ensures { result ≡ list_all (λ d. differ_by query.now (slice_get matching.now d.0) (slice_get matching.now d.1)) by.now.diffs }
{
    by.diffs
        .as_slice()
        .iter()
        .all(|pair| differ(query, matching, pair.0, pair.1))
}
