// Whether the initial state may meet a query: each static field then holds its constant, else 0 or null.
ghost use Rattle.std.specs.Prelude.{◌≡◌, ◌<◌, ◌^◌, length, IfOk, OnOk};
ghost use Rattle.std.specs.Option.{option_map};
ghost use Rattle.th_query.specs.Initial.{admits_initial_of, with_value, with_values, constant_symbol as constant_symbol_of, number_fact as number_fact_of, number_or};
ghost use Rattle.th_query.specs.Initial.{int_constant as int_constant_of, string_constant as string_constant_of};
ghost use Rattle.th_query.specs.Symbols.{symbol_at};

use crate::contradiction::is_contradiction;
use std::alloc::{AllocError, Global};
use th_base::{FieldId, IdSet, SiteId, TryCopy};
use th_ir::RegProgram;
use th_linear::{Lin, Rel};
use th_query::{Query, Sites, Sym};

/// Whether the initial state may meet a query: it is idle, says nothing of objects, and is no
/// contradiction with the value that each static field has from the start.
#[tactic(auto, using(crate::proofs::Holding::as_many_with_all))]
pub fn admits_initial(
    alloc: Global,
    program: &RegProgram,
    query: &Query,
) -> Result<bool, AllocError>
    requires { length query.now.syms < 2 ^ 31 }
    ensures { IfOk result (λ answer. answer ≡ admits_initial_of program.now query.now) }
{
    if !query.frames.is_empty() || !query.cells.is_empty() || !query.elems.is_empty() {
        return Ok(false);
    }
    let first = at_first(alloc, program, query)?;
    let refuted = is_contradiction(alloc, &first)?;
    Ok(!refuted)
}

// The query with the value of each static field in the initial state.
fn at_first(alloc: Global, program: &RegProgram, query: &Query) -> Result<Query, AllocError>
    ensures { IfOk result (λ first. first ≡ with_values program.now query.now.statics query.now) }
{
    let mut first = query.try_copy(alloc)?;
    for pair in query.statics.as_slice() {
        set_value(alloc, program, pair.0, pair.1, &mut first)?;
    }
    Ok(first)
}

// Gives a symbol the value that a static field has in the initial state.
fn set_value(
    alloc: Global,
    program: &RegProgram,
    field: FieldId,
    symbol: u32,
    query: &mut Query,
) -> Result<(), AllocError>
    ensures { OnOk result (query.new ≡ with_value program.now field symbol (symbol_at query.old symbol) query.old) }
{
    match query.syms.get(symbol as usize) {
        Some(Sym::Ref { null, sites }) => {
            let held = constant_symbol(alloc, string_constant(program, field), *null, sites)?;
            query.syms.set(symbol as usize, held);
        }
        Some(Sym::Int) => {
            let fact = number_fact(alloc, symbol, int_constant(program, field))?;
            query.facts.push(fact)?;
        }
        Some(Sym::Carry) => {}
        None => {}
    }
    Ok(())
}

// What a symbol of a field with this String constant may still stand for; without one only null.
fn constant_symbol(
    alloc: Global,
    constant: Option<SiteId>,
    null: bool,
    sites: &Sites,
) -> Result<Sym, AllocError>
    ensures { IfOk result (λ held. held ≡ constant_symbol_of (option_map (λ s. s.0) constant) null sites.now) }
{
    match constant {
        Some(site) => {
            let sites = sites.only(alloc, site.0)?;
            Ok(Sym::Ref { null: false, sites })
        }
        None => Ok(Sym::Ref {
            null,
            sites: Sites::of(IdSet::new(alloc)),
        }),
    }
}

// That a symbol has a number.
fn number_fact(alloc: Global, symbol: u32, number: i32) -> Result<Lin, AllocError>
    ensures { IfOk result (λ fact. fact ≡ number_fact_of symbol number) }
{
    let mut coefs = Vec::new(alloc);
    coefs.push((symbol, 1))?;
    Ok(Lin {
        coefs,
        constant: -(number as i128),
        rel: Rel::Eq,
    })
}

// The int that a static field holds from the start: its constant, else 0.
fn int_constant(program: &RegProgram, field: FieldId) -> i32
    ensures { result ≡ number_or (int_constant_of program.now field) }
{
    for pair in program.ints.as_slice() {
        if pair.0.0 == field.0 {
            return pair.1;
        }
    }
    0
}

// The site of the String constant that a static field holds from the start.
fn string_constant(program: &RegProgram, field: FieldId) -> Option<SiteId>
    ensures { option_map (λ s. s.0) result ≡ string_constant_of program.now field }
{
    for pair in program.strings.as_slice() {
        if pair.0.0 == field.0 {
            return Some(pair.1);
        }
    }
    None
}
