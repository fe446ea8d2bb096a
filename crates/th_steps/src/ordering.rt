// The order in which the symbols of a query are first mentioned.
ghost use Rattle.std.specs.Prelude.{◌≡◌, ◌==◌, [], ◌∷◌, ◌++◌, filter, flat_map, length, map, ◌<◌, ◌^◌, IfOk, OnOk, if◌then◌else◌};
ghost use Rattle.std.specs.List.{list_any};
ghost use Rattle.th_query.specs.FromSets.{upto};
ghost use Rattle.th_query.specs.Numbered.{mentioned, next_of, followed, order_of};
ghost use Rattle.th_query.specs.Symbols.{is_left as is_left_of, is_named as is_named_of};

use crate::limits::is_named;
use crate::mentioning::{is_mentioned, mention};
use std::alloc::{AllocError, Global};
use th_base::{FieldId, Reg};
use th_linear::Lin;
use th_query::{Cell, Element, Frame, Query, Sym};

// The symbols of registers by frame, and of static fields; what they lead to; then what is left.
#[tactic(auto, using(crate::proofs::Mentioned::order_whole))]
pub(crate) fn order(alloc: Global, query: &Query) -> Result<Vec<u32>, AllocError>
    requires { length query.now.syms < 2 ^ 31 }
    ensures { IfOk result (λ order. order.items ≡ order_of query.now) }
{
    let mut order = Vec::new(alloc);
    mention_frames(query.frames.as_slice(), &mut order)?;
    mention_statics(query.statics.as_slice(), &mut order)?;
    follow(query, &mut order)?;
    mention_left(query, &mut order)?;
    Ok(order)
}

// Mentions the symbols of the registers of frames.
fn mention_frames(frames: &[Frame], order: &mut Vec<u32>) -> Result<(), AllocError>
    ensures { OnOk result (order.new.items ≡ mentioned order.old.items (flat_map (λ f. map (λ x. x.1) f.regs) frames.now)) }
{
    for frame in frames {
        mention_registers(frame.regs.as_slice(), order)?;
    }
    Ok(())
}

// Mentions the symbols of registers.
fn mention_registers(regs: &[(Reg, u32)], order: &mut Vec<u32>) -> Result<(), AllocError>
    ensures { OnOk result (order.new.items ≡ mentioned order.old.items (map (λ x. x.1) regs.now)) }
{
    for pair in regs {
        mention(order, pair.1)?;
    }
    Ok(())
}

// Mentions the symbols of static fields.
fn mention_statics(statics: &[(FieldId, u32)], order: &mut Vec<u32>) -> Result<(), AllocError>
    ensures { OnOk result (order.new.items ≡ mentioned order.old.items (map (λ x. x.1) statics.now)) }
{
    for pair in statics {
        mention(order, pair.1)?;
    }
    Ok(())
}

// Mentions what each symbol leads to, in the order itself.
fn follow(query: &Query, order: &mut Vec<u32>) -> Result<(), AllocError>
    ensures { OnOk result (order.new.items ≡ followed query.now (length query.now.syms) 0 order.old.items) }
{
    for k in 0..query.syms.len() {
        if k >= order.len() {
            return Ok(());
        }
        let symbol = order[k];
        mention_next(query, symbol, order)?;
    }
    Ok(())
}

// Mentions what a symbol leads to.
#[tactic(auto, using(crate::proofs::Mentioned::next_whole))]
fn mention_next(query: &Query, symbol: u32, order: &mut Vec<u32>) -> Result<(), AllocError>
    ensures { OnOk result (order.new.items ≡ mentioned order.old.items (next_of query.now symbol)) }
{
    mention_cells(query.cells.as_slice(), symbol, order)?;
    mention_elements(query.elems.as_slice(), symbol, order)?;
    Ok(())
}

// Mentions the values of the cells of a symbol.
fn mention_cells(cells: &[Cell], symbol: u32, order: &mut Vec<u32>) -> Result<(), AllocError>
    ensures { OnOk result (order.new.items ≡ mentioned order.old.items (map (λ c. c.value) (filter (λ c. c.base == symbol) cells.now))) }
{
    for cell in cells {
        mention_if(cell.base == symbol, cell.value, order)?;
    }
    Ok(())
}

// Mentions the values of the elements of a symbol.
fn mention_elements(elems: &[Element], symbol: u32, order: &mut Vec<u32>) -> Result<(), AllocError>
    ensures { OnOk result (order.new.items ≡ mentioned order.old.items (map (λ e. e.value) (filter (λ e. e.array == symbol) elems.now))) }
{
    for element in elems {
        mention_if(element.array == symbol, element.value, order)?;
    }
    Ok(())
}

// Mentions a symbol, or does nothing.
fn mention_if(is_meant: bool, symbol: u32, order: &mut Vec<u32>) -> Result<(), AllocError>
    ensures { OnOk result (order.new.items ≡ mentioned order.old.items (if is_meant then symbol ∷ [] else [])) }
{
    if is_meant {
        mention(order, symbol)
    } else {
        Ok(())
    }
}

// Mentions the other symbols that count, by number.
fn mention_left(query: &Query, order: &mut Vec<u32>) -> Result<(), AllocError>
    requires { length query.now.syms < 2 ^ 31 }
    ensures { OnOk result (order.new.items ≡ mentioned order.old.items (filter (is_left_of query.now) (upto (length query.now.syms)))) }
{
    for symbol in 0..query.syms.len() {
        mention_one_left(query, symbol as u32, order)?;
    }
    Ok(())
}

// Mentions a symbol that counts. Whether it does is asked only where it isn't there.
fn mention_one_left(query: &Query, symbol: u32, order: &mut Vec<u32>) -> Result<(), AllocError>
    ensures { OnOk result (order.new.items ≡ mentioned order.old.items (filter (is_left_of query.now) (symbol ∷ []))) }
{
    if !is_mentioned(order.as_slice(), symbol) && is_left(query, symbol) {
        order.push(symbol)?;
    }
    Ok(())
}

// Whether a symbol counts: something names it, or it is a number in a linear fact.
fn is_left(query: &Query, symbol: u32) -> bool
    ensures { result ≡ is_left_of query.now symbol }
{
    match query.syms.get(symbol as usize) {
        Some(Sym::Ref { null: _, sites: _ }) => names(query, symbol),
        Some(Sym::Int) => names(query, symbol) || in_fact(query.facts.as_slice(), symbol),
        Some(Sym::Carry) => names(query, symbol) || in_fact(query.facts.as_slice(), symbol),
        None => false,
    }
}

// Whether a register, a static field, a cell or an element names the symbol.
fn names(query: &Query, symbol: u32) -> bool
    ensures { result ≡ is_named_of query.now symbol }
{
    is_named(
        query.frames.as_slice(),
        query.statics.as_slice(),
        query.cells.as_slice(),
        query.elems.as_slice(),
        symbol,
    )
}

// Whether a linear fact names the symbol.
fn in_fact(facts: &[Lin], symbol: u32) -> bool
    ensures { result ≡ list_any (λ f. list_any (λ t. t.0 == symbol) f.coefs) facts.now }
{
    facts
        .iter()
        .any(|fact| in_terms(fact.coefs.as_slice(), symbol))
}

// Whether a term names the symbol.
fn in_terms(terms: &[(u32, i128)], symbol: u32) -> bool
    ensures { result ≡ list_any (λ t. t.0 == symbol) terms.now }
{
    terms.iter().any(|term| term.0 == symbol)
}
