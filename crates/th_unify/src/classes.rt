// Which symbols stand for one value: a table that names for each symbol the least that is one with it.
// To join two classes is one pass over the table, so a look-up is one read.
ghost use Rattle.std.specs.Prelude.{◌≡◌, ◌≢◌, ◌<◌, ◌^◌, ◌↔◌, ◌==◌, map, length, IfOk, IsTrue, MatchOption, if◌then◌else◌};
ghost use Rattle.th_linear.specs.Gathered.{name_of};
ghost use Rattle.th_query.specs.FromSets.{upto};
ghost use Rattle.th_query.specs.Unified.{AreLeast};
ghost use Rattle.th_steps.specs.Named.{AreKnown};
ghost use Rattle.th_unify.specs.Classes.{AreNamedBelow, IsTable, IsUnequal, AllAgree, put_for as put_for_of, joined};
ghost use Rattle.th_unify.specs.Classes.{Agree, AgreeWith, AgreeFrames, AgreeCell, AgreeCells, Clash, ClashWith, ClashFrames, ClashCell, ClashCells};

use std::alloc::{AllocError, Global};
use th_base::{FieldId, Same};
use th_query::{Cell, Frame, Query};
use th_steps::name;

/// For each symbol of a query the least of those that are one with it, where facts with one key (a
/// frame and a register, a static field, or a base and a field) make their symbols one.
pub fn names_of(alloc: Global, query: &Query) -> Result<Vec<u32>, AllocError>
    requires named { AreKnown query.now }
    requires few { length query.now.syms < 2 ^ 31 }
    ensures { IfOk result (λ names. AreLeast query.now names.items) }
{
    let mut names = own_names(alloc, query.syms.len())?;
    join_all(query, names.as_mut_slice());
    Ok(names)
}

// Each symbol stands for itself.
fn own_names(alloc: Global, count: usize) -> Result<Vec<u32>, AllocError>
    requires { count < 2 ^ 31 }
    ensures { IfOk result (λ names. names.items ≡ upto count) }
{
    let mut names = Vec::new(alloc);
    for symbol in 0..count {
        names.push(symbol as u32)?;
    }
    Ok(names)
}

// Joins symbols of facts with one key until there are no two that aren't one.
fn join_all(query: &Query, names: &mut [u32])
    requires named { AreNamedBelow query.now (length names.old) }
    requires count { length names.old ≡ length query.now.syms }
    requires table { IsTable query.now names.old }
    ensures { AreLeast query.now names.new }
{
    while let Some((s, t)) = clash(query, names) {
        join(names, s, t);
    }
}

// Makes the classes of two symbols one: the lesser of their names stands for both.
fn join(names: &mut [u32], s: u32, t: u32)
    ensures { names.new ≡ joined names.old s t }
{
    let first = name(names, s);
    let second = name(names, t);
    replace(names, first.max(second), first.min(second));
}

// Puts one number in the place of another.
fn replace(names: &mut [u32], old: u32, new: u32)
    ensures { names.new ≡ map (put_for_of old new) names.old }
{
    for name in names.iter_mut() {
        *name = put_for(old, new, *name);
    }
}

// The new number where x is the old one, else x.
fn put_for(old: u32, new: u32, x: u32) -> u32
    ensures { result ≡ put_for_of old new x }
{
    if x == old { new } else { x }
}

// Two symbols of facts with one key that aren't one in the table.
fn clash(query: &Query, names: &[u32]) -> Option<(u32, u32)>
    requires { IsTable query.now names.now }
    ensures { MatchOption result (AllAgree query.now (name_of names.now)) (λ p. IsUnequal query.now names.now p.0 p.1) }
{
    if let Some(found) = clash_in_frames(query.frames.as_slice(), names) {
        return Some(found);
    }
    if let Some(found) = clash_in(query.statics.as_slice(), names) {
        return Some(found);
    }
    clash_in_cells(query.cells.as_slice(), names)
}

// Two symbols of one frame's registers that clash.
fn clash_in_frames(frames: &[Frame], names: &[u32]) -> Option<(u32, u32)>
    ensures { MatchOption result (AgreeFrames frames.now (name_of names.now)) (λ p. ClashFrames frames.now (name_of names.now) p.0 p.1) }
{
    for frame in frames {
        let found = clash_in(frame.regs.as_slice(), names);
        if let Some((s, t)) = found {
            return Some((s, t));
        }
    }
    None
}

// Two symbols of facts with one key that clash.
fn clash_in<K: Same>(pairs: &[(K, u32)], names: &[u32]) -> Option<(u32, u32)>
    ensures { MatchOption result (Agree pairs.now (name_of names.now)) (λ p. Clash pairs.now (name_of names.now) p.0 p.1) }
{
    for pair in pairs {
        if let Some(t) = other_of(&pair.0, name(names, pair.1), pairs, names) {
            return Some((pair.1, t));
        }
    }
    None
}

// A symbol of a fact with the key for which not this number stands.
fn other_of<K: Same>(key: &K, number: u32, pairs: &[(K, u32)], names: &[u32]) -> Option<u32>
    ensures { MatchOption result (AgreeWith key.now number pairs.now (name_of names.now)) (λ t. ClashWith key.now number pairs.now (name_of names.now) t) }
{
    for pair in pairs {
        if is_other(pair, key, number, names) {
            return Some(pair.1);
        }
    }
    None
}

// Whether a fact has the key, and another number stands for its symbol.
fn is_other<K: Same>(pair: &(K, u32), key: &K, number: u32, names: &[u32]) -> bool
    ensures { IsTrue result ↔ ((pair.now.0 ≡ key.now) × (name_of names.now pair.now.1 ≢ number)) }
{
    pair.0.same(key) && name(names, pair.1) != number
}

// Two values of cells of one base and field that clash.
fn clash_in_cells(cells: &[Cell], names: &[u32]) -> Option<(u32, u32)>
    ensures { MatchOption result (AgreeCells cells.now (name_of names.now)) (λ p. ClashCells cells.now (name_of names.now) p.0 p.1) }
{
    for cell in cells {
        if let Some(t) = other_value(*cell, cells, names) {
            return Some((cell.value, t));
        }
    }
    None
}

// The value of a cell of the same base and field that isn't one with this cell's.
fn other_value(cell: Cell, cells: &[Cell], names: &[u32]) -> Option<u32>
    ensures { MatchOption result (AgreeCell cell cells.now (name_of names.now)) (λ t. ClashCell cell cells.now (name_of names.now) t) }
{
    let base = name(names, cell.base);
    let value = name(names, cell.value);
    for other in cells {
        if is_clash(*other, cell.field, base, value, names) {
            return Some(other.value);
        }
    }
    None
}

// Whether a cell has this base and field, and another value.
fn is_clash(cell: Cell, field: FieldId, base: u32, value: u32, names: &[u32]) -> bool
    ensures { IsTrue result ↔ ((cell.field ≡ field) × (name_of names.now cell.base ≡ base) × (name_of names.now cell.value ≢ value)) }
{
    cell.field.same(&field) && name(names, cell.base) == base && name(names, cell.value) != value
}
