// The query with its symbols renamed, each key once, and each symbol narrowed by those it stands for.
ghost use Rattle.std.specs.Prelude.{◌≡◌, ◌<◌, ◌^◌, length, IfOk, MatchOption};
ghost use Rattle.th_query.specs.Unified.{IsUnified, firsts, unified_by as unified_by_of};
ghost use Rattle.th_steps.specs.Named.{AreKnown};

use crate::classes::names_of;
use crate::narrowing::narrowed;
use std::alloc::{AllocError, Global};
use th_base::{FieldId, Reg, Seq};
use th_query::{Cell, Frame, Query, Sym};
use th_steps::{Alike, Renaming, Turn, keep_firsts, name, rename_facts, turn_all, turn_seq};

/// The query with its symbols unified: where two facts have one key (a frame and a register, a static
/// field, or a base and a field), their symbols are one, and the least number stands for them. Each key
/// then has one fact, and each symbol is narrowed by those that it stands for. A linear fact in which a
/// magnitude then reaches 2^62 goes.
pub fn unify(alloc: Global, query: Query) -> Result<Query, AllocError>
    requires few { length query.syms < 2 ^ 31 }
    requires named { AreKnown query }
    ensures { IfOk result (λ made. IsUnified query made) }
{
    let names = names_of(alloc, &query)?;
    unified_by(alloc, Renaming { names }, query)
}

// The query with these names.
fn unified_by(alloc: Global, renaming: Renaming, query: Query) -> Result<Query, AllocError>
    ensures { IfOk result (λ made. made ≡ unified_by_of renaming.names.items query) }
{
    let narrowed = narrowed(alloc, renaming.names.as_slice(), &query)?;
    let facts = rename_facts(alloc, renaming.names.as_slice(), query.facts.as_slice())?;
    let Query {
        frames,
        statics,
        cells,
        elems,
        syms,
        diffs,
        facts: _,
    } = query;
    let uniting = Uniting { renaming };
    let frames = turn_all(alloc, frames.into_vec(), &uniting)?;
    Ok(Query {
        frames: Seq::from_vec(frames),
        statics: first_of::<(FieldId, u32), ByStatic>(turn_seq(statics, &uniting.renaming)),
        cells: first_of::<Cell, ByCell>(turn_seq(cells, &uniting.renaming)),
        elems: turn_seq(elems, &uniting.renaming),
        syms: narrowed_or(narrowed, syms),
        diffs: turn_seq(diffs, &uniting),
        facts: Seq::from_vec(facts),
    })
}

// The narrowed symbols, where there are any, else the symbols as they are.
fn narrowed_or(narrowed: Option<Vec<Sym>>, syms: Seq<Sym>) -> Seq<Sym>
    ensures { MatchOption narrowed (result ≡ syms) (λ all. result ≡ all.items) }
{
    match narrowed {
        Some(all) => Seq::from_vec(all),
        None => syms,
    }
}

// Of items that are alike the first.
fn first_of<T: Copy + Drop, A: Alike<T>>(items: Seq<T>) -> Seq<T>
    ensures { result ≡ firsts A.alike items }
{
    let mut items = items.into_vec();
    keep_firsts::<T, A>(&mut items);
    Seq::from_vec(items)
}

// Facts of one register.
struct ByRegister;

impl Alike<(Reg, u32)> for ByRegister {
    ghost use Rattle.th_query.specs.Unified.{one_register};

    ghost alike = { one_register };

    fn are_alike(item: (Reg, u32), other: (Reg, u32)) -> bool {
        item.0.0 == other.0.0
    }
}

// Facts of one static field.
struct ByStatic;

impl Alike<(FieldId, u32)> for ByStatic {
    ghost use Rattle.th_query.specs.Unified.{one_static};

    ghost alike = { one_static };

    fn are_alike(item: (FieldId, u32), other: (FieldId, u32)) -> bool {
        item.0.0 == other.0.0
    }
}

// Cells of one base and field.
struct ByCell;

impl Alike<Cell> for ByCell {
    ghost use Rattle.th_query.specs.Unified.{one_cell};

    ghost alike = { one_cell };

    fn are_alike(item: Cell, other: Cell) -> bool {
        item.base == other.base && item.field.0 == other.field.0
    }
}

// Renames a difference in its order, and the registers of a frame, of each of which one fact stays.
#[derive(Drop)]
struct Uniting {
    renaming: Renaming,
}

impl Turn<(u32, u32)> for Uniting {
    ghost use Rattle.th_query.specs.Unified.{renamed_pair};

    ghost turned = { λ u d. renamed_pair u.renaming.names.items d };

    fn turn(&self, item: (u32, u32)) -> (u32, u32) {
        let names = self.renaming.names.as_slice();
        (name(names, item.0), name(names, item.1))
    }
}

impl Turn<Frame> for Uniting {
    ghost use Rattle.th_query.specs.Unified.{unified_frame};

    ghost turned = { λ u f. unified_frame u.renaming.names.items f };

    fn turn(&self, item: Frame) -> Frame {
        let Frame { node, regs } = item;
        let regs = turn_seq::<(Reg, u32), Renaming>(regs, &self.renaming);
        Frame {
            node,
            regs: first_of::<(Reg, u32), ByRegister>(regs),
        }
    }
}
