// The points-to facts of a program.
ghost use Rattle.std.specs.Prelude.{◌≡◌, ◌<◌, ◌≤◌, ◌^◌, IfOk, OnOk};
ghost use Rattle.th_ir.specs.Plan.{pair_count};
ghost use Rattle.th_ir.specs.Rules.{LeastFacts};
ghost use Rattle.th_ir.specs.WellFormed.{IsWellFormed};
ghost use Rattle.th_ir.specs.declared.facts.Facts.{Facts as FactLists};
ghost use Rattle.th_ir.specs.declared.plan.TheConstants.{MOST_PAIRS};
ghost use Rattle.th_points_to.specs.declared.solution.Analysis.TheVariants.{Least, TooManyPairs};

use crate::begin::begin;
use crate::filters::filters_of;
use crate::layout::layout_of;
use crate::listing::list;
use crate::registers::register_count;
use crate::rounds::{State, rounds};
use crate::tables::tables_of;
use std::alloc::{AllocError, Global};
use th_base::Hierarchy;
use th_ir::{Facts, MOST_PAIRS, RegProgram};

/// What an analysis gives.
#[derive(Debug, Drop)]
pub enum Analysis {
    /// The least facts.
    Least(Facts),
    /// The least facts have more than `MOST_PAIRS` pairs of a place and a site.
    TooManyPairs,
}

// How many nodes or sites are numbered.
const MOST_NUMBERED: usize = 4_294_967_296;

// The count, where so many are numbered.
fn numbered(count: usize) -> Result<usize, AllocError>
    ensures same { IfOk result (λ answer. answer ≡ count) }
    ensures few { OnOk result (count ≤ 2 ^ 32) }
{
    if count > MOST_NUMBERED {
        return Err(AllocError);
    }
    Ok(count)
}

/// The least points-to facts of a program with its call graph, or that they have more than `MOST_PAIRS`
/// pairs: the sizes of all sets of registers, static fields, fields and elements together. It stops as
/// soon as its sets would hold more. docs/POINTS-TO.md has the algorithm and its cost.
///
/// Where there are more nodes or sites than numbers, it answers want of memory.
pub fn analyse(
    alloc: Global,
    program: &RegProgram,
    hierarchy: &Hierarchy,
) -> Result<Analysis, AllocError>
    ensures facts { IsWellFormed hierarchy.now program.now → IfOk result (λ analysis. (facts : FactLists) → analysis ≡ Least facts → LeastFacts hierarchy.now program.now facts) }
    ensures within { IsWellFormed hierarchy.now program.now → IfOk result (λ analysis. (facts : FactLists) → analysis ≡ Least facts → pair_count facts ≤ MOST_PAIRS) }
    ensures over { IsWellFormed hierarchy.now program.now → IfOk result (λ analysis. analysis ≡ TooManyPairs → (facts : FactLists) → LeastFacts hierarchy.now program.now facts → MOST_PAIRS < pair_count facts) }
{
    numbered(program.nodes.len())?;
    let sites = numbered(program.sites.len())?;
    let registers = register_count(alloc, program)?;
    let layout = layout_of(registers, hierarchy.classes(), sites)?;
    let (filters, numbers) = filters_of(alloc, hierarchy, program)?;
    let tables = tables_of(alloc, layout, program, hierarchy, numbers)?;
    let mut state = begin(alloc, layout, program, filters)?;
    let limit = MOST_PAIRS as u64;
    let done = rounds(
        &mut state, alloc, layout, program, hierarchy, &tables, limit,
    )?;
    // For the proof alone: no cell has two sets.
    let _cells = state.found.cells.len();
    if !done {
        return Ok(Analysis::TooManyPairs);
    }
    let State { found, .. } = state;
    let facts = list(alloc, layout, found)?;
    Ok(Analysis::Least(facts))
}
