// The refuter: division, substitution, bounds, elimination.
ghost use Rattle.std.specs.Prelude.{◌≡◌, All, IfOk, IsTrue};
ghost use Rattle.th_linear.specs.Laws.{IsFact};
ghost use Rattle.th_pure.specs.Outcomes.{and_then};
ghost use Rattle.th_pure.specs.Substitution.{solved};
ghost use Rattle.th_pure.specs.Refutation.{decided, refutation, is_refuted, refuted};
ghost use Rattle.th_pure.specs.Solutions.{HaveNoSolution};

use crate::Range;
use crate::bounds::{inequalities, push_ranges, variables};
use crate::division::divide_all;
use crate::elimination::eliminate_all;
use crate::facts::{FactList, Outcome};
use crate::laws::refuted_have_no_solution;
use crate::substitution::solve;
use std::alloc::{AllocError, Global};
use th_linear::Lin;

/// Whether the facts are refuted: yes only where no integers in their ranges satisfy them all. No
/// says nothing. Of several ranges of a variable the first counts; a variable without one is free.
pub fn refutes(alloc: Global, facts: &[Lin], ranges: &[Range]) -> Result<bool, AllocError>
    ensures value { IfOk result (λ answer. answer ≡ refuted facts.now ranges.now) }
    ensures sound { IfOk result (λ answer. IsTrue answer → HaveNoSolution facts.now ranges.now) }
{
    // For the proof alone: that yes is right.
    refuted_have_no_solution();
    let outcome = outcome_of(alloc, facts, ranges)?;
    Ok(is_refuted(outcome))
}

// Whether the outcome is a refutation.
fn is_refuted(outcome: Outcome) -> bool
    ensures { result ≡ is_refuted outcome }
{
    match outcome {
        Outcome::Refuted => true,
        Outcome::Undecided => false,
        Outcome::Remaining(_) => false,
    }
}

// What the steps make of the facts.
fn outcome_of(alloc: Global, facts: &[Lin], ranges: &[Range]) -> Result<Outcome, AllocError>
    ensures value { IfOk result (λ outcome. outcome ≡ refutation facts.now ranges.now) }
    ensures facts { IfOk result (λ _. All IsFact facts.now) }
{
    let copied = copy_all(alloc, facts)?;
    let divided = divide_all(alloc, copied)?;
    match divided {
        Outcome::Remaining(left) => solve_and_decide(alloc, left, ranges),
        other => Ok(other),
    }
}

// The facts solved for variables, and decided by elimination.
fn solve_and_decide(alloc: Global, facts: FactList, ranges: &[Range]) -> Result<Outcome, AllocError>
    ensures { IfOk result
        (λ outcome. outcome ≡ and_then (solved ranges.now facts) (λ gs. decided ranges.now gs)) }
{
    match solve(alloc, facts, ranges)? {
        Outcome::Remaining(left) => decide(alloc, left, ranges),
        other => Ok(other),
    }
}

// The facts as inequalities with the ranges of their variables, and these eliminated.
fn decide(alloc: Global, facts: FactList, ranges: &[Range]) -> Result<Outcome, AllocError>
    ensures { IfOk result (λ outcome. outcome ≡ decided ranges.now facts) }
{
    let mut bounds = inequalities(alloc, facts)?;
    let names = variables(alloc, bounds.as_slice())?;
    push_ranges(alloc, &mut bounds, ranges, names.as_slice())?;
    eliminate_all(alloc, bounds, names.as_slice())
}

// A copy of each fact.
fn copy_all(alloc: Global, facts: &[Lin]) -> Result<FactList, AllocError>
    ensures equal { IfOk result (λ list. list ≡ facts.now) }
    ensures facts { IfOk result (λ _. All IsFact facts.now) }
{
    let mut list = FactList::with_capacity(alloc, facts.len())?;
    for fact in facts {
        list.push(fact.copy(alloc)?)?;
    }
    Ok(list)
}
