// Variables taken out by equations.
ghost use Rattle.std.specs.Prelude.{◌≡◌, ◌<◌, length, Some, None, IfOk, IfNone, IfSome, slice_index_or};
ghost use Rattle.std.specs.Int.RustNames.{unsigned_abs};
ghost use Rattle.th_linear.specs.Forms.{Form, coef};
ghost use Rattle.th_linear.specs.Summed.{substituted};
ghost use Rattle.th_pure.specs.Outcomes.{and_then};
ghost use Rattle.th_pure.specs.Division.{divided_all};
ghost use Rattle.th_pure.specs.Substitution.{unit_variable, solved_variable, choice_of, choice_at, IsSolvedAt};
ghost use Rattle.th_pure.specs.Substitution.{taken_out, equations, solved};

use crate::Range;
use crate::bounds::push_range;
use crate::division::divide_all;
use crate::facts::{FactList, Outcome};
use std::alloc::{AllocError, Global};
use th_linear::laws::steps_keep;
use th_linear::{Lin, Rel, substitute};

// Takes variables out while an equation has one with coefficient 1 or -1: the first such equation,
// and its least such variable.
pub(crate) fn solve(alloc: Global, facts: FactList, ranges: &[Range]) -> Result<Outcome, AllocError>
    ensures { IfOk result (λ outcome. outcome ≡ solved ranges.now facts) }
{
    let mut rounds = count_equations(facts.as_slice());
    let mut left = facts;
    while rounds > 0 {
        let place = match choose(left.as_slice()) {
            Some(place) => place,
            None => return Ok(Outcome::Remaining(left)),
        };
        let by = left.remove(place.at);
        push_range(alloc, &mut left, ranges, place.variable)?;
        match take_out(alloc, left, place.variable, &by)? {
            Outcome::Remaining(next) => left = next,
            other => return Ok(other),
        }
        rounds -= 1;
    }
    Ok(Outcome::Remaining(left))
}

// How many facts are equations.
fn count_equations(facts: &[Lin]) -> usize
    ensures { result ≡ equations facts.now }
{
    let mut count = 0;
    for fact in facts {
        match fact.rel {
            Rel::Eq => count += 1,
            Rel::Le => {}
            Rel::Ne => {}
        }
    }
    count
}

// A variable, and the place of an equation that is solved for it.
#[derive(Clone, Copy)]
struct Place {
    at: usize,
    variable: u32,
}

// The first equation with a coefficient 1 or -1, and its least such variable.
fn choose(facts: &[Lin]) -> Option<Place>
    ensures none { IfNone result (choice_of facts.now ≡ None) }
    ensures within { IfSome result (λ p. p.at < length facts.now) }
    ensures choice { IfSome result
        (λ p. (f : Form) → choice_of facts.now ≡ Some (choice_at facts.now p.at p.variable f)) }
    ensures equation { IfSome result (λ p. (f : Form) → (slice_index_or facts.now p.at f).rel ≡ Rel.Eq) }
    ensures unit { IfSome result (λ p. (f : Form) → IsSolvedAt facts.now p.at p.variable f) }
{
    for (at, fact) in facts.iter().enumerate() {
        if let Some(variable) = variable_of(fact) {
            return Some(Place { at, variable });
        }
    }
    // No equation can be solved so.
    None
}

// The variable for which a fact is solved.
fn variable_of(fact: &Lin) -> Option<u32>
    ensures value { result ≡ solved_variable fact.now.rel fact.now.coefs }
    ensures equation { IfSome result (λ _. fact.now.rel ≡ Rel.Eq) }
    ensures unit { IfSome result (λ v. unsigned_abs (coef v fact.now.coefs) ≡ 1) }
{
    match fact.rel {
        Rel::Eq => first_unit(fact.coefs.as_slice()),
        Rel::Le => None,
        Rel::Ne => None,
    }
}

// The first variable with coefficient 1 or -1.
fn first_unit(terms: &[(u32, i128)]) -> Option<u32>
    ensures { result ≡ unit_variable terms.now }
{
    for term in terms {
        if term.1.unsigned_abs() == 1 {
            return Some(term.0);
        }
    }
    // No coefficient is 1 or -1.
    None
}

// The facts with the variable taken out by an equation that has it with coefficient 1 or -1, and
// divided again.
fn take_out(alloc: Global, facts: FactList, variable: u32, by: &Lin) -> Result<Outcome, AllocError>
    requires by { by.now.rel ≡ Rel.Eq }
    requires unit { unsigned_abs (coef variable by.now.coefs) ≡ 1 }
    ensures { IfOk result (λ outcome. outcome ≡ and_then (taken_out by.now variable facts) divided_all) }
{
    match substitute_all(alloc, facts, variable, by)? {
        Outcome::Remaining(left) => divide_all(alloc, left),
        other => Ok(other),
    }
}

// The facts with the variable taken out; undecided where a magnitude of one reaches 2^62.
fn substitute_all(
    alloc: Global,
    facts: FactList,
    variable: u32,
    by: &Lin,
) -> Result<Outcome, AllocError>
    requires by { by.now.rel ≡ Rel.Eq }
    requires unit { unsigned_abs (coef variable by.now.coefs) ≡ 1 }
    ensures { IfOk result (λ outcome. outcome ≡ taken_out by.now variable facts) }
{
    let mut left = FactList::with_capacity(alloc, facts.len())?;
    for fact in facts.into_vec() {
        match substitute_in(alloc, fact, variable, by)? {
            Some(without) => left.push(without)?,
            None => return Ok(Outcome::Undecided),
        }
    }
    Ok(Outcome::Remaining(left))
}

// The fact with the variable taken out; a fact without the variable stays as it is.
fn substitute_in(
    alloc: Global,
    fact: Lin,
    variable: u32,
    by: &Lin,
) -> Result<Option<Lin>, AllocError>
    requires by { by.now.rel ≡ Rel.Eq }
    requires unit { unsigned_abs (coef variable by.now.coefs) ≡ 1 }
    ensures { IfOk result (λ o. o ≡ substituted fact variable by.now) }
{
    if fact.coefficient(variable) == 0 {
        // For the proof alone: that such a fact stays, and the forms of both facts.
        steps_keep();
        let _terms = &fact.coefs;
        let _by_terms = &by.coefs;
        return Ok(Some(fact));
    }
    substitute(alloc, &fact, variable, by)
}
