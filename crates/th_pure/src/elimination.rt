// Variables eliminated from inequalities one by one.
ghost use Rattle.std.specs.Prelude.{◌≡◌, IfOk, All};
ghost use Rattle.th_pure.specs.Elimination.{AreInequalities, uppers, lowers, without, without_repeats};
ghost use Rattle.th_pure.specs.Elimination.{eliminated, eliminated_all};
ghost use Rattle.th_pure.specs.Early.{AnswerAlike, AreLeft};

use crate::distinct::DistinctFacts;
use crate::facts::{FactList, Outcome};
use crate::products::{Progress, add_all};
use std::alloc::{AllocError, Global};

// So many facts, or more, are given up.
pub(crate) const FACT_LIMIT: usize = 200;

// Eliminates the variables in turn. Undecided where the facts reach their limit before one of them,
// where a magnitude reaches 2^62, or where none is left.
pub(crate) fn eliminate_all(
    alloc: Global,
    facts: FactList,
    variables: &[u32],
) -> Result<Outcome, AllocError>
    requires { AreInequalities facts }
    ensures { IfOk result (λ outcome. outcome ≡ eliminated_all variables.now facts) }
{
    let mut left = facts;
    for variable in variables {
        if left.len() >= FACT_LIMIT {
            return Ok(Outcome::Undecided);
        }
        match eliminate(alloc, left, *variable)? {
            Outcome::Remaining(next) => left = next,
            other => return Ok(other),
        }
    }
    Ok(Outcome::Undecided)
}

// Eliminates one variable. Where the facts that are left reach their limit, those beyond are
// dropped: their number alone is looked at from then on.
fn eliminate(alloc: Global, facts: FactList, variable: u32) -> Result<Outcome, AllocError>
    requires { AreInequalities facts }
    ensures value { IfOk result (λ outcome. AnswerAlike outcome (eliminated variable facts)) }
    ensures inequalities { IfOk result AreLeft }
{
    let parts = split(alloc, facts, variable)?;
    let kept = distinct(alloc, parts.without)?;
    let uppers = parts.uppers.as_slice();
    let lowers = parts.lowers.as_slice();
    let end = add_all(alloc, variable, uppers, lowers, Progress::Open(kept))?;
    match end {
        Progress::TooLarge => Ok(Outcome::Undecided),
        Progress::FoundFalse => Ok(Outcome::Refuted),
        Progress::Open(left) => Ok(Outcome::Remaining(left.into_list())),
    }
}

// Facts by how they bound a variable.
#[derive(Drop)]
struct Parts {
    uppers: FactList,
    lowers: FactList,
    without: FactList,
}

// The facts that bound a variable from above, those that bound it from below, and the others.
fn split(alloc: Global, facts: FactList, variable: u32) -> Result<Parts, AllocError>
    ensures uppers { IfOk result (λ parts. parts.uppers ≡ uppers variable facts) }
    ensures lowers { IfOk result (λ parts. parts.lowers ≡ lowers variable facts) }
    ensures without { IfOk result (λ parts. parts.without ≡ without variable facts) }
{
    let mut uppers = FactList::new(alloc);
    let mut lowers = FactList::new(alloc);
    let mut without = FactList::new(alloc);
    for fact in facts.into_vec() {
        let c = fact.coefficient(variable);
        if c > 0 {
            uppers.push(fact)?;
        } else if c < 0 {
            lowers.push(fact)?;
        } else {
            without.push(fact)?;
        }
    }
    Ok(Parts {
        uppers,
        lowers,
        without,
    })
}

// The facts without repeats: of equal ones the first.
fn distinct(alloc: Global, facts: FactList) -> Result<DistinctFacts, AllocError>
    ensures value { IfOk result (λ d. d ≡ without_repeats facts) }
    ensures inequalities { IfOk result (λ d. AreInequalities facts → AreInequalities d) }
{
    let mut kept = DistinctFacts::new(alloc);
    for fact in facts.into_vec() {
        kept = kept.with(fact)?;
    }
    Ok(kept)
}
