// Inequalities from ranges and from equations.
ghost use Rattle.std.specs.Prelude.{◌≡◌, ◌≢◌, ◌<◌, ◌≤◌, ◌^◌, [], ◌∷◌, ◌++◌, length, IfOk, OnOk, slice_index};
ghost use Rattle.std.specs.Prelude.{negsuc, neg_ℤ};
ghost use Rattle.std.specs.List.{insert};
ghost use Rattle.th_linear.specs.Forms.{AreTerms, Small};
ghost use Rattle.th_linear.specs.Normal.{scaled};
ghost use Rattle.std.specs.Int.RustNames.{unsigned_abs};
ghost use Rattle.th_linear.specs.declared.fact.Rel.{Rel};
ghost use Rattle.th_pure.specs.Substitution.{low_fact, high_fact, range_facts};
ghost use Rattle.th_pure.specs.Bounds.{inequalities_of, inequalities, at_most, at_least};
ghost use Rattle.th_pure.specs.Bounds.{variables, with_terms, with_variable, all_range_facts};

use crate::Range;
use crate::facts::FactList;
use std::alloc::{AllocError, Global};
use th_linear::{Lin, Rel};

// The inequalities of the facts: an equation is two, an inequation (`Ne`) none.
pub(crate) fn inequalities(alloc: Global, facts: FactList) -> Result<FactList, AllocError>
    ensures { IfOk result (λ list. list ≡ inequalities facts) }
{
    let mut list = FactList::with_capacity(alloc, facts.len())?;
    for fact in facts.into_vec() {
        match fact.rel {
            Rel::Eq => push_equation(alloc, &mut list, fact)?,
            Rel::Le => list.push(fact)?,
            Rel::Ne => {}
        }
    }
    Ok(list)
}

// Adds an equation as two inequalities: its sum is at most 0, and at least 0.
fn push_equation(alloc: Global, list: &mut FactList, fact: Lin) -> Result<(), AllocError>
    ensures { OnOk result (list.new ≡ list.old ++ inequalities_of Rel.Eq fact) }
{
    let opposite = at_least(alloc, &fact)?;
    list.push(at_most(fact))?;
    list.push(opposite)?;
    Ok(())
}

// The sum of the fact is at most 0.
fn at_most(fact: Lin) -> Lin
    ensures { result ≡ at_most fact }
{
    let Lin {
        coefs,
        constant,
        rel: _,
    } = fact;
    Lin {
        coefs,
        constant,
        rel: Rel::Le,
    }
}

// The sum of the fact is at least 0.
fn at_least(alloc: Global, fact: &Lin) -> Result<Lin, AllocError>
    ensures { IfOk result (λ f. f ≡ at_least fact.now) }
{
    Ok(Lin {
        coefs: turned_terms(alloc, fact.coefs.as_slice())?,
        constant: turned(fact.constant),
        rel: Rel::Le,
    })
}

// The terms with their signs turned.
fn turned_terms(alloc: Global, terms: &[(u32, i128)]) -> Result<Vec<(u32, i128)>, AllocError>
    requires { AreTerms 0 terms.now }
    ensures { IfOk result (λ v. v.items ≡ scaled (negsuc 0) terms.now) }
{
    let mut list = Vec::with_capacity(alloc, terms.len())?;
    for term in terms {
        list.push((term.0, turned(term.1)))?;
    }
    Ok(list)
}

// The number with its sign turned.
fn turned(z: i128) -> i128
    requires { Small z }
    ensures value { result ≡ neg_ℤ z }
    ensures small { Small result }
{
    -z
}

// The variables that stand in the facts, in ascending order.
pub(crate) fn variables(alloc: Global, facts: &[Lin]) -> Result<Vec<u32>, AllocError>
    ensures { IfOk result (λ vs. vs.items ≡ variables facts.now) }
{
    let mut list = Vec::new(alloc);
    for fact in facts {
        put_terms(&mut list, fact.coefs.as_slice())?;
    }
    Ok(list)
}

// Puts the variables of terms into ascending ones.
fn put_terms(list: &mut Vec<u32>, terms: &[(u32, i128)]) -> Result<(), AllocError>
    ensures { OnOk result (list.new.items ≡ with_terms list.old.items terms.now) }
{
    for term in terms {
        put_variable(list, term.0)?;
    }
    Ok(())
}

// Puts a variable into ascending ones, once.
fn put_variable(list: &mut Vec<u32>, variable: u32) -> Result<(), AllocError>
    ensures { OnOk result (list.new.items ≡ with_variable variable list.old.items) }
{
    let at = place_of(list.as_slice(), variable);
    if at < list.len() && list[at] == variable {
        return Ok(());
    }
    list.insert(at, variable)?;
    Ok(())
}

// Where a variable stands in a list, or is to stand: the first place that isn't below it.
fn place_of(list: &[u32], variable: u32) -> usize
    ensures within { result ≤ length list.now }
    ensures here { result < length list.now → slice_index list.now result ≡ variable
        → with_variable variable list.now ≡ list.now }
    ensures new { (result < length list.now → slice_index list.now result ≢ variable)
        → with_variable variable list.now ≡ insert list.now result variable }
{
    for (at, other) in list.iter().enumerate() {
        if *other >= variable {
            return at;
        }
    }
    list.len()
}

// Adds the ranges of the variables as inequalities.
pub(crate) fn push_ranges(
    alloc: Global,
    facts: &mut FactList,
    ranges: &[Range],
    variables: &[u32],
) -> Result<(), AllocError>
    ensures { OnOk result (facts.new ≡ facts.old ++ all_range_facts ranges.now variables.now) }
{
    for variable in variables {
        push_range(alloc, facts, ranges, *variable)?;
    }
    Ok(())
}

// Adds the range of a variable as inequalities, low before high.
pub(crate) fn push_range(
    alloc: Global,
    facts: &mut FactList,
    ranges: &[Range],
    variable: u32,
) -> Result<(), AllocError>
    ensures { OnOk result (facts.new ≡ facts.old ++ range_facts ranges.now variable) }
{
    for range in ranges {
        if range.variable == variable {
            facts.push(low_bound(alloc, range)?)?;
            facts.push(high_bound(alloc, range)?)?;
            return Ok(());
        }
    }
    Ok(())
}

// The variable is at least the range's low end.
fn low_bound(alloc: Global, range: &Range) -> Result<Lin, AllocError>
    ensures { IfOk result (λ f. f ≡ low_fact range.now) }
{
    bound(alloc, range.variable, -1, range.low)
}

// The variable is at most the range's high end.
fn high_bound(alloc: Global, range: &Range) -> Result<Lin, AllocError>
    ensures { IfOk result (λ f. f ≡ high_fact range.now) }
{
    bound(alloc, range.variable, 1, -range.high)
}

// An inequality of one variable with coefficient 1 or -1.
fn bound(alloc: Global, variable: u32, coefficient: i128, constant: i128) -> Result<Lin, AllocError>
    requires unit { unsigned_abs coefficient ≡ 1 }
    requires small { Small constant }
    ensures { IfOk result
        (λ f. f ≡ record { coefs = (variable, coefficient) ∷ []; constant = constant; rel = Rel.Le }) }
{
    let mut coefs = Vec::with_capacity(alloc, 1)?;
    coefs.push((variable, coefficient))?;
    Ok(Lin {
        coefs,
        constant,
        rel: Rel::Le,
    })
}
