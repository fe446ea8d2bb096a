// Terms in any order, and terms whose variables are renamed.
ghost use Rattle.std.specs.Prelude.{◌≡◌, ◌≢◌, ◌≤◌, ◌<◌, ◌+◌, ◌++◌, ℕ, [], pos, take, drop, length, vec_len, All, IfOk};
ghost use Rattle.std.specs.List.Sorted.{IsNonDecreasingBy};
ghost use Rattle.th_linear.specs.Forms.{AreTerms, Small};
ghost use Rattle.th_linear.specs.Summed.{term_before};
ghost use Rattle.th_linear.specs.Gathered.{AreSmall, gathered, name_of, renamed_terms};

use std::alloc::{AllocError, Global};

// Terms in any order as ascending ones: those of one variable added up, none with coefficient 0.
pub(crate) fn gather(terms: Vec<(u32, i128)>) -> Vec<(u32, i128)>
    requires { AreSmall terms.items }
    ensures { result.items ≡ gathered terms.items }
{
    let mut sorted = terms;
    sorted.sort_unstable_by_key(|term| term.0);
    add_up(&mut sorted);
    sorted
}

// Adds up the terms of each variable, which stand side by side, and drops those with coefficient 0.
fn add_up(terms: &mut Vec<(u32, i128)>)
    requires small { All (λ t. Small t.1) terms.old.items }
    requires ascending { IsNonDecreasingBy (λ t. t.0) terms.old.items }
    ensures { terms.new.items ≡ gathered terms.old.items }
{
    let mut kept = 0;
    let mut variable = 0;
    let mut sum = 0;
    for at in 0..terms.len() {
        let term = terms[at];
        if term.0 != variable {
            kept = put(terms, kept, variable, sum);
            variable = term.0;
            sum = 0;
        }
        sum += term.1;
    }
    kept = put(terms, kept, variable, sum);
    terms.truncate(kept);
}

// Puts a term at a place where its coefficient isn't 0, and tells the place after it.
fn put(terms: &mut Vec<(u32, i128)>, at: usize, variable: u32, coefficient: i128) -> usize
    requires { coefficient ≢ pos 0 → at < vec_len terms.old }
    ensures len { length terms.new.items ≡ length terms.old.items }
    ensures place { result ≤ at + 1 }
    ensures stays { coefficient ≡ pos 0 → result ≡ at }
    ensures front { take result terms.new.items
        ≡ take at terms.old.items ++ term_before variable coefficient [] }
    ensures rest { (n : ℕ) → at < n → drop n terms.new.items ≡ drop n terms.old.items }
{
    if coefficient == 0 {
        return at;
    }
    terms[at] = (variable, coefficient);
    at + 1
}

// The terms with each variable named as the list says at its place.
pub(crate) fn rename(
    alloc: Global,
    terms: &[(u32, i128)],
    names: &[u32],
) -> Result<Vec<(u32, i128)>, AllocError>
    requires { AreTerms 0 terms.now }
    ensures value { IfOk result (λ v. v.items ≡ renamed_terms names.now terms.now) }
    ensures small { IfOk result (λ v. AreSmall v.items) }
{
    let mut renamed = Vec::with_capacity(alloc, terms.len())?;
    for term in terms {
        renamed.push((name_of(names, term.0), term.1))?;
    }
    Ok(renamed)
}

// The name at the variable's place; a variable past the list keeps its own.
fn name_of(names: &[u32], variable: u32) -> u32
    ensures { result ≡ name_of names.now variable }
{
    match names.get(variable as usize) {
        Some(name) => *name,
        None => variable,
    }
}
