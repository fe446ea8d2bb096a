// Facts: a sum of terms and a constant, in relation to 0.
ghost use Rattle.std.specs.Prelude.{◌≡◌, ◌↔◌, ◌<◌, ◌≤◌, IfOk, IfSome, IsSome, IsTrue};
ghost use Rattle.std.specs.Int.RustNames.{unsigned_abs};
ghost use Rattle.th_linear.specs.Forms.{AreTerms, IsForm, Small, Stands, coef};
ghost use Rattle.th_linear.specs.Gathered.{AreSmall, Gathers, Renames, gathered_form, renamed_form};

use crate::gathering::{gather, rename};
use std::alloc::{AllocError, Global};
use std::marker::Model;

/// All magnitudes of a fact are below this.
pub const MAGNITUDE_LIMIT: u128 = 1 << 62;

/// How a sum stands to 0: it is 0, at most 0, or not 0.
#[derive(Clone, Copy, Debug, PartialEq, Eq)]
pub enum Rel {
    /// The sum is 0.
    Eq,
    /// The sum is 0 or less.
    Le,
    /// The sum isn't 0.
    Ne,
}

/// A linear fact: the sum of the terms, plus the constant, stands in the relation to 0. The
/// variables ascend, no coefficient is 0, and all magnitudes are below 2^62.
#[derive(Debug, Drop)]
pub struct Lin {
    /// The terms, each a variable and its coefficient.
    pub coefs: Vec<(u32, i128)>,
    /// What is added to the sum of the terms.
    pub constant: i128,
    /// How the sum stands to 0.
    pub rel: Rel,
}

impl Model for Lin {
    ghost use Rattle.th_linear.specs.Forms.{Form, IsForm};

    ghost Value = { Form };

    ghost view = { λ f. record { coefs = f.coefs.items; constant = f.constant; rel = f.rel } };

    ghost invariant = { λ f. IsForm f.coefs.items f.constant };
}

impl Lin {
    /// A fact of these parts; `None` exactly where the variables don't ascend, a coefficient is 0,
    /// or a magnitude reaches 2^62. Takes no memory.
    pub fn new(coefs: Vec<(u32, i128)>, constant: i128, rel: Rel) -> Option<Lin>
        ensures valid { IsSome result ↔ IsForm coefs.items constant }
        ensures value { IfSome result
            (λ f. f ≡ record { coefs = coefs.items; constant = constant; rel = rel }) }
    {
        if is_small(constant) && are_terms(coefs.as_slice()) {
            Some(Lin {
                coefs,
                constant,
                rel,
            })
        } else {
            None
        }
    }

    /// The fact of terms in any order: those of one variable are added up, and none with coefficient
    /// 0 is left. `None` exactly where a magnitude of it reaches 2^62. Takes no memory.
    pub fn from_terms(terms: Vec<(u32, i128)>, constant: i128, rel: Rel) -> Option<Lin>
        requires { AreSmall terms.items }
        ensures exact { Gathers terms.items constant rel result }
        ensures value { result ≡ gathered_form terms.items constant rel }
    {
        Lin::new(gather(terms), constant, rel)
    }

    /// The fact with each variable named as the list says at its place; a variable past the list keeps
    /// its own name. Variables that get one name become one. `None` exactly where a magnitude of the
    /// result reaches 2^62.
    pub fn renamed(&self, alloc: Global, names: &[u32]) -> Result<Option<Lin>, AllocError>
        ensures exact { IfOk result (Renames names.now self.now) }
        ensures value { IfOk result (λ o. o ≡ renamed_form names.now self.now) }
    {
        let terms = rename(alloc, self.coefs.as_slice(), names)?;
        Ok(Lin::from_terms(terms, self.constant, self.rel))
    }

    /// The coefficient of a variable: 0 where the variable doesn't stand in the fact.
    pub fn coefficient(&self, variable: u32) -> i128
        ensures value { result ≡ coef variable self.now.coefs }
        ensures small { Small result }
    {
        coefficient(self.coefs.as_slice(), variable)
    }

    /// A copy of the fact.
    pub fn copy(&self, alloc: Global) -> Result<Lin, AllocError>
        ensures equal { IfOk result (λ copy. copy ≡ self.now) }
        ensures form { IsForm self.now.coefs self.now.constant }
    {
        Ok(Lin {
            coefs: Vec::from_slice(alloc, self.coefs.as_slice())?,
            constant: self.constant,
            rel: self.rel,
        })
    }

    /// Whether the two facts are equal.
    pub fn same(&self, other: &Lin) -> bool
        ensures { IsTrue result ↔ (self.now ≡ other.now) }
    {
        self.constant == other.constant
            && same_relation(self.rel, other.rel)
            && same_terms(self.coefs.as_slice(), other.coefs.as_slice())
    }
}

// Whether the variables ascend, no coefficient is 0, and all are below 2^62 in magnitude.
fn are_terms(terms: &[(u32, i128)]) -> bool
    ensures { IsTrue result ↔ AreTerms 0 terms.now }
{
    let mut low = 0u64;
    for term in terms {
        if !follows(low, *term) {
            return false;
        }
        low = u64::from(term.0) + 1;
    }
    true
}

// Whether a term may stand next: its variable is `low` or more, its coefficient small and not 0.
fn follows(low: u64, term: (u32, i128)) -> bool
    ensures { IsTrue result ↔ ((low ≤ term.0) × (0 < unsigned_abs term.1) × Small term.1) }
{
    low <= u64::from(term.0) && term.1 != 0 && is_small(term.1)
}

// Whether z is below 2^62 in magnitude.
pub(crate) fn is_small(z: i128) -> bool
    ensures { IsTrue result ↔ Small z }
{
    z.unsigned_abs() < MAGNITUDE_LIMIT
}

// The coefficient of a variable in a list of terms.
fn coefficient(terms: &[(u32, i128)], variable: u32) -> i128
    ensures { result ≡ coef variable terms.now }
{
    for term in terms {
        if term.0 == variable {
            return term.1;
        }
    }
    0
}

// Whether the two lists of terms are equal.
fn same_terms(left: &[(u32, i128)], right: &[(u32, i128)]) -> bool
    ensures { IsTrue result ↔ (left.now ≡ right.now) }
{
    if left.len() != right.len() {
        return false;
    }
    for i in 0..left.len() {
        if !same_term(left[i], right[i]) {
            return false;
        }
    }
    true
}

// Whether the two terms are equal.
fn same_term(left: (u32, i128), right: (u32, i128)) -> bool
    ensures { IsTrue result ↔ (left ≡ right) }
{
    left.0 == right.0 && left.1 == right.1
}

// Whether the two relations are equal.
fn same_relation(left: Rel, right: Rel) -> bool
    ensures { IsTrue result ↔ (left ≡ right) }
{
    left == right
}

// Whether z stands in the relation to 0.
pub(crate) fn stands(rel: Rel, z: i128) -> bool
    ensures { IsTrue result ↔ Stands rel z }
{
    match rel {
        Rel::Eq => z == 0,
        Rel::Le => z <= 0,
        Rel::Ne => z != 0,
    }
}
