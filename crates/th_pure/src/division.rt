// Facts divided, rounded and judged.
ghost use Rattle.std.specs.Prelude.{◌≡◌, IfOk};
ghost use Rattle.th_pure.specs.Division.{divided_all};

use crate::facts::{FactList, Outcome};
use std::alloc::{AllocError, Global};
use th_linear::{NormalForm, normal};

// Each fact divided by the greatest common divisor of its coefficients. A false one refutes the
// facts, and a true one is dropped.
pub(crate) fn divide_all(alloc: Global, facts: FactList) -> Result<Outcome, AllocError>
    ensures { IfOk result (λ outcome. outcome ≡ divided_all facts) }
{
    let mut left = FactList::with_capacity(alloc, facts.len())?;
    for fact in facts.into_vec() {
        match normal(fact) {
            NormalForm::True => {}
            NormalForm::False => return Ok(Outcome::Refuted),
            NormalForm::Fact(divided) => left.push(divided)?,
        }
    }
    Ok(Outcome::Remaining(left))
}
