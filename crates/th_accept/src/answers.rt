// Answers in order: all their values, or the first error.
ghost use Rattle.std.specs.Prelude.{◌≡◌, None, Some, IfOk};
ghost use Rattle.th_base.specs.declared.fail.Fail.TheVariants.{Refused};
ghost use Rattle.th_accept.specs.Answers.{IfRefused, values_before, first_error};

use std::alloc::Global;
use th_base::Fail;
use th_syntax::Refusal;

// The values of all answers, or the first error.
pub(crate) fn gather<X: Drop>(
    alloc: Global,
    answers: Vec<Result<X, Fail<Refusal>>>,
) -> Result<Vec<X>, Fail<Refusal>>
    ensures none { IfOk result (λ values. first_error answers.items ≡ None) }
    ensures values { IfOk result (λ values. values.items ≡ values_before answers.items) }
    ensures first { IfRefused result (λ refusal. first_error answers.items ≡ Some (Refused refusal)) }
{
    let mut values = Vec::new(alloc);
    for answer in answers {
        match answer {
            Ok(value) => values.push(value)?,
            Err(fail) => return Err(fail),
        }
    }
    Ok(values)
}
