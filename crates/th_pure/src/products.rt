// What facts that bound a variable from above and from below give, where the variable vanishes.
ghost use Rattle.std.specs.Prelude.{◌≡◌, ◌++◌, ◌∷◌, ◌<◌, ◌≤◌, ◌/◌, ◌<ℤ◌, List, [], Option, Some, ℕ, pos, map, All, IfOk, IsTrue, ◌↔◌};
ghost use Rattle.std.specs.Int.{◌∣◌};
ghost use Rattle.std.specs.Int.RustNames.{unsigned_abs};
ghost use Rattle.th_linear.specs.Forms.{Form};
ghost use Rattle.th_linear.specs.Divided.{normal_of};
ghost use Rattle.th_linear.specs.Judged.{judgement_of};
ghost use Rattle.th_pure.specs.Elimination.{IsUpper, IsLower, times_upper, times_lower, vanishing, combinations};
ghost use Rattle.th_pure.specs.Early.{answer_after, AreOpen, HasRoom, LeavesInequality};

use crate::distinct::DistinctFacts;
use crate::elimination::FACT_LIMIT;
use std::alloc::{AllocError, Global};
use th_linear::{
    Judgement, Lin, MAGNITUDE_LIMIT, NormalForm, combine, gcd, judge, magnitude, normal,
};

// What is known after some combinations.
#[derive(Debug, Drop)]
pub(crate) enum Progress {
    // A magnitude of one reaches 2^62.
    TooLarge,
    // One is false. The others are only looked at for their magnitudes.
    FoundFalse,
    // The facts so far, without repeats.
    Open(DistinctFacts),
}

// Each fact that bounds the variable from above combined with each that bounds it from below.
pub(crate) fn add_all(
    alloc: Global,
    variable: u32,
    uppers: &[Lin],
    lowers: &[Lin],
    so_far: Progress,
) -> Result<Progress, AllocError>
    requires uppers { All (IsUpper variable) uppers.now }
    requires lowers { All (IsLower variable) lowers.now }
    ensures value { IfOk result (λ p. (vs : List ℕ) → answer_after p [] vs
        ≡ answer_after so_far (combinations variable uppers.now lowers.now) vs) }
    ensures inequalities { IfOk result (λ p. AreOpen so_far → AreOpen p) }
{
    let mut progress = so_far;
    for upper in uppers {
        progress = add_each(alloc, variable, upper, lowers, progress)?;
    }
    Ok(progress)
}

// One fact that bounds the variable from above combined with each that bounds it from below.
fn add_each(
    alloc: Global,
    variable: u32,
    upper: &Lin,
    lowers: &[Lin],
    so_far: Progress,
) -> Result<Progress, AllocError>
    requires upper { IsUpper variable upper.now }
    requires lowers { All (IsLower variable) lowers.now }
    ensures value { IfOk result (λ p. (os : List (Option Form)) (vs : List ℕ) → answer_after p os vs
        ≡ answer_after so_far (map (λ b. vanishing variable upper.now b) lowers.now ++ os) vs) }
    ensures inequalities { IfOk result (λ p. AreOpen so_far → AreOpen p) }
{
    let mut progress = so_far;
    for lower in lowers {
        progress = add(alloc, variable, upper, lower, progress)?;
    }
    Ok(progress)
}

// Two facts combined. Where no more facts are kept the combination is judged and not made.
fn add(
    alloc: Global,
    variable: u32,
    upper: &Lin,
    lower: &Lin,
    so_far: Progress,
) -> Result<Progress, AllocError>
    requires upper { IsUpper variable upper.now }
    requires lower { IsLower variable lower.now }
    ensures value { IfOk result (λ p. (os : List (Option Form)) (vs : List ℕ) → answer_after p os vs
        ≡ answer_after so_far (vanishing variable upper.now lower.now ∷ os) vs) }
    ensures inequalities { IfOk result (λ p. AreOpen so_far → AreOpen p) }
{
    let factors = factors_of(variable, upper, lower);
    if !has_room(&so_far) {
        let judgement = judge(upper, factors.upper, lower, factors.lower);
        return Ok(pass(so_far, judgement));
    }
    let made = combine(alloc, upper, factors.upper, lower, factors.lower)?;
    match made {
        Some(fact) => keep(so_far, normal(fact)),
        None => Ok(Progress::TooLarge),
    }
}

// Whether further facts are kept.
fn has_room(progress: &Progress) -> bool
    ensures { IsTrue result ↔ HasRoom progress.now }
{
    match progress {
        Progress::Open(kept) => kept.len() < FACT_LIMIT,
        Progress::FoundFalse => false,
        Progress::TooLarge => false,
    }
}

// The progress with one more combination, divided.
fn keep(so_far: Progress, divided: NormalForm) -> Result<Progress, AllocError>
    requires { HasRoom so_far }
    ensures value { IfOk result (λ p. (f : Form) (os : List (Option Form)) (vs : List ℕ)
        → normal_of f ≡ divided → answer_after p os vs ≡ answer_after so_far (Some f ∷ os) vs) }
    ensures inequalities { IfOk result (λ p. LeavesInequality divided → AreOpen so_far → AreOpen p) }
{
    match so_far {
        Progress::Open(kept) => match divided {
            NormalForm::True => Ok(Progress::Open(kept)),
            NormalForm::False => Ok(Progress::FoundFalse),
            NormalForm::Fact(fact) => {
                let more = kept.with(fact)?;
                Ok(Progress::Open(more))
            }
        },
        Progress::FoundFalse => Ok(Progress::FoundFalse),
        Progress::TooLarge => Ok(Progress::TooLarge),
    }
}

// The progress with one more combination that isn't kept.
fn pass(so_far: Progress, judgement: Judgement) -> Progress
    requires { HasRoom so_far → ⊥ }
    ensures value { (o : Option Form) (os : List (Option Form)) (vs : List ℕ)
        → judgement_of o ≡ judgement → answer_after result os vs ≡ answer_after so_far (o ∷ os) vs }
    ensures inequalities { AreOpen so_far → AreOpen result }
{
    match judgement {
        Judgement::TooLarge => Progress::TooLarge,
        Judgement::Possible => so_far,
        Judgement::False => match so_far {
            Progress::Open(_) => Progress::FoundFalse,
            Progress::FoundFalse => Progress::FoundFalse,
            Progress::TooLarge => Progress::TooLarge,
        },
    }
}

// How often two facts are taken, so that the variable vanishes from their sum.
#[derive(Clone, Copy)]
struct Factors {
    upper: i128,
    lower: i128,
}

// The factors of two facts.
fn factors_of(variable: u32, upper: &Lin, lower: &Lin) -> Factors
    requires upper { IsUpper variable upper.now }
    requires lower { IsLower variable lower.now }
    ensures upper { result.upper ≡ pos (times_upper variable upper.now lower.now) }
    ensures upper_low { pos 0 <ℤ result.upper }
    ensures upper_high { unsigned_abs result.upper ≤ MAGNITUDE_LIMIT }
    ensures lower { result.lower ≡ pos (times_lower variable upper.now lower.now) }
    ensures lower_low { pos 0 <ℤ result.lower }
    ensures lower_high { unsigned_abs result.lower ≤ MAGNITUDE_LIMIT }
{
    let c = magnitude(upper.coefficient(variable));
    let d = magnitude(lower.coefficient(variable));
    let g = gcd(c, d);
    Factors {
        upper: times(d, g),
        lower: times(c, g),
    }
}

// n / g as a factor.
fn times(n: u64, g: u64) -> i128
    requires some { 0 < n }
    requires small { n < MAGNITUDE_LIMIT }
    requires divides { g ∣ n }
    ensures value { result ≡ pos (n / g) }
    ensures low { pos 0 <ℤ result }
    ensures high { unsigned_abs result ≤ MAGNITUDE_LIMIT }
{
    i128::from(n / g)
}
