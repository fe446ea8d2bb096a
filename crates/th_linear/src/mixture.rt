// Sums of multiples of two facts.
ghost use Rattle.std.specs.Prelude.{◌≡◌, ◌≤◌, ◌^◌, ◌<ℤ◌, ◌*ℤ◌, pos, neg_ℤ, []};
ghost use Rattle.std.specs.Prelude.{MatchOption, IfOk, IfSome};
ghost use Rattle.std.specs.Int.RustNames.{unsigned_abs};
ghost use Rattle.th_linear.specs.Forms.{AreTerms, Small, coef};
ghost use Rattle.th_linear.specs.Mixed.{mixed, IsSum, FollowsFrom, SaySame, Steps, AreMixed, HasLarge, HasMixed};
ghost use Rattle.th_linear.specs.Divided.{normal_of};
ghost use Rattle.th_linear.specs.Judged.{judged_as, judgement_of};
ghost use Rattle.th_linear.specs.Summed.{mixed_form, combined, substituted};

use crate::fact::{is_small, stands};
use crate::{Lin, MAGNITUDE_LIMIT, Rel};
use std::alloc::{AllocError, Global};

/// The inequality p a + q b, or `None` exactly where a magnitude of it reaches 2^62.
pub fn combine(alloc: Global, a: &Lin, p: i128, b: &Lin, q: i128) -> Result<Option<Lin>, AllocError>
    requires a { a.now.rel ≡ Rel.Le }
    requires b { b.now.rel ≡ Rel.Le }
    requires p_low { pos 0 <ℤ p }
    requires p_high { unsigned_abs p ≤ MAGNITUDE_LIMIT }
    requires q_low { pos 0 <ℤ q }
    requires q_high { unsigned_abs q ≤ MAGNITUDE_LIMIT }
    ensures exact { IfOk result (IsSum p a.now q b.now Rel.Le) }
    ensures value { IfOk result (λ o. o ≡ combined a.now p b.now q) }
    ensures follows { IfOk result (λ o. IfSome o (FollowsFrom a.now b.now)) }
{
    mix_facts(alloc, p, a, q, b)
}

/// What a sum of two inequalities says by itself.
#[derive(Clone, Copy, Debug, PartialEq, Eq)]
pub enum Judgement {
    /// A magnitude of it reaches 2^62.
    TooLarge,
    /// No assignment of integers satisfies it.
    False,
    /// Any other.
    Possible,
}

/// What the inequality p a + q b says by itself. It isn't made, so this takes no memory.
pub fn judge(a: &Lin, p: i128, b: &Lin, q: i128) -> Judgement
    requires a { a.now.rel ≡ Rel.Le }
    requires b { b.now.rel ≡ Rel.Le }
    requires p_low { pos 0 <ℤ p }
    requires p_high { unsigned_abs p ≤ MAGNITUDE_LIMIT }
    requires q_low { pos 0 <ℤ q }
    requires q_high { unsigned_abs q ≤ MAGNITUDE_LIMIT }
    ensures { result ≡ judgement_of (combined a.now p b.now q) }
{
    let constant = mix(p, a.constant, q, b.constant);
    if !is_small(constant) {
        return Judgement::TooLarge;
    }
    match has_terms(p, a.coefs.as_slice(), q, b.coefs.as_slice()) {
        None => Judgement::TooLarge,
        Some(true) => Judgement::Possible,
        Some(false) => judge_alone(constant),
    }
}

// What an inequality of this constant alone says.
fn judge_alone(constant: i128) -> Judgement
    ensures { result ≡ judged_as (normal_of (record { coefs = []; constant = constant; rel = Rel.Le })) }
{
    if stands(Rel::Le, constant) {
        Judgement::Possible
    } else {
        Judgement::False
    }
}

/// The fact f with the variable taken out by an equation that has it with coefficient 1 or -1: f
/// plus the multiple of the equation that makes the variable vanish, with f's relation. `None`
/// exactly where a magnitude of it reaches 2^62.
pub fn substitute(
    alloc: Global,
    f: &Lin,
    variable: u32,
    by: &Lin,
) -> Result<Option<Lin>, AllocError>
    requires by { by.now.rel ≡ Rel.Eq }
    requires unit { unsigned_abs (coef variable by.now.coefs) ≡ 1 }
    ensures exact { let m = neg_ℤ (coef variable f.now.coefs *ℤ coef variable by.now.coefs) in
        IfOk result (IsSum (pos 1) f.now m by.now f.now.rel) }
    ensures value { IfOk result (λ o. o ≡ substituted f.now variable by.now) }
    ensures gone { IfOk result (λ o. IfSome o (λ r. coef variable r.coefs ≡ pos 0)) }
    ensures keeps { IfOk result (λ o. IfSome o (SaySame by.now f.now)) }
{
    let m = multiplier(f.coefficient(variable), by.coefficient(variable));
    mix_facts(alloc, 1, f, m, by)
}

// -c d, where d is 1 or -1.
fn multiplier(c: i128, d: i128) -> i128
    requires small { Small c }
    requires unit { unsigned_abs d ≡ 1 }
    ensures value { result ≡ neg_ℤ (c *ℤ d) }
    ensures bound { unsigned_abs result ≤ MAGNITUDE_LIMIT }
{
    if d == 1 { -c } else { c }
}

// p a + q b with the relation of a, or `None` where a magnitude reaches 2^62.
fn mix_facts(alloc: Global, p: i128, a: &Lin, q: i128, b: &Lin) -> Result<Option<Lin>, AllocError>
    requires p { unsigned_abs p ≤ MAGNITUDE_LIMIT }
    requires q { unsigned_abs q ≤ MAGNITUDE_LIMIT }
    ensures exact { IfOk result (IsSum p a.now q b.now a.now.rel) }
    ensures value { IfOk result (λ o. o ≡ mixed_form p a.now q b.now a.now.rel) }
{
    let constant = mix(p, a.constant, q, b.constant);
    if !is_small(constant) {
        return Ok(None);
    }
    match mix_terms(alloc, p, a.coefs.as_slice(), q, b.coefs.as_slice())? {
        Some(coefs) => Ok(Some(Lin {
            coefs,
            constant,
            rel: a.rel,
        })),
        None => Ok(None),
    }
}

// The terms of p left + q right, or `None` where a coefficient reaches 2^62.
fn mix_terms(
    alloc: Global,
    p: i128,
    left: &[(u32, i128)],
    q: i128,
    right: &[(u32, i128)],
) -> Result<Option<Vec<(u32, i128)>>, AllocError>
    requires p { unsigned_abs p ≤ MAGNITUDE_LIMIT }
    requires left { AreTerms 0 left.now }
    requires q { unsigned_abs q ≤ MAGNITUDE_LIMIT }
    requires right { AreTerms 0 right.now }
    ensures { IfOk result (λ o. MatchOption o (HasLarge p left.now q right.now)
        (λ v. AreMixed p left.now q right.now v.items)) }
{
    let mut out = Vec::with_capacity(alloc, left.len() + right.len())?;
    let mut a = left;
    let mut b = right;
    while let Some(next) = next_step(p, a, q, b) {
        a = next.left;
        b = next.right;
        if next.coefficient != 0 {
            if !is_small(next.coefficient) {
                return Ok(None);
            }
            out.push((next.variable, next.coefficient))?;
        }
    }
    Ok(Some(out))
}

// Whether p left + q right has terms, or `None` where a coefficient reaches 2^62.
fn has_terms(p: i128, left: &[(u32, i128)], q: i128, right: &[(u32, i128)]) -> Option<bool>
    requires p { unsigned_abs p ≤ MAGNITUDE_LIMIT }
    requires left { AreTerms 0 left.now }
    requires q { unsigned_abs q ≤ MAGNITUDE_LIMIT }
    requires right { AreTerms 0 right.now }
    ensures { MatchOption result (HasLarge p left.now q right.now)
        (λ some. HasMixed p left.now q right.now some) }
{
    let mut some = false;
    let mut a = left;
    let mut b = right;
    while let Some(next) = next_step(p, a, q, b) {
        a = next.left;
        b = next.right;
        if next.coefficient != 0 {
            if !is_small(next.coefficient) {
                return None;
            }
            some = true;
        }
    }
    Some(some)
}

// The least variable of two lists of terms, its coefficient in the sum, and what is left of both.
#[derive(Drop)]
struct Step<'a> {
    variable: u32,
    coefficient: i128,
    left: &'a [(u32, i128)],
    right: &'a [(u32, i128)],
}

// The least variable of p left + q right, or `None` where there is no term.
fn next_step<'a>(
    p: i128,
    left: &'a [(u32, i128)],
    q: i128,
    right: &'a [(u32, i128)],
) -> Option<Step<'a>>
    requires p { unsigned_abs p ≤ MAGNITUDE_LIMIT }
    requires left { AreTerms 0 left.now }
    requires q { unsigned_abs q ≤ MAGNITUDE_LIMIT }
    requires right { AreTerms 0 right.now }
    ensures { MatchOption result ((left.now ≡ []) × (right.now ≡ []))
        (λ r. Steps p left.now q right.now r.variable r.coefficient r.left.now r.right.now) }
{
    match (left.split_first(), right.split_first()) {
        (None, None) => None,
        (Some((x, xs)), None) => Some(Step {
            variable: x.0,
            coefficient: mix(p, x.1, q, 0),
            left: xs,
            right,
        }),
        (None, Some((y, ys))) => Some(Step {
            variable: y.0,
            coefficient: mix(p, 0, q, y.1),
            left,
            right: ys,
        }),
        (Some((x, xs)), Some((y, ys))) => {
            if x.0 < y.0 {
                Some(Step {
                    variable: x.0,
                    coefficient: mix(p, x.1, q, 0),
                    left: xs,
                    right,
                })
            } else if y.0 < x.0 {
                Some(Step {
                    variable: y.0,
                    coefficient: mix(p, 0, q, y.1),
                    left,
                    right: ys,
                })
            } else {
                Some(Step {
                    variable: x.0,
                    coefficient: mix(p, x.1, q, y.1),
                    left: xs,
                    right: ys,
                })
            }
        }
    }
}

// p x + q y
fn mix(p: i128, x: i128, q: i128, y: i128) -> i128
    requires p { unsigned_abs p ≤ MAGNITUDE_LIMIT }
    requires x { Small x }
    requires q { unsigned_abs q ≤ MAGNITUDE_LIMIT }
    requires y { Small y }
    ensures { result ≡ mixed p x q y }
{
    p * x + q * y
}
