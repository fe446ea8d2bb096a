// A fact divided by the greatest common divisor of its coefficients.
ghost use Rattle.std.specs.Prelude.{◌≡◌, ◌↔◌, ℕ, ℤ, pos, ◌<ℤ◌, ◌*ℤ◌, IsTrue};
ghost use Rattle.std.specs.Int.{◌∣◌};
ghost use Rattle.std.specs.Int.RustNames.{unsigned_abs};
ghost use Rattle.th_linear.specs.Forms.{Holds, Small};
ghost use Rattle.th_linear.specs.Normal.{IsContent, DividesAll, scaled, Divides, HasQuotient, IsDivided, IsNormal, HoldsNormal};
ghost use Rattle.th_linear.specs.Divided.{normal_of};

use crate::divisor::positive_content;
use crate::fact::stands;
use crate::{Lin, Rel};

/// What is left of a fact once it has been divided and judged.
#[derive(Debug, Drop)]
pub enum NormalForm {
    /// Every assignment satisfies the fact.
    True,
    /// No assignment of integers satisfies the fact.
    False,
    /// The fact with coprime coefficients that the same integers satisfy.
    Fact(Lin),
}

/// The fact divided by the greatest common divisor of its coefficients, the constant of an
/// inequality rounded up. An equation whose constant isn't divisible is false, such an inequation
/// (`Ne`) true. A fact without variables is judged. Takes no memory.
pub fn normal(f: Lin) -> NormalForm
    ensures exact { IsNormal f result }
    ensures value { result ≡ normal_of f }
    ensures keeps { (s : ℕ → ℤ) → Holds f s ↔ HoldsNormal result s }
{
    // For the proof alone: the form of the fact.
    let _terms = &f.coefs;
    normal_form(f)
}

// The normal form of a fact.
fn normal_form(f: Lin) -> NormalForm
    ensures { IsNormal f result }
{
    if f.coefs.is_empty() {
        return if stands(f.rel, f.constant) {
            NormalForm::True
        } else {
            NormalForm::False
        };
    }
    let g = positive_content(f.coefs.as_slice());
    if g == 1 {
        return NormalForm::Fact(f);
    }
    match f.rel {
        Rel::Le => NormalForm::Fact(divided(f, g)),
        Rel::Eq => {
            if is_multiple(f.constant, g) {
                NormalForm::Fact(divided(f, g))
            } else {
                NormalForm::False
            }
        }
        Rel::Ne => {
            if is_multiple(f.constant, g) {
                NormalForm::Fact(divided(f, g))
            } else {
                NormalForm::True
            }
        }
    }
}

// The fact divided by g, the greatest common divisor of its coefficients.
fn divided(f: Lin, g: i128) -> Lin
    requires positive { pos 0 <ℤ g }
    requires content { IsContent (unsigned_abs g) f.coefs }
    requires whole { HasQuotient f.rel (unsigned_abs g) f.constant }
    ensures { IsDivided f result (unsigned_abs g) }
{
    let Lin {
        mut coefs,
        constant,
        rel,
    } = f;
    divide(&mut coefs, g);
    Lin {
        coefs,
        constant: divided_constant(rel, constant, g),
        rel,
    }
}

// Divides each coefficient.
fn divide(coefs: &mut Vec<(u32, i128)>, g: i128)
    requires positive { pos 0 <ℤ g }
    requires divides { DividesAll (unsigned_abs g) coefs.old.items }
    ensures { coefs.old.items ≡ scaled g coefs.new.items }
{
    for term in coefs.iter_mut() {
        term.1 = exact_quotient(term.1, g);
    }
}

// The constant divided by g, rounded up for `Le`.
fn divided_constant(rel: Rel, constant: i128, g: i128) -> i128
    requires positive { pos 0 <ℤ g }
    requires small { Small constant }
    requires whole { HasQuotient rel (unsigned_abs g) constant }
    ensures divides { Divides rel (unsigned_abs g) constant result }
    ensures small { Small result }
{
    match rel {
        Rel::Le => divided_up(constant, g),
        Rel::Eq => exact_quotient(constant, g),
        Rel::Ne => exact_quotient(constant, g),
    }
}

// k / g, rounded up.
fn divided_up(k: i128, g: i128) -> i128
    requires positive { pos 0 <ℤ g }
    ensures { Divides Rel.Le (unsigned_abs g) k result }
{
    let quotient = k / g;
    if k % g > 0 { quotient + 1 } else { quotient }
}

// z / g, which is whole.
fn exact_quotient(z: i128, g: i128) -> i128
    requires positive { pos 0 <ℤ g }
    requires divides { unsigned_abs g ∣ unsigned_abs z }
    ensures { z ≡ g *ℤ result }
{
    z / g
}

// Whether g divides k.
fn is_multiple(k: i128, g: i128) -> bool
    requires positive { pos 0 <ℤ g }
    ensures { IsTrue result ↔ (unsigned_abs g ∣ unsigned_abs k) }
{
    k % g == 0
}
