// Facts with known results: what goes in, and what must come out.
ghost use Rattle.std.specs.Prelude.{◌≡◌, IfOk};
ghost use Rattle.th_linear.specs.Gathered.{AreSmall};

use std::alloc::{AllocError, Global};
use std::process::Abort;
use std::test::Fail;
use th_linear::{Lin, NormalForm, Rel, combine, gcd, normal, substitute};

type Terms<'a> = &'a [(u32, i128)];

// What is expected of a fact that a step makes.
#[derive(Clone, Copy, Debug)]
enum Want<'a> {
    True,
    False,
    Same,
    Fact(Terms<'a>, i128),
    None,
}

fn fact(
    rt: &impl Abort,
    alloc: Global,
    terms: Terms,
    constant: i128,
    rel: Rel,
) -> Result<Lin, AllocError>
    ensures { IfOk result (λ f. f.rel ≡ rel) }
{
    let made = Lin::new(Vec::from_slice(alloc, terms)?, constant, rel);
    Ok(made.expect(rt, "the terms are in order"))
}

fn is_fact(f: &Lin, terms: Terms, constant: i128, rel: Rel) -> bool {
    f.coefs.as_slice() == terms && f.constant == constant && f.rel == rel
}

fn divided(
    rt: &impl Abort,
    alloc: Global,
    terms: Terms,
    constant: i128,
    rel: Rel,
    want: Want,
) -> Result<(), AllocError> {
    let result = normal(fact(rt, alloc, terms, constant, rel)?);
    let right = match (&result, want) {
        (NormalForm::True, Want::True) => true,
        (NormalForm::False, Want::False) => true,
        (NormalForm::Fact(f), Want::Same) => is_fact(f, terms, constant, rel),
        (NormalForm::Fact(f), Want::Fact(terms, constant)) => is_fact(f, terms, constant, rel),
        _ => false,
    };
    assert!(rt; right, "{terms:?} + {constant}, {rel:?} gives {result:?}");
    Ok(())
}

fn made(rt: &impl Abort, given: Option<Lin>, rel: Rel, want: Want) {
    let right = match (&given, want) {
        (None, Want::None) => true,
        (Some(f), Want::Fact(terms, constant)) => is_fact(f, terms, constant, rel),
        _ => false,
    };
    assert!(rt; right, "{given:?} for {want:?}");
}

const HIGH: i128 = 1 << 62;

const HALF: i128 = 1 << 61;

#[test]
fn facts_are_divided_and_judged(rt: HostRuntime) -> Result<(), Fail> {
    let a = rt.alloc();
    // x + 1 <= 0, -x + 1 <= 0, v - x - 1 - 2^32 k = 0, v - x <= 0, x - 2^31 = 0, x != 0, x = 0
    divided(&rt, a, &[(0, 1)], 1, Rel::Le, Want::Same)?;
    divided(&rt, a, &[(0, -1)], 1, Rel::Le, Want::Same)?;
    divided(
        &rt,
        a,
        &[(0, 1), (1, -1), (2, -4294967296)],
        -1,
        Rel::Eq,
        Want::Same,
    )?;
    divided(&rt, a, &[(0, 1), (1, -1)], 0, Rel::Le, Want::Same)?;
    divided(&rt, a, &[(0, 1)], -2147483648, Rel::Eq, Want::Same)?;
    divided(&rt, a, &[(0, 1)], 0, Rel::Ne, Want::Same)?;
    divided(&rt, a, &[(0, 1)], 0, Rel::Eq, Want::Same)?;
    // an odd constant under even coefficients
    divided(&rt, a, &[(0, 2), (1, -2)], 1, Rel::Eq, Want::False)?;
    divided(&rt, a, &[(0, 2), (1, -2)], 1, Rel::Ne, Want::True)?;
    divided(
        &rt,
        a,
        &[(0, 2), (1, -2)],
        1,
        Rel::Le,
        Want::Fact(&[(0, 1), (1, -1)], 1),
    )?;
    divided(
        &rt,
        a,
        &[(0, 2), (1, -2)],
        -1,
        Rel::Le,
        Want::Fact(&[(0, 1), (1, -1)], 0),
    )?;
    divided(
        &rt,
        a,
        &[(0, -6), (3, 9)],
        12,
        Rel::Eq,
        Want::Fact(&[(0, -2), (3, 3)], 4),
    )?;
    divided(
        &rt,
        a,
        &[(0, -6), (3, 9)],
        -7,
        Rel::Le,
        Want::Fact(&[(0, -2), (3, 3)], -2),
    )?;
    divided(
        &rt,
        a,
        &[(0, -6), (3, 9)],
        7,
        Rel::Le,
        Want::Fact(&[(0, -2), (3, 3)], 3),
    )?;
    // facts without variables
    divided(&rt, a, &[], 0, Rel::Eq, Want::True)?;
    divided(&rt, a, &[], 3, Rel::Eq, Want::False)?;
    divided(&rt, a, &[], 0, Rel::Le, Want::True)?;
    divided(&rt, a, &[], 1, Rel::Le, Want::False)?;
    divided(&rt, a, &[], 0, Rel::Ne, Want::False)?;
    divided(&rt, a, &[], -1, Rel::Ne, Want::True)?;
    Ok(())
}

#[test]
fn sums_are_exact_below_the_limit(rt: HostRuntime) -> Result<(), Fail> {
    let a = rt.alloc();
    let x = fact(&rt, a, &[(0, 1)], 0, Rel::Le)?;
    let y = fact(&rt, a, &[(1, 1)], 0, Rel::Le)?;
    let far = fact(&rt, a, &[(0, -3)], HALF, Rel::Le)?;
    let le = Rel::Le;
    made(
        &rt,
        combine(a, &x, HALF, &y, 1)?,
        le,
        Want::Fact(&[(0, HALF), (1, 1)], 0),
    );
    made(&rt, combine(a, &x, HIGH, &y, 1)?, le, Want::None);
    made(
        &rt,
        combine(a, &x, HIGH - 1, &y, 1)?,
        le,
        Want::Fact(&[(0, HIGH - 1), (1, 1)], 0),
    );
    made(&rt, combine(a, &x, 3, &far, 1)?, le, Want::Fact(&[], HALF));
    made(&rt, combine(a, &far, 2, &y, 1)?, le, Want::None);
    Ok(())
}

#[test]
fn an_equation_takes_its_variable_out(rt: HostRuntime) -> Result<(), Fail> {
    let a = rt.alloc();
    // v - x - 1 - 2^32 k = 0
    let sum = fact(&rt, a, &[(0, 1), (1, -1), (2, -4294967296)], -1, Rel::Eq)?;
    let order = fact(&rt, a, &[(0, 1), (1, -1)], 0, Rel::Le)?;
    let other = fact(&rt, a, &[(3, 5)], 2, Rel::Ne)?;
    let far = fact(&rt, a, &[(0, HALF)], 0, Rel::Le)?;
    assert!(rt; sum.coefficient(0) == 1);
    made(
        &rt,
        substitute(a, &order, 0, &sum)?,
        Rel::Le,
        Want::Fact(&[(2, 4294967296)], 1),
    );
    made(
        &rt,
        substitute(a, &other, 0, &sum)?,
        Rel::Ne,
        Want::Fact(&[(3, 5)], 2),
    );
    made(&rt, substitute(a, &far, 0, &sum)?, Rel::Le, Want::None);
    assert!(rt; sum.coefficient(1) == -1);
    made(
        &rt,
        substitute(a, &order, 1, &sum)?,
        Rel::Le,
        Want::Fact(&[(2, 4294967296)], 1),
    );
    Ok(())
}

fn gathered(
    rt: &impl Abort,
    alloc: Global,
    terms: Terms,
    constant: i128,
    want: Want,
) -> Result<(), AllocError>
    requires { AreSmall terms.now }
{
    let made_of = Vec::from_slice(alloc, terms)?;
    made(
        rt,
        Lin::from_terms(made_of, constant, Rel::Le),
        Rel::Le,
        want,
    );
    Ok(())
}

#[test]
fn terms_in_any_order_are_added_up(rt: HostRuntime) -> Result<(), Fail> {
    let a = rt.alloc();
    let far = HIGH - 1;
    gathered(&rt, a, &[], 7, Want::Fact(&[], 7))?;
    gathered(
        &rt,
        a,
        &[(2, 1), (0, 1), (2, 1)],
        0,
        Want::Fact(&[(0, 1), (2, 2)], 0),
    )?;
    gathered(
        &rt,
        a,
        &[(3, 2), (1, 5), (3, -2)],
        7,
        Want::Fact(&[(1, 5)], 7),
    )?;
    // 2^62 at the end is too large, on the way it isn't
    gathered(&rt, a, &[(0, HALF), (1, 1), (0, HALF)], 0, Want::None)?;
    gathered(
        &rt,
        a,
        &[(0, far), (1, 1), (0, far), (0, -far)],
        0,
        Want::Fact(&[(0, far), (1, 1)], 0),
    )?;
    gathered(&rt, a, &[(0, 1)], HIGH, Want::None)?;
    Ok(())
}

#[test]
fn variables_get_new_names(rt: HostRuntime) -> Result<(), Fail> {
    let a = rt.alloc();
    // v - x + 5 y = 3
    let f = fact(&rt, a, &[(0, 1), (1, -1), (4, 5)], -3, Rel::Eq)?;
    let eq = Rel::Eq;
    made(
        &rt,
        f.renamed(a, &[])?,
        eq,
        Want::Fact(&[(0, 1), (1, -1), (4, 5)], -3),
    );
    made(
        &rt,
        f.renamed(a, &[7, 3])?,
        eq,
        Want::Fact(&[(3, -1), (4, 5), (7, 1)], -3),
    );
    made(&rt, f.renamed(a, &[2, 2])?, eq, Want::Fact(&[(4, 5)], -3));
    made(
        &rt,
        f.renamed(a, &[0, 4, 0, 0])?,
        eq,
        Want::Fact(&[(0, 1), (4, 4)], -3),
    );
    let two = fact(&rt, a, &[(0, HALF), (1, HALF)], 0, Rel::Eq)?;
    made(&rt, two.renamed(a, &[1])?, eq, Want::None);
    Ok(())
}

#[test]
fn facts_are_made_copied_and_compared(rt: HostRuntime) -> Result<(), Fail> {
    let a = rt.alloc();
    for terms in [
        [(1, 1), (0, 1)],
        [(1, 1), (1, 2)],
        [(0, 1), (1, 0)],
        [(0, HIGH), (1, 1)],
    ] {
        let made = Lin::new(Vec::from_slice(a, &terms)?, 0, Rel::Le);
        assert!(rt; made.is_none(), "{terms:?}");
    }
    let f = fact(&rt, a, &[(0, 1), (4294967295, -1)], HIGH - 1, Rel::Ne)?;
    let g = f.copy(a)?;
    assert!(rt; f.same(&g));
    assert!(rt; !f.same(&fact(&rt, a, &[(0, 1)], HIGH - 1, Rel::Ne)?));
    assert_eq!(rt; gcd(12, 18), 6);
    Ok(())
}
