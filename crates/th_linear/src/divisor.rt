// Greatest common divisors.
ghost use Rattle.std.specs.Prelude.{[], ◌≡◌, ◌≢◌, ◌<◌, ℤ, pos, ◌<ℤ◌};
ghost use Rattle.std.specs.Int.{IsGcd};
ghost use Rattle.std.specs.Int.RustNames.{unsigned_abs};
ghost use Rattle.th_linear.specs.Forms.{AreTerms, Small};
ghost use Rattle.th_linear.specs.Normal.{IsContent};
ghost use Rattle.th_linear.specs.Divided.{gcd_of};

/// The greatest common divisor of two numbers; 0 where both are 0.
pub fn gcd(a: u64, b: u64) -> u64
    ensures common { IsGcd a b result }
    ensures value { 0 < a → result ≡ gcd_of a b }
{
    euclid(a, b)
}

// Euclid's algorithm.
fn euclid(a: u64, b: u64) -> u64
    ensures { IsGcd a b result }
{
    let mut x = a;
    let mut y = b;
    while y != 0 {
        let rest = x % y;
        x = y;
        y = rest;
    }
    x
}

/// The magnitude of a number of a fact.
pub fn magnitude(z: i128) -> u64
    requires { Small z }
    ensures { result ≡ unsigned_abs z }
{
    z.unsigned_abs() as u64
}

// The greatest common divisor of the coefficients.
fn content(coefs: &[(u32, i128)]) -> u64
    requires { AreTerms 0 coefs.now }
    ensures { IsContent result coefs.now }
{
    let mut g = 0;
    for term in coefs {
        if g == 1 {
            return 1;
        }
        g = euclid(g, magnitude(term.1));
    }
    g
}

// The greatest common divisor of the coefficients of a fact with variables.
pub(crate) fn positive_content(coefs: &[(u32, i128)]) -> i128
    requires some { coefs.now ≢ [] }
    requires terms { AreTerms 0 coefs.now }
    ensures positive { pos 0 <ℤ result }
    ensures content { IsContent (unsigned_abs result) coefs.now }
{
    i128::from(content(coefs))
}
