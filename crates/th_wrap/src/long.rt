// Arithmetic on `long`, a signed integer of 64 bits.
ghost use Rattle.std.specs.Prelude.{◌≡◌, ◌↔◌, pos, IsNone};
ghost use Rattle.th_wrap.specs.Arithmetic.{sum_of, difference_of, product_of, negation_of, quotient_of, remainder_of, bitwise_and, bitwise_or, bitwise_xor, long_distance, left_shift, right_shift, unsigned_right_shift, comparison_of};

/// The sum (`ladd`).
pub fn add64(a: i64, b: i64) -> i64
    ensures { result ≡ sum_of 64 a b }
{
    a.wrapping_add(b)
}

/// The difference (`lsub`).
pub fn sub64(a: i64, b: i64) -> i64
    ensures { result ≡ difference_of 64 a b }
{
    a.wrapping_sub(b)
}

/// The product (`lmul`).
pub fn mul64(a: i64, b: i64) -> i64
    ensures { result ≡ product_of 64 a b }
{
    a.wrapping_mul(b)
}

/// The negation (`lneg`).
pub fn neg64(a: i64) -> i64
    ensures { result ≡ negation_of 64 a }
{
    a.wrapping_neg()
}

/// The quotient, rounded toward zero (`ldiv`); none where the divisor is 0.
pub fn div64(a: i64, b: i64) -> Option<i64>
    ensures value { result ≡ quotient_of 64 a b }
    ensures zero { IsNone result ↔ (b ≡ pos 0) }
{
    if b == 0 {
        None
    } else {
        Some(a.wrapping_div(b))
    }
}

/// The remainder, with the dividend's sign (`lrem`); none where the divisor is 0.
pub fn rem64(a: i64, b: i64) -> Option<i64>
    ensures value { result ≡ remainder_of a b }
    ensures zero { IsNone result ↔ (b ≡ pos 0) }
{
    if b == 0 {
        None
    } else {
        Some(a.wrapping_rem(b))
    }
}

/// Both operands' bits (`land`).
pub fn and64(a: i64, b: i64) -> i64
    ensures { result ≡ bitwise_and 64 a b }
{
    a & b
}

/// Either operand's bits (`lor`).
pub fn or64(a: i64, b: i64) -> i64
    ensures { result ≡ bitwise_or 64 a b }
{
    a | b
}

/// The bits of one operand alone (`lxor`).
pub fn xor64(a: i64, b: i64) -> i64
    ensures { result ≡ bitwise_xor 64 a b }
{
    a ^ b
}

/// `a` shifted left by the six low-order bits of `b` (`lshl`).
pub fn shl64(a: i64, b: i32) -> i64
    ensures { result ≡ left_shift 64 a (long_distance b) }
{
    a.wrapping_shl(b.cast_unsigned())
}

/// `a` shifted right by the six low-order bits of `b`, its sign coming in (`lshr`).
pub fn shr64(a: i64, b: i32) -> i64
    ensures { result ≡ right_shift a (long_distance b) }
{
    a.wrapping_shr(b.cast_unsigned())
}

/// `a` shifted right by the six low-order bits of `b`, zeros coming in (`lushr`).
pub fn ushr64(a: i64, b: i32) -> i64
    ensures { result ≡ unsigned_right_shift 64 a (long_distance b) }
{
    let bits = a.cast_unsigned().wrapping_shr(b.cast_unsigned());
    bits.cast_signed()
}

/// 1 where `a` is greater, 0 where they are equal, -1 where `a` is less (`lcmp`).
pub fn compare64(a: i64, b: i64) -> i32
    ensures { result ≡ comparison_of a b }
{
    if b < a {
        1
    } else if a < b {
        -1
    } else {
        0
    }
}
