// Arithmetic on `int`, a signed integer of 32 bits.
ghost use Rattle.std.specs.Prelude.{◌≡◌, ◌↔◌, pos, IsNone};
ghost use Rattle.th_wrap.specs.Arithmetic.{sum_of, difference_of, product_of, negation_of, quotient_of, remainder_of, bitwise_and, bitwise_or, bitwise_xor, int_distance, left_shift, right_shift, unsigned_right_shift};

/// The sum (`iadd`).
pub fn add32(a: i32, b: i32) -> i32
    ensures { result ≡ sum_of 32 a b }
{
    a.wrapping_add(b)
}

/// The difference (`isub`).
pub fn sub32(a: i32, b: i32) -> i32
    ensures { result ≡ difference_of 32 a b }
{
    a.wrapping_sub(b)
}

/// The product (`imul`).
pub fn mul32(a: i32, b: i32) -> i32
    ensures { result ≡ product_of 32 a b }
{
    a.wrapping_mul(b)
}

/// The negation (`ineg`).
pub fn neg32(a: i32) -> i32
    ensures { result ≡ negation_of 32 a }
{
    a.wrapping_neg()
}

/// The quotient, rounded toward zero (`idiv`); none where the divisor is 0.
pub fn div32(a: i32, b: i32) -> Option<i32>
    ensures value { result ≡ quotient_of 32 a b }
    ensures zero { IsNone result ↔ (b ≡ pos 0) }
{
    if b == 0 {
        None
    } else {
        Some(a.wrapping_div(b))
    }
}

/// The remainder, with the dividend's sign (`irem`); none where the divisor is 0.
pub fn rem32(a: i32, b: i32) -> Option<i32>
    ensures value { result ≡ remainder_of a b }
    ensures zero { IsNone result ↔ (b ≡ pos 0) }
{
    if b == 0 {
        None
    } else {
        Some(a.wrapping_rem(b))
    }
}

/// Both operands' bits (`iand`).
pub fn and32(a: i32, b: i32) -> i32
    ensures { result ≡ bitwise_and 32 a b }
{
    a & b
}

/// Either operand's bits (`ior`).
pub fn or32(a: i32, b: i32) -> i32
    ensures { result ≡ bitwise_or 32 a b }
{
    a | b
}

/// The bits of one operand alone (`ixor`).
pub fn xor32(a: i32, b: i32) -> i32
    ensures { result ≡ bitwise_xor 32 a b }
{
    a ^ b
}

/// `a` shifted left by the five low-order bits of `b` (`ishl`).
pub fn shl32(a: i32, b: i32) -> i32
    ensures { result ≡ left_shift 32 a (int_distance b) }
{
    a.wrapping_shl(b.cast_unsigned())
}

/// `a` shifted right by the five low-order bits of `b`, its sign coming in (`ishr`).
pub fn shr32(a: i32, b: i32) -> i32
    ensures { result ≡ right_shift a (int_distance b) }
{
    a.wrapping_shr(b.cast_unsigned())
}

/// `a` shifted right by the five low-order bits of `b`, zeros coming in (`iushr`).
pub fn ushr32(a: i32, b: i32) -> i32
    ensures { result ≡ unsigned_right_shift 32 a (int_distance b) }
{
    let bits = a.cast_unsigned().wrapping_shr(b.cast_unsigned());
    bits.cast_signed()
}
