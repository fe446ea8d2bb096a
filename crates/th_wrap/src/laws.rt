//! What the definitions of the operations mean.
ghost use Rattle.std.specs.Prelude.{◌≡◌, ◌-◌, ◌^◌, ◌<◌, ◌≤◌, ◌≢◌, ℕ, ℤ, pos, negsuc, ◌+ℤ◌, ◌-ℤ◌, ◌*ℤ◌, ◌≤ℤ◌, neg_ℤ, int_div, int_rem, unsigned_abs, Some};
ghost use Rattle.th_wrap.specs.Arithmetic.{sum_of, difference_of, negation_of, quotient_of, remainder_of, narrowing_of, char_of};
ghost use Rattle.th_wrap.specs.TwosComplement.{IsInSignedRange, IsCongruent, wrapped_value};
ghost use Rattle.th_wrap.specs.Carries.{HasOneCarry};

/// A sum, a difference or a negation of numbers of the signed range is the exact one plus 2^w
/// times k, for exactly one k of -1, 0 and 1.
pub fn one_carry()
    ensures sum { (w : ℕ) (a b : ℤ) → 0 < w → IsInSignedRange w a → IsInSignedRange w b → HasOneCarry w (a +ℤ b) (sum_of w a b) }
    ensures difference { (w : ℕ) (a b : ℤ) → 0 < w → IsInSignedRange w a → IsInSignedRange w b → HasOneCarry w (a -ℤ b) (difference_of w a b) }
    ensures negation { (w : ℕ) (a : ℤ) → 0 < w → IsInSignedRange w a → HasOneCarry w (neg_ℤ a) (negation_of w a) }
{}

/// Wrapping gives a number of the signed range that differs by a multiple of 2^w, and the only one.
pub fn wraps_into_range()
    ensures range { (w : ℕ) (z : ℤ) → 0 < w → IsInSignedRange w (wrapped_value w z) }
    ensures congruent { (w : ℕ) (z : ℤ) → IsCongruent w (wrapped_value w z) z }
    ensures only { (w : ℕ) (y z : ℤ) → 0 < w → IsInSignedRange w y → IsCongruent w y z → y ≡ wrapped_value w z }
{}

/// The quotient times the divisor, with the remainder, is the dividend, and the remainder is
/// smaller than the divisor. Neither wraps, but for the least number divided by -1.
pub fn divides_toward_zero()
    ensures parts { (a b : ℤ) → int_div a b *ℤ b +ℤ int_rem a b ≡ a }
    ensures small { (a b : ℤ) → b ≢ pos 0 → unsigned_abs (int_rem a b) < unsigned_abs b }
    ensures toward_zero { (a b : ℤ) → unsigned_abs (int_div a b *ℤ b) ≤ unsigned_abs a }
    ensures least_int { quotient_of 32 (neg_ℤ (pos (2 ^ 31))) (negsuc 0) ≡ Some (neg_ℤ (pos (2 ^ 31))) }
    ensures least_long { quotient_of 64 (neg_ℤ (pos (2 ^ 63))) (negsuc 0) ≡ Some (neg_ℤ (pos (2 ^ 63))) }
    ensures no_remainder { (a : ℤ) → remainder_of a (negsuc 0) ≡ Some (pos 0) }
{}

/// A narrowed number lies in the range of its type: from -128 to 127 for a byte, from -32768 to
/// 32767 for a short, from 0 to 65535 for a char; the char differs from the number by a multiple of
/// 2^16.
pub fn narrows_into_range()
    ensures byte { (a : ℤ) → (neg_ℤ (pos 128) ≤ℤ narrowing_of 8 a) × (narrowing_of 8 a ≤ℤ pos 127) }
    ensures short { (a : ℤ) → (neg_ℤ (pos 32768) ≤ℤ narrowing_of 16 a) × (narrowing_of 16 a ≤ℤ pos 32767) }
    ensures char { (a : ℤ) → (pos 0 ≤ℤ char_of a) × (char_of a ≤ℤ pos 65535) }
    ensures char_bits { (a : ℤ) → IsCongruent 16 (char_of a) a }
{}
