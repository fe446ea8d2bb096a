// Conversions between the integer types.
ghost use Rattle.std.specs.Prelude.{◌≡◌};
ghost use Rattle.th_wrap.specs.Arithmetic.{narrowing_of, char_of};

/// The 8 low-order bits, as a signed number from -128 to 127 (`i2b`).
pub fn narrow8(a: i32) -> i32
    ensures { result ≡ narrowing_of 8 a }
{
    i32::from(((a.cast_unsigned() % 0x100) as u8).cast_signed())
}

/// The 16 low-order bits, as a signed number from -32768 to 32767 (`i2s`).
pub fn narrow16(a: i32) -> i32
    ensures { result ≡ narrowing_of 16 a }
{
    i32::from(((a.cast_unsigned() % 0x1_0000) as u16).cast_signed())
}

/// The 16 low-order bits, as a number from 0 to 65535 (`i2c`).
pub fn narrow_char(a: i32) -> i32
    ensures { result ≡ char_of a }
{
    (a.cast_unsigned() % 0x1_0000) as i32
}

/// The same number as a `long` (`i2l`).
pub fn widen64(a: i32) -> i64
    ensures { result ≡ a }
{
    i64::from(a)
}

/// The 32 low-order bits, as an `int` (`l2i`).
pub fn low32(a: i64) -> i32
    ensures { result ≡ narrowing_of 32 a }
{
    ((a.cast_unsigned() % 0x1_0000_0000) as u32).cast_signed()
}
