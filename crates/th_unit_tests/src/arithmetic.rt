// Corner values of each call, worked by hand from the rules of the Java specification.
use th_wrap::{
    add32, add64, and32, and64, compare64, div32, div64, low32, mul32, mul64, narrow_char, narrow8,
    narrow16, neg32, neg64, or32, or64, rem32, rem64, shl32, shl64, shr32, shr64, sub32, sub64,
    ushr32, ushr64, widen64, xor32, xor64,
};

#[test]
fn sums_and_products(rt: HostRuntime) {
    assert_eq!(rt; add32(i32::MAX, 1), i32::MIN);
    assert_eq!(rt; add32(i32::MIN, -1), i32::MAX);
    assert_eq!(rt; sub32(i32::MIN, 1), i32::MAX);
    assert_eq!(rt; sub32(0, i32::MIN), i32::MIN);
    assert_eq!(rt; mul32(i32::MIN, -1), i32::MIN);
    assert_eq!(rt; mul32(65536, 65536), 0);
    assert_eq!(rt; neg32(i32::MIN), i32::MIN);
    assert_eq!(rt; neg32(1), -1);
    assert_eq!(rt; add64(i64::MAX, 1), i64::MIN);
    assert_eq!(rt; sub64(i64::MIN, 1), i64::MAX);
    assert_eq!(rt; mul64(i64::MAX, i64::MAX), 1);
    assert_eq!(rt; neg64(i64::MIN), i64::MIN);
}

#[test]
fn quotients_and_remainders(rt: HostRuntime) {
    assert_eq!(rt; div32(7, 0), None);
    assert_eq!(rt; div32(-7, 2), Some(-3));
    assert_eq!(rt; div32(7, -1), Some(-7));
    assert_eq!(rt; div32(i32::MIN, -1), Some(i32::MIN));
    assert_eq!(rt; rem32(7, 0), None);
    assert_eq!(rt; rem32(-7, 2), Some(-1));
    assert_eq!(rt; rem32(i32::MIN, -1), Some(0));
    assert_eq!(rt; div64(7, 0), None);
    assert_eq!(rt; div64(-7, 2), Some(-3));
    assert_eq!(rt; div64(i64::MIN, -1), Some(i64::MIN));
    assert_eq!(rt; rem64(-7, 2), Some(-1));
    assert_eq!(rt; rem64(7, 0), None);
}

#[test]
fn bits(rt: HostRuntime) {
    assert_eq!(rt; and32(-1, 0x55), 0x55);
    assert_eq!(rt; and32(-4, i32::MIN), i32::MIN);
    assert_eq!(rt; or32(i32::MIN, 1), -2147483647);
    assert_eq!(rt; or32(0, -1), -1);
    assert_eq!(rt; xor32(-1, i32::MAX), i32::MIN);
    assert_eq!(rt; and64(-1, i64::MAX), i64::MAX);
    assert_eq!(rt; or64(i64::MIN, i64::MAX), -1);
    assert_eq!(rt; xor64(-1, 1), -2);
}

#[test]
fn shifts_of_int(rt: HostRuntime) {
    assert_eq!(rt; shl32(1, 31), i32::MIN);
    assert_eq!(rt; shl32(1, 32), 1);
    assert_eq!(rt; shl32(1, 33), 2);
    assert_eq!(rt; shl32(1, -1), i32::MIN);
    assert_eq!(rt; shr32(-1, 31), -1);
    assert_eq!(rt; shr32(-3, 1), -2);
    assert_eq!(rt; shr32(i32::MIN, -1), -1);
    assert_eq!(rt; ushr32(-1, 31), 1);
    assert_eq!(rt; ushr32(-1, 32), -1);
    assert_eq!(rt; ushr32(-1, 33), i32::MAX);
}

#[test]
fn shifts_of_long(rt: HostRuntime) {
    assert_eq!(rt; shl64(1, 32), 0x1_0000_0000);
    assert_eq!(rt; shl64(1, -1), i64::MIN);
    assert_eq!(rt; shl64(1, 65), 2);
    assert_eq!(rt; shr64(-1, 63), -1);
    assert_eq!(rt; shr64(-3, 1), -2);
    assert_eq!(rt; ushr64(-1, 63), 1);
    assert_eq!(rt; ushr64(-1, 64), -1);
    assert_eq!(rt; ushr64(-1, 33), 0x7fff_ffff);
}

#[test]
fn conversions(rt: HostRuntime) {
    assert_eq!(rt; narrow8(127), 127);
    assert_eq!(rt; narrow8(128), -128);
    assert_eq!(rt; narrow8(-129), 127);
    assert_eq!(rt; narrow16(0x1_8000), -32768);
    assert_eq!(rt; narrow_char(-1), 65535);
    assert_eq!(rt; widen64(i32::MIN), -2147483648);
    assert_eq!(rt; low32(4294967296), 0);
    assert_eq!(rt; low32(2147483648), i32::MIN);
    assert_eq!(rt; compare64(i64::MIN, i64::MAX), -1);
    assert_eq!(rt; compare64(5, 5), 0);
    assert_eq!(rt; compare64(i64::MAX, i64::MIN), 1);
}
