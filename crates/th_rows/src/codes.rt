// Instructions and code from their bytes, as the Java specification 6.5 spells them.
use std::alloc::Global;
use std::process::Abort;
use std::test::Fail;
use th_base::{Same, Text};
use th_code::{decode, instruction};
use th_pool::{Place, Pool, read_pool};
use th_syntax::{Instr, MemberRef};

// 1 `A`, 2 its class, 3 `f`, 4 `I`, 6 the field f, 7 `m`, 8 `()V`, 10 and 11 the method m of a class
// and of an interface, 12 the int 7, 13 a float, 14 the string `A`, 15 the long -3, 17 a double, 20
// the class `[F`, 23 a field of type D, 26 `<init>`, 28 the class `a.b`.
const POOL: &[u8] =
    b"\0\x1d\x01\0\x01A\x07\0\x01\x01\0\x01f\x01\0\x01I\x0c\0\x03\0\x04\x09\0\x02\0\x05\x01\0\x01m\x01\0\x03()V\x0c\0\x07\0\x08\x0a\0\x02\0\x09\x0b\0\x02\0\x09\x03\0\0\0\x07\x04\0\0\0\0\x08\0\x01\x05\xff\xff\xff\xff\xff\xff\xff\xfd\x06\0\0\0\0\0\0\0\0\x01\0\x02[F\x07\0\x13\x01\0\x01D\x0c\0\x03\0\x15\x09\0\x02\0\x16\x01\0\x06<init>\x0c\0\x18\0\x08\x0a\0\x02\0\x19\x01\0\x03a.b\x07\0\x1b";

// The instruction at the front of the bytes, and how many bytes it takes, or the number of its flaw.
fn told(alloc: Global, pool: &Pool, bytes: &[u8]) -> Result<String, Fail> {
    if bytes.len() > 1000 {
        return Err("too many bytes".into());
    }
    let place = Place { at: 0, rest: bytes };
    match instruction(alloc, pool, place) {
        Ok((instr, behind)) => Ok(format!(in alloc; "{instr:?} {}", behind.at)?),
        Err(th_base::Fail::Refused(number)) => Ok(format!(in alloc; "E{number}")?),
        Err(th_base::Fail::NoMemory) => Err("no memory".into()),
    }
}

fn digit(byte: u8) -> u8 {
    match byte {
        b'0'..=b'9' => byte - b'0',
        b'a'..=b'f' => byte - b'a' + 10,
        _ => 0,
    }
}

// The bytes that hexadecimal digits spell.
fn bytes_of(alloc: Global, hex: &str) -> Result<Vec<u8>, Fail> {
    let mut bytes = Vec::new(alloc);
    let mut high: Option<u8> = None;
    for byte in hex.as_bytes() {
        let low = digit(*byte);
        high = match high {
            Some(digit) => {
                bytes.push(digit.wrapping_mul(16).wrapping_add(low))?;
                None
            }
            None => Some(low),
        };
    }
    Ok(bytes)
}

// Bytes, the instruction that they spell, and how many of them it takes.
const INSTRUCTIONS: &str = "\
00 Nop 1\n\
01 Null 1\n\
02 Int(-1) 1\n\
03 Int(0) 1\n\
04 Int(1) 1\n\
05 Int(2) 1\n\
06 Int(3) 1\n\
07 Int(4) 1\n\
08 Int(5) 1\n\
09 Long(0) 1\n\
0a Long(1) 1\n\
1a ILoad(0) 1\n\
1b ILoad(1) 1\n\
1c ILoad(2) 1\n\
1d ILoad(3) 1\n\
1e LLoad(0) 1\n\
1f LLoad(1) 1\n\
20 LLoad(2) 1\n\
21 LLoad(3) 1\n\
2a ALoad(0) 1\n\
2b ALoad(1) 1\n\
2c ALoad(2) 1\n\
2d ALoad(3) 1\n\
2e ArrayLoad(Int) 1\n\
2f LArrayLoad 1\n\
32 ArrayLoad(Ref) 1\n\
33 ArrayLoad(Byte) 1\n\
34 ArrayLoad(Char) 1\n\
35 ArrayLoad(Short) 1\n\
3b IStore(0) 1\n\
3c IStore(1) 1\n\
3d IStore(2) 1\n\
3e IStore(3) 1\n\
3f LStore(0) 1\n\
40 LStore(1) 1\n\
41 LStore(2) 1\n\
42 LStore(3) 1\n\
4b AStore(0) 1\n\
4c AStore(1) 1\n\
4d AStore(2) 1\n\
4e AStore(3) 1\n\
4f ArrayStore(Int) 1\n\
50 LArrayStore 1\n\
53 ArrayStore(Ref) 1\n\
54 ArrayStore(Byte) 1\n\
55 ArrayStore(Char) 1\n\
56 ArrayStore(Short) 1\n\
57 Stack(Pop) 1\n\
58 Stack(Pop2) 1\n\
59 Stack(Dup) 1\n\
5a Stack(DupX1) 1\n\
5b Stack(DupX2) 1\n\
5c Stack(Dup2) 1\n\
5d Stack(Dup2X1) 1\n\
5e Stack(Dup2X2) 1\n\
5f Stack(Swap) 1\n\
60 Arith(Add) 1\n\
61 LArith(Add) 1\n\
64 Arith(Sub) 1\n\
65 LArith(Sub) 1\n\
68 Arith(Mul) 1\n\
69 LArith(Mul) 1\n\
6c Arith(Div) 1\n\
6d LArith(Div) 1\n\
70 Arith(Rem) 1\n\
71 LArith(Rem) 1\n\
74 Neg 1\n\
75 LNeg 1\n\
78 Arith(Shl) 1\n\
79 LArith(Shl) 1\n\
7a Arith(Shr) 1\n\
7b LArith(Shr) 1\n\
7c Arith(Ushr) 1\n\
7d LArith(Ushr) 1\n\
7e Arith(And) 1\n\
7f LArith(And) 1\n\
80 Arith(Or) 1\n\
81 LArith(Or) 1\n\
82 Arith(Xor) 1\n\
83 LArith(Xor) 1\n\
85 I2L 1\n\
88 L2I 1\n\
91 Narrow(Byte) 1\n\
92 Narrow(Char) 1\n\
93 Narrow(Short) 1\n\
94 LCmp 1\n\
ac IReturn 1\n\
ad LReturn 1\n\
b0 AReturn 1\n\
b1 Return 1\n\
be ArrayLength 1\n\
bf Throw 1\n\
c2 MonitorEnter 1\n\
c3 MonitorExit 1\n\
10ff Int(-1) 2\n\
118000 Int(-32768) 3\n\
120c Int(7) 2\n\
13000c Int(7) 3\n\
14000f Long(-3) 3\n\
15ff ILoad(255) 2\n\
1602 LLoad(2) 2\n\
1903 ALoad(3) 2\n\
3604 IStore(4) 2\n\
3705 LStore(5) 2\n\
3a06 AStore(6) 2\n\
840180 Inc(1, -128) 3\n\
c4150100 ILoad(256) 4\n\
c4370002 LStore(2) 4\n\
c4840100ffff Inc(256, -1) 6\n\
990007 IfZero(Eq, 7) 3\n\
9a0007 IfZero(Ne, 7) 3\n\
9b0007 IfZero(Lt, 7) 3\n\
9c0007 IfZero(Ge, 7) 3\n\
9d0007 IfZero(Gt, 7) 3\n\
9e0007 IfZero(Le, 7) 3\n\
9f0007 IfInts(Eq, 7) 3\n\
a00007 IfInts(Ne, 7) 3\n\
a10007 IfInts(Lt, 7) 3\n\
a20007 IfInts(Ge, 7) 3\n\
a30007 IfInts(Gt, 7) 3\n\
a40007 IfInts(Le, 7) 3\n\
a50007 IfSame(7) 3\n\
a60007 IfOther(7) 3\n\
a70007 Goto(7) 3\n\
a7ffff Goto(4294967295) 3\n\
c60007 IfNull(7) 3\n\
c70007 IfNotNull(7) 3\n\
c800010000 Goto(65536) 5\n\
bc04 NewArray(Boolean) 2\n\
bc05 NewArray(Char) 2\n\
bc08 NewArray(Byte) 2\n\
bc09 NewArray(Short) 2\n\
bc0a NewArray(Int) 2\n\
bc0b NewArray(Long) 2";

// Bytes, and the number of their flaw: ldc of a float, of a class, ldc2_w of a double, of an int; operands
// past the end; wide before an opcode that it doesn't widen; getstatic of a method and of a double;
// invokevirtual of an interface's method and of <init>; invokeinterface that doesn't end with 0, and of a
// class's method; new of an array, of an ill-formed name, of no class; anewarray and newarray of floats;
// tableswitch whose least number is above the greatest, and without a target; lookupswitch with a negative
// count, a great one, equal keys; and opcodes outside of the profile.
const FLAWS: &str = "\
120d E7\n\
1202 E10\n\
140011 E7\n\
14000c E10\n\
10 E11\n\
b200 E11\n\
c4 E11\n\
c41a E10\n\
b2000a E11\n\
b20017 E7\n\
b6000b E11\n\
b6001a E11\n\
b9000b0101 E11\n\
b9000a0100 E11\n\
bb0014 E6\n\
bb001c E6\n\
bb0001 E11\n\
bd0014 E7\n\
bc06 E11\n\
aa000000000000140000000200000001 E11\n\
aa000000000000140000000100000001 E11\n\
ab0000000000001480000000 E11\n\
ab000000000000147fffffff E11\n\
ab000000000000140000000200000001000000090000000100000009 E11\n\
0b E10\n\
62 E10\n\
a8 E10\n\
ba E10\n\
c5 E10\n\
c9 E10\n\
ca E10\n\
ff E10";

// What the lines of a table say of the bytes that begin each.
fn agree(rt: &impl Abort, alloc: Global, table: &str) -> Result<(), Fail> {
    let (pool, _) = read_pool(alloc, POOL, 0)?;
    for line in table.lines() {
        match line.split_once(' ') {
            Some((hex, want)) => {
                let bytes = bytes_of(alloc, hex)?;
                let found = told(alloc, &pool, bytes.as_slice())?;
                assert_eq!(rt; found.as_str(), want);
            }
            None => return Err("a line without a space".into()),
        }
    }
    Ok(())
}

#[test]
fn instructions_are_told(rt: HostRuntime) -> Result<(), Fail> {
    agree(&rt, rt.alloc(), INSTRUCTIONS)
}

#[test]
fn flaws_of_opcodes_are_told(rt: HostRuntime) -> Result<(), Fail> {
    agree(&rt, rt.alloc(), FLAWS)
}

// Whether the bytes are this instruction, all of them.
fn spells(alloc: Global, pool: &Pool, bytes: &[u8], want: &Instr) -> Result<bool, Fail> {
    if bytes.len() > 1000 {
        return Err("too many bytes".into());
    }
    let place = Place { at: 0, rest: bytes };
    let (instr, behind) = instruction(alloc, pool, place)?;
    Ok(instr.same(want) && behind.rest.is_empty())
}

fn text(alloc: Global, bytes: &[u8]) -> Result<Text, Fail> {
    Ok(Text::from_slice(alloc, bytes)?)
}

fn member(alloc: Global, name: &[u8], descriptor: &[u8]) -> Result<MemberRef, Fail> {
    Ok(MemberRef {
        owner: text(alloc, b"A")?,
        name: text(alloc, name)?,
        descriptor: text(alloc, descriptor)?,
    })
}

#[test]
fn instructions_that_name_something(rt: HostRuntime) -> Result<(), Fail> {
    let alloc = rt.alloc();
    let (pool, _) = read_pool(alloc, POOL, 0)?;
    let want = Instr::Str(text(alloc, b"A")?);
    assert!(rt; spells(alloc, &pool, b"\x12\x0e", &want)?);
    let want = Instr::GetStatic(member(alloc, b"f", b"I")?);
    assert!(rt; spells(alloc, &pool, b"\xb2\0\x06", &want)?);
    let want = Instr::PutStatic(member(alloc, b"f", b"I")?);
    assert!(rt; spells(alloc, &pool, b"\xb3\0\x06", &want)?);
    let want = Instr::GetField(member(alloc, b"f", b"I")?);
    assert!(rt; spells(alloc, &pool, b"\xb4\0\x06", &want)?);
    let want = Instr::PutField(member(alloc, b"f", b"I")?);
    assert!(rt; spells(alloc, &pool, b"\xb5\0\x06", &want)?);
    let want = Instr::InvokeVirtual(member(alloc, b"m", b"()V")?);
    assert!(rt; spells(alloc, &pool, b"\xb6\0\x0a", &want)?);
    let want = Instr::InvokeSpecial(member(alloc, b"<init>", b"()V")?);
    assert!(rt; spells(alloc, &pool, b"\xb7\0\x1a", &want)?);
    let want = Instr::InvokeStatic(member(alloc, b"m", b"()V")?);
    assert!(rt; spells(alloc, &pool, b"\xb8\0\x0b", &want)?);
    let want = Instr::InvokeInterface(member(alloc, b"m", b"()V")?);
    assert!(rt; spells(alloc, &pool, b"\xb9\0\x0b\x05\0", &want)?);
    Ok(())
}

#[test]
fn instructions_that_name_a_class(rt: HostRuntime) -> Result<(), Fail> {
    let alloc = rt.alloc();
    let (pool, _) = read_pool(alloc, POOL, 0)?;
    let want = Instr::New(text(alloc, b"A")?);
    assert!(rt; spells(alloc, &pool, b"\xbb\0\x02", &want)?);
    let want = Instr::ANewArray(text(alloc, b"A")?);
    assert!(rt; spells(alloc, &pool, b"\xbd\0\x02", &want)?);
    let want = Instr::CheckCast(text(alloc, b"A")?);
    assert!(rt; spells(alloc, &pool, b"\xc0\0\x02", &want)?);
    let want = Instr::InstanceOf(text(alloc, b"A")?);
    assert!(rt; spells(alloc, &pool, b"\xc1\0\x02", &want)?);
    Ok(())
}

// How many instructions a code array at offset 100 has, or the number and offset of its first flaw.
fn outcome(alloc: Global, pool: &Pool, code: &[u8], max_locals: u16) -> Result<String, Fail> {
    if code.len() > 1000 {
        return Err("too many bytes".into());
    }
    match decode(alloc, code, 100, max_locals, pool) {
        Ok(instrs) => Ok(format!(in alloc; "{}", instrs.len())?),
        Err(th_base::Fail::Refused(flaw)) => {
            Ok(format!(in alloc; "E{} {}", flaw.number, flaw.offset)?)
        }
        Err(th_base::Fail::NoMemory) => Err("no memory".into()),
    }
}

// Code without local variables: a return; switches to the returns behind them; a local variable; an unknown
// opcode; a branch into an operand, one past the end, and flow past the last instruction; and a flaw of an
// opcode beside one of the flow, which it comes before.
const WITHOUT_LOCALS: &str = "\
b1 1\n\
03aa00000000001700000001000000020000001700000018b1b1 4\n\
03ab00000000001300000001ffffffff00000013b1 3\n\
1ab1 E11 100\n\
000062b1 E10 102\n\
a700041001b1 E11 100\n\
00a70009b1 E11 101\n\
b100 E11 101\n\
a700090b E10 103";

// Each line of a table has a code array, and what is told of it.
fn codes_agree(rt: &impl Abort, alloc: Global, table: &str, max_locals: u16) -> Result<(), Fail> {
    let (pool, _) = read_pool(alloc, POOL, 0)?;
    for line in table.lines() {
        match line.split_once(' ') {
            Some((hex, want)) => {
                let code = bytes_of(alloc, hex)?;
                let found = outcome(alloc, &pool, code.as_slice(), max_locals)?;
                assert_eq!(rt; found.as_str(), want);
            }
            None => return Err("a line without a space".into()),
        }
    }
    Ok(())
}

#[test]
fn code_arrays_are_told(rt: HostRuntime) -> Result<(), Fail> {
    codes_agree(&rt, rt.alloc(), WITHOUT_LOCALS, 0)?;
    codes_agree(&rt, rt.alloc(), "1a99000400b1 4", 1)?;
    // of a long the second variable is past the last
    codes_agree(&rt, rt.alloc(), "001fb1 E11 101", 2)
}
