// Kinds of small methods and their conflicts, as they were worked out by hand.
use crate::class_files::{ACT, edited};
use std::alloc::Global;
use std::process::Abort;
use std::test::Fail;
use th_base::Text;
use th_kinds::{Kinds, flows_well, infer};
use th_reader::read_class;
use th_syntax::{Member, SlotKind};

// What stands before the descriptor of a class A with a static method m, what stands between that and
// the size of the code, and what stands behind the code.
const FRONT: &[u8] =
    b"\xca\xfe\xba\xbe\0\0\04\0\x08\x07\0\x02\x01\0\x01A\x07\0\x04\x01\0\x10java/lang/Object\x01\0\x01m\x01\0";

const MIDDLE: &[u8] =
    b"\x01\0\x04Code\0\x21\0\x01\0\x03\0\0\0\0\0\x01\0\x09\0\x05\0\x06\0\x01\0\x07\0\0\0";

const BEHIND: &[u8] = b"\0\0\0\0\0\0";

fn letter(kind: SlotKind) -> char {
    match kind {
        SlotKind::Int => 'I',
        SlotKind::Ref => 'R',
        SlotKind::Long => 'L',
        SlotKind::SecondHalf => 'H',
        SlotKind::Unusable => 'U',
    }
}

fn push_kinds(alloc: Global, text: &mut String, kinds: &[SlotKind]) -> Result<(), Fail> {
    for kind in kinds {
        text.push(letter(*kind))?;
    }
    Ok(())
}

// More rows than any of the methods here has.
const MOST_ROWS: usize = 1000;

// Each row as its offset, its locals and its stack, the top last.
fn rows_of(alloc: Global, kinds: &Kinds) -> Result<String, Fail> {
    let mut text = String::new(alloc);
    let mut walk = kinds.walk(alloc)?;
    for _ in 0..MOST_ROWS {
        match walk.here() {
            Some(row) => {
                text.push_str(format!(in alloc; " {}:", row.offset)?.as_str())?;
                push_kinds(alloc, &mut text, row.locals)?;
                text.push('|')?;
                push_kinds(alloc, &mut text, row.stack)?;
            }
            None => return Ok(text),
        }
        walk.advance(alloc)?;
    }
    Err("more rows than were looked for".into())
}

// The rows of a method with code, or the number and the offset of its refusal.
fn method_told(alloc: Global, class: &Text, method: &Member) -> Result<String, Fail> {
    let code = match &method.code {
        Some(code) => code,
        None => return Err("no code".into()),
    };
    let well = flows_well(alloc, code.instrs.as_slice())?;
    if !well {
        return Err("a jump leads astray".into());
    }
    match infer(alloc, class, method) {
        Ok(kinds) => rows_of(alloc, &kinds),
        Err(th_base::Fail::Refused(refusal)) => {
            Ok(format!(in alloc; " E{} {}", refusal.number, refusal.offset)?)
        }
        Err(th_base::Fail::NoMemory) => Err("no memory".into()),
    }
}

// What is told of each method of a class.
pub(crate) fn told(alloc: Global, bytes: &[u8]) -> Result<String, Fail> {
    if bytes.len() > 1000 {
        return Err("the bytes are too long".into());
    }
    let class = match read_class(alloc, &Text::new(alloc)?, bytes) {
        Ok(class) => class,
        Err(_) => return Err("no class file".into()),
    };
    let mut text = String::new(alloc);
    for method in class.methods.as_slice() {
        text.push_str(method_told(alloc, &class.name, method)?.as_str())?;
    }
    Ok(text)
}

fn digit(byte: u8) -> u8 {
    match byte {
        b'0'..=b'9' => byte - b'0',
        b'a'..=b'f' => byte - b'a' + 10,
        _ => 0,
    }
}

// The bytes that hexadecimal digits spell.
fn bytes_of(alloc: Global, hex: &str) -> Result<Vec<u8>, Fail> {
    let mut bytes = Vec::new(alloc);
    let mut high: Option<u8> = None;
    for byte in hex.as_bytes() {
        let low = digit(*byte);
        high = match high {
            Some(digit) => {
                bytes.push(digit.wrapping_mul(16).wrapping_add(low))?;
                None
            }
            None => Some(low),
        };
    }
    Ok(bytes)
}

// The file of a class whose method has this descriptor, and the room and the code that the digits spell:
// two digits for max_stack, two for max_locals, then the code.
fn class_with(alloc: Global, descriptor: &str, hex: &str) -> Result<Vec<u8>, Fail> {
    let code = bytes_of(alloc, hex)?;
    if descriptor.len() > 100 || code.len() < 2 || code.len() > 100 {
        return Err("too long".into());
    }
    let mut bytes = FRONT.to_vec(alloc)?;
    bytes.push(descriptor.len() as u8)?;
    bytes.extend_from_slice(descriptor.as_bytes())?;
    bytes.extend_from_slice(MIDDLE)?;
    bytes.push(code.len() as u8 + 10)?;
    bytes.extend_from_slice(&[0, code[0], 0, code[1], 0, 0, 0, code.len() as u8 - 2])?;
    let (_, instructions) = code.as_slice().split_at(2);
    bytes.extend_from_slice(instructions)?;
    bytes.extend_from_slice(BEHIND)?;
    Ok(bytes)
}

// Each line has a descriptor, digits for the room and the code, and what is told of the method: longs that
// meet; two kinds in a local that is used, and in one that isn't; a loop whose second round finds a conflict,
// and one without; depths that differ; a missing operand that jumps back; code that isn't reached; arguments
// without room; half of a long that is popped; too deep a stack; another result; a reference that is
// incremented; a switch; a choice of two values.
const METHODS: &str = "\
(JI)V 03041c9900061e41001e40b1 0:LHIU| 1:LHIU|I 4:LHIU| 5:LHIU|LH 6:LHLH| 7:LHUU| 8:LHUU|LH 9:ULHU|\n\
(I)V 01011a990005014b1a57b1 E12 6\n\
(I)V 01011a990005014bb1 0:I| 1:I|I 4:I| 5:I|R 6:U|\n\
()V 0101033b1a990008014ba7fffab1 E12 2\n\
()V 0101033b1a990009840001a7fff9b1 0:U| 1:U|I 2:I| 3:I|I 6:I| 9:I| 12:I|\n\
(I)V 01011a9900040100b1 E12 5\n\
()V 0100a7000500b157a7fffd E12 3\n\
()V 0000b157b1 0:|\n\
(J)V 000100b1 E12 0\n\
()V 02000957b1 E12 1\n\
()V 000003b1 E12 0\n\
()V 010003ac E12 1\n\
([I)V 0001840001b1 E12 0\n\
(I)I 01021aab000000000018000000010000000100000013083ca70005073c1bac 0:IU| 1:IU|I 20:IU| 21:IU|I 22:II| 25:IU| 26:IU|I 27:II| 28:II|I\n\
(I)[I 01011a99000701a7000604bc0ab0 0:I| 1:I|I 4:I| 5:I|R 8:I| 9:I|I 11:I|R";

#[test]
fn methods_have_kinds_or_a_conflict(rt: HostRuntime) -> Result<(), Fail> {
    let alloc = rt.alloc();
    for line in METHODS.lines() {
        if let Some((descriptor, rest)) = line.split_once(' ') {
            if let Some((hex, want)) = rest.split_once(' ') {
                let bytes = class_with(alloc, descriptor, hex)?;
                let found = told(alloc, bytes.as_slice())?;
                assert_eq!(rt; found.as_str().trim_start(), want);
            }
        }
    }
    Ok(())
}

// A constructor; with no room on the stack; with an `ireturn`; and with half of a long popped.
#[test]
fn a_constructor_is_refused_for_edits(rt: HostRuntime) -> Result<(), Fail> {
    let alloc = rt.alloc();
    assert_eq!(rt; told(alloc, ACT)?.as_str(), " 0:R| 1:R|R 4:R|");
    let bytes = edited(alloc, ACT, &[(104, 0)])?;
    assert_eq!(rt; told(alloc, bytes.as_slice())?.as_str(), " E12 0");
    let bytes = edited(alloc, ACT, &[(115, 0xac)])?;
    assert_eq!(rt; told(alloc, bytes.as_slice())?.as_str(), " E12 4");
    let bytes = edited(
        alloc,
        ACT,
        &[(104, 2), (111, 0x09), (112, 0x57), (113, 0xb1), (114, 0xb1)],
    )?;
    assert_eq!(rt; told(alloc, bytes.as_slice())?.as_str(), " E12 1");
    Ok(())
}
