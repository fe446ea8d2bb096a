// Files and their refusals, as they were worked out by hand.
use std::alloc::Global;
use std::test::Fail;
use th_base::Text;
use th_reader::read_class;
use th_syntax::{ClassFile, Constant, Refusal};

// A class Act with a constructor alone, of 122 bytes.
pub(crate) const ACT: &[u8] =
    b"\xca\xfe\xba\xbe\0\0\0\x34\0\x0a\x07\0\x02\x01\0\x03Act\x07\0\x04\x01\0\x14android/app/Activity\x01\0\x06<init>\x01\0\x03()V\x01\0\x04Code\x0a\0\x03\0\x09\x0c\0\x05\0\x06\0\x21\0\x01\0\x03\0\0\0\0\0\x01\0\x01\0\x05\0\x06\0\x01\0\x07\0\0\0\x11\0\x01\0\x01\0\0\0\x05\x2a\xb7\0\x08\xb1\0\0\0\0\0\0";

// A class Act with a native method m, and one whose m holds an `fadd`.
const NATIVE: &[u8] =
    b"\xca\xfe\xba\xbe\0\0\04\0\x0b\x01\0\x03Act\x07\0\x01\x01\0\x14android/app/Activity\x07\0\x03\x01\0\x06<init>\x01\0\x03()V\x0c\0\x05\0\x06\x0a\0\x04\0\x07\x01\0\x04Code\x01\0\x01m\0!\0\x02\0\x04\0\0\0\0\0\x02\0\x01\0\x05\0\x06\0\x01\0\x09\0\0\0\x11\0\x01\0\x01\0\0\0\x05*\xb7\0\x08\xb1\0\0\0\0\x01\0\0\x0a\0\x06\0\0\0\0";

const FADD: &[u8] =
    b"\xca\xfe\xba\xbe\0\0\04\0\x0b\x01\0\x03Act\x07\0\x01\x01\0\x14android/app/Activity\x07\0\x03\x01\0\x06<init>\x01\0\x03()V\x0c\0\x05\0\x06\x0a\0\x04\0\x07\x01\0\x04Code\x01\0\x01m\0!\0\x02\0\x04\0\0\0\0\0\x02\0\x01\0\x05\0\x06\0\x01\0\x09\0\0\0\x11\0\x01\0\x01\0\0\0\x05*\xb7\0\x08\xb1\0\0\0\0\0\x01\0\x0a\0\x06\0\x01\0\x09\0\0\0\x0e\0\x06\0\x01\0\0\0\x02b\xb1\0\0\0\0\0\0";

// What `javac` made of a class Act with a static field, a constructor and a method with a handler,
// a StackMapTable and a LineNumberTable.
const HANDLER: &[u8] =
    b"\xca\xfe\xba\xbe\0\0\04\0\x16\x01\0\x03Act\x07\0\x01\x01\0\x14android/app/Activity\x07\0\x03\x01\0\x04last\x01\0\x16Landroid/app/Activity;\x01\0\x06<init>\x01\0\x03()V\x0c\0\x07\0\x08\x0a\0\x04\0\x09\x01\0\x04Code\x01\0\x1ajava/lang/RuntimeException\x07\0\x0c\x0c\0\x05\0\x06\x09\0\x02\0\x0e\x01\0\x0dStackMapTable\x01\0\x0fLineNumberTable\x01\0\x08onCreate\x01\0\x16(Landroid/os/Bundle;)V\x01\0\x08Act.java\x01\0\x0aSourceFile\0!\0\x02\0\x04\0\0\0\x01\0\x08\0\x05\0\x06\0\0\0\x02\0\x01\0\x07\0\x08\0\x01\0\x0b\0\0\0\x11\0\x01\0\x01\0\0\0\x05*\xb7\0\x0a\xb1\0\0\0\0\0\x01\0\x12\0\x13\0\x01\0\x0b\0\0\06\0\x01\0\x03\0\0\0\x09*\xb3\0\x0f\xa7\0\x04M\xb1\0\x01\0\0\0\x04\0\x07\0\x0d\0\x02\0\x10\0\0\0\x07\0\x02G\x07\0\x0d\0\0\x11\0\0\0\x06\0\x01\0\0\0\x05\0\x01\0\x15\0\0\0\x02\0\x14";

// What `javac` made of examples/limits/Limits.java: an interface with constants and a `<clinit>`.
pub(crate) const LIMITS: &[u8] =
    b"\xca\xfe\xba\xbe\0\0\04\0#\x07\0\x02\x01\0\x10java/lang/Object\x0a\0\x01\0\x04\x0c\0\x05\0\x06\x01\0\x06<init>\x01\0\x03()V\x09\0\x08\0\x09\x07\0\x0a\x0c\0\x0b\0\x0c\x01\0\x06Limits\x01\0\x04LOCK\x01\0\x12Ljava/lang/Object;\x07\0\x0e\x01\0\x12java/lang/Runnable\x01\0\x04MOST\x01\0\x01I\x01\0\x0dConstantValue\x03\0\0\0\x05\x01\0\x03FAR\x01\0\x01J\x05\0\0\x01\0\0\0\0\0\x01\0\x04NAME\x01\0\x12Ljava/lang/String;\x08\0\x1a\x01\0\x06limits\x01\0\x02ON\x01\0\x01Z\x03\0\0\0\x01\x01\0\x06LETTER\x01\0\x01C\x03\0\0\0a\x01\0\x08<clinit>\x01\0\x04Code\x06\0\0\x08\0\x01\0\x01\0\x0d\0\x06\0\x19\0\x0f\0\x10\0\x01\0\x11\0\0\0\x02\0\x12\0\x19\0\x13\0\x14\0\x01\0\x11\0\0\0\x02\0\x15\0\x19\0\x17\0\x18\0\x01\0\x11\0\0\0\x02\0\x19\0\x19\0\x1b\0\x1c\0\x01\0\x11\0\0\0\x02\0\x1d\0\x19\0\x1e\0\x1f\0\x01\0\x11\0\0\0\x02\0 \0\x19\0\x0b\0\x0c\0\0\0\x01\0\x08\0!\0\x06\0\x01\0\x22\0\0\0\x17\0\x02\0\0\0\0\0\x0b\xbb\0\x01Y\xb7\0\x03\xb3\0\x07\xb1\0\0\0\0\0\0";

// What `javac` made of examples/counter/Counter.java: loops, switches, longs, arrays and a handler.
pub(crate) const COUNTER: &[u8] =
    b"\xca\xfe\xba\xbe\0\0\04\0%\x0a\0\x02\0\x03\x07\0\x04\x0c\0\x05\0\x06\x01\0\x10java/lang/Object\x01\0\x06<init>\x01\0\x03()V\x07\0\x08\x01\0\x07Counter\x05\0\0\x01\0\0\0\0\0\x09\0\x07\0\x0c\x0c\0\x0d\0\x0e\x01\0\x05total\x01\0\x01J\x09\0\x07\0\x10\x0c\0\x11\0\x12\x01\0\x04seen\x01\0\x02[I\x05\0\0\0\0\0\0\0\x1f\x07\0\x16\x01\0\x1ajava/lang/RuntimeException\x01\0\x05START\x01\0\x0dConstantValue\x01\0\x04Code\x01\0\x0fLineNumberTable\x01\0\x04kind\x01\0\x04(I)I\x01\0\x0dStackMapTable\x01\0\x04name\x01\0\x03add\x01\0\x04(I)V\x01\0\x09isCounter\x01\0\x15(Ljava/lang/Object;)Z\x01\0\x0aSourceFile\x01\0\x0cCounter.java\0 \0\x07\0\x02\0\0\0\x03\0\x1a\0\x17\0\x0e\0\x01\0\x18\0\0\0\x02\0\x09\0\x02\0\x0d\0\x0e\0\0\0\x12\0\x11\0\x12\0\0\0\x05\0\0\0\x05\0\x06\0\x01\0\x19\0\0\03\0\x03\0\x01\0\0\0\x13*\xb7\0\x01*\x14\0\x09\xb5\0\x0b*\x07\xbc\x0a\xb5\0\x0f\xb1\0\0\0\x01\0\x1a\0\0\0\x0e\0\x03\0\0\0\x02\0\x04\0\x04\0\x0b\0\x05\0\0\0\x1b\0\x1c\0\x01\0\x19\0\0\0`\0\x02\0\x02\0\0\0.\x1b\xaa\0\0\0\0\0!\0\0\0\0\0\0\0\x02\0\0\0\x1b\0\0\0\x1b\0\0\0\x1e\x10\x0a\xac\x10\x14\xac\x1b\x10d\xa4\0\x07\x04\xa7\0\x04\x03\xac\0\0\0\x02\0\x1a\0\0\0\x12\0\x04\0\0\0\x08\0\x1c\0\x0b\0\x1f\0\x0d\0\"\0\x0f\0\x1d\0\0\0\x08\0\x05\x1c\x02\x02\x09@\x01\0\0\0\x1e\0\x1c\0\x01\0\x19\0\0\0Q\0\x01\0\x02\0\0\0\"\x1b\xab\0\0\0\0\0\x1f\0\0\0\x02\xff\xf0\xbd\xc0\0\0\0\x1b\0\x0fB@\0\0\0\x1d\x04\xac\x05\xac\x06\xac\0\0\0\x02\0\x1a\0\0\0\x12\0\x04\0\0\0\x14\0\x1c\0\x16\0\x1e\0\x18\0 \0\x1a\0\x1d\0\0\0\x05\0\x03\x1c\x01\x01\0\0\0\x1f\0 \0\x01\0\x19\0\0\0b\0\x05\0\x03\0\0\0+\x03=\x1c*\xb4\0\x0f\xbe\xa2\0\x13*\xb4\0\x0f\x1c\\.\x1b`O\x84\x02\x01\xa7\xff\xea**\xb4\0\x0b\x14\0\x13i\x1b\x85a\xb5\0\x0b\xb1\0\0\0\x02\0\x1a\0\0\0\x16\0\x05\0\0\0\x1f\0\x0b\0 \0\x15\0\x1f\0\x1b\0\"\0*\0#\0\x1d\0\0\0\x09\0\x02\xfc\0\x02\x01\xfa\0\x18\0\0\0!\0\"\0\x01\0\x19\0\0\0V\0\x04\0\x03\0\0\0\x1f+\xc1\0\x07\x99\0\x16+\xc0\0\x07\xb4\0\x0b*\xb4\0\x0b\x94\x9a\0\x07\x04\xa7\0\x04\x03\xacM\x03\xac\0\x01\0\0\0\x1b\0\x1c\0\x15\0\x02\0\x1a\0\0\0\x0e\0\x03\0\0\0'\0\x1c\0(\0\x1d\0)\0\x1d\0\0\0\x09\0\x03\x1a@\x01@\x07\0\x15\0\x01\0#\0\0\0\x02\0$";

// The offsets at which an item of ACT begins, from the version on.
const STARTS: [u32; 42] = [
    4, 6, 8, 10, 11, 13, 14, 16, 19, 20, 22, 23, 25, 45, 46, 48, 54, 55, 57, 60, 61, 63, 67, 68,
    70, 72, 73, 75, 77, 79, 81, 83, 85, 87, 89, 91, 93, 95, 97, 99, 103, 120,
];

// The answer for bytes under the name `Act.class`.
fn answer(alloc: Global, bytes: &[u8]) -> Result<Result<ClassFile, Refusal>, Fail> {
    if bytes.len() > 1000 {
        return Err("the bytes are too long".into());
    }
    let file = Text::from_slice(alloc, b"Act.class")?;
    match read_class(alloc, &file, bytes) {
        Ok(class) => Ok(Ok(class)),
        Err(th_base::Fail::Refused(refusal)) => Ok(Err(refusal)),
        Err(th_base::Fail::NoMemory) => Err("no memory".into()),
    }
}

// The number and the offset of the refusal of bytes; `None` where they are a class file.
fn refused(alloc: Global, bytes: &[u8]) -> Result<Option<(u8, u32)>, Fail> {
    match answer(alloc, bytes)? {
        Ok(_) => Ok(None),
        Err(refusal) => {
            if refusal.class.as_bytes() != b"Act.class".as_slice() || !refusal.member.is_empty() {
                return Err("the refusal names another file or a member".into());
            }
            Ok(Some((refusal.number, refusal.offset)))
        }
    }
}

// The bytes with some of them changed.
pub(crate) fn edited(alloc: Global, bytes: &[u8], edits: &[(usize, u8)]) -> Result<Vec<u8>, Fail> {
    let mut copy = bytes.to_vec(alloc)?;
    for (at, byte) in edits {
        if *at < copy.len() {
            copy[*at] = *byte;
        }
    }
    Ok(copy)
}

// The greatest start of an item that isn't above so many bytes.
fn last_start(count: u32) -> u32 {
    let mut last = 0;
    for start in STARTS {
        if start <= count {
            last = start;
        }
    }
    last
}

#[test]
fn edits_are_refused(rt: HostRuntime) -> Result<(), Fail> {
    let alloc = rt.alloc();
    let table: [(&[(usize, u8)], u8, u32); 16] = [
        (&[(7, 0x35)], 3, 6),
        (&[(8, 0), (9, 0)], 4, 8),
        (&[(10, 0x02)], 4, 10),
        (&[(72, 0x05)], 4, 72),
        (&[(12, 0x03)], 4, 10),
        (&[(80, 0x02)], 4, 79),
        (&[(16, 0x3b)], 6, 79),
        (&[(57, 0x56)], 6, 93),
        (&[(59, 0x46)], 7, 93),
        (&[(89, 0x01)], 8, 89),
        (&[(77, 0x02)], 19, 89),
        (&[(96, 0x00)], 2, 105),
        (&[(99, 0x7f)], 2, 103),
        (&[(102, 0x12)], 2, 121),
        // Names come after indices, and content after names.
        (&[(16, 0x3b), (80, 0x02)], 4, 79),
        (&[(59, 0x46), (89, 0x01)], 7, 93),
    ];
    for (edits, number, offset) in table {
        let bytes = edited(alloc, ACT, edits)?;
        assert_eq!(rt; refused(alloc, bytes.as_slice())?, Some((number, offset)));
    }
    Ok(())
}

#[test]
fn wrong_code_is_refused(rt: HostRuntime) -> Result<(), Fail> {
    let alloc = rt.alloc();
    let table = [
        (111, 0x62, 10, 111),
        (111, 0x2b, 11, 111),
        (114, 0x07, 11, 112),
        (115, 0, 11, 115),
    ];
    for (at, byte, number, offset) in table {
        let bytes = edited(alloc, ACT, &[(at, byte)])?;
        assert_eq!(rt; refused(alloc, bytes.as_slice())?, Some((number, offset)));
    }
    assert_eq!(rt; refused(alloc, FADD)?, Some((10, 146)));
    assert_eq!(rt; refused(alloc, NATIVE)?, Some((8, 124)));
    Ok(())
}

#[test]
fn prefixes_are_refused(rt: HostRuntime) -> Result<(), Fail> {
    for count in 0..ACT.len() {
        let (front, _) = ACT.split_at(count);
        let want = if count < 4 {
            (1, 0)
        } else {
            (2, last_start(count as u32))
        };
        assert_eq!(rt; refused(rt.alloc(), front)?, Some(want));
    }
    let mut longer = ACT.to_vec(rt.alloc())?;
    longer.push(0)?;
    assert_eq!(rt; refused(rt.alloc(), longer.as_slice())?, Some((5, 122)));
    Ok(())
}

#[test]
fn class_is_read(rt: HostRuntime) -> Result<(), Fail> {
    match answer(rt.alloc(), ACT)? {
        Ok(class) => {
            assert_eq!(rt; class.major, 52);
            assert_eq!(rt; class.access, 0x21);
            assert_eq!(rt; class.name.as_bytes(), b"Act".as_slice());
            assert_eq!(rt; class.fields.len(), 0);
            assert_eq!(rt; class.methods.len(), 1);
        }
        Err(_) => assert!(rt; false),
    }
    for (at, byte) in [(115, 0xac), (82, 0x00), (82, 0x01), (111, 0x01)] {
        let bytes = edited(rt.alloc(), ACT, &[(at, byte)])?;
        assert_eq!(rt; refused(rt.alloc(), bytes.as_slice())?, None);
    }
    Ok(())
}

// Of each method's code the room on the stack and for local variables, and how many instructions and
// entries of the exception table it has.
fn codes_of(
    alloc: Global,
    bytes: &[u8],
    fields: usize,
) -> Result<Vec<(u16, u16, usize, u32)>, Fail> {
    let mut found = Vec::new(alloc);
    match answer(alloc, bytes)? {
        Ok(class) => {
            if class.fields.len() != fields {
                return Err("other fields".into());
            }
            for method in class.methods.as_slice() {
                match &method.code {
                    Some(code) => {
                        found.push((
                            code.max_stack,
                            code.max_locals,
                            code.instrs.len(),
                            code.handlers,
                        ))?;
                    }
                    None => return Err("a method without code".into()),
                }
            }
        }
        Err(_) => return Err("the file is refused".into()),
    }
    Ok(found)
}

// The numbers are those that `javap -c -v` prints.
#[test]
fn compiled_code_is_read(rt: HostRuntime) -> Result<(), Fail> {
    let found = codes_of(rt.alloc(), HANDLER, 1)?;
    assert_eq!(rt; found.as_slice(), [(1, 1, 3, 0), (1, 3, 5, 1)].as_slice());
    let found = codes_of(rt.alloc(), COUNTER, 3)?;
    let want = [
        (3, 1, 10, 0),
        (2, 2, 13, 0),
        (1, 2, 8, 0),
        (5, 3, 27, 0),
        (4, 3, 17, 1),
    ];
    assert_eq!(rt; found.as_slice(), want.as_slice());
    Ok(())
}

// What a constant is, in words.
fn constant_words(alloc: Global, constant: &Option<Constant>) -> Result<String, Fail> {
    Ok(match constant {
        Some(Constant::Int(value)) => format!(in alloc; "int {value}")?,
        Some(Constant::Long(value)) => format!(in alloc; "long {value}")?,
        Some(Constant::Str(text)) => format!(in alloc; "text of {}", text.len())?,
        None => format!(in alloc; "none")?,
    })
}

#[test]
fn constants_are_read(rt: HostRuntime) -> Result<(), Fail> {
    let mut found = Vec::new(rt.alloc());
    match answer(rt.alloc(), LIMITS)? {
        Ok(class) => {
            assert_eq!(rt; class.interfaces.len(), 1);
            assert_eq!(rt; class.methods.len(), 1);
            for field in class.fields.as_slice() {
                found.push(constant_words(rt.alloc(), &field.constant)?)?;
            }
        }
        Err(_) => assert!(rt; false),
    }
    let want = [
        "int 5",
        "long 1099511627776",
        "text of 6",
        "int 1",
        "int 97",
        "none",
    ];
    assert_eq!(rt; found.len(), want.len());
    for i in 0..want.len() {
        if i < found.len() {
            assert_eq!(rt; found[i].as_str(), want[i]);
        }
    }
    Ok(())
}
