use std::alloc::Global;
use std::test::Fail;
use th_base::Text;
use th_pool::{
    DescriptorFault, MethodShape, Place, Pool, PoolText, Slot, parse_field, parse_method,
    read_pool, run, u1, u2, u4,
};
use th_syntax::Flaw;

// A class Act with a constructor alone; its pool has nine entries, from 10 to 77.
const ACT: &[u8] =
    b"\xca\xfe\xba\xbe\0\0\0\x34\0\x0a\x07\0\x02\x01\0\x03Act\x07\0\x04\x01\0\x14android/app/Activity\x01\0\x06<init>\x01\0\x03()V\x01\0\x04Code\x0a\0\x03\0\x09\x0c\0\x05\0\x06\0\x21\0\x01\0\x03\0\0\0\0\0\x01\0\x01\0\x05\0\x06\0\x01\0\x07\0\0\0\x11\0\x01\0\x01\0\0\0\x05\x2a\xb7\0\x08\xb1\0\0\0\0\0\0";

// A pool with an entry of each tag: a Utf8 `a`, an Integer -2, a Float, a Long -3, a Double, a Class,
// a String, a Fieldref, a Methodref, an InterfaceMethodref, a NameAndType, a MethodHandle, a
// MethodType and an InvokeDynamic.
const TAGS: &[u8] =
    b"\0\x11\x01\0\x01a\x03\xff\xff\xff\xfe\x04\0\0\0\0\x05\xff\xff\xff\xff\xff\xff\xff\xfd\x06\0\0\0\0\0\0\0\0\x07\0\x01\x08\0\x01\x09\0\x08\0\x0d\x0a\0\x08\0\x0d\x0b\0\x08\0\x0d\x0c\0\x01\0\x01\x0f\x01\0\x0a\x10\0\x01\x12\0\0\0\x0d";

// What is wrong with the pool of these bytes, read at an offset and then checked: number and offset.
fn first_flaw(alloc: Global, bytes: &[u8], at: usize) -> Result<Option<Flaw>, Fail> {
    if at > bytes.len() || bytes.len() > 1000 {
        return Err("the bytes are too short or too long".into());
    }
    match read_pool(alloc, bytes, at) {
        Ok((pool, _)) => match pool.check() {
            Ok(()) => Ok(None),
            Err(flaw) => Ok(Some(flaw)),
        },
        Err(th_base::Fail::Refused(flaw)) => Ok(Some(flaw)),
        Err(th_base::Fail::NoMemory) => Err("no memory".into()),
    }
}

// The bytes with one of them changed.
fn with_byte(alloc: Global, bytes: &[u8], at: usize, byte: u8) -> Result<Vec<u8>, Fail> {
    let mut copy = bytes.to_vec(alloc)?;
    if at < copy.len() {
        copy[at] = byte;
    }
    Ok(copy)
}

fn are(found: Option<&[u8]>, want: &[u8]) -> bool {
    match found {
        Some(bytes) => bytes == want,
        None => false,
    }
}

// The tag of the entry at an index, or 0.
fn tag_or_zero(pool: &Pool, index: u16) -> u8 {
    pool.tag(index).unwrap_or(0)
}

// Whether the member at an index has this tag, and an owner, a name and a descriptor.
fn is_member(
    found: Option<(u8, &[u8], &[u8], &[u8])>,
    tag: u8,
    owner: &[u8],
    name: &[u8],
    descriptor: &[u8],
) -> bool {
    match found {
        Some((t, o, n, d)) => t == tag && o == owner && n == name && d == descriptor,
        None => false,
    }
}

#[test]
fn pool_of_a_small_class_is_indexed(rt: HostRuntime) -> Result<(), Fail> {
    let (pool, end) = read_pool(rt.alloc(), ACT, 8)?;
    assert_eq!(rt; end, 77);
    pool.check()?;
    assert!(rt; are(pool.class(1), b"Act"));
    assert!(rt; are(pool.class(3), b"android/app/Activity"));
    assert!(rt; pool.class(2).is_none());
    assert!(rt; are(pool.utf8(6), b"()V"));
    assert!(rt; pool.utf8(1).is_none());
    assert!(rt;
        is_member(
            pool.member(8),
            10,
            b"android/app/Activity",
            b"<init>",
            b"()V"
        )
    );
    assert!(rt; pool.member(9).is_none());
    for (index, tag) in [
        (0, 0),
        (1, 7),
        (2, 1),
        (8, 10),
        (9, 12),
        (10, 0),
        (65535, 0),
    ] {
        assert_eq!(rt; tag_or_zero(&pool, index), tag, "at {index}");
    }
    Ok(())
}

#[test]
fn each_tag_is_read(rt: HostRuntime) -> Result<(), Fail> {
    let (pool, end) = read_pool(rt.alloc(), TAGS, 0)?;
    assert_eq!(rt; end, TAGS.len());
    pool.check()?;
    for (index, tag) in [
        (0, 0),
        (1, 1),
        (2, 3),
        (3, 4),
        (4, 5),
        (5, 0),
        (6, 6),
        (7, 0),
        (8, 7),
        (9, 8),
        (10, 9),
        (11, 10),
        (12, 11),
        (13, 12),
        (14, 15),
        (15, 16),
        (16, 18),
        (17, 0),
    ] {
        assert_eq!(rt; tag_or_zero(&pool, index), tag, "at {index}");
    }
    assert_eq!(rt; pool.integer(2), Some(-2));
    assert_eq!(rt; pool.integer(4), None);
    assert_eq!(rt; pool.long(4), Some(-3));
    assert_eq!(rt; pool.long(5), None);
    assert!(rt; are(pool.string(9), b"a"));
    assert!(rt; pool.string(8).is_none());
    assert!(rt; is_member(pool.member(10), 9, b"a", b"a", b"a"));
    assert!(rt; is_member(pool.member(11), 10, b"a", b"a", b"a"));
    assert!(rt; is_member(pool.member(12), 11, b"a", b"a", b"a"));
    Ok(())
}

#[test]
fn first_flaw_of_an_edit(rt: HostRuntime) -> Result<(), Fail> {
    // The offset of a byte, what it becomes, and the number and the offset of the flaw; 0 for none.
    let edits = [
        (9, 0, 4, 8),
        (10, 2, 4, 10),
        (12, 3, 4, 10),
        (19, 2, 4, 19),
        (21, 9, 4, 19),
        (72, 5, 4, 72),
        (67, 1, 4, 73),
        (68, 1, 4, 67),
        (14, 127, 2, 16),
        (16, 59, 0, 0),
        (57, 86, 0, 0),
        (80, 2, 0, 0),
    ];
    for (at, byte, number, offset) in edits {
        let bytes = with_byte(rt.alloc(), ACT, at, byte)?;
        let want = if number == 0 {
            None
        } else {
            Some(Flaw { number, offset })
        };
        assert_eq!(rt;
            first_flaw(rt.alloc(), bytes.as_slice(), 8)?,
            want,
            "byte {at}"
        );
    }
    Ok(())
}

#[test]
fn pool_that_ends_early_is_refused_at_the_item(rt: HostRuntime) -> Result<(), Fail> {
    let starts = [
        8, 10, 11, 13, 14, 16, 19, 20, 22, 23, 25, 45, 46, 48, 54, 55, 57, 60, 61, 63, 67, 68, 70,
        72, 73, 75,
    ];
    let mut start = 8;
    for len in 8..77 {
        if starts.contains(&len) {
            start = len;
        }
        let (bytes, _) = ACT.split_at(len as usize);
        let want = Some(Flaw {
            number: 2,
            offset: start,
        });
        assert_eq!(rt; first_flaw(rt.alloc(), bytes, 8)?, want, "{len} bytes");
    }
    Ok(())
}

#[test]
fn descriptors_of_fields(rt: HostRuntime) -> Result<(), Fail> {
    let table = [
        ("I", Ok(Slot::Int)),
        ("B", Ok(Slot::Int)),
        ("C", Ok(Slot::Int)),
        ("S", Ok(Slot::Int)),
        ("Z", Ok(Slot::Int)),
        ("J", Ok(Slot::Long)),
        ("[J", Ok(Slot::Ref)),
        ("LA;", Ok(Slot::Ref)),
        ("[[La/B;", Ok(Slot::Ref)),
        ("F", Err(DescriptorFault::FloatType)),
        ("[[D", Err(DescriptorFault::FloatType)),
        ("", Err(DescriptorFault::Form)),
        ("V", Err(DescriptorFault::Form)),
        ("[", Err(DescriptorFault::Form)),
        ("L;", Err(DescriptorFault::Form)),
        ("LA", Err(DescriptorFault::Form)),
        ("La//B;", Err(DescriptorFault::Form)),
        ("La.B;", Err(DescriptorFault::Form)),
        ("II", Err(DescriptorFault::Form)),
    ];
    for (descriptor, want) in table {
        let text = Text::from_slice(rt.alloc(), descriptor.as_bytes())?;
        match (parse_field(&text), want) {
            (Ok(shape), Ok(slot)) => assert_eq!(rt; shape.slot, slot, "{descriptor}"),
            (Err(fault), Err(other)) => assert_eq!(rt; fault, other, "{descriptor}"),
            _ => assert!(rt; false, "{descriptor}"),
        }
    }
    Ok(())
}

// What a method's descriptor is answered: the slots of its parameters as letters, and its result.
fn answer_of(
    alloc: Global,
    descriptor: &[u8],
) -> Result<Result<MethodShape, DescriptorFault>, Fail> {
    let text = Text::from_slice(alloc, descriptor)?;
    match parse_method(alloc, &text) {
        Ok(shape) => Ok(Ok(shape)),
        Err(th_base::Fail::Refused(fault)) => Ok(Err(fault)),
        Err(th_base::Fail::NoMemory) => Err("no memory".into()),
    }
}

#[test]
fn descriptors_of_methods(rt: HostRuntime) -> Result<(), Fail> {
    let shape = answer_of(rt.alloc(), b"(I[JJLA;)J")?;
    match shape {
        Ok(shape) => {
            assert_eq!(rt;
                shape.params.as_slice(),
                [Slot::Int, Slot::Ref, Slot::Long, Slot::Ref].as_slice()
            );
            assert_eq!(rt; shape.result, Some(Slot::Long));
        }
        Err(_) => assert!(rt; false),
    }
    let refused = [
        ("()F", DescriptorFault::FloatType),
        ("([DI)V", DescriptorFault::FloatType),
        ("V)V", DescriptorFault::Form),
        ("()", DescriptorFault::Form),
        ("()VV", DescriptorFault::Form),
        ("(V)V", DescriptorFault::Form),
        ("(I", DescriptorFault::Form),
        ("I", DescriptorFault::Form),
    ];
    for (descriptor, want) in refused {
        match answer_of(rt.alloc(), descriptor.as_bytes())? {
            Ok(_) => assert!(rt; false, "{descriptor}"),
            Err(fault) => assert_eq!(rt; fault, want, "{descriptor}"),
        }
    }
    Ok(())
}

// A descriptor of so many letters in parentheses, or behind so many brackets.
fn repeated(alloc: Global, letter: u8, count: usize, last: &[u8]) -> Result<Vec<u8>, Fail> {
    let mut bytes = Vec::new(alloc);
    if letter != b'[' {
        bytes.push(b'(')?;
    }
    for _ in 0..count {
        bytes.push(letter)?;
    }
    bytes.extend_from_slice(last)?;
    Ok(bytes)
}

#[test]
fn limits_of_descriptors(rt: HostRuntime) -> Result<(), Fail> {
    for (letter, most) in [(b'I', 255), (b'J', 127)] {
        let whole = repeated(rt.alloc(), letter, most, b")V")?;
        assert!(rt; answer_of(rt.alloc(), whole.as_slice())?.is_ok());
        let long = repeated(rt.alloc(), letter, most + 1, b")V")?;
        assert!(rt; answer_of(rt.alloc(), long.as_slice())?.is_err());
    }
    for (count, good) in [(255, true), (256, false)] {
        let bytes = repeated(rt.alloc(), b'[', count, b"I")?;
        let text = Text::from_vec(bytes)?;
        assert_eq!(rt; parse_field(&text).is_ok(), good);
    }
    Ok(())
}

fn has_text(found: Option<&PoolText>, want: &[u8]) -> bool {
    match found {
        Some(text) => text.text().as_bytes() == want,
        None => false,
    }
}

// Whether a text is a name of a class, of a field and of a method, one that each instruction may call
// and one that invokespecial may call, and is well formed as a descriptor of a field, of a method, and
// as the operand of a class or an array.
fn answers_of(found: Option<&PoolText>) -> [bool; 8] {
    match found {
        Some(text) => [
            text.is_class_name(),
            text.is_field_name(),
            text.is_method_name(),
            text.is_callable(false),
            text.is_callable(true),
            text.field_fault().is_none(),
            text.method_fault().is_none(),
            text.class_or_array_fault().is_none(),
        ],
        None => [false; 8],
    }
}

#[test]
fn texts_of_a_small_class(rt: HostRuntime) -> Result<(), Fail> {
    let (pool, _) = read_pool(rt.alloc(), ACT, 8)?;
    assert!(rt; has_text(pool.text(2), b"Act"));
    assert!(rt; pool.text(1).is_none());
    assert!(rt; has_text(pool.class_text(3), b"android/app/Activity"));
    assert!(rt; pool.string_text(3).is_none());
    match pool.member_texts(8) {
        Some(member) => {
            assert_eq!(rt; member.tag, 10);
            assert!(rt; has_text(Some(member.owner), b"android/app/Activity"));
            assert!(rt; has_text(Some(member.name), b"<init>"));
            assert!(rt; has_text(Some(member.descriptor), b"()V"));
        }
        None => assert!(rt; false),
    }
    let table = [
        (2, [true, true, true, true, true, false, false, true]),
        (4, [true, false, false, true, true, false, false, true]),
        (5, [true, true, true, false, true, false, false, true]),
        (6, [true, true, true, true, true, false, true, true]),
    ];
    for (index, want) in table {
        assert_eq!(rt; answers_of(pool.text(index)), want, "at {index}");
    }
    Ok(())
}

#[test]
fn items_at_a_place(rt: HostRuntime) -> Result<(), Fail> {
    let bytes: &[u8] = b"\x01\x02\x03\x04\x05\x06\x07\x08";
    let start = Place {
        at: 10,
        rest: bytes,
    };
    let (one, place) = u1(start)?;
    let (two, place) = u2(place)?;
    let (four, place) = u4(place)?;
    let (last, place) = run(place, 1)?;
    assert_eq!(rt; (one, two, four), (1, 0x203, 0x4050607));
    assert_eq!(rt; last, b"\x08".as_slice());
    assert_eq!(rt; place.at, 18);
    assert!(rt; u1(place).is_err());
    Ok(())
}
