// Class files made by repetition: one with a long name that many instructions refer to, one with many
// methods, and one with many entries in its constant pool.
use std::alloc::{AllocError, Global};

// What each class file begins with, and the version of Java SE 8 (Java specification 4.1).
const MAGIC: u32 = 0xcafe_babe;

const MAJOR: u16 = 52;

// How many stores a method has at most: its code is shorter than 65,536 bytes (Java specification
// 4.7.3).
const MOST_STORES: u32 = 16_000;

// The bytes of a method's code attribute beside the code.
const CODE_FRAME: u32 = 12;

// The constant pool's entries, in order, but for the names of the methods, which follow.
const THIS_CLASS: u16 = 2;

const SUPER_CLASS: u16 = 4;

const CODE: u16 = 5;

const INIT: u16 = 6;

const NO_ARGUMENTS: u16 = 7;

const INIT_REF: u16 = 9;

const FIELD: u16 = 10;

const FIELD_TYPE: u16 = 11;

const FIELD_REF: u16 = 13;

const POOL_END: u16 = 14;

// A vector of bytes that grows by numbers and texts, high bytes first.
#[derive(Drop)]
struct Bytes {
    bytes: Vec<u8>,
}

impl Bytes {
    fn u1(&mut self, number: u8) -> Result<(), AllocError> {
        self.bytes.push(number)?;
        Ok(())
    }

    fn u2(&mut self, number: u16) -> Result<(), AllocError> {
        self.bytes.extend_from_slice(&number.to_be_bytes())
    }

    fn u4(&mut self, number: u32) -> Result<(), AllocError> {
        self.bytes.extend_from_slice(&number.to_be_bytes())
    }

    fn text(&mut self, text: &[u8]) -> Result<(), AllocError> {
        self.u1(1)?;
        self.u2(u16::try_from(text.len()).unwrap_or(u16::MAX))?;
        self.bytes.extend_from_slice(text)
    }

    // An entry of a tag with one index, or two.
    fn entry(&mut self, tag: u8, first: u16, second: Option<u16>) -> Result<(), AllocError> {
        self.u1(tag)?;
        self.u2(first)?;
        match second {
            Some(second) => self.u2(second),
            None => Ok(()),
        }
    }
}

// The constant pool but for its first two bytes: this class, its superclass, the parts of a method,
// the constructor of the superclass, and the field with the long name.
fn put_pool(file: &mut Bytes, field: &[u8], methods: u16) -> Result<(), AllocError> {
    file.text(b"Act")?;
    file.entry(7, 1, None)?;
    file.text(b"android/app/Activity")?;
    file.entry(7, 3, None)?;
    file.text(b"Code")?;
    file.text(b"<init>")?;
    file.text(b"()V")?;
    file.entry(12, INIT, Some(NO_ARGUMENTS))?;
    file.entry(10, SUPER_CLASS, Some(8))?;
    file.text(field)?;
    file.text(b"Landroid/app/Activity;")?;
    file.entry(12, FIELD, Some(FIELD_TYPE))?;
    file.entry(9, THIS_CLASS, Some(12))?;
    for method in 0..methods {
        file.text(&[b'm', b'A'.wrapping_add((method % 26) as u8)])?;
    }
    Ok(())
}

// A method whose code is so many groups of `aload_0` and an instruction with an index, and `return`.
fn put_method(
    file: &mut Bytes,
    name: u16,
    opcode: u8,
    index: u16,
    groups: u32,
) -> Result<(), AllocError> {
    let length = groups.wrapping_mul(4).wrapping_add(1);
    file.u2(1)?;
    file.u2(name)?;
    file.u2(NO_ARGUMENTS)?;
    file.u2(1)?;
    file.u2(CODE)?;
    file.u4(length.wrapping_add(CODE_FRAME))?;
    file.u2(1)?;
    file.u2(1)?;
    file.u4(length)?;
    for _ in 0..groups {
        file.u1(0x2a)?;
        file.u1(opcode)?;
        file.u2(index)?;
    }
    file.u1(0xb1)?;
    file.u2(0)?;
    file.u2(0)
}

// The constructor, and methods with so many stores into the field in all.
fn put_methods(file: &mut Bytes, stores: u32, methods: u16) -> Result<(), AllocError> {
    file.u2(methods.wrapping_add(1))?;
    put_method(file, INIT, 0xb7, INIT_REF, 1)?;
    let mut left = stores;
    for method in 0..methods {
        let here = left.min(MOST_STORES);
        left -= here;
        put_method(file, POOL_END.wrapping_add(method), 0xb3, FIELD_REF, here)?;
    }
    Ok(())
}

// The front of a class file of an Activity with one static field, up to its methods.
fn front(alloc: Global, field: &[u8], methods: u16) -> Result<Bytes, AllocError> {
    let mut file = Bytes {
        bytes: Vec::new(alloc),
    };
    file.u4(MAGIC)?;
    file.u2(0)?;
    file.u2(MAJOR)?;
    file.u2(POOL_END.wrapping_add(methods))?;
    put_pool(&mut file, field, methods)?;
    for number in [0x21, THIS_CLASS, SUPER_CLASS, 0, 1, 9, FIELD, FIELD_TYPE, 0] {
        file.u2(number)?;
    }
    Ok(file)
}

// A class file of an Activity with a static field whose name has so many bytes, up to 65,535, and
// with half as many stores into it.
pub(crate) fn class_file(alloc: Global, size: u32) -> Result<Vec<u8>, AllocError> {
    let length = size.min(0xffff);
    let stores = length / 2;
    let methods = stores.div_ceil(MOST_STORES) as u16;
    let name = vec![in alloc; b'f'; length as usize]?;
    let mut file = front(alloc, name.as_slice(), methods)?;
    put_methods(&mut file, stores, methods)?;
    file.u2(0)?;
    let Bytes { bytes } = file;
    Ok(bytes)
}

// A class file of an Activity with so many methods, each with so many stores into its static field.
pub(crate) fn methods_file(
    alloc: Global,
    methods: u16,
    stores: u32,
) -> Result<Vec<u8>, AllocError> {
    let mut file = front(alloc, b"last", methods)?;
    file.u2(methods.wrapping_add(1))?;
    put_method(&mut file, INIT, 0xb7, INIT_REF, 1)?;
    for method in 0..methods {
        put_method(
            &mut file,
            POOL_END.wrapping_add(method),
            0xb3,
            FIELD_REF,
            stores,
        )?;
    }
    file.u2(0)?;
    let Bytes { bytes } = file;
    Ok(bytes)
}

// A class file of an Activity without members, with so many more texts in its constant pool.
pub(crate) fn entries_file(alloc: Global, entries: u16) -> Result<Vec<u8>, AllocError> {
    let mut file = Bytes {
        bytes: Vec::new(alloc),
    };
    file.u4(MAGIC)?;
    file.u2(0)?;
    file.u2(MAJOR)?;
    file.u2(entries.wrapping_add(5))?;
    file.text(b"Act")?;
    file.entry(7, 1, None)?;
    file.text(b"android/app/Activity")?;
    file.entry(7, 3, None)?;
    for _ in 0..entries {
        file.text(b"Landroid/os/Bundle;")?;
    }
    for number in [0x21, THIS_CLASS, SUPER_CLASS, 0, 0, 0, 0] {
        file.u2(number)?;
    }
    let Bytes { bytes } = file;
    Ok(bytes)
}
