// Class files that are written: every instruction, what has no room, and the generated program.
use std::alloc::{AllocError, Global};
use std::test::Fail;
use th_base::{Seq, Text, TryCopy};
use th_gen::{ClassWriter, generate};
use th_kinds::{flows_well, infer};
use th_linker::{can_link, link};
use th_reader::read_class;
use th_syntax::{ClassFile, Instr, Member};

// A class Every whose method has each instruction, with operands at the edges of their spellings. A
// program apart spelled it by the Java specification, and `javap` listed it as it was meant.
const EVERY: &[u8] =
    b"\xca\xfe\xba\xbe\0\0\04\08\x01\0\x05Every\x07\0\x01\x01\0\x10java/lang/Object\x07\0\x03\x01\0\x01f\x01\0\x01I\x01\0\x01g\x01\0\x01J\x01\0\x04gone\x01\0\x03()V\x01\0\x03all\x01\0\x04(I)V\x01\0\x04Code\x03\0\0\x80\0\x03\xff\xff\x7f\xff\x03\x7f\xff\xff\xff\x03\x80\0\0\0\x05\0\0\0\0\0\0\0\x02\x05\xff\xff\xff\xff\xff\xff\xff\xff\x05\x01#Eg\x89\xab\xcd\xef\x05\0\0\0\x01\0\0\0\0\x01\0\x01x\x08\0\x1a\x01\0\0\x08\0\x1c\x0c\0\x05\0\x06\x09\0\x02\0\x1e\x0c\0\x07\0\x08\x09\0\x02\0 \x01\0\x05Other\x07\0\"\x01\0\x01v\x01\0\x03()I\x0c\0$\0%\x0a\0#\0&\x01\0\x06<init>\x0c\0(\0\x0a\x0a\0#\0)\x01\0\x04Face\x07\0+\x01\0\x01i\x01\0\x05(IJ)V\x0c\0-\0.\x0b\0,\0/\x01\0\x01s\x0c\01\0\x0a\x0a\0#\02\x01\0\x02[I\x07\04\x01\0\x03[[J\x07\06\0!\0\x02\0\x04\0\0\0\x02\0\x09\0\x05\0\x06\0\0\0\0\0\x07\0\x08\0\0\0\x02\x04\x01\0\x09\0\x0a\0\0\0\x09\0\x0b\0\x0c\0\x01\0\x0d\0\0\x01\x9a\0\x07\x01\x90\0\0\x01\x8e\0\x01\x02\x03\x08\x10\x06\x10\xfe\x10\x7f\x11\0\x80\x10\x80\x11\xff\x7f\x11\x7f\xff\x11\x80\0\x12\x0e\x12\x0f\x12\x10\x12\x11\x09\x0a\x14\0\x12\x14\0\x14\x14\0\x16\x14\0\x18\x12\x1b\x12\x1d\x1a\x1d\x15\x04\x15\xff\xc4\x15\x01\0\x1e!\x16\x04\x16\xff\xc4\x16\x01\0*-\x19\x04\x19\xff\xc4\x19\x01\0;>6\x046\xff\xc46\x01\0?B7\x047\xff\xc47\x01\0KN:\x04:\xff\xc4:\x01\0.2345/OSTUVPWXYZ[\\]^_`dhlpxz|~\x80\x82aeimqy{}\x7f\x81\x83tu\x84\xff\x7f\x84\0\x80\xc4\x84\x01\0\0\x01\xc4\x84\0\x01\0\x80\xc4\x84\0\x01\xff\x7f\xc4\x84\x01,\x80\0\x91\x92\x93\x85\x88\x94\x99\0\0\x9a\xff\xfd\x9b\xff\xfa\x9c\xff\xf7\x9d\xff\xf4\x9e\xff\xf1\x9f\xff\xee\xa0\xff\xeb\xa1\xff\xe8\xa2\xff\xe5\xa3\xff\xe2\xa4\xff\xdf\xa5\xff\xdc\xa6\xff\xd9\xc6\xff\xd6\xc7\xff\xd3\xa7\xff\xd0\xa7\0\x04\0\xc6\0\x03\0\xaa\0\0\0\x16\xff\xff\xff\xf9\xff\xff\xff\xfa\xff\xff\xff\xc5\0\0\0\x15\0\xaa\0\0\xff\xff\xff\xea\x7f\xff\xff\xff\x7f\xff\xff\xff\xff\xff\xff\xea\xab\0\0\0\xff\xff\xff\x9c\0\0\0\x03\x80\0\0\0\xff\xff\xff\xd7\0\0\0\0\0\0\00\x7f\xff\xff\xff\0\0\0$\xab\0\0\0\0\0\0\x0c\0\0\0\0\xac\xad\xb0\xb2\0\x1f\xb3\0\x1f\xb4\0!\xb5\0!\xb6\0'\xb7\0*\xb9\00\x01\0\xb8\03\xbb\0#\xbc\x04\xbc\x05\xbc\x08\xbc\x09\xbc\x0a\xbc\x0b\xbd\05\xbe\xc0\0,\xc1\07\xc2\xc3\xbf\xb1\0\0\0\0\0\0";

// ---- a class file, written again

// The place of the instruction at an offset.
fn place_at(instrs: &[(u32, Instr)], offset: u32) -> u32 {
    let mut place: u32 = 0;
    for (at, _) in instrs {
        if *at >= offset {
            return place;
        }
        place = place.wrapping_add(1);
    }
    place
}

fn places_at(
    alloc: Global,
    instrs: &[(u32, Instr)],
    offsets: &[u32],
) -> Result<Seq<u32>, AllocError> {
    let mut places = Seq::new(alloc);
    for offset in offsets {
        places.push(place_at(instrs, *offset))?;
    }
    Ok(places)
}

fn pairs_at(
    alloc: Global,
    instrs: &[(u32, Instr)],
    pairs: &[(i32, u32)],
) -> Result<Seq<(i32, u32)>, AllocError> {
    let mut placed = Seq::new(alloc);
    for (key, offset) in pairs {
        placed.push((*key, place_at(instrs, *offset)))?;
    }
    Ok(placed)
}

// The instruction with places in place of offsets.
fn placed(alloc: Global, instrs: &[(u32, Instr)], instr: &Instr) -> Result<Instr, AllocError> {
    match instr {
        Instr::IfZero(relation, to) => Ok(Instr::IfZero(*relation, place_at(instrs, *to))),
        Instr::IfInts(relation, to) => Ok(Instr::IfInts(*relation, place_at(instrs, *to))),
        Instr::IfSame(to) => Ok(Instr::IfSame(place_at(instrs, *to))),
        Instr::IfOther(to) => Ok(Instr::IfOther(place_at(instrs, *to))),
        Instr::IfNull(to) => Ok(Instr::IfNull(place_at(instrs, *to))),
        Instr::IfNotNull(to) => Ok(Instr::IfNotNull(place_at(instrs, *to))),
        Instr::Goto(to) => Ok(Instr::Goto(place_at(instrs, *to))),
        Instr::TableSwitch {
            low,
            targets,
            other,
        } => Ok(Instr::TableSwitch {
            low: *low,
            targets: places_at(alloc, instrs, targets.as_slice())?,
            other: place_at(instrs, *other),
        }),
        Instr::LookupSwitch { pairs, other } => Ok(Instr::LookupSwitch {
            pairs: pairs_at(alloc, instrs, pairs.as_slice())?,
            other: place_at(instrs, *other),
        }),
        _ => instr.try_copy(alloc),
    }
}

fn add_method(alloc: Global, writer: &mut ClassWriter, method: &Member) -> Result<(), Fail> {
    let mut instrs = Vec::new(alloc);
    let mut max_stack = 0;
    let mut max_locals = 0;
    if let Some(code) = &method.code {
        max_stack = code.max_stack;
        max_locals = code.max_locals;
        for (_, instr) in code.instrs.as_slice() {
            instrs.push(placed(alloc, code.instrs.as_slice(), instr)?)?;
        }
    }
    writer.method(
        alloc,
        method.access,
        &method.name,
        &method.descriptor,
        max_stack,
        max_locals,
        instrs.as_slice(),
    )?;
    Ok(())
}

fn writer_of(alloc: Global, class: &ClassFile) -> Result<ClassWriter, Fail> {
    let super_name = match &class.super_name {
        Some(name) => name.copy(alloc)?,
        None => return Err("no superclass".into()),
    };
    let mut writer = ClassWriter::new(alloc, &class.name, &super_name)?;
    for field in class.fields.as_slice() {
        writer.field(alloc, field.access, &field.name, &field.descriptor)?;
    }
    for method in class.methods.as_slice() {
        add_method(alloc, &mut writer, method)?;
    }
    Ok(writer)
}

fn class_file(alloc: Global, name: &Text, bytes: &[u8]) -> Result<ClassFile, Fail> {
    if bytes.len() > 1_000_000 {
        return Err("the bytes are too long".into());
    }
    match read_class(alloc, name, bytes) {
        Ok(class) => Ok(class),
        Err(_) => Err("no class file".into()),
    }
}

// The bytes of a class; none where it is too large.
fn finished(alloc: Global, writer: ClassWriter) -> Result<Option<Vec<u8>>, Fail> {
    match writer.finish(alloc) {
        Ok(bytes) => Ok(Some(bytes)),
        Err(th_base::Fail::Refused(_)) => Ok(None),
        Err(th_base::Fail::NoMemory) => Err("no memory".into()),
    }
}

#[test]
fn every_instruction_is_written_as_it_was_read(rt: HostRuntime) -> Result<(), Fail> {
    let alloc = rt.alloc();
    let class = class_file(alloc, &Text::new(alloc)?, EVERY)?;
    let written = finished(alloc, writer_of(alloc, &class)?)?;
    match written {
        Some(bytes) => assert!(rt; bytes.as_slice() == EVERY),
        None => return Err("too large".into()),
    };
    Ok(())
}

// ---- what has room

// A class with one static method of these instructions.
fn one_method(alloc: Global, instrs: &[Instr]) -> Result<ClassWriter, Fail> {
    let object = Text::from_slice(alloc, b"java/lang/Object")?;
    let mut writer = ClassWriter::new(alloc, &Text::from_slice(alloc, b"Many")?, &object)?;
    let name = Text::from_slice(alloc, b"m")?;
    let descriptor = Text::from_slice(alloc, b"()V")?;
    writer.method(alloc, 9, &name, &descriptor, 1, 0, instrs)?;
    Ok(writer)
}

// So many times `nop`.
fn push_nops(instrs: &mut Vec<Instr>, count: u32) -> Result<(), Fail> {
    for _ in 0..count {
        instrs.push(Instr::Nop)?;
    }
    Ok(())
}

// How many bytes the file of one method has; 0 where it is too large.
fn size_of(alloc: Global, instrs: &[Instr]) -> Result<usize, Fail> {
    match finished(alloc, one_method(alloc, instrs)?)? {
        Some(bytes) => Ok(bytes.len()),
        None => Ok(0),
    }
}

// A forward branch over so many instructions of one byte.
fn branch_on(alloc: Global, over: u32) -> Result<usize, Fail> {
    let mut instrs = Vec::new(alloc);
    instrs.push(Instr::IfNull(over.wrapping_add(1)))?;
    push_nops(&mut instrs, over)?;
    instrs.push(Instr::Return)?;
    size_of(alloc, instrs.as_slice())
}

// A branch back over so many instructions of one byte.
fn branch_back(alloc: Global, over: u32) -> Result<usize, Fail> {
    let mut instrs = Vec::new(alloc);
    push_nops(&mut instrs, over)?;
    instrs.push(Instr::Goto(0))?;
    size_of(alloc, instrs.as_slice())
}

// How many bytes the file has beside the code of its one method.
const BESIDE: usize = 99;

#[test]
fn methods_that_are_too_long_have_no_room(rt: HostRuntime) -> Result<(), Fail> {
    let alloc = rt.alloc();
    let mut instrs = Vec::new(alloc);
    push_nops(&mut instrs, 65_535)?;
    assert!(rt; size_of(alloc, instrs.as_slice())? == BESIDE + 65_535);
    instrs.push(Instr::Nop)?;
    assert!(rt; size_of(alloc, instrs.as_slice())? == 0);
    Ok(())
}

#[test]
fn branches_that_lead_too_far_have_no_room(rt: HostRuntime) -> Result<(), Fail> {
    let alloc = rt.alloc();
    assert!(rt; branch_on(alloc, 32_764)? == BESIDE + 32_768);
    assert!(rt; branch_on(alloc, 32_765)? == 0);
    assert!(rt; branch_back(alloc, 32_768)? == BESIDE + 32_771);
    assert!(rt; branch_back(alloc, 32_769)? == 0);
    Ok(())
}

// A class with so many fields of one name; or, with a name of its own for each.
fn with_fields(alloc: Global, count: u32, apart: bool) -> Result<ClassWriter, Fail> {
    let name = Text::from_slice(alloc, b"A")?;
    let mut writer = ClassWriter::new(alloc, &name, &name)?;
    for number in 0..count {
        let field = if apart {
            Text::from_vec(format!(in alloc; "f{number}")?.into_bytes())?
        } else {
            name.copy(alloc)?
        };
        writer.field(alloc, 0, &field, &name)?;
    }
    Ok(writer)
}

#[test]
fn counts_and_names_that_are_too_large_have_no_room(rt: HostRuntime) -> Result<(), Fail> {
    let alloc = rt.alloc();
    assert!(rt; finished(alloc, with_fields(alloc, 65_535, false)?)?.is_some());
    assert!(rt; finished(alloc, with_fields(alloc, 65_536, false)?)?.is_none());
    assert!(rt; finished(alloc, with_fields(alloc, 65_532, true)?)?.is_some());
    assert!(rt; finished(alloc, with_fields(alloc, 65_533, true)?)?.is_none());
    let mut letters = Vec::new(alloc);
    for _ in 0..65_535 {
        letters.push(b'x')?;
    }
    let long = Text::from_slice(alloc, letters.as_slice())?;
    letters.push(b'x')?;
    let longer = Text::from_vec(letters)?;
    assert!(rt; finished(alloc, ClassWriter::new(alloc, &long, &long)?)?.is_some());
    assert!(rt; finished(alloc, ClassWriter::new(alloc, &longer, &long)?)?.is_none());
    Ok(())
}

// ---- checksums

// The number of bytes taken into another: each byte adds to 31 times what was there.
fn checksum(before: u32, bytes: &[u8]) -> u32 {
    let mut sum = before;
    for byte in bytes {
        sum = sum.wrapping_mul(31).wrapping_add(u32::from(*byte));
    }
    sum
}

// 300 ints of their own: the first 248 of them have indices below 256.
#[test]
fn constants_past_index_255_have_a_longer_spelling(rt: HostRuntime) -> Result<(), Fail> {
    let alloc = rt.alloc();
    let mut instrs = Vec::new(alloc);
    for value in 100_000..100_300 {
        instrs.push(Instr::Int(value))?;
        instrs.push(Instr::Stack(th_syntax::StackOp::Pop))?;
    }
    instrs.push(Instr::Return)?;
    match finished(alloc, one_method(alloc, instrs.as_slice())?)? {
        Some(bytes) => {
            assert!(rt; bytes.len() == 2552);
            assert!(rt; checksum(0, bytes.as_slice()) == 2_767_269_495);
        }
        None => return Err("too large".into()),
    };
    Ok(())
}

// ---- the generated program

// How many Activity classes, how many bytes all files have, and their checksum with each name before
// its bytes, as a program apart computes them.
const GENERATED: &str = "\
1 621 1736894111\n\
3 1243 586161850\n\
20 6046 2716290710\n\
400 115292 2339211028\n";

// The files of a generated program, by how many bytes they have and their checksum.
fn told(alloc: Global, count: u32) -> Result<String, Fail> {
    if count > 400 {
        return Err("too many classes".into());
    }
    let files = generate(alloc, count)?;
    let mut size: usize = 0;
    let mut sum = 0;
    for (name, bytes) in files.as_slice() {
        size = size.wrapping_add(bytes.len());
        sum = checksum(checksum(sum, name.as_bytes()), bytes.as_slice());
    }
    Ok(format!(in alloc; "{count} {size} {sum}\n")?)
}

#[test]
fn generated_programs_have_their_bytes(rt: HostRuntime) -> Result<(), Fail> {
    let alloc = rt.alloc();
    let mut text = String::new(alloc);
    for count in [1, 3, 20, 400] {
        text.push_str(told(alloc, count)?.as_str())?;
    }
    assert!(rt; text.as_str() == GENERATED, "{text}");
    Ok(())
}

// Whether a method has kinds, if it has code.
fn has_kinds(alloc: Global, class: &Text, method: &Member) -> Result<bool, Fail> {
    let code = match &method.code {
        Some(code) => code,
        None => return Ok(true),
    };
    let well = flows_well(alloc, code.instrs.as_slice())?;
    if !well {
        return Ok(false);
    }
    match infer(alloc, class, method) {
        Ok(_) => Ok(true),
        Err(_) => Ok(false),
    }
}

fn all_have_kinds(alloc: Global, class: &ClassFile) -> Result<bool, Fail> {
    for method in class.methods.as_slice() {
        let kinds = has_kinds(alloc, &class.name, method)?;
        if !kinds {
            return Ok(false);
        }
    }
    Ok(true)
}

fn are_linked(alloc: Global, classes: Vec<ClassFile>) -> Result<bool, Fail> {
    if !can_link(classes.as_slice()) {
        return Err("there are too many classes".into());
    }
    match link(alloc, classes) {
        Ok(_) => Ok(true),
        Err(_) => Ok(false),
    }
}

// The class files of a generated program, read.
fn classes_of(alloc: Global, count: u32) -> Result<Vec<ClassFile>, Fail> {
    if count > 400 {
        return Err("too many classes".into());
    }
    let mut classes = Vec::new(alloc);
    let files = generate(alloc, count)?;
    for (name, file) in files.as_slice() {
        classes.push(class_file(alloc, name, file.as_slice())?)?;
    }
    Ok(classes)
}

// Whether a generated program is linked and has kinds.
fn is_accepted(alloc: Global, count: u32) -> Result<bool, Fail> {
    let classes = classes_of(alloc, count)?;
    for class in classes.as_slice() {
        let kinds = all_have_kinds(alloc, class)?;
        if !kinds {
            return Ok(false);
        }
    }
    are_linked(alloc, classes)
}

#[test]
fn generated_programs_are_linked_and_have_kinds(rt: HostRuntime) -> Result<(), Fail> {
    let alloc = rt.alloc();
    for count in [1, 3, 20, 400] {
        assert!(rt; is_accepted(alloc, count)?);
    }
    Ok(())
}
