// What linking gives of the bytes of class files, and of programs at the limits.
use crate::class_files::{ACT, LIMITS, edited};
use crate::files::{BUILT_IN, FRAGMENT};
use std::alloc::Global;
use std::test::Fail;
use th_base::{ClassId, OBJECT, Seq, Text};
use th_linker::{can_link, link};
use th_reader::read_class;
use th_syntax::{ClassFile, Member, Program, Refusal};

// What `javac` made of examples/shapes/Shapes.java: an interface, one below it, a class that implements the
// first, one below that which implements the second, and a class that calls them.
const SHAPE: &[u8] =
    b"\xca\xfe\xba\xbe\0\0\04\0\x0b\x07\0\x02\x01\0\x05Shape\x07\0\x04\x01\0\x10java/lang/Object\x01\0\x05SIDES\x01\0\x01I\x01\0\x0dConstantValue\x03\0\0\0\x04\x01\0\x04area\x01\0\x03()I\x06\0\0\x01\0\x03\0\0\0\x01\0\x19\0\x05\0\x06\0\x01\0\x07\0\0\0\x02\0\x08\0\x01\x04\x01\0\x09\0\x0a\0\0\0\0";

const SOLID: &[u8] =
    b"\xca\xfe\xba\xbe\0\0\04\0\x09\x07\0\x02\x01\0\x05Solid\x07\0\x04\x01\0\x10java/lang/Object\x07\0\x06\x01\0\x05Shape\x01\0\x06volume\x01\0\x03()I\x06\0\0\x01\0\x03\0\x01\0\x05\0\0\0\x01\x04\x01\0\x07\0\x08\0\0\0\0";

const SQUARE: &[u8] =
    b"\xca\xfe\xba\xbe\0\0\04\0\x16\x0a\0\x02\0\x03\x07\0\x04\x0c\0\x05\0\x06\x01\0\x10java/lang/Object\x01\0\x06<init>\x01\0\x03()V\x09\0\x08\0\x09\x07\0\x0a\x0c\0\x0b\0\x0c\x01\0\x06Square\x01\0\x04side\x01\0\x01I\x09\0\x08\0\x0e\x0c\0\x0f\0\x0c\x01\0\x04made\x07\0\x11\x01\0\x05Shape\x01\0\x04(I)V\x01\0\x04Code\x01\0\x04area\x01\0\x03()I\0 \0\x08\0\x02\0\x01\0\x10\0\x02\0\x08\0\x0f\0\x0c\0\0\0\x14\0\x0b\0\x0c\0\0\0\x02\0\0\0\x05\0\x12\0\x01\0\x13\0\0\0\x1e\0\x02\0\x02\0\0\0\x12*\xb7\0\x01*\x1b\xb5\0\x07\xb2\0\x0d\x04`\xb3\0\x0d\xb1\0\0\0\0\0\x01\0\x14\0\x15\0\x01\0\x13\0\0\0\x16\0\x02\0\x01\0\0\0\x0a*\xb4\0\x07*\xb4\0\x07h\xac\0\0\0\0\0\0";

const CUBE: &[u8] =
    b"\xca\xfe\xba\xbe\0\0\04\0\x15\x0a\0\x02\0\x03\x07\0\x04\x0c\0\x05\0\x06\x01\0\x06Square\x01\0\x06<init>\x01\0\x04(I)V\x0a\0\x02\0\x08\x0c\0\x09\0\x0a\x01\0\x04area\x01\0\x03()I\x09\0\x0c\0\x0d\x07\0\x0e\x0c\0\x0f\0\x10\x01\0\x04Cube\x01\0\x04side\x01\0\x01I\x07\0\x12\x01\0\x05Solid\x01\0\x04Code\x01\0\x06volume\0 \0\x0c\0\x02\0\x01\0\x11\0\0\0\x03\0\0\0\x05\0\x06\0\x01\0\x13\0\0\0\x12\0\x02\0\x02\0\0\0\x06*\x1b\xb7\0\x01\xb1\0\0\0\0\0\x01\0\x09\0\x0a\0\x01\0\x13\0\0\0\x14\0\x02\0\x01\0\0\0\x08\x10\x06*\xb7\0\x07h\xac\0\0\0\0\0\x01\0\x14\0\x0a\0\x01\0\x13\0\0\0\x16\0\x02\0\x01\0\0\0\x0a*\xb7\0\x07*\xb4\0\x0bh\xac\0\0\0\0\0\0";

pub(crate) const SHAPES: &[u8] =
    b"\xca\xfe\xba\xbe\0\0\04\0&\x0a\0\x02\0\x03\x07\0\x04\x0c\0\x05\0\x06\x01\0\x10java/lang/Object\x01\0\x06<init>\x01\0\x03()V\x07\0\x08\x01\0\x05Shape\x07\0\x0a\x01\0\x06Square\x0a\0\x09\0\x0c\x0c\0\x05\0\x0d\x01\0\x04(I)V\x07\0\x0f\x01\0\x04Cube\x0a\0\x11\0\x12\x07\0\x13\x0c\0\x14\0\x15\x01\0\x06Shapes\x01\0\x05sides\x01\0\x03()I\x0a\0\x0e\0\x0c\x09\0\x11\0\x18\x0c\0\x19\0\x1a\x01\0\x03all\x01\0\x08[LShape;\x07\0\x1c\x01\0\x05Solid\x0b\0\x1b\0\x1e\x0c\0\x1f\0\x15\x01\0\x06volume\x0b\0\x07\0!\x0c\0\"\0\x15\x01\0\x04area\x01\0\x04Code\x01\0\x05total\x01\0\x0dStackMapTable\0 \0\x11\0\x02\0\0\0\x01\0\x02\0\x19\0\x1a\0\0\0\x03\0\0\0\x05\0\x06\0\x01\0#\0\0\01\0\x07\0\x01\0\0\0%*\xb7\0\x01*\x05\xbd\0\x07Y\x03\xbb\0\x09Y\x05\xb7\0\x0bSY\x04\xbb\0\x0eY\xb8\0\x10\xb7\0\x16S\xb5\0\x17\xb1\0\0\0\0\0\x0a\0\x14\0\x15\0\x01\0#\0\0\0\x0e\0\x01\0\0\0\0\0\x02\x07\xac\0\0\0\0\0\0\0$\0\x15\0\x01\0#\0\0\0u\0\x02\0\x04\0\0\08\x03<\x03=\x1c*\xb4\0\x17\xbe\xa2\0,*\xb4\0\x17\x1c2N\x1b-\xc1\0\x1b\x99\0\x0f-\xc0\0\x1b\xb9\0\x1d\x01\0\xa7\0\x09-\xb9\0 \x01\0`<\x84\x02\x01\xa7\xff\xd1\x1b\xac\0\0\0\x01\0%\0\0\0+\0\x04\xfd\0\x04\x01\x01\xff\0#\0\x04\x07\0\x11\x01\x01\x07\0\x07\0\x01\x01\xff\0\x05\0\x04\x07\0\x11\x01\x01\x07\0\x07\0\x02\x01\x01\xf9\0\x07\0\0";

// The refusal of class files, in words, where `-` stands for no bytes.
fn refusal_told(alloc: Global, refusal: &Refusal) -> Result<String, Fail> {
    let mut text = format!(in alloc; "E{}", refusal.number)?;
    for name in [&refusal.class, &refusal.member] {
        text.push(' ')?;
        if name.is_empty() {
            text.push('-')?;
        }
        for byte in name.as_bytes() {
            text.push(char::from(*byte))?;
        }
    }
    text.push_str(format!(in alloc; " {}", refusal.offset)?.as_str())?;
    Ok(text)
}

// The program of class files, or their refusal in words.
fn program_of(alloc: Global, classes: Vec<ClassFile>) -> Result<Result<Program, String>, Fail> {
    if !can_link(classes.as_slice()) {
        return Ok(Err(String::from_str(alloc, "too many")?));
    }
    match link(alloc, classes) {
        Ok(program) => Ok(Ok(program)),
        Err(th_base::Fail::Refused(refusal)) => Ok(Err(refusal_told(alloc, &refusal)?)),
        Err(th_base::Fail::NoMemory) => Err("no memory".into()),
    }
}

fn class_in(alloc: Global, bytes: &[u8]) -> Result<ClassFile, Fail> {
    if bytes.len() > 1000 {
        return Err("the bytes are too long".into());
    }
    match read_class(alloc, &Text::new(alloc)?, bytes) {
        Ok(class) => Ok(class),
        Err(_) => Err("no class file".into()),
    }
}

// The file of a name, of those in these tests.
fn file_named(name: &str) -> Result<&'static [u8], Fail> {
    match name {
        "Act" => Ok(ACT),
        "Fragment" => Ok(FRAGMENT),
        "Bundle" => Ok(BUILT_IN),
        "Limits" => Ok(LIMITS),
        "Shape" => Ok(SHAPE),
        "Solid" => Ok(SOLID),
        "Square" => Ok(SQUARE),
        "Cube" => Ok(CUBE),
        "Shapes" => Ok(SHAPES),
        _ => Err("a line names no file".into()),
    }
}

// How many methods a program has, with those of the built-in classes, or the refusal of its files.
fn outcome(alloc: Global, classes: Vec<ClassFile>) -> Result<String, Fail> {
    match program_of(alloc, classes)? {
        Ok(program) => Ok(format!(in alloc; "{} methods", count_methods(&program))?),
        Err(words) => Ok(words),
    }
}

fn count_methods(program: &Program) -> usize {
    let mut count: usize = 0;
    for class in program.hierarchy().classes() {
        count = count.saturating_add(class.methods.len());
    }
    count
}

// Files by their names, and what linking gives of them: classes of one name, of a built-in one's, without
// their superclass, without an interface; names come before supertypes, whatever class has them. Then the
// shapes in two orders, and without one of their files: the array of shapes is made, and a square stored into
// it, before a cube is.
const PROGRAMS: &str = "\
Act: 18 methods\n\
Act Act: E13 Act - 0\n\
Bundle: E14 android/os/Bundle - 0\n\
Fragment: E15 Act android/app/Fragment 0\n\
Fragment Bundle: E14 android/os/Bundle - 0\n\
Act Limits: E15 Limits java/lang/Runnable 0\n\
Shapes Cube Square Solid Shape: 27 methods\n\
Shape Solid Square Cube Shapes: 27 methods\n\
Shapes Cube Square Shape: E15 Cube Solid 0\n\
Shapes Square Solid: E15 Square Shape 0\n\
Shapes Square Solid Shape: E15 Shapes Cube 22\n\
Shapes Square Solid Shape Solid: E13 Solid - 0";

#[test]
fn files_are_linked_or_refused(rt: HostRuntime) -> Result<(), Fail> {
    let alloc = rt.alloc();
    for line in PROGRAMS.lines() {
        if let Some((names, want)) = line.split_once(": ") {
            let mut classes = Vec::new(alloc);
            for name in names.split(' ') {
                classes.push(class_in(alloc, file_named(name)?)?)?;
            }
            assert_eq!(rt; outcome(alloc, classes)?.as_str(), want, "{line}");
        }
    }
    Ok(())
}

// What linking gives of the file of an Activity with one byte changed.
fn edited_outcome(alloc: Global, at: usize, byte: u8) -> Result<String, Fail> {
    let bytes = edited(alloc, ACT, &[(at, byte)])?;
    let mut classes = Vec::new(alloc);
    classes.push(class_in(alloc, bytes.as_slice())?)?;
    outcome(alloc, classes)
}

#[test]
fn edits_of_a_file_are_linked_or_refused(rt: HostRuntime) -> Result<(), Fail> {
    let alloc = rt.alloc();
    assert_eq!(rt; edited_outcome(alloc, 82, 0x00)?.as_str(), "E17 Act - 0");
    assert_eq!(rt; edited_outcome(alloc, 82, 0x01)?.as_str(), "E17 Act Act 0");
    assert_eq!(rt; edited_outcome(alloc, 111, 0x01)?.as_str(), "18 methods");
    Ok(())
}

fn name_of(alloc: Global, letter: char, number: u32) -> Result<Text, Fail> {
    Ok(Text::from_vec(format!(in alloc; "{letter}{number}")?.into_bytes())?)
}

// A class of a number, below the one of the number before.
fn chained(alloc: Global, number: u32, above: Option<u32>) -> Result<ClassFile, Fail> {
    let super_name = match above {
        Some(above) => name_of(alloc, 'C', above)?,
        None => Text::from_slice(alloc, OBJECT.as_bytes())?,
    };
    Ok(ClassFile {
        major: 52,
        access: 33,
        name: name_of(alloc, 'C', number)?,
        super_name: Some(super_name),
        interfaces: Seq::new(alloc),
        fields: Seq::new(alloc),
        methods: Seq::new(alloc),
    })
}

// So many classes, each of which extends the one of the number before; that of number 0 comes last, and
// extends the class of this number, or java/lang/Object.
fn chain(alloc: Global, count: u32, above: Option<u32>) -> Result<Vec<ClassFile>, Fail> {
    let mut classes = Vec::new(alloc);
    for place in 0..count {
        let left = count - 1 - place;
        let above = if left > 0 { Some(left - 1) } else { above };
        classes.push(chained(alloc, left, above)?)?;
    }
    Ok(classes)
}

// Whether a class of the program is another or stands below it.
fn is_below(program: &Program, low: ClassId, high: ClassId) -> bool {
    let count = program.hierarchy().classes().len();
    if low.0 as usize >= count || high.0 as usize >= count {
        return false;
    }
    program.hierarchy().is_subclass(low, high)
}

#[test]
fn a_long_chain_is_linked(rt: HostRuntime) -> Result<(), Fail> {
    let alloc = rt.alloc();
    match program_of(alloc, chain(alloc, 4096, None)?)? {
        Ok(program) => {
            let lowest = program.hierarchy().find_class(b"C4095");
            let highest = program.hierarchy().find_class(b"C0");
            match (lowest, highest) {
                (Some(lowest), Some(highest)) => {
                    assert!(rt; is_below(&program, lowest, highest));
                    assert!(rt; !is_below(&program, highest, lowest));
                }
                _ => return Err("a class isn't there".into()),
            }
        }
        Err(words) => assert_eq!(rt; words.as_str(), ""),
    }
    Ok(())
}

// Where the highest class of the chain extends one of the chain, the first class of the files that is on the
// cycle is named, with the class that it extends.
#[test]
fn a_long_cycle_is_refused(rt: HostRuntime) -> Result<(), Fail> {
    let alloc = rt.alloc();
    let whole = outcome(alloc, chain(alloc, 4096, Some(4095))?)?;
    assert_eq!(rt; whole.as_str(), "E17 C4095 C4094 0");
    let part = outcome(alloc, chain(alloc, 4096, Some(4093))?)?;
    assert_eq!(rt; part.as_str(), "E17 C4093 C4092 0");
    let more = outcome(alloc, chain(alloc, 4097, None)?)?;
    assert_eq!(rt; more.as_str(), "too many");
    Ok(())
}

// A class with so many abstract methods.
fn with_methods(alloc: Global, count: u32) -> Result<ClassFile, Fail> {
    let mut class = chained(alloc, 0, None)?;
    for number in 0..count {
        let method = Member {
            access: 1025,
            name: name_of(alloc, 'm', number)?,
            descriptor: Text::from_slice(alloc, b"()V")?,
            constant: None,
            code: None,
        };
        class.methods.push(method)?;
    }
    Ok(class)
}

#[test]
fn methods_are_counted_at_the_limit(rt: HostRuntime) -> Result<(), Fail> {
    let alloc = rt.alloc();
    let mut most = Vec::new(alloc);
    most.push(with_methods(alloc, 65_518)?)?;
    assert_eq!(rt; outcome(alloc, most)?.as_str(), "65535 methods");
    let mut more = Vec::new(alloc);
    more.push(with_methods(alloc, 65_519)?)?;
    assert_eq!(rt; outcome(alloc, more)?.as_str(), "E20 - methods 0");
    Ok(())
}
