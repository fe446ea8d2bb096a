// Look-ups in class hierarchies of several shapes.
use std::alloc::{AllocError, Global};
use th_base::{ClassId, ClassInfo, FieldId, FieldInfo, Hierarchy, Seq, Text, acyclic};

// How many look-ups are made for each class or field.
const LOOK_UPS: u32 = 16;

// Numbers without a common divisor with most sizes: they lead through all places in no order.
const STRIDE: u32 = 7919;

const SECOND_STRIDE: u32 = 104_729;

// How many interfaces stand above the one that is named often.
const TALL: u32 = 1000;

pub(crate) fn numbered(alloc: Global, letter: char, number: u32) -> Result<Text, AllocError> {
    Text::from_vec(format!(in alloc; "{letter}{number}")?.into_bytes())
}

fn class_of(
    alloc: Global,
    number: u32,
    super_id: Option<ClassId>,
) -> Result<ClassInfo, AllocError> {
    Ok(ClassInfo {
        name: numbered(alloc, 'C', number)?,
        super_id,
        interfaces: Seq::new(alloc),
        is_interface: false,
        is_abstract: false,
        fields: Seq::new(alloc),
        methods: Seq::new(alloc),
    })
}

// The hierarchy of these classes, where they have one.
pub(crate) fn hierarchy_of(
    alloc: Global,
    classes: Vec<ClassInfo>,
) -> Result<Option<Hierarchy>, AllocError> {
    if acyclic(alloc, classes.as_slice())? && classes.len() < 0x1_0000_0000 {
        Ok(Some(Hierarchy::new(alloc, classes)?))
    } else {
        Ok(None)
    }
}

// A class with so many fields, and their names.
fn with_fields(alloc: Global, size: u32) -> Result<(ClassInfo, Vec<Text>), AllocError> {
    let mut class = class_of(alloc, 0, None)?;
    let descriptor = Text::from_slice(alloc, b"I")?;
    let mut names = Vec::new(alloc);
    for number in 0..size {
        let name = numbered(alloc, 'f', number)?;
        names.push(name.copy(alloc)?)?;
        class.fields.push(FieldInfo {
            id: FieldId(number),
            name,
            descriptor: descriptor.copy(alloc)?,
            is_static: false,
        })?;
    }
    Ok((class, names))
}

fn find_all(hierarchy: &Hierarchy, names: &[Text], descriptor: &Text) -> u64 {
    let mut found = 0u64;
    if hierarchy.classes().is_empty() || names.is_empty() {
        return found;
    }
    let mut place = 0usize;
    for _ in 0..(names.len() as u64).wrapping_mul(u64::from(LOOK_UPS)) {
        place = place.wrapping_add(STRIDE as usize) % names.len();
        if hierarchy
            .find_field(ClassId(0), &names[place], descriptor)
            .is_some()
        {
            found = found.wrapping_add(1);
        }
    }
    found
}

// Looks for the fields of a class with so many fields, and counts those that are found.
pub(crate) fn fields(alloc: Global, size: u32) -> Result<u64, AllocError> {
    let (class, names) = with_fields(alloc, size)?;
    let mut classes = Vec::new(alloc);
    classes.push(class)?;
    let descriptor = Text::from_slice(alloc, b"I")?;
    match hierarchy_of(alloc, classes)? {
        Some(hierarchy) => Ok(find_all(&hierarchy, names.as_slice(), &descriptor)),
        None => Ok(0),
    }
}

fn ask_all(hierarchy: &Hierarchy) -> u64 {
    let size = hierarchy.classes().len();
    let mut count = 0u64;
    if size == 0 {
        return count;
    }
    let mut low = 0usize;
    let mut high = 0usize;
    for _ in 0..(size as u64).wrapping_mul(u64::from(LOOK_UPS)) {
        low = low.wrapping_add(STRIDE as usize) % size;
        high = high.wrapping_add(SECOND_STRIDE as usize) % size;
        if hierarchy.is_subclass(ClassId(low as u32), ClassId(high as u32)) {
            count = count.wrapping_add(1);
        }
    }
    count
}

// So many classes, each of which extends the one before.
fn chain(alloc: Global, size: u32) -> Result<Vec<ClassInfo>, AllocError> {
    let mut classes = Vec::new(alloc);
    for number in 0..size {
        let super_id = number.checked_sub(1).map(ClassId);
        classes.push(class_of(alloc, number, super_id)?)?;
    }
    Ok(classes)
}

// Asks of pairs of classes in a chain whether the first is a subclass, and counts those that are.
pub(crate) fn subclasses(alloc: Global, size: u32) -> Result<u64, AllocError> {
    match hierarchy_of(alloc, chain(alloc, size)?)? {
        Some(hierarchy) => Ok(ask_all(&hierarchy)),
        None => Ok(0),
    }
}

// A class that names an interface so many times, with a chain of interfaces above it; counts the
// classes.
pub(crate) fn repeats(alloc: Global, size: u32) -> Result<u64, AllocError> {
    let mut classes = chain(alloc, TALL)?;
    let mut class = class_of(alloc, TALL, None)?;
    for _ in 0..size {
        class.interfaces.push(ClassId(TALL - 1))?;
    }
    classes.push(class)?;
    match hierarchy_of(alloc, classes)? {
        Some(hierarchy) => Ok(hierarchy.classes().len() as u64),
        None => Ok(0),
    }
}
