// Points-to facts of a program of many classes, and of a tall hierarchy that is initialised.
use crate::classes::{hierarchy_of, numbered};
use crate::programs::{add_method, add_node, empty};
use std::alloc::{AllocError, Global};
use th_base::{
    ClassId, ClassInfo, FieldId, FieldInfo, Hierarchy, MethodId, MethodInfo, Reg, Seq, SiteId, Text,
};
use th_ir::{CallKind, Facts, Place, RegProgram, Site, Stmt};
use th_points_to::{Analysis, analyse};

// How many classes have a method in common: one declares it, the others override it.
const GROUP: u32 = 10;

// How many big cycles of moves there are: the groups take turns.
const CYCLES: u32 = 2;

// The instance field that all objects have.
const FIELD: FieldId = FieldId(0);

// How many registers there are for each class.
const REGISTERS: u32 = 4;

// The register of the objects of a class.
fn object(class: u32) -> Reg {
    Reg(class.wrapping_mul(REGISTERS))
}

// The register of what the field of a class's link holds.
fn loaded(class: u32) -> Reg {
    Reg(class.wrapping_mul(REGISTERS).wrapping_add(1))
}

// The register of what the call upon the objects of a class gives.
fn result(class: u32) -> Reg {
    Reg(class.wrapping_mul(REGISTERS).wrapping_add(2))
}

// The parameter of the method of a class.
fn parameter(class: u32) -> Reg {
    Reg(class.wrapping_mul(REGISTERS).wrapping_add(3))
}

// The class that declares the method of a class's group.
fn declaring(class: u32) -> u32 {
    class.wrapping_sub(class % GROUP)
}

// The objects of whose field a class's link stores and loads: those of the group's first class, or what
// the link before it loaded.
fn base(class: u32) -> Reg {
    if class % GROUP == 0 {
        object(class)
    } else {
        loaded(class.wrapping_sub(1))
    }
}

// The class after one in its cycle of moves, of so many classes.
fn after(class: u32, size: u32) -> u32 {
    let next = class.wrapping_add(1);
    if next % GROUP == 0 {
        next.wrapping_add(GROUP.wrapping_mul(CYCLES - 1)) % size.max(1)
    } else {
        next % size.max(1)
    }
}

fn field_info(alloc: Global) -> Result<FieldInfo, AllocError> {
    let name = Text::from_slice(alloc, b"f")?;
    let descriptor = Text::from_slice(alloc, b"LC0;")?;
    Ok(FieldInfo {
        id: FIELD,
        name,
        descriptor,
        is_static: false,
    })
}

fn method_info(
    alloc: Global,
    number: u32,
    name: &[u8],
    is_static: bool,
) -> Result<MethodInfo, AllocError> {
    let name = Text::from_slice(alloc, name)?;
    let descriptor = Text::from_slice(alloc, b"()V")?;
    Ok(MethodInfo {
        id: MethodId(number),
        name,
        descriptor,
        is_static,
        is_private: false,
        is_abstract: false,
    })
}

// A class with one method; the first class has a field.
fn class_of(
    alloc: Global,
    number: u32,
    super_id: Option<ClassId>,
    method: MethodInfo,
) -> Result<ClassInfo, AllocError> {
    let name = numbered(alloc, 'C', number)?;
    let mut fields = Seq::new(alloc);
    if number == 0 {
        fields.push(field_info(alloc)?)?;
    }
    let mut methods = Seq::new(alloc);
    methods.push(method)?;
    Ok(ClassInfo {
        name,
        super_id,
        interfaces: Seq::new(alloc),
        is_interface: false,
        is_abstract: false,
        fields,
        methods,
    })
}

// The superclass of a class in groups: the first of its group, and above that the first of all.
fn above(class: u32) -> Option<ClassId> {
    if class == 0 {
        None
    } else if class % GROUP == 0 {
        Some(ClassId(0))
    } else {
        Some(ClassId(declaring(class)))
    }
}

// The statements of a class: its object, the move to the next class of its cycle, its link of the chain
// of stores and loads, and a call upon its objects.
fn add_uses(
    alloc: Global,
    program: &mut RegProgram,
    size: u32,
    class: u32,
) -> Result<(), AllocError> {
    let moves = Seq::from_slice(alloc, &[(object(after(class, size)), object(class))])?;
    let args = Seq::from_slice(alloc, &[object(class)])?;
    let method = MethodId(declaring(class));
    let call = Stmt::Call(Some(result(class)), CallKind::Virtual, method, args);
    add_node(
        alloc,
        program,
        size,
        Stmt::New(object(class), SiteId(class)),
    )?;
    add_node(alloc, program, size, Stmt::Copy(moves))?;
    add_node(
        alloc,
        program,
        size,
        Stmt::PutField(base(class), FIELD, object(class)),
    )?;
    add_node(
        alloc,
        program,
        size,
        Stmt::GetField(loaded(class), base(class), FIELD),
    )?;
    add_node(alloc, program, size, call)
}

// A class's method, which returns its receiver, its site and its statements.
fn add_class(
    alloc: Global,
    program: &mut RegProgram,
    size: u32,
    class: u32,
) -> Result<(), AllocError> {
    add_method(alloc, program, &[parameter(class)])?;
    add_node(alloc, program, class, Stmt::Return(Some(parameter(class))))?;
    let name = numbered(alloc, 'C', class)?;
    program.sites.push(Site {
        class: name,
        place: Place::Code(MethodId(size), class),
    })?;
    add_uses(alloc, program, size, class)
}

// How many edges of the heap graph the fields of objects make.
fn edges(facts: &Facts) -> u64 {
    let mut count = 0u64;
    for (_, _, set) in facts.cells.as_slice() {
        count = count.wrapping_add(set.len() as u64);
    }
    count
}

fn edges_found(
    alloc: Global,
    program: &RegProgram,
    hierarchy: &Hierarchy,
) -> Result<u64, AllocError> {
    match analyse(alloc, program, hierarchy)? {
        Analysis::Least(facts) => Ok(edges(&facts)),
        Analysis::TooManyPairs => Ok(0),
    }
}

// Analyses a program of so many classes, and counts the edges of the heap graph.
pub(crate) fn facts(alloc: Global, size: u32) -> Result<u64, AllocError> {
    let mut classes = Vec::new(alloc);
    let mut program = empty(alloc);
    for class in 0..size {
        let method = method_info(alloc, class, b"get", false)?;
        classes.push(class_of(alloc, class, above(class), method)?)?;
        add_class(alloc, &mut program, size, class)?;
    }
    add_method(alloc, &mut program, &[])?;
    program.harness.push(MethodId(size))?;
    match hierarchy_of(alloc, classes)? {
        Some(hierarchy) => edges_found(alloc, &program, &hierarchy),
        None => Ok(0),
    }
}

fn methods_found(
    alloc: Global,
    program: &RegProgram,
    hierarchy: &Hierarchy,
) -> Result<u64, AllocError> {
    match analyse(alloc, program, hierarchy)? {
        Analysis::Least(facts) => Ok(facts.reached.len() as u64),
        Analysis::TooManyPairs => Ok(0),
    }
}

// Analyses a program that initialises each of so many classes, each of which extends the one before, and
// counts the methods that may run.
pub(crate) fn initialised(alloc: Global, size: u32) -> Result<u64, AllocError> {
    let mut classes = Vec::new(alloc);
    let mut program = empty(alloc);
    for class in 0..size {
        let method = method_info(alloc, class, b"<clinit>", true)?;
        let super_id = class.checked_sub(1).map(ClassId);
        classes.push(class_of(alloc, class, super_id, method)?)?;
        add_method(alloc, &mut program, &[])?;
        add_node(alloc, &mut program, size, Stmt::Init(ClassId(class)))?;
    }
    add_method(alloc, &mut program, &[])?;
    program.harness.push(MethodId(size))?;
    match hierarchy_of(alloc, classes)? {
        Some(hierarchy) => methods_found(alloc, &program, &hierarchy),
        None => Ok(0),
    }
}
