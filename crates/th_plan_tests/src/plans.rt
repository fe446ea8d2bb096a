// What is told of fields and of methods of the harness, and whole plans.
use crate::register_form::{edges, facts, program};
use std::alloc::{AllocError, Global};
use std::process::Abort;
use std::test::Fail;
use th_base::{
    ClassId, ClassInfo, FieldId, FieldInfo, Hierarchy, MethodId, MethodInfo, NodeId, Reg, Same,
    Seq, SiteId, Text, TryCopy, acyclic,
};
use th_ir::{
    CallKind, FieldKind, Graph, HarnessKind, LENGTH, Method, Node, Place, Plan, RegProgram, STAGE,
    Site, Stmt, class_has, field_kind, field_known, harness_kind, has_field,
};

const ACTIVITY: ClassId = ClassId(10);

const ACT: ClassId = ClassId(11);

// The names of the classes before those of the files.
const NAMES: [&str; 11] = [
    "java/lang/Object",
    "java/lang/String",
    "A",
    "B",
    "C",
    "D",
    "E",
    "F",
    "android/os/Bundle",
    "G",
    "android/app/Activity",
];

fn text(alloc: Global, bytes: &str) -> Result<Text, AllocError> {
    Text::from_slice(alloc, bytes.as_bytes())
}

fn field(
    alloc: Global,
    id: u32,
    descriptor: &str,
    is_static: bool,
) -> Result<FieldInfo, AllocError> {
    Ok(FieldInfo {
        id: FieldId(id),
        name: text(alloc, "f")?,
        descriptor: text(alloc, descriptor)?,
        is_static,
    })
}

fn class(alloc: Global, name: &str, super_id: Option<ClassId>) -> Result<ClassInfo, AllocError> {
    Ok(ClassInfo {
        name: text(alloc, name)?,
        super_id,
        interfaces: Seq::new(alloc),
        is_interface: false,
        is_abstract: false,
        fields: Seq::new(alloc),
        methods: Seq::new(alloc),
    })
}

// A class of a file that can be launched, with an int for all, and a long, a reference and an array of
// its instances.
fn act(alloc: Global) -> Result<ClassInfo, AllocError> {
    let mut act = class(alloc, "Act", Some(ACTIVITY))?;
    act.fields.push(field(alloc, 0, "I", true)?)?;
    act.fields.push(field(alloc, 1, "J", false)?)?;
    act.fields.push(field(alloc, 2, "LAct;", false)?)?;
    act.fields.push(field(alloc, 3, "[J", false)?)?;
    act.methods.push(MethodInfo {
        id: MethodId(17),
        name: text(alloc, "<init>")?,
        descriptor: text(alloc, "()V")?,
        is_static: false,
        is_private: false,
        is_abstract: false,
    })?;
    Ok(act)
}

fn made(rt: &impl Abort, alloc: Global, classes: Vec<ClassInfo>) -> Result<Hierarchy, AllocError> {
    let answer = acyclic(alloc, classes.as_slice())?;
    assert!(rt; answer);
    assert!(rt; classes.len() < 4_294_967_296);
    Hierarchy::new(alloc, classes)
}

fn hierarchy(rt: &impl Abort, alloc: Global) -> Result<Hierarchy, AllocError> {
    let mut classes = Vec::new(alloc);
    for name in &NAMES {
        let super_id = if classes.len() == 0 {
            None
        } else {
            Some(ClassId(0))
        };
        classes.push(class(alloc, name, super_id)?)?;
    }
    classes.push(act(alloc)?)?;
    made(rt, alloc, classes)
}

fn node(alloc: Global, stmt: Stmt) -> Node {
    Node {
        method: MethodId(0),
        offset: 0,
        stmt,
        next: Seq::new(alloc),
        loop_head: false,
    }
}

fn method(alloc: Global, owner: Option<ClassId>, entry: u32) -> Method {
    Method {
        owner,
        entry: NodeId(entry),
        params: Seq::new(alloc),
        returns: Seq::new(alloc),
    }
}

// A method of a class, a launch and a handler; a site of a launch, of a Bundle and of arrays.
fn harnessed(alloc: Global) -> Result<RegProgram, AllocError> {
    let mut program = program(alloc)?;
    program.nodes = Seq::new(alloc);
    program.nodes.push(node(alloc, Stmt::Init(ACT)))?;
    program.nodes.push(node(alloc, Stmt::Pick(Reg(0), ACT)))?;
    program.nodes.push(node(alloc, Stmt::Null(Reg(1))))?;
    let args = Seq::from_slice(alloc, &[Reg(0)])?;
    let call = Stmt::Call(None, CallKind::Virtual, MethodId(10), args);
    program.nodes.push(node(alloc, call))?;
    program.methods = Seq::new(alloc);
    program.methods.push(method(alloc, Some(ACT), 0))?;
    program.methods.push(method(alloc, None, 0))?;
    program.methods.push(method(alloc, None, 1))?;
    program.sites = Seq::new(alloc);
    for (class, place) in [
        ("Act", Place::Launch(ACT)),
        ("android/os/Bundle", Place::Event),
    ] {
        program.sites.push(Site {
            class: text(alloc, class)?,
            place,
        })?;
    }
    program.sites.push(Site {
        class: text(alloc, "[LAct;")?,
        place: Place::Code(MethodId(0), 0),
    })?;
    Ok(program)
}

#[test]
fn fields_are_told(rt: HostRuntime) -> Result<(), Fail> {
    let h = hierarchy(&rt, rt.alloc())?;
    let int = Some(FieldKind::Int);
    let reference = Some(FieldKind::Ref);
    for (field, known, kind) in [
        (FieldId(0), true, int),
        (FieldId(1), true, None),
        (FieldId(2), true, reference),
        (FieldId(3), true, reference),
        (FieldId(4), false, None),
        (STAGE, true, int),
        (LENGTH, true, int),
    ] {
        assert_eq!(rt; field_known(&h, field), known);
        assert_eq!(rt; field_kind(&h, field), kind);
    }
    let program = harnessed(rt.alloc())?;
    for (field, act, bundle, array) in [
        (FieldId(0), false, false, false),
        (FieldId(1), false, false, false),
        (FieldId(2), true, false, false),
        (FieldId(4), false, false, false),
        (STAGE, true, false, false),
        (LENGTH, false, false, true),
    ] {
        assert_eq!(rt; has_field(&h, &program, SiteId(0), field), act);
        assert_eq!(rt; has_field(&h, &program, SiteId(1), field), bundle);
        assert_eq!(rt; has_field(&h, &program, SiteId(2), field), array);
        assert_eq!(rt; has_field(&h, &program, SiteId(3), field), false);
        assert!(rt; h.classes().len() > 11);
        assert_eq!(rt; class_has(&h, ACT, field), act);
    }
    Ok(())
}

#[test]
fn harness_kinds_are_told(rt: HostRuntime) -> Result<(), Fail> {
    let program = harnessed(rt.alloc())?;
    assert_eq!(rt; harness_kind(&program, MethodId(0)), None);
    assert_eq!(rt;
        harness_kind(&program, MethodId(1)),
        Some(HarnessKind::Launch(ACT))
    );
    assert_eq!(rt;
        harness_kind(&program, MethodId(2)),
        Some(HarnessKind::Handler(ACT, 1))
    );
    assert_eq!(rt; harness_kind(&program, MethodId(3)), None);
    Ok(())
}

#[test]
fn plans_are_copied_and_compared(rt: HostRuntime) -> Result<(), Fail> {
    let plan = Plan {
        program: harnessed(rt.alloc())?,
        hierarchy: hierarchy(&rt, rt.alloc())?,
        facts: facts(rt.alloc())?,
        mods: Seq::new(rt.alloc()),
        graph: Graph {
            edges: edges(rt.alloc())?,
        },
        alarms: Seq::new(rt.alloc()),
        budget: 10,
    };
    let mut copy = plan.try_copy(rt.alloc())?;
    assert!(rt; plan.same(&copy));
    copy.budget = 11;
    assert!(rt; !plan.same(&copy));
    copy.budget = 10;
    copy.hierarchy = made(&rt, rt.alloc(), Vec::new(rt.alloc()))?;
    assert!(rt; !plan.same(&copy));
    Ok(())
}
