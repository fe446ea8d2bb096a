use std::alloc::{AllocError, Global};
use std::process::Abort;
use std::test::Fail;
use th_base::{
    ClassId, ClassInfo, FieldId, Hierarchy, IdSet, MethodId, MethodInfo, NodeId, Reg, Seq, SiteId,
    Text, acyclic,
};
use th_ir::{CallKind, Facts, Method, Mods, Node, RegProgram, STAGE, Stmt};
use th_mod::summaries;

const A: Reg = Reg(0);

fn digit(letter: u8) -> u32 {
    u32::from(letter.saturating_sub(b'0'))
}

// What a node does, as it is written here; its registers are of no account. Numbers are of fields,
// sites and classes.
fn stmt(alloc: Global, does: u8, number: u32) -> Stmt {
    match does {
        b'f' => Stmt::PutField(A, FieldId(number), A),
        b's' => Stmt::PutStatic(FieldId(number), A),
        b'e' => Stmt::PutElem(A, A),
        b'n' => Stmt::New(A, SiteId(number)),
        b'a' => Stmt::NewArray(A, SiteId(number), A),
        b'c' => Stmt::Call(None, CallKind::Static, MethodId(0), Seq::new(alloc)),
        b'i' => Stmt::Init(ClassId(number)),
        b'r' => Stmt::GetStatic(A, FieldId(number)),
        b'y' => Stmt::AnyInt(A),
        b'g' => Stmt::PutField(A, STAGE, A),
        _ => Stmt::Return(None),
    }
}

fn method(alloc: Global) -> Method {
    Method {
        owner: None,
        entry: NodeId(0),
        params: Seq::new(alloc),
        returns: Seq::new(alloc),
    }
}

fn node(alloc: Global, method: u32, stmt: Stmt) -> Node {
    Node {
        method: MethodId(method),
        offset: 0,
        stmt,
        next: Seq::new(alloc),
        loop_head: false,
    }
}

// A program of so many methods with these nodes, each written as its method, what it does, and a
// number.
fn program(alloc: Global, methods: u32, nodes: &[u8]) -> Result<RegProgram, AllocError> {
    let mut program = RegProgram {
        methods: Seq::new(alloc),
        nodes: Seq::new(alloc),
        sites: Seq::new(alloc),
        harness: Seq::new(alloc),
        refs: IdSet::new(alloc),
        ints: Seq::new(alloc),
        strings: Seq::new(alloc),
    };
    for _ in 0..methods {
        program.methods.push(method(alloc))?;
    }
    for triple in nodes.chunks(3) {
        if let [method, does, number] = triple {
            let stmt = stmt(alloc, *does, digit(*number));
            program.nodes.push(node(alloc, digit(*method), stmt))?;
        }
    }
    Ok(program)
}

// Facts with this call graph: pairs of a node, from `A` on, and a method.
fn facts(alloc: Global, calls: &[u8]) -> Result<Facts, AllocError> {
    let mut facts = Facts {
        regs: Seq::new(alloc),
        statics: Seq::new(alloc),
        cells: Seq::new(alloc),
        elems: Seq::new(alloc),
        calls: Seq::new(alloc),
        reached: IdSet::new(alloc),
    };
    for pair in calls.chunks(2) {
        if let [node, method] = pair {
            let node = u32::from(node.saturating_sub(b'A'));
            facts.calls.push((NodeId(node), MethodId(digit(*method))))?;
        }
    }
    Ok(facts)
}

fn initialiser(alloc: Global, number: u32) -> Result<MethodInfo, AllocError> {
    Ok(MethodInfo {
        id: MethodId(number),
        name: Text::from_slice(alloc, b"<clinit>")?,
        descriptor: Text::from_slice(alloc, b"()V")?,
        is_static: true,
        is_private: false,
        is_abstract: false,
    })
}

// A class of this name, with a superclass and the number of its initialiser, or `-`.
fn class(alloc: Global, name: u8, above: u8, number: u8) -> Result<ClassInfo, AllocError> {
    let mut methods = Seq::new(alloc);
    if number != b'-' {
        methods.push(initialiser(alloc, digit(number))?)?;
    }
    let super_id = if above == b'-' {
        None
    } else {
        Some(ClassId(digit(above)))
    };
    Ok(ClassInfo {
        name: Text::from_slice(alloc, &[name])?,
        super_id,
        interfaces: Seq::new(alloc),
        is_interface: false,
        is_abstract: false,
        fields: Seq::new(alloc),
        methods,
    })
}

// Classes, each written as its name, its superclass and its initialiser.
fn hierarchy(rt: &impl Abort, alloc: Global, rows: &[u8]) -> Result<Hierarchy, AllocError> {
    let mut classes = Vec::new(alloc);
    for triple in rows.chunks(3) {
        if let [name, above, number] = triple {
            classes.push(class(alloc, *name, *above, *number)?)?;
        }
    }
    let answer = acyclic(alloc, classes.as_slice())?;
    assert!(rt; answer);
    assert!(rt; classes.len() < 4_294_967_296);
    Hierarchy::new(alloc, classes)
}

// The numbers of a set of digits, after a letter that says which set it is. STAGE is written as `#`.
fn write_set(text: &mut Vec<u8>, name: u8, set: &IdSet) -> Result<(), AllocError> {
    text.push(name)?;
    for id in set.ids() {
        let letter = if *id == STAGE.0 {
            b'#'
        } else {
            b'0'.saturating_add((*id % 10) as u8)
        };
        text.push(letter)?;
    }
    Ok(())
}

// Summaries as they are written here, each ended by `.`: fields, statics, elements, sites.
fn written(alloc: Global, all: &Seq<Mods>) -> Result<Vec<u8>, AllocError> {
    let mut text = Vec::new(alloc);
    for mods in all.as_slice() {
        write_set(&mut text, b'f', &mods.fields)?;
        write_set(&mut text, b's', &mods.statics)?;
        if mods.elements {
            text.push(b'e')?;
        }
        write_set(&mut text, b'n', &mods.sites)?;
        text.push(b'.')?;
    }
    Ok(text)
}

fn is_summed(
    rt: &impl Abort,
    alloc: Global,
    classes: &[u8],
    program: &RegProgram,
    calls: &[u8],
    expected: &[u8],
) -> Result<bool, AllocError> {
    let hierarchy = hierarchy(rt, alloc, classes)?;
    let facts = facts(alloc, calls)?;
    let mods = summaries(alloc, program, &hierarchy, &facts)?;
    let text = written(alloc, &mods)?;
    Ok(text.as_slice() == expected)
}

// Growing arrays whose empty ones share one (a null object): their `<init>`, `push` and `<clinit>`;
// `<init>` and `<clinit>` of an Activity that keeps one, its `onCreate`, which pushes itself onto
// another; a launch, and a handler that sets the stage.
#[test]
fn growing_arrays_are_summed(rt: HostRuntime) -> Result<(), Fail> {
    let alloc = rt.alloc();
    let nodes = b"0f10f20r00f31y01e01r02a22s03r04i14n34c04s45i15n45c05c06i26n06c07c07g0".as_slice();
    let program = program(alloc, 8, nodes)?;
    let calls = b"M0Q0R1U3V5".as_slice();
    let expected = b"f123sn.fsen.fs0n2.fsn.f123s04n23.f123s0en24.f123s04n023.f123#s0en24.";
    assert!(rt; is_summed(&rt, alloc, b"O--V02A04", &program, calls, expected)?);
    Ok(())
}

// A superclass's initialiser runs too; a class without one has its superclass's.
#[test]
fn superclasses_are_initialised(rt: HostRuntime) -> Result<(), Fail> {
    let alloc = rt.alloc();
    let program = program(alloc, 5, b"0s51s62i13i34i0")?;
    let expected = b"fs5n.fs6n.fs5n.fs56n.fsn.";
    assert!(rt; is_summed(&rt, alloc, b"O--A00B11C2-", &program, b"", expected)?);
    Ok(())
}

// Methods that call each other have one summary; their callee has its own.
#[test]
fn recursion_is_summed(rt: HostRuntime) -> Result<(), Fail> {
    let alloc = rt.alloc();
    let program = program(alloc, 4, b"0c00n11c01c02e02a03r0")?;
    let expected = b"fsen01.fsen01.fsen0.fsn.";
    assert!(rt; is_summed(&rt, alloc, b"", &program, b"A1C0D2G2", expected)?);
    Ok(())
}
