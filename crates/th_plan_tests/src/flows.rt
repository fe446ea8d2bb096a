ghost use Rattle.std.specs.Prelude.{◌≡◌, length, IfOk};

use std::alloc::Global;
use std::process::Abort;
use std::test::Fail;
use th_base::{
    ClassId, ClassInfo, Hierarchy, IdSet, MethodId, MethodInfo, NodeId, Reg, Seq, Text, acyclic,
};
use th_flow::{callers, entered_method, init_sites, loop_heads, merge_registers, predecessors};
use th_ir::{CallKind, Facts, Method, Node, RegProgram, Stmt};

// The successors of each node, a digit each: node 0 is the initialiser of class 0, the others are a
// method that initialises class 1, a subclass, and has a loop. Node 3 is its head, to which the Copies
// at 2 and 5 lead; two branches of node 3 lead to node 6, and node 4 calls the method itself.
const SUCCESSORS: &[u8] = b"|2|3|466|5|3|";

fn copy(alloc: Global, to: u32, from: u32) -> Result<Stmt, Fail> {
    let mut pairs = Seq::new(alloc);
    pairs.push((Reg(to), Reg(from)))?;
    Ok(Stmt::Copy(pairs))
}

fn stmt(alloc: Global, place: usize) -> Result<Stmt, Fail> {
    match place {
        0 | 6 => Ok(Stmt::Return(None)),
        1 => Ok(Stmt::Init(ClassId(1))),
        2 => copy(alloc, 7, 1),
        4 => Ok(Stmt::Call(None, CallKind::Static, MethodId(1), Seq::new(alloc))),
        5 => copy(alloc, 4, 7),
        _ => Ok(Stmt::Nop),
    }
}

fn ids(alloc: Global, digits: &[u8]) -> Result<Seq<NodeId>, Fail> {
    let mut nodes = Seq::new(alloc);
    for digit in digits {
        nodes.push(NodeId(u32::from(*digit).wrapping_sub(48)))?;
    }
    Ok(nodes)
}

fn node(alloc: Global, place: usize, successors: &[u8]) -> Result<Node, Fail> {
    let next = ids(alloc, successors)?;
    let stmt = stmt(alloc, place)?;
    Ok(Node {
        method: MethodId(if place == 0 { 0 } else { 1 }),
        offset: 0,
        stmt,
        next,
        loop_head: place == 3,
    })
}

fn nodes(alloc: Global) -> Result<Seq<Node>, Fail> {
    let mut nodes = Seq::new(alloc);
    for (place, successors) in SUCCESSORS.split(|b| *b == b'|').enumerate() {
        nodes.push(node(alloc, place, successors)?)?;
    }
    Ok(nodes)
}

fn methods(alloc: Global) -> Result<Seq<Method>, Fail> {
    let mut methods = Seq::new(alloc);
    for entry in 0..2u32 {
        methods.push(Method {
            owner: None,
            entry: NodeId(entry),
            params: Seq::new(alloc),
            returns: Seq::new(alloc),
        })?;
    }
    Ok(methods)
}

fn program(alloc: Global) -> Result<RegProgram, Fail>
    ensures { IfOk result (λ p. length p.nodes ≡ 7) }
{
    let nodes = nodes(alloc)?;
    if nodes.len() != 7 {
        return Err("other nodes".into());
    }
    Ok(RegProgram {
        methods: methods(alloc)?,
        nodes,
        sites: Seq::new(alloc),
        harness: Seq::new(alloc),
        refs: IdSet::new(alloc),
        ints: Seq::new(alloc),
        strings: Seq::new(alloc),
    })
}

fn class(alloc: Global, name: &[u8], super_id: Option<ClassId>) -> Result<ClassInfo, Fail> {
    Ok(ClassInfo {
        name: Text::from_slice(alloc, name)?,
        super_id,
        interfaces: Seq::new(alloc),
        is_interface: false,
        is_abstract: false,
        fields: Seq::new(alloc),
        methods: Seq::new(alloc),
    })
}

fn initialiser(alloc: Global) -> Result<MethodInfo, Fail> {
    Ok(MethodInfo {
        id: MethodId(0),
        name: Text::from_slice(alloc, b"<clinit>")?,
        descriptor: Text::from_slice(alloc, b"()V")?,
        is_static: true,
        is_abstract: false,
        is_private: false,
    })
}

// Class 0 declares an initialiser, and class 1 extends it.
fn classes(alloc: Global) -> Result<Vec<ClassInfo>, Fail> {
    let mut above = class(alloc, b"Above", None)?;
    above.methods.push(initialiser(alloc)?)?;
    let mut classes = Vec::new(alloc);
    classes.push(above)?;
    classes.push(class(alloc, b"Below", Some(ClassId(0)))?)?;
    Ok(classes)
}

fn hierarchy(alloc: Global) -> Result<Hierarchy, Fail> {
    let classes = classes(alloc)?;
    if acyclic(alloc, classes.as_slice())? && classes.len() < 99 {
        return Ok(Hierarchy::new(alloc, classes)?);
    }
    Err("no hierarchy".into())
}

// What node 4 calls.
fn facts(alloc: Global) -> Result<Facts, Fail> {
    let mut calls = Seq::new(alloc);
    calls.push((NodeId(4), MethodId(1)))?;
    Ok(Facts {
        regs: Seq::new(alloc),
        statics: Seq::new(alloc),
        cells: Seq::new(alloc),
        elems: Seq::new(alloc),
        calls,
        reached: IdSet::new(alloc),
    })
}

fn add(text: &mut String, list: &[NodeId]) -> Result<(), Fail> {
    for node in list {
        text.push(if node.0 < 10 {
            (48 + node.0 as u8) as char
        } else {
            'x'
        })?;
    }
    Ok(())
}

// A digit for each node, with a bar behind each list.
fn listed(alloc: Global, lists: &[Seq<NodeId>]) -> Result<String, Fail> {
    let mut text = String::new(alloc);
    for list in lists {
        add(&mut text, list.as_slice())?;
        text.push('|')?;
    }
    Ok(text)
}

#[test]
fn nodes_have_their_predecessors(rt: HostRuntime) -> Result<(), Fail> {
    let alloc = rt.alloc();
    let lists = predecessors(alloc, &program(alloc)?)?;
    if listed(alloc, lists.as_slice())?.as_str() != "||1|25|3|4|3|" {
        return Err("other predecessors".into());
    }
    Ok(())
}

#[test]
fn methods_have_their_callers_and_init_sites(rt: HostRuntime) -> Result<(), Fail> {
    let alloc = rt.alloc();
    let program = program(alloc)?;
    let calls = callers(alloc, &program, &facts(alloc)?)?;
    let inits = init_sites(alloc, &program, &hierarchy(alloc)?)?;
    if listed(alloc, calls.as_slice())?.as_str() != "|4|" {
        return Err("other callers".into());
    }
    if listed(alloc, inits.as_slice())?.as_str() != "1||" {
        return Err("other nodes that initialise".into());
    }
    if entered_method(&program, NodeId(1)) != Some(MethodId(1)) {
        return Err("another entry".into());
    }
    if entered_method(&program, NodeId(2)).is_some() {
        return Err("no entry".into());
    }
    Ok(())
}

#[test]
fn heads_have_their_merge_registers(rt: HostRuntime) -> Result<(), Fail> {
    let alloc = rt.alloc();
    let program = program(alloc)?;
    if loop_heads(alloc, &program)?.ids() != [3].as_slice() {
        return Err("another loop head".into());
    }
    let before = predecessors(alloc, &program)?;
    if merge_registers(alloc, &program, before.as_slice(), NodeId(3))?.ids() != [4, 7].as_slice() {
        return Err("other merge registers".into());
    }
    if !merge_registers(alloc, &program, before.as_slice(), NodeId(4))?.is_empty() {
        return Err("no merge registers".into());
    }
    Ok(())
}
