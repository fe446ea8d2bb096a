// Programs in register form, made piece by piece.
use std::alloc::{AllocError, Global};
use th_base::{IdSet, MethodId, NodeId, Reg, Seq};
use th_ir::{Method, Node, RegProgram, Stmt};

pub(crate) fn empty(alloc: Global) -> RegProgram {
    RegProgram {
        methods: Seq::new(alloc),
        nodes: Seq::new(alloc),
        sites: Seq::new(alloc),
        harness: Seq::new(alloc),
        refs: IdSet::new(alloc),
        ints: Seq::new(alloc),
        strings: Seq::new(alloc),
    }
}

// Adds a method with these parameters.
pub(crate) fn add_method(
    alloc: Global,
    program: &mut RegProgram,
    params: &[Reg],
) -> Result<(), AllocError> {
    let params = Seq::from_slice(alloc, params)?;
    program.methods.push(Method {
        owner: None,
        entry: NodeId(0),
        params,
        returns: Seq::new(alloc),
    })
}

// Adds a node to a method.
pub(crate) fn add_node(
    alloc: Global,
    program: &mut RegProgram,
    method: u32,
    stmt: Stmt,
) -> Result<(), AllocError> {
    program.nodes.push(Node {
        method: MethodId(method),
        offset: 0,
        stmt,
        next: Seq::new(alloc),
        loop_head: false,
    })
}
