// What leads to a node, calls a method, and may enter an initialiser.
ghost use Rattle.std.specs.Prelude.{◌≡◌, ◌≢◌, ◌<◌, ◌^◌, ℕ, length, map, IfOk, OnOk, [], ◌++◌, ◌∷◌};
ghost use Rattle.std.specs.List.{slice_index_or};
ghost use Rattle.th_flow.specs.Flows.{Precedes, IsCaller, IsInitSite, ListEach};
ghost use Rattle.th_flow.specs.Inverted.{successor_numbers, called_by};

use crate::initialising::entered_lists;
use crate::inverted::inverted;
use std::alloc::{AllocError, Global};
use th_base::{Hierarchy, MethodId, NodeId, Seq};
use th_ir::{Facts, Node, RegProgram};

/// For each node the nodes whose successors have it, ascending. Takes time in the number of nodes and
/// successors.
pub fn predecessors(alloc: Global, program: &RegProgram) -> Result<Vec<Seq<NodeId>>, AllocError>
    requires { length program.now.nodes < 2 ^ 32 }
    ensures { IfOk result (λ lists. ListEach (length program.now.nodes) (Precedes program.now) lists.items) }
{
    let nodes = program.nodes.as_slice();
    let lists = successor_lists(alloc, nodes)?;
    let rows = inverted(alloc, nodes.len(), lists.as_slice())?;
    Ok(rows)
}

/// For each method the nodes that may call it, by the call graph, ascending. Takes time in the number of
/// nodes, methods and calls.
pub fn callers(
    alloc: Global,
    program: &RegProgram,
    facts: &Facts,
) -> Result<Vec<Seq<NodeId>>, AllocError>
    requires { length program.now.nodes < 2 ^ 32 }
    ensures { IfOk result (λ lists. ListEach (length program.now.methods) (IsCaller program.now facts.now) lists.items) }
{
    let lists = call_lists(alloc, program.nodes.len(), facts.calls.as_slice())?;
    let rows = inverted(alloc, program.methods.len(), lists.as_slice())?;
    Ok(rows)
}

/// For each method the nodes that initialise a class and may enter the method to do so, as the
/// initialiser of the class or of a superclass of it, ascending. Takes time in the number of nodes, the
/// superclasses of each class, and what is listed.
pub fn init_sites(
    alloc: Global,
    program: &RegProgram,
    hierarchy: &Hierarchy,
) -> Result<Vec<Seq<NodeId>>, AllocError>
    requires { length program.now.nodes < 2 ^ 32 }
    ensures { IfOk result (λ lists. ListEach (length program.now.methods) (IsInitSite hierarchy.now program.now) lists.items) }
{
    let lists = entered_lists(alloc, program.nodes.as_slice(), hierarchy)?;
    let rows = inverted(alloc, program.methods.len(), lists.as_slice())?;
    Ok(rows)
}

// For each node the numbers of its successors.
fn successor_lists(alloc: Global, nodes: &[Node]) -> Result<Vec<Seq<u32>>, AllocError>
    ensures { IfOk result (λ lists. lists.items ≡ map successor_numbers nodes.now) }
{
    let mut lists = Vec::new(alloc);
    for node in nodes {
        let mut list = Vec::new(alloc);
        for next in node.next.as_slice() {
            list.push(next.0)?;
        }
        lists.push(Seq::from_vec(list))?;
    }
    Ok(lists)
}

// For each node the methods that it may call.
fn call_lists(
    alloc: Global,
    count: usize,
    calls: &[(NodeId, MethodId)],
) -> Result<Vec<Seq<u32>>, AllocError>
    ensures count { IfOk result (λ lists. length lists.items ≡ count) }
    ensures each { IfOk result (λ lists. (n : ℕ) → n < count → slice_index_or lists.items n [] ≡ called_by calls.now n) }
{
    let mut lists = Vec::new(alloc);
    for _ in 0..count {
        lists.push(Seq::new(alloc))?;
    }
    for (node, method) in calls {
        add_call(&mut lists, node.0 as usize, method.0)?;
    }
    Ok(lists)
}

// Adds a method to the list of a node, if there is such a node.
fn add_call(lists: &mut Vec<Seq<u32>>, node: usize, method: u32) -> Result<(), AllocError>
    ensures count { length lists.new.items ≡ length lists.old.items }
    ensures here { OnOk result (node < length lists.old.items → slice_index_or lists.new.items node [] ≡ slice_index_or lists.old.items node [] ++ method ∷ []) }
    ensures others { OnOk result ((n : ℕ) → n ≢ node → slice_index_or lists.new.items n [] ≡ slice_index_or lists.old.items n []) }
{
    if node < lists.len() {
        return lists[node].push(method);
    }
    Ok(())
}
