// Where control comes together: the registers that Copies set before a node, and entries of methods.
ghost use Rattle.std.specs.Prelude.{◌≡◌, ◌↔◌, ◌<◌, ◌||◌, ℕ, length, map, true, IfOk, OnOk};
ghost use Rattle.std.specs.List.{list_any};
ghost use Rattle.th_base.specs.IdSet.{has};
ghost use Rattle.th_flow.specs.Flows.{Precedes, ListEach, IsMergeRegister, TellsEntered};
ghost use Rattle.th_flow.specs.Inverted.{targets_of, sets_at, is_entry};

use std::alloc::{AllocError, Global};
use th_base::laws::members_of_inserted;
use th_base::{IdSet, MethodId, NodeId, Reg, Seq};
use th_ir::{RegProgram, Stmt};

/// The merge registers of a node, as a loop head: those that the Copies which lead to it set. Takes the
/// predecessors of each node, and time in the number of pairs of these Copies, each with a look-up.
pub fn merge_registers(
    alloc: Global,
    program: &RegProgram,
    predecessors: &[Seq<NodeId>],
    head: NodeId,
) -> Result<IdSet, AllocError>
    requires inside { head.0 < length program.now.nodes }
    requires listed { ListEach (length program.now.nodes) (Precedes program.now) predecessors.now }
    ensures { IfOk result (λ regs. (r : ℕ) → (has regs r ≡ true) ↔ IsMergeRegister program.now head.0 r) }
{
    let mut regs = IdSet::new(alloc);
    let sources = predecessors[head.0 as usize].as_slice();
    add_all_targets(&mut regs, program, sources)?;
    Ok(regs)
}

// Adds the registers that the Copies at these nodes set.
fn add_all_targets(
    regs: &mut IdSet,
    program: &RegProgram,
    sources: &[NodeId],
) -> Result<(), AllocError>
    ensures { OnOk result ((r : ℕ) → has regs.new r ≡ (has regs.old r || list_any (λ n. sets_at program.now n.0 r) sources.now)) }
{
    for source in sources {
        add_targets_at(regs, program, *source)?;
    }
    Ok(())
}

// Adds the registers that a Copy at this node sets.
fn add_targets_at(regs: &mut IdSet, program: &RegProgram, source: NodeId) -> Result<(), AllocError>
    ensures { OnOk result ((r : ℕ) → has regs.new r ≡ (has regs.old r || sets_at program.now source.0 r)) }
{
    if let Some(node) = program.nodes.get(source.0 as usize) {
        return add_targets(regs, &node.stmt);
    }
    Ok(())
}

// Adds the registers that a Copy sets.
fn add_targets(regs: &mut IdSet, stmt: &Stmt) -> Result<(), AllocError>
    ensures { OnOk result ((r : ℕ) → has regs.new r ≡ (has regs.old r || has (targets_of stmt.now) r)) }
{
    if let Stmt::Copy(pairs) = stmt {
        return add_first_of_each(regs, pairs.as_slice());
    }
    Ok(())
}

// Adds the first register of each pair.
fn add_first_of_each(regs: &mut IdSet, pairs: &[(Reg, Reg)]) -> Result<(), AllocError>
    ensures { OnOk result ((r : ℕ) → has regs.new r ≡ (has regs.old r || has (map (λ m. m.0.0) pairs.now) r)) }
{
    members_of_inserted();
    for pair in pairs {
        regs.insert(pair.0.0)?;
    }
    Ok(())
}

/// The method whose entry the node is: what calls it, or enters it as an initialiser, leads to the node.
/// `None` exactly where the node is no method's entry.
pub fn entered_method(program: &RegProgram, node: NodeId) -> Option<MethodId>
    ensures { TellsEntered program.now node.0 result }
{
    match program.nodes.get(node.0 as usize) {
        Some(found) => {
            let method = found.method;
            if is_entry(program, method, node) {
                Some(method)
            } else {
                None
            }
        }
        None => None,
    }
}

// Whether a node is the entry of a method.
fn is_entry(program: &RegProgram, method: MethodId, node: NodeId) -> bool
    ensures { result ≡ is_entry program.now method.0 node.0 }
{
    match program.methods.get(method.0 as usize) {
        Some(found) => found.entry == node,
        None => false,
    }
}
