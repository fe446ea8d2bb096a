// Loop heads.
ghost use Rattle.std.specs.Prelude.{◌≡◌, ◌↔◌, ◌<◌, ◌^◌, ℕ, length, true, IfOk};
ghost use Rattle.th_base.specs.IdSet.{has};
ghost use Rattle.th_flow.specs.Flows.{IsMarked, MarksLoopHeads};
ghost use Rattle.th_ir.specs.Flow.{IsLoopHead};
ghost use Rattle.th_ir.specs.WellFormed.{places_from};

use std::alloc::{AllocError, Global};
use th_base::IdSet;
use th_ir::{Node, RegProgram};

/// The loop heads of a program whose loop heads are marked, as they are in a well-formed one: the nodes
/// that are marked. Takes time in the number of nodes.
pub fn loop_heads(alloc: Global, program: &RegProgram) -> Result<IdSet, AllocError>
    requires { length program.now.nodes < 2 ^ 32 }
    ensures marked { IfOk result (λ heads. (n : ℕ) → (has heads n ≡ true) ↔ IsMarked program.now n) }
    ensures heads { IfOk result (λ heads. MarksLoopHeads program.now → (n : ℕ) → (has heads n ≡ true) ↔ IsLoopHead program.now n) }
{
    let marked = marked_nodes(alloc, program.nodes.as_slice())?;
    Ok(IdSet::from_ascending(marked))
}

// The places of the nodes that are marked.
fn marked_nodes(alloc: Global, nodes: &[Node]) -> Result<Vec<u32>, AllocError>
    requires { length nodes.now < 2 ^ 32 }
    ensures { IfOk result (λ marked. marked.items ≡ places_from (λ n. n.loop_head) 0 nodes.now) }
{
    let mut marked = Vec::new(alloc);
    for (place, node) in nodes.iter().enumerate() {
        if node.loop_head {
            marked.push(place as u32)?;
        }
    }
    Ok(marked)
}
