// The path of a step, read back from it.
ghost use Rattle.std.specs.Prelude.{◌≡◌, ◌<◌, List, length, IfOk};
ghost use Rattle.th_base.specs.declared.number.EdgeId.{EdgeId};
ghost use Rattle.th_paths.specs.Search.{ArePaths, TellsPath};

use crate::search::Step;
use std::alloc::{AllocError, Global};
use th_base::{EdgeId, Seq};

// The edges that lead to a step, the first first.
pub(crate) fn path_to(alloc: Global, steps: &[Step], at: usize) -> Result<Seq<EdgeId>, AllocError>
    requires inside { at < length steps.now }
    requires paths { (paths : List (List EdgeId)) × ArePaths steps.now paths }
    ensures { IfOk result (TellsPath steps.now at) }
{
    let mut path = Vec::new(alloc);
    let mut next = Some(at);
    while let Some(place) = next {
        let step = steps[place];
        path.push(step.edge)?;
        next = step.before;
    }
    path.reverse();
    Ok(Seq::from_vec(path))
}
