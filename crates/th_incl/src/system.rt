// The constraints as a run uses them.
ghost use Rattle.std.specs.Prelude.{◌≡◌, ◌<◌, ◌∷◌, ◌++◌, [], length, slice_set, OnOk};
ghost use Rattle.th_incl.specs.Run.{out_at};

use crate::Inclusion;
use crate::filter::Filter;
use std::alloc::AllocError;
use th_base::Seq;

// All constraints so far, which a run leaves as they are.
#[derive(Debug, Drop)]
pub(crate) struct System {
    pub(crate) sets: usize,
    pub(crate) base: Seq<(usize, u32)>,
    pub(crate) copies: Seq<Inclusion>,
    pub(crate) filters: Seq<Filter>,
    // The inclusions once more, by the set that they come from.
    pub(crate) out: Vec<Seq<Inclusion>>,
}

// Lists an inclusion with the set that it comes from.
pub(crate) fn put_out(out: &mut Vec<Seq<Inclusion>>, inclusion: Inclusion) -> Result<(), AllocError>
    requires { inclusion.from < length out.old.items }
    ensures { OnOk result (out.new.items ≡ slice_set out.old.items inclusion.from (out_at out.old.items inclusion.from ++ inclusion ∷ [])) }
{
    out[inclusion.from].push(inclusion)
}
