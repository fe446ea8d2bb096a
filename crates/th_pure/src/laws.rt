//! What the definitions of the steps mean.
ghost use Rattle.th_pure.specs.Laws.{RefutedHaveNoSolution};
ghost use Rattle.th_pure.specs.Laws.{RoundsEnd, VariablesStand, VariableVanishes};

use th_linear::laws::{one_sum, steps_keep};

/// Where the definition of the refuter says yes, no integers in the ranges satisfy the facts.
pub fn refuted_have_no_solution()
    ensures { RefutedHaveNoSolution }
{
    // For the proof alone: what the steps keep.
    steps_keep();
}

/// Rounds of substitution go on until no equation has a coefficient 1 or -1. The variables that are
/// eliminated ascend, and are exactly those that stand in the facts. Each vanishes where two facts
/// are combined.
pub fn steps_mean()
    ensures rounds { RoundsEnd }
    ensures variables { VariablesStand }
    ensures vanishes { VariableVanishes }
{
    // For the proof alone: what a sum of two facts is.
    one_sum();
}
