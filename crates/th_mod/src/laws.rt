//! What callers may rely on, over all programs.
ghost use Rattle.std.specs.Prelude.{ℕ, List};
ghost use Rattle.th_base.specs.declared.class.ClassInfo.{ClassInfo};
ghost use Rattle.th_ir.specs.declared.facts.Facts.{Facts};
ghost use Rattle.th_ir.specs.declared.facts.Mods.{Mods};
ghost use Rattle.th_ir.specs.declared.program.RegProgram.{RegProgram};
ghost use Rattle.th_ir.specs.Machine.{RegFrame, RegState};
ghost use Rattle.th_ir.specs.Rules.{LeastFacts};
ghost use Rattle.th_ir.specs.Summaries.{LeastMods, sums_of};
ghost use Rattle.th_ir.specs.Unchanged.{last_of};
ghost use Rattle.th_ir.specs.WellFormed.{IsWellFormed};
ghost use Rattle.th_mod.specs.Kept.{IsAsBefore, KeepsFrame};
ghost use Rattle.th_mod.specs.Told.{NodesHaveMethods};

/// What `summaries` asks of a program holds of every well-formed one.
pub fn well_formed_is_enough()
    ensures { (h : List ClassInfo) (p : RegProgram) → IsWellFormed h p → NodesHaveMethods p }
{}

/// From the entry of a method on, as long as its frame isn't left, the frames below it are as they were, and
/// nothing else changes but what the summary that `summaries` lists for it writes and makes.
pub fn unchanged()
    ensures { (h : List ClassInfo) (p : RegProgram) (facts : Facts) (mods : List Mods) (since : List RegState) (first : RegState) (earlier : List RegState)
        (lower : List RegFrame) (m : ℕ) → IsWellFormed h p → LeastFacts h p facts → LeastMods h p facts mods → KeepsFrame h p since first earlier lower m
        → IsAsBefore (sums_of mods) lower m first (last_of since first) }
{}
