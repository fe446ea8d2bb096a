//! What every run of the register machine keeps, over all programs and both lifecycles. Facts and
//! summaries are any that hold their rules; the least ones do.
ghost use Rattle.std.specs.Prelude.{ℕ, List, ◌∷◌, length};
ghost use Rattle.th_base.specs.declared.class.ClassInfo.{ClassInfo};
ghost use Rattle.th_ir.specs.declared.graph.Edge.{Edge};
ghost use Rattle.th_ir.specs.declared.program.RegProgram.{RegProgram};
ghost use Rattle.th_ir.specs.Covered.{Covers};
ghost use Rattle.th_ir.specs.FactSets.{FactSets};
ghost use Rattle.th_ir.specs.Fresh.{IsFresh, IsMaking};
ghost use Rattle.th_ir.specs.Good.{IsGood};
ghost use Rattle.th_ir.specs.Graph.{HasEdge, Realises};
ghost use Rattle.th_ir.specs.Machine.{RegFrame, RegState};
ghost use Rattle.th_ir.specs.Nesting.{IsNest, StandsOn};
ghost use Rattle.th_ir.specs.Rules.{HoldsRules};
ghost use Rattle.th_ir.specs.Step.{RegReachable, RegRun};
ghost use Rattle.th_ir.specs.Summaries.{HoldsSums, ModSets};
ghost use Rattle.th_ir.specs.Unchanged.{IsPassed, IsUnchanged, IsWithinCall, last_of};
ghost use Rattle.th_ir.specs.WellFormed.{IsWellFormed};

pub mod effects;
pub mod listings;
pub mod worked;

/// Every reachable state keeps the invariant.
pub fn good()
    ensures { (h : List ClassInfo) (p : RegProgram) (t : FactSets) (s : RegState) → IsWellFormed h p → HoldsRules h p t → RegReachable h p s → IsGood h p t s }
{}

/// The facts cover every reachable state.
pub fn covered()
    ensures { (h : List ClassInfo) (p : RegProgram) (t : FactSets) (s : RegState) → IsWellFormed h p → HoldsRules h p t → RegReachable h p s → Covers h p t s }
{}

/// The facts have each edge that a reachable state realises.
pub fn realised()
    ensures { (h : List ClassInfo) (p : RegProgram) (t : FactSets) (s : RegState) (e : Edge) → IsWellFormed h p → HoldsRules h p t → RegReachable h p s
        → Realises s e → HasEdge h t e }
{}

/// Where the last state of a run has a frame of a method above other frames, there is a last state with
/// those other frames alone; the next one is at the method's entry, and since then the frame and the
/// others stand. This holds of every program.
pub fn nested()
    ensures { (h : List ClassInfo) (p : RegProgram) (s : RegState) (before : List RegState) (lower : List RegFrame) (m : ℕ) → RegRun h p (s ∷ before)
        → StandsOn lower m s → IsNest h p (s ∷ before) lower m }
{}

/// From the entry of a method on, as long as its frame stands, nothing changes but what its summary
/// writes and makes.
pub fn unchanged()
    ensures { (h : List ClassInfo) (p : RegProgram) (t : FactSets) (mods : ModSets) (since : List RegState) (first : RegState) (earlier : List RegState)
        (lower : List RegFrame) (m : ℕ) → IsWellFormed h p → HoldsRules h p t → HoldsSums h p t mods → IsWithinCall h p since first earlier lower m
        → IsUnchanged mods m first (last_of since first) }
{}

/// Where the last state of a run has a frame of a method above other frames, it is the last state with
/// those other frames alone, but for what the method's summary writes and makes.
pub fn passed()
    ensures { (h : List ClassInfo) (p : RegProgram) (t : FactSets) (mods : ModSets) (s : RegState) (before : List RegState) (lower : List RegFrame) (m : ℕ)
        → IsWellFormed h p → HoldsRules h p t → HoldsSums h p t mods → RegRun h p (s ∷ before) → StandsOn lower m s
        → IsPassed h p mods (s ∷ before) lower m s }
{}

/// After a step that makes an object no place has it but the register of its statement.
pub fn fresh()
    ensures { (h : List ClassInfo) (p : RegProgram) (t : FactSets) (s u : RegState) (dst : ℕ) → IsWellFormed h p → HoldsRules h p t → RegReachable h p s
        → IsMaking h p s u dst → IsFresh (length s.heap) dst u }
{}
