//! What the heap graph, alarms and producers say of every run of the register machine, over all
//! programs and both lifecycles. Facts are any that hold their rules; the least ones do.
ghost use Rattle.std.specs.Prelude.{ℕ, List, ◌∷◌};
ghost use Rattle.th_base.specs.declared.class.ClassInfo.{ClassInfo};
ghost use Rattle.th_graph.specs.Joined.{IsJoined};
ghost use Rattle.th_graph.specs.Produced.{IsProduced};
ghost use Rattle.th_ir.specs.declared.graph.Alarm.{Alarm};
ghost use Rattle.th_ir.specs.declared.graph.Edge.{Edge};
ghost use Rattle.th_ir.specs.declared.program.RegProgram.{RegProgram};
ghost use Rattle.th_ir.specs.FactSets.{FactSets};
ghost use Rattle.th_ir.specs.Graph.{AreAlarms, IsGraph, Realises};
ghost use Rattle.th_ir.specs.Machine.{RegState};
ghost use Rattle.th_ir.specs.Program.{Among};
ghost use Rattle.th_ir.specs.Rules.{HoldsRules};
ghost use Rattle.th_ir.specs.Step.{RegReachable, RegRun};
ghost use Rattle.th_ir.specs.WellFormed.{IsWellFormed};

use th_ir::laws::{covered, good, realised};

/// Each static field of a class of a file, field and element that holds an object in a reachable state
/// has its edge in the graph.
pub fn edges_cover()
    ensures { (h : List ClassInfo) (p : RegProgram) (t : FactSets) (edges : List Edge) (s : RegState) (e : Edge) → IsWellFormed h p → HoldsRules h p t
        → IsGraph h t edges → RegReachable h p s → Realises s e → Among edges e }
{
    realised();
}

/// A static field and an Activity class that are joined in a reachable state are an alarm: what is no
/// alarm is joined in no reachable state.
pub fn joined_are_alarms()
    ensures { (h : List ClassInfo) (p : RegProgram) (t : FactSets) (edges : List Edge) (alarms : List Alarm) (s : RegState) (a : Alarm) → IsWellFormed h p
        → HoldsRules h p t → IsGraph h t edges → AreAlarms h p edges alarms → RegReachable h p s → IsJoined h p s a.field.0 a.class.0 → Among alarms a }
{
    covered();
    realised();
}

/// Where the last state of a run realises an edge, some state of the run stands at a producer of the
/// edge, with objects of the edge's sites in the store's registers, or is the initial state, where the
/// producer is a String constant.
pub fn realised_edges_are_produced()
    ensures { (h : List ClassInfo) (p : RegProgram) (t : FactSets) (s : RegState) (before : List RegState) (e : Edge) → IsWellFormed h p → HoldsRules h p t
        → RegRun h p (s ∷ before) → Realises s e → IsProduced h p t (s ∷ before) e }
{
    covered();
    good();
}
