// What is defined by its members is listed in one way.
ghost use Rattle.std.specs.Prelude.{◌≡◌, List};
ghost use Rattle.th_base.specs.declared.class.ClassInfo.{ClassInfo};
ghost use Rattle.th_ir.specs.declared.facts.Facts.{Facts};
ghost use Rattle.th_ir.specs.declared.facts.Mods.{Mods};
ghost use Rattle.th_ir.specs.declared.graph.Alarm.{Alarm};
ghost use Rattle.th_ir.specs.declared.graph.Edge.{Edge};
ghost use Rattle.th_ir.specs.declared.graph.Producer.{Producer};
ghost use Rattle.th_ir.specs.declared.program.RegProgram.{RegProgram};
ghost use Rattle.th_ir.specs.FactSets.{FactSets};
ghost use Rattle.th_ir.specs.Graph.{AreAlarms, AreProducers, IsGraph};
ghost use Rattle.th_ir.specs.Rules.{LeastFacts};
ghost use Rattle.th_ir.specs.Summaries.{LeastMods};

/// A program has one list of facts and, with them, one of summaries.
pub fn facts_are_one()
    ensures facts { (h : List ClassInfo) (p : RegProgram) (a b : Facts) → LeastFacts h p a → LeastFacts h p b → a ≡ b }
    ensures mods { (h : List ClassInfo) (p : RegProgram) (facts : Facts) (a b : List Mods) → LeastMods h p facts a → LeastMods h p facts b → a ≡ b }
{}

/// Facts have one heap graph, a graph one list of alarms, and an edge one list of producers.
pub fn graphs_are_one()
    ensures graph { (h : List ClassInfo) (t : FactSets) (a b : List Edge) → IsGraph h t a → IsGraph h t b → a ≡ b }
    ensures alarms { (h : List ClassInfo) (p : RegProgram) (edges : List Edge) (a b : List Alarm) → AreAlarms h p edges a → AreAlarms h p edges b → a ≡ b }
    ensures producers { (h : List ClassInfo) (p : RegProgram) (t : FactSets) (e : Edge) (a b : List Producer) → AreProducers h p t e a
        → AreProducers h p t e b → a ≡ b }
{}
