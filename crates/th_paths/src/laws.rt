// What readers expect of paths and their order, over all graphs.
ghost use Rattle.std.specs.Prelude.{◌≡◌, ◌⊎◌, ℕ, List, [], ◌∷◌};
ghost use Rattle.th_base.specs.declared.number.EdgeId.{EdgeId};
ghost use Rattle.th_base.specs.declared.number.FieldId.{FieldId};
ghost use Rattle.th_base.specs.declared.number.SiteId.{SiteId};
ghost use Rattle.th_ir.specs.declared.graph.Edge.{Edge};
ghost use Rattle.th_ir.specs.Graph.{LeadsTo};
ghost use Rattle.th_paths.specs.Paths.{IsPath, Avoids, IsBefore, IsLeastWay};
ghost use Rattle.th_paths.specs.Worked.{worked_field, worked_edges, one_edge, two_edges};

/// The order of paths is strict and total.
pub fn paths_are_ordered()
    ensures itself { (p : List EdgeId) → IsBefore p p → ⊥ }
    ensures passed { (p q r : List EdgeId) → IsBefore p q → IsBefore q r → IsBefore p r }
    ensures total { (p q : List EdgeId) → (p ≡ q) ⊎ (IsBefore p q ⊎ IsBefore q p) }
{}

/// There is one least path.
pub fn least_is_one()
    ensures { (edges : List Edge) (f : FieldId) (goal cut : List ℕ) (p q : List EdgeId) → IsLeastWay edges f goal cut p → IsLeastWay edges f goal cut q → p ≡ q }
{}

/// A static field leads to a site, as alarms have it, exactly where there is a path.
pub fn paths_lead()
    ensures path { (edges : List Edge) (f : FieldId) (x : SiteId) → LeadsTo edges f x → (path : List EdgeId) × IsPath edges f path x.0 }
    ensures leads { (edges : List Edge) (f : FieldId) (x : SiteId) (path : List EdgeId) → IsPath edges f path x.0 → LeadsTo edges f x }
{}

/// In a small graph one edge and two edges lead from a static field to a site, the first before the
/// second, a cut of the one leaves the other, and nothing leads to a site that another field holds.
pub fn small_graph_has_paths()
    ensures one { IsPath worked_edges worked_field one_edge 1 }
    ensures two { IsPath worked_edges worked_field two_edges 1 }
    ensures before { IsBefore one_edge two_edges }
    ensures along { IsBefore (record { 0 = 1 } ∷ record { 0 = 9 } ∷ []) (record { 0 = 2 } ∷ record { 0 = 0 } ∷ []) }
    ensures avoided { Avoids (0 ∷ []) two_edges }
    ensures met { Avoids (0 ∷ []) one_edge → ⊥ }
    ensures none { (path : List EdgeId) → IsPath worked_edges worked_field path 4 → ⊥ }
{}
