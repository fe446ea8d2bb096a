//! What the definitions say of small programs, computed. The programs stand in register form in
//! `specs/`, written by hand.
ghost use Rattle.std.specs.Prelude.{◌≡◌, ℕ, [], ◌∷◌};
ghost use Rattle.th_base.specs.declared.lifecycle.Lifecycle.TheVariants.{Any, Chart};
ghost use Rattle.th_ir.specs.Effects.{Change, Effect};
ghost use Rattle.th_ir.specs.FactSets.{sets_of};
ghost use Rattle.th_ir.specs.Flow.{IsLoopHead, IsMergePoint};
ghost use Rattle.th_ir.specs.Graph.{AreAlarms, AreProducers, IsGraph};
ghost use Rattle.th_ir.specs.Harness.{HasHarness};
ghost use Rattle.th_ir.specs.Machine.{RegState, RegValue, Address};
ghost use Rattle.th_ir.specs.Rules.{LeastFacts};
ghost use Rattle.th_ir.specs.Step.{RegReachable, RegStep};
ghost use Rattle.th_ir.specs.WellFormed.{IsWellFormed};
ghost use Rattle.th_ir.specs.WorkedCharted.{charted_program, charted_30, refused_3, IsAtStage};
ghost use Rattle.th_ir.specs.WorkedGraph.{static_edge, storing_edges, storing_alarms, vector_edges, vector_alarms, naming_producers};
ghost use Rattle.th_ir.specs.WorkedInitialising.{initialising_classes, initialising_program, initialising_facts, initialising_14, initialising_28, initialising_32};
ghost use Rattle.th_ir.specs.WorkedLooping.{looping_program};
ghost use Rattle.th_ir.specs.WorkedNaming.{naming_classes, naming_program, naming_facts, naming_0, naming_13};
ghost use Rattle.th_ir.specs.WorkedReceivers.{receivers_classes, receivers_program, receivers_facts, receivers_41, receivers_50, HoldsElements};
ghost use Rattle.th_ir.specs.WorkedStoring.{storing_classes, storing_program, storing_facts, storing_9, storing_17, of_a_bundle, picks};
ghost use Rattle.th_ir.specs.WorkedVector.{vector_classes, vector_program, vector_facts};

/// The Activity that stores itself has a harness under either lifecycle.
pub fn storing_is_harnessed()
    ensures any { HasHarness storing_classes Any storing_program }
    ensures chart { HasHarness storing_classes Chart charted_program }
{}

/// The small programs are well formed.
pub fn small_programs_are_formed()
    ensures storing { IsWellFormed storing_classes storing_program }
    ensures charted { IsWellFormed storing_classes charted_program }
    ensures vector { IsWellFormed vector_classes vector_program }
    ensures initialising { IsWellFormed initialising_classes initialising_program }
    ensures receivers { IsWellFormed receivers_classes receivers_program }
    ensures naming { IsWellFormed naming_classes naming_program }
{}

/// The least facts of the Activity that stores itself: its static field holds what is launched.
pub fn storing_has_least_facts()
    ensures { LeastFacts storing_classes storing_program storing_facts }
{}

/// The least facts of growing arrays: the array that all empty ones share holds what is launched.
pub fn vector_has_least_facts()
    ensures { LeastFacts vector_classes vector_program vector_facts }
{}

/// The least facts where an initialisation reaches the initialiser of a superclass alone.
pub fn superclass_initialiser_is_reached()
    ensures { LeastFacts initialising_classes initialising_program initialising_facts }
{}

/// The least facts of a call with two receivers, each of which gives another method: each method's
/// parameter has the receiver that gives it, and no other.
pub fn receivers_are_told_apart()
    ensures { LeastFacts receivers_classes receivers_program receivers_facts }
{}

/// The least facts of a static field with a String constant.
pub fn naming_has_least_facts()
    ensures { LeastFacts naming_classes naming_program naming_facts }
{}

/// A launch of the Activity that stores itself, and its creation: its static field then holds it.
pub fn storing_is_stored()
    ensures launched { RegReachable storing_classes storing_program storing_9 }
    ensures listed { storing_9.launched ≡ 0 ∷ [] }
    ensures reached { RegReachable storing_classes storing_program storing_17 }
    ensures held { storing_17.statics 0 ≡ Address 0 }
    ensures idle { storing_17.frames ≡ [] }
{}

/// Where only a Bundle's address is listed as launched, no object of the Activity's class is picked.
pub fn no_other_class_is_picked()
    ensures { (regs : ℕ → RegValue) (c : Change) → Effect storing_classes storing_program of_a_bundle regs picks c → ⊥ }
{}

/// Under the chart the Activity is created and then started, which leads it to stage 2.
pub fn chart_is_followed()
    ensures reached { RegReachable storing_classes charted_program charted_30 }
    ensures stage { IsAtStage charted_30 0 2 }
    ensures idle { charted_30.frames ≡ [] }
{}

/// Under the chart no start follows a launch: the method of the harness stops at its test of the stage.
pub fn chart_refuses_a_start()
    ensures reached { RegReachable storing_classes charted_program refused_3 }
    ensures stopped { (u : RegState) → RegStep storing_classes charted_program refused_3 u → ⊥ }
{}

/// An initialisation enters the initialiser of a superclass, comes back to itself and passes; the
/// initialiser's new object is then in the static field, and isn't launched.
pub fn initialiser_is_entered()
    ensures entered { RegReachable initialising_classes initialising_program initialising_14 }
    ensures passed { RegReachable initialising_classes initialising_program initialising_28 }
    ensures held { initialising_28.statics 0 ≡ Address 1 }
    ensures reached { RegReachable initialising_classes initialising_program initialising_32 }
    ensures launched { initialising_32.launched ≡ 0 ∷ [] }
    ensures idle { initialising_32.frames ≡ [] }
{}

/// An object of a subclass is stored into the second element of an array and read from it; a call on
/// it enters the subclass's method, whose result the static field then holds.
pub fn element_is_called()
    ensures stored { RegReachable receivers_classes receivers_program receivers_41 }
    ensures elements { HoldsElements receivers_41 1 (Address 2 ∷ Address 3 ∷ []) }
    ensures reached { RegReachable receivers_classes receivers_program receivers_50 }
    ensures held { receivers_50.statics 0 ≡ Address 3 }
    ensures idle { receivers_50.frames ≡ [] }
{}

/// A static field holds its String constant from the start.
pub fn constant_is_held()
    ensures first { naming_0.statics 0 ≡ Address 0 }
    ensures reached { RegReachable naming_classes naming_program naming_13 }
    ensures launched { naming_13.launched ≡ 1 ∷ [] }
{}

/// The heap graphs of two programs: edges of static fields, then of fields, then of elements, each by
/// their numbers.
pub fn edges_are_in_order()
    ensures storing { IsGraph storing_classes (sets_of storing_facts) storing_edges }
    ensures vector { IsGraph vector_classes (sets_of vector_facts) vector_edges }
{}

/// The Activity that stores itself has one alarm, on its own class, and none on the classes above.
pub fn alarm_is_on_the_class_itself()
    ensures { AreAlarms storing_classes storing_program storing_edges storing_alarms }
{}

/// A static field of the program of growing arrays leads to the launched Activity through an element, and
/// another through a field and an element. There is no third alarm.
pub fn alarms_stand_on_paths()
    ensures { AreAlarms vector_classes vector_program vector_edges vector_alarms }
{}

/// The constant of a static field is the first producer of its edge, before the store of the same String.
pub fn constant_is_the_first_producer()
    ensures { AreProducers naming_classes naming_program (sets_of naming_facts) (static_edge 0 0) naming_producers }
{}

/// A node to which Copies lead is a loop head where a path leads back to it, and not where only branches
/// meet; no other node is one.
pub fn loop_heads_lie_on_loops()
    ensures head { IsLoopHead looping_program 1 }
    ensures meeting { IsMergePoint looping_program 7 }
    ensures no_way_back { IsLoopHead looping_program 7 → ⊥ }
    ensures no_copy { IsLoopHead looping_program 2 → ⊥ }
{}
