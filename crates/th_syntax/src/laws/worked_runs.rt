// Whole runs of small programs, computed: what the machine's definitions say of them.
ghost use Rattle.std.specs.Prelude.{◌≡◌, ℕ, true, List, [], ◌∷◌, map, codes, Some};
ghost use Rattle.th_base.specs.declared.lifecycle.Lifecycle.{Lifecycle};
ghost use Rattle.th_base.specs.declared.lifecycle.Lifecycle.TheVariants.{Any};
ghost use Rattle.th_syntax.specs.declared.class_file.ClassFile.{ClassFile};
ghost use Rattle.th_syntax.specs.declared.event.Event.{Event};
ghost use Rattle.th_syntax.specs.declared.event.Event.TheVariants.{Handler};
ghost use Rattle.th_syntax.specs.Machine.{NullValue, Address, Done, State};
ghost use Rattle.th_syntax.specs.Strings.{ascending_texts};
ghost use Rattle.th_syntax.specs.Initial.{initial};
ghost use Rattle.th_syntax.specs.Run.{IsReachable};
ghost use Rattle.th_syntax.specs.Joined.{IsJoined};
ghost use Rattle.th_syntax.specs.WorkedRuns.{LeadsTo, IsEndedBy, events_from, launch, called, at_rest, constant_program, constants_launched, constants_started, constants_created, bundle_program, bundle_heap, skipping_program, skipping_state, holding_program, held_in_box, stages_from, chart_rows};
ghost use Rattle.th_syntax.specs.WorkedLeaks.{vector_program, vector_created, overflowing_program, overflowing_created, initialising_program, initialising_created, resuming_program, resuming_resumed, halving_program, halving_created, testing_program, untesting_program, array_launched};

/// A state to which events lead, each followed until nothing runs, is reachable.
pub fn worked_states_are_reachable()
    ensures { (lifecycle : Lifecycle) (files : List ClassFile) (n : ℕ) (events : List Event) (s : State)
        → events_from lifecycle files n events (initial files) ≡ Some s → IsReachable lifecycle files s }
{}

/// Opening a class gives its static fields their constants; then its superclass is initialised, and
/// then its own initialiser runs. A store that opens a class is made again when this is initialised.
/// Where a subclass names a member, the class that declares it is opened, and not the subclass.
pub fn classes_are_initialised()
    ensures launched { LeadsTo Any constant_program (launch 12 ∷ []) constants_launched }
    ensures started { LeadsTo Any constant_program (launch 12 ∷ called 1 ∷ []) constants_started }
    ensures created { LeadsTo Any constant_program (launch 12 ∷ called 0 ∷ []) constants_created }
{}

/// String constants ascend by their bytes, each once.
pub fn texts_ascend()
    ensures { ascending_texts (codes "b" ∷ codes "a" ∷ codes "b" ∷ codes "ab" ∷ []) ≡ codes "a" ∷ codes "ab" ∷ codes "b" ∷ [] }
{}

/// A handler that takes a Bundle gets a fresh one, or null.
pub fn bundles_are_passed()
    ensures fresh { LeadsTo Any bundle_program (launch 11 ∷ Handler 1 0 true ∷ []) (at_rest bundle_heap (Address 1 ∷ []) (Done ∷ []) 0) }
    ensures null { LeadsTo Any bundle_program (launch 11 ∷ Handler 1 0 true ∷ called 0 ∷ []) (at_rest bundle_heap (NullValue ∷ []) (Done ∷ []) 0) }
{}

/// A call of a method of a higher superclass takes the one that the direct superclass selects. A
/// handler, a call and such a call end the run where they select an abstract method.
pub fn superclass_selects()
    ensures skips { LeadsTo Any skipping_program (launch 13 ∷ called 3 ∷ []) (skipping_state (Address 0)) }
    ensures handler_ends { IsEndedBy Any skipping_program (launch 13 ∷ called 1 ∷ []) }
    ensures call_ends { IsEndedBy Any skipping_program (launch 13 ∷ called 4 ∷ []) }
    ensures superclass_call_ends { IsEndedBy Any skipping_program (launch 13 ∷ called 5 ∷ []) }
{}

/// An Activity in an array in a field of an object is joined with the static field that holds the object.
pub fn parts_are_joined()
    ensures created { LeadsTo Any holding_program (launch 12 ∷ called 0 ∷ []) held_in_box }
    ensures joined { IsJoined holding_program held_in_box 1 12 }
{}

/// Under the chart, at each stage: which handlers are called, and the stage after each.
pub fn chart_is_followed_at_each_stage()
    ensures { map stages_from (0 ∷ 1 ∷ 2 ∷ 3 ∷ 4 ∷ 5 ∷ 6 ∷ 7 ∷ []) ≡ chart_rows }
{}

/// Pushing into an empty vector stores nothing into the array that all empty ones share.
pub fn shared_array_stays_empty()
    ensures { LeadsTo Any vector_program (launch 12 ∷ called 0 ∷ []) vector_created }
{}

/// A sum past the greatest int is less than its operand.
pub fn sums_wrap()
    ensures { LeadsTo Any overflowing_program (launch 11 ∷ called 1 ∷ called 0 ∷ []) overflowing_created }
{}

/// An initialiser runs where a static method of a subclass is called, and may call this method itself.
pub fn initialiser_makes_an_activity()
    ensures created { LeadsTo Any initialising_program (launch 13 ∷ called 0 ∷ []) initialising_created }
    ensures joined { IsJoined initialising_program initialising_created 0 13 }
{}

/// What one handler stores into the object another handler finds there.
pub fn handlers_share_fields()
    ensures { LeadsTo Any resuming_program (launch 11 ∷ called 4 ∷ called 3 ∷ []) resuming_resumed }
{}

/// The low half of 2^32, as a long, is 0.
pub fn long_is_halved()
    ensures { LeadsTo Any halving_program (launch 11 ∷ called 0 ∷ []) halving_created }
{}

/// A store into an array without elements ends the run; a test of the length keeps from it.
pub fn bad_store_ends()
    ensures tested { LeadsTo Any testing_program (launch 11 ∷ called 0 ∷ []) array_launched }
    ensures untested { IsEndedBy Any untesting_program (launch 11 ∷ called 0 ∷ []) }
{}
