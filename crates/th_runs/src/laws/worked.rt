// Small states, programs and slots, and what the definitions say of them.
ghost use Rattle.std.specs.List.{AllByRecursion};
ghost use Rattle.std.specs.Prelude.{◌≡◌, ◌↔◌, ◌∷◌, List, None, Option, Some, [], codes, map, negsuc, pos, true, ℕ};
ghost use Rattle.th_base.specs.declared.lifecycle.Lifecycle.TheVariants.{Any};
ghost use Rattle.th_base.specs.declared.number.ClassId.{ClassId};
ghost use Rattle.th_base.specs.declared.number.MethodId.{MethodId};
ghost use Rattle.th_base.specs.declared.operation.ArithOp.TheVariants.{Shl};
ghost use Rattle.th_base.specs.declared.built_in.TheConstants.{CONSTRUCTOR};
ghost use Rattle.th_runs.specs.Addresses.{HasObjects};
ghost use Rattle.th_runs.specs.Entered.{InterfacesRunNoInstance, IsEntered};
ghost use Rattle.th_runs.specs.Fitting.{AreOfKinds, IsOfKind, IsOfType, IsShaped};
ghost use Rattle.th_runs.specs.FrameKinds.{AreFramesOfKinds, IsAtKinds, IsCallingKinds};
ghost use Rattle.th_runs.specs.Sound.{IsClosed};
ghost use Rattle.th_runs.specs.Verified.{IsVerified};
ghost use Rattle.th_runs.specs.Worked.{array_with, dangling_states, field_of, kinds_of_each, leading_state, one_field, other_slots, running_interface, slots_of_each};
ghost use Rattle.th_runs.specs.WorkedRows.{acts_on, all_stuck, call_on, moves_on_short, nested, nested_store, plain_interface, special_call, writing_program, written_last};
ghost use Rattle.th_runs.specs.WorkedWays.{constants_unset, constructed, constructing_program, interface_call, interface_calls, missed_loads, missed_stores, moves_in_forms, static_without_code};
ghost use Rattle.th_syntax.specs.Effects.{Calls, Ends, GoesOn, SetsObject};
ghost use Rattle.th_syntax.specs.Initial.{constant_value, initial};
ghost use Rattle.th_syntax.specs.Machine.{class_id, method_id};
ghost use Rattle.th_syntax.specs.Program.{is_launchable};
ghost use Rattle.th_syntax.specs.WorkedEffects.{at, gives, i, l, ref};
ghost use Rattle.th_syntax.specs.WorkedFiles.{activity_value};
ghost use Rattle.th_syntax.specs.WorkedRuns.{LeadsTo, at_rest, bundle_program, constant_program, launch};
ghost use Rattle.th_syntax.specs.declared.class_file.ClassFile.{ClassFile};
ghost use Rattle.th_syntax.specs.declared.class_file.Constant.TheVariants as constant;
ghost use Rattle.th_syntax.specs.declared.event.Event.TheVariants.{Handler};
ghost use Rattle.th_syntax.specs.declared.instr.Instr.TheVariants.{GetField, Goto, Int, InvokeVirtual, LArith, Long, Nop, Return, Stack};
ghost use Rattle.th_syntax.specs.declared.kind.SlotKind.TheVariants as kind;
ghost use Rattle.th_syntax.specs.declared.kind.SlotKind.{SlotKind};
ghost use Rattle.th_syntax.specs.declared.machine.Frame.TheVariants.{Code as CodeFrame, Init as InitFrame, Launch as LaunchFrame};
ghost use Rattle.th_syntax.specs.declared.machine.Frame.{Frame};
ghost use Rattle.th_syntax.specs.declared.machine.InitStage.{InitStage};
ghost use Rattle.th_syntax.specs.declared.machine.LaunchStage.{LaunchStage};
ghost use Rattle.th_syntax.specs.declared.machine.Mark.TheVariants.{Done, InProgress, Untouched};
ghost use Rattle.th_syntax.specs.declared.machine.Object.TheVariants.{Instance};
ghost use Rattle.th_syntax.specs.declared.machine.Slot.TheVariants.{Holds, SecondHalf};
ghost use Rattle.th_syntax.specs.declared.machine.Slot.{Slot};
ghost use Rattle.th_syntax.specs.declared.machine.State.{State};
ghost use Rattle.th_syntax.specs.declared.machine.Value.TheVariants.{Address, Int as IntValue, Long as LongValue, Null as NullValue};

/// A call by `invokespecial` takes a constructor that it names itself, and a method that it names in a class
/// above which the current one doesn't stand; it ends the run where what it takes has no code, and on an array.
pub fn special_calls_are_told_apart()
    ensures constructor { special_call 23 (codes "Upper") CONSTRUCTOR.now ≡ Calls 17 (Holds (Address 0) ∷ []) [] }
    ensures no_superclass { special_call 18 (codes "Middle") (codes "m") ≡ Calls 21 (Holds (Address 0) ∷ Holds NullValue ∷ []) [] }
    ensures without_code { special_call 18 (codes "Upper") (codes "onStart") ≡ Ends }
    ensures object { call_on 1 ≡ Calls 0 (Holds (Address 1) ∷ []) [] }
    ensures array { call_on 2 ≡ Ends }
{}

/// A copy of slots that aren't there is no step.
pub fn moves_need_their_slots()
    ensures { moves_on_short ≡ all_stuck }
{}

/// A number of an instruction or a constant is wrapped into 32 or 64 bits, and a long is shifted by six bits
/// of the distance.
pub fn numbers_are_kept_in_range()
    ensures int { acts_on [] (Int (pos 2147483648)) ≡ GoesOn [] (Holds (IntValue (negsuc 2147483647)) ∷ []) }
    ensures long { acts_on [] (Long (pos 9223372036854775808)) ≡ GoesOn [] (SecondHalf ∷ Holds (LongValue (negsuc 9223372036854775807)) ∷ []) }
    ensures int_constant { constant_value [] (constant.Int (pos 2147483648)) ≡ IntValue (negsuc 2147483647) }
    ensures long_constant { constant_value [] (constant.Long (pos 9223372036854775808)) ≡ LongValue (negsuc 9223372036854775807) }
    ensures shift { acts_on (i 33 ∷ l 3) (LArith Shl) ≡ GoesOn [] (l 25769803776) }
{}

/// An interface has no objects, also where it isn't marked as abstract; and into an array of arrays of ints
/// goes an array of ints, and none of longs.
pub fn types_decide()
    ensures interface { plain_interface ≡ Ends }
    ensures ints { nested_store 1 ≡ SetsObject 0 (nested (Address 1)) [] }
    ensures longs { nested_store 2 ≡ Ends }
{}

/// The initialiser of a class runs after that of its superclass.
pub fn superclass_is_initialised_first()
    ensures { LeadsTo Any writing_program (launch 12 ∷ []) written_last }
{}

/// The moves of groups of slots, where these are of two values or of a long, above and below.
pub fn moves_keep_groups_whole()
    ensures { map (λ one. acts_on one.0 (Stack one.1)) moves_in_forms ≡ map (λ one. gives one.2) moves_in_forms }
{}

/// A load or a store of an element ends the run on null, on an object that is no array, on an array of other
/// elements, behind the last element, and before the first.
pub fn missing_elements_end()
    ensures loads { map (λ one. acts_on one.0 one.1) missed_loads ≡ map (λ one. Ends) missed_loads }
    ensures stores { map (λ one. acts_on one.0 one.1) missed_stores ≡ map (λ one. Ends) missed_stores }
{}

/// An object is to be of a subclass of the class that declares the field or the method, also where a subclass of
/// this is named. A call of a static method without code ends the run.
pub fn declaring_classes_count()
    ensures field { acts_on (at 0 ∷ i 8 ∷ []) (GetField (ref (codes "B") (codes "x") (codes "I"))) ≡ gives (i 5 ∷ i 8 ∷ []) }
    ensures method { acts_on (at 0 ∷ []) (InvokeVirtual (ref (codes "B") (codes "p") (codes "()V"))) ≡ Calls 19 (at 0 ∷ []) [] }
    ensures without_code { static_without_code ≡ Ends }
{}

/// A call by an interface takes the first method from the receiver's class upwards that is neither private nor
/// static, whichever interface it names. It ends the run where there is none or this one is abstract, where the
/// class isn't below the interface that declares the method, on an array, and on null.
pub fn interfaces_are_called()
    ensures { map (λ one. interface_call one.0 one.1) interface_calls ≡ map (λ one. one.2) interface_calls }
{}

/// A handler without parameters makes no Bundle, also where an event says a fresh one.
pub fn bundles_are_made_for_two_handlers()
    ensures { LeadsTo Any bundle_program (launch 11 ∷ Handler 1 1 true ∷ []) (at_rest (Instance (class_id 11) [] ∷ []) (NullValue ∷ []) (Done ∷ []) 0) }
{}

/// A launch calls the constructor.
pub fn constructors_are_called()
    ensures { LeadsTo Any constructing_program (launch 11 ∷ []) constructed }
{}

/// In the beginning no static field has its constant.
pub fn runs_begin_without_constants()
    ensures { initial constant_program ≡ constants_unset }
{}

/// All addresses of a state lead to its one object; and one that is past it, in a local, on a stack, in a
/// launch, a static field, a field, an element or a launched object, doesn't.
pub fn addresses_are_looked_at()
    ensures leading { HasObjects leading_state }
    ensures dangling { AllByRecursion (λ (s : State). HasObjects s → ⊥) dangling_states }
{}

/// `java/lang/Object`'s constructor runs where its class is in progress or done, and not where it is untouched.
pub fn entered_classes_are_looked_at()
    ensures untouched { (locals stack : List Slot) → IsEntered [] (Untouched ∷ []) (CodeFrame (method_id 0) 0 locals stack) → ⊥ }
    ensures in_progress { (locals stack : List Slot) → IsEntered [] (InProgress ∷ []) (CodeFrame (method_id 0) 0 locals stack) }
    ensures done { (locals stack : List Slot) → IsEntered [] (Done ∷ []) (CodeFrame (method_id 0) 0 locals stack) }
    ensures interface { InterfacesRunNoInstance running_interface → ⊥ }
{}

/// Slots of each kind, and slots of others; and lists of slots that are too short or too long.
pub fn slots_are_told_apart()
    ensures each { AreOfKinds kinds_of_each slots_of_each }
    ensures others { AllByRecursion (λ (one : SlotKind × Slot). IsOfKind one.0 one.1 → ⊥) other_slots }
    ensures stack_too_deep { AreOfKinds [] (Holds NullValue ∷ []) → ⊥ }
    ensures stack_too_low { AreOfKinds (kind.Unusable ∷ []) [] → ⊥ }
    ensures wrong_behind { AreOfKinds (kind.Ref ∷ kind.Int ∷ []) (Holds NullValue ∷ Holds NullValue ∷ []) → ⊥ }
{}

/// Values of types, and the shapes of objects.
pub fn values_are_told_apart()
    ensures int { IsOfType (codes "Z") (IntValue (pos 1)) }
    ensures long { IsOfType (codes "J") (LongValue (pos 1)) }
    ensures null { IsOfType (codes "Ljava/lang/Object;") NullValue }
    ensures address { IsOfType (codes "[I") (Address 0) }
    ensures int_as_long { IsOfType (codes "J") (IntValue (pos 1)) → ⊥ }
    ensures null_as_int { IsOfType (codes "I") NullValue → ⊥ }
    ensures int_as_reference { IsOfType (codes "[I") (IntValue (pos 1)) → ⊥ }
    ensures object { IsShaped one_field (field_of (IntValue (pos 5))) }
    ensures other_value { IsShaped one_field (field_of NullValue) → ⊥ }
    ensures other_fields { IsShaped [] (field_of (IntValue (pos 5))) → ⊥ }
    ensures array { IsShaped [] (array_with (IntValue (pos 5))) }
    ensures other_element { IsShaped [] (array_with NullValue) → ⊥ }
{}

/// A frame at the top, or under an initialisation or a launch, stands at its instruction; one directly under
/// a code frame waits for it; and a launch is of a launchable class.
pub fn frames_are_looked_at()
    ensures none { (files : List ClassFile) (over : Option ℕ) → AreFramesOfKinds files over [] }
    ensures top { (files : List ClassFile) (m : MethodId) (offset : ℕ) (locals stack : List Slot) (below : List Frame)
        → AreFramesOfKinds files None (CodeFrame m offset locals stack ∷ below) ↔ (IsAtKinds files m.0 offset locals stack × AreFramesOfKinds files (Some m.0) below) }
    ensures waiting { (files : List ClassFile) (called : ℕ) (m : MethodId) (offset : ℕ) (locals stack : List Slot) (below : List Frame)
        → AreFramesOfKinds files (Some called) (CodeFrame m offset locals stack ∷ below) ↔ (IsCallingKinds files called m.0 offset locals stack × AreFramesOfKinds files (Some m.0) below) }
    ensures under_initialisation { (files : List ClassFile) (over : Option ℕ) (c : ClassId) (stage : InitStage) (below : List Frame)
        → AreFramesOfKinds files over (InitFrame c stage ∷ below) ↔ AreFramesOfKinds files None below }
    ensures under_launch { (files : List ClassFile) (over : Option ℕ) (c : ClassId) (stage : LaunchStage) (below : List Frame)
        → AreFramesOfKinds files over (LaunchFrame c stage ∷ below) ↔ ((is_launchable files c.0 ≡ true) × AreFramesOfKinds files None below) }
{}

/// One `return` is closed code; no instruction, a jump past the code and one without another behind it aren't.
pub fn closed_code_is_told_apart()
    ensures closed { IsClosed ((0, Return) ∷ []) }
    ensures nothing { IsClosed [] → ⊥ }
    ensures jumps_away { IsClosed ((0, Goto 5) ∷ []) → ⊥ }
    ensures falls_off { IsClosed ((0, Nop) ∷ []) → ⊥ }
{}

/// The class file of an Activity with a constructor, by itself, is a program that was read, linked and has kinds.
pub fn activity_is_verified()
    ensures { IsVerified (activity_value ∷ []) }
{
    th_syntax::laws::worked_files::activity_is_read();
}
