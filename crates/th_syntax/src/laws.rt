// What every run of the machine keeps, over all programs and both lifecycles; and runs of small
// programs, which show what the definitions say of them.
ghost use Rattle.std.specs.Prelude.{◌≡◌, ◌⊎◌, ℕ, false, true, List, [], ◌∷◌, Some, None, slice_get, take, length, codes};
ghost use Rattle.std.specs.List.{AllByRecursion};
ghost use Rattle.th_base.specs.declared.lifecycle.Lifecycle.{Lifecycle};
ghost use Rattle.th_base.specs.declared.lifecycle.Lifecycle.TheVariants.{Any, Chart};
ghost use Rattle.th_base.specs.declared.number.ClassId.{ClassId};
ghost use Rattle.th_base.specs.declared.number.FieldId.{FieldId};
ghost use Rattle.th_syntax.specs.declared.class_file.ClassFile.{ClassFile};
ghost use Rattle.th_syntax.specs.Machine.{Value, NullValue, Address, Object, Instance, Untouched, Done, State, class_id};
ghost use Rattle.th_syntax.specs.declared.instr.Instr.{Instr};
ghost use Rattle.th_syntax.specs.Initial.{initial};
ghost use Rattle.th_syntax.specs.Effects.{Top};
ghost use Rattle.th_syntax.specs.Step.{effect};
ghost use Rattle.th_syntax.specs.Changes.{IsAllowed, IsChange};
ghost use Rattle.th_syntax.specs.Harness.{event};
ghost use Rattle.th_syntax.specs.declared.event.Event.TheVariants.{Launch, Handler};
ghost use Rattle.th_base.specs.BuiltIn.{built_in_classes as built_in_infos};
ghost use Rattle.th_syntax.specs.Program.{hierarchy_of, is_activity};
ghost use Rattle.th_syntax.specs.Strings.{string_constants};
ghost use Rattle.th_syntax.specs.WorkedEffects.{acting_program, acted, effects_of, moving, computing, branching, accessing, making, indexing, calling, with_abstract, holding_state};
ghost use Rattle.th_syntax.specs.Held.{values_held, is_past_limit};
ghost use Rattle.th_syntax.specs.Run.{Follows, IsReachable};
ghost use Rattle.th_syntax.specs.Joined.{IsJoined};
ghost use Rattle.th_syntax.specs.Facts.{IsOriginal, IsStoredInto, IsMade, IsOnPath, EveryPathStands, IsAtInstruction, KeepsType, IsString};
ghost use Rattle.th_syntax.specs.Kept.{IsKept};
ghost use Rattle.th_syntax.specs.Worked.{plain_program, storing_program, clearing_program, one_launched};

pub mod class_files;
pub mod flow;
pub mod kinds;
pub mod linking;
pub mod worked_files;
pub mod worked_runs;

/// A field of the program holds 0, null or its ConstantValue, unless a `putstatic` of the program
/// that a path reaches resolves to it.
pub fn statics_have_origins()
    ensures { (lifecycle : Lifecycle) (files : List ClassFile) (s : State) (field : ℕ) (v : Value) → IsReachable lifecycle files s
        → slice_get s.statics field ≡ Some v → IsOriginal files field v ⊎ IsStoredInto files field }
{}

/// An object of an Activity class is of a class that the harness launches or that a `new` of the
/// program names that a path reaches.
pub fn activities_are_made()
    ensures { (lifecycle : Lifecycle) (files : List ClassFile) (s : State) (address : ℕ) (class : ClassId) (fields : List (FieldId × Value)) → IsReachable lifecycle files s
        → slice_get s.heap address ≡ Some (Instance class fields) → is_activity files class.0 ≡ true → IsMade files class.0 }
{}

/// Each code frame stands at an offset to which a path of its method leads.
pub fn code_frames_are_on_paths()
    ensures { (lifecycle : Lifecycle) (files : List ClassFile) (s : State) → IsReachable lifecycle files s → AllByRecursion (IsOnPath files) s.frames }
{}

/// Where an instruction stands wherever a path leads, each code frame stands at an instruction of its
/// method.
pub fn code_frames_stand()
    ensures { (lifecycle : Lifecycle) (files : List ClassFile) (s : State) → EveryPathStands files → IsReachable lifecycle files s
        → AllByRecursion (IsAtInstruction files) s.frames }
{}

/// What each reachable state keeps.
pub fn kept()
    ensures { (lifecycle : Lifecycle) (files : List ClassFile) (s : State) → IsReachable lifecycle files s → IsKept files s }
{}

/// An object keeps its class, and an array its type, in each step and each event.
pub fn objects_keep_their_types()
    ensures { (lifecycle : Lifecycle) (files : List ClassFile) (s t : State) (address : ℕ) (o : Object) → Follows lifecycle files s t
        → slice_get s.heap address ≡ Some o → KeepsType o t.heap address }
{}

/// The object of each String constant stands at the constant's number, and stays a String.
pub fn strings_stay()
    ensures { (lifecycle : Lifecycle) (files : List ClassFile) (s : State) (address : ℕ) (text : List ℕ) → IsReachable lifecycle files s
        → slice_get (string_constants files) address ≡ Some text → IsString s.heap address }
{}

/// Each instruction does only what the kind of its effect allows.
pub fn instructions_are_allowed()
    ensures { (files : List ClassFile) (t : Top) (i : Instr) → IsAllowed files t i (effect files t i) }
{}

/// Each step and each event is a change of one of the kinds.
pub fn steps_change()
    ensures { (lifecycle : Lifecycle) (files : List ClassFile) (s t : State) → Follows lifecycle files s t → IsChange lifecycle files s t }
{}

/// The hierarchy of every program begins with the built-in classes as the hierarchy knows them.
pub fn built_in_classes_come_first()
    ensures { (files : List ClassFile) → take (length built_in_infos) (hierarchy_of files) ≡ built_in_infos }
{}

/// What each instruction does in a small state, row by row.
pub fn instructions_act()
    ensures moving { acted Untouched moving ≡ effects_of moving }
    ensures computing { acted Untouched computing ≡ effects_of computing }
    ensures branching { acted Untouched branching ≡ effects_of branching }
    ensures accessing { acted Untouched accessing ≡ effects_of accessing }
    ensures making { acted Untouched making ≡ effects_of making }
    ensures indexing { acted Untouched indexing ≡ effects_of indexing }
    ensures calling { acted Untouched calling ≡ effects_of calling }
    ensures with_abstract { acted Done with_abstract ≡ effects_of with_abstract }
    ensures strings { string_constants acting_program ≡ codes "a" ∷ codes "b" ∷ [] }
{}

/// Ten objects and two code frames hold 34 values; and when so many are too many.
pub fn values_are_counted()
    ensures held { values_held acting_program holding_state ≡ 34 }
    ensures at_limit { is_past_limit 5 16777216 ≡ false }
    ensures past { is_past_limit 16777216 16777217 ≡ true }
    ensures as_before { is_past_limit 16777217 16777217 ≡ false }
    ensures fewer { is_past_limit 16777218 16777217 ≡ false }
{}

/// A launch of the Activity without fields ends with one launched object.
pub fn plain_is_launched()
    ensures { IsReachable Any plain_program (one_launched [] 0) }
{}

/// The Activity that stores itself when it is created is then joined with its field.
pub fn storing_is_joined()
    ensures reached { IsReachable Any storing_program (one_launched (Address 0 ∷ []) 0) }
    ensures joined { IsJoined storing_program (one_launched (Address 0 ∷ []) 0) 0 11 }
{}

/// Under the chart creation leads from stage 0 to stage 1, and nothing is resumed at stage 0.
pub fn chart_is_followed()
    ensures created { IsReachable Chart storing_program (one_launched (Address 0 ∷ []) 1) }
    ensures not_resumed { event Chart storing_program (one_launched (NullValue ∷ []) 0) (Handler 1 3 false) ≡ None }
{}

/// A built-in class is not launched.
pub fn built_in_is_not_launched()
    ensures { event Any storing_program (initial storing_program) (Launch (class_id 10)) ≡ None }
{}

/// The Activity that clears its field when it is destroyed is joined with it before, and not after.
pub fn clearing_is_cleared()
    ensures kept { IsReachable Any clearing_program (one_launched (Address 0 ∷ []) 0) }
    ensures joined { IsJoined clearing_program (one_launched (Address 0 ∷ []) 0) 0 11 }
    ensures cleared { IsReachable Any clearing_program (one_launched (NullValue ∷ []) 0) }
    ensures apart { (class : ℕ) → IsJoined clearing_program (one_launched (NullValue ∷ []) 0) 0 class → ⊥ }
{}
