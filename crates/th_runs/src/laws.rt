// What every run of the machine keeps, under both lifecycles.
ghost use Rattle.std.specs.List.{AllByRecursion};
ghost use Rattle.std.specs.Prelude.{◌≡◌, List, Some, [], false, length, true, ℕ};
ghost use Rattle.th_base.specs.declared.lifecycle.Lifecycle.{Lifecycle};
ghost use Rattle.th_runs.specs.Addresses.{HasObjects};
ghost use Rattle.th_runs.specs.Always.{IsAlways};
ghost use Rattle.th_runs.specs.Entered.{InterfacesRunNoInstance, IsEntered};
ghost use Rattle.th_runs.specs.FrameKinds.{IsOfKinds};
ghost use Rattle.th_runs.specs.Sound.{IsSound};
ghost use Rattle.th_runs.specs.Verified.{IsVerified};
ghost use Rattle.th_syntax.specs.KindTable.{HasKinds};
ghost use Rattle.th_syntax.specs.Kinds.{KindsAt, OfKinds};
ghost use Rattle.th_syntax.specs.Linking.{IsLinked};
ghost use Rattle.th_syntax.specs.Run.{Follows, IsReachable};
ghost use Rattle.th_syntax.specs.Step.{step};
ghost use Rattle.th_syntax.specs.declared.class_file.ClassFile.{ClassFile};
ghost use Rattle.th_syntax.specs.declared.class_file.Code.{Code};
ghost use Rattle.th_syntax.specs.declared.class_file.Member.{Member};
ghost use Rattle.th_syntax.specs.declared.kind.SlotKind.{SlotKind};
ghost use Rattle.th_syntax.specs.declared.machine.State.{State};

pub mod worked;

/// No step and no event follows an ended state; and the step or event that ends a run changes nothing else.
pub fn runs_end_once()
    ensures last { (lifecycle : Lifecycle) (files : List ClassFile) (s t : State) → Follows lifecycle files s t → s.ended ≡ false }
    ensures alone { (lifecycle : Lifecycle) (files : List ClassFile) (s t : State) → Follows lifecycle files s t → t.ended ≡ true
        → t ≡ record s { ended = true } }
{}

/// Where a reachable state of any program holds an address, an object stands there.
pub fn addresses_lead_to_objects()
    ensures { (lifecycle : Lifecycle) (files : List ClassFile) (s : State) → IsReachable lifecycle files s → HasObjects s }
{}

/// Among linked class files whose interfaces have no code but `<clinit>`, the class that declares the method
/// of a code frame isn't untouched.
pub fn running_classes_are_touched()
    ensures { (lifecycle : Lifecycle) (files : List ClassFile) (s : State) → IsLinked files → InterfacesRunNoInstance files
        → IsReachable lifecycle files s → AllByRecursion (IsEntered files s.marks) s.frames }
{
    th_syntax::laws::linking::what_is_named_stands();
}

/// In a run of a sound program every frame's locals and operand stack are of the kinds of the instruction at
/// which it stands, or of what its call leaves, and static fields and objects hold values of their kinds.
pub fn runs_keep_to_kinds()
    ensures { (lifecycle : Lifecycle) (files : List ClassFile) (s : State) → IsSound files → IsReachable lifecycle files s → IsOfKinds files s }
{
    th_syntax::laws::linking::what_is_named_stands();
}

/// A reachable state of a sound program with a frame, whose run hasn't ended, has a step.
pub fn running_states_have_a_step()
    ensures { (lifecycle : Lifecycle) (files : List ClassFile) (s : State) → IsSound files → IsReachable lifecycle files s
        → s.ended ≡ false → (s.frames ≡ [] → ⊥) → (w : State) × (step files s ≡ Some w) }
{
    th_syntax::laws::linking::what_is_named_stands();
}

/// Class files of the grammar that are linked and whose code has kinds are a sound program, and their
/// interfaces have no code but `<clinit>`.
pub fn verified_programs_are_sound()
    ensures sound { (files : List ClassFile) → IsVerified files → IsSound files }
    ensures interfaces { (files : List ClassFile) → IsVerified files → InterfacesRunNoInstance files }
{
    th_syntax::laws::linking::what_is_named_stands();
    th_syntax::laws::class_files::field_descriptors();
}

/// A table of kinds without conflict knows each local of the method, wherever it knows any.
pub fn tables_know_all_locals()
    ensures { (m : Member) (code : Code) (t : ℕ → KindsAt) (offset : ℕ) (locals stack : List SlotKind) → HasKinds m code t
        → t offset ≡ OfKinds locals stack → length locals ≡ code.max_locals }
{}

/// What each reachable state of a program keeps that was read, linked and has kinds.
pub fn verified_runs_keep()
    ensures { (lifecycle : Lifecycle) (files : List ClassFile) (s : State) → IsVerified files → IsReachable lifecycle files s → IsAlways files s }
{
    verified_programs_are_sound();
    addresses_lead_to_objects();
    running_classes_are_touched();
    runs_keep_to_kinds();
    th_syntax::laws::kept();
    th_syntax::laws::code_frames_stand();
    th_syntax::laws::objects_keep_their_types();
}

/// A reachable state of such a program with a frame, whose run hasn't ended, has a step.
pub fn verified_states_have_a_step()
    ensures { (lifecycle : Lifecycle) (files : List ClassFile) (s : State) → IsVerified files → IsReachable lifecycle files s
        → s.ended ≡ false → (s.frames ≡ [] → ⊥) → (w : State) × (step files s ≡ Some w) }
{
    verified_programs_are_sound();
    running_states_have_a_step();
}
