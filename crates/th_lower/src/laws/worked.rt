//! The register forms of small programs, written by hand.
ghost use Rattle.std.specs.Prelude.{◌≡◌, [], map, true};
ghost use Rattle.th_base.specs.declared.lifecycle.Lifecycle.TheVariants.{Any, Chart};
ghost use Rattle.th_ir.specs.WorkedCharted.{charted_program};
ghost use Rattle.th_ir.specs.WorkedInitialising.{initialising_program};
ghost use Rattle.th_ir.specs.WorkedStoring.{storing_program};
ghost use Rattle.th_ir.specs.WorkedVector.{vector_program};
ghost use Rattle.th_syntax.specs.Program.{methods_of};
ghost use Rattle.th_syntax.specs.Worked.{storing_program as storing_files};
ghost use Rattle.th_syntax.specs.WorkedLeaks.{vector_program as vector_files, initialising_program as initialising_files};
ghost use Rattle.th_lower.specs.RegisterForm.{IsRegisterForm};
ghost use Rattle.th_lower.specs.Worked.{worked_input, is_settled, conflicts_of};
ghost use Rattle.th_lower.specs.WorkedTable.{every_program};
ghost use Rattle.th_lower.specs.WorkedTableForm.{every_form};

/// An Activity that stores itself, under each lifecycle; growing arrays that share one array while they
/// are empty; an initialiser that calls a method of a subclass; and every instruction.
pub fn forms_are_worked_out()
    ensures storing { IsRegisterForm (worked_input storing_files Any) storing_program }
    ensures charted { IsRegisterForm (worked_input storing_files Chart) charted_program }
    ensures vector { IsRegisterForm (worked_input vector_files Any) vector_program }
    ensures initialising { IsRegisterForm (worked_input initialising_files Any) initialising_program }
    ensures every { IsRegisterForm (worked_input every_program Any) every_form }
{}

/// The class files with every instruction are translated with the kinds that their methods have, and
/// these have no conflict.
pub fn kinds_are_settled()
    ensures settled { map is_settled (methods_of every_program) ≡ map (λ o. true) (methods_of every_program) }
    ensures conflicts { map conflicts_of (methods_of every_program) ≡ map (λ o. []) (methods_of every_program) }
{}
