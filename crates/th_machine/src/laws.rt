// Laws of steps, events and scripts.
ghost use Rattle.std.specs.Prelude.{◌≡◌, ℕ, List, Option, Result, Some, [], false};
ghost use Rattle.th_base.specs.declared.lifecycle.Lifecycle.{Lifecycle};
ghost use Rattle.th_syntax.specs.declared.class_file.ClassFile.{ClassFile};
ghost use Rattle.th_syntax.specs.declared.event.Event.{Event};
ghost use Rattle.th_syntax.specs.declared.machine.State.{State};
ghost use Rattle.th_syntax.specs.Run.{IsReachable};
ghost use Rattle.th_syntax.specs.Step.{step};
ghost use Rattle.th_runs.specs.Verified.{IsVerified};
ghost use Rattle.th_machine.specs.declared.outcome.Outcome.{Outcome};
ghost use Rattle.th_machine.specs.declared.report.Report.{Report};
ghost use Rattle.th_machine.specs.declared.report.ScriptFault.{ScriptFault};
ghost use Rattle.th_machine.specs.Running.{Answers, Standing};
ghost use Rattle.th_machine.specs.Script.{RunsScript};
ghost use Rattle.th_machine.specs.Stepping.{stepped};

/// In a verified program the step that the machine takes by the table is that of the definitions.
pub fn steps_are_found()
    ensures { (lifecycle : Lifecycle) (files : List ClassFile) (s : State) → IsVerified files → IsReachable lifecycle files s
        → s.ended ≡ false → (s.frames ≡ [] → ⊥) → step files s ≡ Some (stepped files s) }
{
    th_acts::laws::operands_are_found();
    th_runs::laws::verified_programs_are_sound();
    th_runs::laws::verified_runs_keep();
    th_runs::laws::verified_states_have_a_step();
}

/// An event with so much fuel leads to one machine, leaves one amount of fuel, and has one outcome.
pub fn one_answer()
    ensures { (m t u : Standing) (e : Event) (fuel left rest : ℕ) (o p : Option Outcome) → Answers m e fuel t left o
        → Answers m e fuel u rest p → (t ≡ u) × (left ≡ rest) × (o ≡ p) }
{}

/// One thing comes of a script in a program, with so much fuel.
pub fn one_script_run()
    ensures { (files : List ClassFile) (lifecycle : Lifecycle) (fuel : ℕ) (events : List Event) (a b : Result (List Report) ScriptFault)
        → RunsScript files lifecycle fuel events a → RunsScript files lifecycle fuel events b → a ≡ b }
{}
