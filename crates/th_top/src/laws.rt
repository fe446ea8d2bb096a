// What holds of outcomes, and what a report says of runs.
ghost use Rattle.std.specs.Prelude.{◌≡◌, List, [], ◌∷◌, ◌++◌, ℕ, Option, Some, codes, map};
ghost use Rattle.std.specs.Fmt.{decimal};
ghost use Rattle.th_base.specs.declared.lifecycle.Lifecycle.{Lifecycle};
ghost use Rattle.th_outside.specs.Store.{NamedFile};
ghost use Rattle.th_syntax.specs.declared.class_file.ClassFile.{ClassFile};
ghost use Rattle.th_coarse.specs.Report.{survivors};
ghost use Rattle.th_coarse.specs.Safety.{AreAllJoined};
ghost use Rattle.th_coarse.specs.declared.judged.Judged.{Judged};
ghost use Rattle.th_coarse.specs.Worked.{small_files};
ghost use Rattle.th_machine.specs.declared.outcome.Outcome.TheVariants.{Idle, Ended, Fuel, Full};
ghost use Rattle.th_syntax.specs.Initial.{initial};
ghost use Rattle.th_syntax.specs.Joined.{IsJoined};
ghost use Rattle.th_words.specs.declared.command.Command.{Command};
ghost use Rattle.th_top.specs.Outcome.{Outcome, reports, runs, Comes, IsFault, output_of, status_of};
ghost use Rattle.th_top.specs.RunText.{event_line, event_lines, rest_word, run_text};
ghost use Rattle.th_top.specs.Worked.{empty_report, joined_report, kept_reports, let_go_reports};
ghost use Rattle.th_top.specs.declared.status.Status.TheVariants.{NoneSurvive, SomeSurvive};

/// Of a store that tells what it holds one outcome comes of a command, where no call of the store fails.
pub fn one_outcome()
    ensures { (store : List NamedFile) (command : Command) (outcome other : Outcome)
        → Comes (Some store) command outcome → Comes (Some store) command other → (IsFault outcome → ⊥) → (IsFault other → ⊥) → outcome ≡ other }
{
    th_input::laws::one_input();
    th_input::laws::one_scripted_input();
    th_accept::laws::one_outcome();
    th_machine::laws::one_script_run();
}

/// A static field and an Activity class of an accepted program that are joined in a reachable state of
/// any run, under either lifecycle, survive in its report.
pub fn all_joined_survive()
    ensures { (told : Option (List NamedFile)) (command : Command) (classes : List ClassFile) (report : List Judged) (lifecycle : Lifecycle)
        → Comes told command (reports classes report) → AreAllJoined lifecycle classes (survivors report) }
{
    th_coarse::laws::joined_pairs_are_alarms();
}

/// In the initial state of a program no static field and Activity class are joined: so nothing is after a
/// script without events.
pub fn nothing_is_joined_at_first()
    ensures { (files : List ClassFile) (field class : ℕ) → IsJoined files (initial files) field class → ⊥ }
{}

/// How the events of a script are printed, and the status that a run gives.
pub fn runs_are_printed()
    ensures words { map rest_word (Idle ∷ Ended ∷ Fuel ∷ Full ∷ []) ≡ codes "idle" ∷ codes "ended" ∷ codes "fuel" ∷ codes "full" ∷ [] }
    ensures line { event_line 7 Full ≡ codes "event " ++ decimal 7 ++ codes " full\n" }
    ensures event { event_lines small_files 7 joined_report
        ≡ event_line 7 Ended ++ codes "joined Act.kept:LAct; -> Act\njoined Shared.shared:[LAct; -> Base\n" }
    ensures run { run_text small_files kept_reports ≡ event_lines small_files 1 empty_report ++ event_lines small_files 2 joined_report ++ [] }
    ensures kept_status { status_of (runs small_files kept_reports) ≡ SomeSurvive }
    ensures let_go_status { status_of (runs small_files let_go_reports) ≡ NoneSurvive }
    ensures no_event { output_of (runs small_files []) ≡ [] }
    ensures no_event_status { status_of (runs small_files []) ≡ NoneSurvive }
{}
