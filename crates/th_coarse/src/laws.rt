// What the coarse alarms are, and what they say of runs.
ghost use Rattle.std.specs.Prelude.{◌≡◌, ◌∷◌, ◌++◌, ℕ, List, [], map, codes, Contains};
ghost use Rattle.std.specs.Fmt.{decimal};
ghost use Rattle.th_base.specs.declared.lifecycle.Lifecycle.{Lifecycle};
ghost use Rattle.th_runs.specs.Verified.{IsVerified};
ghost use Rattle.th_syntax.specs.declared.class_file.ClassFile.{ClassFile};
ghost use Rattle.th_coarse.specs.declared.judged.Mark.TheVariants.{Filtered};
ghost use Rattle.th_coarse.specs.Coarse.{IsCoarseAlarm, coarse_alarms};
ghost use Rattle.th_coarse.specs.Report.{report_of, survivors, alarm_line, filtered_count, handlers_of, pair_text, surviving_count};
ghost use Rattle.th_coarse.specs.Safety.{AreAllJoined};
ghost use Rattle.th_coarse.specs.Worked.{small_files, judged_alarms, judged_as};

/// The pairs of a static field of reference type to which a reachable `putstatic` resolves and of an
/// Activity class that is launched or that a reachable `new` names are listed.
pub fn coarse_alarms_are_listed()
    ensures { (files : List ClassFile) (field class : ℕ) → IsCoarseAlarm files field class → Contains (coarse_alarms files) (field, class) }
{
    th_syntax::laws::flow::reached_offsets_are_found();
}

/// Where class files were read and linked and their code has kinds, a static field and an Activity class
/// that are joined in a reachable state of any run, under either lifecycle, are a coarse alarm, and
/// survive in the coarse report.
pub fn joined_pairs_are_alarms()
    ensures alarms { (lifecycle : Lifecycle) (files : List ClassFile) → IsVerified files → AreAllJoined lifecycle files (coarse_alarms files) }
    ensures survivors { (lifecycle : Lifecycle) (files : List ClassFile) → IsVerified files → AreAllJoined lifecycle files (survivors (report_of files)) }
{
    th_runs::laws::verified_runs_keep();
    coarse_alarms_are_listed();
}

/// All coarse alarms survive in the coarse report.
pub fn all_coarse_alarms_survive()
    ensures { (files : List ClassFile) → survivors (report_of files) ≡ coarse_alarms files }
{}

/// The alarms of a small program, and how they, its handlers and other alarms are printed and counted.
pub fn small_program_is_reported()
    ensures alarms { coarse_alarms small_files ≡ (0, 11) ∷ (0, 13) ∷ (4, 11) ∷ (4, 13) ∷ [] }
    ensures pairs { map (pair_text small_files) (coarse_alarms small_files)
        ≡ codes "Act.kept:LAct; -> Act" ∷ codes "Act.kept:LAct; -> Base" ∷ codes "Shared.shared:[LAct; -> Act" ∷ codes "Shared.shared:[LAct; -> Base" ∷ [] }
    ensures missing { pair_text small_files (99, 99) ≡ codes " -> " }
    ensures line { alarm_line small_files 7 (judged_as Filtered 0 11) ≡ codes "alarm " ++ decimal 7 ++ codes " filtered " ++ codes "Act.kept:LAct; -> Act" ++ codes "\n" }
    ensures handlers { handlers_of small_files ≡ 2 }
    ensures surviving { surviving_count judged_alarms ≡ 1 }
    ensures filtered { filtered_count judged_alarms ≡ 2 }
{}
