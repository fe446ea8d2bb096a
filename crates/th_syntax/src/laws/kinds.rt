// What the definitions of kinds say: that merging is a join which instructions keep, that there is one
// least table and how it is computed, and what they make of instructions and methods worked out in full.
ghost use Rattle.std.specs.Prelude.{◌≡◌, ◌↔◌, ℕ, true, false, List, [], ◌∷◌, map};
ghost use Rattle.th_syntax.specs.declared.class_file.Code.{Code};
ghost use Rattle.th_syntax.specs.declared.class_file.Member.{Member};
ghost use Rattle.th_syntax.specs.Flow.{IsReached};
ghost use Rattle.th_syntax.specs.Kinds.{KindsAt, NoKinds, OfKinds, merged_at};
ghost use Rattle.th_syntax.specs.KindRows.{KindRow, row_of, after};
ghost use Rattle.th_syntax.specs.KindTable.{IsLeastTable, HasKinds, HasFirstConflict, KindsBefore, AreKinds};
ghost use Rattle.th_syntax.specs.KindRounds.{known_at, after_rounds, is_closed_table};
ghost use Rattle.th_syntax.specs.WorkedKinds.{fitting_constants, fitting_arrays, fitting_moves, fitting_arithmetic, fitting_branches, fitting_members, behind_fitting, expected_behind, misfits, unfitting_misfits, unfitting, storing, straight_methods, returning_methods, merging_methods, are_settled, found_conflicts, long_method, long_table, half_popped, constructor, constructor_kinds, table_in_rounds};

/// Merging is a join: the same twice changes nothing, and neither do order and grouping. What an
/// instruction makes of merged kinds is what it makes of each, merged.
pub fn merging_is_kept()
    ensures twice { (s : KindsAt) → merged_at s s ≡ s }
    ensures order { (s t : KindsAt) → merged_at s t ≡ merged_at t s }
    ensures grouping { (s t u : KindsAt) → merged_at (merged_at s t) u ≡ merged_at s (merged_at t u) }
    ensures kept { (row : KindRow) (s t : KindsAt) → after row (merged_at s t) ≡ merged_at (after row s) (after row t) }
{}

/// There is at most one least table of a method's kinds.
pub fn one_least_table()
    ensures { (m : Member) (code : Code) (t u : ℕ → KindsAt) → IsLeastTable m code t → IsLeastTable m code u → (offset : ℕ) → t offset ≡ u offset }
{}

/// A table that rounds from the entry lead to is the least one where it is closed.
pub fn rounds_lead_to_the_least()
    ensures { (m : Member) (code : Code) (rounds : ℕ) → is_closed_table m code (known_at (after_rounds m code rounds)) ≡ true → IsLeastTable m code (known_at (after_rounds m code rounds)) }
{}

/// A method has kinds or a first conflict, and not both; its first conflict is one, and its kinds are
/// listed in one way.
pub fn one_outcome()
    ensures apart { (m : Member) (code : Code) (t u : ℕ → KindsAt) (offset : ℕ) → HasKinds m code t → HasFirstConflict m code u offset → ⊥ }
    ensures conflict { (m : Member) (code : Code) (t u : ℕ → KindsAt) (offset other : ℕ) → HasFirstConflict m code t offset → HasFirstConflict m code u other → offset ≡ other }
    ensures listing { (m : Member) (code : Code) (kinds others : List KindsBefore) → AreKinds m code kinds → AreKinds m code others → kinds ≡ others }
{}

/// The least table has kinds, or depths that differ, exactly where a path leads.
pub fn kinds_come_along_paths()
    ensures { (m : Member) (code : Code) (t : ℕ → KindsAt) (offset : ℕ) → IsLeastTable m code t → (t offset ≡ NoKinds → ⊥) ↔ IsReached code.instrs offset }
{}

/// What each instruction makes of a stack that it fits, where there is just room for the stack behind it.
pub fn instructions_fit()
    ensures constants { behind_fitting fitting_constants ≡ expected_behind fitting_constants }
    ensures arrays { behind_fitting fitting_arrays ≡ expected_behind fitting_arrays }
    ensures moves { behind_fitting fitting_moves ≡ expected_behind fitting_moves }
    ensures arithmetic { behind_fitting fitting_arithmetic ≡ expected_behind fitting_arithmetic }
    ensures branches { behind_fitting fitting_branches ≡ expected_behind fitting_branches }
    ensures members { behind_fitting fitting_members ≡ expected_behind fitting_members }
    ensures stored { map (λ one. after (row_of one.0) (OfKinds one.2 one.1)) storing ≡ map (λ one. OfKinds one.3 []) storing }
{}

/// They are no misfits there, and are with room for one slot less.
pub fn instructions_have_room()
    ensures constants { misfits 0 fitting_constants ≡ map (λ f. false) fitting_constants }
    ensures arrays { misfits 0 fitting_arrays ≡ map (λ f. false) fitting_arrays }
    ensures moves { misfits 0 fitting_moves ≡ map (λ f. false) fitting_moves }
    ensures arithmetic { misfits 0 fitting_arithmetic ≡ map (λ f. false) fitting_arithmetic }
    ensures branches { misfits 0 fitting_branches ≡ map (λ f. false) fitting_branches }
    ensures members { misfits 0 fitting_members ≡ map (λ f. false) fitting_members }
    ensures full { misfits 1 fitting_constants ≡ map (λ f. true) fitting_constants }
    ensures full_moves { misfits 1 fitting_moves ≡ map (λ f. true) fitting_moves }
{}

/// Instructions whose operands are missing, of another kind, unusable or torn are misfits.
pub fn instructions_do_not_fit()
    ensures { unfitting_misfits ≡ map (λ one. true) unfitting }
{}

/// The conflicts of small methods, in the order of their offsets, in their least tables.
pub fn conflicts_are_found()
    ensures straight { found_conflicts straight_methods ≡ map (λ w. w.conflicts) straight_methods }
    ensures returning { found_conflicts returning_methods ≡ map (λ w. w.conflicts) returning_methods }
    ensures merging { found_conflicts merging_methods ≡ map (λ w. w.conflicts) merging_methods }
    ensures straight_settled { are_settled straight_methods ≡ map (λ w. true) straight_methods }
    ensures returning_settled { are_settled returning_methods ≡ map (λ w. true) returning_methods }
    ensures merging_settled { are_settled merging_methods ≡ map (λ w. true) merging_methods }
{}

/// The kinds before each instruction of a method in whose locals longs meet.
pub fn longs_are_merged()
    ensures table { after_rounds long_method.member long_method.code long_method.rounds ≡ long_table }
    ensures settled { are_settled (long_method ∷ []) ≡ true ∷ [] }
    ensures conflicts { found_conflicts (long_method ∷ []) ≡ [] ∷ [] }
{}

/// The kinds of a constructor as a list, and the first conflict of a method that pops half of a long.
pub fn answers_are_whole()
    ensures kinds { AreKinds constructor.member constructor.code constructor_kinds }
    ensures conflict { HasFirstConflict half_popped.member half_popped.code (table_in_rounds half_popped) 1 }
{}
