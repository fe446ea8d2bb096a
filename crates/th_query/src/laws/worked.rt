//! What the definitions say of small queries, computed. The queries stand in `specs/Worked.antt`.
ghost use Rattle.std.specs.Prelude.{◌≡◌, true, false, pos, negsuc, [], ◌∷◌};
ghost use Rattle.th_query.specs.declared.query.Sym.TheVariants.{Int, Carry};
ghost use Rattle.th_query.specs.Contradiction.{is_contradiction_of};
ghost use Rattle.th_query.specs.Initial.{admits_initial_of};
ghost use Rattle.th_query.specs.Numbered.{numbered as numbered_query};
ghost use Rattle.th_query.specs.Settled.{cut_frames, pruned, settled as settled_query};
ghost use Rattle.th_query.specs.Subsumed.{is_subsumed};
ghost use Rattle.th_query.specs.Unified.{unified_by};
ghost use Rattle.th_query.specs.Worked.{doubled, doubled_names, doubled_unified, unsettled, unsettled_pruned, unsettled_diffs, unsettled_facts};
ghost use Rattle.th_query.specs.Worked.{two_frames, three_registers, unnumbered, unnumbered_numbered, idle, some, sure, with_difference, between};
ghost use Rattle.th_query.specs.Worked.{holding, two_holders, ordered, at_node, constants, int_is, object_is};

/// Facts with one key become one, the lesser number stays, from-sets are intersected, and a symbol may
/// be null only where both may.
pub fn symbols_are_unified()
    ensures { unified_by doubled_names doubled ≡ doubled_unified }
{}

/// Differences of what nothing names go, and later ones of the same two symbols; facts are divided, and
/// true ones and repeats go.
pub fn facts_are_settled()
    ensures pruned { (pruned unsettled).diffs ≡ unsettled_pruned }
    ensures diffs { (settled_query (pruned unsettled)).diffs ≡ unsettled_diffs }
    ensures facts { (settled_query unsettled).facts ≡ unsettled_facts }
    ensures cut { cut_frames 3 two_frames ≡ three_registers }
{}

/// Registers, static fields, then what they lead to by field, then the rest by old number; a reference
/// that nothing names has no number.
pub fn symbols_are_numbered()
    ensures { numbered_query unnumbered ≡ unnumbered_numbered }
{}

/// A reference without a value, a difference of one symbol or of two nulls, and numbers that are in no
/// range are contradictions.
pub fn contradictions_are_found()
    ensures empty { is_contradiction_of (idle (sure [] ∷ [])) ≡ true }
    ensures null { is_contradiction_of (idle (some [] ∷ [])) ≡ false }
    ensures itself { is_contradiction_of (with_difference (some (1 ∷ [])) (some []) (0, 0)) ≡ true }
    ensures nulls { is_contradiction_of (with_difference (some []) (some []) (0, 1)) ≡ true }
    ensures apart { is_contradiction_of (with_difference (some (1 ∷ [])) (some []) (0, 1)) ≡ false }
    ensures low { is_contradiction_of (between Int (negsuc 3)) ≡ true }
    ensures high { is_contradiction_of (between Int (negsuc 4)) ≡ false }
    ensures carry { is_contradiction_of (between Carry (negsuc 9)) ≡ true }
{}

/// A query without facts is subsumed by what is at its place, and not the other way round; from-sets,
/// coefficients by position, and differences count.
pub fn subsumption_has_a_direction()
    ensures fewer { is_subsumed (holding (1 ∷ [])) (holding (1 ∷ 2 ∷ [])) ≡ true }
    ensures more { is_subsumed (holding (1 ∷ 2 ∷ [])) (holding (1 ∷ [])) ≡ false }
    ensures nothing_said { is_subsumed (holding (1 ∷ [])) (idle []) ≡ true }
    ensures something_said { is_subsumed (idle []) (holding (1 ∷ [])) ≡ false }
    ensures place { is_subsumed (at_node 1) (at_node 2) ≡ false }
    ensures linear { is_subsumed (ordered 0 1) (ordered 0 1) ≡ true }
    ensures turned { is_subsumed (ordered 0 1) (ordered 1 0) ≡ false }
    ensures by_difference { is_subsumed (two_holders (sure (1 ∷ []) ∷ some [] ∷ sure (2 ∷ []) ∷ []) []) (two_holders (sure (1 ∷ []) ∷ some [] ∷ sure (1 ∷ 2 ∷ []) ∷ []) []) ≡ true }
    ensures first_fit { is_subsumed (two_holders (sure (1 ∷ []) ∷ some [] ∷ sure (1 ∷ []) ∷ []) ((0, 2) ∷ [])) (two_holders (sure (1 ∷ []) ∷ some [] ∷ sure (1 ∷ []) ∷ []) ((0, 2) ∷ [])) ≡ false }
{}

/// Static fields have their constants, else 0 or null; nothing is said of objects.
pub fn the_initial_state_is_admitted()
    ensures int { admits_initial_of constants (int_is 3 (negsuc 6)) ≡ true }
    ensures other_int { admits_initial_of constants (int_is 3 (negsuc 5)) ≡ false }
    ensures zero { admits_initial_of constants (int_is 5 (pos 0)) ≡ true }
    ensures string { admits_initial_of constants (object_is 4 (sure (1 ∷ 2 ∷ []))) ≡ true }
    ensures other_string { admits_initial_of constants (object_is 4 (some (1 ∷ []))) ≡ false }
    ensures object { admits_initial_of constants (object_is 5 (sure (1 ∷ []))) ≡ false }
    ensures null { admits_initial_of constants (object_is 5 (some (1 ∷ []))) ≡ true }
    ensures cells { admits_initial_of constants (two_holders (sure (1 ∷ []) ∷ some [] ∷ sure (1 ∷ []) ∷ []) []) ≡ false }
    ensures frames { admits_initial_of constants (at_node 1) ≡ false }
{}
