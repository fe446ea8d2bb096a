// What the definitions of control flow say: that the test of an offset finds just the paths, and
// where each instruction leads.
ghost use Rattle.std.specs.Prelude.{◌≡◌, ◌↔◌, ℕ, true, List, [], ◌∷◌, map};
ghost use Rattle.th_syntax.specs.declared.instr.Instr.{Instr};
ghost use Rattle.th_syntax.specs.Flow.{leads_to, IsReached, is_reached, reached_code, reached_offsets, successors_of};
ghost use Rattle.th_syntax.specs.WorkedFlow.{going_on, leading_elsewhere, elsewhere, looping_code, looping_parts};

/// An offset is found by the visit of a code exactly where a path from its start leads there.
pub fn reached_offsets_are_found()
    ensures { (instrs : List (ℕ × Instr)) (offset : ℕ) → (is_reached instrs offset ≡ true) ↔ IsReached instrs offset }
{}

/// Where each instruction leads: behind itself, to targets, to both, or nowhere; and the visit of a
/// code with each kind of branch, with an instruction that no path reaches.
pub fn instructions_lead_on()
    ensures onward { map (leads_to (9 ∷ [])) going_on ≡ map (λ i. 9 ∷ []) going_on }
    ensures elsewhere { map (leads_to (9 ∷ [])) leading_elsewhere ≡ elsewhere }
    ensures visit { reached_offsets looping_code ≡ 0 ∷ 1 ∷ 8 ∷ 30 ∷ 30 ∷ 4 ∷ 20 ∷ 8 ∷ 7 ∷ [] }
    ensures code { reached_code looping_code ≡ looping_parts }
{}
