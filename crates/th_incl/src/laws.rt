//! What readers expect of least sets, over all constraints.
ghost use Rattle.std.specs.Prelude.{◌≡◌, ◌≤◌, ℕ, Bool, true, false, List, length, All, Contains};
ghost use Rattle.th_base.specs.IdSet.{IsAscending};
ghost use Rattle.th_incl.specs.Least.{In, is_in, Reaches, IsLeast, IsClosed, IsInRange, TellsWithin, pair_count};
ghost use Rattle.th_incl.specs.Worked.{small_system, small_solution};
ghost use Rattle.th_incl.specs.declared.constraints.Constraints.{Constraints};
ghost use Rattle.th_incl.specs.declared.constraints.Inclusion.{Inclusion};

/// What reaches the sets is closed, and within each closed family.
pub fn reached_is_least()
    ensures base { (c : Constraints) (i x : ℕ) → Contains c.base (i, x) → Reaches c i x }
    ensures copies { (c : Constraints) (j : Inclusion) (x : ℕ) → Contains c.copies j → Reaches c j.from x → In c.filters j.filter x → Reaches c j.to x }
    ensures within { (c : Constraints) (family : ℕ → ℕ → Bool) → IsClosed c family → (i x : ℕ) → Reaches c i x → family i x ≡ true }
{}

/// The least sets are closed, and within each closed family.
pub fn least_is_closed()
    ensures closed { (c : Constraints) (sets : List (List ℕ)) → IsLeast c sets → IsClosed c (is_in sets) }
    ensures within { (c : Constraints) (sets : List (List ℕ)) (family : ℕ → ℕ → Bool) → IsLeast c sets → IsClosed c family
        → (i x : ℕ) → In sets i x → family i x ≡ true }
{}

/// There is at most one list of least sets, and each list that is closed and within each closed family
/// is it.
pub fn least_is_one()
    ensures one { (c : Constraints) (a b : List (List ℕ)) → IsLeast c a → IsLeast c b → a ≡ b }
    ensures by_families { (c : Constraints) (a b : List (List ℕ)) → IsLeast c a → length b ≡ c.sets → All IsAscending b → IsClosed c (is_in b)
        → ((family : ℕ → ℕ → Bool) → IsClosed c family → (i x : ℕ) → In b i x → family i x ≡ true) → b ≡ a }
{}

/// A small system with its solution of four pairs.
pub fn small_system_is_solved()
    ensures range { IsInRange small_system }
    ensures least { IsLeast small_system small_solution }
    ensures pairs { pair_count small_solution ≡ 4 }
    ensures within { (within : Bool) → TellsWithin small_system 4 within → within ≡ true }
    ensures over { (within : Bool) → TellsWithin small_system 3 within → within ≡ false }
{}
