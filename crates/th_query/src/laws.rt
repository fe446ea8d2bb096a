//! What queries keep, over all plans, states and queries. A state is any that keeps the invariant of
//! `th_ir`, as every reachable one does.
ghost use Rattle.std.specs.Prelude.{◌≡◌, ℕ, true, false};
ghost use Rattle.th_ir.specs.declared.plan.Plan.{Plan};
ghost use Rattle.th_ir.specs.FactSets.{sets_of};
ghost use Rattle.th_ir.specs.Good.{IsGood};
ghost use Rattle.th_ir.specs.Machine.{RegState, initial_state};
ghost use Rattle.th_ir.specs.WellFormed.{IsWellFormed};
ghost use Rattle.th_query.specs.declared.query.Query.{Query};
ghost use Rattle.th_query.specs.Meets.{MeetsQuery};
ghost use Rattle.th_query.specs.Canonical.{IsCanonical, IsCanonicalOf};
ghost use Rattle.th_query.specs.Contradiction.{is_contradiction_of};
ghost use Rattle.th_query.specs.Initial.{admits_initial_of};
ghost use Rattle.th_query.specs.Settled.{limited};
ghost use Rattle.th_query.specs.Subsumed.{is_subsumed};
ghost use Rattle.th_query.specs.WellFormed.{IsQueryOf, IsWellFormedQuery};

pub mod worked;

use th_linear::laws::{renaming_composes, steps_keep};
use th_pure::laws::refuted_have_no_solution;

/// A state that meets a query meets its canonical form, which is then no contradiction.
pub fn canonical_is_met()
    ensures met { (plan : Plan) (s : RegState) (q r : Query) → IsGood plan.hierarchy plan.program (sets_of plan.facts) s
        → IsQueryOf plan.hierarchy plan.program (sets_of plan.facts) q → IsCanonicalOf plan q r → MeetsQuery s q → MeetsQuery s r }
    ensures possible { (plan : Plan) (s : RegState) (q r : Query)
        → IsQueryOf plan.hierarchy plan.program (sets_of plan.facts) q → IsCanonicalOf plan q r → MeetsQuery s r → is_contradiction_of r ≡ false }
{
    // For the proof alone: what renamed and divided facts say, and that a refuted one has no solution.
    renaming_composes();
    steps_keep();
    refuted_have_no_solution();
}

/// A query has one canonical form at most.
pub fn one_canonical()
    ensures { (plan : Plan) (q r s : Query) → IsCanonicalOf plan q r → IsCanonicalOf plan q s → r ≡ s }
{}

/// The canonical form of a query is well formed, its limits included.
pub fn canonical_is_formed()
    ensures { (plan : Plan) (q r : Query) → IsQueryOf plan.hierarchy plan.program (sets_of plan.facts) q → IsCanonicalOf plan q r → IsWellFormedQuery plan r }
{
    // For the proof alone: that renamed and divided facts are facts.
    renaming_composes();
    steps_keep();
}

/// A state that meets a query meets it without the facts past its limits.
pub fn limited_is_met()
    ensures { (s : RegState) (q : Query) → MeetsQuery s q → MeetsQuery s (limited q) }
{}

/// A state that meets a query meets each one that it is subsumed by.
pub fn subsumed_is_met()
    ensures { (plan : Plan) (s : RegState) (q r : Query) → IsQueryOf plan.hierarchy plan.program (sets_of plan.facts) r → is_subsumed q r ≡ true
        → MeetsQuery s q → MeetsQuery s r }
{}

/// Where the initial state meets a canonical query, the query admits it.
pub fn initial_is_admitted()
    ensures { (plan : Plan) (q : Query) → IsWellFormed plan.hierarchy plan.program → IsQueryOf plan.hierarchy plan.program (sets_of plan.facts) q → IsCanonical plan q
        → MeetsQuery (initial_state plan.hierarchy plan.program) q → admits_initial_of plan.program q ≡ true }
{
    // For the proof alone: what renamed and divided facts say, and that a refuted one has no solution.
    renaming_composes();
    steps_keep();
    refuted_have_no_solution();
}
