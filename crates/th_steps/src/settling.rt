// Linear facts are divided, and repeats go.
ghost use Rattle.std.specs.Prelude.{◌≡◌, [], ◌∷◌, IfOk, OnOk};
ghost use Rattle.th_pure.specs.Elimination.{has_fact, put_after, without_repeats};
ghost use Rattle.th_query.specs.Settled.{settled, settled_fact, settled_facts, false_fact as fact_of_false};

use crate::firsts::{Alike, keep_firsts};
use std::alloc::{AllocError, Global};
use th_base::Seq;
use th_linear::{Lin, NormalForm, Rel, normal};
use th_query::Query;

/// The query with its linear facts divided by the greatest common divisor of their coefficients, without
/// those that are always true, and without repeats. Every false fact becomes `1 = 0`, and of differences
/// of the same two symbols the first stays.
pub fn settle(alloc: Global, query: Query) -> Result<Query, AllocError>
    ensures { IfOk result (λ less. less ≡ settled query) }
{
    let Query {
        frames,
        statics,
        cells,
        elems,
        syms,
        diffs,
        facts,
    } = query;
    let mut pairs = diffs.into_vec();
    keep_firsts::<(u32, u32), ByPair>(&mut pairs);
    let facts = settle_facts(alloc, facts.into_vec())?;
    Ok(Query {
        frames,
        statics,
        cells,
        elems,
        syms,
        diffs: Seq::from_vec(pairs),
        facts: Seq::from_vec(facts),
    })
}

// Differences of the same two symbols.
struct ByPair;

impl Alike<(u32, u32)> for ByPair {
    ghost use Rattle.th_query.specs.Settled.{one_difference};

    ghost alike = { one_difference };

    fn are_alike(item: (u32, u32), other: (u32, u32)) -> bool {
        (item.0 == other.0 && item.1 == other.1) || (item.0 == other.1 && item.1 == other.0)
    }
}

// The facts divided, without those that are always true and without repeats.
#[tactic(auto, using(crate::proofs::Repeating::settled_more))]
fn settle_facts(alloc: Global, facts: Vec<Lin>) -> Result<Vec<Lin>, AllocError>
    ensures { IfOk result (λ kept. kept.items ≡ without_repeats (settled_facts facts.items)) }
{
    let mut kept = Vec::new(alloc);
    for fact in facts {
        add_settled(alloc, &mut kept, normal(fact))?;
    }
    Ok(kept)
}

// Adds what is left of a fact, unless it is there.
fn add_settled(alloc: Global, kept: &mut Vec<Lin>, form: NormalForm) -> Result<(), AllocError>
    ensures { OnOk result (kept.new.items ≡ put_after kept.old.items (settled_fact form)) }
{
    match form {
        NormalForm::True => Ok(()),
        NormalForm::False => add(kept, false_fact(alloc)),
        NormalForm::Fact(fact) => add(kept, fact),
    }
}

// The fact that stands for every false one: 1 = 0.
fn false_fact(alloc: Global) -> Lin
    ensures { result ≡ fact_of_false }
{
    Lin {
        coefs: Vec::new(alloc),
        constant: 1,
        rel: Rel::Eq,
    }
}

// Adds a fact, unless it is there.
fn add(kept: &mut Vec<Lin>, fact: Lin) -> Result<(), AllocError>
    ensures { OnOk result (kept.new.items ≡ put_after kept.old.items (fact ∷ [])) }
{
    if !has(kept.as_slice(), &fact) {
        kept.push(fact)?;
    }
    Ok(())
}

// Whether the fact is there.
fn has(facts: &[Lin], fact: &Lin) -> bool
    ensures { result ≡ has_fact fact.now facts.now }
{
    for other in facts {
        if fact.same(other) {
            return true;
        }
    }
    false
}
