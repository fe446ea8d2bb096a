// A word of the table as a number: one for a free edge, one for a claimed one, and else the kind above the steps.
ghost use Rattle.std.specs.Prelude.{◌≡◌};
ghost use Rattle.th_edge_table.specs.Encoding.{number_of, word_of, kind_number_of, kind_of};

use crate::word::{Kind, Verdict, Word};

// The word of a free edge.
pub(crate) const FREE: u64 = 0;

// The word of a claimed edge.
pub(crate) const CLAIMED: u64 = 1;

// The numbers of the kinds.
const REFUTED: u64 = 1;

const WITNESSED: u64 = 2;

const OUT_OF_BUDGET: u64 = 3;

// A kind's number stands above the steps: it counts so much.
const KIND_UNIT: u64 = 1 << 32;

// The number of a kind.
fn kind_number(kind: Kind) -> u64
    ensures { result ≡ kind_number_of kind }
{
    match kind {
        Kind::Refuted => REFUTED,
        Kind::Witnessed => WITNESSED,
        Kind::OutOfBudget => OUT_OF_BUDGET,
    }
}

// The kind of a number.
fn kind_from(number: u64) -> Kind
    ensures { result ≡ kind_of number }
{
    if number == REFUTED {
        Kind::Refuted
    } else if number == WITNESSED {
        Kind::Witnessed
    } else {
        Kind::OutOfBudget
    }
}

// A verdict as a number.
pub(crate) fn encode(verdict: Verdict) -> u64
    ensures { result ≡ number_of verdict }
{
    kind_number(verdict.kind) * KIND_UNIT + u64::from(verdict.steps)
}

// The word of a number.
pub(crate) fn decode(number: u64) -> Word
    ensures { result ≡ word_of number }
{
    if number == FREE {
        Word::Free
    } else if number == CLAIMED {
        Word::Claimed
    } else {
        Word::Decided(Verdict {
            kind: kind_from(number / KIND_UNIT),
            steps: (number % KIND_UNIT) as u32,
        })
    }
}
