// Switches (Java specification 6.5, `tableswitch` and `lookupswitch`).
ghost use Rattle.std.specs.Prelude.{◌≡◌, ◌-◌, ◌%◌, ◌^◌, ◌≤ℤ◌, nat_lt, int_le, None};
ghost use Rattle.th_syntax.specs.ClassBytes as file;
ghost use Rattle.th_syntax.specs.CodeBytes as spelling;
ghost use Rattle.th_code.specs.Judged.{Takes, as_read, judged, operand};
ghost use Rattle.th_code.specs.Switches.{as_int, as_pair, as_pairs, as_targets, led_to, mapped, pairs_of, rises_after, rising_after, targets_of};

use crate::branch::target;
use crate::operand::{Taken, bytes, word};
use std::alloc::Global;
use th_base::{Fail, Seq};
use th_pool::Place;
use th_syntax::Instr;
use th_syntax::cause::CODE_SHAPE;

// How many pairs a `lookupswitch` never has: its count isn't negative.
const PAIRS_END: u32 = 1 << 31;

// The padding behind an opcode at `pc`.
fn padding(pc: u32) -> usize
    ensures { result ≡ 3 - pc % 4 }
{
    (3 - pc % 4) as usize
}

// A signed operand of four bytes.
#[tactic(auto, using(crate::proofs::Cases::signed))]
fn signed(place: Place) -> Taken<i32>
    ensures { Takes as_int result (operand spelling.i4 place.entry.at place.entry.rest.now) }
{
    let (number, place) = word(place)?;
    Ok((number.cast_signed(), place))
}

// A key, and how far its branch leads.
#[tactic(auto, using(crate::proofs::Cases::pairs))]
fn pair(place: Place) -> Taken<(i32, i32)>
    ensures { Takes as_pair result (operand spelling.match_pair place.entry.at place.entry.rest.now) }
{
    let (key, place) = signed(place)?;
    let (by, place) = signed(place)?;
    Ok(((key, by), place))
}

// The targets of so many branches of a switch at `pc`. Space is taken for those within the code alone.
fn targets<'a>(alloc: Global, pc: u32, count: u64, from: Place<'a>) -> Taken<'a, Seq<u32>>
    ensures { Takes as_targets result (mapped (targets_of pc) (operand (file.times count spelling.i4) from.entry.at from.entry.rest.now)) }
{
    let mut targets = Vec::new(alloc);
    let mut place = from;
    let mut left = count;
    while left > 0 {
        left -= 1;
        let (by, behind) = match signed(place) {
            Ok(found) => found,
            Err(fail) => return Err(fail),
        };
        let to = target(pc, by);
        targets.push(to)?;
        place = behind;
    }
    Ok((Seq::from_vec(targets), place))
}

// A key with the target of its branch.
fn led(pc: u32, case: (i32, i32)) -> (i32, u32)
    ensures { result ≡ led_to pc case }
{
    (case.0, target(pc, case.1))
}

// So many keys of a switch at `pc`, with the targets of their branches.
fn pairs<'a>(alloc: Global, pc: u32, count: u32, from: Place<'a>) -> Taken<'a, Seq<(i32, u32)>>
    ensures { Takes as_pairs result (mapped (pairs_of pc) (operand (file.times count spelling.match_pair) from.entry.at from.entry.rest.now)) }
{
    let mut pairs = Vec::new(alloc);
    let mut place = from;
    let mut left = count;
    while left > 0 {
        left -= 1;
        let (case, behind) = match pair(place) {
            Ok(found) => found,
            Err(fail) => return Err(fail),
        };
        pairs.push(led(pc, case))?;
        place = behind;
    }
    Ok((Seq::from_vec(pairs), place))
}

// How many numbers there are from the least to the greatest.
fn count_between(low: i32, high: i32) -> u64
    ensures { result ≡ spelling.count_between low high }
{
    (i64::from(high) - i64::from(low)).unsigned_abs() + 1
}

fn is_at_most(low: i32, high: i32) -> bool
    ensures { result ≡ int_le low high }
{
    low <= high
}

// Whether the count of pairs isn't negative.
fn is_natural(count: u32) -> bool
    ensures { result ≡ nat_lt count (2 ^ 31) }
{
    count < PAIRS_END
}

// Whether a key is above the one before it, where there is one.
fn rises(before: Option<i32>, key: i32) -> bool
    ensures { result ≡ rises_after before key }
{
    match before {
        Some(last) => last < key,
        None => true,
    }
}

// Whether each key is above the one before.
fn keys_rise(pairs: &[(i32, u32)]) -> bool
    ensures { result ≡ rising_after None pairs.now }
{
    let mut before: Option<i32> = None;
    for pair in pairs {
        if !rises(before, pair.0) {
            return false;
        }
        before = Some(pair.0);
    }
    true
}

// What is behind a `tableswitch` at `pc`.
#[tactic(auto, using(crate::proofs::Switches::tables))]
pub(crate) fn table_switch<'a>(alloc: Global, pc: u32, place: Place<'a>) -> Taken<'a, Instr>
    ensures { Takes as_read result (judged (spelling.table_switch pc) place.entry.at place.entry.rest.now) }
{
    let (_, place) = bytes(place, padding(pc))?;
    let (by, place) = signed(place)?;
    let (low, place) = signed(place)?;
    let (high, place) = signed(place)?;
    if !is_at_most(low, high) {
        return Err(Fail::Refused(CODE_SHAPE));
    }
    let count = count_between(low, high);
    let (targets, place) = targets(alloc, pc, count, place)?;
    let other = target(pc, by);
    let instr = Instr::TableSwitch {
        low,
        targets,
        other,
    };
    Ok((instr, place))
}

// What is behind a `lookupswitch` at `pc`.
#[tactic(auto, using(crate::proofs::Switches::lookups))]
pub(crate) fn lookup_switch<'a>(alloc: Global, pc: u32, place: Place<'a>) -> Taken<'a, Instr>
    ensures { Takes as_read result (judged (spelling.lookup_switch pc) place.entry.at place.entry.rest.now) }
{
    let (_, place) = bytes(place, padding(pc))?;
    let (by, place) = signed(place)?;
    let (count, place) = word(place)?;
    if !is_natural(count) {
        return Err(Fail::Refused(CODE_SHAPE));
    }
    let (pairs, place) = pairs(alloc, pc, count, place)?;
    if !keys_rise(pairs.as_slice()) {
        return Err(Fail::Refused(CODE_SHAPE));
    }
    let other = target(pc, by);
    let instr = Instr::LookupSwitch { pairs, other };
    Ok((instr, place))
}
