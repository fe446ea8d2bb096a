// Branches, switches and returns (Java specification 6.5).
ghost use Rattle.std.specs.Prelude.{◌≡◌, drop, not};
ghost use Rattle.th_syntax.specs.Branches.{related, same_reference, branches, tests_int, tests_ints, tests_same, tests_null, table_target, lookup_target, switches, returns_int, returns_long, returns_reference};
ghost use Rattle.th_syntax.specs.Effects.{Jumps};
ghost use Rattle.th_acts.specs.Acts.{Does};

use crate::act::Act;
use crate::look::Look;
use crate::peek::{int_at, long_at, reference_at};
use th_base::{Relation, Seq};
use th_syntax::Value;

// Whether two ints stand in a relation.
fn related(relation: Relation, a: i32, b: i32) -> bool
    ensures { result ≡ related relation a b }
{
    match relation {
        Relation::Eq => a == b,
        Relation::Ne => a != b,
        Relation::Lt => a < b,
        Relation::Ge => a >= b,
        Relation::Gt => a > b,
        Relation::Le => a <= b,
    }
}

// Whether two references are to one object, or both null.
pub(crate) fn same_reference(left: Value, right: Value) -> bool
    ensures { result ≡ same_reference left right }
{
    match (left, right) {
        (Value::Null, Value::Null) => true,
        (Value::Address(a), Value::Address(b)) => a == b,
        _ => false,
    }
}

// To the target where the test passes, else behind the instruction.
fn branches<'b>(look: Look<'_>, test: bool, target: u32, taken: usize) -> Act<'b>
    ensures { Does look.entry result (λ t. branches t test target (drop taken t.stack)) }
{
    let _look = look;
    if test {
        Act::Jumps { target, taken }
    } else {
        Act::Drops { taken }
    }
}

// ifeq to ifle.
pub(crate) fn tests_int<'b>(look: Look<'_>, relation: Relation, target: u32) -> Act<'b>
    ensures { Does look.entry result (λ t. tests_int t relation target) }
{
    match int_at(look.stack, 0) {
        Some(a) => branches(look, related(relation, a.value, 0), target, a.upto),
        None => Act::Ends,
    }
}

// if_icmpeq to if_icmple.
pub(crate) fn tests_ints<'b>(look: Look<'_>, relation: Relation, target: u32) -> Act<'b>
    ensures { Does look.entry result (λ t. tests_ints t relation target) }
{
    let Some(b) = int_at(look.stack, 0) else {
        return Act::Ends;
    };
    match int_at(look.stack, b.upto) {
        Some(a) => branches(look, related(relation, a.value, b.value), target, a.upto),
        None => Act::Ends,
    }
}

// if_acmpeq.
pub(crate) fn tests_same<'b>(look: Look<'_>, target: u32) -> Act<'b>
    ensures { Does look.entry result (λ t. tests_same t (λ same. same) target) }
{
    let Some(b) = reference_at(look.stack, 0) else {
        return Act::Ends;
    };
    match reference_at(look.stack, b.upto) {
        Some(a) => branches(look, same_reference(a.value, b.value), target, a.upto),
        None => Act::Ends,
    }
}

// if_acmpne.
pub(crate) fn tests_other<'b>(look: Look<'_>, target: u32) -> Act<'b>
    ensures { Does look.entry result (λ t. tests_same t not target) }
{
    let Some(b) = reference_at(look.stack, 0) else {
        return Act::Ends;
    };
    match reference_at(look.stack, b.upto) {
        Some(a) => branches(look, !same_reference(a.value, b.value), target, a.upto),
        None => Act::Ends,
    }
}

// ifnull.
pub(crate) fn tests_null<'b>(look: Look<'_>, target: u32) -> Act<'b>
    ensures { Does look.entry result (λ t. tests_null t (λ same. same) target) }
{
    match reference_at(look.stack, 0) {
        Some(a) => branches(look, same_reference(a.value, Value::Null), target, a.upto),
        None => Act::Ends,
    }
}

// ifnonnull.
pub(crate) fn tests_not_null<'b>(look: Look<'_>, target: u32) -> Act<'b>
    ensures { Does look.entry result (λ t. tests_null t not target) }
{
    match reference_at(look.stack, 0) {
        Some(a) => branches(look, !same_reference(a.value, Value::Null), target, a.upto),
        None => Act::Ends,
    }
}

// goto, goto_w.
pub(crate) fn jumps<'b>(look: Look<'_>, target: u32) -> Act<'b>
    ensures { Does look.entry result (λ t. Jumps target t.stack) }
{
    let _look = look;
    Act::Jumps { target, taken: 0 }
}

// The target of a key among those from `low` on.
fn table_target(low: i32, targets: &Seq<u32>, other: u32, key: i32) -> u32
    ensures { result ≡ table_target low targets.now other key }
{
    if key < low {
        return other;
    }
    match targets.get(key.abs_diff(low) as usize) {
        Some(target) => *target,
        None => other,
    }
}

// tableswitch.
pub(crate) fn switches_table<'b>(
    look: Look<'_>,
    low: i32,
    targets: &Seq<u32>,
    other: u32,
) -> Act<'b>
    ensures { Does look.entry result (λ t. switches t (table_target low targets.now other)) }
{
    match int_at(look.stack, 0) {
        Some(key) => Act::Jumps {
            target: table_target(low, targets, other, key.value),
            taken: key.upto,
        },
        None => Act::Ends,
    }
}

// The target of a key among pairs of keys and targets.
fn lookup_target(pairs: &[(i32, u32)], other: u32, key: i32) -> u32
    ensures { result ≡ lookup_target pairs.now other key }
{
    for pair in pairs {
        if pair.0 == key {
            return pair.1;
        }
    }
    other
}

// lookupswitch.
pub(crate) fn switches_lookup<'b>(look: Look<'_>, pairs: &Seq<(i32, u32)>, other: u32) -> Act<'b>
    ensures { Does look.entry result (λ t. switches t (lookup_target pairs.now other)) }
{
    match int_at(look.stack, 0) {
        Some(key) => Act::Jumps {
            target: lookup_target(pairs.as_slice(), other, key.value),
            taken: key.upto,
        },
        None => Act::Ends,
    }
}

// ireturn.
pub(crate) fn returns_int<'b>(look: Look<'_>) -> Act<'b>
    ensures { Does look.entry result returns_int }
{
    match int_at(look.stack, 0) {
        Some(a) => Act::Returns(Some(Value::Int(a.value))),
        None => Act::Ends,
    }
}

// lreturn.
pub(crate) fn returns_long<'b>(look: Look<'_>) -> Act<'b>
    ensures { Does look.entry result returns_long }
{
    match long_at(look.stack, 0) {
        Some(a) => Act::Returns(Some(Value::Long(a.value))),
        None => Act::Ends,
    }
}

// areturn.
pub(crate) fn returns_reference<'b>(look: Look<'_>) -> Act<'b>
    ensures { Does look.entry result returns_reference }
{
    match reference_at(look.stack, 0) {
        Some(a) => Act::Returns(Some(a.value)),
        None => Act::Ends,
    }
}
