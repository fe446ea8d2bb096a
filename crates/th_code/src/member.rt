// Fields, methods and classes that instructions name.
ghost use Rattle.std.specs.Prelude.{◌≡◌, ◌++◌, ℕ, List, [], ◌∷◌, ◌==◌, IfOk};
ghost use Rattle.std.specs.List.{list_any};
ghost use Rattle.th_syntax.specs.declared.tag.TheConstants as tags;
ghost use Rattle.th_syntax.specs.declared.cause.TheConstants as causes;
ghost use Rattle.th_syntax.specs.Flaws as flaws;
ghost use Rattle.th_syntax.specs.PoolChecks.{class_of};
ghost use Rattle.th_syntax.specs.CodeBytes.{class_name_numbers, class_or_array_numbers, field_numbers, member_among, method_numbers};
ghost use Rattle.th_pool.specs.Texts.{fault_numbers};
ghost use Rattle.th_code.specs.Judged.{Gets, least_of, named, ref_of};
ghost use Rattle.th_code.specs.Kinds.{call_numbers, kind_tags};

use std::alloc::{AllocError, Global};
use th_base::{Fail, Text};
use th_pool::{DescriptorFault, Pool, PoolMember};
use th_syntax::{MemberRef, cause, tag};

// ---- the least number of the checks that fail

// The number of a check, unless it holds.
fn unless(holds: bool, number: u8) -> Option<u8>
    ensures { result ≡ least_of (flaws.unless holds number) }
{
    if holds { None } else { Some(number) }
}

// The number of the check that a descriptor with this fault fails.
fn fault_number(fault: Option<DescriptorFault>) -> Option<u8>
    ensures { result ≡ least_of (fault_numbers fault) }
{
    match fault {
        None => None,
        Some(DescriptorFault::Form) => Some(cause::NAME),
        Some(DescriptorFault::FloatType) => Some(cause::FLOAT_TYPE),
    }
}

// The least number of two lists of checks, of each of which the least is given.
#[tactic(auto, using(crate::proofs::Numbers::least_joined))]
fn least(first: Option<u8>, second: Option<u8>) -> Option<u8>
    ensures { (x y : List ℕ) → first ≡ least_of x → second ≡ least_of y → result ≡ least_of (x ++ y) }
{
    match (first, second) {
        (Some(number), Some(other)) => Some(number.min(other)),
        (None, other) => other,
        (some, None) => some,
    }
}

fn field_number(member: PoolMember) -> Option<u8>
    ensures { result ≡ least_of (field_numbers (ref_of member.entry)) }
{
    let owner = unless(member.owner.is_class_name(), cause::NAME);
    let name = unless(member.name.is_field_name(), cause::NAME);
    let descriptor = fault_number(member.descriptor.field_fault());
    let behind = least(name, descriptor);
    least(owner, behind)
}

fn method_number(member: PoolMember, special: bool) -> Option<u8>
    ensures { result ≡ least_of (method_numbers special (ref_of member.entry)) }
{
    let owner = fault_number(member.owner.class_or_array_fault());
    let name = unless(member.name.is_method_name(), cause::NAME);
    let descriptor = fault_number(member.descriptor.method_fault());
    let callable = unless(member.name.is_callable(special), cause::CODE_SHAPE);
    let last = least(descriptor, callable);
    let behind = least(name, last);
    least(owner, behind)
}

#[tactic(auto, unfolding(crate::specs::Kinds::call_numbers))]
fn call_number(member: PoolMember, special: bool, sound: bool) -> Option<u8>
    ensures { result ≡ least_of (call_numbers special sound (ref_of member.entry)) }
{
    let named = method_number(member, special);
    let shape = unless(sound, cause::CODE_SHAPE);
    least(named, shape)
}

// ---- what an index leads to

// A member as instructions hold it. Its names share the bytes of the pool's texts.
fn reference(alloc: Global, member: PoolMember) -> Result<MemberRef, AllocError>
    ensures { IfOk result (λ m. m ≡ ref_of member.entry) }
{
    Ok(MemberRef {
        owner: member.owner.text().copy(alloc)?,
        name: member.name.text().copy(alloc)?,
        descriptor: member.descriptor.text().copy(alloc)?,
    })
}

// Whether the tag is that of a Fieldref.
fn is_field(found: u8) -> bool
    ensures { result ≡ list_any (λ x. found == x) (tags.FIELD ∷ []) }
{
    found == tag::FIELD
}

// Of which classes a method may be that an instruction calls.
#[derive(Clone, Copy, Debug)]
pub(crate) enum MethodKind {
    OfClass,
    OfInterface,
    OfEither,
}

// Whether the tag is that of such a method.
fn is_method(kind: MethodKind, found: u8) -> bool
    ensures { result ≡ list_any (λ x. found == x) (kind_tags kind) }
{
    match kind {
        MethodKind::OfClass => found == tag::METHOD,
        MethodKind::OfInterface => found == tag::INTERFACE_METHOD,
        MethodKind::OfEither => found == tag::METHOD || found == tag::INTERFACE_METHOD,
    }
}

// The field that an instruction gets or puts.
#[tactic(auto, using(crate::proofs::Named::members))]
pub(crate) fn field(alloc: Global, pool: &Pool, index: u16) -> Result<MemberRef, Fail<u8>>
    ensures { Gets result (named field_numbers (member_among pool.now (tags.FIELD ∷ []) index)) }
{
    let Some(member) = pool.member_texts(index) else {
        return Err(Fail::Refused(cause::CODE_SHAPE));
    };
    if !is_field(member.tag) {
        return Err(Fail::Refused(cause::CODE_SHAPE));
    }
    if let Some(number) = field_number(member) {
        return Err(Fail::Refused(number));
    }
    let field = reference(alloc, member)?;
    Ok(field)
}

// The method that an instruction calls, where all else of the instruction is sound.
#[tactic(auto, using(crate::proofs::Named::members))]
pub(crate) fn method(
    alloc: Global,
    pool: &Pool,
    index: u16,
    kind: MethodKind,
    special: bool,
    sound: bool,
) -> Result<MemberRef, Fail<u8>>
    ensures { Gets result (named (call_numbers special sound) (member_among pool.now (kind_tags kind) index)) }
{
    let Some(member) = pool.member_texts(index) else {
        return Err(Fail::Refused(cause::CODE_SHAPE));
    };
    if !is_method(kind, member.tag) {
        return Err(Fail::Refused(cause::CODE_SHAPE));
    }
    if let Some(number) = call_number(member, special, sound) {
        return Err(Fail::Refused(number));
    }
    let method = reference(alloc, member)?;
    Ok(method)
}

// The class of a Class entry.
#[tactic(auto, using(crate::proofs::Named::classes))]
pub(crate) fn class(alloc: Global, pool: &Pool, index: u16) -> Result<Text, Fail<u8>>
    ensures { Gets result (named class_name_numbers (class_of pool.now index)) }
{
    let Some(name) = pool.class_text(index) else {
        return Err(Fail::Refused(cause::CODE_SHAPE));
    };
    if let Some(number) = unless(name.is_class_name(), cause::NAME) {
        return Err(Fail::Refused(number));
    }
    let class = name.text().copy(alloc)?;
    Ok(class)
}

// The class or the array type of a Class entry.
#[tactic(auto, using(crate::proofs::Named::classes))]
pub(crate) fn class_or_array(alloc: Global, pool: &Pool, index: u16) -> Result<Text, Fail<u8>>
    ensures { Gets result (named class_or_array_numbers (class_of pool.now index)) }
{
    let Some(name) = pool.class_text(index) else {
        return Err(Fail::Refused(cause::CODE_SHAPE));
    };
    if let Some(number) = fault_number(name.class_or_array_fault()) {
        return Err(Fail::Refused(number));
    }
    let class = name.text().copy(alloc)?;
    Ok(class)
}
