// The shapes of descriptors.
ghost use Rattle.std.specs.Prelude.{◌≡◌, ◌==◌, ◌&&◌, IfOk, OnOk, length, nat_le, sum_by};
ghost use Rattle.std.specs.Option.{option_map};
ghost use Rattle.std.specs.Str.{byte};
ghost use Rattle.th_syntax.specs.Descriptors as types;
ghost use Rattle.th_pool.specs.Shapes.{AnswersShape, field_shape, method_shape, slot_size};
ghost use Rattle.th_pool.specs.Types.{type_seen};
ghost use Rattle.th_syntax.specs.CodeBytes.{type_numbers, method_type_numbers};
ghost use Rattle.th_pool.specs.Texts.{fault_numbers};
ghost use Rattle.th_pool.specs.Params.{field_answer, method_answer, method_seen, params_found, parts_view, pushed, params_view};

use crate::descriptor::{ParsedType, split_front, type_at};
use crate::shape::{DescriptorFault, FieldShape, MethodShape, Slot};
use std::alloc::{AllocError, Global};
use th_base::{Fail, Seq, Text};
use th_syntax::limit::MOST_PARAMETER_SLOTS;

// What shapes ask of parameters.
#[derive(Debug, Drop)]
pub(crate) struct Params {
    pub slots: Seq<Slot>,
    // One of them has float or double.
    pub floating: bool,
    // Each of them is well formed.
    pub well_formed: bool,
}

// The type that the bytes spell, all of them.
fn whole_type(bytes: &[u8]) -> Option<ParsedType>
    ensures { result ≡ option_map type_seen (types.alone (types.type_at bytes.now)) }
{
    let (found, rest) = type_at(bytes)?;
    if rest.is_empty() { Some(found) } else { None }
}

fn field_of(found: Option<ParsedType>) -> Result<FieldShape, DescriptorFault>
    ensures { result ≡ field_answer found }
{
    match found {
        Some(found) if found.well_formed => {
            if found.floating {
                return Err(DescriptorFault::FloatType);
            }
            Ok(FieldShape { slot: found.slot })
        }
        _ => Err(DescriptorFault::Form),
    }
}

/// What a field of this descriptor holds (Java specification 4.3.2).
///
/// `FloatType` comes exactly where the descriptor is well formed and has `float` or `double`, and
/// `Form` exactly where it is ill-formed.
#[tactic(auto, using(crate::proofs::Methods::fields))]
pub fn parse_field(descriptor: &Text) -> Result<FieldShape, DescriptorFault>
    ensures { result ≡ field_shape (types.field_type_of descriptor.now) }
{
    let found = whole_type(descriptor.as_bytes());
    field_of(found)
}

/// What is wrong with the descriptor of a field; `None` exactly where it is well formed and has neither
/// `float` nor `double`.
#[tactic(auto, using(crate::proofs::Faults::faults))]
pub fn field_fault(descriptor: &[u8]) -> Option<DescriptorFault>
    ensures { fault_numbers result ≡ type_numbers (types.field_type_of descriptor.now) }
{
    let found = whole_type(descriptor);
    match field_of(found) {
        Ok(_) => None,
        Err(fault) => Some(fault),
    }
}

// Adds a parameter.
fn push(params: &mut Params, found: ParsedType) -> Result<(), AllocError>
    ensures { OnOk result (params.new ≡ pushed params.old found) }
{
    params.slots.push(found.slot)?;
    params.floating = params.floating || found.floating;
    params.well_formed = params.well_formed && found.well_formed;
    Ok(())
}

// The parameters up to the closing parenthesis, and the bytes behind it.
fn params_at(alloc: Global, bytes: &[u8]) -> Result<Option<(Params, &[u8])>, AllocError>
    ensures { IfOk result (λ found. params_view found ≡ params_found (types.types_at (length bytes.now) bytes.now)) }
{
    let mut params = Params {
        slots: Seq::new(alloc),
        floating: false,
        well_formed: true,
    };
    let mut rest = bytes;
    let count = bytes.len();
    for _ in 0..count {
        let Some((letter, others)) = split_front(rest) else {
            return Ok(None);
        };
        if letter == b')' {
            return Ok(Some((params, others)));
        }
        let Some((found, others)) = type_at(rest) else {
            return Ok(None);
        };
        push(&mut params, found)?;
        rest = others;
    }
    Ok(None)
}

// Whether these bytes are a `V` and nothing more.
fn is_void(letter: u8, rest: &[u8]) -> bool
    ensures { result ≡ (letter == byte "V" && length rest.now == 0) }
{
    letter == b'V' && rest.is_empty()
}

// The result of a method, which may have none.
#[tactic(auto, using(crate::proofs::Methods::results))]
fn result_at(bytes: &[u8]) -> Option<Option<ParsedType>>
    ensures { result ≡ option_map (option_map type_seen) (types.result_at bytes.now) }
{
    let (letter, rest) = split_front(bytes)?;
    if is_void(letter, rest) {
        return Some(None);
    }
    let found = whole_type(bytes)?;
    Some(Some(found))
}

// The parameters and the result of a method.
#[tactic(auto, using(crate::proofs::Methods::parts))]
fn parts_of(alloc: Global, bytes: &[u8]) -> Result<Option<(Params, Option<ParsedType>)>, AllocError>
    ensures { IfOk result (λ found. parts_view found ≡ option_map method_seen (types.method_at bytes.now)) }
{
    let Some((open, rest)) = split_front(bytes) else {
        return Ok(None);
    };
    if open != b'(' {
        return Ok(None);
    }
    let Some((params, rest)) = params_at(alloc, rest)? else {
        return Ok(None);
    };
    let Some(returned) = result_at(rest) else {
        return Ok(None);
    };
    Ok(Some((params, returned)))
}

fn size_of(slot: Slot) -> usize
    ensures { result ≡ slot_size slot }
{
    match slot {
        Slot::Long => 2,
        Slot::Int | Slot::Ref => 1,
    }
}

// Whether parameters take no more slots than there may be.
fn have_room(slots: &[Slot]) -> bool
    ensures { result ≡ nat_le (sum_by slot_size slots.now) MOST_PARAMETER_SLOTS }
{
    let mut total: usize = 0;
    for slot in slots {
        total += size_of(*slot);
        if total > MOST_PARAMETER_SLOTS {
            return false;
        }
    }
    true
}

// The shape of a method, or what is wrong with its descriptor.
fn method_of(params: Params, returned: Option<ParsedType>) -> Result<MethodShape, DescriptorFault>
    ensures { result ≡ method_answer params returned }
{
    let (slot, floating, well_formed) = match returned {
        Some(found) => (Some(found.slot), found.floating, found.well_formed),
        None => (None, false, true),
    };
    if !params.well_formed || !well_formed || !have_room(params.slots.as_slice()) {
        return Err(DescriptorFault::Form);
    }
    if params.floating || floating {
        return Err(DescriptorFault::FloatType);
    }
    let Params { slots, .. } = params;
    Ok(MethodShape {
        params: slots,
        result: slot,
    })
}

/// The slots of the parameters and of the result of a method of this descriptor (Java specification
/// 4.3.3).
///
/// `FloatType` comes exactly where the descriptor is well formed and has `float` or `double`, and
/// `Form` exactly where it is ill-formed.
#[tactic(auto, using(crate::proofs::Methods::methods))]
pub fn parse_method(alloc: Global, descriptor: &Text) -> Result<MethodShape, Fail<DescriptorFault>>
    ensures { AnswersShape result (method_shape (types.method_type_of descriptor.now)) }
{
    let Some((params, returned)) = parts_of(alloc, descriptor.as_bytes())? else {
        return Err(Fail::Refused(DescriptorFault::Form));
    };
    match method_of(params, returned) {
        Ok(shape) => Ok(shape),
        Err(fault) => Err(Fail::Refused(fault)),
    }
}

/// What is wrong with the descriptor of a method; `None` exactly where it is well formed and has neither
/// `float` nor `double`. Memory is taken for the parameters, and given back.
#[tactic(auto, using(crate::proofs::Faults::faults))]
pub fn method_fault(alloc: Global, descriptor: &Text) -> Result<Option<DescriptorFault>, AllocError>
    ensures { IfOk result (λ fault. fault_numbers fault ≡ method_type_numbers (types.method_type_of descriptor.now)) }
{
    match parse_method(alloc, descriptor) {
        Ok(_) => Ok(None),
        Err(Fail::Refused(fault)) => Ok(Some(fault)),
        Err(Fail::NoMemory) => Err(AllocError),
    }
}
