// The kinds of a method, or its first conflict.
ghost use Rattle.std.specs.Prelude.{◌≡◌, ◌++◌, ℕ, Some, IfOk};
ghost use Rattle.th_syntax.specs.declared.class_file.Code.{Code as Coded};
ghost use Rattle.th_syntax.specs.KindTable.{AreKinds};
ghost use Rattle.th_kinds.specs.Flowing.{FlowsWell};
ghost use Rattle.th_kinds.specs.Inferred.{AreKindsOf, IsConflict, IfRefused};

use crate::entry::{arguments, entry_of};
use crate::first::settled;
use crate::listing::Listing;
use crate::row::method_slots;
use crate::search::first_conflict;
use crate::state::State;
use crate::table::Kinds;
use std::alloc::{AllocError, Global};
use th_base::{Fail, Text};
use th_syntax::{Code, Member, Refusal};

/// The number of the cause: the kinds of a method have a conflict.
pub const KIND_CONFLICT: u8 = 12;

// The name and the descriptor of a method.
fn text_of(alloc: Global, method: &Member) -> Result<Text, AllocError>
    ensures { IfOk result (λ text. text ≡ method.now.name ++ method.now.descriptor) }
{
    let mut bytes = Vec::from_slice(alloc, method.name.as_bytes())?;
    bytes.extend_from_slice(method.descriptor.as_bytes())?;
    Text::from_vec(bytes)
}

// The refusal of a method for a conflict at an offset.
fn refusal_of(
    alloc: Global,
    class: &Text,
    method: &Member,
    offset: u32,
) -> Result<Refusal, AllocError>
    ensures { IfOk result (λ refusal. refusal ≡ record { number = KIND_CONFLICT; class = class.now; member = method.now.name ++ method.now.descriptor; offset = offset }) }
{
    Ok(Refusal {
        number: KIND_CONFLICT,
        class: class.copy(alloc)?,
        member: text_of(alloc, method)?,
        offset,
    })
}

// The kinds of a method's code.
fn infer_code<'a>(
    alloc: Global,
    class: &Text,
    method: &Member,
    code: &'a Code,
) -> Result<Kinds<'a>, Fail<Refusal>>
    requires coded { method.now.code ≡ Some code.now }
    requires flows { FlowsWell code.now.instrs }
    ensures kinds { IfOk result (λ kinds. AreKinds method.now code.now kinds) }
    ensures refused { IfRefused result (IsConflict class.now method.now) }
{
    let slots = method_slots(alloc, &method.descriptor)?;
    let arguments = arguments(alloc, method, slots.params.as_slice())?;
    let is_short = arguments.len() > code.max_locals as usize;
    let entry = entry_of(arguments, code.max_locals)?;
    let listing = Listing::new(alloc, code.instrs.as_slice())?;
    let kept = settled(alloc, &listing, &entry)?;
    if is_short {
        return Err(Fail::Refused(refusal_of(alloc, class, method, 0)?));
    }
    let found = first_conflict(alloc, code, slots.result, &listing, &entry, kept.as_slice())?;
    match found {
        Some(place) => {
            let offset = listing.offsets[place];
            Err(Fail::Refused(refusal_of(alloc, class, method, offset)?))
        }
        None => Ok(Kinds {
            instrs: listing.instrs,
            entry,
            kept,
        }),
    }
}

/// The kinds of the slots before each instruction of a method that is reached, in the least table of
/// docs/KINDS.md; none where the method has no code. Entries of the exception table are not followed.
///
/// A method whose kinds have a conflict is refused, with number 12, the name of its class, its own name
/// and descriptor, and the least offset at which there is one. By the law `one_outcome` of th_syntax no
/// method has both kinds and a conflict. The condition holds of the methods of each class file, by the
/// law `class_files_flow_well`.
///
/// Work is in proportion to the code, times the slots, times how often kinds change at a jump's target.
/// Memory is taken for the kinds at the targets of jumps.
pub fn infer<'a>(
    alloc: Global,
    class: &Text,
    method: &'a Member,
) -> Result<Kinds<'a>, Fail<Refusal>>
    requires { (code : Coded) → method.now.code ≡ Some code → FlowsWell code.instrs }
    ensures kinds { IfOk result (λ kinds. AreKindsOf method.now method.now.code kinds) }
    ensures refused { IfRefused result (IsConflict class.now method.now) }
{
    match &method.code {
        Some(code) => infer_code(alloc, class, method, code),
        None => Ok(Kinds {
            instrs: &[],
            entry: State::NoKinds,
            kept: Vec::new(alloc),
        }),
    }
}
