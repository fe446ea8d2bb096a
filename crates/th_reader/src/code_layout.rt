// The content of a Code attribute as it stands in its bytes.
ghost use Rattle.std.specs.Prelude.{◌≡◌, IfOk};
ghost use Rattle.std.specs.Option.{option_map};
ghost use Rattle.th_syntax.specs.ClassBytes as file;
ghost use Rattle.th_syntax.specs.Checks as checks;
ghost use Rattle.th_reader.specs.RawView.{attribute_view, code_view};
ghost use Rattle.th_reader.specs.Reads.{Reads};

use crate::layout::{RawAttribute, Read, Word, read_attributes, read_index, read_part, read_word};
use std::alloc::{AllocError, Global};
use th_base::Fail;
use th_pool::Place;

// How many bytes an entry of an exception table takes (Java specification 4.7.3).
const HANDLER_BYTES: usize = 8;

// The content of a Code attribute (Java specification 4.7.3). Its exception table is skipped, and
// so are its attributes.
#[derive(Clone, Copy, Debug)]
pub(crate) struct RawCode<'a> {
    pub max_stack: u16,
    pub max_locals: u16,
    // How many bytes the code has.
    pub length: Word,
    pub bytes: Place<'a>,
    // How many entries the exception table has.
    pub handlers: u16,
}

// The items of a Code attribute's content.
fn code_items<'a>(alloc: Global, place: Place<'a>) -> Read<'a, RawCode<'a>>
    ensures { Reads code_view result file.code place.entry }
{
    let (max_stack, place) = read_index(place)?;
    let (max_locals, place) = read_index(place)?;
    let (length, place) = read_word(place)?;
    let (bytes, place) = read_part(place, length.value as usize)?;
    let (handlers, place) = read_index(place)?;
    let (_table, place) = read_part(place, HANDLER_BYTES * handlers.value as usize)?;
    let (_attributes, place) = read_attributes(alloc, place)?;
    let code = RawCode {
        max_stack: max_stack.value,
        max_locals: max_locals.value,
        length,
        bytes,
        handlers: handlers.value,
    };
    Ok((code, place))
}

// The content of a Code attribute; `None` exactly where its lengths don't add up.
#[tactic(auto, unfolding(th_syntax::specs::Checks::raw_code))]
pub(crate) fn raw_code<'a>(
    alloc: Global,
    attribute: RawAttribute<'a>,
) -> Result<Option<RawCode<'a>>, AllocError>
    ensures { IfOk result (λ found. option_map code_view found ≡ checks.raw_code (attribute_view attribute.entry)) }
{
    let (code, behind) = match code_items(alloc, attribute.content) {
        Ok(found) => found,
        Err(Fail::Refused(_)) => return Ok(None),
        Err(Fail::NoMemory) => return Err(AllocError),
    };
    if behind.rest.is_empty() {
        return Ok(Some(code));
    }
    Ok(None)
}
