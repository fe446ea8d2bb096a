// The code of methods (Java specification 4.7.3).
ghost use Rattle.std.specs.Prelude.{◌≡◌, ◌&&◌, Some, nat_le, nat_lt};
ghost use Rattle.std.specs.Option.{option_map};
ghost use Rattle.th_syntax.specs.Checks as checks;
ghost use Rattle.th_syntax.specs.ClassGrammar as grammar;
ghost use Rattle.th_syntax.specs.Decoding.{code_flaws};
ghost use Rattle.th_reader.specs.RawView.{attribute_view, class_view, code_view, member_view};
ghost use Rattle.th_reader.specs.Passes.{Makes, front_flaw, refused_flaw};

use crate::attributes::{CODE, check_last, next_named};
use crate::code_layout::{RawCode, raw_code};
use crate::layout::{RawAttribute, RawClass, RawMember};
use std::alloc::Global;
use th_base::Fail;
use th_code::decode;
use th_pool::{Pool, is_class_initialiser};
use th_syntax::laws::class_files::flaws_ascend;
use th_syntax::limit::MOST_CODE_BYTES;
use th_syntax::{ACC_INTERFACE, ACC_NATIVE, Code, Flaw, cause, has_flag};

// Whether code may have this many bytes.
fn is_code_length(length: u32) -> bool
    ensures { result ≡ (nat_lt 0 length && nat_le length MOST_CODE_BYTES) }
{
    0 < length && length <= MOST_CODE_BYTES
}

// The value of a Code attribute's content.
fn code_of(alloc: Global, pool: &Pool, raw: RawCode) -> Result<Code, Fail<Flaw>>
    ensures { Makes (code_flaws pool.now (code_view raw.entry)) (Some (grammar.code_value pool.now (code_view raw.entry))) result }
{
    flaws_ascend();
    if !is_code_length(raw.length.value) {
        return Err(Fail::Refused(Flaw {
            number: cause::CODE_SHAPE,
            offset: raw.length.at,
        }));
    }
    let instrs = decode(alloc, raw.bytes.rest, raw.bytes.at, raw.max_locals, pool)?;
    Ok(Code {
        max_stack: raw.max_stack,
        max_locals: raw.max_locals,
        instrs,
        handlers: u32::from(raw.handlers),
    })
}

// The code of a Code attribute. One whose lengths don't add up is refused at its name.
fn attribute_code(alloc: Global, pool: &Pool, attribute: RawAttribute) -> Result<Code, Fail<Flaw>>
    ensures { Makes (checks.raw_code_flaws pool.now attribute.entry.name.at (checks.raw_code (attribute_view attribute.entry))) (option_map (grammar.code_value pool.now) (checks.raw_code (attribute_view attribute.entry))) result }
{
    match raw_code(alloc, attribute)? {
        Some(raw) => code_of(alloc, pool, raw),
        None => Err(Fail::Refused(Flaw {
            number: cause::ATTRIBUTE,
            offset: attribute.name.at,
        })),
    }
}

// A native method is refused.
fn check_native(method: &RawMember) -> Result<(), Flaw>
    ensures { refused_flaw result ≡ front_flaw (checks.native_flaws (member_view method.now)) }
{
    if has_flag(method.access.value, ACC_NATIVE) {
        return Err(Flaw {
            number: cause::NATIVE,
            offset: method.access.at,
        });
    }
    Ok(())
}

// Whether the name at an index is `<clinit>`.
fn is_class_initialiser_at(pool: &Pool, index: u16) -> bool
    ensures { result ≡ checks.is_class_initialiser_at pool.now index }
{
    match pool.text(index) {
        Some(name) => is_class_initialiser(name.text().as_bytes()),
        None => false,
    }
}

// Whether a method has a Code attribute.
fn has_code(pool: &Pool, method: &RawMember) -> bool
    ensures { result ≡ checks.has_code pool.now (member_view method.now) }
{
    match next_named(pool, CODE, method.attributes.as_slice()) {
        Some(_) => true,
        None => false,
    }
}

// A method of an interface with code, other than `<clinit>`, is refused.
fn check_interface(class: &RawClass, method: &RawMember) -> Result<(), Flaw>
    ensures { refused_flaw result ≡ front_flaw (checks.interface_code_flaws (class_view class.now) (member_view method.now)) }
{
    let pool = &class.pool;
    if has_flag(class.access.value, ACC_INTERFACE)
        && has_code(pool, method)
        && !is_class_initialiser_at(pool, method.name.value)
    {
        return Err(Flaw {
            number: cause::INTERFACE_CODE,
            offset: method.access.at,
        });
    }
    Ok(())
}

// The code among a method's attributes, where it has one.
fn code_among(alloc: Global, pool: &Pool, method: &RawMember) -> Result<Option<Code>, Fail<Flaw>>
    ensures { Makes (checks.method_code_flaws pool.now (checks.codes_of pool.now (member_view method.now))) (grammar.code_among pool.now (checks.codes_of pool.now (member_view method.now))) result }
{
    let Some((first, others)) = next_named(pool, CODE, method.attributes.as_slice()) else {
        return Ok(None);
    };
    let code = attribute_code(alloc, pool, first)?;
    match check_last(pool, CODE, others) {
        Ok(()) => Ok(Some(code)),
        Err(flaw) => Err(Fail::Refused(flaw)),
    }
}

// The code of a method, where it has one.
pub(crate) fn method_code(
    alloc: Global,
    class: &RawClass,
    method: &RawMember,
) -> Result<Option<Code>, Fail<Flaw>>
    ensures { Makes (checks.method_flaws (class_view class.now) (member_view method.now)) (grammar.code_among class.now.pool (checks.codes_of class.now.pool (member_view method.now))) result }
{
    if let Err(flaw) = check_native(method) {
        return Err(Fail::Refused(flaw));
    }
    if let Err(flaw) = check_interface(class, method) {
        return Err(Fail::Refused(flaw));
    }
    code_among(alloc, &class.pool, method)
}
