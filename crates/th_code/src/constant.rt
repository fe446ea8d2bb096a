// Constants of the pool that instructions load.
ghost use Rattle.std.specs.Prelude.{◌≡◌};
ghost use Rattle.th_syntax.specs.CodeBytes as code;
ghost use Rattle.th_syntax.specs.PoolChecks as checks;
ghost use Rattle.th_code.specs.Judged.{Gets, said};

use std::alloc::Global;
use th_base::Fail;
use th_pool::Pool;
use th_syntax::{Instr, cause, tag};

// Whether an index leads to an entry of this tag.
fn has_tag(pool: &Pool, index: u16, expected: u8) -> bool
    ensures { result ≡ checks.has_tag pool.now index expected }
{
    match pool.tag(index) {
        Some(found) => found == expected,
        None => false,
    }
}

// What `ldc` and `ldc_w` load: an Integer or a String.
#[tactic(auto, using(crate::proofs::Loaded::loads))]
pub(crate) fn load(alloc: Global, pool: &Pool, index: u16) -> Result<Instr, Fail<u8>>
    ensures { Gets result (said (code.load pool.now index)) }
{
    if let Some(value) = pool.integer(index) {
        return Ok(Instr::Int(value));
    }
    if let Some(text) = pool.string_text(index) {
        let text = text.text().copy(alloc)?;
        return Ok(Instr::Str(text));
    }
    if has_tag(pool, index, tag::FLOAT) {
        return Err(Fail::Refused(cause::FLOAT_TYPE));
    }
    Err(Fail::Refused(cause::OPCODE))
}

// What `ldc2_w` loads: a Long.
#[tactic(auto, using(crate::proofs::Loaded::wide_loads))]
pub(crate) fn load_wide(pool: &Pool, index: u16) -> Result<Instr, Fail<u8>>
    ensures { Gets result (said (code.load_wide pool.now index)) }
{
    if let Some(value) = pool.long(index) {
        return Ok(Instr::Long(value));
    }
    if has_tag(pool, index, tag::DOUBLE) {
        return Err(Fail::Refused(cause::FLOAT_TYPE));
    }
    Err(Fail::Refused(cause::OPCODE))
}
