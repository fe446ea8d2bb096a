// Operands of instructions. One that goes past the code fails the check of the code's shape.
ghost use Rattle.std.specs.Prelude.{◌≡◌};
ghost use Rattle.th_syntax.specs.ClassBytes as file;
ghost use Rattle.th_pool.specs.Gives.{bytes_at, number_at};
ghost use Rattle.th_code.specs.Judged.{Takes, operand};

use th_base::Fail;
use th_pool::{Place, run, u1, u2, u4};
use th_syntax::Flaw;
use th_syntax::cause::CODE_SHAPE;

/// What was taken, and the place behind it, or the number of the check that fails.
pub type Taken<'a, T> = Result<(T, Place<'a>), Fail<u8>>;

// An operand of one byte.
#[tactic(auto, using(crate::proofs::Operands::taken))]
pub(crate) fn byte(place: Place) -> Taken<u8>
    ensures { Takes (number_at place.entry.at) result (operand file.u1 place.entry.at place.entry.rest.now) }
{
    match u1(place) {
        Ok(found) => Ok(found),
        Err(_) => Err(Fail::Refused(CODE_SHAPE)),
    }
}

// An operand of two bytes.
#[tactic(auto, using(crate::proofs::Operands::taken))]
pub(crate) fn short(place: Place) -> Taken<u16>
    ensures { Takes (number_at place.entry.at) result (operand file.u2 place.entry.at place.entry.rest.now) }
{
    match u2(place) {
        Ok(found) => Ok(found),
        Err(_) => Err(Fail::Refused(CODE_SHAPE)),
    }
}

// An operand of four bytes.
#[tactic(auto, using(crate::proofs::Operands::taken))]
pub(crate) fn word(place: Place) -> Taken<u32>
    ensures { Takes (number_at place.entry.at) result (operand file.u4 place.entry.at place.entry.rest.now) }
{
    match u4(place) {
        Ok(found) => Ok(found),
        Err(_) => Err(Fail::Refused(CODE_SHAPE)),
    }
}

// So many bytes.
#[tactic(auto, using(crate::proofs::Operands::taken))]
pub(crate) fn bytes<'a>(place: Place<'a>, count: usize) -> Taken<'a, &'a [u8]>
    ensures { Takes (bytes_at place.entry.at) result (operand (file.run count) place.entry.at place.entry.rest.now) }
{
    match run(place, count) {
        Ok(found) => Ok(found),
        Err(_) => Err(Fail::Refused(CODE_SHAPE)),
    }
}
