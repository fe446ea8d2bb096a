// Refusals of classes.
ghost use Rattle.std.specs.Prelude.{◌≡◌, [], ◌∷◌};
ghost use Rattle.th_syntax.specs.Flaws.{unless};
ghost use Rattle.th_syntax.specs.LinkChecks.{refusal_of, refusal_at};
ghost use Rattle.th_linker.specs.Checking.{Checks};

use std::alloc::Global;
use th_base::{Fail, Text};
use th_syntax::{ClassFile, Refusal};

// A class is refused by the number of a cause, the member or name at fault and an offset in code.
pub(crate) fn refuse(
    alloc: Global,
    number: u8,
    class: &Text,
    member: Text,
    offset: u32,
) -> Result<(), Fail<Refusal>>
    ensures { Checks result (refusal_of number class.now member offset ∷ []) }
{
    let class = class.copy(alloc)?;
    Err(Fail::Refused(Refusal {
        number,
        class,
        member,
        offset,
    }))
}

// A class is refused by the number of a cause and a name that it names, unless a check holds.
pub(crate) fn check_name(
    alloc: Global,
    holds: bool,
    number: u8,
    class: &ClassFile,
    name: &Text,
) -> Result<(), Fail<Refusal>>
    ensures { Checks result (unless holds (refusal_at number class.now name.now)) }
{
    if holds {
        return Ok(());
    }
    refuse(alloc, number, &class.name, name.copy(alloc)?, 0)
}

// A class is refused by the number of a cause alone, unless a check holds.
pub(crate) fn check_class(
    alloc: Global,
    holds: bool,
    number: u8,
    class: &ClassFile,
) -> Result<(), Fail<Refusal>>
    ensures { Checks result (unless holds (refusal_at number class.now [])) }
{
    if holds {
        return Ok(());
    }
    refuse(alloc, number, &class.name, Text::new(alloc)?, 0)
}
