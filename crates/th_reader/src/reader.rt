// Reading a class file.
ghost use Rattle.std.specs.Prelude.{◌≡◌, ◌<◌, ◌^◌, length, take, IfOk};
ghost use Rattle.std.specs.Str.{bytes_eq};
ghost use Rattle.th_syntax.specs.Flaws.{Ascend};
ghost use Rattle.th_syntax.specs.ClassBytes as file;
ghost use Rattle.th_syntax.specs.declared.refusal.Flaw.{Flaw};
ghost use Rattle.th_syntax.specs.Checks as checks;
ghost use Rattle.th_syntax.specs.ClassGrammar.{IsClassFile};
ghost use Rattle.th_syntax.specs.FirstFlaw.{FirstFlaw};
ghost use Rattle.th_syntax.specs.Reader.{checked_class, reading};
ghost use Rattle.th_pool.specs.Gives.{Answers};
ghost use Rattle.th_reader.specs.RawView.{class_view};
ghost use Rattle.th_reader.specs.Answer.{AnswersFile, IfFileRefused, IsRefusal};

use crate::class_layout::class_items;
use crate::indices::check_indices;
use crate::layout::RawClass;
use crate::names::check_names;
use crate::value::read_value;
use std::alloc::{AllocError, Global};
use th_base::{Fail, Text};
use th_syntax::laws::class_files::{class_reading, flaws_ascend, one_reading};
use th_syntax::{ClassFile, Flaw, Refusal, cause};

// The magic number that a class file begins with (Java specification 4.1).
const MAGIC: [u8; 4] = [0xca, 0xfe, 0xba, 0xbe];

// Whether bytes begin with the magic number.
fn has_magic(bytes: &[u8]) -> bool
    ensures { result ≡ bytes_eq (take 4 bytes.now) file.magic }
{
    if bytes.len() < MAGIC.len() {
        return false;
    }
    let (front, _) = bytes.split_at(MAGIC.len());
    front == MAGIC.as_slice()
}

// The checks of a class whose items are whole, and its value.
fn read_checked(alloc: Global, class: &RawClass) -> Result<ClassFile, Fail<Flaw>>
    requires indices { Ascend (checks.second_pass (class_view class.now)) }
    requires names { Ascend (checks.third_pass (class_view class.now)) }
    requires content { Ascend (checks.fourth_pass (class_view class.now)) }
    ensures { Answers (λ value. value) result (checked_class (class_view class.now)) }
{
    match check_indices(class) {
        Ok(()) => {}
        Err(flaw) => return Err(Fail::Refused(flaw)),
    }
    match check_names(class) {
        Ok(()) => {}
        Err(flaw) => return Err(Fail::Refused(flaw)),
    }
    read_value(alloc, class)
}

// The class file that bytes stand for, or their first flaw.
fn read_bytes(alloc: Global, bytes: &[u8]) -> Result<ClassFile, Fail<Flaw>>
    requires { length bytes.now < 2 ^ 32 }
    ensures { Answers (λ value. value) result (reading bytes.now) }
{
    class_reading();
    flaws_ascend();
    if !has_magic(bytes) {
        return Err(Fail::Refused(Flaw {
            number: cause::NOT_CLASS,
            offset: 0,
        }));
    }
    let (class, behind) = class_items(alloc, bytes)?;
    if !behind.rest.is_empty() {
        return Err(Fail::Refused(Flaw {
            number: cause::TRAILING,
            offset: behind.at,
        }));
    }
    read_checked(alloc, &class)
}

// A flaw of a file, under the file's name.
fn refusal(alloc: Global, file: &Text, flaw: Flaw) -> Result<Refusal, AllocError>
    ensures { IfOk result (λ refusal. IsRefusal file.now flaw refusal) }
{
    Ok(Refusal {
        number: flaw.number,
        class: file.copy(alloc)?,
        member: Text::new(alloc)?,
        offset: flaw.offset,
    })
}

/// The class file that bytes stand for, or why they are refused (Java specification 4).
///
/// `Ok` comes exactly where the bytes are a class file, with the one value that they stand for. A
/// refusal comes exactly where they are none: it has the first flaw, by pass, then by offset, then by
/// number, at its offset in the file, the file's name as given, and no member. Each name of the value
/// shares the bytes of one copy per entry of the constant pool. Time and memory are in proportion to
/// the bytes: space is taken for items that lie within them alone, however great a count is.
pub fn read_class(alloc: Global, file: &Text, bytes: &[u8]) -> Result<ClassFile, Fail<Refusal>>
    requires { length bytes.now < 2 ^ 32 }
    ensures value { IfOk result (IsClassFile bytes.now) }
    ensures flaw { IfFileRefused result (λ refusal. (flaw : Flaw) × FirstFlaw bytes.now flaw × IsRefusal file.now flaw refusal) }
    ensures exact { AnswersFile file.now result (reading bytes.now) }
{
    one_reading();
    match read_bytes(alloc, bytes) {
        Ok(class) => Ok(class),
        Err(Fail::Refused(flaw)) => Err(Fail::Refused(refusal(alloc, file, flaw)?)),
        Err(Fail::NoMemory) => Err(Fail::NoMemory),
    }
}
