// The lines on the errors.
ghost use Rattle.std.specs.Prelude.{◌≡◌, IfOk};
ghost use Rattle.th_top.specs.Lines.{cause_name, program_cause_name, or_hyphen, read_fault_line, reason_of, refused_line, script_line};

use std::alloc::{AllocError, Global};
use th_base::{Name, Text};
use th_harness::ScriptError;
use th_kinds::KIND_CONFLICT;
use th_syntax::{Refusal, cause};
use th_words::UsageFault;

// The line of words that are no command.
pub(crate) fn usage_line(alloc: Global, fault: UsageFault) -> Result<Text, AllocError>
    ensures { IfOk result (λ line. line ≡ reason_of fault) }
{
    let line = match fault {
        UsageFault::NoCommand => b"usage: no command\n".as_slice(),
        UsageFault::UnknownCommand => b"usage: unknown command\n".as_slice(),
        UsageFault::BadWords => b"usage: bad words\n".as_slice(),
    };
    Text::from_slice(alloc, line)
}

// The line of a fault of a script.
pub(crate) fn script_line(alloc: Global, error: ScriptError) -> Result<Text, AllocError>
    ensures { IfOk result (λ line. line ≡ script_line error) }
{
    let line = match error {
        ScriptError::Line(number) => format!(in alloc; "usage: script line {number}\n")?,
        ScriptError::Event(number) => format!(in alloc; "usage: script event {number}\n")?,
    };
    Text::from_vec(line.into_bytes())
}

// The line of a file that isn't read.
pub(crate) fn read_fault_line(alloc: Global, name: &Name) -> Result<Text, AllocError>
    ensures { IfOk result (λ line. line ≡ read_fault_line name.now) }
{
    let name = name.as_str();
    let line = format!(in alloc; "read fault {name}\n")?;
    Text::from_vec(line.into_bytes())
}

// The name of a cause that lies in several class files together, by its number.
#[tactic(auto, unfolding(crate::specs::Lines::program_cause_name))]
fn program_cause_name(number: u8) -> &'static str
    ensures { result.now ≡ program_cause_name number }
{
    match number {
        KIND_CONFLICT => "Kinds",
        cause::DUPLICATE => "Duplicate",
        cause::BUILT_IN => "BuiltIn",
        cause::MISSING_CLASS => "MissingClass",
        cause::MISSING_MEMBER => "MissingMember",
        cause::SUPER => "Super",
        cause::MEMBER => "Member",
        cause::LIMIT => "Limit",
        _ => "",
    }
}

// The name of a cause, by its number.
#[tactic(auto, unfolding(crate::specs::Lines::cause_name))]
fn cause_name(number: u8) -> &'static str
    ensures { result.now ≡ cause_name number }
{
    match number {
        cause::NOT_CLASS => "NotClass",
        cause::TRUNCATED => "Truncated",
        cause::VERSION => "Version",
        cause::POOL => "Pool",
        cause::TRAILING => "Trailing",
        cause::NAME => "Name",
        cause::FLOAT_TYPE => "FloatType",
        cause::NATIVE => "Native",
        cause::ATTRIBUTE => "Attribute",
        cause::OPCODE => "Opcode",
        cause::CODE_SHAPE => "CodeShape",
        cause::INTERFACE_CODE => "InterfaceCode",
        _ => program_cause_name(number),
    }
}

// A text, and a hyphen in place of an empty one.
fn or_hyphen(text: &[u8]) -> &[u8]
    ensures { result.now ≡ or_hyphen text.now }
{
    match text {
        [] => b"-".as_slice(),
        [_, ..] => text,
    }
}

// The bytes of the line of a refusal.
fn refused_bytes(alloc: Global, refusal: &Refusal) -> Result<Vec<u8>, AllocError>
    ensures { IfOk result (λ line. line.items ≡ refused_line refusal.now) }
{
    let number = refusal.number;
    let name = cause_name(number);
    let mut line = format!(in alloc; "refused E{number} {name} ")?.into_bytes();
    line.extend_from_slice(or_hyphen(refusal.class.as_bytes()))?;
    line.extend_from_slice(b" ")?;
    line.extend_from_slice(or_hyphen(refusal.member.as_bytes()))?;
    let offset = refusal.offset;
    let end = format!(in alloc; " {offset}\n")?;
    line.extend_from_slice(end.as_bytes())?;
    Ok(line)
}

// The line of a refusal.
pub(crate) fn refused_line(alloc: Global, refusal: &Refusal) -> Result<Text, AllocError>
    ensures { IfOk result (λ line. line ≡ refused_line refusal.now) }
{
    Text::from_vec(refused_bytes(alloc, refusal)?)
}
