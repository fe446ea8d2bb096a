// The list and the class files, read in order.
ghost use Rattle.std.specs.Prelude.{◌≡◌, ◌<◌, ◌≤◌, ◌-◌, ◌^◌, ◌++◌, IfOk, IsTrue, Some, length, map};
ghost use Rattle.th_input.specs.Input.{MayHold, IsUnread, EndsWithin, EndsAmong, Ends, IsInput, IsInputOf, AreRead, IfStopped, faults_after_unread, FailedAfterUnread};

use crate::fetching::{FetchFault, read_file};
use crate::listing::{lines_of, names_on};
use crate::{MOST_BYTES, MOST_CLASS_FILES, MOST_FILE_BYTES, Unread};
use std::alloc::{AllocError, Global};
use th_base::{Fail, Name, Seq, Text};
use th_outside::Files;

// What was read of a file, where it isn't too long.
fn short(name: Name, bytes: Vec<u8>) -> Result<Text, Fail<Unread>>
    ensures whole { IfOk result (λ text. text ≡ bytes.items) }
    ensures short { IfOk result (λ text. length text ≤ MOST_FILE_BYTES) }
    ensures long { IfStopped result (λ unread. (MOST_FILE_BYTES < length bytes.items) × (unread ≡ Unread.TooManyBytes name)) }
{
    if bytes.len() > MOST_FILE_BYTES {
        return Err(Fail::Refused(Unread::TooManyBytes(name)));
    }
    Ok(Text::from_vec(bytes)?)
}

// Reads a file that may not be too long.
pub(crate) fn fetch<F: Files>(
    alloc: Global,
    files: &mut F,
    name: &str,
) -> Result<Text, Fail<Unread>>
    requires { F.faults files.old < 2 ^ 64 - 1 }
    ensures held { IfOk result (MayHold (F.told files.old) name.now) }
    ensures short { IfOk result (λ bytes. length bytes ≤ MOST_FILE_BYTES) }
    ensures unread { IfStopped result (IsUnread (F.told files.old) name.now) }
    ensures counted { F.faults files.new ≡ faults_after_unread (F.faults files.old) result }
    ensures failed { FailedAfterUnread (F.failed files.old) result (F.failed files.new) }
    ensures steady { IsTrue (F.steady files.old) → F.faults files.new ≡ F.faults files.old }
    ensures same_files { F.told files.new ≡ F.told files.old }
    ensures same_steady { F.steady files.new ≡ F.steady files.old }
{
    let named = Name::from_str(alloc, name)?;
    match read_file(alloc, files, name) {
        Ok(bytes) => short(named, bytes),
        Err(FetchFault::Missing) => Err(Fail::Refused(Unread::Missing(named))),
        Err(FetchFault::Failed) => Err(Fail::Refused(Unread::Failed(named))),
        Err(FetchFault::Memory) => Err(Fail::NoMemory),
    }
}

// Reads class files, in order, that may not be too long together.
pub(crate) fn fetch_all<F: Files>(
    alloc: Global,
    files: &mut F,
    names: &[&str],
) -> Result<Seq<(Text, Text)>, Fail<Unread>>
    requires { F.faults files.old < 2 ^ 64 - 1 }
    ensures read { IfOk result (AreRead (F.told files.old) (map (λ name. name.now) names.entry.now)) }
    ensures unread { IfStopped result (EndsWithin (F.told files.old) (map (λ name. name.now) names.entry.now)) }
    ensures counted { F.faults files.new ≡ faults_after_unread (F.faults files.old) result }
    ensures failed { FailedAfterUnread (F.failed files.old) result (F.failed files.new) }
    ensures steady { IsTrue (F.steady files.old) → F.faults files.new ≡ F.faults files.old }
    ensures same_files { F.told files.new ≡ F.told files.old }
{
    let mut contents = Seq::new(alloc);
    let mut total = 0;
    for name in names {
        let bytes = fetch(alloc, files, name)?;
        total += bytes.len();
        if total > MOST_BYTES {
            return Err(Fail::Refused(Unread::TooManyBytes(Name::from_str(alloc, name)?)));
        }
        contents.push((Text::from_slice(alloc, name.as_bytes())?, bytes))?;
    }
    Ok(contents)
}

// The operands, and behind them the names that are listed.
pub(crate) fn all_names<'a>(
    alloc: Global,
    operands: &'a [Name],
    listed: &[&'a str],
) -> Result<Vec<&'a str>, AllocError>
    ensures { IfOk result (λ names. map (λ name. name.now) names.items ≡ operands.now ++ map (λ name. name.now) listed.entry.now) }
{
    let mut names = Vec::new(alloc);
    for name in operands {
        names.push(name.as_str())?;
    }
    names.extend_from_slice(listed)?;
    Ok(names)
}

// Reads the class files of these operands, and behind them those that are listed.
fn read_named<F: Files>(
    alloc: Global,
    files: &mut F,
    operands: &[Name],
    listed: &[&str],
) -> Result<Seq<(Text, Text)>, Fail<Unread>>
    requires { F.faults files.old < 2 ^ 64 - 1 }
    ensures read { IfOk result (IsInputOf (F.told files.old) (operands.now ++ map (λ name. name.now) listed.entry.now)) }
    ensures unread { IfStopped result (EndsAmong (F.told files.old) (operands.now ++ map (λ name. name.now) listed.entry.now)) }
    ensures counted { F.faults files.new ≡ faults_after_unread (F.faults files.old) result }
    ensures failed { FailedAfterUnread (F.failed files.old) result (F.failed files.new) }
    ensures steady { IsTrue (F.steady files.old) → F.faults files.new ≡ F.faults files.old }
    ensures same_files { F.told files.new ≡ F.told files.old }
{
    let names = all_names(alloc, operands, listed)?;
    if names.len() > MOST_CLASS_FILES {
        return Err(Fail::Refused(Unread::TooManyFiles));
    }
    fetch_all(alloc, files, names.as_slice())
}

// Reads the class files of these operands, and behind them those of a list that was read.
fn read_listed<F: Files>(
    alloc: Global,
    files: &mut F,
    operands: &[Name],
    list: &str,
    bytes: &[u8],
) -> Result<Seq<(Text, Text)>, Fail<Unread>>
    requires count { F.faults files.old < 2 ^ 64 - 1 }
    requires held { MayHold (F.told files.old) list.now bytes.now }
    requires short { length bytes.now ≤ MOST_FILE_BYTES }
    ensures read { IfOk result (IsInput (F.told files.old) (Some list.now) operands.now) }
    ensures unread { IfStopped result (Ends (F.told files.old) (Some list.now) operands.now) }
    ensures counted { F.faults files.new ≡ faults_after_unread (F.faults files.old) result }
    ensures failed { FailedAfterUnread (F.failed files.old) result (F.failed files.new) }
    ensures steady { IsTrue (F.steady files.old) → F.faults files.new ≡ F.faults files.old }
    ensures same_files { F.told files.new ≡ F.told files.old }
{
    let lines = lines_of(alloc, bytes)?;
    match names_on(alloc, lines.as_slice()) {
        Ok(listed) => read_named(alloc, files, operands, listed.as_slice()),
        Err(Fail::Refused(offset)) => Err(Fail::Refused(Unread::BadLine {
            list: Name::from_str(alloc, list)?,
            offset,
        })),
        Err(Fail::NoMemory) => Err(Fail::NoMemory),
    }
}

/// Reads the list of names, where one is given, and then the class files of the operands and of the
/// list, in order: each with its name and its content.
///
/// A list has a name a line; lines end with a line feed, which the last may lack, and empty ones count
/// for nothing. The reading ends at the first of these: a file that the store lacks; a call of the store
/// that fails; a list that is too long, or whose line isn't UTF-8, at the line's offset; too many names,
/// before any class file is read; a class file that is too long, or with which there are too many bytes.
/// A refusal has no offset and no member but these. No call is made on the store after one that failed.
pub fn read_class_files<F: Files>(
    alloc: Global,
    files: &mut F,
    list: &Option<Name>,
    operands: &[Name],
) -> Result<Seq<(Text, Text)>, Fail<Unread>>
    requires { F.faults files.old < 2 ^ 64 - 1 }
    ensures read { IfOk result (IsInput (F.told files.old) list.now operands.now) }
    ensures unread { IfStopped result (Ends (F.told files.old) list.now operands.now) }
    ensures counted { F.faults files.new ≡ faults_after_unread (F.faults files.old) result }
    ensures failed { FailedAfterUnread (F.failed files.old) result (F.failed files.new) }
    ensures steady { IsTrue (F.steady files.old) → F.faults files.new ≡ F.faults files.old }
    ensures same_files { F.told files.new ≡ F.told files.old }
{
    match list {
        Some(list) => {
            let bytes = fetch(alloc, files, list.as_str())?;
            read_listed(alloc, files, operands, list.as_str(), bytes.as_bytes())
        }
        None => read_named(alloc, files, operands, &[]),
    }
}
