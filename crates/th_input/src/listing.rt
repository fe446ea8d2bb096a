// What the lines of a list name.
ghost use Rattle.std.specs.Prelude.{◌≡◌, ◌<◌, ◌+◌, ◌^◌, ◌++◌, IsUtf8, IfOk, MatchOption, length, map};
ghost use Rattle.std.specs.List.{AllByRecursion};
ghost use Rattle.th_input.specs.Input.{IfStopped};
ghost use Rattle.th_input.specs.Listing.{lines_of, names_on, IsFirstBad, bytes_of};

use std::alloc::{AllocError, Global};
use std::str;
use th_base::Fail;

// The lines of a list.
pub(crate) fn lines_of(alloc: Global, bytes: &[u8]) -> Result<Vec<&[u8]>, AllocError>
    ensures { IfOk result (λ lines. map (λ line. line.now) lines.items ≡ lines_of bytes.now) }
{
    bytes.split(|byte| *byte == b'\n').collect(alloc)
}

// The name on a line; none where the line isn't UTF-8.
fn name_on(line: &[u8]) -> Option<&str>
    ensures { MatchOption result (IsUtf8 line.now → ⊥) (λ name. (name.now ≡ line.now) × IsUtf8 line.now) }
{
    match str::from_utf8(line) {
        Ok(name) => Some(name),
        Err(_) => None,
    }
}

// The names on lines, or the offset of the first line that isn't UTF-8.
pub(crate) fn names_on<'a>(alloc: Global, lines: &[&'a [u8]]) -> Result<Vec<&'a str>, Fail<u32>>
    requires { bytes_of (map (λ line. line.now) lines.now) < 2 ^ 32 }
    ensures names { IfOk result (λ names. map (λ name. name.now) names.items ≡ names_on (map (λ line. line.now) lines.entry.now)) }
    ensures good { IfOk result (λ _. AllByRecursion IsUtf8 (map (λ line. line.now) lines.entry.now)) }
    ensures bad { IfStopped result (IsFirstBad (map (λ line. line.now) lines.entry.now)) }
{
    let mut names = Vec::new(alloc);
    let mut at = 0;
    for line in lines {
        let Some(name) = name_on(line) else {
            return Err(Fail::Refused(at));
        };
        if !name.is_empty() {
            names.push(name)?;
        }
        at += line.len() as u32 + 1;
    }
    Ok(names)
}
