// What the values of options stand for.
ghost use Rattle.std.specs.Prelude.{◌≡◌, IfOk, option_map, map, true};
ghost use Rattle.std.specs.Char.{is_ascii_digit};
ghost use Rattle.std.specs.List.{list_all};
ghost use Rattle.std.specs.Str.Parse.{digits_value};
ghost use Rattle.th_words.specs.Values.{is_number, number_of, value_of, number_in, lifecycle_name, number, lifecycle};

use std::alloc::{AllocError, Global};
use th_base::{Lifecycle, Name, Seq};

// A number has no more digits, leading zeros included.
const MOST_DIGITS: usize = 9;

// Whether a text has decimal digits alone.
fn has_digits_alone(text: &str) -> bool
    ensures { result ≡ list_all is_ascii_digit text.now }
{
    text.bytes().all(|byte| byte.is_ascii_digit())
}

// Whether a text is 1 to 9 decimal digits.
fn writes_number(text: &str) -> bool
    ensures { result ≡ is_number text.now }
{
    let length = text.len();
    has_digits_alone(text) && 1 <= length && length <= MOST_DIGITS
}

// The number that a text of 1 to 9 decimal digits writes.
fn number_written(text: &str) -> u32
    requires { is_number text.now ≡ true }
    ensures { result ≡ digits_value 10 text.now }
{
    let Ok(value) = text.parse::<u32>() else {
        unreachable!()
    };
    value
}

// The number that a text of 1 to 9 decimal digits writes, where it lies in the range.
fn number_within(text: &str, lowest: u32, highest: u32) -> Option<u32>
    ensures { result ≡ number_of lowest highest text.now }
{
    if !writes_number(text) {
        return None;
    }
    let value = number_written(text);
    if lowest <= value && value <= highest {
        Some(value)
    } else {
        None
    }
}

// The value of an option for a number; the default where it isn't given, and none for another text.
pub(crate) fn number_given(
    text: Option<&str>,
    lowest: u32,
    highest: u32,
    default: u32,
) -> Option<u32>
    ensures { option_map (λ n. number n) result ≡ value_of (number_in lowest highest default) (option_map (λ t. t.now) text.entry) }
{
    match text {
        None => Some(default),
        Some(text) => number_within(text, lowest, highest),
    }
}

// The value of the option for a lifecycle; any where it isn't given, and none for another text.
pub(crate) fn lifecycle_given(text: Option<&str>) -> Option<Lifecycle>
    ensures { option_map (λ l. lifecycle l) result ≡ value_of lifecycle_name (option_map (λ t. t.now) text.entry) }
{
    match text {
        None => Some(Lifecycle::Any),
        Some("any") => Some(Lifecycle::Any),
        Some("chart") => Some(Lifecycle::Chart),
        Some(_) => None,
    }
}

// A copy of the value of an option for a file, where it is given.
pub(crate) fn file_given(alloc: Global, text: Option<&str>) -> Result<Option<Name>, AllocError>
    ensures { IfOk result (λ name. name ≡ option_map (λ t. t.now) text.entry) }
{
    match text {
        None => Ok(None),
        Some(text) => Ok(Some(Name::from_str(alloc, text)?)),
    }
}

// A copy of each text, as a name.
pub(crate) fn names_of(alloc: Global, texts: &[&str]) -> Result<Seq<Name>, AllocError>
    ensures { IfOk result (λ names. names ≡ map (λ t. t.now) texts.entry.now) }
{
    let mut names = Seq::new(alloc);
    for text in texts {
        names.push(Name::from_str(alloc, text)?)?;
    }
    Ok(names)
}
