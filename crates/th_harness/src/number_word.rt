// Numbers in scripts.
ghost use Rattle.std.specs.Prelude.{◌≡◌, ◌≤◌, true, length};
ghost use Rattle.std.specs.Char.{is_ascii_digit};
ghost use Rattle.std.specs.List.{list_all};
ghost use Rattle.std.specs.Str.Parse.{digits_value};
ghost use Rattle.th_harness.specs.Script.{number_in};

/// A number has no more digits, leading zeros included.
pub const MOST_DIGITS: usize = 5;

// Whether all bytes are decimal digits.
fn are_digits(word: &[u8]) -> bool
    ensures { result ≡ list_all is_ascii_digit word.now }
{
    word.iter().all(|byte| byte.is_ascii_digit())
}

// The number that decimal digits write.
fn value_of(word: &[u8]) -> u32
    requires digits { list_all is_ascii_digit word.now ≡ true }
    requires few { length word.now ≤ MOST_DIGITS }
    ensures { result ≡ digits_value 10 word.now }
{
    let mut value = 0;
    for digit in word {
        value = value * 10 + (*digit - b'0') as u32;
    }
    value
}

// The number that a word of 1 to 5 decimal digits writes; none for any other word.
pub(crate) fn number_in(word: &[u8]) -> Option<u32>
    ensures { result ≡ number_in word.now }
{
    let length = word.len();
    if are_digits(word) && 1 <= length && length <= MOST_DIGITS {
        Some(value_of(word))
    } else {
        None
    }
}
