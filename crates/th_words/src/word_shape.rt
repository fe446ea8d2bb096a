// The check of the words, before `clap` reads them.
ghost use Rattle.std.specs.Prelude.{◌≡◌, ◌+◌, ◌<◌, drop, length, map, is_some, string_bytes};
ghost use Rattle.std.specs.Str.{bytes_eq};
ghost use Rattle.std.specs.List.{list_any};
ghost use Rattle.th_words.specs.Pieces.{is_plain, option_word, pieces_of};

// Whether a word may be a value or an operand.
fn may_be_value(word: &str) -> bool
    ensures { result ≡ is_plain word.now }
{
    match word.as_bytes() {
        [] => false,
        [first, ..] => *first != b'-',
    }
}

// Whether a word is the option of this name.
fn is_option_word(word: &str, name: &str) -> bool
    ensures { result ≡ bytes_eq word.now (option_word name.now) }
{
    match word.as_bytes() {
        [b'-', b'-', rest @ ..] => rest == name.as_bytes(),
        _ => false,
    }
}

// Whether a word is an option of one of these names.
fn is_option(names: &[&str], word: &str) -> bool
    ensures { result ≡ list_any (λ name. bytes_eq word.now (option_word name.now)) names.now }
{
    names.iter().any(|name| is_option_word(word, name))
}

// Whether the word at a place stands again after it.
fn stands_again(words: &[String], at: usize, word: &str) -> bool
    requires { at < length words.now }
    ensures { result ≡ list_any (λ other. bytes_eq (string_bytes other) word.now) (drop (at + 1) words.now) }
{
    words
        .iter()
        .skip(at + 1)
        .any(|other| other.as_str() == word)
}

// Whether the words are options of these names, each at most once and with a value, and operands.
pub(crate) fn is_well_formed(names: &[&str], words: &[String]) -> bool
    ensures { result ≡ is_some (pieces_of (map (λ n. n.now) names.now) (map string_bytes words.now)) }
{
    let mut waits = false;
    for (i, word) in words.iter().enumerate() {
        if !waits && is_option(names, word.as_str()) {
            if stands_again(words, i, word.as_str()) {
                return false;
            }
            waits = true;
        } else if may_be_value(word.as_str()) {
            waits = false;
        } else {
            return false;
        }
    }
    !waits
}
