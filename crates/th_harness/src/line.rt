// The lines of a script.
ghost use Rattle.std.specs.Prelude.{◌≡◌, ◌<◌, [], ◌∷◌, true, IfSome, length};
ghost use Rattle.std.specs.List.{position_from};
ghost use Rattle.std.specs.Option.{option_map, option_map_or};
ghost use Rattle.std.specs.Str.{bytes_eq};
ghost use Rattle.th_harness.specs.Script.{handler_named, may_take, bundle_in, launch_in, call_in, call_of, launches, calls, order_of, order_in, is_bad_line, words_of};
ghost use Rattle.th_harness.specs.Asked.{asked};

use crate::number_word::number_in;
use th_base::{HANDLERS, TAKES_BUNDLE};
use th_syntax::Event;

// What a line asks for.
#[derive(Clone, Copy)]
pub(crate) enum Order<'a> {
    // A launch of the class of this name.
    Launch(&'a [u8]),
    // A call of a handler.
    Call(Event),
}

// The first word of a text, and the text behind the space that ends it.
#[derive(Clone, Copy)]
struct Words<'a> {
    word: &'a [u8],
    rest: Option<&'a [u8]>,
}

fn cut(text: &[u8]) -> Words<'_>
    ensures { words_of text.now ≡ result.word.now ∷ option_map_or (λ rest. words_of rest.now) result.rest [] }
{
    match text.iter().position(|byte| *byte == b' ') {
        Some(at) => Words {
            word: &text[..at],
            rest: Some(&text[at + 1..]),
        },
        None => Words {
            word: text,
            rest: None,
        },
    }
}

// Whether the words behind a handler's name ask for a fresh Bundle; none where they are something else.
fn read_bundle(text: Option<&[u8]>) -> Option<bool>
    ensures { result ≡ bundle_in (option_map_or (λ t. words_of t.now) text.entry []) }
{
    match text {
        Some(text) => read_last_word(text),
        None => Some(false),
    }
}

fn read_last_word(text: &[u8]) -> Option<bool>
    ensures { result ≡ bundle_in (words_of text.now) }
{
    let last = cut(text);
    match last.rest {
        Some(_) => None,
        None => {
            if last.word == b"bundle".as_slice() {
                Some(true)
            } else {
                None
            }
        }
    }
}

// The place of the handler of a name.
fn handler_named(name: &[u8]) -> Option<usize>
    ensures value { result ≡ handler_named name.now }
    ensures within { IfSome result (λ place. place < 8) }
{
    place_named(&HANDLERS, name)
}

// The place of the first of these handlers that has this name.
fn place_named(handlers: &[(&str, &str)], name: &[u8]) -> Option<usize>
    ensures value { result ≡ position_from (λ h. bytes_eq h.0.now name.now) 0 handlers.now }
    ensures within { IfSome result (λ place. place < length handlers.now) }
{
    handlers
        .iter()
        .position(|handler| handler.0.as_bytes() == name)
}

// Whether the handler of a name takes a Bundle.
fn takes_bundle(name: &[u8]) -> bool
    ensures { result ≡ may_take true name.now }
{
    HANDLERS.iter().any(|handler| {
        handler.0.as_bytes() == name && handler.1.as_bytes() == TAKES_BUNDLE.as_bytes()
    })
}

// A call of a handler, with a fresh Bundle or with null.
fn call_of(object: &[u8], name: &[u8], bundle: bool) -> Option<Event>
    ensures { option_map (λ event. calls event) result ≡ call_of object.now name.now bundle }
{
    if bundle && !takes_bundle(name) {
        return None;
    }
    match (number_in(object), handler_named(name)) {
        (Some(object), Some(place)) => Some(Event::Handler {
            object,
            handler: place as u8,
            bundle,
        }),
        _ => None,
    }
}

// The event that the words behind `event` ask for.
fn read_call(text: &[u8]) -> Option<Event>
    ensures { option_map (λ event. calls event) result ≡ call_in (words_of text.now) }
{
    let object = cut(text);
    match object.rest {
        Some(rest) => read_handler(object.word, rest),
        None => None,
    }
}

// The event that the words behind an object's number ask for.
fn read_handler(object: &[u8], text: &[u8]) -> Option<Event>
    ensures { option_map (λ event. calls event) result ≡ call_in (object.now ∷ words_of text.now) }
{
    let name = cut(text);
    match read_bundle(name.rest) {
        Some(bundle) => call_of(object, name.word, bundle),
        None => None,
    }
}

// The name of the class that the words behind `launch` ask for.
fn read_launch(text: &[u8]) -> Option<&[u8]>
    ensures { option_map (λ name. launches name.now) result ≡ launch_in (words_of text.now) }
{
    let name = cut(text);
    match name.rest {
        Some(_) => None,
        None => {
            if name.word.len() >= 1 {
                Some(name.word)
            } else {
                None
            }
        }
    }
}

// What a line asks for; none where it has no such form.
pub(crate) fn read_order(line: &[u8]) -> Option<Order<'_>>
    ensures { option_map asked result ≡ order_in line.now }
{
    let verb = cut(line);
    match verb.rest {
        Some(text) => read_order_of(verb.word, text),
        None => None,
    }
}

// What a word and those behind it ask for.
fn read_order_of<'a>(verb: &[u8], text: &'a [u8]) -> Option<Order<'a>>
    ensures { option_map asked result ≡ order_of (verb.now ∷ words_of text.now) }
{
    if verb == b"launch".as_slice() {
        match read_launch(text) {
            Some(name) => Some(Order::Launch(name)),
            None => None,
        }
    } else if verb == b"event".as_slice() {
        match read_call(text) {
            Some(event) => Some(Order::Call(event)),
            None => None,
        }
    } else {
        None
    }
}

// Whether a line isn't empty, and asks for nothing.
pub(crate) fn is_bad_line(line: &[u8]) -> bool
    ensures { result ≡ is_bad_line line.now }
{
    !line.is_empty() && read_order(line).is_none()
}
