// The values that `clap` reads of the words.
ghost use Rattle.std.specs.Prelude.{◌≡◌, IfOk, IfErr, IsNone, IsSome, map, string_bytes, true, false};
ghost use Rattle.std.specs.List.{list_all};
ghost use Rattle.clap.specs.Words.{app_of, found_of, kind_of, matches_of, rows_of, rule_of, takes};
ghost use Rattle.th_words.specs.Pieces.{pieces_of};
ghost use Rattle.th_words.specs.Told.{option_rule, operands_rule, app_told, is_option_name, IsReadFrom};
ghost use Rattle.th_words.specs.Reading.{IfRefused};

use crate::UsageFault;
use crate::options::OPERANDS;
use crate::word_shape::is_well_formed;
use clap::error::ErrorKind;
use clap::{Arg, ArgAction, ArgMatches, Command, Error};
use std::alloc::{AllocError, Global};
use th_base::Fail;

// An option with one value, for `clap`.
fn option_arg<'a>(alloc: Global, name: &'a str) -> Arg<'a>
    ensures rule { rule_of result ≡ option_rule name.entry.now }
    ensures local { result.global ≡ false }
{
    Arg::new(alloc, name).long(name).action(ArgAction::Set)
}

// A command with options of these names and with operands, for `clap`.
fn told<'a>(alloc: Global, names: &[&'a str]) -> Result<Command<'a>, AllocError>
    ensures { IfOk result (λ command. app_of command ≡ app_told (map (λ n. n.now) names.entry.now)) }
{
    let mut command = Command::new(alloc, "thresher")
        .no_binary_name(true)
        .disable_help_flag(true);
    for name in names {
        command = command.arg(option_arg(alloc, name))?;
    }
    command.arg(Arg::new(alloc, OPERANDS).action(ArgAction::Append))
}

// What `clap` makes of the words, of a command with options of these names.
fn parsed<'a>(
    alloc: Global,
    names: &[&'a str],
    words: &'a [String],
) -> Result<ArgMatches<'a>, Error>
    requires { list_all is_option_name (map (λ n. n.now) names.now) ≡ true }
    ensures read { IsSome (pieces_of (map (λ n. n.now) names.entry.now) (map string_bytes words.entry.now)) → IfOk result (λ matches. IsReadFrom (map (λ n. n.now) names.entry.now) (map string_bytes words.entry.now) (found_of matches)) }
    ensures no_memory { IsSome (pieces_of (map (λ n. n.now) names.entry.now) (map string_bytes words.entry.now)) → IfErr result (λ error. kind_of error ≡ ErrorKind.OutOfMemory) }
{
    told(alloc, names)?.try_get_matches_from(words)
}

// The values and the operands that the words give, of a command with options of these names.
//
// Refuses words that are not such options, each at most once and with a value, and operands.
pub(crate) fn given<'a>(
    alloc: Global,
    names: &[&'a str],
    words: &'a [String],
) -> Result<ArgMatches<'a>, Fail<UsageFault>>
    requires { list_all is_option_name (map (λ n. n.now) names.now) ≡ true }
    ensures read { IfOk result (λ matches. IsReadFrom (map (λ n. n.now) names.entry.now) (map string_bytes words.entry.now) (found_of matches)) }
    ensures refused { IfErr result (IfRefused (λ fault. (pieces_of (map (λ n. n.now) names.entry.now) (map string_bytes words.entry.now) ≡ None) × (fault ≡ UsageFault.BadWords))) }
{
    if !is_well_formed(names, words) {
        return Err(Fail::Refused(UsageFault::BadWords));
    }
    match parsed(alloc, names, words) {
        Ok(matches) => Ok(matches),
        Err(error) => match error.kind() {
            ErrorKind::OutOfMemory => Err(Fail::NoMemory),
            _ => unreachable!(),
        },
    }
}
