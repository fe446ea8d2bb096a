// A command from its words.
ghost use Rattle.std.specs.Prelude.{◌≡◌, ◌⊎◌, IfOk, IfErr, map, string_bytes};
ghost use Rattle.clap.specs.Words.{found_of, first_value};
ghost use Rattle.th_words.specs.Told.{operands_found};
ghost use Rattle.th_words.specs.Table.{check_row, run_row};
ghost use Rattle.th_words.specs.Reading.{IfRefused, IsAnswer, command_from, command_in, command_of};

use crate::given::given;
use crate::options::{BUDGET, FUEL, LIFECYCLE, LIST, SCRIPT, WORKERS};
use crate::{Command, UsageFault, options};
use clap::ArgMatches;
use std::alloc::Global;
use th_base::{Fail, Name};

// The words break a command's rules.
const BAD_WORDS: Fail<UsageFault> = Fail::Refused(UsageFault::BadWords);

// The command `check` from the values that `clap` found.
fn check_from(alloc: Global, matches: &ArgMatches<'_>) -> Result<Command, Fail<UsageFault>>
    ensures { IsAnswer (command_from check_row (first_value (found_of matches.now)) (operands_found (found_of matches.now))) result }
{
    let budget = options::budget(matches).ok_or(BAD_WORDS)?;
    let workers = options::workers(matches).ok_or(BAD_WORDS)?;
    let lifecycle = options::lifecycle(matches).ok_or(BAD_WORDS)?;
    let list = options::list(alloc, matches)?;
    let files = options::operands(alloc, matches)?;
    if list.is_none() && files.is_empty() {
        return Err(BAD_WORDS);
    }
    Ok(Command::Check {
        budget,
        workers,
        list,
        lifecycle,
        files,
    })
}

// The command `run` from the values that `clap` found.
fn run_from(alloc: Global, matches: &ArgMatches<'_>) -> Result<Command, Fail<UsageFault>>
    ensures { IsAnswer (command_from run_row (first_value (found_of matches.now)) (operands_found (found_of matches.now))) result }
{
    let script = matches.get_str(SCRIPT).ok_or(BAD_WORDS)?;
    let fuel = options::fuel(matches).ok_or(BAD_WORDS)?;
    let lifecycle = options::lifecycle(matches).ok_or(BAD_WORDS)?;
    let script = Name::from_str(alloc, script)?;
    let files = options::operands(alloc, matches)?;
    if files.is_empty() {
        return Err(BAD_WORDS);
    }
    Ok(Command::Run {
        script,
        fuel,
        lifecycle,
        files,
    })
}

// The command `check` from the words after its name.
fn read_check(alloc: Global, words: &[String]) -> Result<Command, Fail<UsageFault>>
    ensures { IsAnswer (command_in check_row (map string_bytes words.now)) result }
{
    match given(alloc, &[BUDGET, WORKERS, LIST, LIFECYCLE], words) {
        Ok(matches) => check_from(alloc, &matches),
        Err(fail) => Err(fail),
    }
}

// The command `run` from the words after its name.
fn read_run(alloc: Global, words: &[String]) -> Result<Command, Fail<UsageFault>>
    ensures { IsAnswer (command_in run_row (map string_bytes words.now)) result }
{
    match given(alloc, &[SCRIPT, FUEL, LIFECYCLE], words) {
        Ok(matches) => run_from(alloc, &matches),
        Err(fail) => Err(fail),
    }
}

/// Reads the words of a command line, those after the program's name, as a command.
///
/// The first word names the command. Options stand anywhere after it, each as two words and at
/// most once; every other word is an operand. The definition of what the words ask for stands in
/// `specs/Reading.antt`, over the table of commands of `specs/Table.antt`. Only want of memory may
/// come in place of its answer.
pub fn read_words(alloc: Global, words: &[String]) -> Result<Command, Fail<UsageFault>>
    ensures command { IfOk result (λ command. command_of (map string_bytes words.now) ≡ Ok command) }
    ensures refused { IfErr result (IfRefused (λ fault. command_of (map string_bytes words.now) ≡ Err fault)) }

    // The converse: only memory may be wanting in place of a refusal, and not for these two.
    ensures no_command { command_of (map string_bytes words.now) ≡ Err UsageFault.NoCommand → result ≡ Err (Fail.Refused UsageFault.NoCommand) }
    ensures unknown_command { command_of (map string_bytes words.now) ≡ Err UsageFault.UnknownCommand → result ≡ Err (Fail.Refused UsageFault.UnknownCommand) }
    ensures bad_words { command_of (map string_bytes words.now) ≡ Err UsageFault.BadWords → (result ≡ Err (Fail.Refused UsageFault.BadWords)) ⊎ (result ≡ Err Fail.NoMemory) }
{
    let Some((name, rest)) = words.split_first() else {
        return Err(Fail::Refused(UsageFault::NoCommand));
    };
    if name.as_str() == "check" {
        read_check(alloc, rest)
    } else if name.as_str() == "run" {
        read_run(alloc, rest)
    } else {
        Err(Fail::Refused(UsageFault::UnknownCommand))
    }
}
