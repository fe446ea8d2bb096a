// The options, each with its name, and with its range and default where it has them.
ghost use Rattle.std.specs.Prelude.{◌≡◌, IfOk, option_map};
ghost use Rattle.clap.specs.Words.{found_of, first_value};
ghost use Rattle.th_words.specs.Values.{value_of, number, file, lifecycle};
ghost use Rattle.th_words.specs.Table.{budget_option, workers_option, fuel_option, list_option, lifecycle_option};
ghost use Rattle.th_words.specs.Told.{operands_found};

use crate::values::{file_given, lifecycle_given, names_of, number_given};
use clap::ArgMatches;
use std::alloc::{AllocError, Global};
use th_base::{Lifecycle, Name, Seq};

// The range of each option that takes a number, and what it is where it isn't given. A budget and
// fuel begin at 0.
pub(crate) const MOST_BUDGET: u32 = 50_000;

pub(crate) const DEFAULT_BUDGET: u32 = 2_000;

pub(crate) const LEAST_WORKERS: u32 = 1;

pub(crate) const MOST_WORKERS: u32 = 16;

pub(crate) const DEFAULT_WORKERS: u32 = 1;

pub(crate) const MOST_FUEL: u32 = 10_000_000;

pub(crate) const DEFAULT_FUEL: u32 = 1_000_000;

// The names of the options.
pub(crate) const BUDGET: &str = "budget";

pub(crate) const WORKERS: &str = "workers";

pub(crate) const FUEL: &str = "fuel";

pub(crate) const LIST: &str = "list";

pub(crate) const SCRIPT: &str = "script";

pub(crate) const LIFECYCLE: &str = "lifecycle";

// The name under which `clap` keeps the operands.
pub(crate) const OPERANDS: &str = "operands";

// `--budget`: how many steps the search for one edge may make.
pub(crate) fn budget(matches: &ArgMatches<'_>) -> Option<u32>
    ensures { option_map (λ n. number n) result ≡ value_of budget_option.kind (first_value (found_of matches.now) budget_option.name) }
{
    number_given(matches.get_str(BUDGET), 0, MOST_BUDGET, DEFAULT_BUDGET)
}

// `--workers`: how many workers search.
pub(crate) fn workers(matches: &ArgMatches<'_>) -> Option<u32>
    ensures { option_map (λ n. number n) result ≡ value_of workers_option.kind (first_value (found_of matches.now) workers_option.name) }
{
    number_given(
        matches.get_str(WORKERS),
        LEAST_WORKERS,
        MOST_WORKERS,
        DEFAULT_WORKERS,
    )
}

// `--fuel`: how many steps all events together may make.
pub(crate) fn fuel(matches: &ArgMatches<'_>) -> Option<u32>
    ensures { option_map (λ n. number n) result ≡ value_of fuel_option.kind (first_value (found_of matches.now) fuel_option.name) }
{
    number_given(matches.get_str(FUEL), 0, MOST_FUEL, DEFAULT_FUEL)
}

// `--lifecycle`: the order in which handlers may be called.
pub(crate) fn lifecycle(matches: &ArgMatches<'_>) -> Option<Lifecycle>
    ensures { option_map (λ l. lifecycle l) result ≡ value_of lifecycle_option.kind (first_value (found_of matches.now) lifecycle_option.name) }
{
    lifecycle_given(matches.get_str(LIFECYCLE))
}

// `--list`: the file that lists further class files, if it is given.
pub(crate) fn list(alloc: Global, matches: &ArgMatches<'_>) -> Result<Option<Name>, AllocError>
    ensures { IfOk result (λ name. name ≡ first_value (found_of matches.now) list_option.name) }
{
    file_given(alloc, matches.get_str(LIST))
}

// The operands, in order.
pub(crate) fn operands(alloc: Global, matches: &ArgMatches<'_>) -> Result<Seq<Name>, AllocError>
    ensures { IfOk result (λ names. names ≡ operands_found (found_of matches.now)) }
{
    match matches.get_strs(OPERANDS) {
        None => Ok(Seq::new(alloc)),
        Some(texts) => names_of(alloc, texts),
    }
}
