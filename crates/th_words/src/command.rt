// The commands, and what may be wrong with the words.
use std::error::Error;
use std::fmt;
use th_base::{Lifecycle, Name, Seq};

/// A command, with the values of its options, defaults filled in, and its operands.
#[derive(Debug, Drop)]
pub enum Command {
    /// Report the alarms of the program of these class files.
    Check {
        /// How many steps the search for one edge may make, from 0 to 50,000.
        budget: u32,
        /// How many workers search, from 1 to 16.
        workers: u32,
        /// The file that lists further class files, one to a line.
        list: Option<Name>,
        /// The order in which the handlers of an Activity may be called.
        lifecycle: Lifecycle,
        /// The names of class files.
        files: Seq<Name>,
    },
    /// Run a script of launches and events on the program of these class files.
    Run {
        /// The file with the script.
        script: Name,
        /// How many steps all events together may make, from 0 to 10,000,000.
        fuel: u32,
        /// The order in which the handlers of an Activity may be called.
        lifecycle: Lifecycle,
        /// The names of class files.
        files: Seq<Name>,
    },
}

/// What is wrong with the words.
#[derive(Clone, Copy, Debug, PartialEq, Eq)]
pub enum UsageFault {
    /// There are no words.
    NoCommand,
    /// The first word is no command's name.
    UnknownCommand,
    /// The words after the command break its rules.
    BadWords,
}

impl fmt::Display for UsageFault {
    fn fmt<W: fmt::Write>(&self, f: &mut fmt::Formatter<W>) -> fmt::Result {
        f.write_str(match self {
            UsageFault::NoCommand => "no command",
            UsageFault::UnknownCommand => "unknown command",
            UsageFault::BadWords => "bad words",
        })
    }
}

impl Error for UsageFault {}
