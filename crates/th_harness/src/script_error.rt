// Why a script is refused.
use std::fmt;

/// Why a script is refused. Numbers count from 1.
#[derive(Clone, Copy, Debug, PartialEq, Eq)]
pub enum ScriptError {
    /// The line of this number, empty lines counted, has no form of a line.
    Line(u32),
    /// The event of this number launches a class that isn't launchable.
    Event(u32),
}

impl fmt::Display for ScriptError {
    fn fmt<W: fmt::Write>(&self, f: &mut fmt::Formatter<W>) -> fmt::Result {
        match self {
            ScriptError::Line(number) => write!(f, "script line {number}"),
            ScriptError::Event(number) => write!(f, "script event {number}"),
        }
    }
}
