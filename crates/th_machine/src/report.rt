// What comes of a script.
use crate::outcome::Outcome;
use std::fmt;
use th_base::{ClassId, FieldId, Seq};

/// What came of one event of a script.
#[derive(Debug, Drop)]
pub struct Report {
    /// How the run that the event started came to rest.
    pub outcome: Outcome,
    /// The static fields and the Activity classes that are joined then, in order of field and class.
    pub reached: Seq<(FieldId, ClassId)>,
}

/// An event of a script that is reached and can't happen.
#[derive(Clone, Copy, Debug, PartialEq, Eq)]
pub struct ScriptFault {
    /// Its number, from 1.
    pub event: u32,
}

impl fmt::Display for ScriptFault {
    fn fmt<W: fmt::Write>(&self, f: &mut fmt::Formatter<W>) -> fmt::Result {
        write!(f, "script event {}", self.event)
    }
}
