// Alarms that were judged.
ghost use Rattle.std.specs.Prelude.{◌≡◌};
ghost use Rattle.th_coarse.specs.Report.{some_survive, survives};

use th_base::{ClassId, FieldId};

/// What became of an alarm.
#[derive(Clone, Copy, Debug, PartialEq, Eq)]
pub enum Mark {
    /// It was shown that no run joins the field and the class.
    Filtered,
    /// It was not.
    Survives,
}

/// An alarm, a static field that may keep an Activity alive, with what became of it.
#[derive(Clone, Copy, Debug, PartialEq, Eq)]
pub struct Judged {
    /// The static field.
    pub field: FieldId,
    /// The class of the Activity, exactly.
    pub class: ClassId,
    pub mark: Mark,
}

/// Whether some alarm survives.
pub fn some_survive(alarms: &[Judged]) -> bool
    ensures { result ≡ some_survive alarms.now }
{
    alarms.iter().any(|alarm| survives(alarm))
}

// Whether an alarm survives.
pub(crate) fn survives(alarm: &Judged) -> bool
    ensures { result ≡ survives alarm.now }
{
    match alarm.mark {
        Mark::Filtered => false,
        Mark::Survives => true,
    }
}
