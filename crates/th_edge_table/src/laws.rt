//! What holds after every list of events.
ghost use Rattle.std.specs.Prelude.{List, ℕ};
ghost use Rattle.th_edge_table.specs.declared.state.CoreEvent.{CoreEvent};
ghost use Rattle.th_edge_table.specs.Core.{opening, AllAllowed, replayed, word_at};
ghost use Rattle.th_edge_table.specs.Facts.{SixFacts};

/// After every list of events from the opening state of a table with `n` edges, each event allowed
/// where it stands, the six facts hold of the words and of the seats that have not ended.
pub fn schedules()
    ensures { (n : ℕ) (events : List CoreEvent) → AllAllowed (opening n) events
        → SixFacts (word_at (replayed (opening n) events).words) (replayed (opening n) events).seats }
{}
