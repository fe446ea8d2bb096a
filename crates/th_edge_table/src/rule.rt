// The rule of the running table, and the five kinds of step that a seat makes.
use crate::state::CoreSeat;
use atomic_table::{Join, Play, Split, TableRule};

// The rule is the six facts. The key is the number of edges.
pub(crate) struct OneClaim;

impl TableRule<(), CoreSeat, u32> for OneClaim {
    ghost use Rattle.th_edge_table.specs.declared.state.TheConstants.{PARTS};
    ghost use Rattle.th_edge_table.specs.Core.{newcomer};
    ghost use Rattle.th_edge_table.specs.Running.{Ruled};

    ghost holds = { Ruled };

    ghost first = { λ _. newcomer PARTS };
}

// A load of an edge's word.
pub(crate) struct Look;

impl Play<(), CoreSeat> for Look {
    ghost use Rattle.th_edge_table.specs.Running.{looks_once};

    ghost then = { looks_once };
}

// A compare and exchange of an edge's word.
pub(crate) struct Take;

impl Play<(), CoreSeat> for Take {
    ghost use Rattle.th_edge_table.specs.Running.{claims_once};

    ghost then = { claims_once };
}

// A store of an edge's word.
pub(crate) struct Publish;

impl Play<(), CoreSeat> for Publish {
    ghost use Rattle.th_edge_table.specs.Running.{publishes_once};

    ghost then = { publishes_once };
}

// A load of the word that never changes, at which a seat is split or two are joined.
pub(crate) struct OnePart;

impl Split<CoreSeat> for OnePart {
    ghost use Rattle.th_edge_table.specs.Core.{parted, newcomer};

    ghost left = { parted };

    ghost right = { λ _. newcomer 1 };
}

impl Join<CoreSeat> for OnePart {
    ghost use Rattle.th_edge_table.specs.Core.{joined, spent};

    ghost both = { joined };

    ghost spent = { spent };
}
