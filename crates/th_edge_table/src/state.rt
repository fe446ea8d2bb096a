// The core of the table as plain data: its words, its seats, and the events that change them.
ghost use Rattle.std.specs.Prelude.{◌≡◌, IfOk};

use crate::word::{Verdict, Word};
use std::alloc::{AllocError, Global};
use std::fmt;
use th_base::{EdgeId, Same, Seq, TryCopy};

/// A table has so many parts, which its seats share.
pub const PARTS: u32 = 65536;

/// What a seat knows of the table, and what it has done.
#[derive(Debug, Drop)]
pub struct CoreSeat {
    /// Each edge that it looked at, with the word that was there, oldest first.
    pub seen: Seq<(EdgeId, Word)>,
    /// Each edge that it claimed, with the length of `seen` at the claim, oldest first.
    pub taken: Seq<(EdgeId, u32)>,
    /// Each edge that it published, with its verdict, and after a join those of the other seat too.
    pub done: Seq<(EdgeId, Verdict)>,
    /// The edge that it claimed and has not published yet.
    pub in_flight: Option<EdgeId>,
    /// Its share of the parts of the table.
    pub part: u32,
    /// Whether it was joined into another seat.
    pub ended: bool,
}

/// The words of the table, one for each edge, and its seats in the order in which they were made.
#[derive(Debug, Drop)]
pub struct CoreState {
    pub words: Seq<Word>,
    pub seats: Seq<CoreSeat>,
}

/// One atomic step of one seat. Seats are named by their places in the list of seats.
#[derive(Clone, Copy, Debug, PartialEq, Eq)]
pub enum CoreEvent {
    /// The seat reads the edge's word.
    Look {
        seat: u32,
        edge: EdgeId,
    },
    /// The seat claims the edge where it is free, and else reads its word.
    Claim {
        seat: u32,
        edge: EdgeId,
    },
    /// The seat publishes the verdict of the edge that it has in flight.
    Publish {
        seat: u32,
        edge: EdgeId,
        verdict: Verdict,
    },
    /// A new seat gets one part of the seat.
    Split {
        seat: u32,
    },
    /// The seat takes over what the other has done and its parts, and the other ends.
    Join {
        seat: u32,
        other: u32,
    },
}

/// The first event of a list that is not allowed where it stands, by its place from 0.
#[derive(Clone, Copy, Debug, PartialEq, Eq)]
pub struct BadEvent {
    pub event: u32,
}

impl fmt::Display for BadEvent {
    fn fmt<W: fmt::Write>(&self, f: &mut fmt::Formatter<W>) -> fmt::Result {
        let event = self.event;
        write!(f, "event {event} is not allowed")
    }
}

impl CoreSeat {
    ghost use Rattle.std.specs.Prelude.{◌+◌, ◌^◌, ◌<◌, ◌++◌, length, OnOk};
    ghost use Rattle.th_edge_table.specs.Core.{newcomer, saw, got, published};

    // A seat with nothing in its lists.
    pub(crate) fn newcomer(alloc: Global, part: u32) -> CoreSeat
        ensures { result ≡ newcomer part }
    {
        CoreSeat {
            seen: Seq::new(alloc),
            taken: Seq::new(alloc),
            done: Seq::new(alloc),
            in_flight: None,
            part,
            ended: false,
        }
    }

    // The seat has read a word of an edge.
    pub(crate) fn see(&mut self, edge: EdgeId, word: Word) -> Result<(), AllocError>
        ensures { OnOk result (self.new ≡ saw edge word self.old) }
    {
        self.seen.push((edge, word))?;
        Ok(())
    }

    // The seat has claimed a free edge.
    pub(crate) fn take(&mut self, edge: EdgeId) -> Result<(), AllocError>
        requires { length self.old.seen < 2 ^ 32 }
        ensures { OnOk result (self.new ≡ got edge self.old) }
    {
        let seen = self.seen.len() as u32;
        self.taken.push((edge, seen))?;
        self.in_flight = Some(edge);
        Ok(())
    }

    // The seat has published the verdict of the edge that it had in flight.
    pub(crate) fn publish(&mut self, edge: EdgeId, verdict: Verdict) -> Result<(), AllocError>
        ensures { OnOk result (self.new ≡ published edge verdict self.old) }
    {
        self.done.push((edge, verdict))?;
        self.in_flight = None;
        Ok(())
    }

    // The parts and the list of what another seat has done come to this one.
    pub(crate) fn take_over(
        &mut self,
        done: &[(EdgeId, Verdict)],
        part: u32,
    ) -> Result<(), AllocError>
        requires { self.old.part + part < 2 ^ 32 }
        ensures { OnOk result (self.new ≡ record self.old {
          done = self.old.done ++ done.now;
          part = self.old.part + part;
        }) }
    {
        for entry in done {
            self.done.push(*entry)?;
        }
        self.part += part;
        Ok(())
    }

    /// A copy of the seat.
    pub fn copy(&self, alloc: Global) -> Result<CoreSeat, AllocError>
        ensures { IfOk result (λ copy. copy ≡ self.now) }
    {
        Ok(CoreSeat {
            seen: self.seen.copy(alloc)?,
            taken: self.taken.copy(alloc)?,
            done: self.done.copy(alloc)?,
            in_flight: self.in_flight,
            part: self.part,
            ended: self.ended,
        })
    }
}

impl TryCopy for CoreSeat {
    fn try_copy(&self, alloc: Global) -> Result<CoreSeat, AllocError> {
        self.copy(alloc)
    }
}

impl Same for CoreSeat {
    fn same(&self, other: &CoreSeat) -> bool {
        self.seen.same(&other.seen)
            && self.taken.same(&other.taken)
            && self.done.same(&other.done)
            && self.in_flight == other.in_flight
            && self.part == other.part
            && self.ended == other.ended
    }
}

impl CoreState {
    /// A copy of the state.
    pub fn copy(&self, alloc: Global) -> Result<CoreState, AllocError>
        ensures { IfOk result (λ copy. copy ≡ self.now) }
    {
        Ok(CoreState {
            words: self.words.copy(alloc)?,
            seats: self.seats.copy(alloc)?,
        })
    }
}

impl TryCopy for CoreState {
    fn try_copy(&self, alloc: Global) -> Result<CoreState, AllocError> {
        self.copy(alloc)
    }
}

impl Same for CoreState {
    fn same(&self, other: &CoreState) -> bool {
        self.words.same(&other.words) && self.seats.same(&other.seats)
    }
}
