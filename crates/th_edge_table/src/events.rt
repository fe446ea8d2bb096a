// The core of the table as a call: what a list of events leaves, or the first that is not allowed.
ghost use Rattle.std.specs.Prelude.{◌≡◌, ◌↔◌, ◌^◌, ◌<◌, ◌⊎◌, ℕ, length, IfOk, IsTrue, Ok, Err};
ghost use Rattle.th_edge_table.specs.declared.state.CoreEvent.{CoreEvent};
ghost use Rattle.th_edge_table.specs.declared.state.CoreEvent.TheVariants.{Look, Claim, Publish, Split, Join};
ghost use Rattle.th_edge_table.specs.Core.{opening, IsThere, HasEdge, seat_at, AllAllowed, replayed, word_at};
ghost use Rattle.th_edge_table.specs.Facts.{SixFacts};
ghost use Rattle.th_edge_table.specs.Replay.{IsFirstBad, MakesIfAllowed, HasRoom};

use crate::state::{BadEvent, CoreEvent, CoreSeat, CoreState, PARTS};
use crate::word::{Verdict, Word};
use std::alloc::{AllocError, Global};
use std::marker::Model;
use th_base::{EdgeId, Fail, Seq};

// The core while events happen to it.
#[derive(Drop)]
struct Core {
    words: Vec<Word>,
    seats: Vec<CoreSeat>,
}

impl Model for Core {
    ghost use Rattle.th_edge_table.specs.declared.state.CoreState.{CoreState};

    ghost Value = { CoreState };

    ghost view = { λ c. record { words = c.words.items; seats = c.seats.items } };
}

// In each of the calls that answer a `bool`, true says that the event was allowed and is made.
impl Core {
    // The core of a table with n edges before any event.
    fn opening(alloc: Global, n: u32) -> Result<Core, AllocError>
        ensures { IfOk result (λ core. core ≡ opening n) }
    {
        let words = vec![in alloc; Word::Free; n as usize]?;
        let mut seats = Vec::new(alloc);
        seats.push(CoreSeat::newcomer(alloc, PARTS))?;
        Ok(Core { words, seats })
    }

    // Whether the seat is there and has not ended.
    fn is_there(&self, seat: u32) -> bool
        ensures { IsTrue result ↔ IsThere self.now seat }
    {
        match self.seats.get(seat as usize) {
            Some(it) => !it.ended,
            None => false,
        }
    }

    // The edge that a seat has in flight.
    fn in_flight(&self, seat: u32) -> Option<EdgeId>
        requires { IsThere self.now seat }
        ensures { result ≡ (seat_at self.now.seats seat).in_flight }
    {
        self.seats[seat as usize].in_flight
    }

    // Whether the edge is there.
    fn has_edge(&self, edge: EdgeId) -> bool
        ensures { IsTrue result ↔ HasEdge self.now edge }
    {
        (edge.0 as usize) < self.words.len()
    }

    fn look(&mut self, seat: u32, edge: EdgeId) -> Result<bool, AllocError>
        ensures { IfOk result (λ made. MakesIfAllowed (Look seat edge) self.old made self.new) }
    {
        if !self.is_there(seat) || !self.has_edge(edge) {
            return Ok(false);
        }
        let word = self.words[edge.0 as usize];
        self.seats[seat as usize].see(edge, word)?;
        Ok(true)
    }

    fn claim(&mut self, seat: u32, edge: EdgeId) -> Result<bool, AllocError>
        requires { HasRoom self.old }
        ensures { IfOk result (λ made. MakesIfAllowed (Claim seat edge) self.old made self.new) }
    {
        if !self.is_there(seat) || !self.has_edge(edge) || self.in_flight(seat).is_some() {
            return Ok(false);
        }
        let word = self.words[edge.0 as usize];
        match word {
            Word::Free => {
                self.seats[seat as usize].take(edge)?;
                self.words[edge.0 as usize] = Word::Claimed;
            }
            _ => self.seats[seat as usize].see(edge, word)?,
        }
        Ok(true)
    }

    fn publish(&mut self, seat: u32, edge: EdgeId, verdict: Verdict) -> Result<bool, AllocError>
        ensures { IfOk result (λ made. MakesIfAllowed (Publish seat edge verdict) self.old made self.new) }
    {
        if !self.is_there(seat) || !self.has_edge(edge) || self.in_flight(seat) != Some(edge) {
            return Ok(false);
        }
        self.seats[seat as usize].publish(edge, verdict)?;
        self.words[edge.0 as usize] = Word::Decided(verdict);
        Ok(true)
    }

    fn split(&mut self, alloc: Global, seat: u32) -> Result<bool, AllocError>
        ensures { IfOk result (λ made. MakesIfAllowed (Split seat) self.old made self.new) }
    {
        if !self.is_there(seat) || self.seats[seat as usize].part < 2 {
            return Ok(false);
        }
        self.seats[seat as usize].part -= 1;
        self.seats.push(CoreSeat::newcomer(alloc, 1))?;
        Ok(true)
    }

    fn join(&mut self, alloc: Global, seat: u32, other: u32) -> Result<bool, AllocError>
        requires { HasRoom self.old }
        ensures { IfOk result (λ made. MakesIfAllowed (Join seat other) self.old made self.new) }
    {
        if seat == other
            || !self.is_there(seat)
            || !self.is_there(other)
            || self.in_flight(other).is_some()
        {
            return Ok(false);
        }
        let done = self.seats[other as usize].done.copy(alloc)?;
        let part = self.seats[other as usize].part;
        self.seats[seat as usize].take_over(done.as_slice(), part)?;
        self.seats[other as usize].ended = true;
        Ok(true)
    }

    // The event of any kind.
    fn make(&mut self, alloc: Global, event: CoreEvent) -> Result<bool, AllocError>
        requires { HasRoom self.old }
        ensures { IfOk result (λ made. MakesIfAllowed event self.old made self.new) }
    {
        match event {
            CoreEvent::Look { seat, edge } => self.look(seat, edge),
            CoreEvent::Claim { seat, edge } => self.claim(seat, edge),
            CoreEvent::Publish {
                seat,
                edge,
                verdict,
            } => self.publish(seat, edge, verdict),
            CoreEvent::Split { seat } => self.split(alloc, seat),
            CoreEvent::Join { seat, other } => self.join(alloc, seat, other),
        }
    }
}

/// The core's state after the events, from the opening state of a table with `n` edges.
///
/// `BadEvent` is the first event that is not allowed where it stands; its seats and its edge have to
/// be there, and its seats must not have ended.
pub fn replay(alloc: Global, n: u32, events: &[CoreEvent]) -> Result<CoreState, Fail<BadEvent>>
    requires { length events.now < 2 ^ 32 }
    ensures allowed { IfOk result (λ _. AllAllowed (opening n) events.now) }
    ensures state { IfOk result (λ state. state ≡ replayed (opening n) events.now) }
    ensures facts { IfOk result (λ state. SixFacts (word_at state.words) state.seats) }
    ensures bad { (k : ℕ) → result ≡ Err (Fail.Refused (record { event = k }))
        → IsFirstBad (opening n) events.now k }

    // Want of memory is the one other answer.
    ensures where_allowed { AllAllowed (opening n) events.now
        → (result ≡ Ok (replayed (opening n) events.now)) ⊎ (result ≡ Err Fail.NoMemory) }
    ensures where_bad { (k : ℕ) → IsFirstBad (opening n) events.now k
        → (result ≡ Err (Fail.Refused (record { event = k }))) ⊎ (result ≡ Err Fail.NoMemory) }
{
    let mut core = Core::opening(alloc, n)?;
    for (index, event) in events.iter().enumerate() {
        let made = core.make(alloc, *event)?;
        if !made {
            return Err(Fail::Refused(BadEvent {
                event: index as u32,
            }));
        }
    }
    let Core { words, seats } = core;
    Ok(CoreState {
        words: Seq::from_vec(words),
        seats: Seq::from_vec(seats),
    })
}
