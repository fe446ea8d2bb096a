// The table as threads share it, and the seats by which they work on it.
ghost use Rattle.std.specs.Prelude.{◌≡◌, ◌≢◌, ℕ, ◌+◌, ◌<◌, ◌≤◌, Contains, None, Some, IfOk, IfErr, OnOk, ◌⊎◌, [], vec_len, vec_capacity, slice_get};
ghost use mathlib.Core.Logic.{◌↔◌};
ghost use Rattle.std.specs.Slots.{slots_items, slots_len, IsFull};
ghost use Rattle.th_base.specs.declared.number.EdgeId.{EdgeId};
ghost use Rattle.th_edge_table.specs.Running.{words_from};
ghost use Rattle.th_edge_table.specs.Core.{newcomer, saw, claimed, published, parted, joined};
ghost use Rattle.th_edge_table.specs.Facts.{Faithful, times};
ghost use Rattle.th_edge_table.specs.Places.{at, found_by};

use crate::encoding::{CLAIMED, FREE, decode, encode};
use crate::rule::{Look, OneClaim, OnePart, Publish, Take};
use crate::state::{CoreSeat, PARTS};
use crate::word::{Claim, Verdict, Word};
use atomic_table::{Closed, Table};
use std::alloc::{AllocError, Global};
use std::marker::Model;
use th_base::EdgeId;

/// A table has no more edges.
pub const MOST_EDGES: u32 = 65535;

/// One word for each edge, which threads share by `&`.
#[derive(Drop)]
pub struct EdgeTable {
    table: Table<(), CoreSeat, u32, OneClaim, Global>,
    edges: u32,
}

impl Model for EdgeTable {
    ghost use Rattle.std.specs.Prelude.{◌≡◌, ◌+◌, ◌≤◌};
    ghost use Rattle.th_edge_table.specs.declared.table.TheConstants.{MOST_EDGES};
    ghost use Rattle.th_edge_table.specs.Places.{Board};

    ghost Value = { Board };

    ghost view = { λ t. record { id = t.table.shared.table_id; edges = t.edges } };

    ghost invariant = { λ t. (t.table.shared.key ≡ t.edges) × (t.table.shared.table_id.words ≡ t.edges + 1)
        × (t.table.shared.table_id.slots ≡ 0) × (t.edges ≤ MOST_EDGES) };
}

/// What one worker knows of the table and has done. It has no bytes: it exists for the proof alone.
#[derive(Drop)]
pub struct Seat {
    seat: atomic_table::Seat<(), CoreSeat>,
}

impl Model for Seat {
    ghost use Rattle.std.specs.Prelude.{◌≡◌, false, []};
    ghost use Rattle.th_edge_table.specs.Places.{Place};

    ghost Value = { Place };

    ghost view = { λ s. record { table = s.seat.table_id; view = s.seat.me.0 } };

    ghost invariant = { λ s. (s.seat.me.1 ≡ []) × (s.seat.me.0.ended ≡ false) };
}

impl EdgeTable {
    /// A table whose edges are all free, and the seat that has all parts.
    pub fn new(alloc: Global, n: u32) -> Result<(EdgeTable, Seat), AllocError>
        requires { n ≤ MOST_EDGES }
        ensures { IfOk result (λ r. (r.0.edges ≡ n) × (r.1 ≡ at r.0.id (newcomer PARTS))) }
    {
        let words = vec![in alloc; FREE; n as usize + 1]?;
        let (table, seat) = Table::of_words(alloc, words.as_slice(), &n)?;
        Ok((EdgeTable { table, edges: n }, Seat { seat }))
    }

    /// How many edges the table has.
    pub fn edges(&self) -> u32
        ensures count { result ≡ self.now.edges }
        ensures bound { result ≤ MOST_EDGES }
    {
        self.edges
    }

    /// Reads the edge's word: one load.
    pub fn look(&self, seat: &mut Seat, edge: EdgeId) -> Word
        requires table { (seat.old.table ≡ self.now.id) × (edge.0 < self.now.edges) }
        ensures seat { seat.new ≡ at seat.old.table (saw edge result seat.old.view) }
        ensures known { Faithful seat.old.view edge result }
    {
        let number = self
            .table
            .shared
            .load::<Look>(&mut seat.seat, edge.0 as usize + 1);
        decode(number)
    }

    /// Claims the edge where it is free: one compare and exchange, from free to claimed.
    pub fn claim(&self, seat: &mut Seat, edge: EdgeId) -> Claim
        requires table { (seat.old.table ≡ self.now.id) × (edge.0 < self.now.edges) }
        requires idle { seat.old.view.in_flight ≡ None }
        ensures seat { seat.new ≡ at seat.old.table (claimed edge (found_by result) seat.old.view) }
        ensures taken { result ≢ Claim.Taken Word.Free }
        ensures known { Faithful seat.old.view edge (found_by result) }
        ensures fresh { result ≡ Claim.Got → times edge seat.old.view.taken ≡ 0 }
    {
        let found = self
            .table
            .shared
            .compare_exchange::<Take>(&mut seat.seat, edge.0 as usize + 1, FREE, CLAIMED);
        match decode(found) {
            Word::Free => Claim::Got,
            word => Claim::Taken(word),
        }
    }

    /// Publishes the verdict of the edge that the seat has in flight: one store.
    pub fn publish(&self, seat: &mut Seat, edge: EdgeId, verdict: Verdict)
        requires table { (seat.old.table ≡ self.now.id) × (edge.0 < self.now.edges) }
        requires claimed { seat.old.view.in_flight ≡ Some edge }
        ensures { seat.new ≡ at seat.old.table (published edge verdict seat.old.view) }
    {
        let number = encode(verdict);
        self.table
            .shared
            .store::<Publish>(&mut seat.seat, edge.0 as usize + 1, number);
    }

    /// A new seat with nothing in its lists, which gets one part of the seat.
    pub fn split(&self, seat: &mut Seat) -> Seat
        requires table { seat.old.table ≡ self.now.id }
        requires parts { 2 ≤ seat.old.view.part }
        ensures seat { seat.new ≡ at seat.old.table (parted seat.old.view) }
        ensures new { result ≡ at seat.old.table (newcomer 1) }
    {
        let seat = self.table.shared.split_seat::<OnePart>(&mut seat.seat);
        Seat { seat }
    }

    /// Ends the other seat: what it has done and its parts are the first seat's.
    pub fn join(&self, seat: &mut Seat, other: Seat)
        requires table { (seat.old.table ≡ self.now.id) × (other.table ≡ self.now.id) }
        requires idle { other.view.in_flight ≡ None }
        ensures { seat.new ≡ at seat.old.table (joined seat.old.view other.view) }
    {
        let Seat { seat: other } = other;
        self.table
            .shared
            .join_seat::<OnePart>(&mut seat.seat, other);
    }

    /// The words at the end. The memory for them is taken first, and where there is none, which is
    /// the only error, the table and the seat come back as they were.
    pub fn close(self, alloc: Global, seat: Seat) -> Result<Vec<Word>, (EdgeTable, Seat)>
        requires table { seat.table ≡ self.id }
        requires whole { (seat.view.part ≡ PARTS) × (seat.view.in_flight ≡ None) }
        ensures len { IfOk result (λ words. vec_len words ≡ self.edges) }
        ensures decided { IfOk result (λ words. (e : EdgeId) (d : _)
            → (slice_get words.items e.0 ≡ Some (Word.Decided d)) ↔ Contains seat.view.done (e, d)) }
        ensures free { IfOk result (λ words. (e : EdgeId) → e.0 < self.edges
            → (slice_get words.items e.0 ≡ Some Word.Free) ⊎ ((d : _) × Contains seat.view.done (e, d))) }
        ensures once { OnOk result ((e : EdgeId) → times e seat.view.done ≤ 1) }
        ensures err { IfErr result (λ back. (back.0 ≡ self) × (back.1 ≡ seat)) }
    {
        let Ok(words) = Vec::with_capacity(alloc, self.edges as usize) else {
            return Err((self, seat));
        };
        let EdgeTable { table, edges } = self;
        let Seat { seat } = seat;
        let closed = table.close_with(seat);
        let words = read_words(&closed, edges, words);
        closed.free();
        Ok(words)
    }
}

// The words of the edges, into a list that has room for them.
fn read_words(closed: &Closed<(), Global>, edges: u32, mut words: Vec<Word>) -> Vec<Word>
    requires closed { (slots_len closed.now.words ≡ edges + 1) × IsFull closed.now.words }
    requires room { (words.items ≡ []) × (edges ≤ vec_capacity words) }
    ensures { result.items ≡ words_from (slots_items closed.now.words) edges }
{
    for edge in 0..edges {
        words.push_reserved(decode(closed.word(edge as usize + 1)));
    }
    words
}
