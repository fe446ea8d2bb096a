ghost use Rattle.std.specs.Prelude.{◌≡◌, ◌<◌, None};

use std::alloc::{AllocError, Global};
use std::test::*;
use std::thread::join;
use th_base::{EdgeId, Same, Seq};
use th_edge_table::{
    BadEvent, Claim, CoreEvent, CoreSeat, CoreState, EdgeTable, Kind, Seat, Verdict, Word, replay,
};

const REFUTED: Verdict = Verdict {
    kind: Kind::Refuted,
    steps: 4,
};

#[test]
fn second_seat_finds_the_edge_claimed_and_then_decided(rt: HostRuntime) -> Result<(), Fail> {
    let (table, mut seat) = EdgeTable::new(rt.alloc(), 2)?;
    assert!(rt; table.edges() == 2);
    let got = table.claim(&mut seat, EdgeId(0));
    assert!(rt; got == Claim::Got);
    let mut other = table.split(&mut seat);
    let taken = table.claim(&mut other, EdgeId(0));
    assert!(rt; taken == Claim::Taken(Word::Claimed));
    table.publish(&mut seat, EdgeId(0), REFUTED);
    let seen = table.look(&mut other, EdgeId(0));
    assert!(rt; seen == Word::Decided(REFUTED));
    table.join(&mut seat, other);
    let Ok(words) = table.close(rt.alloc(), seat) else {
        panic!(rt; "no memory")
    };
    assert!(rt; words.len() == 2 && words[0] == Word::Decided(REFUTED) && words[1] == Word::Free);
    Ok(())
}

const EDGES: u32 = 64;

fn verdict_of(kind: Kind, edge: EdgeId) -> Verdict {
    Verdict {
        kind,
        steps: edge.0,
    }
}

// Whether the seat got the edge.
fn decide(table: &EdgeTable, seat: &mut Seat, kind: Kind, edge: EdgeId) -> bool
    requires table { (seat.old.table ≡ table.now.id) × (edge.0 < table.now.edges) }
    requires idle { seat.old.view.in_flight ≡ None }
    ensures table { (seat.new.table ≡ seat.old.table) × (seat.new.view.part ≡ seat.old.view.part) }
    ensures idle { seat.new.view.in_flight ≡ None }
{
    match table.claim(seat, edge) {
        Claim::Got => {
            table.publish(seat, edge, verdict_of(kind, edge));
            true
        }
        Claim::Taken(_) => false,
    }
}

// The seat at its end, and which edges it got.
fn work(table: &EdgeTable, mut seat: Seat, kind: Kind) -> (Seat, [bool; 64])
    requires table { (seat.table ≡ table.now.id) × (table.now.edges ≡ EDGES) }
    requires idle { seat.view.in_flight ≡ None }
    ensures table { (result.0.table ≡ seat.table) × (result.0.view.part ≡ seat.view.part) }
    ensures idle { result.0.view.in_flight ≡ None }
{
    let mut got = [false; 64];
    for number in 0..EDGES {
        got[number as usize] = decide(table, &mut seat, kind, EdgeId(number));
    }
    (seat, got)
}

#[test]
fn two_threads_close_to_their_verdicts(rt: HostRuntime) -> Result<(), Fail> {
    let (table, mut seat) = EdgeTable::new(rt.alloc(), EDGES)?;
    let other = table.split(&mut seat);
    let table_of = &table;
    let (one, two) = join(
        &rt,
        move || -> (Seat, [bool; 64])
            requires { (seat.table ≡ table_of.now.id) × (table_of.now.edges ≡ EDGES)
                × (seat.view.in_flight ≡ None) }
            ensures { (result.0.table ≡ seat.table) × (result.0.view.part ≡ seat.view.part)
                × (result.0.view.in_flight ≡ None) }
        { work(table_of, seat, Kind::Refuted) },
        move || -> (Seat, [bool; 64])
            requires { (other.table ≡ table_of.now.id) × (table_of.now.edges ≡ EDGES)
                × (other.view.in_flight ≡ None) }
            ensures { (result.0.table ≡ other.table) × (result.0.view.part ≡ other.view.part)
                × (result.0.view.in_flight ≡ None) }
        { work(table_of, other, Kind::Witnessed) },
    );
    let (mut seat, first) = one;
    let (other, second) = two;
    table.join(&mut seat, other);
    let Ok(words) = table.close(rt.alloc(), seat) else {
        panic!(rt; "no memory")
    };
    assert!(rt; words.len() == EDGES as usize);
    for (number, word) in words.iter().enumerate() {
        let kind = if first[number] {
            Kind::Refuted
        } else {
            Kind::Witnessed
        };
        assert!(rt; first[number] != second[number]);
        assert!(rt; *word == Word::Decided(verdict_of(kind, EdgeId(number as u32))));
    }
    Ok(())
}

// The state where seat 0 claimed the one edge, and seat 1 found it claimed and was joined into seat 0.
fn joined_after_a_claim(alloc: Global) -> Result<CoreState, AllocError> {
    let first = CoreSeat {
        seen: Seq::new(alloc),
        taken: Seq::from_slice(alloc, &[(EdgeId(0), 0)])?,
        done: Seq::new(alloc),
        in_flight: Some(EdgeId(0)),
        part: 65536,
        ended: false,
    };
    let second = CoreSeat {
        seen: Seq::from_slice(alloc, &[(EdgeId(0), Word::Claimed)])?,
        taken: Seq::new(alloc),
        done: Seq::new(alloc),
        in_flight: None,
        part: 1,
        ended: true,
    };
    let mut seats = Seq::new(alloc);
    seats.push(first)?;
    seats.push(second)?;
    Ok(CoreState {
        words: Seq::from_slice(alloc, &[Word::Claimed])?,
        seats,
    })
}

#[test]
fn replays_end_in_their_state_or_at_the_first_bad_event(rt: HostRuntime) -> Result<(), Fail> {
    let edge = EdgeId(0);
    let claims = [
        CoreEvent::Claim { seat: 0, edge },
        CoreEvent::Split { seat: 0 },
        CoreEvent::Claim { seat: 1, edge },
        CoreEvent::Join { seat: 0, other: 1 },
    ];
    let Ok(state) = replay(rt.alloc(), 1, &claims) else {
        panic!(rt; "not allowed, or no memory")
    };
    assert!(rt; state.same(&joined_after_a_claim(rt.alloc())?));
    assert!(rt; state.copy(rt.alloc())?.same(&state));

    let publishes = [
        claims[0],
        claims[1],
        claims[2],
        CoreEvent::Publish {
            seat: 1,
            edge,
            verdict: REFUTED,
        },
    ];
    let joins_itself = [CoreEvent::Join { seat: 0, other: 0 }];
    let bad = [
        (1, &publishes[..], 3),
        (1, &joins_itself[..], 0),
        (0, &claims[..], 0),
    ];
    for (edges, events, event) in bad {
        let Err(fail) = replay(rt.alloc(), edges, events) else {
            panic!(rt; "allowed")
        };
        assert!(rt; fail == th_base::Fail::Refused(BadEvent { event }));
        let text = format!(in rt.alloc(); "{fail}")?;
        let wanted = format!(in rt.alloc(); "event {event} is not allowed")?;
        assert!(rt; text.as_str() == wanted.as_str());
    }
    Ok(())
}
