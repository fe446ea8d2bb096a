// The kinds of a method, and a walk through them.
ghost use Rattle.std.specs.Prelude.{◌≡◌, ◌<◌, ◌≤◌, true, [], ◌∷◌, List, Some, None, length, drop, reverse, IfOk, OnOk, OnErr};
ghost use Rattle.th_syntax.specs.KindTable.{KindsBefore};
ghost use Rattle.th_kinds.specs.States.{seen_state};
ghost use Rattle.th_kinds.specs.Kept.{seen_kept};
ghost use Rattle.th_kinds.specs.Listed.{listed, is_there};
ghost use Rattle.th_kinds.specs.Here.{IsHere};
ghost use Rattle.th_kinds.specs.Walk as walk;

use crate::listing::instr_at;
use crate::row::row_of;
use crate::state::{Frame, State, copied_state};
use crate::walk::{fallen_out, state_before};
use std::alloc::{AllocError, Global};
use std::marker::Model;
use std::mem;
use th_syntax::{Instr, SlotKind};

/// The kinds of the slots before each instruction of a method that is reached (Java specification
/// 4.10.2.2). Contracts see them as a list in the order of the instructions; of a method without code it
/// is empty.
///
/// Kinds are kept at the instructions to which one jumps. `walk` goes through all, and works out the
/// others from one to the next, so they take no room.
#[derive(Debug, Drop)]
pub struct Kinds<'a> {
    pub(crate) instrs: &'a [(u32, Instr)],
    pub(crate) entry: State,
    pub(crate) kept: Vec<Option<State>>,
}

impl<'a> Model for Kinds<'a> {
    ghost use Rattle.std.specs.Prelude.{◌≡◌, List, length};
    ghost use Rattle.th_syntax.specs.KindTable.{KindsBefore};

    ghost Value = { List KindsBefore };

    ghost use Rattle.th_kinds.specs.States.{seen_state};
    ghost use Rattle.th_kinds.specs.Kept.{seen_kept};
    ghost use Rattle.th_kinds.specs.Listed.{listed};

    ghost view = { λ k. listed k.instrs.now (seen_kept k.kept.items) (seen_state k.entry) };

    ghost invariant = { λ k. length k.kept.items ≡ length k.instrs.now };
}

impl Kinds<'_> {
    /// A walk through the kinds, which stands before the first instruction.
    pub fn walk(&self, alloc: Global) -> Result<KindsWalk<'_>, AllocError>
        ensures { IfOk result (λ walk. walk ≡ self.now) }
    {
        let fallen = copied_state(alloc, &self.entry)?;
        walk_from(alloc, self.instrs, self.kept.as_slice(), fallen)
    }
}

/// The kinds before an instruction that is reached.
#[derive(Debug, Drop)]
pub struct KindsRow<'k> {
    /// The instruction's offset in bytes from the start of the code.
    pub offset: u32,
    /// The kinds of the locals, from local 0 on.
    pub locals: &'k [SlotKind],
    /// The kinds of the operand stack, the top last.
    pub stack: &'k [SlotKind],
}

/// A walk through the kinds of a method, from one instruction that is reached to the next. Contracts see
/// the kinds that are still to come, that of the instruction before which it stands first.
#[derive(Debug, Drop)]
pub struct KindsWalk<'k> {
    instrs: &'k [(u32, Instr)],
    kept: &'k [Option<State>],
    place: usize,
    fallen: State,
}

impl<'k> Model for KindsWalk<'k> {
    ghost use Rattle.std.specs.Prelude.{◌≡◌, ◌<◌, true, List, length, drop};
    ghost use Rattle.th_syntax.specs.KindTable.{KindsBefore};

    ghost Value = { List KindsBefore };

    ghost use Rattle.th_kinds.specs.States.{seen_state};
    ghost use Rattle.th_kinds.specs.Kept.{seen_kept};
    ghost use Rattle.th_kinds.specs.Listed.{listed, is_there};
    ghost use Rattle.th_kinds.specs.Walk.{here, kept_at};

    ghost view = { λ w. listed (drop w.place w.instrs.now) (drop w.place (seen_kept w.kept.now)) (seen_state w.fallen) };

    ghost invariant = { λ w. (length w.kept.now ≡ length w.instrs.now) × (w.place < length w.instrs.now → is_there (here (seen_state w.fallen) (kept_at (seen_kept w.kept.now) w.place)) ≡ true) };
}

// A place, and what falls into the instruction there.
#[derive(Debug, Drop)]
struct Position {
    place: usize,
    fallen: State,
}

// What is known before an instruction: what is kept there, or else what falls in.
fn known_at<'s>(kept: &'s [Option<State>], place: usize, fallen: &'s State) -> &'s State
    requires { place < length kept.now }
    ensures { seen_state result.now ≡ walk.here (seen_state fallen.now) (walk.kept_at (seen_kept kept.now) place) }
{
    match &kept[place] {
        Some(known) => known,
        None => fallen,
    }
}

// Whether there are kinds.
fn is_kinds(state: &State) -> bool
    ensures { result ≡ is_there (seen_state state.now) }
{
    matches!(state, State::OfKinds(_))
}

// What falls out of the instruction at a place, where this falls into it.
fn step(
    alloc: Global,
    instrs: &[(u32, Instr)],
    kept: &[Option<State>],
    place: usize,
    fallen: State,
) -> Result<State, AllocError>
    requires length { length kept.now ≡ length instrs.now }
    requires inside { place < length instrs.now }
    ensures { IfOk result (λ out. seen_state out ≡ walk.fallen_behind (walk.line instrs.now place).1 (walk.here (seen_state fallen) (walk.kept_at (seen_kept kept.now) place))) }
{
    let instr = instr_at(instrs, place);
    let row = row_of(alloc, instr)?;
    let state = state_before(alloc, kept, place, fallen)?;
    fallen_out(alloc, instr, &row, state)
}

// The position of the next instruction before which there are kinds, from this one on.
fn next_kinds(
    alloc: Global,
    instrs: &[(u32, Instr)],
    kept: &[Option<State>],
    start: usize,
    entry: State,
) -> Result<Position, AllocError>
    requires { length kept.now ≡ length instrs.now }
    ensures same { IfOk result (λ p. listed (drop p.place instrs.now) (drop p.place (seen_kept kept.now)) (seen_state p.fallen) ≡ listed (drop start instrs.now) (drop start (seen_kept kept.now)) (seen_state entry)) }
    ensures there { IfOk result (λ p. p.place < length instrs.now → is_there (walk.here (seen_state p.fallen) (walk.kept_at (seen_kept kept.now) p.place)) ≡ true) }
{
    let mut place = start;
    let mut fallen = entry;
    while place < instrs.len() {
        if is_kinds(known_at(kept, place, &fallen)) {
            return Ok(Position { place, fallen });
        }
        fallen = step(alloc, instrs, kept, place, fallen)?;
        place += 1;
    }
    Ok(Position { place, fallen })
}

// A walk that stands before the first instruction, into which this falls.
fn walk_from<'k>(
    alloc: Global,
    instrs: &'k [(u32, Instr)],
    kept: &'k [Option<State>],
    entry: State,
) -> Result<KindsWalk<'k>, AllocError>
    requires { length kept.now ≡ length instrs.now }
    ensures { IfOk result (λ walk. walk ≡ listed instrs.now (seen_kept kept.now) (seen_state entry)) }
{
    let start = next_kinds(alloc, instrs, kept, 0, entry)?;
    Ok(KindsWalk {
        instrs,
        kept,
        place: start.place,
        fallen: start.fallen,
    })
}

impl KindsWalk<'_> {
    /// The kinds before the instruction at which the walk stands; `None` exactly where it is over.
    pub fn here(&self) -> Option<KindsRow<'_>>
        ensures { IsHere self.now result }
    {
        if self.place >= self.instrs.len() {
            return None;
        }
        match known_at(self.kept, self.place, &self.fallen) {
            State::OfKinds(frame) => Some(KindsRow {
                offset: self.instrs[self.place].0,
                locals: frame.locals.as_slice(),
                stack: frame.stack.as_slice(),
            }),
            _ => None,
        }
    }

    /// Goes on to the next instruction that is reached. After want of memory the walk is over.
    pub fn advance(&mut self, alloc: Global) -> Result<(), AllocError>
        ensures ok { OnOk result (self.new ≡ drop 1 self.old) }
        ensures err { OnErr result (self.new ≡ []) }
    {
        let place = self.place;
        if place >= self.instrs.len() {
            return Ok(());
        }
        let fallen = mem::replace(&mut self.fallen, State::NoKinds);
        self.place = self.instrs.len();
        let out = step(alloc, self.instrs, self.kept, place, fallen)?;
        let next = next_kinds(alloc, self.instrs, self.kept, place + 1, out)?;
        self.place = next.place;
        self.fallen = next.fallen;
        Ok(())
    }
}
