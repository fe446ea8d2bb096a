// What nothing names goes, and what is past the limits.
ghost use Rattle.std.specs.Prelude.{◌≡◌, ◌==◌, ◌&&◌, ◌||◌, filter, take, IfOk, IsTrue};
ghost use Rattle.std.specs.List.{list_any};
ghost use Rattle.th_query.specs.Settled.{pruned, cut as cut_of, cut_frames as cut_frames_of, limited};
ghost use Rattle.th_steps.specs.Named.{named_in};

use std::alloc::{AllocError, Global};
use th_base::{FieldId, Reg, Seq};
use th_query::{
    Cell, Element, Frame, MOST_DIFFERENCES, MOST_FACTS, MOST_LINKS, MOST_REGISTERS, MOST_STATICS,
    Query,
};

/// The query within its limits: the later facts go, in their order, and then the differences of
/// symbols that nothing names. Takes memory only where facts of registers go.
pub fn limit(alloc: Global, query: Query) -> Result<Query, AllocError>
    ensures { IfOk result (λ less. less ≡ limited query) }
{
    let within = cut(alloc, query)?;
    Ok(prune(within))
}

/// The query without the differences of symbols that no register, static field, cell or element names.
/// Takes no memory.
pub fn prune(query: Query) -> Query
    ensures { result ≡ pruned query }
{
    let Query {
        frames,
        statics,
        cells,
        elems,
        syms,
        diffs,
        facts,
    } = query;
    let kept = named_pairs(
        frames.as_slice(),
        statics.as_slice(),
        cells.as_slice(),
        elems.as_slice(),
        diffs.into_vec(),
    );
    Query {
        frames,
        statics,
        cells,
        elems,
        syms,
        diffs: Seq::from_vec(kept),
        facts,
    }
}

// The pairs of symbols that are both named.
fn named_pairs(
    frames: &[Frame],
    statics: &[(FieldId, u32)],
    cells: &[Cell],
    elems: &[Element],
    mut pairs: Vec<(u32, u32)>,
) -> Vec<(u32, u32)>
    ensures { result.items ≡ filter (λ d. named_in frames.now statics.now cells.now elems.now d.0 && named_in frames.now statics.now cells.now elems.now d.1) pairs.items }
{
    pairs.retain(|pair| are_named(frames, statics, cells, elems, *pair));
    pairs
}

// Whether both symbols of a pair are named.
fn are_named(
    frames: &[Frame],
    statics: &[(FieldId, u32)],
    cells: &[Cell],
    elems: &[Element],
    pair: (u32, u32),
) -> bool
    ensures { result ≡ (named_in frames.now statics.now cells.now elems.now pair.0 && named_in frames.now statics.now cells.now elems.now pair.1) }
{
    is_named(frames, statics, cells, elems, pair.0)
        && is_named(frames, statics, cells, elems, pair.1)
}

// Whether a register, a static field, a cell or an element names the symbol.
pub(crate) fn is_named(
    frames: &[Frame],
    statics: &[(FieldId, u32)],
    cells: &[Cell],
    elems: &[Element],
    symbol: u32,
) -> bool
    ensures { result ≡ named_in frames.now statics.now cells.now elems.now symbol }
{
    in_places(frames, statics, symbol) || in_links(cells, elems, symbol)
}

// Whether a register of a frame or a static field names the symbol.
fn in_places(frames: &[Frame], statics: &[(FieldId, u32)], symbol: u32) -> bool
    ensures { result ≡ (list_any (λ f. list_any (λ x. x.1 == symbol) f.regs) frames.now || list_any (λ x. x.1 == symbol) statics.now) }
{
    in_frames(frames, symbol) || in_statics(statics, symbol)
}

// Whether a register of a frame names the symbol.
fn in_frames(frames: &[Frame], symbol: u32) -> bool
    ensures { result ≡ list_any (λ f. list_any (λ x. x.1 == symbol) f.regs) frames.now }
{
    frames
        .iter()
        .any(|frame| in_registers(frame.regs.as_slice(), symbol))
}

// Whether one of the registers names the symbol.
fn in_registers(regs: &[(Reg, u32)], symbol: u32) -> bool
    ensures { result ≡ list_any (λ x. x.1 == symbol) regs.now }
{
    regs.iter().any(|pair| pair.1 == symbol)
}

// Whether a static field names the symbol.
fn in_statics(statics: &[(FieldId, u32)], symbol: u32) -> bool
    ensures { result ≡ list_any (λ x. x.1 == symbol) statics.now }
{
    statics.iter().any(|pair| pair.1 == symbol)
}

// Whether a cell or an element names the symbol.
fn in_links(cells: &[Cell], elems: &[Element], symbol: u32) -> bool
    ensures { result ≡ (list_any (λ c. (c.base == symbol) || (c.value == symbol)) cells.now || list_any (λ e. (e.array == symbol) || (e.value == symbol)) elems.now) }
{
    in_cells(cells, symbol) || in_elements(elems, symbol)
}

// Whether a cell names the symbol.
fn in_cells(cells: &[Cell], symbol: u32) -> bool
    ensures { result ≡ list_any (λ c. (c.base == symbol) || (c.value == symbol)) cells.now }
{
    cells
        .iter()
        .any(|cell| cell.base == symbol || cell.value == symbol)
}

// Whether an element names the symbol.
fn in_elements(elems: &[Element], symbol: u32) -> bool
    ensures { result ≡ list_any (λ e. (e.array == symbol) || (e.value == symbol)) elems.now }
{
    elems.iter().any(|element| element.array == symbol || element.value == symbol)
}

// The query without the facts past the limits. Takes memory only where facts of registers go.
fn cut(alloc: Global, query: Query) -> Result<Query, AllocError>
    ensures { IfOk result (λ less. less ≡ cut_of query) }
{
    let Query {
        frames,
        statics,
        cells,
        elems,
        syms,
        diffs,
        facts,
    } = query;
    let room = MOST_LINKS.saturating_sub(cells.len());
    Ok(Query {
        frames: cut_frames(alloc, frames)?,
        statics: first(statics, MOST_STATICS),
        cells: first(cells, MOST_LINKS),
        elems: first(elems, room),
        syms,
        diffs: first(diffs, MOST_DIFFERENCES),
        facts: first(facts, MOST_FACTS),
    })
}

// The first items, so many at most. Takes no memory.
fn first<T: Drop>(items: Seq<T>, count: usize) -> Seq<T>
    ensures { result ≡ take count items }
{
    let mut items = items.into_vec();
    items.truncate(count);
    Seq::from_vec(items)
}

// The frames with the first facts of registers, innermost first. Takes memory only where one goes.
fn cut_frames(alloc: Global, frames: Seq<Frame>) -> Result<Seq<Frame>, AllocError>
    ensures { IfOk result (λ cut. cut ≡ cut_frames_of MOST_REGISTERS frames) }
{
    if are_few(frames.as_slice()) {
        return Ok(frames);
    }
    copy_first(alloc, frames.as_slice())
}

// Whether the frames have no more facts of registers than a query may have.
fn are_few(frames: &[Frame]) -> bool
    ensures { IsTrue result → cut_frames_of MOST_REGISTERS frames.now ≡ frames.now }
{
    let mut room = MOST_REGISTERS;
    for frame in frames {
        let count = frame.regs.len();
        if count > room {
            return false;
        }
        room -= count;
    }
    true
}

// A copy of the frames with the first facts of registers.
fn copy_first(alloc: Global, frames: &[Frame]) -> Result<Seq<Frame>, AllocError>
    ensures { IfOk result (λ cut. cut ≡ cut_frames_of MOST_REGISTERS frames.now) }
{
    let mut kept = Vec::new(alloc);
    let mut room = MOST_REGISTERS;
    for frame in frames {
        let regs = copy_some(alloc, frame.regs.as_slice(), room)?;
        let node = frame.node;
        kept.push(Frame { node, regs })?;
        room = room.saturating_sub(frame.regs.len());
    }
    Ok(Seq::from_vec(kept))
}

// A copy of the first of these, so many at most.
fn copy_some(
    alloc: Global,
    regs: &[(Reg, u32)],
    count: usize,
) -> Result<Seq<(Reg, u32)>, AllocError>
    ensures { IfOk result (λ some. some ≡ take count regs.now) }
{
    let end = count.min(regs.len());
    Seq::from_slice(alloc, &regs[..end])
}
