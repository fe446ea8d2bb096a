// The instructions of a method as they are gone through.
ghost use Rattle.std.specs.Prelude.{◌≡◌, ◌<◌, length, map, IfOk};
ghost use Rattle.th_syntax.specs.KindRows.{row_of as row_of_instr};
ghost use Rattle.th_kinds.specs.Flowing.{FlowsWell, line};
ghost use Rattle.th_kinds.specs.Listings.{IsReady, seen_rows};
ghost use Rattle.th_kinds.specs.Rows.{seen_row};

use crate::row::{Row, row_of};
use std::alloc::{AllocError, Global};
use th_syntax::Instr;

// The instructions of a method, with the offset and the row of each by its place.
#[derive(Debug, Drop)]
pub(crate) struct Listing<'a> {
    pub(crate) instrs: &'a [(u32, Instr)],
    pub(crate) offsets: Vec<u32>,
    pub(crate) rows: Vec<Row>,
}

// The instruction at a place.
pub(crate) fn instr_at(instrs: &[(u32, Instr)], place: usize) -> &Instr
    requires { place < length instrs.now }
    ensures { result.now ≡ (line instrs.now place).1 }
{
    &instrs[place].1
}

// The row of the instruction at a place.
pub(crate) fn row_at<'c>(code: &'c Listing, place: usize) -> &'c Row
    requires ready { IsReady code.now }
    requires inside { place < length code.now.instrs.now }
    ensures { seen_row result.now ≡ row_of_instr (line code.now.instrs.now place).1 }
{
    &code.rows[place]
}

// The offsets of instructions.
pub(crate) fn offsets_of(alloc: Global, instrs: &[(u32, Instr)]) -> Result<Vec<u32>, AllocError>
    ensures { IfOk result (λ offsets. offsets.items ≡ map (λ i. i.0) instrs.now) }
{
    let mut offsets = Vec::new(alloc);
    for (offset, _) in instrs {
        offsets.push(*offset)?;
    }
    Ok(offsets)
}

// The rows of instructions.
fn rows_of(alloc: Global, instrs: &[(u32, Instr)]) -> Result<Vec<Row>, AllocError>
    ensures { IfOk result (λ rows. seen_rows rows.items ≡ map (λ i. row_of_instr i.1) instrs.now) }
{
    let mut rows = Vec::new(alloc);
    for (_, instr) in instrs {
        let row = row_of(alloc, instr)?;
        rows.push(row)?;
    }
    Ok(rows)
}

impl<'a> Listing<'a> {
    pub(crate) fn new(alloc: Global, instrs: &'a [(u32, Instr)]) -> Result<Listing<'a>, AllocError>
        requires { FlowsWell instrs.now }
        ensures instrs { IfOk result (λ listing. listing.instrs.now ≡ instrs.now) }
        ensures ready { IfOk result IsReady }
    {
        let offsets = offsets_of(alloc, instrs)?;
        let rows = rows_of(alloc, instrs)?;
        Ok(Listing {
            instrs,
            offsets,
            rows,
        })
    }
}
