// Lists turned round: for each number the places of the lists that have it.
ghost use Rattle.std.specs.Prelude.{◌≡◌, ◌≢◌, ◌<◌, ◌^◌, ◌++◌, ◌∷◌, [], ℕ, length, false, IfOk, OnOk, if◌then◌else◌, replicate};
ghost use Rattle.th_base.specs.IdSet.{has};
ghost use Rattle.th_flow.specs.Flows.{numbers_of};
ghost use Rattle.th_flow.specs.Inverted.{row_at, places_with, is_last};

use std::alloc::{AllocError, Global};
use th_base::{NodeId, Seq};

// For each number below a count the places of the lists that have it, ascending.
pub(crate) fn inverted(
    alloc: Global,
    count: usize,
    lists: &[Seq<u32>],
) -> Result<Vec<Seq<NodeId>>, AllocError>
    requires { length lists.now < 2 ^ 32 }
    ensures count { IfOk result (λ rows. length rows.items ≡ count) }
    ensures rows { IfOk result (λ rows. (r : ℕ) → r < count → row_at rows.items r ≡ places_with r lists.now) }
{
    let mut rows = empty_rows(alloc, count)?;
    for (place, list) in lists.iter().enumerate() {
        note_each(&mut rows, list.as_slice(), place as u32)?;
    }
    Ok(rows)
}

// So many empty rows.
fn empty_rows(alloc: Global, count: usize) -> Result<Vec<Seq<NodeId>>, AllocError>
    ensures { IfOk result (λ rows. rows.items ≡ replicate count []) }
{
    let mut rows = Vec::new(alloc);
    for _ in 0..count {
        rows.push(Seq::new(alloc))?;
    }
    Ok(rows)
}

// Puts a place, which no row has yet, at the end of each row that a list names.
fn note_each(rows: &mut Vec<Seq<NodeId>>, list: &[u32], place: u32) -> Result<(), AllocError>
    requires { (r : ℕ) → r < length rows.old.items → has (row_at rows.old.items r) place ≡ false }
    ensures count { length rows.new.items ≡ length rows.old.items }
    ensures rows { OnOk result ((r : ℕ) → r < length rows.old.items → row_at rows.new.items r ≡ row_at rows.old.items r ++ (if has list.now r then place ∷ [] else [])) }
{
    for row in list {
        if (*row as usize) < rows.len() {
            note(rows, *row as usize, place)?;
        }
    }
    Ok(())
}

// Puts a place at the end of a row, unless it stands there.
fn note(rows: &mut Vec<Seq<NodeId>>, row: usize, place: u32) -> Result<(), AllocError>
    requires { row < length rows.old.items }
    ensures count { length rows.new.items ≡ length rows.old.items }
    ensures here { OnOk result (row_at rows.new.items row ≡ (if is_last (row_at rows.old.items row) place then row_at rows.old.items row else row_at rows.old.items row ++ place ∷ [])) }
    ensures others { OnOk result ((r : ℕ) → r ≢ row → row_at rows.new.items r ≡ row_at rows.old.items r) }
{
    note_in(&mut rows[row], place)
}

// The same, of one row.
fn note_in(row: &mut Seq<NodeId>, place: u32) -> Result<(), AllocError>
    ensures { OnOk result (numbers_of row.new ≡ (if is_last (numbers_of row.old) place then numbers_of row.old else numbers_of row.old ++ place ∷ [])) }
{
    let len = row.len();
    if len > 0 && row.as_slice()[len - 1].0 == place {
        return Ok(());
    }
    row.push(NodeId(place))
}
