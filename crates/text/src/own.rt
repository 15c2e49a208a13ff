// The fault of a row in a text whose rows stand in the record's own order.
ghost use Rattle.std.specs.Prelude.{◌≡◌, not, ◌&&◌, [], leb, length, take};
ghost use Rattle.lists.specs.Keyed.{Ascending};
ghost use Rattle.refusals.specs.Numbers.{number_of};
ghost use Rattle.record_rows.specs.grounds.Ground.{known, row_fault};
ghost use Rattle.record_tables.specs.Table.{names_of};
ghost use Rattle.record_tables.specs.Checked.{MarksNames};
ghost use Rattle.text.specs.Text.{no_ground, edit_fault, constraint_fault};
ghost use Rattle.text.specs.Own.{row_kind};

use crate::manner::RowsAbove;
use record::{Constraint, Edit};
use record_rows::element::Element;
use record_rows::row::{CONSTRAINT_CELLS, ConstraintRow, EDIT_CELLS, EditRow};
use refusals::Refusal;

// Whether a row is new and the rows above it take every place.
// Kept: `above` and `row` are two here and below, as in `record_tables`.
fn no_place<const CELLS: usize, T: Element<CELLS>>(
    above: &[[u32; CELLS]],
    row: &[u32; CELLS],
) -> bool
    ensures { result ≡ (not (known T.KEY row.now above.now) && leb T.PLACES (length above.now)) }
{
    if above.len() < T::PLACES {
        return false;
    }
    !record_tables::is_repeated::<CELLS, T>(above, row)
}

// The fault of a row below those above it; `further` is that of its kind alone.
fn row_fault<const CELLS: usize, T: Element<CELLS>>(
    above: &[[u32; CELLS]],
    row: &[u32; CELLS],
    further: Result<(), Refusal>,
) -> Result<(), Refusal>
    ensures { Ascending (take T.KEY) above.now → number_of result ≡ row_fault (row_kind T.KEY T.PLACES T.fits (number_of further)) [] above.now row.now }
{
    if !T::in_range(row) {
        return Err(Refusal::OutOfRange);
    }
    if no_place::<CELLS, T>(above, row) {
        return Err(Refusal::NoPlace);
    }
    further?;
    if !record_tables::follows::<CELLS, T>(above, row) {
        return Err(Refusal::Misplaced);
    }
    Ok(())
}

// The fault of an edit below the rows above it, with no ground after the others.
pub fn edit_fault(above: RowsAbove, row: EditRow) -> Result<(), Refusal>
    ensures { Ascending (take 1) above.entry.edits.now → number_of result ≡ edit_fault no_ground above.entry.edits.now above.entry.constraints.now row }
{
    row_fault::<EDIT_CELLS, Edit>(above.edits, &row, Ok(()))?;
    if 0 < above.constraints.len() {
        return Err(Refusal::Misplaced);
    }
    Ok(())
}

// The fault of a constraint below the rows above it.
pub fn constraint_fault(above: RowsAbove, row: ConstraintRow) -> Result<(), Refusal>
    ensures { Ascending (take 3) above.entry.constraints.now → MarksNames above.entry.marks.now (names_of above.entry.edits.now) → number_of result ≡ constraint_fault above.entry.edits.now above.entry.constraints.now row }
{
    let further = record_tables::constraint_further(row, above.marks, false);
    row_fault::<CONSTRAINT_CELLS, Constraint>(above.constraints, &row, further)
}
