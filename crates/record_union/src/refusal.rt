// The ground of the first faulty row of tables that join a record (document 01, "What is turned away"): one walk through the record's table and the
// lent rows, both in order. The functions are pub for the crates of this workspace that unite records.
ghost use Rattle.std.specs.Prelude.{◌≡◌, List, map, ℕ, take};
ghost use Rattle.record.specs.Record as theory;
ghost use Rattle.record.specs.Stored.{record_of, stored};
ghost use Rattle.lists.specs.Keyed.{Ascending};
ghost use Rattle.record_rows.specs.row.Row.{Row};
ghost use Rattle.record_rows.specs.grounds.Ground.{table_fault};
ghost use Rattle.record_rows.specs.grounds.Walk.{place_fault};
ghost use Rattle.record_tables.specs.Table.{edit_rows, constraint_rows, edit_kind, constraint_kind, empty_tables, lent_fault, add_edit_fault, add_constraint_fault};
ghost use Rattle.record_tables.specs.Checked.{Checked, OrderedTables, MarksNames};
ghost use Rattle.refusals.specs.Numbers.{number_of};

use record::{Constraint, Edit, Record};
use record_rows::element::Element;
use record_rows::grounds;
use record_rows::row::{CONSTRAINT_CELLS, ConstraintRow, EDIT_CELLS, EditRow, LentRecord};
use refusals::Refusal;

// The lowest of 3 and 4 that holds of a row out of order or repeated, while count places are taken.
// Kept: `above` and `row` are two, as in `record_tables`.
fn late<const CELLS: usize, T: Element<CELLS>>(
    own: &[T],
    above: &[[u32; CELLS]],
    row: &[u32; CELLS],
    count: usize,
) -> Result<(), Refusal>
    ensures { Ascending (take T.KEY) (map T.row_of own.now) → number_of result ≡ place_fault T.KEY T.PLACES (map T.row_of own.now) count above.now row.now }
{
    if record_tables::is_repeated::<CELLS, T>(above, row) {
        return Ok(());
    }
    let p = grounds::passed::<CELLS, T>(own, row);
    grounds::joins::<CELLS, T>(&own[p..], row, T::PLACES <= count)?;
    Ok(())
}

// What is tested of a row in range beside its place: the tests between 4 and 13 of its kind of table. A trait, whose number the contract of
// `table_fault` names.
trait Further<const CELLS: usize> {
    ghost number: { Self → Row → ℕ };

    fn test(&self, row: &[u32; CELLS]) -> Result<(), Refusal>
        ensures { number_of result ≡ number self.now row.now };
}

// Of an edit, nothing.
#[derive(Clone, Copy)]
struct Nothing;

impl Further<EDIT_CELLS> for Nothing {
    ghost number = { λ none row. 0 };

    fn test(&self, _row: &EditRow) -> Result<(), Refusal> {
        Ok(())
    }
}

// Of a constraint, its sides, by the marks of the edits that it knows, and whether it may be added.
#[derive(Clone, Copy)]
struct Sides<'a> {
    marks: &'a [u8],
    adding: bool,
}

impl Further<CONSTRAINT_CELLS> for Sides<'_> {
    ghost use Rattle.record_tables.specs.Checked.{marked_further};

    ghost number = { λ sides. marked_further sides.marks.now sides.adding };

    fn test(&self, row: &ConstraintRow) -> Result<(), Refusal> {
        record_tables::marked_further(row, self.marks, self.adding)
    }
}

// The ground of the first faulty row of a table that joins one of a record.
// Kept: a place in the record's table and not what is left of it, for `late` looks through the whole.
fn table_fault<const CELLS: usize, T: Element<CELLS>, F: Further<CELLS>>(
    own: &[T],
    t: &[[u32; CELLS]],
    further: &F,
) -> Result<(), Refusal>
    ensures { Ascending (take T.KEY) (map T.row_of own.now) → number_of result ≡ table_fault (record { key = T.KEY; limit = T.PLACES; in_range = T.fits; further = F.number further.now }) (map T.row_of own.now) t.now }
{
    let mut passed = 0;
    let mut count = own.len();
    for (i, row) in t.iter().enumerate() {
        if !T::in_range(row) {
            return Err(Refusal::OutOfRange);
        }
        let above = &t[..i];
        if !record_tables::follows::<CELLS, T>(above, row) {
            late::<CELLS, T>(own, above, row, count)?;
            further.test(row)?;
            return Err(Refusal::Misplaced);
        }
        passed += grounds::passed::<CELLS, T>(&own[passed..], row);
        let new = grounds::joins::<CELLS, T>(&own[passed..], row, T::PLACES <= count)?;
        further.test(row)?;
        count += usize::from(new);
    }
    Ok(())
}

// The ground of the first faulty row of a lent record that joins a record; its constraints know only its own edits.
pub fn fault(joined: Record, lent: LentRecord) -> Result<(), Refusal>
    ensures { (R : theory.Record) → joined ≡ stored R → Checked R → number_of result ≡ lent_fault R lent.entry.edits.now lent.entry.constraints.now }
{
    edit_fault(&joined, lent.edits)?;
    let marks = record_tables::mark_rows(lent.edits);
    constraint_fault(&joined, lent.constraints, &marks, false)
}

// The same of a lent record by itself.
pub fn lent_fault(lent: LentRecord) -> Result<(), Refusal>
    ensures { number_of result ≡ lent_fault empty_tables lent.entry.edits.now lent.entry.constraints.now }
{
    fault(record::empty(), lent)
}

// The ground of one edit that is added to a record.
pub fn edit_add_fault(joined: Record, row: EditRow) -> Result<(), Refusal>
    ensures { (R : theory.Record) → joined ≡ stored R → Checked R → number_of result ≡ add_edit_fault R row }
{
    edit_fault(&joined, &[row])
}

// The ground of one constraint that is added to a record; it knows the record's edits.
pub fn constraint_add_fault(joined: Record, row: ConstraintRow) -> Result<(), Refusal>
    ensures { (R : theory.Record) → joined ≡ stored R → Checked R → number_of result ≡ add_constraint_fault R row }
{
    let marks = record_tables::mark_edits(joined.edit_slice());
    constraint_fault(&joined, &[row], &marks, true)
}

fn edit_fault(joined: &Record, t: &[EditRow]) -> Result<(), Refusal>
    ensures { OrderedTables joined.now → number_of result ≡ table_fault edit_kind (edit_rows (record_of joined.now)) t.now }
{
    table_fault::<EDIT_CELLS, Edit, Nothing>(joined.edit_slice(), t, &Nothing)
}

// marks: those of the edits that the constraints know.
fn constraint_fault(
    joined: &Record,
    t: &[ConstraintRow],
    marks: &[u8],
    adding: bool,
) -> Result<(), Refusal>
    ensures { (names : List ℕ) → MarksNames marks.now names → OrderedTables joined.now → number_of result ≡ table_fault (constraint_kind names adding) (constraint_rows (record_of joined.now)) t.now }
{
    let sides = Sides { marks, adding };
    table_fault::<CONSTRAINT_CELLS, Constraint, Sides>(joined.constraint_slice(), t, &sides)
}
