// The nine lent tables of a kind, the edits or the constraints: one row more, other rows in the place of a table, and its rows.
ghost use Rattle.std.specs.Prelude.{◌≡◌, [], ◌∷◌, ◌++◌, cond, map, ℕ, ◌<◌, ◌≤◌, leb, length};
ghost use Rattle.refusals.specs.Numbers.{number_of};
ghost use Rattle.record_rows.specs.row.Row.{edit_width};
ghost use Rattle.record_rows.specs.grounds.Ground.{Rows};
ghost use Rattle.log_lent.specs.Lent.{lent_records, is_lent, with, constraint_places, rows_fault, added, record_number};
ghost use Rattle.log_lent.specs.Listed.{Listed};
ghost use Rattle.log_lent.specs.lent_tables.Tables.{Tables};

use crate::RECORDS;
use record_rows::element::Element;
use refusals::Refusal;

// The rows of a table, in the first places of an array.
// Kept: an array with its count, as in a record: what is lent is Copy, which the library's ArrayVec is not.
#[derive(Clone, Copy)]
struct KeptRows<const CELLS: usize, const PLACES: usize> {
    rows: [[u32; CELLS]; PLACES],
    count: usize,
}

impl<const CELLS: usize, const PLACES: usize> KeptRows<CELLS, PLACES> {
    // Its rows.
    // Kept: as those of a record, one line over a field and its count.
    fn as_slice(&self) -> &[[u32; CELLS]]
        ensures { (rows : Rows) → Listed PLACES rows self.now.rows self.now.count → result.now ≡ rows }
    {
        &self.rows[..self.count.min(PLACES)]
    }

    // Whether no row has a place.
    fn is_full(&self) -> bool
        ensures { result ≡ leb PLACES self.now.count }
    {
        PLACES <= self.count
    }

    // One row more, if it has a place.
    fn push(&mut self, row: [u32; CELLS])
        ensures { (rows : Rows) → Listed PLACES rows self.old.rows self.old.count → length rows < PLACES
            → Listed PLACES (rows ++ (row.entry ∷ [])) self.new.rows self.new.count }
    {
        if self.count < PLACES {
            self.rows[self.count] = row;
            self.count += 1;
        }
    }
}

// The nine lent tables of a kind.
// Kept: `CELLS ≤ edit_width`: a clause, since `new` has no kind of element of which a law could say it; as an invariant it was tried, and an element of
// an array in a struct with such a field was lent to no method (`refill`).
#[derive(Clone, Copy)]
pub struct LentTables<const CELLS: usize, const PLACES: usize> {
    tables: [KeptRows<CELLS, PLACES>; RECORDS],
}

// A table is these elements, if each has a place.
fn refill<T: Element<CELLS>, const CELLS: usize, const PLACES: usize>(
    table: &mut KeptRows<CELLS, PLACES>,
    elements: &[T],
)
    requires narrow { CELLS ≤ edit_width }
    ensures { (rows : Rows) → Listed PLACES rows table.old.rows table.old.count → length elements.now ≤ PLACES
        → Listed PLACES (map T.row_of elements.now) table.new.rows table.new.count }
{
    table.count = 0;
    for element in elements {
        table.push(element.row());
    }
}

impl<const CELLS: usize, const PLACES: usize> LentTables<CELLS, PLACES> {
    pub fn new() -> Self
        requires narrow { CELLS ≤ edit_width }
        requires short { PLACES ≤ constraint_places }
        ensures { Tables (λ k. []) result.tables }
    {
        let none = KeptRows {
            rows: [[0; CELLS]; PLACES],
            count: 0,
        };
        LentTables {
            tables: [none; RECORDS],
        }
    }

    // A row joins table k.
    pub fn add(&mut self, k: u32, row: [u32; CELLS]) -> Result<(), Refusal>
        ensures { (tables : ℕ → Rows) → Tables tables self.old.tables
            → (number_of result ≡ rows_fault PLACES tables k) × Tables (added PLACES tables k row.entry) self.new.tables }
    {
        let table = crate::record_place(k)?;
        if self.tables[table].is_full() {
            return Err(Refusal::NoPlace);
        }
        self.tables[table].push(row);
        Ok(())
    }

    // Table k is these elements. No row is refused: an empty table has a place for each.
    pub fn replace<T: Element<CELLS>>(&mut self, k: u32, elements: &[T]) -> Result<(), Refusal>
        requires narrow { CELLS ≤ edit_width }
        ensures { (tables : ℕ → Rows) → Tables tables self.old.tables → length elements.now ≤ PLACES
            → (number_of result ≡ record_number k) × Tables (cond (is_lent k) (with k (map T.row_of elements.now) tables) tables) self.new.tables }
    {
        let table = crate::record_place(k)?;
        refill(&mut self.tables[table], elements);
        Ok(())
    }

    // The rows of table k.
    pub fn table(&self, k: usize) -> &[[u32; CELLS]]
        ensures { (tables : ℕ → Rows) → Tables tables self.now.tables → k < lent_records → result.now ≡ tables k }
    {
        if RECORDS <= k {
            return &[];
        }
        let tables = &self.tables[..];
        let table = &tables[k];
        table.as_slice()
    }
}
