// What edits and constraints have in common: a row of numbers, of which the first cells are a key, and a filler for the rows of a table past its
// count. What is said of tables of any kind is said of an element's type.
ghost use Rattle.std.specs.Prelude.{◌≡◌, Bool, List, ℕ, ◌≤◌, length, take};
ghost use Rattle.lists.specs.Keyed.{precedes};
ghost use Rattle.record_rows.specs.row.Row.{Row};

use crate::row;
use crate::row::{CONSTRAINT_CELLS, ConstraintRow, EDIT_CELLS, EditRow, INSERT, REMOVE, SET};
use record::{Body, CONSTRAINTS, Constraint, EDITS, Edit};

pub trait Element<const CELLS: usize>: Copy {
    // The row of an element, and its first cells, the key.
    ghost row_of: { Self → Row };

    ghost key_of: { Self → List ℕ };

    // Whether a row is in range, and the element that it then is.
    ghost fits: { Row → Bool };

    ghost element_of: { Row → Self };

    // What stands in the rows past a count.
    // Kept: not Default's: this is a value, which the laws of tables name; Default says `is_default` of a value, a relation.
    ghost filler: { Self };

    // How many cells the key has, and how many elements a record has places for.
    ghost KEY: { ℕ };

    const KEY: usize;

    ghost PLACES: { ℕ };

    const PLACES: usize;

    fn row(self) -> [u32; CELLS]
        ensures { result ≡ row_of self };

    fn in_range(row: &[u32; CELLS]) -> bool
        ensures { result ≡ fits row.now };

    // A row in range as an element; of any other the filler.
    // Kept: total, as edit_of and constraint_of are: its callers have tested the row, and would answer for a refusal that never comes.
    fn of(row: &[u32; CELLS]) -> Self
        ensures { result ≡ element_of row.now };

    fn filler() -> Self
        ensures { result ≡ filler };

    // Whether the key of this element precedes that of the other.
    // Kept: the order is of keys, and what is derived is of whole values.
    fn below(self, other: Self) -> bool
        ensures { result ≡ precedes (key_of self) (key_of other) };

    ghost narrow: { KEY ≤ CELLS };

    ghost wide: { (x : Self) → length (row_of x) ≡ CELLS };

    ghost keyed: { (x : Self) → take KEY (row_of x) ≡ key_of x };
}

impl Element<EDIT_CELLS> for Edit {
    ghost use Rattle.std.specs.Prelude.{[], ◌∷◌};
    ghost use Rattle.record.specs.Stored.{edit_limit, filler_edit};
    ghost use Rattle.record_rows.specs.row.Row.{edit_row, edit_in_range, edit_of};
    ghost use Rattle.record_rows.specs.element.Laws.{edit-narrow, edit-wide, edit-keyed};

    ghost row_of = { edit_row };

    ghost key_of = { λ e. e.name ∷ [] };

    ghost fits = { edit_in_range };

    ghost element_of = { edit_of };

    ghost filler = { filler_edit };

    ghost KEY = { 1 };

    const KEY: usize = 1;

    ghost PLACES = { edit_limit };

    const PLACES: usize = EDITS;

    fn row(self) -> EditRow {
        let name = u32::from(self.name);
        match self.body {
            Body::Insert(place) => [name, INSERT, u32::from(place), 0, 0],
            Body::Set(place, field, value) => [name, SET, u32::from(place), field as u32, value],
            Body::Remove(place) => [name, REMOVE, u32::from(place), 0, 0],
        }
    }

    fn in_range(row: &EditRow) -> bool {
        row::edit_in_range(*row)
    }

    fn of(row: &EditRow) -> Edit {
        row::decoded_edit(*row).unwrap_or(Edit::filler())
    }

    fn filler() -> Edit {
        Edit::default()
    }

    // Kept: by the name alone, where a derived order takes the body too.
    fn below(self, other: Edit) -> bool {
        self.name < other.name
    }

    ghost narrow = { edit-narrow };

    ghost wide = { edit-wide };

    ghost keyed = { edit-keyed };
}

impl Element<CONSTRAINT_CELLS> for Constraint {
    ghost use Rattle.std.specs.Prelude.{[], ◌∷◌};
    ghost use Rattle.record.specs.Stored.{constraint_limit, filler_constraint};
    ghost use Rattle.record_rows.specs.row.Row.{constraint_row, constraint_in_range, constraint_of};
    ghost use Rattle.record_rows.specs.element.Laws.{constraint-narrow, constraint-wide, constraint-keyed};

    ghost row_of = { constraint_row };

    ghost key_of = { λ c. c.left ∷ c.rule ∷ c.right ∷ [] };

    ghost fits = { constraint_in_range };

    ghost element_of = { constraint_of };

    ghost filler = { filler_constraint };

    ghost KEY = { 3 };

    const KEY: usize = 3;

    ghost PLACES = { constraint_limit };

    const PLACES: usize = CONSTRAINTS;

    fn row(self) -> ConstraintRow {
        [
            u32::from(self.left),
            u32::from(self.rule),
            u32::from(self.right),
        ]
    }

    fn in_range(row: &ConstraintRow) -> bool {
        row::constraint_in_range(*row)
    }

    fn of(row: &ConstraintRow) -> Constraint {
        if !row::constraint_in_range(*row) {
            return Constraint::filler();
        }
        let [left, rule, right] = *row;
        Constraint {
            left: left as u16,
            rule: rule as u8,
            right: right as u16,
        }
    }

    fn filler() -> Constraint {
        Constraint::default()
    }

    // Kept: the derived order, as the trait asks for it.
    fn below(self, other: Constraint) -> bool {
        self < other
    }

    ghost narrow = { constraint-narrow };

    ghost wide = { constraint-wide };

    ghost keyed = { constraint-keyed };
}
