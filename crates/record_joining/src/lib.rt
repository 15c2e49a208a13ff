// Rows that join a record (document 01, "The record" and "What is turned away"): a lent record, an add, a merge, a record that joins another.
// Each call is refused, and then the record that came in stands, or gives the union. A record handed in is one that these calls, or `record::empty`,
// left.
#![tactic(auto)]

pub mod insertion;

ghost use Rattle.std.specs.Prelude.{◌≡◌, [], ◌∷◌, map, ◌≤◌, get_or, length, replicate};
ghost use Rattle.record.specs.Record as theory;
ghost use Rattle.record.specs.Stored.{padded, stored};
ghost use Rattle.record_tables.specs.Table.{decoded, empty_tables, lent_fault, add_edit_fault, add_constraint_fault, record_join_fault, unite};
ghost use Rattle.record_tables.specs.Checked.{Checked};
ghost use Rattle.refusals.specs.Numbers.{Gives};

use insertion::Constraints;
use record::{CONSTRAINTS, Constraint, EDITS, Edit, Record};
use record_rows::element::Element;
use record_rows::row::{CONSTRAINT_CELLS, ConstraintRow, EDIT_CELLS, EditRow, LentRecord};
use refusals::Refusal;
use std::array;

// A lent record by itself.
pub fn lent(lent: LentRecord) -> Result<Record, Refusal>
    ensures { Gives (lent_fault empty_tables lent.entry.edits.now lent.entry.constraints.now) (stored (decoded lent.entry.edits.now lent.entry.constraints.now)) result }
{
    record_union::refusal::lent_fault(lent)?;
    Ok(record_union::decode(lent))
}

// A lent record joins a record.
pub fn merge(joined: Record, lent: LentRecord) -> Result<Record, Refusal>
    ensures { (R : theory.Record) → joined ≡ stored R → Checked R → Gives (lent_fault R lent.entry.edits.now lent.entry.constraints.now) (stored (unite R (decoded lent.entry.edits.now lent.entry.constraints.now))) result }
{
    record_union::refusal::fault(joined, lent)?;
    let joining = record_union::decode(lent);
    Ok(record_union::union(joined, joining))
}

// One edit is added.
pub fn add_edit(joined: Record, row: EditRow) -> Result<Record, Refusal>
    ensures { (R : theory.Record) → joined ≡ stored R → Checked R → Gives (add_edit_fault R row) (stored (unite R (decoded (row ∷ []) []))) result }
{
    record_union::refusal::edit_add_fault(joined, row)?;
    let joining = record_union::decode(LentRecord {
        edits: &[row],
        constraints: &[],
    });
    Ok(record_union::union(joined, joining))
}

// One constraint is added: its place is found by halving, where a union walks through the whole table.
pub fn add_constraint(joined: Record, row: ConstraintRow) -> Result<Record, Refusal>
    ensures { (R : theory.Record) → joined ≡ stored R → Checked R → Gives (add_constraint_fault R row) (stored (unite R (decoded [] (row ∷ [])))) result }
{
    record_union::refusal::constraint_add_fault(joined, row)?;
    let more = Constraints::of(joined).insert(Constraint::of(&row))?;
    Ok(more.in_record(joined))
}

// The rows of a table, those past its count empty.
// Kept: here and in `record_union::elements_of`: a function of a slice, a closure and a filler for both would be handed a closure whose result is of a
// type that it does not capture, which the borrow checker refuses where the type is a parameter.
fn rows_of<const CELLS: usize, const PLACES: usize, T: Element<CELLS>>(
    elements: &[T],
) -> [[u32; CELLS]; PLACES]
    requires { length elements.now ≤ PLACES }
    ensures { result ≡ padded PLACES (replicate CELLS 0) (map T.row_of elements.now) }
{
    let blank = [0; CELLS];
    array::from_fn(
        |i| -> [u32; CELLS]
            ensures { result ≡ get_or (map T.row_of elements.entry.now) i blank }
        {
            match elements.get(i) {
                Some(element) => element.row(),
                None => blank,
            }
        },
    )
}

// A record joins a record: its rows do.
pub fn merge_record(joined: Record, joining: Record) -> Result<Record, Refusal>
    ensures { (R S : theory.Record) → joined ≡ stored R → Checked R → joining ≡ stored S → Gives (record_join_fault R S) (stored (unite R S)) result }
{
    let own = joining.edit_slice();
    let edits = rows_of::<EDIT_CELLS, EDITS, Edit>(own);
    let rules = joining.constraint_slice();
    let constraints = rows_of::<CONSTRAINT_CELLS, CONSTRAINTS, Constraint>(rules);
    merge(
        joined,
        LentRecord {
            edits: &edits[..own.len()],
            constraints: &constraints[..rules.len()],
        },
    )
}
