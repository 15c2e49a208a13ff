// Two tables of rows without fault as a record, and the union of two records: one walk through each pair of tables.
// The functions are pub for the crates of this workspace that join records.
#![tactic(auto)]

pub mod refusal;

ghost use Rattle.std.specs.Prelude.{◌≡◌, map, ◌≤◌, length, drop};
ghost use Rattle.record.specs.Record as theory;
ghost use Rattle.record.specs.Stored.{padded, stored, edit_limit, constraint_limit};
ghost use Rattle.lists.specs.Keyed.{united};
ghost use Rattle.record_tables.specs.Table.{decoded, edit_key, constraint_key, unite};
ghost use Rattle.record_union.specs.Union.{Unites, chosen, united_in};

use record::{CONSTRAINTS, Constraint, EDITS, Edit, Record};
use record_rows::element::Element;
use record_rows::row::{CONSTRAINT_CELLS, EDIT_CELLS, LentRecord};

// The elements that rows are, and the filler after them.
// Kept: a loop over the rows that are there. `array::from_fn` would ask at each place whether there is a row: a small record has few of its 639.
fn elements_of<const CELLS: usize, const PLACES: usize, T: Element<CELLS>>(
    t: &[[u32; CELLS]],
) -> [T; PLACES]
    requires { length t.now ≤ PLACES }
    ensures { result ≡ padded PLACES T.filler (map T.element_of t.now) }
{
    let mut elements = [T::filler(); PLACES];
    for (i, row) in t.iter().enumerate() {
        elements[i] = T::of(row);
    }
    elements
}

// A lent record within the limits as a record.
pub fn decode(lent: LentRecord) -> Record
    ensures { length lent.entry.edits.now ≤ edit_limit → length lent.entry.constraints.now ≤ constraint_limit → result ≡ stored (decoded lent.entry.edits.now lent.entry.constraints.now) }
{
    let edits = &lent.edits[..lent.edits.len().min(EDITS)];
    let constraints = &lent.constraints[..lent.constraints.len().min(CONSTRAINTS)];
    Record {
        edits: elements_of::<EDIT_CELLS, EDITS, Edit>(edits),
        edit_count: edits.len(),
        constraints: elements_of::<CONSTRAINT_CELLS, CONSTRAINTS, Constraint>(constraints),
        constraint_count: constraints.len(),
    }
}

// The next element of a union: of the record's own table, of the joining one, or, with its own row, of both.
// Kept: a value, known by an equation (chosen) from which the invariant of `unite` goes on. One match of both slices in the loop would have four arms
// and three paths in one of them, and each that stores an element would owe the invariant by itself.
#[derive(Clone, Copy)]
pub enum Choice<T> {
    Own(T),
    Joining(T),
    Both(T),
}

// What comes next where so much is left of the two tables.
fn choose<const CELLS: usize, T: Element<CELLS>>(own: &[T], joining: &[T]) -> Option<Choice<T>>
    ensures { result ≡ chosen T.key_of own.now joining.now }
{
    let [x, ..] = own else {
        let [y, ..] = joining else {
            return None;
        };
        return Some(Choice::Joining(*y));
    };
    let [y, ..] = joining else {
        return Some(Choice::Own(*x));
    };
    if x.below(*y) {
        return Some(Choice::Own(*x));
    }
    if y.below(*x) {
        return Some(Choice::Joining(*y));
    }
    Some(Choice::Both(*x))
}

// What comes after the first element.
// Kept: `&l[1..]` asks that there is one, which `unite` would have to know of what `choose` gave.
fn after_first<T>(l: &[T]) -> &[T]
    ensures { result.now ≡ drop 1 l.now }
{
    match l {
        [_, rest @ ..] => rest,
        [] => l,
    }
}

// The union of two tables, as far as it has places, and how many elements it has.
// Kept: an array with its count, as in the record that both become.
fn unite<const CELLS: usize, const PLACES: usize, T: Element<CELLS>>(
    own: &[T],
    joining: &[T],
) -> ([T; PLACES], usize)
    ensures { Unites T.key_of PLACES own.now joining.now → result ≡ united_in PLACES T.filler (united T.key_of own.now joining.now) }
{
    let mut elements = [T::filler(); PLACES];
    let mut own_rest = own;
    let mut joining_rest = joining;
    for count in 0..PLACES {
        let Some(choice) = choose::<CELLS, T>(own_rest, joining_rest) else {
            return (elements, count);
        };
        match choice {
            Choice::Own(x) => {
                elements[count] = x;
                own_rest = after_first(own_rest);
            }
            Choice::Joining(y) => {
                elements[count] = y;
                joining_rest = after_first(joining_rest);
            }
            Choice::Both(x) => {
                elements[count] = x;
                own_rest = after_first(own_rest);
                joining_rest = after_first(joining_rest);
            }
        }
    }
    (elements, PLACES)
}

// The union of two records, where it has places.
pub fn union(joined: Record, joining: Record) -> Record
    ensures { (R S : theory.Record) → joined ≡ stored R → joining ≡ stored S → Unites edit_key edit_limit R.edits S.edits → Unites constraint_key constraint_limit R.constraints S.constraints → result ≡ stored (unite R S) }
{
    let (edits, edit_count) = unite::<EDIT_CELLS, EDITS, Edit>(
        joined.edit_slice(),
        joining.edit_slice(),
    );
    let (constraints, constraint_count) = unite::<CONSTRAINT_CELLS, CONSTRAINTS, Constraint>(
        joined.constraint_slice(),
        joining.constraint_slice(),
    );
    Record {
        edits,
        edit_count,
        constraints,
        constraint_count,
    }
}
