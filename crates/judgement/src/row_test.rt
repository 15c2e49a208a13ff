// The test of a row of names against a record in memory. It is safe for any record and any row; its promise is for a record that is stored with
// checked tables.
ghost use Rattle.std.specs.Prelude.{◌≡◌, cond, List, ℕ, ◌<◌, Some, None, IfSome, is_some};
ghost use Rattle.record.specs.Record as theory;
ghost use Rattle.lists.specs.Lists.{all, mem, index_of, position_of, ◌among◌};
ghost use Rattle.record.specs.Stored.{stored};
ghost use Rattle.record.specs.Judgement.{fits, sound_row};
ghost use Rattle.graph.specs.links.Marks.{mark_limit};
ghost use Rattle.graph.specs.indexes.Fit.{Fit};
ghost use Rattle.graph.specs.indexes.Indexed.{Indexed};
ghost use Rattle.judgement.specs.row_test.Seats.{Seated, known_apart};

use graph::indexes;
use graph::indexes::IndexTable;
use graph::links::MARKS;
use record::{Constraint, Record};

// The index of a name, where the record knows it.
fn known_index(table: &IndexTable, name: usize) -> Option<usize>
    ensures low { IfSome result (λ index. index < mark_limit) }
    ensures is { (R : theory.Record) → Fit R → Indexed R table.now → result ≡ cond (mem name (theory.names R)) (Some (index_of name (theory.names R))) None }
{
    let index = table.index_of(name);
    if index == 0 && name != 0 {
        return None;
    }
    Some(index)
}

// The place of each edit in the row, counted from 1 (0: not in it), by index; none where a name is unknown or repeated. Places are numbers of the
// machine's width, so that a row of any length has them.
fn seat_row(table: &IndexTable, row: &[u32]) -> Option<[usize; MARKS]>
    ensures { (R : theory.Record) → Fit R → Indexed R table.now
        → (is_some result ≡ known_apart R row.now) × IfSome result (λ places. Seated R row.now places) }
{
    let mut places = [0; MARKS];
    for (q, name) in row.iter().enumerate() {
        let index = known_index(table, *name as usize)?;
        if places[index] != 0 {
            return None;
        }
        places[index] = q + 1;
    }
    Some(places)
}

// A rule's demand of a row in which its edits have these places: where both stand, the left one stands earlier; where the right one stands, the left
// one stands.
fn rule_fits(rule: u8, left: usize, right: usize) -> bool
    ensures { (row : List ℕ) (x y : ℕ) → left ≡ position_of x row → right ≡ position_of y row → result ≡ fits row x rule y }
{
    // Kept: the specification names a constraint's rule by number.
    match rule {
        0 => left == 0 || right == 0 || left < right,
        1 => right == 0 || left != 0,
        _ => true,
    }
}

// Whether a constraint fits the row.
fn is_fitting(table: &IndexTable, places: &[usize; MARKS], constraint: Constraint) -> bool
    ensures { (R : theory.Record) (row : List ℕ) → Indexed R table.now → Seated R row places.now
        → constraint.left among theory.names R → constraint.right among theory.names R → result ≡ fits row constraint.left constraint.rule constraint.right }
{
    let left = places[table.index_of(usize::from(constraint.left))];
    let right = places[table.index_of(usize::from(constraint.right))];
    rule_fits(constraint.rule, left, right)
}

// Whether each constraint fits the row.
fn all_fit(multilog: Record, table: &IndexTable, places: &[usize; MARKS]) -> bool
    ensures { (R : theory.Record) (row : List ℕ) → multilog ≡ stored R → Fit R → Indexed R table.now → Seated R row places.now
        → result ≡ all (λ c. fits row c.left c.rule c.right) R.constraints }
{
    multilog
        .constraint_slice()
        .iter()
        .all(|constraint| is_fitting(table, places, *constraint))
}

// Whether the row is a sound schedule of the record.
pub fn is_schedule(multilog: Record, row: &[u32]) -> bool
    ensures { (R : theory.Record) → multilog ≡ stored R → Fit R → result ≡ sound_row R row.now }
{
    if !row.starts_with(&[0]) {
        return false;
    }
    let table = indexes::index_table(multilog);
    // Kept: a match: `is_some_and` was tried, and what `all_fit` ensures was not found in what is known of the closure's answer.
    match seat_row(&table, row) {
        Some(places) => all_fit(multilog, &table, &places),
        None => false,
    }
}
