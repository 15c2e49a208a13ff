// Tables of edits and of constraints that join a record (document 01, "What is turned away"): their definitions and theorems, and the tests of one
// row below the rows above it. The functions are pub for the crates of this workspace that walk tables or read rows one after the other.
#![tactic(auto)]

pub mod lookup;

ghost use Rattle.std.specs.Prelude.{◌≡◌, Bool, true, not, List, map, ℕ, ◌<◌, eqb, get_or, length, slice_set, take};
ghost use Rattle.std.specs.Fn.{FnReturnsAt};
ghost use Rattle.record.specs.Record.{name_of};
ghost use Rattle.lists.specs.Lists.{all};
ghost use Rattle.lists.specs.Keyed.{Ascending};
ghost use Rattle.record_rows.specs.row.Row.{edit_in_range, edit_row, name_limit};
ghost use Rattle.record_rows.specs.grounds.Ground.{alike, known, misplaced};
ghost use Rattle.record_tables.specs.Table.{names_of, pair_not_allowed, decision, constraint_further};
ghost use Rattle.record_tables.specs.Checked.{MarksNames, marked_further};
ghost use Rattle.refusals.specs.Numbers.{number_of};

use record::Edit;
use record_rows::element::Element;
use record_rows::row;
use record_rows::row::{ConstraintRow, EditRow, NAMES};
use refusals::Refusal;

// Whether a row is above the row before it. Pub for `record_union::refusal` and `text_reader`, which walk the rows.
// Kept: `above` and `row` are two here and below, for a row that is read from a text stands in no table yet.
pub fn follows<const CELLS: usize, T: Element<CELLS>>(
    above: &[[u32; CELLS]],
    row: &[u32; CELLS],
) -> bool
    ensures { Ascending (take T.KEY) above.now → not result ≡ misplaced T.KEY above.now row.now }
{
    match above {
        [.., last] => row::below(last, row, T::KEY),
        [] => true,
    }
}

// Whether the key of a row stands above it. Pub for `record_union::refusal` and `text_reader`, which walk the rows.
pub fn is_repeated<const CELLS: usize, T: Element<CELLS>>(
    above: &[[u32; CELLS]],
    row: &[u32; CELLS],
) -> bool
    ensures { result ≡ known T.KEY row.now above.now }
{
    above.iter().any(
        |other| -> bool
            ensures { result ≡ alike T.KEY row.entry.now other.now }
        { row::alike(row, other, T::KEY) },
    )
}

fn marked(marks: &[u8], n: u32) -> bool
    ensures { result ≡ eqb (get_or marks.now n 0) 1 }
{
    marks.get(n as usize).is_some_and(|mark| *mark == 1)
}

// `|` and `&` have no branch, so that the proofs have one path.
// Kept: the three cells, here and below, which `marked_further` takes apart once; a rule is its number, as in `record::Constraint`.
fn pair_not_allowed(left: u32, rule: u32, right: u32) -> bool
    ensures { result ≡ pair_not_allowed left rule right }
{
    (left == 0)
        | ((right == 0) & (rule != 1))
        | ((left == right) & (rule != 0))
        | ((rule == 2) & (right < left))
}

#[tactic(auto, unfolding(crate::specs::Table::decision))]
fn is_decision(left: u32, rule: u32, right: u32) -> bool
    ensures { result ≡ decision left rule right }
{
    ((rule == 1) & (right == 0)) | ((rule == 0) & (left == right))
}

// The lowest of 5, 6 and 7 that holds of a row, by the marks of the edits that it knows. Pub for `record_union::refusal`.
// Kept: marks are lent as a slice, here and below, since MarksNames determines no list of names that a view could give.
pub fn marked_further(row: &ConstraintRow, marks: &[u8], adding: bool) -> Result<(), Refusal>
    ensures { number_of result ≡ marked_further marks.now adding row.now }
{
    let [left, rule, right] = *row;
    let known = marked(marks, left) & marked(marks, right);
    if !known {
        return Err(Refusal::Unknown);
    }
    if pair_not_allowed(left, rule, right) {
        return Err(Refusal::NotAllowed);
    }
    let decision = adding & is_decision(left, rule, right);
    if decision {
        return Err(Refusal::Decision);
    }
    Ok(())
}

// The same, by the names that are marked.
pub fn constraint_further(row: ConstraintRow, marks: &[u8], adding: bool) -> Result<(), Refusal>
    ensures { (names : List ℕ) → MarksNames marks.now names → number_of result ≡ constraint_further names adding row }
{
    marked_further(&row, marks, adding)
}

// Kept: tested and then indexed, as in crate catalogue: a proof learns no element that was written through get_mut.
fn mark(marks: &mut [u8; NAMES], name: usize)
    ensures { (length marks.new ≡ name_limit) × (marks.new ≡ slice_set marks.old name 1) }
{
    if name < NAMES {
        marks[name] = 1;
    }
}

// The marks of what each element gives, and of INIT.
// Kept: `F.IsAlwaysCallable` is a clause, since no bound says of a closure that it may be called with every element.
fn marks_of<T, F: Fn(&T) -> usize>(elements: &[T], name: F) -> [u8; NAMES]
    requires { F.IsAlwaysCallable name }
    ensures { (number : T → ℕ) (good : T → Bool) → ((x : T) (r : ℕ) → FnReturnsAt F.Fn name x r → r ≡ number x)
        → ((x : T) → good x ≡ true → number x < name_limit) → all good elements.now ≡ true → MarksNames result (map number elements.now) }
{
    let mut marks = [0; NAMES];
    mark(&mut marks, 0);
    for x in elements {
        mark(&mut marks, name(x));
    }
    marks
}

// The marks of the names of a table of edits in range.
pub fn mark_rows(t: &[EditRow]) -> [u8; NAMES]
    ensures { all edit_in_range t.now ≡ true → MarksNames result (names_of t.now) }
{
    marks_of(t, |row| row[0] as usize)
}

// The marks of edits in range. Pub for `record_union::refusal`.
pub fn mark_edits(edits: &[Edit]) -> [u8; NAMES]
    ensures { all (λ e. edit_in_range (edit_row e)) edits.now ≡ true → MarksNames result (map name_of edits.now) }
{
    marks_of(edits, |edit| usize::from(edit.name))
}
