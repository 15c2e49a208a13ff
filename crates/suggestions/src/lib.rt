// Suggested constraints (document 01 and document 02, A1; 002, tables 2 and 3): rows for whoever asks, for two edits and the case that holds.
#![tactic(auto)]

ghost use Rattle.std.specs.Prelude.{◌≡◌};
ghost use Rattle.suggestions.specs.Suggest.{after_table, concurrent_table, advised, rows_of, given, suggested};

use record::{Body, ENABLES, Edit, NONCOMMUTING, NOTAFTER};
use record_rows::element::Element;
use record_rows::row;
use record_rows::row::{ConstraintRow, EditRow};
use refusals::Refusal;

// What a pair of edits suggests: nothing, A notafter B, that and A enables B, or that they are noncommuting.
// Kept: no Option: nothing is one of the four entries of the table that 002 gives, and after_table is that table.
#[derive(Clone, Copy, PartialEq, Eq)]
pub enum Advice {
    Nothing,
    Notafter,
    NotafterEnables,
    Noncommuting,
}

// The rows of a suggestion, in table order.
// Kept: no Option, for there are none, one or two, and two Options would have a second row without a first. The kit's
// `ArrayVec` of two is no Copy, and each arm of `rows` would fill it by pushes, where it now gives the rows as a value.
#[derive(Clone, Copy, PartialEq, Eq)]
pub enum Suggested {
    Nothing,
    One(ConstraintRow),
    Two(ConstraintRow, ConstraintRow),
}

// B after A by one author: what A and B do.
#[tactic(auto, unfolding(crate::specs::Suggest::after_table))]
fn after(first: Body, second: Body) -> Advice
    ensures { result ≡ after_table first second }
{
    match (first, second) {
        (Body::Insert(_), Body::Insert(_)) => Advice::Nothing,
        (Body::Insert(_), Body::Set(_, _, _) | Body::Remove(_)) => Advice::NotafterEnables,
        (Body::Set(_, x, _), Body::Set(_, y, _)) if x == y => Advice::Notafter,
        (Body::Set(_, _, _), Body::Insert(_) | Body::Set(_, _, _) | Body::Remove(_)) =>
            Advice::Nothing,
        (Body::Remove(_), Body::Insert(_)) => Advice::Notafter,
        (Body::Remove(_), Body::Set(_, _, _) | Body::Remove(_)) => Advice::Nothing,
    }
}

// Whether concurrent edits are noncommuting: what A and B do.
#[tactic(auto, unfolding(crate::specs::Suggest::concurrent_table))]
fn concurrent(first: Body, second: Body) -> bool
    ensures { result ≡ concurrent_table first second }
{
    match (first, second) {
        (Body::Insert(_), Body::Insert(_)) => true,
        (Body::Insert(_), Body::Set(_, _, _)) => false,
        (Body::Insert(_), Body::Remove(_)) => true,
        (Body::Set(_, _, _), Body::Insert(_)) => false,
        (Body::Set(_, x, _), Body::Set(_, y, _)) => x == y,
        (Body::Set(_, _, _), Body::Remove(_)) => true,
        (Body::Remove(_), Body::Insert(_)) => true,
        (Body::Remove(_), Body::Set(_, _, _)) => true,
        (Body::Remove(_), Body::Remove(_)) => false,
    }
}

fn advise(kind: u32, a: Edit, b: Edit) -> Advice
    ensures { result ≡ advised kind a b }
{
    if a.name == b.name || a.body.place() != b.body.place() {
        Advice::Nothing
    } else if kind == 0 {
        after(a.body, b.body)
    } else if concurrent(a.body, b.body) {
        Advice::Noncommuting
    } else {
        Advice::Nothing
    }
}

// Rules are cells of rows as a caller would lend them.
fn rows(advice: Advice, a: u32, b: u32) -> Suggested
    ensures { result ≡ given (rows_of advice a b) }
{
    let notafter = [a, u32::from(NOTAFTER), b];
    match advice {
        Advice::Nothing => Suggested::Nothing,
        Advice::Notafter => Suggested::One(notafter),
        Advice::NotafterEnables => Suggested::Two(notafter, [a, u32::from(ENABLES), b]),
        Advice::Noncommuting => Suggested::One([a.min(b), u32::from(NONCOMMUTING), a.max(b)]),
    }
}

// The rows that the edits a and b suggest. Case 0: b after a by one author; 1: concurrent.
// Kept: the case as the number that a caller gives. An enum of the two cases was tried and closes with 58 lines more: one test reads it, and it would
// need to be made from the number, told as the number again, and laws of both.
pub fn suggest(a: EditRow, b: EditRow, kind: u32) -> Result<Suggested, Refusal>
    ensures { result ≡ suggested a b kind }
{
    if !row::edit_in_range(a) || !row::edit_in_range(b) || kind > 1 {
        return Err(Refusal::OutOfRange);
    }
    let advice = advise(kind, Edit::of(&a), Edit::of(&b));
    Ok(rows(advice, a[0], b[0]))
}
