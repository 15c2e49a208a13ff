// Grounds for refusing a row (document 01, "What is turned away"), for tables of any kind: the definitions and their laws, and the place of a lent
// row in a table in order. The functions are pub for the crates of this workspace that walk tables.
ghost use Rattle.std.specs.Prelude.{◌≡◌, map, ◌≤◌, length, take};
ghost use Rattle.std.specs.List.{prefix_len};
ghost use Rattle.lists.specs.Keyed.{precedes};
ghost use Rattle.record_rows.specs.grounds.Walk.{as_new, as_known, row_joins};

use crate::element::Element;
use crate::row;
use refusals::Refusal;

// How many elements of a table in order stand before the row, whose length is ensured for callers that take it from a table.
pub fn passed<const CELLS: usize, T: Element<CELLS>>(own: &[T], row: &[u32; CELLS]) -> usize
    ensures counted { result ≡ prefix_len (λ x. precedes (take T.KEY (T.row_of x)) (take T.KEY row.now)) own.now }
    ensures near { result ≤ length own.now }
    ensures wide { length row.now ≡ CELLS }
{
    own.iter()
        .take_while(
            |x| -> bool
                ensures { result ≡ precedes (take T.KEY (T.row_of x.now.now)) (take T.KEY row.entry.now) }
            { row::below(&x.row(), row, T::KEY) },
        )
        .count()
}

// A lent row whose key is not in the table.
fn as_new(full: bool) -> Result<bool, Refusal>
    ensures { result ≡ as_new full }
{
    if full {
        Err(Refusal::NoPlace)
    } else {
        Ok(true)
    }
}

fn as_known(equal: bool) -> Result<bool, Refusal>
    ensures { result ≡ as_known equal }
{
    if equal {
        Ok(false)
    } else {
        Err(Refusal::OtherBody)
    }
}

// Whether a lent row is new to a table; rest: the table from the row's place on; full: no place is left.
// Kept: `full` is a question of its own, for what is left of the places is the caller's count and not the table's.
pub fn joins<const CELLS: usize, T: Element<CELLS>>(
    rest: &[T],
    row: &[u32; CELLS],
    full: bool,
) -> Result<bool, Refusal>
    ensures { result ≡ row_joins T.KEY (map T.row_of rest.now) row.now full }
{
    let [x, ..] = rest else {
        return as_new(full);
    };
    let own = x.row();
    if row::below(row, &own, T::KEY) {
        return as_new(full);
    }
    as_known(*row == own)
}
