// Rows of numbers (document 01, "The record"): ranges of their cells, and the comparison of rows by their first cells.
// The functions are pub for the crates of this workspace that walk tables.
ghost use Rattle.std.specs.Prelude.{◌≡◌, cond, Ok, Err, ◌≤◌, length, take};
ghost use Rattle.refusals.specs.declared.Refusal.TheVariants.{OutOfRange};
ghost use Rattle.lists.specs.Keyed.{precedes};
ghost use Rattle.record_rows.specs.row.Row.{same, is_name, field_of, body_of, decoded_edit, edit_in_range, is_side, constraint_in_range, edit_width, constraint_width};

use record::{Body, Edit, Field};
use refusals::Refusal;

// The cells of a row, and bounds of names, benches, chip places and rules; specs/row/Row.antt has the same numbers.
pub const EDIT_CELLS: usize = 5;

pub const CONSTRAINT_CELLS: usize = 3;

pub type EditRow = [u32; EDIT_CELLS];

pub type ConstraintRow = [u32; CONSTRAINT_CELLS];

pub const NAMES: usize = 2304;

pub const BENCHES: u32 = 8;

pub const PLACES: u32 = 64;

const RULES: u32 = 3;

// The kinds of an edit.
pub const INSERT: u32 = 0;

pub const SET: u32 = 1;

pub const REMOVE: u32 = 2;

// The two tables of a record, as a caller lends them.
#[derive(Clone, Copy)]
pub struct LentRecord<'a> {
    pub edits: &'a [EditRow],
    pub constraints: &'a [ConstraintRow],
}

// Bench 1 to 8, sequence 1 to 255. `&` and `|` have no branch, so that the proofs here have one path.
pub fn is_name(n: u32) -> bool
    ensures { result ≡ is_name n }
{
    let bench = n / 256;
    (1 <= bench) & (bench <= BENCHES) & (1 <= n % 256)
}

// A number as the name that it is.
pub fn name(n: u32) -> Result<u16, Refusal>
    ensures { result ≡ cond (is_name n) (Ok n) (Err OutOfRange) }
{
    if is_name(n) {
        Ok(n as u16)
    } else {
        Err(Refusal::OutOfRange)
    }
}

// The field with this number.
fn field_of(number: u32) -> Option<Field>
    ensures { result ≡ field_of number }
{
    match number {
        0 => Some(Field::Id),
        1 => Some(Field::Size),
        2 => Some(Field::Erase),
        3 => Some(Field::Page),
        _ => None,
    }
}

// The body with these cells.
// Kept: kinds and fields are numbers here and above, for that is what lent rows have.
fn body_of(kind: u32, place: u8, field: u32, value: u32) -> Option<Body>
    ensures { result ≡ body_of kind place field value }
{
    match (kind, field, value) {
        (INSERT, 0, 0) => Some(Body::Insert(place)),
        (SET, _, _) => Some(Body::Set(place, field_of(field)?, value)),
        (REMOVE, 0, 0) => Some(Body::Remove(place)),
        _ => None,
    }
}

// The edit of a row; none where a cell is outside its range.
pub fn decoded_edit(row: EditRow) -> Option<Edit>
    ensures { result ≡ decoded_edit row }
{
    let [name, kind, place, field, value] = row;
    if !is_name(name) || place >= PLACES {
        return None;
    }
    let body = body_of(kind, place as u8, field, value)?;
    Some(Edit {
        name: name as u16,
        body,
    })
}

// The length of the row is ensured for callers that copy it out of a slice.
pub fn edit_in_range(row: EditRow) -> bool
    ensures { (result ≡ edit_in_range row) × (length row ≡ edit_width) }
{
    decoded_edit(row).is_some()
}

fn is_side(n: u32) -> bool
    ensures { result ≡ is_side n }
{
    (n == 0) | is_name(n)
}

pub fn constraint_in_range(row: ConstraintRow) -> bool
    ensures { (result ≡ constraint_in_range row) × (length row ≡ constraint_width) }
{
    let [left, rule, right] = row;
    is_side(left) & (rule < RULES) & is_side(right)
}

// Whether the first k cells of a precede those of b. Pub for `record_tables`, whose rows have so many cells.
// Kept: the first cells are a row's key and what is beside them has no order, so that no derive gives it.
pub fn below(a: &[u32], b: &[u32], k: usize) -> bool
    requires { (k ≤ length a.now) × (k ≤ length b.now) }
    ensures { result ≡ precedes (take k a.now) (take k b.now) }
{
    a[..k] < b[..k]
}

// Whether the first k cells of a and b are equal. Pub for `record_tables`, whose rows have so many cells.
// Kept: two rows of one key may differ beside it, so that no derive gives it.
pub fn alike(a: &[u32], b: &[u32], k: usize) -> bool
    requires { (k ≤ length a.now) × (k ≤ length b.now) }
    ensures { result ≡ same (take k a.now) (take k b.now) }
{
    a[..k] == b[..k]
}
