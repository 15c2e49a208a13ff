// A table of constraints in order that single rows join (document 01, "The record"): an added constraint, and the rows that making a proposal
// adds, which come in no order of their own. Functions are pub for the crates of this workspace that add and that make proposals.
ghost use Rattle.std.specs.Prelude.{◌≡◌, not, ◌&&◌, List, Ok, ◌≤◌, ltb, get_or, length};
ghost use Rattle.record.specs.declared.Constraint.{Constraint};
ghost use Rattle.record.specs.Record as theory;
ghost use Rattle.record.specs.Stored.{stored, filler_constraint, constraint_limit};
ghost use Rattle.lists.specs.Keyed.{precedes, Ascending, inserted};
ghost use Rattle.record_tables.specs.Table.{constraint_key};
ghost use Rattle.record_joining.specs.insertion.Insertion.{table_of, Place};

use record::{CONSTRAINTS, Constraint, Record};
use record_rows::element::Element;
use refusals::Refusal;

// Rows past the count hold a filler.
// Kept: an array with its count, as in a record: it is copied out of one and into one whole, with its fillers, which an ArrayVec has not.
// Kept: no invariant says that the rows are in order: `of` takes any record, whose rows may be in none. So it is a premise of what inserts.
#[derive(Clone, Copy)]
pub struct Constraints {
    pub rows: [Constraint; CONSTRAINTS],
    pub count: usize,
}

// How many rows precede c, by halving.
fn place(rows: &[Constraint], c: Constraint) -> usize
    ensures { (Ascending constraint_key rows.now → Place constraint_key c rows.now result) × (result ≤ length rows.now) }
{
    rows.partition_point(|row| row.below(c))
}

// Whether c stands at its place p.
fn stands(rows: &[Constraint], p: usize, c: Constraint) -> bool
    ensures { result ≡ (ltb p (length rows.now) && not (precedes (constraint_key c) (constraint_key (get_or rows.now p filler_constraint)))) }
{
    rows.get(p).is_some_and(|row| !c.below(*row))
}

impl Constraints {
    // The table of a record.
    pub fn of(multilog: Record) -> Constraints
        ensures { (R : theory.Record) → multilog ≡ stored R → length R.constraints ≤ constraint_limit → Ok result ≡ table_of R.constraints }
    {
        let rows = multilog.constraints;
        Constraints {
            rows,
            count: multilog.constraint_count,
        }
    }

    // The table joined by one row.
    pub fn insert(self, c: Constraint) -> Result<Constraints, Refusal>
        ensures { (l : List Constraint) → Ok self ≡ table_of l → Ascending constraint_key l → result ≡ table_of (inserted constraint_key c l) }
    {
        let n = self.count.min(CONSTRAINTS);
        let p = place(&self.rows[..n], c);
        if stands(&self.rows[..n], p, c) {
            return Ok(self);
        }
        if CONSTRAINTS <= n {
            return Err(Refusal::NoPlace);
        }
        let mut rows = self.rows;
        rows.copy_within(p..n, p + 1);
        rows[p] = c;
        Ok(Constraints { rows, count: n + 1 })
    }

    // The record with the constraints of the table.
    pub fn in_record(self, multilog: Record) -> Record
        ensures { (R : theory.Record) (l : List Constraint) → multilog ≡ stored R → Ok self ≡ table_of l → result ≡ stored (record { edits = R.edits; constraints = l }) }
    {
        let constraints = self.rows;
        Record {
            constraints,
            constraint_count: self.count,
            ..multilog
        }
    }
}
