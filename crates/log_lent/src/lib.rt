// What the lines of a call log lend: nine records as tables of rows with any numbers, a roll, and a row to be tested. It stands in one struct that is
// lent to each line, so that a line costs no copy of a table.
#![tactic(auto)]

pub mod lent_calls;
pub mod lent_proposals;
mod lent_tables;

ghost use Rattle.std.specs.Prelude.{◌≡◌, ◌<◌, ◌≤◌, length, take, MatchResult};
ghost use Rattle.refusals.specs.Numbers.{number, number_of, Gives};
ghost use Rattle.record.specs.Record as theory;
ghost use Rattle.record.specs.Stored.{edit_limit, constraint_limit, stored};
ghost use Rattle.voting_count.specs.Count.{lent};
ghost use Rattle.log_lent.specs.Lent.{Lent, nothing_lent, lent_records, edit_places, constraint_places, roll_places, rows_fault, with_edit, with_constraint, with_record, record_number, seat_number, with_seat, without_roll, name_number, with_name, without_row};
ghost use Rattle.log_lent.specs.Kept.{Kept};
ghost use Rattle.log_lent.specs.lent_calls.Calls.{proposals_of};

use lent_tables::LentTables;
use record::{CONSTRAINTS, EDITS, Record};
use record_rows::row::{CONSTRAINT_CELLS, ConstraintRow, EDIT_CELLS, EditRow, LentRecord};
use refusals::Refusal;
use std::array;
use voting::{BENCHES, RollRow};
use voting_count::Poll;

// The records that lines lend to, and how many rows of each kind are kept; specs/Lent.antt has the same numbers, and why.
const RECORDS: usize = BENCHES + 1;

const EDIT_PLACES: usize = EDITS + 1;

const CONSTRAINT_PLACES: usize = CONSTRAINTS + 1;

const ROW_PLACES: usize = EDITS + 2;

const ROLL_PLACES: usize = BENCHES + 1;

// The tables of the nine records; the first rows of the roll; the row to be tested.
// Kept: `Kept L`: a desk's roll may be longer than the nine rows that are kept, so that no view of a Lending gives the desk back.
// Kept: arrays with their counts, as those of a table (`KeptRows`).
#[derive(Clone, Copy)]
pub struct Lending {
    edits: LentTables<EDIT_CELLS, EDIT_PLACES>,
    constraints: LentTables<CONSTRAINT_CELLS, CONSTRAINT_PLACES>,
    roll: [RollRow; ROLL_PLACES],
    roll_count: usize,
    row: [u32; ROW_PLACES],
    row_count: usize,
}

// The place of record k among those that lines lend to.
fn record_place(k: u32) -> Result<usize, Refusal>
    ensures { MatchResult result (λ place. (place ≡ k) × (k < lent_records)) (λ refusal. (number refusal ≡ 2) × (lent_records ≤ k)) }
{
    let place = k as usize;
    if place < RECORDS {
        Ok(place)
    } else {
        Err(Refusal::OutOfRange)
    }
}

// A row of the roll, where its numbers fit.
fn seat_of(bench: u32, weight: u32) -> Result<RollRow, Refusal>
    ensures { Gives (seat_number bench weight) (record { bench = bench; weight = weight }) result }
{
    let bench = u8::try_from(bench).map_err(|_| Refusal::OutOfRange)?;
    let weight = u16::try_from(weight).map_err(|_| Refusal::OutOfRange)?;
    Ok(RollRow { bench, weight })
}

impl Lending {
    // Nothing lent yet.
    pub fn nothing() -> Lending
        ensures { Kept nothing_lent result }
    {
        Lending {
            edits: LentTables::new(),
            constraints: LentTables::new(),
            roll: [RollRow::default(); ROLL_PLACES],
            roll_count: 0,
            row: [0; ROW_PLACES],
            row_count: 0,
        }
    }

    // Record k as it is lent.
    pub fn record(&self, k: usize) -> LentRecord<'_>
        ensures { (L : Lent) → Kept L self.now → k < lent_records → (result.edits.now ≡ L.edits k) × (result.constraints.now ≡ L.constraints k) }
    {
        LentRecord {
            edits: self.edits.table(k),
            constraints: self.constraints.table(k),
        }
    }

    // The proposals of the eight benches, which are records 1 to 8, and the rows of the roll that are kept.
    pub fn poll(&self) -> Poll<'_>
        ensures proposals { (L : Lent) → Kept L self.now → lent result.proposals ≡ proposals_of L }
        ensures roll { (L : Lent) → Kept L self.now → result.roll.now ≡ take roll_places L.roll }
    {
        Poll {
            proposals: array::from_fn(|k| self.record(k + 1)),
            roll: &self.roll[..self.roll_count.min(ROLL_PLACES)],
        }
    }

    // The row to be tested.
    // Kept: as the slices of a record, one line over a field and its count.
    pub fn row(&self) -> &[u32]
        ensures { (L : Lent) → Kept L self.now → result.now ≡ L.row }
    {
        &self.row[..self.row_count.min(ROW_PLACES)]
    }

    // A row of edits for record k.
    pub fn lend_edit(&mut self, k: u32, row: EditRow) -> Result<(), Refusal>
        ensures { (L : Lent) → Kept L self.old → (number_of result ≡ rows_fault edit_places L.edits k) × Kept (with_edit L k row) self.new }
    {
        self.edits.add(k, row)
    }

    // A row of constraints for record k.
    pub fn lend_constraint(&mut self, k: u32, row: ConstraintRow) -> Result<(), Refusal>
        ensures { (L : Lent) → Kept L self.old → (number_of result ≡ rows_fault constraint_places L.constraints k) × Kept (with_constraint L k row) self.new }
    {
        self.constraints.add(k, row)
    }

    // Record k is this one.
    pub fn lend_record(&mut self, k: u32, multilog: Record) -> Result<(), Refusal>
        ensures { (L : Lent) (R : theory.Record) → Kept L self.old → multilog ≡ stored R
            → length R.edits ≤ edit_limit → length R.constraints ≤ constraint_limit
            → (number_of result ≡ record_number k) × Kept (with_record L k R) self.new }
    {
        self.edits.replace(k, multilog.edit_slice())?;
        self.constraints.replace(k, multilog.constraint_slice())
    }

    // A row of the roll. After nine rows it need not be kept: with them the roll is faulty already.
    pub fn lend_seat(&mut self, bench: u32, weight: u32) -> Result<(), Refusal>
        ensures { (L : Lent) → Kept L self.old → (number_of result ≡ seat_number bench weight) × Kept (with_seat L bench weight) self.new }
    {
        let seat = seat_of(bench, weight)?;
        if self.roll_count < ROLL_PLACES {
            self.roll[self.roll_count] = seat;
            self.roll_count += 1;
        }
        Ok(())
    }

    // No roll.
    pub fn lend_no_roll(&mut self)
        ensures { (L : Lent) → Kept L self.old → Kept (without_roll L) self.new }
    {
        self.roll_count = 0;
    }

    // A name of the row to be tested.
    pub fn lend_name(&mut self, name: u32) -> Result<(), Refusal>
        ensures { (L : Lent) → Kept L self.old → (number_of result ≡ name_number L) × Kept (with_name L name) self.new }
    {
        if ROW_PLACES <= self.row_count {
            return Err(Refusal::NoPlace);
        }
        self.row[self.row_count] = name;
        self.row_count += 1;
        Ok(())
    }

    // No row to be tested.
    pub fn lend_no_row(&mut self)
        ensures { (L : Lent) → Kept L self.old → Kept (without_row L) self.new }
    {
        self.row_count = 0;
    }
}
