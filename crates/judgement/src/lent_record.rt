// Operations on a lent record (document 01, "Sound, must, never, settled" and "The bench schedule"): its judgement, and its schedule. Each refuses
// with the ground of the first faulty row, or as unsound where the record is not sound.
ghost use Rattle.std.specs.Prelude.{◌≡◌, [], IfOk};
ghost use Rattle.record.specs.Judgement.{sound_row};
ghost use Rattle.record_tables.specs.Table.{decoded};
ghost use Rattle.refusals.specs.Numbers.{number_of, Gives};
ghost use Rattle.judgement.specs.Judged.{stored_schedule};
ghost use Rattle.judgement.specs.lent_record.Lent.{record_fault, Taking, judgement_is};

use crate::{Judged, row_test};
use graph::links::{MARKS, Marks};
use record::{Record, Schedule};
use record_rows::row::LentRecord;
use refusals::Refusal;

// How many edits the record has, which tells whoever reads the arrays where they end (no crate here reads it); and for each edit, INIT first: must,
// never, settled and its page with nothing hidden (0: not in it).
// Kept: the arrays of `Judged` one by one: tried with a `Judged` inside, which crate benchmark_entry has to take apart in two steps, for the borrow
// checker does not cover an array of an inner struct that is made part of a literal.
#[derive(Clone, Copy)]
pub struct Judgement {
    pub count: usize,
    pub must: Marks,
    pub never: Marks,
    pub settled: Marks,
    pub place: Marks,
}

// A lent record without fault.
fn take_record(lent: LentRecord) -> Result<Record, Refusal>
    ensures fault { number_of result ≡ record_fault lent.entry.edits.now lent.entry.constraints.now }
    ensures taken { IfOk result (λ multilog. Taking lent.entry.edits.now lent.entry.constraints.now multilog) }
{
    let multilog = record_joining::lent(lent)?;
    if crate::sound(multilog) {
        Ok(multilog)
    } else {
        Err(Refusal::Unsound)
    }
}

// Must, never, settled and page of each edit of a lent record.
pub fn judge_lent(lent: LentRecord) -> Result<Judgement, Refusal>
    ensures { Gives (record_fault lent.entry.edits.now lent.entry.constraints.now) (judgement_is (decoded lent.entry.edits.now lent.entry.constraints.now)) result }
{
    let multilog = take_record(lent)?;
    let Judged {
        must,
        never,
        settled,
        place,
    } = crate::judge(multilog);
    Ok(Judgement {
        count: multilog.edit_count,
        must,
        never,
        settled,
        place,
    })
}

// The bench schedule of a lent record, with nothing hidden.
pub fn schedule_lent(lent: LentRecord) -> Result<Schedule, Refusal>
    ensures { Gives (record_fault lent.entry.edits.now lent.entry.constraints.now) (stored_schedule (decoded lent.entry.edits.now lent.entry.constraints.now) []) result }
{
    let multilog = take_record(lent)?;
    Ok(crate::schedule(multilog, [0; MARKS]))
}

// The test of any row of numbers against a lent record.
pub fn test_row(lent: LentRecord, row: &[u32]) -> Result<bool, Refusal>
    ensures { Gives (record_fault lent.entry.edits.now lent.entry.constraints.now) (sound_row (decoded lent.entry.edits.now lent.entry.constraints.now) row.now) result }
{
    let multilog = take_record(lent)?;
    Ok(row_test::is_schedule(multilog, row))
}
