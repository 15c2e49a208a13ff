// The judgement of a record in memory: sound, must, never, settled, needs and the bench schedule. Each function is safe for any record; its
// promise is for one that is stored with checked tables.
#![tactic(auto)]

pub mod lent_edit;
pub mod lent_record;
pub mod row_test;

ghost use Rattle.std.specs.Prelude.{◌≡◌, List, [], ◌∷◌, ℕ};
ghost use Rattle.record.specs.Record as theory;
ghost use Rattle.lists.specs.Lists.{mem};
ghost use Rattle.record.specs.Stored.{stored};
ghost use Rattle.record.specs.Schedule as theory_schedule;
ghost use Rattle.record.specs.Judgement as judgement;
ghost use Rattle.graph.specs.links.Marks.{name_at, marks_of, place_in, values_of};
ghost use Rattle.judgement_marks.specs.schedules.Rows.{RowIs};
ghost use Rattle.graph.specs.indexes.Fit.{Fit};
ghost use Rattle.judgement.specs.Judged.{marked_edits, stored_schedule, judged_of};

use graph::indexes;
use graph::links::{MARKS, Marks};
use judgement_marks::row::Row;
use judgement_marks::schedules;
use record::{Record, Schedule};

// Kept: `graph`, `mustmarks`: the two lines that begin most functions here. A struct of both would be made by one line and named at each use, and its
// facts, which speak of the record R, would be premises of its methods as they are of the functions over the graph.

// Marks by index, 0 for INIT and i for the i-th edit; the page of each edit with nothing hidden, 0 where it is not in the schedule.
// Kept: four arrays, as document 01 has the marks ("an array of 128 marks, one to each edit").
#[derive(Clone, Copy)]
pub struct Judged {
    pub must: Marks,
    pub never: Marks,
    pub settled: Marks,
    pub place: Marks,
}

// Whether the record has a sound schedule.
pub fn sound(multilog: Record) -> bool
    ensures { (R : theory.Record) → multilog ≡ stored R → Fit R → result ≡ judgement.sound R }
{
    let graph = indexes::resolved(multilog);
    let mustmarks = judgement_marks::must_marks(&graph.rows);
    !graph.has_ring(&mustmarks)
}

// The edits that must stand.
pub fn musts(multilog: Record) -> Marks
    ensures { (R : theory.Record) → multilog ≡ stored R → Fit R → result ≡ marks_of R (judgement.must R) }
{
    let graph = indexes::resolved(multilog);
    judgement_marks::must_marks(&graph.rows)
}

// The edits that can never stand.
pub fn nevers(multilog: Record) -> Marks
    ensures { (R : theory.Record) → multilog ≡ stored R → Fit R → result ≡ marks_of R (judgement.never R) }
{
    let graph = indexes::resolved(multilog);
    let mustmarks = judgement_marks::must_marks(&graph.rows);
    judgement_marks::never_marks(&graph, &mustmarks)
}

// The edits that are settled.
pub fn settleds(multilog: Record) -> Marks
    ensures { (R : theory.Record) → multilog ≡ stored R → Fit R → result ≡ marks_of R (judgement.settled R) }
{
    let graph = indexes::resolved(multilog);
    let mustmarks = judgement_marks::must_marks(&graph.rows);
    let nevermarks = judgement_marks::never_marks(&graph, &mustmarks);
    judgement_marks::settled_marks(&graph, &mustmarks, &nevermarks)
}

// The needs of the edit at an index; past the edits those of INIT.
pub fn needs(multilog: Record, index: usize) -> Marks
    ensures { (R : theory.Record) → multilog ≡ stored R → Fit R → result ≡ marks_of R (λ y. mem y (theory_schedule.needs R (0 ∷ name_at R index ∷ []))) }
{
    let graph = indexes::resolved(multilog);
    let mustmarks = judgement_marks::must_marks(&graph.rows);
    let known = if index < graph.count { index } else { 0 };
    judgement_marks::needs_marks(&graph.rows, &mustmarks, known)
}

// A row of indexes as edits, without INIT, which comes first in every schedule. An index of 0 after the first ends it; a schedule's row has none.
fn edits_of(multilog: Record, row: Row) -> Schedule
    ensures { (R : theory.Record) (hidden : List ℕ) → multilog ≡ stored R → Fit R → RowIs R row (theory_schedule.schedule R hidden) → result ≡ stored_schedule R hidden }
{
    let mut schedule = Schedule::empty();
    for q in 1..row.count {
        let index = usize::from(row.indexes[q]);
        if index == 0 {
            return schedule;
        }
        schedule.edits[q - 1] = multilog.edits[index - 1];
        schedule.count = q;
    }
    schedule
}

// The bench schedule with these edits hidden.
pub fn schedule(multilog: Record, hidden: Marks) -> Schedule
    ensures { (R : theory.Record) → multilog ≡ stored R → Fit R → result ≡ stored_schedule R (marked_edits R hidden) }
{
    let graph = indexes::resolved(multilog);
    let mustmarks = judgement_marks::must_marks(&graph.rows);
    let row = schedules::schedule_row(&graph, &mustmarks, &hidden);
    edits_of(multilog, row)
}

// The page of each edit with nothing hidden, 0 where it is not in the schedule.
pub fn pages(multilog: Record) -> Marks
    ensures { (R : theory.Record) → multilog ≡ stored R → Fit R → result ≡ values_of R (place_in (theory_schedule.schedule R [])) }
{
    let graph = indexes::resolved(multilog);
    let mustmarks = judgement_marks::must_marks(&graph.rows);
    let row = schedules::schedule_row(&graph, &mustmarks, &[0; MARKS]);
    schedules::page_values(row)
}

// Whether a record is sound, the edits that must stand, and its bench schedule.
// Kept: no Option: who hides an edit of a bench needs schedule and must without asking, since a bench's record is sound.
#[derive(Clone, Copy)]
pub struct Planned {
    pub sound: bool,
    pub must: Marks,
    pub schedule: Schedule,
}

// All from the same linked rows, for a record that is about to be a bench's.
pub fn plan(multilog: Record, hidden: Marks) -> Planned
    ensures { (R : theory.Record) → multilog ≡ stored R → Fit R
        → (result.sound ≡ judgement.sound R) × (result.must ≡ marks_of R (judgement.must R)) × (result.schedule ≡ stored_schedule R (marked_edits R hidden)) }
{
    let graph = indexes::resolved(multilog);
    let mustmarks = judgement_marks::must_marks(&graph.rows);
    let ring = graph.has_ring(&mustmarks);
    let pages = schedules::schedule_row(&graph, &mustmarks, &hidden);
    Planned {
        sound: !ring,
        must: mustmarks,
        schedule: edits_of(multilog, pages),
    }
}

// Must, never, settled and page of each edit.
pub fn judge(multilog: Record) -> Judged
    ensures { (R : theory.Record) → multilog ≡ stored R → Fit R → result ≡ judged_of R }
{
    let graph = indexes::resolved(multilog);
    let mustmarks = judgement_marks::must_marks(&graph.rows);
    let nevermarks = judgement_marks::never_marks(&graph, &mustmarks);
    let settledmarks = judgement_marks::settled_marks(&graph, &mustmarks, &nevermarks);
    let row = schedules::schedule_row(&graph, &mustmarks, &[0; MARKS]);
    Judged {
        must: mustmarks,
        never: nevermarks,
        settled: settledmarks,
        place: schedules::page_values(row),
    }
}
