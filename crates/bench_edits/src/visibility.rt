// Hide and show (document 01, "Entries and pages" and "What is turned away"): the mark of an edit becomes 1, or 0.
ghost use Rattle.ledger.specs.Ledger.{Call};
ghost use Rattle.ledger.specs.Bench.{Answers, told_outcome};
ghost use Rattle.bench_edits.specs.visibility.Named.{mark_call};

use bench::hidden;
use ledger::{Bench, CallResult};
use record_rows::row;
use refusals::Refusal;

// The mark of an edit that must stand.
const STANDS: u8 = 1;

// The edit named gets the mark of a hidden one, or of one that is shown.
fn with_mark(bench: &mut Bench, edit: u32, hides: bool) -> Result<CallResult, Refusal>
    ensures { Answers bench.old (mark_call hides edit) (told_outcome result bench.new) }
{
    // Kept: tested and not taken by `row::name`: an edit's index is asked for by the number that a call has.
    if !row::is_name(edit) {
        return Err(Refusal::OutOfRange);
    }
    let multilog = bench.multilog;
    let index = hidden::edit_index(multilog, edit).ok_or(Refusal::Unknown)?;
    let mark = u8::from(hides);
    let mut marks = bench.hidden;
    if marks[index] == mark {
        return Err(Refusal::NotHideable);
    }
    marks[index] = mark;
    let planned = judgement::plan(multilog, marks);
    if hides && planned.must[index] == STANDS {
        return Err(Refusal::NotHideable);
    }
    Ok(bench::reschedule(
        bench,
        multilog,
        marks,
        planned.schedule,
        bench::no_election(),
    ))
}

pub fn hide(bench: &mut Bench, edit: u32) -> Result<CallResult, Refusal>
    ensures { Answers bench.old (Call.hide edit) (told_outcome result bench.new) }
{
    with_mark(bench, edit, true)
}

pub fn show(bench: &mut Bench, edit: u32) -> Result<CallResult, Refusal>
    ensures { Answers bench.old (Call.show edit) (told_outcome result bench.new) }
{
    with_mark(bench, edit, false)
}
