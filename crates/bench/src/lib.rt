// The empty bench, a turn, and what the other calls share: a change (document 01, "Entries and pages"). A call changes the bench in place, and a
// refused one assigns nothing of it.
#![tactic(auto)]

pub mod hidden;

ghost use Rattle.std.specs.Prelude.{◌≡◌, Ok};
ghost use Rattle.voting.specs.Tally.{election_told};
ghost use Rattle.ledger.specs.Ledger.{Call, accepted_answer, call_told, no_election, start};
ghost use Rattle.ledger.specs.Bench.{Answers, bench_of, told_outcome};
ghost use Rattle.bench.specs.Changes.{Opens, Reschedules};

use catalogue::{Chips, View};
use graph::links::{MARKS, Marks};
use ledger::{Bench, CallResult};
use pages_turner::{Turner, turning};
use record::{Record, Schedule};
use refusals::Refusal;
use voting::ElectionResult;

// A bench with no edit and no page.
pub fn empty_bench() -> Bench
    ensures { result ≡ bench_of start }
{
    Bench {
        multilog: record::empty(),
        hidden: [0; MARKS],
        schedule: Schedule::empty(),
        turner: Turner { opened: 0, last: 0 },
        view: View::empty(),
    }
}

// The bench with another page open. Pub for the crates that turn pages.
pub fn open_at(bench: &mut Bench, page: usize)
    ensures { Opens bench.old page bench.new }
{
    let opened = bench.turner.opened;
    bench.view.turn_to::<Chips>(bench.schedule, opened, page);
    bench.turner.opened = page;
}

// What a turn answers: no pages undone or redone, and no election. Pub for the crates of the call log.
pub fn turn_result() -> CallResult
    ensures { call_told (Ok result) ≡ accepted_answer 0 0 no_election }
{
    CallResult::accepted(0, 0, no_election())
}

pub fn turn(bench: &mut Bench, by: i32) -> Result<CallResult, Refusal>
    ensures { Answers bench.old (Call.turn by) (told_outcome result bench.new) }
{
    let after = turning::turned(bench.turner, by)?;
    open_at(bench, after.opened);
    Ok(turn_result())
}

// What a call without an election tells of one. Pub for the crates of the other calls.
// Kept: no derived Default: its promise is one of each field, and here it is one equation with what the ledger tells.
pub fn no_election() -> ElectionResult
    ensures { election_told (Ok result) ≡ no_election }
{
    ElectionResult {
        won: false,
        greatest: 0,
        silent: 0,
        total: 0,
    }
}

// To the last page of a new schedule, with the record and the hidden edits that it is made from. Pub for the crates of the calls that change.
pub fn reschedule(
    bench: &mut Bench,
    multilog: Record,
    hidden: Marks,
    schedule: Schedule,
    election: ElectionResult,
) -> CallResult
    ensures { Reschedules bench.old multilog hidden schedule (election_told (Ok election)) (told_outcome (Ok result) bench.new) }
{
    let last = schedule.count;
    let opened = bench.turner.opened;
    let common = catalogue::common_beginning(bench.schedule, opened, schedule);
    let undone = opened - common;
    let redone = last - common;
    bench
        .view
        .change::<Chips>(bench.schedule, opened, schedule, common);
    bench.multilog = multilog;
    bench.hidden = hidden;
    bench.schedule = schedule;
    bench.turner = Turner { opened: last, last };
    CallResult::accepted(undone, redone, election)
}
