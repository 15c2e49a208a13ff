// Add and merge (document 01, "The record", "Entries and pages" and "What is turned away").
#![tactic(auto)]

pub mod visibility;

ghost use Rattle.std.specs.Prelude.{Ok};
ghost use Rattle.voting.specs.Tally.{election_told};
ghost use Rattle.ledger.specs.Ledger.{Call};
ghost use Rattle.ledger.specs.Bench.{Answers, told_outcome};
ghost use Rattle.bench_edits.specs.Joins.{Joins};

use bench::hidden;
use ledger::{Bench, CallResult};
use record::Record;
use record_rows::row::{ConstraintRow, EditRow, LentRecord};
use refusals::Refusal;
use voting::ElectionResult;

// The refusal of the rows, then one test of the union, then the change. Pub for the crate of adoption.
pub fn joined_bench(
    bench: &mut Bench,
    joined: Result<Record, Refusal>,
    election: ElectionResult,
) -> Result<CallResult, Refusal>
    ensures { Joins bench.old joined (election_told (Ok election)) (told_outcome result bench.new) }
{
    let union = joined?;
    let hidden = hidden::carried(bench.multilog, bench.hidden, union);
    let planned = judgement::plan(union, hidden);
    if !planned.sound {
        return Err(Refusal::Unsound);
    }
    Ok(bench::reschedule(bench, union, hidden, planned.schedule, election))
}

// Kept: three calls of the ledger, each with rows and a join of its own; what they share is `joined_bench`.
pub fn add_edit(bench: &mut Bench, row: EditRow) -> Result<CallResult, Refusal>
    ensures { Answers bench.old (Call.add_edit row) (told_outcome result bench.new) }
{
    let joined = record_joining::add_edit(bench.multilog, row);
    joined_bench(bench, joined, bench::no_election())
}

// Kept: as `add_edit`.
pub fn add_constraint(bench: &mut Bench, row: ConstraintRow) -> Result<CallResult, Refusal>
    ensures { Answers bench.old (Call.add_constraint row) (told_outcome result bench.new) }
{
    let joined = record_joining::add_constraint(bench.multilog, row);
    joined_bench(bench, joined, bench::no_election())
}

// Kept: as `add_edit`.
pub fn merge(bench: &mut Bench, lent: LentRecord) -> Result<CallResult, Refusal>
    ensures { Answers bench.old (Call.merge lent.entry.edits.now lent.entry.constraints.now) (told_outcome result bench.new) }
{
    let joined = record_joining::merge(bench.multilog, lent);
    joined_bench(bench, joined, bench::no_election())
}
