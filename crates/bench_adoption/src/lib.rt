// Adoption as a call on a bench (document 01, "Proposals and votes" and "Entries and pages"): the election is counted, and a won bundle joins the
// bench's record.
#![tactic(auto)]

ghost use Rattle.voting_count.specs.Count.{lent};
ghost use Rattle.ledger.specs.Ledger.{Call};
ghost use Rattle.ledger.specs.Bench.{Answers, told_outcome};
ghost use Rattle.bench_adoption.specs.Adopts.{Adopts};

use ledger::{Bench, CallResult};
use refusals::Refusal;
use voting_count::{Counted, Poll};

// What follows the count: an open election is accepted with its weights, and nothing changes. Pub for who counted already.
pub fn adopted_bench(
    bench: &mut Bench,
    counted: Result<Counted, Refusal>,
) -> Result<CallResult, Refusal>
    ensures { Adopts bench.old counted (told_outcome result bench.new) }
{
    let counted = counted?;
    let Some(bundle) = counted.bundle else {
        return Ok(CallResult::accepted(0, 0, counted.election));
    };
    let joined = record_joining::merge_record(bench.multilog, bundle);
    bench_edits::joined_bench(bench, joined, counted.election)
}

pub fn adopt(bench: &mut Bench, edit: u32, poll: &Poll) -> Result<CallResult, Refusal>
    ensures { Answers bench.old (Call.adopt edit (lent poll.now.proposals) poll.now.roll.now) (told_outcome result bench.new) }
{
    let counted = voting_count::count(edit, poll);
    adopted_bench(bench, counted)
}
