// Calls whose records, roll and row are what the lines of a call log lend. Public for the crates of this workspace that run logs.
ghost use Rattle.std.specs.Prelude.{◌≡◌, ◌<◌, Some, Err, IfOk, is_some};
ghost use Rattle.refusals.specs.declared.Refusal.TheVariants.{OutOfRange};
ghost use Rattle.refusals.specs.Numbers.{number_of, Gives};
ghost use Rattle.record.specs.Record as theory;
ghost use Rattle.record.specs.Stored.{stored};
ghost use Rattle.record_tables.specs.Checked.{Checked};
ghost use Rattle.voting.specs.Tally.{election_told};
ghost use Rattle.voting_roll.specs.Election.{election_of};
ghost use Rattle.voting_bundles.specs.Bundles.{bundle_told};
ghost use Rattle.voting_count.specs.Count.{count_of, count_told};
ghost use Rattle.voting_count.specs.Tallied.{tallied_told, tallied_of};
ghost use Rattle.reasons_lent.specs.Asked.{reason_told};
ghost use Rattle.ledger.specs.Ledger.{Call};
ghost use Rattle.ledger.specs.Bench.{Answers, told_outcome};
ghost use Rattle.log_lent.specs.Lent.{Lent, lent_records};
ghost use Rattle.log_lent.specs.Kept.{Kept};
ghost use Rattle.log_lent.specs.lent_calls.Calls.{proposals_of, bundle_in, lent_row_fault, row_sound, why_fault, reason_in, suggestion_fault, suggested_rules_in};
ghost use Rattle.log_lent.specs.lent_calls.Named.{row_known};

use crate::Lending;
use judgement::lent_record;
use ledger::{Bench, CallResult};
use log_commands::Suggesting;
use reasons_lent::Reason;
use record::Record;
use record_rows::element::Element;
use record_rows::row;
use record_rows::row::EditRow;
use record_tables::lookup;
use refusals::Refusal;
use suggestions::Suggested;
use voting::ElectionResult;
use voting_bundles::Bundled;
use voting_count::{AnswersSoFar, Counted};

// Record k is merged.
pub fn merge_lent(bench: &mut Bench, lending: &Lending, k: u32) -> Result<CallResult, Refusal>
    ensures elsewhere { 8 < k → told_outcome result bench.new ≡ told_outcome (Err OutOfRange) bench.old }
    ensures merged { (L : Lent) → Kept L lending.now → k < lent_records → Answers bench.old (Call.merge (L.edits k) (L.constraints k)) (told_outcome result bench.new) }
{
    let place = crate::record_place(k)?;
    bench_edits::merge(bench, lending.record(place))
}

// The election on an edit over records 1 to 8 and the roll, with its won bundle.
// Kept: one line each over an operation of `voting_count`, which are three: an election alone makes no bundle, a tally answers row by row.
pub fn count_lent(lending: &Lending, edit: u32) -> Result<Counted, Refusal>
    ensures told { (L : Lent) → Kept L lending.now → count_told result ≡ count_of edit (proposals_of L) L.roll }
    ensures bundle { IfOk result (λ c. c.election.won ≡ is_some c.bundle) }
{
    voting_count::count(edit, &lending.poll())
}

// The answer of the election alone.
// Kept: as the count.
pub fn elect_lent(lending: &Lending, edit: u32) -> Result<ElectionResult, Refusal>
    ensures { (L : Lent) → Kept L lending.now → election_told result ≡ election_of edit (proposals_of L) L.roll }
{
    voting_count::election(edit, &lending.poll())
}

// The answers of the election on the rows so far.
// Kept: as the count.
pub fn tally_lent(lending: &Lending, edit: u32) -> Result<AnswersSoFar, Refusal>
    ensures { (L : Lent) → Kept L lending.now → tallied_told result ≡ tallied_of edit (proposals_of L) L.roll }
{
    voting_count::tally(edit, &lending.poll())
}

// The bundle of an edit in record k, and whether it is eligible.
pub fn bundle_lent(lending: &Lending, k: u32, edit: u32) -> Result<Bundled, Refusal>
    ensures { (L : Lent) → Kept L lending.now → bundle_told result ≡ bundle_in L k edit }
{
    let place = crate::record_place(k)?;
    voting_bundles::lent_bundle(lending.record(place), edit)
}

// Whether the row is a sound schedule of record k.
pub fn test_lent(lending: &Lending, k: u32) -> Result<bool, Refusal>
    ensures { (L : Lent) → Kept L lending.now → Gives (lent_row_fault L k) (row_sound L k) result }
{
    let place = crate::record_place(k)?;
    lent_record::test_row(lending.record(place), lending.row())
}

// Why an edit of record k must stand, or can never stand.
pub fn why_lent(lending: &Lending, k: u32, edit: u32) -> Result<Reason, Refusal>
    ensures fault { (L : Lent) → Kept L lending.now → number_of result ≡ why_fault L k edit }
    ensures reason { (L : Lent) → Kept L lending.now → IfOk result (λ r. Some (reason_told r) ≡ reason_in L k edit) }
{
    let place = crate::record_place(k)?;
    let reason = reasons_lent::reason_lent(lending.record(place), edit)?;
    reason.ok_or(Refusal::NoReason)
}

// The eight proposals and the roll are what is lent, and the won bundle joins the bench's record.
pub fn adopt_lent(bench: &mut Bench, lending: &Lending, edit: u32) -> Result<CallResult, Refusal>
    ensures { (L : Lent) → Kept L lending.now → Answers bench.old (Call.adopt edit (proposals_of L) L.roll) (told_outcome result bench.new) }
{
    bench_adoption::adopt(bench, edit, &lending.poll())
}

// The row of the edit of a name, if the record knows it.
fn row_named(multilog: &Record, name: u16) -> Option<EditRow>
    ensures { (R : theory.Record) → multilog.now ≡ stored R → Checked R → result ≡ row_known R name }
{
    let place = lookup::place_of(*multilog, name)?;
    let edit = multilog.edit_slice().get(place)?;
    Some(edit.row())
}

// What two edits of a record suggest.
pub fn suggest_named(multilog: &Record, asked: Suggesting) -> Result<Suggested, Refusal>
    ensures { (R : theory.Record) → multilog.now ≡ stored R → Checked R → Gives (suggestion_fault R asked) (suggested_rules_in R asked) result }
{
    let name = row::name(asked.first)?;
    let other = row::name(asked.second)?;
    if 1 < asked.case {
        return Err(Refusal::OutOfRange);
    }
    let first = row_named(multilog, name).ok_or(Refusal::Unknown)?;
    let second = row_named(multilog, other).ok_or(Refusal::Unknown)?;
    suggestions::suggest(first, second, asked.case)
}
