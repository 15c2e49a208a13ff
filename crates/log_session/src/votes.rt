// The lines of a call log about votes, proposals, suggestions, the test of a row and reasons: what each prints.
ghost use Rattle.std.specs.Prelude.{◌≡◌, List, [], ◌∷◌, map, Ok, is_some};
ghost use Rattle.refusals.specs.Numbers.{number_of};
ghost use Rattle.voting.specs.declared.RollRow.{RollRow};
ghost use Rattle.voting.specs.Tally.{election_told};
ghost use Rattle.voting_bundles.specs.Bundles.{bundle_told};
ghost use Rattle.voting_roll.specs.Election.{Proposals};
ghost use Rattle.voting_count.specs.Count.{count_of, count_told};
ghost use Rattle.reasons_lent.specs.Asked.{reason_told};
ghost use Rattle.text_reasons.specs.ReasonLine.{reason_line};
ghost use Rattle.log_forms.specs.Printed.{Printed, SameLine};
ghost use Rattle.log_lent.specs.Kept.{Kept};
ghost use Rattle.log_session.specs.Desk.{Desk, bench_in, printed_of, accepted_text};
ghost use Rattle.log_session.specs.votes.Votes.{election_line, bundle_text, rule_line, suggestion_text, test_line, winner_text, tally_text, proposal_effect, vote_effect};

use crate::{Session, winners};
use log_commands::{Proposing, Vote};
use log_forms::Printer;
use log_lent::{lent_calls, lent_proposals};
use reasons_lent::Reason;
use record_rows::row::ConstraintRow;
use refusals::Refusal;
use suggestions::Suggested;
use voting::ElectionResult;
use voting_bundles::Bundled;
use voting_count::Counted;

pub fn print_election(printer: &mut Printer<'_>, election: ElectionResult)
    ensures { Printed (election_line (election_told (Ok election))) printer.old printer.new }
{
    printer.print(
        b"won=? greatest=# silent=# total=#\n",
        &[
            u64::from(election.won),
            u64::from(election.greatest),
            u64::from(election.silent),
            u64::from(election.total),
        ],
    );
}

fn print_bundle(printer: &mut Printer<'_>, small: &Bundled)
    ensures { Printed (bundle_text (bundle_told (Ok small.now))) printer.old printer.new }
{
    printer.print(
        b"eligible=? edits=# rules=#\n",
        &[
            u64::from(small.eligible),
            small.bundle.edit_count as u64,
            small.bundle.constraint_count as u64,
        ],
    );
    log_answers::print_text(printer, &small.bundle);
}

// The line of a suggested constraint.
fn print_rule(printer: &mut Printer<'_>, row: ConstraintRow)
    ensures { Printed (rule_line row) printer.old printer.new }
{
    printer.print(
        text_lines::constraint_form(),
        &[u64::from(row[0]), u64::from(row[1]), u64::from(row[2])],
    );
}

// The line of how many constraints are suggested.
const RULES: &[u8] = b"rules=#\n";

fn print_rules(printer: &mut Printer<'_>, suggested: Suggested)
    ensures { Printed (suggestion_text suggested) printer.old printer.new }
{
    match suggested {
        Suggested::Nothing => printer.print(RULES, &[0]),
        Suggested::One(row) => {
            printer.print(RULES, &[1]);
            print_rule(printer, row);
        }
        Suggested::Two(row, next) => {
            printer.print(RULES, &[2]);
            print_rule(printer, row);
            print_rule(printer, next);
        }
    }
}

fn print_test(printer: &mut Printer<'_>, sound: bool)
    ensures { Printed (test_line sound) printer.old printer.new }
{
    printer.print(b"sound=?\n", &[u64::from(sound)]);
}

// The election's answer; of one that is won the bundle.
// Kept: that `won` and the bundle agree is a premise, as `voting_count::Counted` says.
pub fn print_winner(printer: &mut Printer<'_>, edit: u32, counted: &Counted)
    ensures told { (P : Proposals) (roll : List RollRow) → count_told (Ok counted.now) ≡ count_of edit P roll → counted.now.election.won ≡ is_some counted.now.bundle
        → Printed (winner_text edit (count_told (Ok counted.now))) printer.old printer.new }
    ensures same { SameLine printer.old printer.new }
{
    print_election(printer, counted.election);
    if let Some(bundle) = &counted.bundle {
        winners::print_won(printer, edit, bundle);
    }
}

// The election's answers on the rows so far.
fn print_tally(printer: &mut Printer<'_>, answers: &[ElectionResult])
    ensures { Printed (tally_text (map (λ r. election_told (Ok r)) answers.now)) printer.old printer.new }
{
    for answer in answers {
        print_election(printer, *answer);
    }
}

// Why an edit must stand, or can never stand.
// Kept: two lines over a writer of its own, as `log_answers::print_text`.
fn print_reason(printer: &mut Printer<'_>, edit: u32, reason: &Reason)
    ensures { Printed (reason_line edit (reason_told reason.now) ∷ []) printer.old printer.new }
{
    let end = text_reasons::write_reason(edit, reason, printer.out, printer.at);
    printer.place_at(end);
}

// Prints what an accepted line about votes answers.
#[tactic(auto, using(log_forms::proofs::Printing::same_printed, log_forms::proofs::Printing::same_here))]
fn answer_vote(printer: &mut Printer<'_>, session: &Session, vote: Vote) -> Result<(), Refusal>
    ensures told { (D : Desk) → Kept D.lent session.now.lending → session.now.bench.multilog ≡ (bench_in D).multilog
        → (number_of result ≡ (vote_effect D vote).number) × Printed (accepted_text result (vote_effect D vote).text) printer.old printer.new }
    ensures same { SameLine printer.old printer.new }
{
    let lending = &session.lending;
    match vote {
        Vote::Elect(edit) => print_election(printer, lent_calls::elect_lent(lending, edit)?),
        Vote::Bundle(edit, k) => print_bundle(printer, &lent_calls::bundle_lent(lending, k, edit)?),
        Vote::Suggest(asked) => {
            let multilog = &session.bench.multilog;
            print_rules(printer, lent_calls::suggest_named(multilog, asked)?);
        }
        Vote::Test(k) => print_test(printer, lent_calls::test_lent(lending, k)?),
        Vote::Winner(edit) => print_winner(printer, edit, &lent_calls::count_lent(lending, edit)?),
        Vote::Tally(edit) => print_tally(
            printer,
            lent_calls::tally_lent(lending, edit)?.as_slice(),
        ),
        Vote::Why(edit, k) => print_reason(printer, edit, &lent_calls::why_lent(lending, k, edit)?),
    }
    Ok(())
}

// What a line about votes prints.
// Kept: two lines, as for a proposal. One function for both would take the answer as a closure, and its clause would have to say what that prints.
#[tactic(auto, using(log_forms::proofs::Printing::same_printed, log_forms::proofs::Printing::same_both))]
pub fn print_vote(printer: &mut Printer<'_>, session: &Session, vote: Vote)
    ensures told { (D : Desk) → Kept D.lent session.now.lending → session.now.bench.multilog ≡ (bench_in D).multilog
        → Printed (printed_of (vote_effect D vote) printer.old.line) printer.old printer.new }
    ensures same { SameLine printer.old printer.new }
{
    let told = answer_vote(printer, session, vote);
    crate::print_refused(printer, told);
}

// Makes a proposal from what is lent and prints it; kept, it takes the place of the old one.
#[tactic(auto, using(log_forms::proofs::Printing::same_printed, log_forms::proofs::Printing::same_here))]
fn answer_proposal(
    printer: &mut Printer<'_>,
    session: &mut Session,
    asked: Proposing,
) -> Result<(), Refusal>
    ensures told { (D : Desk) → Kept D.lent session.old.lending
        → Kept (proposal_effect D asked).after.lent session.new.lending
        × (number_of result ≡ (proposal_effect D asked).number)
        × Printed (accepted_text result (proposal_effect D asked).text) printer.old printer.new }
    ensures bench { session.new.bench ≡ session.old.bench }
    ensures same { SameLine printer.old printer.new }
{
    let lending = &mut session.lending;
    let new = lent_proposals::propose_lent(lending, asked)?;
    log_answers::print_record(printer, &new);
    if asked.keep {
        let _kept = lending.lend_record(asked.old, new);
    }
    Ok(())
}

// What a line that makes a proposal prints.
// Kept: two lines, as for a line about votes.
#[tactic(auto, using(log_forms::proofs::Printing::same_printed, log_forms::proofs::Printing::same_both))]
pub fn print_proposal(printer: &mut Printer<'_>, session: &mut Session, asked: Proposing)
    ensures told { (D : Desk) → Kept D.lent session.old.lending
        → Kept (proposal_effect D asked).after.lent session.new.lending
        × Printed (printed_of (proposal_effect D asked) printer.old.line) printer.old printer.new }
    ensures bench { session.new.bench ≡ session.old.bench }
    ensures same { SameLine printer.old printer.new }
{
    let told = answer_proposal(printer, session, asked);
    crate::print_refused(printer, told);
}
