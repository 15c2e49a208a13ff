// A session: one bench, and what the lines of a call log have lent. Here are the lines that lend, and those that make a call on the bench.
#![tactic(auto)]

pub mod calls;
pub mod questions;
pub mod votes;
pub mod winners;

ghost use Rattle.std.specs.Prelude.{◌≡◌, []};
ghost use Rattle.refusals.specs.Numbers.{number_of};
ghost use Rattle.ledger.specs.Bench.{told_outcome};
ghost use Rattle.log_forms.specs.Printed.{Printed};
ghost use Rattle.log_answers.specs.Answers.{answered_text};
ghost use Rattle.log_lent.specs.Kept.{Kept};
ghost use Rattle.log_session.specs.Desk.{Desk, empty_desk, replied};
ghost use Rattle.log_session.specs.Lends.{lend_effect};
ghost use Rattle.log_session.specs.Requests.{request_of};
ghost use Rattle.log_session.specs.calls.Lines.{Holds};

use bench_edits::visibility;
use ledger::{Bench, CallResult};
use log_commands::{Call, Lend};
use log_forms::Printer;
use log_lent::{Lending, lent_calls};
use refusals::Refusal;

// One bench, and what is lent.
// Kept: `Holds D`: as of what is lent, no view of a session gives the desk back: the desk has the calls of its bench, the session what they came to.
#[derive(Drop)]
pub struct Session {
    pub bench: Bench,
    pub lending: Lending,
}

impl Session {
    // An empty bench, and nothing lent.
    pub fn empty() -> Session
        ensures { Holds empty_desk result }
    {
        Session {
            bench: bench::empty_bench(),
            lending: Lending::nothing(),
        }
    }
}

// A line that lends.
pub fn lend_line(session: &mut Session, lend: Lend) -> Result<(), Refusal>
    ensures told { (D : Desk) → Holds D session.old → (number_of result ≡ (lend_effect D lend).number) × Holds (lend_effect D lend).after session.new }
    ensures bench { session.new.bench ≡ session.old.bench }
{
    match lend {
        Lend::EditRow(k, cells) => session.lending.lend_edit(k, cells.into()),
        Lend::ConstraintRow(k, cells) => session.lending.lend_constraint(k, cells.into()),
        Lend::NoRows(k) => session.lending.lend_record(k, record::empty()),
        Lend::BenchRows(k) => session.lending.lend_record(k, session.bench.multilog),
        Lend::RollRow(seat, weight) => session.lending.lend_seat(seat, weight),
        Lend::NoRoll => {
            session.lending.lend_no_roll();
            Ok(())
        }
        Lend::RowName(name) => session.lending.lend_name(name),
        Lend::NoRow => {
            session.lending.lend_no_row();
            Ok(())
        }
    }
}

// A call on the bench. What is lent stays.
pub fn make_call(session: &mut Session, call: Call) -> Result<CallResult, Refusal>
    ensures told { (D : Desk) → Holds D session.old
        → (told_outcome result session.new.bench ≡ replied D (request_of D call)) × Kept D.lent session.new.lending }
    ensures lending { session.new.lending ≡ session.old.lending }
{
    let bench = &mut session.bench;
    let lending = &session.lending;
    match call {
        Call::AddEdit(cells) => bench_edits::add_edit(bench, cells.into()),
        Call::AddConstraint(cells) => bench_edits::add_constraint(bench, cells.into()),
        Call::Merge(k) => lent_calls::merge_lent(bench, lending, k),
        Call::Hide(edit) => visibility::hide(bench, edit),
        Call::Show(edit) => visibility::show(bench, edit),
        Call::Turn(pages) => bench::turn(bench, pages),
        Call::Adopt(edit) => lent_calls::adopt_lent(bench, lending, edit),
    }
}

// A refusal, if there is one.
pub fn print_refused(printer: &mut Printer<'_>, told: Result<(), Refusal>)
    ensures { Printed (answered_text (number_of told) [] printer.old.line) printer.old printer.new }
{
    if let Err(refusal) = told {
        log_answers::print_refusal(printer, refusal.number());
    }
}
