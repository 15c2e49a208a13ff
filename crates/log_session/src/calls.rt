// The lines of a call log that lend, run and printed; and what a call prints.
ghost use Rattle.std.specs.Prelude.{◌≡◌, Ok};
ghost use Rattle.ledger.specs.Ledger.{call_told};
ghost use Rattle.log_forms.specs.Printed.{Printed, SameLine};
ghost use Rattle.log_session.specs.Desk.{Desk, printed_of};
ghost use Rattle.log_session.specs.Lends.{lend_effect};
ghost use Rattle.log_session.specs.calls.Lines.{Holds, pages_text, adoption_text, outcome_text};

use crate::Session;
use ledger::CallResult;
use log_commands::{Call, Lend};
use log_forms::Printer;
use pages_turner::Turner;
use refusals::Refusal;

// Kept: a line is printed whole or not at all, so that what a turn prints is no part that an adoption could print after its election.
fn print_pages(printer: &mut Printer<'_>, accepted: CallResult, turner: Turner)
    ensures { Printed (pages_text (call_told (Ok accepted)) turner.opened turner.last) printer.old printer.new }
{
    let numbers = [
        accepted.undone as u64,
        accepted.redone as u64,
        turner.opened as u64,
        turner.last as u64,
    ];
    printer.print(b"undone=# redone=# open=# last=#\n", &numbers);
}

fn print_adoption(printer: &mut Printer<'_>, accepted: CallResult, turner: Turner)
    ensures { Printed (adoption_text (call_told (Ok accepted)) turner.opened turner.last) printer.old printer.new }
{
    let election = accepted.election;
    let numbers = [
        u64::from(election.won),
        u64::from(election.greatest),
        u64::from(election.silent),
        u64::from(election.total),
        accepted.undone as u64,
        accepted.redone as u64,
        turner.opened as u64,
        turner.last as u64,
    ];
    printer.print(
        b"won=? greatest=# silent=# total=# undone=# redone=# open=# last=#\n",
        &numbers,
    );
}

// What a call answers, or its refusal. An adoption answers what its election does, too.
pub fn print_outcome(
    printer: &mut Printer<'_>,
    answer: Result<CallResult, Refusal>,
    turner: Turner,
    call: Call,
)
    ensures { Printed (outcome_text call (call_told answer) turner printer.old.line) printer.old printer.new }
{
    match answer {
        Ok(accepted) => match call {
            Call::Adopt(_) => print_adoption(printer, accepted, turner),
            _ => print_pages(printer, accepted, turner),
        },
        Err(refusal) => log_answers::print_refusal(printer, refusal.number()),
    }
}

// A line that lends.
// Kept: two lines, as for a line about votes (`votes::print_vote`).
#[tactic(auto, using(log_forms::proofs::Printing::same_printed))]
pub fn run_lend(printer: &mut Printer<'_>, session: &mut Session, lend: Lend)
    ensures told { (D : Desk) → Holds D session.old
        → Holds (lend_effect D lend).after session.new × Printed (printed_of (lend_effect D lend) printer.old.line) printer.old printer.new }
    ensures bench { session.new.bench ≡ session.old.bench }
    ensures same { SameLine printer.old printer.new }
{
    let told = crate::lend_line(session, lend);
    crate::print_refused(printer, told);
}
