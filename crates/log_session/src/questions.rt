// The questions of a call log, answered.
ghost use Rattle.std.specs.Prelude.{◌≡◌};
ghost use Rattle.log_forms.specs.Printed.{Printed, SameLine};
ghost use Rattle.log_session.specs.Desk.{Desk, bench_in};
ghost use Rattle.log_session.specs.questions.Questions.{ask_text};

use ledger::Bench;
use log_answers::bench_answers;
use log_commands::Ask;
use log_forms::Printer;

// What a question prints.
// Kept: `bench`, `printer`: as in `log_answers::bench_answers`.
#[tactic(auto, using(log_forms::proofs::Printing::same_printed))]
pub fn print_ask(printer: &mut Printer<'_>, bench: &Bench, ask: Ask)
    ensures told { (D : Desk) → bench.now ≡ bench_in D → Printed (ask_text ask D) printer.old printer.new }
    ensures same { SameLine printer.old printer.new }
{
    match ask {
        Ask::Text => log_answers::print_record(printer, &bench.multilog),
        Ask::Report => log_answers::print_report(printer, &bench.multilog),
        Ask::Hidden => bench_answers::print_hidden(printer, bench),
        Ask::Schedule => bench_answers::print_schedule(printer, bench),
        Ask::Catalogue => bench_answers::print_catalogue(printer, bench),
        Ask::Journal => bench_answers::print_journal(printer, bench),
        Ask::Page => bench_answers::print_page(printer, bench.turner),
    }
}
