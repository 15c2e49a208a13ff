// The answers of a call log, printed one after the other into one buffer.
#![tactic(auto)]

pub mod bench_answers;

ghost use Rattle.std.specs.Prelude.{◌≡◌, [], ◌∷◌};
ghost use Rattle.record.specs.Record as theory;
ghost use Rattle.record.specs.Stored.{record_of, stored};
ghost use Rattle.record_tables.specs.Checked.{Checked};
ghost use Rattle.text.specs.Text.{text_of};
ghost use Rattle.log_forms.specs.Printed.{Printed, SameLine};
ghost use Rattle.text_report.specs.Report.{report_of, refusal_line};
ghost use Rattle.log_answers.specs.Answers.{record_text};

use log_forms::Printer;
use record::Record;

// The line of a refusal, by its number.
pub fn print_refusal(printer: &mut Printer<'_>, number: u32)
    ensures { Printed (refusal_line number printer.old.line ∷ []) printer.old printer.new }
{
    let numbers = [u64::from(number), printer.line as u64];
    printer.print(text_report::REFUSAL_FORM, &numbers);
}

// Prints the text of a record.
// Kept: two lines over a writer of its own; a function of both would take the writer as a closure, and its clause would have to say what that
// writes.
pub fn print_text(printer: &mut Printer<'_>, content: &Record)
    ensures { Printed (text_of (record_of content.now) ∷ []) printer.old printer.new }
{
    let end = text_writer::write_text(*content, printer.out, printer.at);
    printer.place_at(end);
}

// Prints the counts of a record, then its text.
pub fn print_record(printer: &mut Printer<'_>, content: &Record)
    ensures { Printed (record_text content.now) printer.old printer.new }
{
    let numbers = [content.edit_count as u64, content.constraint_count as u64];
    printer.print(text_report::COUNTS_FORM, &numbers);
    print_text(printer, content);
}

// Prints the report of a sound record.
// Kept: as the text.
pub fn print_report(printer: &mut Printer<'_>, content: &Record)
    ensures told { (R : theory.Record) → content.now ≡ stored R → Checked R → Printed (report_of R ∷ []) printer.old printer.new }
    ensures same { SameLine printer.old printer.new }
{
    let end = text_report::report_record(*content, printer.out, printer.at);
    printer.place_at(end);
}
