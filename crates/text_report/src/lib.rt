// The report of a text (document 01, "Text"), and the line of a refusal.
// Kept: `at`, `out`: as document 01 lends them, an output and a place in it, which is refused where it is past the end.
#![tactic(auto)]

ghost use Rattle.std.specs.Prelude.{◌≡◌, ◌++◌, map, ◌≤◌, leb, length, take, get_or};
ghost use Rattle.record.specs.Record as theory;
ghost use Rattle.record.specs.Stored.{edit_limit, stored};
ghost use Rattle.record_tables.specs.Checked.{Checked};
ghost use Rattle.text_forms.specs.decimal.Written as part;
ghost use Rattle.text_forms.specs.Form.{fill};
ghost use Rattle.text.specs.Text.{joined_lines, read_text};
ghost use Rattle.text_writer.specs.Placed.{placed, placing};
ghost use Rattle.text_report.specs.Report.{counts_form, report_of, refusal_line, printed, Reported, reported_out};
ghost use Rattle.text_report.specs.Rows.{line_text, no_line, report_lines};

use judgement::Judged;
use record::{EDITS, Edit, Record};
use refusals::Refusal;
use text_reader::Fault;
use text_writer::Lined;

// The line of the counts. Pub for the crates that print it before a record's text.
pub const COUNTS_FORM: &[u8] = b"edits=# rules=#\n";
// The line of an edit.
const REPORT_FORM: &[u8] = b"edit=@ must=? never=? settled=? place=#\n";
// The line of a refusal. Pub for the crates that print it.
pub const REFUSAL_FORM: &[u8] = b"refused=# line=#\n";

// The kind of text that the lines of a report are: the same beside every manner. No value of it is made.
struct ReportText;

// The line of an edit, as its numbers: name, must, never, settled and place.
#[derive(Clone, Copy)]
struct ReportLine {
    numbers: [u64; 5],
}

impl Lined<ReportText> for ReportLine {
    ghost use Rattle.text_report.specs.Rows.{line_text};

    ghost line = { line_text };

    #[tactic(auto, unfolding(crate::specs::Report::report_form, text_forms::specs::Spelling::bytes))]
    fn line_fit(self, room: usize) -> Option<usize> {
        text_forms::form_fit(room, REPORT_FORM, &self.numbers)
    }

    #[tactic(auto, unfolding(crate::specs::Report::report_form, text_forms::specs::Spelling::bytes))]
    fn write_line(self, out: &mut [u8]) -> usize {
        text_forms::write_form(out, REPORT_FORM, &self.numbers)
    }
}

// A number of a judgement by index, 0 past the last.
// Kept: beside `byte_at` of `text_lines` and `index_in` of `graph::indexes`: it is widened here, once for four uses, to what a form's numbers are.
fn number_at(row: &[u8], index: usize) -> u64
    ensures { result ≡ get_or row.now index 0 }
{
    row.get(index).map_or(0, |number| u64::from(*number))
}

// The line of an edit by its place, or zeros where there is none; in a judgement indexes begin with one.
fn line_at(edits: &[Edit], judged: &Judged, i: usize) -> ReportLine
    ensures { result ≡ get_or (report_lines judged.now 1 edits.now) i no_line }
{
    match edits.get(i) {
        Some(edit) => ReportLine {
            numbers: [
                u64::from(edit.name),
                number_at(&judged.must, i + 1),
                number_at(&judged.never, i + 1),
                number_at(&judged.settled, i + 1),
                number_at(&judged.place, i + 1),
            ],
        },
        None => ReportLine { numbers: [0; 5] },
    }
}

// The lines of edits, and zeros after them.
// Kept: `length edits.now ≤ edit_limit`: the answer is an array of that length, and a slice has no limit by its type.
// Kept: an array of all lines, cut to the edits: it is walked twice, to see that all fit and to write them (`lines_fit`, `write_lines`), by the two
// functions that write the rows of a text, whose elements have a line by themselves; an edit has one only beside the judgement.
// Kept: beside `record_joining::rows_of` and `record_union::elements_of`: here an element is made of its place too, there of a row alone.
// Kept: a loop over the edits that are there. `array::from_fn` would ask at each of the 127 places whether there is an edit.
fn report_lines(edits: &[Edit], judged: &Judged) -> [ReportLine; EDITS]
    requires { length edits.now ≤ edit_limit }
    ensures { (take (length edits.now) result ≡ report_lines judged.now 1 edits.now) × (length result ≡ edit_limit) }
{
    let mut lines = [ReportLine { numbers: [0; 5] }; EDITS];
    for i in 0..edits.len() {
        lines[i] = line_at(edits, judged, i);
    }
    lines
}

// Whether a report takes at most so many bytes.
// Kept: `counts`, `lines`: the three clauses read them as the two parts of one text, and a struct of both would be made by `report_record` alone,
// only to be taken apart.
// Kept: tried with `is_some_and`, the check finds no proof of the one goal that both cases then are; of a match it has a goal for each.
fn report_fits(counts: &[u64], lines: &[ReportLine], room: usize) -> bool
    ensures { result ≡ leb (length (fill counts_form counts.now ++ joined_lines (map line_text lines.now))) room }
{
    match text_forms::form_fit(room, COUNTS_FORM, counts) {
        Some(left) => text_writer::lines_fit::<ReportText, ReportLine>(left, lines).is_some(),
        None => false,
    }
}

fn write_report(out: &mut [u8], counts: &[u64], lines: &[ReportLine]) -> usize
    requires { length (fill counts_form counts.now ++ joined_lines (map line_text lines.now)) ≤ length out.old }
    ensures { part.Written (fill counts_form counts.now ++ joined_lines (map line_text lines.now)) out.old result out.new }
{
    let at = text_forms::write_form(out, COUNTS_FORM, counts);
    at + text_writer::write_lines::<ReportText, ReportLine>(&mut out[at..], lines)
}

// Writes a report at a place of out, where it fits. Refused, out stays as it was.
fn place_report(
    counts: &[u64],
    lines: &[ReportLine],
    out: &mut [u8],
    at: usize,
) -> Result<usize, Refusal>
    ensures answer { result ≡ placing (fill counts_form counts.now ++ joined_lines (map line_text lines.now)) at out.old }
    ensures bytes { out.new ≡ placed (fill counts_form counts.now ++ joined_lines (map line_text lines.now)) at out.old }
{
    if out.len() < at || !report_fits(counts, lines, out.len() - at) {
        return Err(Refusal::NoRoom);
    }
    Ok(at + write_report(&mut out[at..], counts, lines))
}

// Writes the report of a sound record in memory at a place of out, where it fits.
pub fn report_record(content: Record, out: &mut [u8], at: usize) -> Result<usize, Refusal>
    ensures { (R : theory.Record) → content ≡ stored R → Checked R → (result ≡ placing (report_of R) at out.old) × (out.new ≡ placed (report_of R) at out.old) }
{
    let edits = content.edit_slice();
    let n = edits.len();
    let m = content.constraint_slice().len();
    let judged = judgement::judge(content);
    let lines = report_lines(edits, &judged);
    place_report(&[n as u64, m as u64], &lines[..n], out, at)
}

// Writes the report of a text to the start of out. Refused, out stays as it was.
pub fn report_text(text: &[u8], out: &mut [u8]) -> Result<usize, Fault>
    ensures answer { Reported (read_text text.now) out.old result }
    ensures bytes { out.new ≡ reported_out (read_text text.now) out.old }
{
    let content = text_reader::read_text(text)?;
    let size = report_record(content, out, 0)?;
    Ok(size)
}

// Writes the line of a refusal to the start of out where it fits. Pub for the crates that print a refusal.
pub fn refusal_line(number: u32, line: usize, out: &mut [u8]) -> Result<usize, Refusal>
    ensures answer { result ≡ placing (refusal_line number line) 0 out.old }
    ensures bytes { out.new ≡ placed (refusal_line number line) 0 out.old }
{
    let numbers = [u64::from(number), line as u64];
    text_writer::place_form(REFUSAL_FORM, &numbers, out, 0)
}

// Writes what is printed of a text, its report or its refusal, to the start of out where it fits.
pub fn print_text(text: &[u8], out: &mut [u8]) -> Result<usize, Refusal>
    ensures answer { result ≡ placing (printed (read_text text.now)) 0 out.old }
    ensures bytes { out.new ≡ placed (printed (read_text text.now)) 0 out.old }
{
    match text_reader::read_text(text) {
        Ok(content) => report_record(content, out, 0),
        Err(fault) => refusal_line(fault.refusal.number(), fault.line, out),
    }
}
