// What a manner of texts has in code (specs/Text.antt).
ghost use Rattle.std.specs.Prelude.{◌≡◌, ◌≤◌, length, IfOk};
ghost use Rattle.record.specs.Stored.{record_of};
ghost use Rattle.record_tables.specs.Table.{edit_rows, constraint_rows};
ghost use Rattle.refusals.specs.Numbers.{number_of};
ghost use Rattle.text_forms.specs.decimal.Written.{Written};
ghost use Rattle.text.specs.Text as theory;
ghost use Rattle.text.specs.Text.{rows_number};
ghost use Rattle.text.specs.Above.{ReadAbove, EditPlace, ConstraintPlace, Gathers};

use record::Record;
use record_rows::row::{ConstraintRow, EditRow, LentRecord};
use refusals::Refusal;
use text_lines::Line;

// The rows of a text above a row, and the marks of the edits' names.
#[derive(Clone, Copy)]
pub struct RowsAbove<'a> {
    pub edits: &'a [EditRow],
    pub constraints: &'a [ConstraintRow],
    pub marks: &'a [u8],
}

// Pub for the reader and the writer of texts.
pub trait Manner {
    ghost manner: { theory.Manner };

    // The line before the rows; nothing where a text begins with them.
    fn header() -> &'static [u8]
        ensures { result.now ≡ manner.header };

    // What the line of a row says.
    fn read_line(bytes: &[u8]) -> Result<Line, Refusal>
        ensures { result ≡ manner.line.reads bytes.now };

    // How many bytes the line of an edit takes with its end.
    fn edit_line_length(row: EditRow) -> usize
        ensures { result ≡ length (manner.line.edit row) };

    // Writes it to the start of out, and answers how many bytes that took.
    fn write_edit_line(out: &mut [u8], row: EditRow) -> usize
        requires { length (manner.line.edit row) ≤ length out.old }
        ensures { Written (manner.line.edit row) out.old result out.new };

    // The same of a constraint.
    fn constraint_line_length(row: ConstraintRow) -> usize
        ensures { result ≡ length (manner.line.constraint row) };

    fn write_constraint_line(out: &mut [u8], row: ConstraintRow) -> usize
        requires { length (manner.line.constraint row) ≤ length out.old }
        ensures { Written (manner.line.constraint row) out.old result out.new };

    // The fault of an edit below rows that were read without one.
    fn edit_fault(above: RowsAbove, row: EditRow) -> Result<(), Refusal>
        ensures number { ReadAbove manner above.entry.edits.now above.entry.constraints.now above.entry.marks.now → number_of result ≡ manner.edit_number above.entry.edits.now above.entry.constraints.now row }
        ensures place { ReadAbove manner above.entry.edits.now above.entry.constraints.now above.entry.marks.now → IfOk result (λ _. EditPlace above.entry.edits.now above.entry.constraints.now row) };

    // That of a constraint.
    fn constraint_fault(above: RowsAbove, row: ConstraintRow) -> Result<(), Refusal>
        ensures number { ReadAbove manner above.entry.edits.now above.entry.constraints.now above.entry.marks.now → number_of result ≡ manner.constraint_number above.entry.edits.now above.entry.constraints.now row }
        ensures place { ReadAbove manner above.entry.edits.now above.entry.constraints.now above.entry.marks.now → IfOk result (λ _. ConstraintPlace above.entry.constraints.now) };

    // The record that rows without fault are.
    fn gathered(rows: LentRecord) -> Record
        ensures { rows_number manner rows.entry.edits.now rows.entry.constraints.now ≡ 0 → Gathers manner rows.entry.edits.now rows.entry.constraints.now result };

    // A record with its tables in the order in which their lines are written.
    fn arranged(content: Record) -> Record
        ensures { (edit_rows (record_of result) ≡ manner.edits (record_of content)) × (constraint_rows (record_of result) ≡ manner.constraints (record_of content)) };
}
