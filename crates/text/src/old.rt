// The old manner of texts: names as numbers, no header, rows in the record's own order.
use crate::manner::{Manner, RowsAbove};
use crate::own;
use record::Record;
use record_rows::row::{ConstraintRow, EditRow, LentRecord};
use refusals::Refusal;
use text_lines::Line;

// No value of it is made.
pub struct OldText;

impl Manner for OldText {
    ghost use Rattle.text.specs.Text.{old_manner};

    ghost manner = { old_manner };

    fn header() -> &'static [u8] {
        b""
    }

    fn read_line(bytes: &[u8]) -> Result<Line, Refusal> {
        text_lines::read_line(bytes)
    }

    fn edit_line_length(row: EditRow) -> usize {
        text_lines::edit_line_length(row)
    }

    fn write_edit_line(out: &mut [u8], row: EditRow) -> usize {
        text_lines::write_edit_line(out, row)
    }

    fn constraint_line_length(row: ConstraintRow) -> usize {
        text_lines::constraint_line_length(row)
    }

    fn write_constraint_line(out: &mut [u8], row: ConstraintRow) -> usize {
        text_lines::write_constraint_line(out, row)
    }

    fn edit_fault(above: RowsAbove, row: EditRow) -> Result<(), Refusal> {
        own::edit_fault(above, row)
    }

    fn constraint_fault(above: RowsAbove, row: ConstraintRow) -> Result<(), Refusal> {
        own::constraint_fault(above, row)
    }

    fn gathered(rows: LentRecord) -> Record {
        record_union::decode(rows)
    }

    fn arranged(content: Record) -> Record {
        content
    }
}
