// A text is read line by line into a record (document 01, "Text").
#![tactic(auto)]

ghost use Rattle.std.specs.Prelude.{◌≡◌, ◌+◌, length, Err, IfErr, IfOk};
ghost use Rattle.refusals.specs.Numbers.{number_of};
ghost use Rattle.text_lines.specs.Lines.{lines};
ghost use Rattle.text.specs.Text.{text_begun, line_fed, text_finished, read_from, read_in, awaits_header, read_text};
ghost use Rattle.text_reader.specs.Reading.{Reads, ReadsLine};
ghost use Rattle.text_reader.specs.Held.{EditTaken, ConstraintTaken, LineTaken, HeaderTaken, LineRead};

use record::{CONSTRAINTS, EDITS, Record};
use record_rows::row::{CONSTRAINT_CELLS, ConstraintRow, EDIT_CELLS, EditRow, LentRecord, NAMES};
use refusals::Refusal;
use std::marker::{Model, PhantomData};
use text::manner::{Manner, RowsAbove};
use text::old::OldText;
use text_lines::{Line, Lines};

// Why a text is refused, and the line, counted from 1; 0 where there is none.
// Kept: 0 and no Option: the definitions say line 0 of a refusal at none (`without_line`), and what prints a fault or answers one to C writes this
// number as it is.
// Kept: beside `unity_table::RowFault`: C reads `line` of the one and `row` of the other, and a row of a lent table is no line; one struct with a
// `place` would not say which, and would spare no clause: each has one definition that reads it (FaultIs, answer_told), and no function takes both.
#[derive(Clone, Copy)]
pub struct Fault {
    pub refusal: Refusal,
    pub line: usize,
}

// A refusal at no line.
impl From<Refusal> for Fault {
    ghost use Rattle.text_reader.specs.Reading.{without_line};

    ghost from_gives = { λ refusal fault. fault ≡ without_line refusal };

    fn from(refusal: Refusal) -> Fault {
        Fault { refusal, line: 0 }
    }
}

// A text in a manner as it is read: begun, taken in line by line, finished. It holds the first edits and constraints of two tables, as many as are
// counted, the marks of the edits' names, and how many lines were read.
// Kept: arrays with their counts, no `ArrayVec`: it would spare the counts, `take` in the view, the sizes in the invariant, but not that there
// is a place, which `push` asks for as the index does now and only the ground of the whole row gives; and it would bring the kit's
// crate under all that read a text, of which the log's lent tables alone need it.
#[derive(Drop)]
pub struct RowsRead<M: Manner> {
    edits: [EditRow; EDITS],
    edit_count: usize,
    constraints: [ConstraintRow; CONSTRAINTS],
    constraint_count: usize,
    marks: [u8; NAMES],
    line_count: usize,
    manner: PhantomData<M>,
}

impl<M: Manner> Model for RowsRead<M> {
    ghost use Rattle.std.specs.Prelude.{take};
    ghost use Rattle.text.specs.Text.{ReadSoFar};
    ghost use Rattle.text_reader.specs.Held.{RowsHeld};

    ghost Value = { ReadSoFar };

    ghost view = { λ r. record { count = r.line_count; edits = take r.edit_count r.edits; constraints = take r.constraint_count r.constraints } };

    ghost invariant = { λ r. RowsHeld M.manner r.edits r.constraints r.marks r.edit_count r.constraint_count r.line_count };
}

impl<M: Manner> RowsRead<M> {
    // Nothing read.
    pub fn begin() -> RowsRead<M>
        ensures { result ≡ text_begun }
    {
        let mut marks = [0; NAMES];
        marks[0] = 1;
        RowsRead {
            edits: [[0; EDIT_CELLS]; EDITS],
            edit_count: 0,
            constraints: [[0; CONSTRAINT_CELLS]; CONSTRAINTS],
            constraint_count: 0,
            marks,
            line_count: 0,
            manner: PhantomData,
        }
    }

    // Whether the first line is still to come and is no row.
    fn awaits_header(&self) -> bool
        ensures { result ≡ awaits_header M.manner self.now.count }
    {
        self.line_count == 0 && !M::header().is_empty()
    }

    // The fault of an edit below the rows. Without fault it is one of them.
    fn take_edit(&mut self, row: EditRow) -> Result<(), Refusal>
        ensures { EditTaken M.manner self.old row (number_of result) self.new }
    {
        let above = RowsAbove {
            edits: &self.edits[..self.edit_count],
            constraints: &self.constraints[..self.constraint_count],
            marks: &self.marks,
        };
        M::edit_fault(above, row)?;
        self.edits[self.edit_count] = row;
        self.edit_count += 1;
        self.marks[row[0] as usize] = 1;
        self.line_count += 1;
        Ok(())
    }

    // The fault of a constraint below the rows. Without fault it is one of them.
    fn take_constraint(&mut self, row: ConstraintRow) -> Result<(), Refusal>
        ensures { ConstraintTaken M.manner self.old row (number_of result) self.new }
    {
        let above = RowsAbove {
            edits: &self.edits[..self.edit_count],
            constraints: &self.constraints[..self.constraint_count],
            marks: &self.marks,
        };
        M::constraint_fault(above, row)?;
        self.constraints[self.constraint_count] = row;
        self.constraint_count += 1;
        self.line_count += 1;
        Ok(())
    }

    // The fault of a row's line below the rows. Without fault its row is one of them.
    fn take_row(&mut self, bytes: &[u8]) -> Result<(), Refusal>
        ensures { LineTaken M.manner self.old (M.manner.line.reads bytes.now) (number_of result) self.new }
    {
        match M::read_line(bytes)? {
            Line::Edit(row) => self.take_edit(row),
            Line::Constraint(row) => self.take_constraint(row),
        }
    }

    // The fault of the first line where it is to be the header.
    fn take_header(&mut self, bytes: &[u8]) -> Result<(), Refusal>
        requires { self.old.count ≡ 0 }
        ensures { HeaderTaken M.manner self.old bytes.now (number_of result) self.new }
    {
        if bytes != M::header() {
            return Err(Refusal::NotInForm);
        }
        self.line_count += 1;
        Ok(())
    }

    // The fault of the next line. Without fault it is read.
    fn take_line(&mut self, bytes: &[u8]) -> Result<(), Refusal>
        ensures { LineRead (line_fed M.manner self.old bytes.now) self.old (number_of result) self.new }
    {
        if self.awaits_header() {
            return self.take_header(bytes);
        }
        self.take_row(bytes)
    }

    // One more line. Refused, what was read stays.
    pub fn take(&mut self, bytes: &[u8]) -> Result<(), Fault>
        ensures { ReadsLine (line_fed M.manner self.old bytes.now) self.old result self.new }
    {
        let line = self.line_count + 1;
        self.take_line(bytes)
            .map_err(|refusal| Fault { refusal, line })
    }

    // The lines of a text, up to the first that is refused.
    // Not inlined: with this loop in it `read_in` set two records, its answer and that of `finish`, to zeros before the first line, and a text that is
    // refused there took a third more time.
    #[inline(never)]
    fn take_lines(&mut self, text: &[u8]) -> Result<(), Fault>
        ensures refused { IfErr result (λ fault. Reads (read_from M.manner self.old (lines text.now)) (Err fault)) }
        ensures read { IfOk result (λ _. read_from M.manner self.old (lines text.now) ≡ text_finished M.manner self.new) }
    {
        for line in Lines::new(text) {
            self.take(line)?;
        }
        Ok(())
    }

    // The record of the lines read, if it is sound; that it is not is told of the last line.
    pub fn finish(&self) -> Result<Record, Fault>
        ensures { Reads (text_finished M.manner self.now) result }
    {
        if self.awaits_header() {
            return Err(Fault {
                refusal: Refusal::NotInForm,
                line: 1,
            });
        }
        let content = M::gathered(LentRecord {
            edits: &self.edits[..self.edit_count],
            constraints: &self.constraints[..self.constraint_count],
        });
        if judgement::sound(content) {
            return Ok(content);
        }
        Err(Fault {
            refusal: Refusal::Unsound,
            line: self.line_count,
        })
    }
}

// Reads a text in a manner.
pub fn read_in<M: Manner>(text: &[u8]) -> Result<Record, Fault>
    ensures { Reads (read_in M.manner text.now) result }
{
    let mut rows = RowsRead::<M>::begin();
    rows.take_lines(text)?;
    rows.finish()
}

// Reads a text: its rows, and then whether the record is sound; that it is not is told of its last line. An accepted text has a line for each row.
pub fn read_text(text: &[u8]) -> Result<Record, Fault>
    ensures reads { Reads (read_text text.now) result }
    ensures counted { IfOk result (λ content. content.edit_count + content.constraint_count ≡ length (lines text.now)) }
{
    read_in::<OldText>(text)
}
