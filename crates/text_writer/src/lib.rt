// A record is written as a text, and a form where it fits (document 01, "Text").
// Kept: `at`, `out`: as document 01 lends them, an output and a place in it, which is refused where it is past the end.
#![tactic(auto)]

ghost use Rattle.std.specs.Prelude.{◌≡◌, map, List, ℕ, ◌≤◌, leb, length};
ghost use Rattle.record.specs.Stored.{record_of};
ghost use Rattle.text_forms.specs.decimal.Written as part;
ghost use Rattle.text_forms.specs.Form.{fill};
ghost use Rattle.text_forms.specs.Fit.{room_after};
ghost use Rattle.text.specs.Text.{joined_lines, written_in, text_of};
ghost use Rattle.text_writer.specs.Placed.{placed, placing, tables_text, headed_text};

use record::{Constraint, Edit, Record};
use record_rows::element::Element;
use refusals::Refusal;
use text::manner::Manner;
use text::old::OldText;

// What has a line in a text of the kind M: in a manner an edit and a constraint. Pub for `text_report`, which writes other lines.
pub trait Lined<M>: Copy {
    // The line, its end included.
    ghost line: { Self → List ℕ };

    // What is left of a room after it, where it fits.
    fn line_fit(self, room: usize) -> Option<usize>
        ensures { result ≡ room_after room (length (line self)) };

    // Writes it to the start of out, and answers how many bytes that took.
    fn write_line(self, out: &mut [u8]) -> usize
        requires { length (line self) ≤ length out.old }
        ensures { part.Written (line self) out.old result out.new };
}

impl<M: Manner> Lined<M> for Edit {
    ghost use Rattle.text_writer.specs.Placed.{edit_text};

    ghost line = { edit_text M.manner };

    fn line_fit(self, room: usize) -> Option<usize> {
        room.checked_sub(M::edit_line_length(self.row()))
    }

    fn write_line(self, out: &mut [u8]) -> usize {
        M::write_edit_line(out, self.row())
    }
}

impl<M: Manner> Lined<M> for Constraint {
    ghost use Rattle.text_writer.specs.Placed.{constraint_text};

    ghost line = { constraint_text M.manner };

    fn line_fit(self, room: usize) -> Option<usize> {
        room.checked_sub(M::constraint_line_length(self.row()))
    }

    fn write_line(self, out: &mut [u8]) -> usize {
        M::write_constraint_line(out, self.row())
    }
}

// What is left of a room after these lines, where they fit. Pub for `text_report`, which writes other lines.
pub fn lines_fit<M, T: Lined<M>>(room: usize, elements: &[T]) -> Option<usize>
    ensures { result ≡ room_after room (length (joined_lines (map T.line elements.now))) }
{
    let mut left = room;
    for element in elements {
        left = element.line_fit(left)?;
    }
    Some(left)
}

// Writes these lines to the start of out, and answers how many bytes that took. Pub as before.
pub fn write_lines<M, T: Lined<M>>(out: &mut [u8], elements: &[T]) -> usize
    requires { length (joined_lines (map T.line elements.now)) ≤ length out.old }
    ensures { part.Written (joined_lines (map T.line elements.now)) out.old result out.new }
{
    let mut at = 0;
    for element in elements {
        at += element.write_line(&mut out[at..]);
    }
    at
}

// Writes a form with these numbers at a place of out, where it fits. Refused, out stays as it was. Pub for the crates that print one line.
// Kept: `form`, `numbers`: as in `text_forms`.
pub fn place_form(form: &[u8], numbers: &[u64], out: &mut [u8], at: usize) -> Result<usize, Refusal>
    ensures answer { result ≡ placing (fill form.now numbers.now) at out.old }
    ensures bytes { out.new ≡ placed (fill form.now numbers.now) at out.old }
{
    if out.len() < at || !text_forms::form_fits(form, numbers, out.len() - at) {
        return Err(Refusal::NoRoom);
    }
    Ok(at + text_forms::write_form(&mut out[at..], form, numbers))
}

// What the lines of a record's tables, as they stand, leave of a room, where they fit.
fn rows_fit<M: Manner>(room: usize, content: &Record) -> Option<usize>
    ensures { result ≡ room_after room (length (tables_text M.manner content.now)) }
{
    let left = lines_fit::<M, Edit>(room, content.edit_slice())?;
    lines_fit::<M, Constraint>(left, content.constraint_slice())
}

// Writes the lines of a record's tables, as they stand, to the start of out, and answers how many bytes that took.
fn write_rows<M: Manner>(out: &mut [u8], content: &Record) -> usize
    requires { length (tables_text M.manner content.now) ≤ length out.old }
    ensures { part.Written (tables_text M.manner content.now) out.old result out.new }
{
    let at = write_lines::<M, Edit>(out, content.edit_slice());
    at + write_lines::<M, Constraint>(&mut out[at..], content.constraint_slice())
}

// Whether the header and these lines take at most so many bytes.
fn text_fits<M: Manner>(content: &Record, room: usize) -> bool
    ensures { result ≡ leb (length (headed_text M.manner content.now)) room }
{
    match room.checked_sub(M::header().len()) {
        Some(left) => rows_fit::<M>(left, content).is_some(),
        None => false,
    }
}

// Writes the header to the start of out, and answers how many bytes that took.
fn write_header<M: Manner>(out: &mut [u8]) -> usize
    requires { length M.manner.header ≤ length out.old }
    ensures { part.Written M.manner.header out.old result out.new }
{
    let header = M::header();
    out[..header.len()].copy_from_slice(header);
    header.len()
}

// Writes both.
fn write_headed<M: Manner>(out: &mut [u8], content: &Record) -> usize
    requires { length (headed_text M.manner content.now) ≤ length out.old }
    ensures { part.Written (headed_text M.manner content.now) out.old result out.new }
{
    let at = write_header::<M>(out);
    at + write_rows::<M>(&mut out[at..], content)
}

// Writes the text of a record in a manner at a place of out, after the bytes that stand there. Refused, out stays as it was.
pub fn write_in<M: Manner>(content: Record, out: &mut [u8], at: usize) -> Result<usize, Refusal>
    ensures answer { result ≡ placing (written_in M.manner (record_of content)) at out.old }
    ensures bytes { out.new ≡ placed (written_in M.manner (record_of content)) at out.old }
{
    if out.len() < at {
        return Err(Refusal::NoRoom);
    }
    let content = M::arranged(content);
    if !text_fits::<M>(&content, out.len() - at) {
        return Err(Refusal::NoRoom);
    }
    Ok(at + write_headed::<M>(&mut out[at..], &content))
}

// Writes the text of a record.
pub fn write_text(content: Record, out: &mut [u8], at: usize) -> Result<usize, Refusal>
    ensures answer { result ≡ placing (text_of (record_of content)) at out.old }
    ensures bytes { out.new ≡ placed (text_of (record_of content)) at out.old }
{
    write_in::<OldText>(content, out, at)
}
