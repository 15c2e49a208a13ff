// The lines of the exchanged text (document 01, "Text") as rows of numbers. Public for the crates of this workspace that read and write
// texts; these lend what is long enough, so the writers require it.
// Kept: kinds, fields and rules by number: a line is read into a row of numbers, which is judged only afterwards, and a row is written from its
// numbers, so that one table of forms serves both ways, in the code as in the definitions (`edit_form`, `constraint_form`).
// Kept: a writer is lent the rest of the output and answers how many bytes it wrote, as in `text_forms`.
#![tactic(auto)]

ghost use Rattle.std.specs.Prelude.{◌≡◌, ◌++◌, ◌+◌, ◌≤◌, ◌==◌, length, drop, get_or, position, ⊤};
ghost use Rattle.std.specs.Iterator.{at_most};
ghost use Rattle.text_forms.specs.decimal.Decimal.{numeral_size};
ghost use Rattle.text_forms.specs.decimal.Written.{Written};
ghost use Rattle.text_lines.specs.Line.{edit_form, constraint_form, edit_shape, constraint_shape, shapes, word_read, read_as, read_by, edit_line_in, constraint_line_in, line_read_in, edit_line, constraint_line, line_read};
ghost use Rattle.text_lines.specs.Lines.{first_line, WalksLines};
ghost use Rattle.text_lines.specs.Pieces.{rule_part, field_part, setting_part, unset_pieces, set_pieces};

use refusals::Refusal;
use text_forms::decimal;
use text_forms::notation::{DecimalNotation, Notated};

// At most 100 bytes and the end. Pub for the crates that read lines of other forms.
pub const LINE_LIMIT: usize = 101;

// The kinds of edits.
const INSERT: u32 = 0;

const SET: u32 = 1;

const REMOVE: u32 = 2;

// What a line says: an edit's row or a constraint's.
#[derive(Clone, Copy)]
pub enum Line {
    Edit([u32; 5]),
    Constraint([u32; 3]),
}

// The form of an edit of a kind; of no other.
#[tactic(auto, using(crate::proofs::Says::rests), unfolding(crate::specs::Line::edit_form, text_forms::specs::Spelling::bytes))]
fn edit_form(kind: u32) -> &'static [u8]
    ensures { result.now ≡ edit_form kind }
{
    match kind {
        INSERT => b"edit=@ do=insert chip=#\n",
        SET => b"edit=@ do=set chip=# field=% value=#\n",
        REMOVE => b"edit=@ do=remove chip=#\n",
        _ => b"",
    }
}

// The form of a constraint. Pub for the answers of a log.
#[tactic(auto, unfolding(crate::specs::Line::constraint_form, text_forms::specs::Spelling::bytes))]
pub fn constraint_form() -> &'static [u8]
    ensures { result.now ≡ constraint_form }
{
    b"left=@ rule=! right=@\n"
}

// A number of a line, where it fits 32 bits. Pub for the reader of logs.
pub fn word(n: u64) -> Result<u32, Refusal>
    ensures { result ≡ word_read n }
{
    u32::try_from(n).map_err(|_| Refusal::OutOfRange)
}

// What the bytes say as an edit of this kind.
fn read_edit_as<N: Notated>(kind: u32, bytes: &[u8]) -> Result<Line, Refusal>
    ensures { result ≡ read_as N.notation (edit_shape kind) bytes.now }
{
    let said = text_forms::read_form_in::<N>(edit_form(kind), bytes);
    let numbers = said.ok_or(Refusal::NotInForm)?;
    let name = word(numbers[0])?;
    let place = word(numbers[1])?;
    let field = word(numbers[2])?;
    let value = word(numbers[3])?;
    Ok(Line::Edit([name, kind, place, field, value]))
}

// What the bytes say as a constraint.
fn read_constraint<N: Notated>(bytes: &[u8]) -> Result<Line, Refusal>
    ensures { result ≡ read_as N.notation constraint_shape bytes.now }
{
    let said = text_forms::read_form_in::<N>(constraint_form(), bytes);
    let numbers = said.ok_or(Refusal::NotInForm)?;
    let left = word(numbers[0])?;
    let rule = word(numbers[1])?;
    let right = word(numbers[2])?;
    Ok(Line::Constraint([left, rule, right]))
}

// The byte at a place of a text, 0 past its end. Pub for the reader of logs.
// Kept: no generic function for this and the number of a judgement's row in `text_report`: that one widens its byte to the number that a form has.
pub fn byte_at(bytes: &[u8], i: usize) -> u8
    ensures { result ≡ get_or bytes.now i 0 }
{
    bytes.get(i).copied().unwrap_or(0)
}

// Where the number ends that starts at a place; there if none does. Pub for the reader of logs.
// Kept: no `map_or`: the two cases of a match are two goals, each answered by a law (`spelled-ends`, `spelled-missing`); of `map_or` both are one goal,
// which the proof would have to split again.
pub fn number_end(bytes: &[u8], from: usize) -> usize
    ensures { (result ≡ from + numeral_size (drop from bytes.now)) × (result ≤ from + length bytes.now) }
{
    if bytes.len() <= from {
        return from;
    }
    match decimal::read_number(&bytes[from..]) {
        Some(numeral) => from + numeral.size,
        None => from,
    }
}

// Where the name ends that starts at a place; there if none does.
// Kept: no `map_or`, as above.
fn name_end<N: Notated>(bytes: &[u8], from: usize) -> usize
    ensures { (result ≡ from + N.notation.names.size (drop from bytes.now)) × (result ≤ from + length bytes.now) }
{
    let start = from.min(bytes.len());
    match N::read_name(&bytes[start..]) {
        Some(numeral) => from + numeral.size,
        None => from,
    }
}

// An edit, by the letter after `do=`.
fn read_edit<N: Notated>(bytes: &[u8]) -> Result<Line, Refusal>
    requires { get_or bytes.now 2 0 ≡ 105 }
    ensures { result ≡ read_by N.notation shapes bytes.now }
{
    let name = name_end::<N>(bytes, 5);
    let letter = byte_at(bytes, name + 4);
    match letter {
        b'i' => read_edit_as::<N>(INSERT, bytes),
        b's' => read_edit_as::<N>(SET, bytes),
        b'r' => read_edit_as::<N>(REMOVE, bytes),
        _ => Err(Refusal::NotInForm),
    }
}

// What a line with its end says, by the one form that its letters leave. The third letter tells `edit` from `left`.
pub fn read_line_in<N: Notated>(bytes: &[u8]) -> Result<Line, Refusal>
    ensures { result ≡ line_read_in N.notation bytes.now }
{
    if LINE_LIMIT < bytes.len() {
        return Err(Refusal::NotInForm);
    }
    let third = byte_at(bytes, 2);
    match third {
        b'i' => read_edit::<N>(bytes),
        b'f' => read_constraint::<N>(bytes),
        _ => Err(Refusal::NotInForm),
    }
}

// In decimal.
pub fn read_line(bytes: &[u8]) -> Result<Line, Refusal>
    ensures { result ≡ line_read bytes.now }
{
    read_line_in::<DecimalNotation>(bytes)
}

// The words between the names of a constraint's line, by its rule.
// Kept: from here on a line is written word by word, by the pieces of the forms above, and its length counted with theirs, where a writer by forms
// would write the same bytes from the form itself: this is for speed (docs/DECISIONS.md, 46).
#[tactic(auto, using(crate::proofs::Says::rests), unfolding(crate::specs::Pieces::rule_part, text_forms::specs::Spelling::rule_words, text_forms::specs::Spelling::bytes))]
fn rule_part(rule: u32) -> &'static [u8]
    ensures { result.now ≡ rule_part rule }
{
    match rule {
        0 => b" rule=notafter right=",
        1 => b" rule=enables right=",
        2 => b" rule=noncommuting right=",
        _ => b" rule= right=",
    }
}

// How many bytes an edit's line takes with its end.
pub fn edit_line_length_in<N: Notated>(row: [u32; 5]) -> usize
    ensures { result ≡ length (edit_line_in N.notation row) }
{
    let name = N::name_length(u64::from(row[0]));
    let place = decimal::number_length(u64::from(row[2]));
    let kind = row[1];
    match kind {
        INSERT => 22 + name + place,
        SET => {
            let word = N::field_word(row[3]);
            33 + name + place + word.len() + decimal::number_length(u64::from(row[4]))
        }
        REMOVE => 22 + name + place,
        _ => 0,
    }
}

// In decimal.
pub fn edit_line_length(row: [u32; 5]) -> usize
    ensures { result ≡ length (edit_line row) }
{
    edit_line_length_in::<DecimalNotation>(row)
}

// How many bytes a constraint's line takes with its end.
pub fn constraint_line_length_in<N: Notated>(row: [u32; 3]) -> usize
    ensures { result ≡ length (constraint_line_in N.notation row) }
{
    let left = N::name_length(u64::from(row[0]));
    let right = N::name_length(u64::from(row[2]));
    6 + left + rule_part(row[1]).len() + right
}

// In decimal.
pub fn constraint_line_length(row: [u32; 3]) -> usize
    ensures { result ≡ length (constraint_line row) }
{
    constraint_line_length_in::<DecimalNotation>(row)
}

// Writes two words.
fn write_words(out: &mut [u8], first: &[u8], second: &[u8]) -> usize
    requires { length (first.now ++ second.now) ≤ length out.old }
    ensures { Written (first.now ++ second.now) out.old result out.new }
{
    let at = text_forms::write_word(out, first);
    at + text_forms::write_word(&mut out[at..], second)
}

// Writes a field by its word, and its value.
fn write_field(out: &mut [u8], word: &[u8], value: u64) -> usize
    requires { length (field_part word.now value) ≤ length out.old }
    ensures { Written (field_part word.now value) out.old result out.new }
{
    let at = write_words(out, b" field=", word);
    at + text_forms::write_ended(&mut out[at..], b" value=", value)
}

// Writes what stands after the name of an edit that sets a field.
fn write_setting(out: &mut [u8], place: u64, word: &[u8], value: u64) -> usize
    requires { length (setting_part place word.now value) ≤ length out.old }
    ensures { Written (setting_part place word.now value) out.old result out.new }
{
    let at = text_forms::write_worded(out, b" do=set chip=", place);
    at + write_field(&mut out[at..], word, value)
}

// Writes the line of a row that sets a field.
fn write_set<N: Notated>(out: &mut [u8], row: [u32; 5]) -> usize
    requires { length (set_pieces N.notation (get_or row 0 0) (get_or row 2 0) (get_or row 3 0) (get_or row 4 0)) ≤ length out.old }
    ensures { Written (set_pieces N.notation (get_or row 0 0) (get_or row 2 0) (get_or row 3 0) (get_or row 4 0)) out.old result out.new }
{
    let at = text_forms::write_named::<N>(out, b"edit=", u64::from(row[0]));
    let word = N::field_word(row[3]);
    at + write_setting(&mut out[at..], u64::from(row[2]), word, u64::from(row[4]))
}

// Writes the line of an edit that sets nothing, by the words after the name.
fn write_unset<N: Notated>(out: &mut [u8], name: u32, word: &[u8], place: u32) -> usize
    requires { length (unset_pieces N.notation word.now name place) ≤ length out.old }
    ensures { Written (unset_pieces N.notation word.now name place) out.old result out.new }
{
    let at = text_forms::write_named::<N>(out, b"edit=", u64::from(name));
    at + text_forms::write_ended(&mut out[at..], word, u64::from(place))
}

// Writes an edit's line to the start of out, and answers how many bytes that took; none for a kind that has no form. Pub for `text_writer`, which
// has seen that all fits.
pub fn write_edit_line_in<N: Notated>(out: &mut [u8], row: [u32; 5]) -> usize
    requires { length (edit_line_in N.notation row) ≤ length out.old }
    ensures { Written (edit_line_in N.notation row) out.old result out.new }
{
    let kind = row[1];
    match kind {
        INSERT => write_unset::<N>(out, row[0], b" do=insert chip=", row[2]),
        SET => write_set::<N>(out, row),
        REMOVE => write_unset::<N>(out, row[0], b" do=remove chip=", row[2]),
        _ => 0,
    }
}

// In decimal. Pub as before.
pub fn write_edit_line(out: &mut [u8], row: [u32; 5]) -> usize
    requires { length (edit_line row) ≤ length out.old }
    ensures { Written (edit_line row) out.old result out.new }
{
    write_edit_line_in::<DecimalNotation>(out, row)
}

// Writes a constraint's line to the start of out, and answers how many bytes that took. Pub for `text_writer`, as before.
pub fn write_constraint_line_in<N: Notated>(out: &mut [u8], row: [u32; 3]) -> usize
    requires { length (constraint_line_in N.notation row) ≤ length out.old }
    ensures { Written (constraint_line_in N.notation row) out.old result out.new }
{
    let at = text_forms::write_named::<N>(out, b"left=", u64::from(row[0]));
    at + text_forms::write_named_end::<N>(&mut out[at..], rule_part(row[1]), u64::from(row[2]))
}

// In decimal. Pub as before.
pub fn write_constraint_line(out: &mut [u8], row: [u32; 3]) -> usize
    requires { length (constraint_line row) ≤ length out.old }
    ensures { Written (constraint_line row) out.old result out.new }
{
    write_constraint_line_in::<DecimalNotation>(out, row)
}

// The place of the first byte 10.
fn end_place(bytes: &[u8]) -> Option<usize>
    ensures { result ≡ position (λ x. x == 10) bytes.now }
{
    memchr::memchr(b'\n', bytes)
}

// Where the line ends that starts at `from`: past its byte 10, or at the end of the text.
// Kept: no `map_or`, as above: the laws are `end-found` and `end-missing`.
// Not inlined, since in the run of a log its loop has no registers left: a log of turns took some 3 parts in 100 more time.
#[inline(never)]
pub fn line_end(bytes: &[u8], from: usize) -> usize
    ensures { result ≡ from + length (first_line (drop from bytes.now)) }
{
    if bytes.len() <= from {
        return from;
    }
    match end_place(&bytes[from..]) {
        Some(place) => from + place + 1,
        None => bytes.len(),
    }
}

// A walk along the lines of a text, each with its end.
#[derive(Drop)]
pub struct Lines<'a> {
    rest: &'a [u8],
}

impl<'a> Lines<'a> {
    // Pub for the crates that read texts line by line.
    pub fn new(text: &'a [u8]) -> Lines<'a>
        ensures { result.rest.now ≡ text.now }
    {
        Lines { rest: text }
    }
}

impl<'a> Iterator for Lines<'a> {
    type Item = &'a [u8];

    ghost can_next = { λ s. ⊤ };

    ghost next_gives = { λ s r t. WalksLines s.rest.now r t.rest.now };

    ghost remaining = { λ s. at_most (length s.rest.now) };

    fn next(&mut self) -> Option<&'a [u8]> {
        if self.rest.is_empty() {
            return None;
        }
        let (line, rest) = self.rest.split_at(line_end(self.rest, 0));
        self.rest = rest;
        Some(line)
    }
}
