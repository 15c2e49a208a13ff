// Forms (document 01, "Text"): quoted texts in which `#` stands for a number, `@` for an edit's name, `?` for yes or no, `%` for a field and `!` for a
// rule, read and written. Public for the crates of this workspace that read and write lines; what they lend is long enough, so the writers require it.
// Kept: a writer is lent the rest of the output and answers how many bytes it wrote: document 01 lends a line's writer "the output's part from the
// given place". Its clause (`Written`) then speaks of these bytes alone; a struct of output and place has to say besides what stands before the
// place, and that it holds the same reference, as a line of the log does once (`Printed` of `log_forms`), and here each word of a line would.
#![tactic(auto)]

pub mod decimal;
pub mod notation;

ghost use Rattle.std.specs.Prelude.{◌≡◌, ◌≤◌, [], ◌∷◌, ◌++◌, Some, None, MatchOption, IfSome, leb, length, replicate, set};
ghost use Rattle.text_forms.specs.decimal.Decimal.{decimal};
ghost use Rattle.text_forms.specs.decimal.Written.{Written};
ghost use Rattle.text_forms.specs.Spelling.{numeral_of};
ghost use Rattle.text_forms.specs.Form.{is_mark, spelling_in, spelling, fill, taken_in, taken, number_places, filled_of};
ghost use Rattle.text_forms.specs.Fit.{room_after};

use crate::decimal::Numeral;
use crate::notation::{DecimalNotation, Notated};

// How many numbers of a form are kept, the first ones. Pub for `log_forms`, which reads lines by forms.
pub const NUMBERS: usize = 8;

// Kept: the range of the marks is tested before them, so that letters, spaces and ends take one test. Without it reading by a form took two thirds more
// time, and writing by one half as much again.
#[tactic(auto, unfolding(crate::specs::Form::is_mark))]
fn is_mark(c: u8) -> bool
    ensures { result ≡ is_mark c }
{
    matches!(c, b'!'..=b'@') && matches!(c, b'#' | b'@' | b'?' | b'%' | b'!')
}

// Kept: a match on the mark's byte: an enum of the marks would be made of it only to be matched here, in the writer and the reader.
fn mark_length(mark: u8, n: u64) -> usize
    ensures { (result ≡ length ((spelling mark).write n)) × (result ≤ 20) }
{
    match mark {
        b'#' => decimal::number_length(n),
        b'@' => decimal::number_length(n),
        _ => notation::nth_word(notation::words::<DecimalNotation>(mark), n).len(),
    }
}

// Kept: as the length above.
fn write_mark(out: &mut [u8], mark: u8, n: u64) -> usize
    requires { length ((spelling mark).write n) ≤ length out.old }
    ensures { Written ((spelling mark).write n) out.old result out.new }
{
    match mark {
        b'#' => decimal::write_short(out, n),
        b'@' => decimal::write_short(out, n),
        _ => write_word(
            out,
            notation::nth_word(notation::words::<DecimalNotation>(mark), n),
        ),
    }
}

// Kept: as the length above.
fn read_mark<N: Notated>(mark: u8, bytes: &[u8]) -> Option<Numeral>
    ensures reads { result ≡ numeral_of (spelling_in N.notation mark) bytes.now }
    ensures inside { IfSome result (λ numeral. numeral.size ≤ length bytes.now) }
{
    match mark {
        b'#' => decimal::read_number(bytes),
        b'@' => N::read_name(bytes),
        _ => notation::read_word(notation::words::<N>(mark), bytes),
    }
}

// What is left of a room after the form with these numbers, where it fits. Pub for the crates that count lines.
// Kept: `form`, `numbers`: a form is a constant and its numbers are made for one call, so a struct of both would be made
// at each call, and the clauses, which name both as `fill form numbers`, would be no shorter.
pub fn form_fit(room: usize, form: &[u8], numbers: &[u64]) -> Option<usize>
    ensures { result ≡ room_after room (length (fill form.now numbers.now)) }
{
    let mut left = room;
    let mut rest = numbers.iter();
    for c in form {
        if is_mark(*c) {
            let n = rest.next().copied().unwrap_or(0);
            left = left.checked_sub(mark_length(*c, n))?;
        } else {
            left = left.checked_sub(1)?;
        }
    }
    Some(left)
}

// Whether the form with these numbers takes at most so many bytes. A byte of the form gives at most twenty, so where the room is ample
// nothing is counted.
pub fn form_fits(form: &[u8], numbers: &[u64], room: usize) -> bool
    ensures { result ≡ leb (length (fill form.now numbers.now)) room }
{
    if form.len() <= room / 20 {
        return true;
    }
    form_fit(room, form, numbers).is_some()
}

// Writes a word to the start of out, and answers how many bytes that took. Pub for `text_lines`, whose callers have seen that it fits.
pub fn write_word(out: &mut [u8], word: &[u8]) -> usize
    requires { length word.now ≤ length out.old }
    ensures { Written word.now out.old result out.new }
{
    out[..word.len()].copy_from_slice(word);
    word.len()
}

// Writes a word and a number after it. Pub for `text_lines`, as before.
pub fn write_worded(out: &mut [u8], word: &[u8], n: u64) -> usize
    requires { length (word.now ++ decimal n) ≤ length out.old }
    ensures { Written (word.now ++ decimal n) out.old result out.new }
{
    let at = write_word(out, word);
    at + decimal::write_number(&mut out[at..], n)
}

// Writes a word, a number after it, and the end of the line. Pub for `text_lines`, as before.
pub fn write_ended(out: &mut [u8], word: &[u8], n: u64) -> usize
    requires { length ((word.now ++ decimal n) ++ (10 ∷ [])) ≤ length out.old }
    ensures { Written ((word.now ++ decimal n) ++ (10 ∷ [])) out.old result out.new }
{
    let at = write_worded(out, word, n);
    at + write_word(&mut out[at..], b"\n")
}

// Writes a word and a name after it. Pub for `text_lines`, as before.
pub fn write_named<N: Notated>(out: &mut [u8], word: &[u8], n: u64) -> usize
    requires { length (word.now ++ N.notation.names.write n) ≤ length out.old }
    ensures { Written (word.now ++ N.notation.names.write n) out.old result out.new }
{
    let at = write_word(out, word);
    at + N::write_name(&mut out[at..], n)
}

// Writes a word, a name after it, and the end of the line. Pub for `text_lines`, as before.
pub fn write_named_end<N: Notated>(out: &mut [u8], word: &[u8], n: u64) -> usize
    requires { length ((word.now ++ N.notation.names.write n) ++ (10 ∷ [])) ≤ length out.old }
    ensures { Written ((word.now ++ N.notation.names.write n) ++ (10 ∷ [])) out.old result out.new }
{
    let at = write_named::<N>(out, word, n);
    at + write_word(&mut out[at..], b"\n")
}

// Writes the form with these numbers to the start of out, and answers how many bytes that took. Pub for `text_writer` and
// `text_report`, which have seen that it fits.
pub fn write_form(out: &mut [u8], form: &[u8], numbers: &[u64]) -> usize
    requires { length (fill form.now numbers.now) ≤ length out.old }
    ensures { Written (fill form.now numbers.now) out.old result out.new }
{
    let mut at = 0;
    let mut rest = numbers.iter();
    for c in form {
        if is_mark(*c) {
            let n = rest.next().copied().unwrap_or(0);
            at += write_mark(&mut out[at..], *c, n);
        } else {
            out[at] = *c;
            at += 1;
        }
    }
    at
}

// In place, since a copy that is read right after a single number was stored waits for it.
// Kept: tested and then indexed, as in crate catalogue: a proof learns no element that was written through get_mut.
fn store(numbers: &mut [u64; NUMBERS], k: usize, n: u64)
    requires { length numbers.old ≡ 8 }
    ensures { numbers.new ≡ set numbers.old k n }
{
    if k < NUMBERS {
        numbers[k] = n;
    }
}

// Stores the numbers with which the form gives these bytes, cut off at 2^32, one after the other over zeros; None where it does not give them.
// Kept: `k` is counted by hand, since the form's marks move it on and its other bytes do not.
// Kept: into an array that is lent, and not inlined: an Option of the array is copied as a whole right after a single number was stored, and waits for it.
#[inline(never)]
fn store_numbers<N: Notated>(form: &[u8], bytes: &[u8], numbers: &mut [u64; NUMBERS]) -> Option<()>
    requires { numbers.old ≡ replicate number_places 0 }
    ensures { MatchOption result (None ≡ filled_of (taken_in N.notation form.now bytes.now)) (λ u. Some numbers.new ≡ filled_of (taken_in N.notation form.now bytes.now)) }
{
    let mut rest = bytes;
    let mut k = 0;
    for c in form {
        if is_mark(*c) {
            let numeral = read_mark::<N>(*c, rest)?;
            store(numbers, k, numeral.value);
            rest = &rest[numeral.size..];
            k += 1;
        } else {
            let (first, others) = rest.split_first()?;
            if first != c {
                return None;
            }
            rest = others;
        }
    }
    if rest.is_empty() { Some(()) } else { None }
}

// The numbers with which the form gives these bytes, where it does, cut off at 2^32. Places past the form's own numbers hold 0.
pub fn read_form_in<N: Notated>(form: &[u8], bytes: &[u8]) -> Option<[u64; NUMBERS]>
    ensures { result ≡ filled_of (taken_in N.notation form.now bytes.now) }
{
    let mut numbers = [0; NUMBERS];
    store_numbers::<N>(form, bytes, &mut numbers)?;
    Some(numbers)
}

// The same in decimal.
pub fn read_form(form: &[u8], bytes: &[u8]) -> Option<[u64; NUMBERS]>
    ensures { result ≡ filled_of (taken form.now bytes.now) }
{
    read_form_in::<DecimalNotation>(form, bytes)
}
