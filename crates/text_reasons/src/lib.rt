// The line of a reason (document 02, A3).
// Kept: `at`, `out`: as document 01 lends them, an output and a place in it, which is refused where it is past the end.
#![tactic(auto)]

ghost use Rattle.std.specs.Prelude.{◌≡◌, ◌∷◌, ◌++◌, ◌+◌, ◌*◌, ◌≤◌, length, option_map};
ghost use Rattle.refusals.specs.Numbers.{Gives};
ghost use Rattle.reasons.specs.Reasons.{names_printed};
ghost use Rattle.reasons_lent.specs.Asked.{reason_told};
ghost use Rattle.text_writer.specs.Placed.{placed, placing};
ghost use Rattle.text_reasons.specs.ReasonLine.{name_marks, reason_form, reason_line, line_if_given, given_fault, given_out, explained, explained_fault, explained_out};
ghost use Rattle.text_reasons.specs.Rows.{form_limit, number_limit, name_mark};

use arrayvec::ArrayVec;
use graph::links::MARKS;
use reasons_lent::Reason;
use record_rows::row::LentRecord;
use refusals::Refusal;

// What stands before the names of a chain of must, of a chain of never, and of a ring.
const MUST: &[u8] = b"edit=@ why=must chain=";

const NEVER: &[u8] = b"edit=@ why=never chain=";

const RING: &[u8] = b" ring=";

const END: &[u8] = b"\n";

// What stands for the first name of a row, and for each after it.
const FIRST_NAME: &[u8] = b"@";

const NEXT_NAME: &[u8] = b",@";

// The most bytes of a form: of its words, and two for each name of a chain and a ring.
const FORM_BYTES: usize = 30 + 4 * MARKS;

// The most numbers: the edit, and the names of a chain and a ring.
const NUMBERS: usize = 1 + 2 * MARKS;

// What stands for a name after so many of its row.
#[tactic(auto, unfolding(text_forms::specs::Spelling::bytes))]
fn name_mark(before: usize) -> &'static [u8]
    ensures { result.now ≡ name_mark before }
{
    if before == 0 { FIRST_NAME } else { NEXT_NAME }
}

// The form of a line, and its numbers.
#[derive(Drop)]
struct ReasonForm {
    form: ArrayVec<u8, FORM_BYTES>,
    numbers: ArrayVec<u64, NUMBERS>,
}

impl ReasonForm {
    // A word.
    fn push_word(&mut self, word: &[u8])
        requires { length self.old.form.items + length word.now ≤ form_limit }
        ensures form { self.new.form.items ≡ self.old.form.items ++ word.now }
        ensures numbers { self.new.numbers.items ≡ self.old.numbers.items }
    {
        let _pushed = self.form.try_extend_from_slice(word);
    }

    // A word, and the names after it.
    fn push_names(&mut self, word: &[u8], names: &[u16])
        requires form { length self.old.form.items + length word.now + 2 * length names.now ≤ form_limit }
        requires numbers { length self.old.numbers.items + length names.now ≤ number_limit }
        ensures form { self.new.form.items ≡ self.old.form.items ++ word.now ++ name_marks names.now }
        ensures numbers { self.new.numbers.items ≡ self.old.numbers.items ++ names.now }
    {
        self.push_word(word);
        for (i, name) in names.iter().enumerate() {
            self.push_word(name_mark(i));
            self.numbers.push(u64::from(*name));
        }
    }
}

// The form of a reason's line, and its numbers.
fn form_of(edit: u32, reason: &Reason) -> ReasonForm
    ensures form { result.form.items ≡ reason_form (reason_told reason.now) }
    ensures numbers { result.numbers.items ≡ edit ∷ names_printed (reason_told reason.now) }
{
    let mut line = ReasonForm {
        form: ArrayVec::new(),
        numbers: ArrayVec::new(),
    };
    line.numbers.push(u64::from(edit));
    match reason {
        Reason::Must(chain) => line.push_names(MUST, chain),
        Reason::Never(chain, ring) => {
            line.push_names(NEVER, chain);
            line.push_names(RING, ring);
        }
    }
    line.push_word(END);
    line
}

// Writes the line of a reason at a place of out, where it fits. Refused, out stays as it was. Pub for the crates that print one.
pub fn write_reason(edit: u32, reason: &Reason, out: &mut [u8], at: usize) -> Result<usize, Refusal>
    ensures answer { result ≡ placing (reason_line edit (reason_told reason.now)) at out.old }
    ensures bytes { out.new ≡ placed (reason_line edit (reason_told reason.now)) at out.old }
{
    let line = form_of(edit, reason);
    text_writer::place_form(&line.form, &line.numbers, out, at)
}

// Writes the line of a reason, where there is one, at a place of out. Refused, out stays as it was. Pub for `c_library`.
pub fn write_given(
    edit: u32,
    given: Option<Reason>,
    out: &mut [u8],
    at: usize,
) -> Result<usize, Refusal>
    ensures answer { Gives (given_fault edit (option_map reason_told given) at out.old) (at + length (line_if_given edit (option_map reason_told given))) result }
    ensures bytes { out.new ≡ given_out edit (option_map reason_told given) at out.old }
{
    if out.len() < at {
        return Err(Refusal::NoRoom);
    }
    let reason = given.ok_or(Refusal::NoReason)?;
    write_reason(edit, &reason, out, at)
}

// Why an edit of a lent record must stand, or can never stand: its line at a place of out. Refused, out stays as it was.
pub fn explain(lent: LentRecord, edit: u32, out: &mut [u8], at: usize) -> Result<usize, Refusal>
    ensures answer { Gives (explained_fault lent.entry.edits.now lent.entry.constraints.now edit at out.old) (at + length (explained lent.entry.edits.now lent.entry.constraints.now edit)) result }
    ensures bytes { out.new ≡ explained_out lent.entry.edits.now lent.entry.constraints.now edit at out.old }
{
    let given = reasons_lent::reason_lent(lent, edit)?;
    write_given(edit, given, out, at)
}
