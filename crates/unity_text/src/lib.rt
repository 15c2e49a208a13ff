// The answers of elections as lines (document 02, A9): read line by line, and what they come to as one line.
#![tactic(auto)]

ghost use Rattle.std.specs.Prelude.{◌≡◌};
ghost use Rattle.text_writer.specs.Placed.{placed, placing};
ghost use Rattle.unity_table.specs.Unity.{answer_told};
ghost use Rattle.unity_text.specs.Text.{numbers_in, text_unity, printed_unity};
ghost use Rattle.unity_text.specs.Said.{said_of};

use refusals::Refusal;
use text_lines::Lines;
use unity_table::{RowFault, Summed, Unity, Weights};

// What a line says, where it is in form. Numbers past 32 bits are cut off at 2^32, which is out of range all the same.
fn read_answer(line: &[u8]) -> Option<Weights>
    ensures { result ≡ said_of (numbers_in line.now) }
{
    if text_lines::LINE_LIMIT < line.len() {
        return None;
    }
    let numbers = text_forms::read_form(b"greatest=# silent=# total=#\n", line)?;
    Some(Weights {
        greatest: numbers[0],
        silent: numbers[1],
        total: numbers[2],
    })
}

// What the answers of a text come to.
pub fn text_unity(text: &[u8]) -> Result<Unity, RowFault>
    ensures { answer_told result ≡ text_unity text.now }
{
    let mut summed = Summed::nothing();
    for line in Lines::new(text) {
        let unformed = RowFault {
            refusal: Refusal::NotInForm,
            row: summed.rows + 1,
        };
        let answer = read_answer(line).ok_or(unformed)?;
        summed = summed.with_answer(answer)?;
    }
    summed.finished()
}

// WHAT IS PRINTED of a text of answers, at the start of out where it fits. Refused with 12, out stays as it was.
pub fn print_unity(text: &[u8], out: &mut [u8]) -> Result<usize, Refusal>
    ensures answer { result ≡ placing (printed_unity (text_unity text.now)) 0 out.old }
    ensures bytes { out.new ≡ placed (printed_unity (text_unity text.now)) 0 out.old }
{
    let unity = match text_unity(text) {
        Ok(unity) => unity,
        Err(fault) => {
            return text_report::refusal_line(fault.refusal.number(), fault.row, out);
        }
    };
    let numbers = [
        unity.mean.numerator,
        unity.mean.denominator,
        unity.least.numerator,
        unity.least.denominator,
        unity.greatest.numerator,
        unity.greatest.denominator,
        unity.won as u64,
        unity.empty as u64,
    ];
    text_writer::place_form(
        b"mean=#/# least=#/# greatest=#/# won=# empty=#\n",
        &numbers,
        out,
        0,
    )
}
