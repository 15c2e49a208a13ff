// Standard input to standard output (document 01, "Text"): the report of the text, or its refusal.
ghost use Rattle.std.specs.Prelude.{◌≡◌, List, [], ◌++◌, ℕ, ◌≤◌, ◌<◌, length, take, IfOk};
ghost use Rattle.text.specs.Text.{read_text};
ghost use Rattle.text_report.specs.Report.{printed};

use crate::{Failed, ReadFailed};

// How many bytes of the text are read.
const INPUT_SIZE: usize = 65536;

// Enough for what is printed of any text (crate `text_report`, printed-fits).
const OUTPUT_SIZE: usize = 16384;

// What is printed of a text stands at the start of out.
fn print_text(text: &[u8], out: &mut [u8; OUTPUT_SIZE]) -> usize
    ensures { (result ≤ length out.new) × (take result out.new ≡ printed (read_text text.now)) }
{
    text_report::print_text(text, &mut out[..]).unwrap()
}

// Prints the report of a text, or its refusal.
fn show(rt: &(impl Print + Eprint), text: &[u8]) -> Result<(), Failed> {
    let mut out = [0u8; OUTPUT_SIZE];
    let end = print_text(text, &mut out);
    crate::print(rt, &out[..end])
}

// Reads the text on standard input. Of a text that does not fit the first 64,641 bytes decide (crate `text`, first-bytes-decide): whatever
// follows, and nothing follows where the buffer is not full, what was read is answered as the whole.
fn read_text(rt: &(impl Input + Eprint), text: &mut [u8; INPUT_SIZE]) -> Result<usize, ReadFailed>
    ensures { IfOk result (λ size. (size ≤ length text.new)
        × ((rest : List ℕ) → (size < length text.new → rest ≡ [])
        → read_text (take size text.new ++ rest) ≡ read_text (take size text.new))) }
{
    crate::read_input(rt, &mut text[..])
}

// The same of the text on standard input. Nothing is printed of what a failed read left.
pub fn show_input(rt: &(impl Input + Print + Eprint)) {
    let mut text = [0u8; INPUT_SIZE];
    if let Ok(size) = read_text(rt, &mut text) {
        // standard error was told of a failure
        let _ = show(rt, &text[..size]);
    }
}
