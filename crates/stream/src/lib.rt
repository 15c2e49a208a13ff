// Input that arrives in pieces, cut into lines: the whole lines of what was read, and what is kept of a line that has not ended. It knows
// nothing of what lines say.
#![tactic(auto)]

ghost use Rattle.std.specs.Prelude.{◌≡◌, ◌++◌, length, take, drop};
ghost use Rattle.stream.specs.Pieces.{last_end, waiting};

use text_lines::LINE_LIMIT;

// How many bytes of a line that has not ended are kept: one more than any line in form has with its end.
const KEPT: usize = LINE_LIMIT + 1;

// The place after the last line that has ended.
// Kept: tried with `map_or`, the check finds no proof of the one goal that both cases then are; of a match it has a goal for each.
pub fn last_end(bytes: &[u8]) -> usize
    ensures { result ≡ last_end bytes.now }
{
    match bytes.iter().rposition(|byte| *byte == b'\n') {
        Some(at) => at + 1,
        None => 0,
    }
}

// What waits for the end of its line, of the first bytes of a buffer, moves to the front; how many bytes it has.
pub fn keep_waiting(bytes: &mut [u8], filled: usize) -> usize
    ensures { (result ≡ length (waiting (take filled bytes.old)))
        × (bytes.new ≡ waiting (take filled bytes.old) ++ drop result bytes.old) }
{
    let size = filled.min(bytes.len());
    let whole = last_end(&bytes[..size]);
    let rest = (size - whole).min(KEPT);
    bytes.copy_within(whole..whole + rest, 0);
    rest
}
