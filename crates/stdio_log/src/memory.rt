// What is in memory between two parts of a log: what the lines so far have come to, and room for the answers to the next ones.
ghost use Rattle.std.specs.Prelude.{◌≤◌};
ghost use Rattle.log_run.specs.Log.{most_lines};
ghost use Rattle.stdio_log.specs.Held.{Held};

use log_session::Session;

const OUTPUT_SIZE: usize = 65536;

// The session, the number of the last line that was run, and the buffer for answers. The numbers of the desk fit, so that no answer is longer than
// `answer_limit`, and more lines than `most_lines` are not run.
#[derive(Drop)]
pub struct Memory {
    pub session: Session,
    pub line: usize,
    pub out: [u8; OUTPUT_SIZE],
    ghost held: { ∥ Held session ∥₁ },
    ghost few: { line ≤ most_lines },
}

impl Memory {
    ghost use Rattle.log_session.specs.Desk.{empty_desk};
    ghost use Rattle.log_run.specs.Log.{begun};
    ghost use Rattle.stdio_log.specs.Streaming.{Ran};

    // An empty bench with nothing lent, and no line was run.
    pub fn empty() -> Memory
        ensures { Ran (begun empty_desk 0) result }
    {
        Memory {
            session: Session::empty(),
            line: 0,
            out: [0; OUTPUT_SIZE],
        }
    }
}
