// The library for programs in other languages (include/catalogue.h): texts and call logs, as bytes in and bytes out, and tables of election
// answers. Nothing is kept between calls: a bench is kept by its log.
#![tactic(auto)]

ghost use Rattle.std.specs.Prelude.{◌≡◌, [], map, ◌+◌, ◌≤◌, length};
ghost use Rattle.text.specs.Text.{read_text};
ghost use Rattle.text_report.specs.Report.{reported_out};
ghost use Rattle.unity_table.specs.Unity.{weights_of, unity_of, answer_told};
ghost use Rattle.log_run.specs.Log.{most_lines};
ghost use Rattle.c_library.specs.Replies.{placed_reply, told_reply, unity_reply, reported_reply, checked_reply, rewritten_reply, rewritten_out, why_reply, why_out, answers_to, answers_after, answered_reply, answered_out, worked};

use fraction::Fraction;
use judgement::lent_edit;
use log_forms::Printer;
use log_session::Session;
use refusals::Refusal;
use text_reader::Fault;
use unity_table::{ElectionRow, RowFault};

// Number 0: how many bytes were written. 12: they do not fit, or the place for them is too short. Any other: the text is refused, at this line.
// Kept: C reads the answer, so that the number stands beside the values.
#[repr(C)]
#[derive(Clone, Copy)]
pub struct Reply {
    pub number: u32,
    pub line: usize,
    pub size: usize,
}

// How many bytes were written, or that the text is refused.
impl From<Result<usize, Fault>> for Reply {
    ghost from_gives = { λ answer reply. reply ≡ told_reply answer };

    fn from(answer: Result<usize, Fault>) -> Reply {
        match answer {
            Ok(size) => Reply {
                number: 0,
                line: 0,
                size,
            },
            Err(fault) => Reply {
                number: fault.refusal.number(),
                line: fault.line,
                size: 0,
            },
        }
    }
}

// How many bytes were written, or that they do not fit.
impl From<Result<usize, Refusal>> for Reply {
    ghost from_gives = { λ answer reply. reply ≡ placed_reply answer };

    fn from(answer: Result<usize, Refusal>) -> Reply {
        Reply::from(answer.map_err(Fault::from))
    }
}

// Number 0: mean, least and greatest share, how many elections are won, and how many have total 0. Any other: that of the refusal and the
// faulty row, from 1; every other part is 0.
// Kept: C reads the answer, so that the number stands beside the values.
#[repr(C)]
#[derive(Clone, Copy)]
pub struct Unity {
    pub number: u32,
    pub row: usize,
    pub mean: Fraction,
    pub least: Fraction,
    pub greatest: Fraction,
    pub won: usize,
    pub empty: usize,
}

// Every part 0.
const UNKNOWN: Unity = Unity {
    number: 0,
    row: 0,
    mean: Fraction::NONE,
    least: Fraction::NONE,
    greatest: Fraction::NONE,
    won: 0,
    empty: 0,
};

impl From<Result<unity_table::Unity, RowFault>> for Unity {
    ghost from_gives = { λ answer unity. unity ≡ unity_reply (answer_told answer) };

    fn from(answer: Result<unity_table::Unity, RowFault>) -> Unity {
        match answer {
            Ok(unity) => Unity {
                mean: unity.mean,
                least: unity.least,
                greatest: unity.greatest,
                won: unity.won,
                empty: unity.empty,
                ..UNKNOWN
            },
            Err(fault) => Unity {
                number: fault.refusal.number(),
                row: fault.row,
                ..UNKNOWN
            },
        }
    }
}

// Whether a text is without fault.
pub fn catalogue_check(text: &[u8]) -> Reply
    ensures { result ≡ checked_reply (read_text text.now) }
{
    Reply::from(text_reader::read_text(text).map(|_| 0))
}

// The report of a text, at the start of out. Refused, out stays as it was.
pub fn catalogue_report(text: &[u8], out: &mut [u8]) -> Reply
    ensures { (result ≡ reported_reply (read_text text.now) out.old)
        × (out.new ≡ reported_out (read_text text.now) out.old) }
{
    Reply::from(text_report::report_text(text, out))
}

// A text read and written back, at the start of out.
fn rewrite(text: &[u8], out: &mut [u8]) -> Result<usize, Fault>
    ensures { (told_reply result ≡ rewritten_reply (read_text text.now) out.old)
        × (out.new ≡ rewritten_out (read_text text.now) out.old) }
{
    let content = text_reader::read_text(text)?;
    let size = text_writer::write_text(content, out, 0)?;
    Ok(size)
}

// A text read and written back: the same bytes, at the start of out. Refused, out stays as it was.
pub fn catalogue_rewrite(text: &[u8], out: &mut [u8]) -> Reply
    ensures { (result ≡ rewritten_reply (read_text text.now) out.old)
        × (out.new ≡ rewritten_out (read_text text.now) out.old) }
{
    Reply::from(rewrite(text, out))
}

// Why an edit of a text's record must stand, or can never stand: its line at the start of out.
fn explain_edit(text: &[u8], edit: u32, out: &mut [u8]) -> Result<usize, Fault>
    ensures { (told_reply result ≡ why_reply (read_text text.now) edit out.old)
        × (out.new ≡ why_out (read_text text.now) edit out.old) }
{
    let content = text_reader::read_text(text)?;
    let known = lent_edit::named_edit(content, edit)?;
    let given = reasons_lent::reason_known(known);
    let size = text_reasons::write_given(edit, given, out, 0)?;
    Ok(size)
}

// Why an edit of a text's record must stand, or can never stand: the line, at the start of out. Refused, out stays as it was.
pub fn catalogue_why(text: &[u8], edit: u32, out: &mut [u8]) -> Reply
    ensures { (result ≡ why_reply (read_text text.now) edit out.old)
        × (out.new ≡ why_out (read_text text.now) edit out.old) }
{
    Reply::from(explain_edit(text, edit, out))
}

// A log that was kept, and the lines that follow it.
#[derive(Clone, Copy)]
struct Logs<'a> {
    kept: &'a [u8],
    log: &'a [u8],
}

// The place after the answers in work. What the kept log printed there is written over.
fn log_size(logs: Logs, work: &mut [u8]) -> usize
    ensures { length logs.entry.kept.now + length logs.entry.log.now ≤ most_lines
        → (work.new ≡ (worked logs.entry.kept.now logs.entry.log.now work.old).bytes)
        × (result ≡ (worked logs.entry.kept.now logs.entry.log.now work.old).place) }
{
    let mut session = Session::empty();
    let mut printer = Printer::new(work, 0);
    log_run::run_log(&mut printer, &mut session, logs.kept);
    printer.at = 0;
    log_run::run_log(&mut printer, &mut session, logs.log)
}

// A kept log is run from an empty bench, then the log that follows it, into work; where work and out are long enough, the answers to the
// second are copied to the start of out.
fn answered(logs: Logs, work: &mut [u8], out: &mut [u8]) -> Result<usize, Refusal>
    ensures { length logs.entry.kept.now + length logs.entry.log.now ≤ most_lines
        → (placed_reply result ≡ answered_reply (answers_after logs.entry.kept.now logs.entry.log.now) work.old out.old)
        × (out.new ≡ answered_out (answers_after logs.entry.kept.now logs.entry.log.now) work.old out.old)
        × (work.new ≡ (worked logs.entry.kept.now logs.entry.log.now work.old).bytes) }
{
    let size = log_size(logs, work);
    if work.len() < size || out.len() < size {
        return Err(Refusal::NoRoom);
    }
    out[..size].copy_from_slice(&work[..size]);
    Ok(size)
}

// THE ANSWERS to a call log from an empty bench, at the start of out. Refused with 12, out stays as it was. Work has the answers, up to the first
// text of them that does not fit.
pub fn catalogue_replay(log: &[u8], work: &mut [u8], out: &mut [u8]) -> Reply
    ensures { length log.now ≤ most_lines
        → (result ≡ answered_reply (answers_to log.now) work.old out.old)
        × (out.new ≡ answered_out (answers_to log.now) work.old out.old)
        × (work.new ≡ (worked [] log.now work.old).bytes) }
{
    let logs = Logs { kept: &[], log };
    Reply::from(answered(logs, work, out))
}

// The answers to the lines that follow a kept log, which is how a bench is kept between calls.
pub fn catalogue_continue(kept: &[u8], log: &[u8], work: &mut [u8], out: &mut [u8]) -> Reply
    ensures { length kept.now + length log.now ≤ most_lines
        → (result ≡ answered_reply (answers_after kept.now log.now) work.old out.old)
        × (out.new ≡ answered_out (answers_after kept.now log.now) work.old out.old)
        × (work.new ≡ (worked kept.now log.now work.old).bytes) }
{
    let logs = Logs { kept, log };
    Reply::from(answered(logs, work, out))
}

// How united the benches are, from a table of election answers.
// Kept: one call made of another's answer, as the answers above are, but neither of its functions is called there.
pub fn catalogue_unity(answers: &[ElectionRow]) -> Unity
    ensures { result ≡ unity_reply (unity_of (map weights_of answers.now)) }
{
    Unity::from(unity_table::unity_of(answers))
}
