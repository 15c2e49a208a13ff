// The C symbols of the library (include/catalogue.h): each is the function of `c_library` of its name, under the same clauses.
#![tactic(auto)]

ghost use Rattle.std.specs.Prelude.{◌≡◌, [], map, ◌+◌, ◌≤◌, length};
ghost use Rattle.text.specs.Text.{read_text};
ghost use Rattle.text_report.specs.Report.{reported_out};
ghost use Rattle.unity_table.specs.Unity.{weights_of, unity_of};
ghost use Rattle.log_run.specs.Log.{most_lines};
ghost use Rattle.c_library.specs.Replies.{unity_reply, reported_reply, checked_reply, rewritten_reply, rewritten_out, why_reply, why_out, answers_to, answers_after, answered_reply, answered_out, worked};

use c_library::{Reply, Unity};
use unity_table::ElectionRow;

#[unsafe(no_mangle)]
pub extern "C" fn catalogue_check(text: &[u8]) -> Reply
    ensures { result ≡ checked_reply (read_text text.now) }
{
    c_library::catalogue_check(text)
}

#[unsafe(no_mangle)]
pub extern "C" fn catalogue_report(text: &[u8], out: &mut [u8]) -> Reply
    ensures { (result ≡ reported_reply (read_text text.now) out.old)
        × (out.new ≡ reported_out (read_text text.now) out.old) }
{
    c_library::catalogue_report(text, out)
}

#[unsafe(no_mangle)]
pub extern "C" fn catalogue_rewrite(text: &[u8], out: &mut [u8]) -> Reply
    ensures { (result ≡ rewritten_reply (read_text text.now) out.old)
        × (out.new ≡ rewritten_out (read_text text.now) out.old) }
{
    c_library::catalogue_rewrite(text, out)
}

#[unsafe(no_mangle)]
pub extern "C" fn catalogue_why(text: &[u8], edit: u32, out: &mut [u8]) -> Reply
    ensures { (result ≡ why_reply (read_text text.now) edit out.old)
        × (out.new ≡ why_out (read_text text.now) edit out.old) }
{
    c_library::catalogue_why(text, edit, out)
}

#[unsafe(no_mangle)]
pub extern "C" fn catalogue_replay(log: &[u8], work: &mut [u8], out: &mut [u8]) -> Reply
    ensures { length log.now ≤ most_lines
        → (result ≡ answered_reply (answers_to log.now) work.old out.old)
        × (out.new ≡ answered_out (answers_to log.now) work.old out.old)
        × (work.new ≡ (worked [] log.now work.old).bytes) }
{
    c_library::catalogue_replay(log, work, out)
}

#[unsafe(no_mangle)]
pub extern "C" fn catalogue_continue(
    kept: &[u8],
    log: &[u8],
    work: &mut [u8],
    out: &mut [u8],
) -> Reply
    ensures { length kept.now + length log.now ≤ most_lines
        → (result ≡ answered_reply (answers_after kept.now log.now) work.old out.old)
        × (out.new ≡ answered_out (answers_after kept.now log.now) work.old out.old)
        × (work.new ≡ (worked kept.now log.now work.old).bytes) }
{
    c_library::catalogue_continue(kept, log, work, out)
}

#[unsafe(no_mangle)]
pub extern "C" fn catalogue_unity(answers: &[ElectionRow]) -> Unity
    ensures { result ≡ unity_reply (unity_of (map weights_of answers.now)) }
{
    c_library::catalogue_unity(answers)
}
