// A call log, run line by line on a bench and what is lent.
#![tactic(auto)]

ghost use Rattle.std.specs.Prelude.{◌≡◌, ◌+◌, ◌<◌, ◌≤◌, length, drop, Result, IsSome};
ghost use Rattle.refusals.specs.declared.Refusal.{Refusal};
ghost use Rattle.text_lines.specs.Lines.{lines, first_line};
ghost use Rattle.log_forms.specs.declared.Printer.{Printer};
ghost use Rattle.log_forms.specs.Printed.{Printed, PrintedLines, SameBuffer, SameLine};
ghost use Rattle.log_commands.specs.declared.Command.{Command};
ghost use Rattle.log_commands.specs.Grammar.{command_read};
ghost use Rattle.log_session.specs.declared.Session.{Session};
ghost use Rattle.log_session.specs.Desk.{Desk, printed_of};
ghost use Rattle.log_session.specs.calls.Lines.{Holds, call_effect};
ghost use Rattle.log_run.specs.Branches.{paging_of};
ghost use Rattle.log_run.specs.Effects.{effect};
ghost use Rattle.log_run.specs.Log.{begun, run_lines, most_lines};
ghost use Rattle.log_run.specs.Running.{opened, Running, Stops};

use log_answers::bench_answers;
use log_commands::{Ask, Call, Command};
use log_forms::Printer;
use log_session::{Session, calls, questions, votes};
use pages_turner::{Turner, turning};
use refusals::Refusal;

// What the turner alone tells of a line: a turn by so many pages, or the question for the open page.
#[derive(Clone, Copy)]
enum PageLine {
    Turn(i32),
    Question,
}

// Kept: not a step to run, but what the turner needs to know of a line; a line of another kind is None.
fn paging_of(read: Result<Command, Refusal>) -> Option<PageLine>
    ensures { result ≡ paging_of read }
{
    match read {
        Ok(Command::Call(Call::Turn(pages))) => Some(PageLine::Turn(pages)),
        Ok(Command::Ask(Ask::Page)) => Some(PageLine::Question),
        _ => None,
    }
}

// A line that turns pages or asks for the open page. The bench itself is not needed: what a row of turns comes to is opened once, after the last.
#[tactic(auto, using(log_forms::proofs::Printing::same_printed))]
fn run_page(printer: &mut Printer<'_>, turner: &mut Turner, paging: PageLine)
    ensures last { turner.new.last ≡ turner.old.last }
    ensures run { (D : Desk) (read : Result Command Refusal) (session : Session) → Holds D session → session.bench.turner ≡ turner.old
        → paging_of read ≡ Some paging
        → Holds (effect D read).after (opened session turner.new.opened) × Printed (printed_of (effect D read) printer.old.line) printer.old printer.new }
    ensures same { SameLine printer.old printer.new }
{
    match paging {
        PageLine::Turn(pages) => {
            let answer = turning::turn(turner, pages).map(|()| bench::turn_result());
            calls::print_outcome(printer, answer, *turner, Call::Turn(pages));
        }
        PageLine::Question => bench_answers::print_page(printer, *turner),
    }
}

// A call on the bench, and what it prints.
#[tactic(auto, using(log_forms::proofs::Printing::same_printed))]
fn run_call(printer: &mut Printer<'_>, session: &mut Session, call: Call)
    ensures run { (D : Desk) → Holds D session.old
        → Holds (call_effect D call).after session.new × Printed (printed_of (call_effect D call) printer.old.line) printer.old printer.new }
    ensures same { SameLine printer.old printer.new }
{
    let answer = log_session::make_call(session, call);
    calls::print_outcome(printer, answer, session.bench.turner, call);
}

// A line: what it leaves, and what it prints.
// Inlined, so that the stack of its locals is taken once for a run of lines: taken line by line it doubled the time of a log of ask=page.
#[inline(always)]
#[tactic(auto, using(log_forms::proofs::Printing::same_printed))]
fn run_command(printer: &mut Printer<'_>, session: &mut Session, read: Result<Command, Refusal>)
    ensures run { (D : Desk) → Holds D session.old
        → Holds (effect D read).after session.new × Printed (printed_of (effect D read) printer.old.line) printer.old printer.new }
    ensures same { SameLine printer.old printer.new }
{
    match read {
        Ok(Command::Lend(lend)) => calls::run_lend(printer, session, lend),
        Ok(Command::Propose(asked)) => votes::print_proposal(printer, session, asked),
        Ok(Command::Call(call)) => run_call(printer, session, call),
        Ok(Command::Vote(vote)) => votes::print_vote(printer, session, vote),
        Ok(Command::Ask(ask)) => questions::print_ask(printer, &session.bench, ask),
        Err(refusal) => log_answers::print_refusal(printer, refusal.number()),
    }
}

// A row of such lines, from the one at a place on, until one of another kind: the place of that. Only the turner moves, and the bench is opened at its
// page after the last.
// Kept: a line is found from a place in the bytes; an iterator over lines would hold the same place, and a row of turns is part of the walk.
fn run_turns(
    printer: &mut Printer<'_>,
    turner: &mut Turner,
    log: &[u8],
    start: usize,
    limit: usize,
) -> usize
    requires inside { start < length log.now }
    requires below { printer.old.at ≤ limit }
    requires first { IsSome (paging_of (command_read (first_line (drop start log.now)))) }
    ensures forward { start < result }
    ensures inside { result ≤ length log.now }
    ensures run { (D : Desk) (before : Printer) (session : Session) → Running log.now D before start session printer.old limit → session.bench.turner ≡ turner.old
        → before.line + length log.now ≤ most_lines
        → Running log.now D before result (opened session turner.new.opened) printer.new limit }
    ensures same { SameBuffer printer.old printer.new }
{
    let mut from = start;
    while from < log.len() && printer.at <= limit {
        let end = text_lines::line_end(log, from);
        let Some(paging) = paging_of(log_commands::read_command(&log[from..end])) else {
            break;
        };
        printer.line = printer.line.saturating_add(1);
        run_page(printer, turner, paging);
        from = end;
    }
    from
}

// The run of lines of a log until what they print passes the limit, or the log ends: the place after these lines. The printer's line is the number of
// the last one. Only a row of turns leaves the bench as it is until its end.
// Kept: a place in the bytes, as in the row of turns, which moves it past several lines.
pub fn run_some(printer: &mut Printer<'_>, session: &mut Session, log: &[u8], limit: usize) -> usize
    ensures stops { Stops (length log.now) limit printer.old.at result printer.new.at }
    ensures run { (D : Desk) → Holds D session.old → printer.old.line + length log.now ≤ most_lines
        → Running log.now D printer.old result session.new printer.new limit }
    ensures same { SameBuffer printer.old printer.new }
{
    let mut from = 0;
    while from < log.len() && printer.at <= limit {
        let end = text_lines::line_end(log, from);
        let read = log_commands::read_command(&log[from..end]);
        if let Some(PageLine::Turn(_)) = paging_of(read) {
            let mut turner = session.bench.turner;
            from = run_turns(printer, &mut turner, log, from, limit);
            bench::open_at(&mut session.bench, turner.opened);
        } else {
            printer.line = printer.line.saturating_add(1);
            run_command(printer, session, read);
            from = end;
        }
    }
    from
}

// THE RUN of the lines of a log on a desk: the place after what they print. The printer's line is the number of the line before them, and then of the
// last.
pub fn run_log(printer: &mut Printer<'_>, session: &mut Session, log: &[u8]) -> usize
    ensures place { result ≡ printer.new.at }
    ensures run { (D : Desk) → Holds D session.old → printer.old.line + length log.now ≤ most_lines
        → Holds (run_lines (begun D printer.old.line) (lines log.now)).desk session.new
        × (printer.new.line ≡ (run_lines (begun D printer.old.line) (lines log.now)).count)
        × PrintedLines (run_lines (begun D printer.old.line) (lines log.now)).printed printer.old printer.new }
    ensures same { SameBuffer printer.old printer.new }
{
    // no place is above the greatest number
    run_some(printer, session, log, usize::MAX);
    printer.at
}
