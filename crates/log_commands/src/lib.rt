// The commands of a call log, one to a line; specs/Grammar.antt has the forms of lines with what they mean. The letters of a line leave one form, and
// that alone is tried.
#![tactic(auto)]

ghost use Rattle.std.specs.Prelude.{◌≡◌, [], ◌∷◌, ◌+◌, ◌≤◌, length, drop, Ok};
ghost use Rattle.text_forms.specs.decimal.Decimal.{numeral_size};
ghost use Rattle.text_lines.specs.Line.{line_read, line_limit};
ghost use Rattle.log_forms.specs.productions.Words.{words_read};
ghost use Rattle.log_commands.specs.Grammar.{edit_cells_of, constraint_cells_of, adding, lending_to, command_read};
ghost use Rattle.log_commands.specs.Groups.{turn_by, command_said, number_read, read_starting, line_adds, lent_number, lent_line_read};

use log_forms::productions;
use refusals::Refusal;
use text_forms::decimal;
use text_forms::decimal::Numeral;
use text_lines::Line;

// A row of edits.
// Kept: cells by name: the table of forms in specs/Grammar.antt gives each number of a form its cell by name, so a reader sees there which of them is
// the chip. With the row itself the table would give `n 1 ∷ n 2 ∷ n 3 ∷ n 4 ∷ n 5 ∷ []`, and which number is which cell would be read elsewhere.
#[derive(Clone, Copy)]
pub struct EditCells {
    pub name: u32,
    pub kind: u32,
    pub place: u32,
    pub field: u32,
    pub value: u32,
}

impl From<[u32; 5]> for EditCells {
    ghost from_gives = { λ row cells. cells ≡ edit_cells_of row };

    fn from(row: [u32; 5]) -> EditCells {
        EditCells {
            name: row[0],
            kind: row[1],
            place: row[2],
            field: row[3],
            value: row[4],
        }
    }
}

impl From<EditCells> for [u32; 5] {
    ghost from_gives = { λ cells row. row ≡ cells.name ∷ cells.kind ∷ cells.place ∷ cells.field ∷ cells.value ∷ [] };

    fn from(cells: EditCells) -> [u32; 5] {
        [
            cells.name,
            cells.kind,
            cells.place,
            cells.field,
            cells.value,
        ]
    }
}

// A row of constraints.
// Kept: cells by name, as of a row of edits: `left`, `rule` and `right` in place of `n 1 ∷ n 2 ∷ n 3 ∷ []`.
#[derive(Clone, Copy)]
pub struct ConstraintCells {
    pub left: u32,
    pub rule: u32,
    pub right: u32,
}

impl From<[u32; 3]> for ConstraintCells {
    ghost from_gives = { λ row cells. cells ≡ constraint_cells_of row };

    fn from(row: [u32; 3]) -> ConstraintCells {
        ConstraintCells {
            left: row[0],
            rule: row[1],
            right: row[2],
        }
    }
}

impl From<ConstraintCells> for [u32; 3] {
    ghost from_gives = { λ cells row. row ≡ cells.left ∷ cells.rule ∷ cells.right ∷ [] };

    fn from(cells: ConstraintCells) -> [u32; 3] {
        [cells.left, cells.rule, cells.right]
    }
}

// A proposal from the record `lent` and the old proposal `old`, into a table of so many edits and rules.
#[derive(Clone, Copy)]
pub struct Proposing {
    pub lent: u32,
    pub old: u32,
    pub edits: u32,
    pub rules: u32,
    pub keep: bool,
}

// Constraints for two edits.
// Kept: the case as the number that a caller gives; another is refused as out of range.
#[derive(Clone, Copy)]
pub struct Suggesting {
    pub first: u32,
    pub second: u32,
    pub case: u32,
}

// What is lent: a row for a record, no rows or all the bench's; a bench of the roll and its weight; a name of the row to be tested.
#[derive(Clone, Copy)]
pub enum Lend {
    EditRow(u32, EditCells),
    ConstraintRow(u32, ConstraintCells),
    NoRows(u32),
    BenchRows(u32),
    RollRow(u32, u32),
    NoRoll,
    RowName(u32),
    NoRow,
}

// Calls on the bench.
#[derive(Clone, Copy)]
pub enum Call {
    AddEdit(EditCells),
    AddConstraint(ConstraintCells),
    Merge(u32),
    Hide(u32),
    Show(u32),
    Turn(i32),
    Adopt(u32),
}

// Elections, bundles, suggestions, tests and reasons.
#[derive(Clone, Copy)]
pub enum Vote {
    Elect(u32),
    Bundle(u32, u32),
    Suggest(Suggesting),
    Test(u32),
    Winner(u32),
    Tally(u32),
    Why(u32, u32),
}

// Questions.
#[derive(Clone, Copy)]
pub enum Ask {
    Text,
    Report,
    Hidden,
    Schedule,
    Catalogue,
    Journal,
    Page,
}

#[derive(Clone, Copy)]
pub enum Command {
    Lend(Lend),
    Propose(Proposing),
    Call(Call),
    Vote(Vote),
    Ask(Ask),
}

// A turn by so many pages, back where the number is negative. It is wider than an i32, for the least of these has no opposite among them.
fn turn_by(pages: i64) -> Result<Command, Refusal>
    ensures { result ≡ turn_by pages }
{
    let by = i32::try_from(pages).or(Err(Refusal::OutOfRange))?;
    Ok(Command::Call(Call::Turn(by)))
}

// What a form without numbers says.
fn read_plain(form: &[u8], bytes: &[u8], command: Command) -> Result<Command, Refusal>
    ensures { result ≡ command_said (words_read form.now bytes.now) (λ n. Ok command) }
{
    productions::read_words(form, bytes)?;
    Ok(command)
}

// The number of a form that has one.
#[tactic(auto, unfolding(crate::specs::Groups::number_read))]
fn read_number(form: &[u8], bytes: &[u8]) -> Result<u32, Refusal>
    ensures { result ≡ number_read form.now bytes.now }
{
    let words = productions::read_words(form, bytes)?;
    Ok(words[0])
}

// The forms that start so, by the letter after it; so below.
#[tactic(auto, using(crate::proofs::Arms::told_arms), unfolding(crate::proofs::Arms::computed))]
fn read_ask(bytes: &[u8]) -> Result<Command, Refusal>
    ensures { result ≡ read_starting "ask=" bytes.now }
{
    let letter = text_lines::byte_at(bytes, 4);
    match letter {
        b't' => read_plain(b"ask=text\n", bytes, Command::Ask(Ask::Text)),
        b'r' => read_plain(b"ask=report\n", bytes, Command::Ask(Ask::Report)),
        b'h' => read_plain(b"ask=hidden\n", bytes, Command::Ask(Ask::Hidden)),
        b's' => read_plain(b"ask=schedule\n", bytes, Command::Ask(Ask::Schedule)),
        b'c' => read_plain(b"ask=catalogue\n", bytes, Command::Ask(Ask::Catalogue)),
        b'j' => read_plain(b"ask=journal\n", bytes, Command::Ask(Ask::Journal)),
        b'p' => read_plain(b"ask=page\n", bytes, Command::Ask(Ask::Page)),
        _ => Err(Refusal::NotInForm),
    }
}

// No number begins with a minus sign.
#[tactic(auto, using(crate::proofs::Arms::told_arms), unfolding(crate::proofs::Arms::computed))]
fn read_turn(bytes: &[u8]) -> Result<Command, Refusal>
    ensures { result ≡ read_starting "do=turn pages=" bytes.now }
{
    let letter = text_lines::byte_at(bytes, 14);
    match letter {
        b'-' => turn_by(-i64::from(read_number(b"do=turn pages=-#\n", bytes)?)),
        _ => turn_by(i64::from(read_number(b"do=turn pages=#\n", bytes)?)),
    }
}

#[tactic(auto, using(crate::proofs::Arms::told_arms), unfolding(crate::proofs::Arms::computed))]
fn read_turn_test_or_tally(bytes: &[u8]) -> Result<Command, Refusal>
    ensures { result ≡ read_starting "do=t" bytes.now }
{
    let letter = text_lines::byte_at(bytes, 4);
    match letter {
        b'u' => read_turn(bytes),
        b'e' => Ok(Command::Vote(Vote::Test(read_number(b"do=test lent=#\n", bytes)?))),
        b'a' => Ok(Command::Vote(Vote::Tally(read_number(b"do=tally edit=#\n", bytes)?))),
        _ => Err(Refusal::NotInForm),
    }
}

#[tactic(auto, using(crate::proofs::Arms::told_arms), unfolding(crate::proofs::Arms::computed))]
fn read_show_or_suggest(bytes: &[u8]) -> Result<Command, Refusal>
    ensures { result ≡ read_starting "do=s" bytes.now }
{
    let letter = text_lines::byte_at(bytes, 4);
    match letter {
        b'h' => Ok(Command::Call(Call::Show(read_number(b"do=show edit=#\n", bytes)?))),
        b'u' => {
            let words = productions::read_words(b"do=suggest first=# second=# case=#\n", bytes)?;
            let suggesting = Suggesting {
                first: words[0],
                second: words[1],
                case: words[2],
            };
            Ok(Command::Vote(Vote::Suggest(suggesting)))
        }
        _ => Err(Refusal::NotInForm),
    }
}

#[tactic(auto, using(crate::proofs::Arms::told_arms), unfolding(crate::proofs::Arms::computed))]
fn read_winner_or_why(bytes: &[u8]) -> Result<Command, Refusal>
    ensures { result ≡ read_starting "do=w" bytes.now }
{
    let letter = text_lines::byte_at(bytes, 4);
    match letter {
        b'i' => Ok(Command::Vote(Vote::Winner(read_number(b"do=winner edit=#\n", bytes)?))),
        b'h' => {
            let words = productions::read_words(b"do=why edit=# lent=#\n", bytes)?;
            Ok(Command::Vote(Vote::Why(words[0], words[1])))
        }
        _ => Err(Refusal::NotInForm),
    }
}

// Kept: a form of several numbers has an arm with `?`, here and below: read_words(..).map(|words| ..) was tried, and the clauses of each closure make
// the proof longer.
#[tactic(auto, using(crate::proofs::Arms::told_arms), unfolding(crate::proofs::Arms::computed))]
fn read_do(bytes: &[u8]) -> Result<Command, Refusal>
    ensures { result ≡ read_starting "do=" bytes.now }
{
    let letter = text_lines::byte_at(bytes, 3);
    match letter {
        b'm' => Ok(Command::Call(Call::Merge(read_number(b"do=merge lent=#\n", bytes)?))),
        b'h' => Ok(Command::Call(Call::Hide(read_number(b"do=hide edit=#\n", bytes)?))),
        b's' => read_show_or_suggest(bytes),
        b't' => read_turn_test_or_tally(bytes),
        b'a' => Ok(Command::Call(Call::Adopt(read_number(b"do=adopt edit=#\n", bytes)?))),
        b'e' => Ok(Command::Vote(Vote::Elect(read_number(b"do=elect edit=#\n", bytes)?))),
        b'b' => {
            let words = productions::read_words(b"do=bundle edit=# lent=#\n", bytes)?;
            Ok(Command::Vote(Vote::Bundle(words[0], words[1])))
        }
        b'p' => {
            let words = productions::read_words(
                b"do=propose lent=# old=# edits=# rules=# keep=?\n",
                bytes,
            )?;
            let proposing = Proposing {
                lent: words[0],
                old: words[1],
                edits: words[2],
                rules: words[3],
                keep: words[4] != 0,
            };
            Ok(Command::Propose(proposing))
        }
        b'w' => read_winner_or_why(bytes),
        _ => Err(Refusal::NotInForm),
    }
}

#[tactic(auto, using(crate::proofs::Arms::told_arms), unfolding(crate::proofs::Arms::computed))]
fn read_roll(bytes: &[u8]) -> Result<Command, Refusal>
    ensures { result ≡ read_starting "roll=" bytes.now }
{
    let letter = text_lines::byte_at(bytes, 5);
    match letter {
        b'n' => read_plain(b"roll=none\n", bytes, Command::Lend(Lend::NoRoll)),
        _ => {
            let words = productions::read_words(b"roll=# weight=#\n", bytes)?;
            Ok(Command::Lend(Lend::RollRow(words[0], words[1])))
        }
    }
}

// Kept: beside `read_roll`: `read_plain`, `read_words` and `read_number` are what both share; what is left is two forms and two commands each.
#[tactic(auto, using(crate::proofs::Arms::told_arms), unfolding(crate::proofs::Arms::computed))]
fn read_row(bytes: &[u8]) -> Result<Command, Refusal>
    ensures { result ≡ read_starting "row=" bytes.now }
{
    let letter = text_lines::byte_at(bytes, 4);
    match letter {
        b'n' => read_plain(b"row=none\n", bytes, Command::Lend(Lend::NoRow)),
        _ => Ok(Command::Lend(Lend::RowName(read_number(b"row=#\n", bytes)?))),
    }
}

// The record's number ends at `number`.
#[tactic(auto, using(crate::proofs::Arms::told_arms), unfolding(crate::proofs::Arms::computed))]
fn read_rows(bytes: &[u8], number: usize) -> Result<Command, Refusal>
    requires { number ≡ 5 + numeral_size (drop 5 bytes.now) }
    ensures { result ≡ read_starting "lent=# rows=" bytes.now }
{
    let letter = text_lines::byte_at(bytes, number + 6);
    match letter {
        b'n' => Ok(Command::Lend(Lend::NoRows(read_number(b"lent=# rows=none\n", bytes)?))),
        b'b' => Ok(Command::Lend(Lend::BenchRows(read_number(b"lent=# rows=bench\n", bytes)?))),
        _ => Err(Refusal::NotInForm),
    }
}

fn add_line(line: Line) -> Command
    ensures { result ≡ adding line }
{
    match line {
        Line::Edit(row) => Command::Call(Call::AddEdit(EditCells::from(row))),
        Line::Constraint(row) => Command::Call(Call::AddConstraint(ConstraintCells::from(row))),
    }
}

fn lend_line(lent: u32, line: Line) -> Command
    ensures { result ≡ lending_to lent line }
{
    match line {
        Line::Edit(row) => Command::Lend(Lend::EditRow(lent, EditCells::from(row))),
        Line::Constraint(row) => Command::Lend(Lend::ConstraintRow(
            lent,
            ConstraintCells::from(row),
        )),
    }
}

// A line of the exchanged text.
fn read_added(bytes: &[u8]) -> Result<Command, Refusal>
    ensures { result ≡ line_adds (line_read bytes.now) }
{
    let line = text_lines::read_line(bytes)?;
    Ok(add_line(line))
}

// The record's number that a line begins with.
// Kept: `starts_with` and the rest from 5: `strip_prefix` would drop the 5 here, but `read_lent_line` counts on from it, so that one of the two places
// would have the word's length and the other not.
fn lent_number(bytes: &[u8]) -> Option<Numeral>
    ensures { result ≡ lent_number bytes.now }
{
    if !bytes.starts_with(b"lent=") {
        return None;
    }
    decimal::read_number(&bytes[5..])
}

// A line of the exchanged text after a record's number.
// Kept: `length bytes.now ≤ line_limit`: what stands after the number is read as a line with a limit of its own, which it then cannot pass.
fn read_lent_line(bytes: &[u8]) -> Result<Command, Refusal>
    requires { length bytes.now ≤ line_limit }
    ensures { result ≡ lent_line_read bytes.now }
{
    let lent = lent_number(bytes).ok_or(Refusal::NotInForm)?;
    let at = 5 + lent.size;
    let space = text_lines::byte_at(bytes, at);
    if space != b' ' {
        return Err(Refusal::NotInForm);
    }
    let start = at + 1;
    let line = text_lines::read_line(&bytes[start..])?;
    let number = text_lines::word(lent.value)?;
    Ok(lend_line(number, line))
}

// Rows of numbers are tried before lines of the exchanged text.
// Kept: a match of the answer in each of two arms: only these two go on to a line. As functions the rows would be two and the match a third, each with
// a definition of what it gives, in place of two matches.
#[tactic(auto, using(crate::proofs::Arms::told_arms, crate::proofs::Arms::lent_second), unfolding(crate::proofs::Arms::computed))]
fn read_lent(bytes: &[u8]) -> Result<Command, Refusal>
    requires { length bytes.now ≤ line_limit }
    ensures { result ≡ read_starting "lent=# " bytes.now }
{
    let number = text_lines::number_end(bytes, 5);
    let letter = text_lines::byte_at(bytes, number + 1);
    match letter {
        b'e' => match productions::read_words(
            b"lent=# edit=# kind=# chip=# field=# value=#\n",
            bytes,
        ) {
            Ok(words) => {
                let cells = EditCells {
                    name: words[1],
                    kind: words[2],
                    place: words[3],
                    field: words[4],
                    value: words[5],
                };
                Ok(Command::Lend(Lend::EditRow(words[0], cells)))
            }
            Err(Refusal::NotInForm) => read_lent_line(bytes),
            Err(refusal) => Err(refusal),
        },
        b'l' => match productions::read_words(b"lent=# left=# rule=# right=#\n", bytes) {
            Ok(words) => {
                let cells = ConstraintCells {
                    left: words[1],
                    rule: words[2],
                    right: words[3],
                };
                Ok(Command::Lend(Lend::ConstraintRow(words[0], cells)))
            }
            Err(Refusal::NotInForm) => read_lent_line(bytes),
            Err(refusal) => Err(refusal),
        },
        b'r' => read_rows(bytes, number),
        _ => Err(Refusal::NotInForm),
    }
}

// What a line of a log says, its end included. The third letter tells the groups of forms.
#[tactic(auto, using(crate::proofs::Arms::told_lines), unfolding(crate::proofs::Arms::computed))]
pub fn read_command(bytes: &[u8]) -> Result<Command, Refusal>
    ensures { result ≡ command_read bytes.now }
{
    if text_lines::LINE_LIMIT < bytes.len() {
        return Err(Refusal::NotInForm);
    }
    let third = text_lines::byte_at(bytes, 2);
    match third {
        b'i' | b'f' => read_added(bytes),
        b'n' => read_lent(bytes),
        b'=' => read_do(bytes),
        b'k' => read_ask(bytes),
        b'l' => read_roll(bytes),
        b'w' => read_row(bytes),
        _ => Err(Refusal::NotInForm),
    }
}
