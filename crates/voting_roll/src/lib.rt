// The roll of an election (document 01, "Proposals and votes"): its rows are lent.
#![tactic(auto)]

ghost use Rattle.std.specs.Prelude.{◌≡◌, map, length};
ghost use Rattle.lists.specs.Lists.{mem};
ghost use Rattle.refusals.specs.Numbers.{number_of};
ghost use Rattle.record_rows.specs.grounds.Ground.{◌given◌};
ghost use Rattle.voting_roll.specs.Roll.{roll_bench, roll_faulty, row_faulty};

use refusals::Refusal;
use voting::{BENCHES, RollRow};

// Whether a bench has one of the rows.
fn has_bench(rows: &[RollRow], bench: u8) -> bool
    ensures { result ≡ mem bench (map roll_bench rows.now) }
{
    rows.iter().any(|row| row.bench == bench)
}

// Whether a row makes a roll faulty that had no fault so far.
#[tactic(auto, unfolding(crate::specs::Roll::row_faulty))]
fn is_faulty(rows: &[RollRow], row: RollRow) -> bool
    ensures { result ≡ row_faulty rows.now row (length rows.now) }
{
    !(1..=BENCHES).contains(&usize::from(row.bench))
        || BENCHES <= rows.len()
        || has_bench(rows, row.bench)
}

// The fault of a row after others that have none: a bench that is not 1 to 8 or that stands there, or a ninth row. Every fault is 14.
pub fn row_fault(rows: &[RollRow], row: RollRow) -> Result<(), Refusal>
    ensures { number_of result ≡ 14 given row_faulty rows.now row (length rows.now) }
{
    if is_faulty(rows, row) {
        return Err(Refusal::FaultyRoll);
    }
    Ok(())
}

// THE FAULT of a roll: that of its first faulty row.
pub fn fault(rows: &[RollRow]) -> Result<(), Refusal>
    ensures { number_of result ≡ 14 given roll_faulty rows.now }
{
    for (i, row) in rows.iter().enumerate() {
        row_fault(&rows[..i], *row)?;
    }
    Ok(())
}
