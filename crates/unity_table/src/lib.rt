// How united the benches are (document 02, A9), from the answers of elections, handed in one by one or as a lent table.
#![tactic(auto)]

ghost use Rattle.std.specs.Prelude.{◌≡◌, false, ◌||◌, cond, [], map, ◌<◌, ◌≤◌};
ghost use Rattle.unity_table.specs.Unity as unity;
ghost use Rattle.unity_table.specs.Summed as held;

use fraction::Fraction;
use refusals::Refusal;

const ELECTION_LIMIT: usize = 200;
// Eight benches of the greatest weight.
const TOTAL_LIMIT: u64 = 8 * u16::MAX as u64;

// A row of a lent table: the weight of the greatest group, the silent weight and the whole roll's total.
pub type ElectionRow = [u32; 3];

// What an election answers, by the names of these columns.
#[derive(Clone, Copy)]
pub struct Weights {
    pub greatest: u64,
    pub silent: u64,
    pub total: u64,
}

impl From<ElectionRow> for Weights {
    ghost from_gives = { λ row weights. weights ≡ unity.weights_of row };

    fn from(row: ElectionRow) -> Weights {
        let [greatest, silent, total] = row;
        Weights {
            greatest: u64::from(greatest),
            silent: u64::from(silent),
            total: u64::from(total),
        }
    }
}

impl Weights {
    fn is_out_of_range(self) -> bool
        ensures { result ≡ unity.out_of_range self }
    {
        TOTAL_LIMIT < self.total || self.total < self.greatest.saturating_add(self.silent)
    }

    fn share(self) -> Fraction
        ensures { result ≡ unity.share_of self }
    {
        Fraction::lowest_terms(self.greatest, self.total)
    }
}

// The mean, the least and the greatest share, how many elections are won, and how many have total 0.
#[derive(Clone, Copy)]
pub struct Unity {
    pub mean: Fraction,
    pub least: Fraction,
    pub greatest: Fraction,
    pub won: usize,
    pub empty: usize,
}

// Why a table is refused: the ground of its first faulty row, and that row, from 1.
// Kept: beside `text_reader::Fault`, which says a line: C has a row in Unity and a line in Reply.
#[derive(Clone, Copy)]
pub struct RowFault {
    pub refusal: Refusal,
    pub row: usize,
}

// The least or the greatest share, with one more: the first one takes the place of 0/1, which is no share.
fn extreme(none: bool, before: bool, known: Fraction, share: Fraction) -> Fraction
    ensures { result ≡ cond (none || before) share known }
{
    if none || before { share } else { known }
}

// The answers so far: how many, the sum of their shares over the least common denominator, and how many shares that are.
// Kept: no Option for the least and the greatest: that there is none is what `entered == 0` says already, which the mean needs, so an Option would
// hold it twice; and the state's definition (`summed`) has the two definitions that are answered, 0/1 of no share (`least_fraction`,
// `greatest_fraction`), where it would need a test before each.
// Kept: `held.Left self`, `held.Room self`: with Left in the type its three clauses would go, and the three steps below would each have to
// ask that what they make is the state after one answer more, which with_answer shows only once all is tested. Room stays: not every state
// has a place left.
#[derive(Clone, Copy)]
pub struct Summed {
    pub rows: usize,
    pub sum: Fraction,
    pub least: Fraction,
    pub greatest: Fraction,
    pub entered: usize,
    pub won: usize,
    pub empty: usize,
}

impl Summed {
    pub fn nothing() -> Summed
        ensures { held.Open result [] }
    {
        let zero = Fraction {
            numerator: 0,
            denominator: 1,
        };
        Summed {
            rows: 0,
            sum: zero,
            least: zero,
            greatest: zero,
            entered: 0,
            won: 0,
            empty: 0,
        }
    }

    // One election with total 0 more.
    fn with_empty(self) -> Summed
        requires { held.Room self }
        ensures { result ≡ held.with_empty self }
    {
        Summed {
            rows: self.rows + 1,
            empty: self.empty + 1,
            ..self
        }
    }

    // One election more whose share enters the sum.
    fn with_sum(self, a: Weights, share: Fraction, sum: Fraction) -> Summed
        requires { held.Room self × (a.greatest ≤ unity.total_limit) }
        ensures { result ≡ held.with_sum self a share sum }
    {
        let none = self.entered == 0;
        let lower = share.is_below(self.least);
        let higher = self.greatest.is_below(share);
        Summed {
            rows: self.rows + 1,
            sum,
            least: extreme(none, lower, self.least, share),
            greatest: extreme(none, higher, self.greatest, share),
            entered: self.entered + 1,
            won: self.won + usize::from(a.total < 2 * a.greatest),
            ..self
        }
    }

    // The same, where the sum fits.
    fn with_share(self, a: Weights) -> Option<Summed>
        requires { held.Room self × ((unity.out_of_range a ≡ false) × (0 < a.total)) }
        ensures { result ≡ held.with_share self a }
    {
        let share = a.share();
        let sum = self.sum.plus(share)?;
        Some(self.with_sum(a, share, sum))
    }

    // The answers so far with one more. Pub for `unity_text`, which hands them in line by line.
    pub fn with_answer(self, a: Weights) -> Result<Summed, RowFault>
        requires { held.Left self }
        ensures { held.Adds self a result }
    {
        let row = self.rows + 1;
        if a.is_out_of_range() {
            return Err(RowFault {
                refusal: Refusal::OutOfRange,
                row,
            });
        }
        if ELECTION_LIMIT <= self.rows {
            return Err(RowFault {
                refusal: Refusal::NoPlace,
                row,
            });
        }
        if a.total == 0 {
            return Ok(self.with_empty());
        }
        let wide = RowFault {
            refusal: Refusal::TooWide,
            row,
        };
        self.with_share(a).ok_or(wide)
    }

    // The mean of the shares, where it fits. Of no shares the least one is 0/1, and so is the mean.
    fn mean(self) -> Option<Fraction>
        requires { held.Left self }
        ensures { held.Means self result }
    {
        if self.entered == 0 {
            return Some(self.least);
        }
        self.sum.divided(self.entered as u64)
    }

    // What all the answers come to: the last one is known to be the last. Pub for `unity_text`.
    pub fn finished(self) -> Result<Unity, RowFault>
        requires { held.Left self }
        ensures { held.Ends self result }
    {
        let wide = RowFault {
            refusal: Refusal::TooWide,
            row: self.rows,
        };
        let mean = self.mean().ok_or(wide)?;
        Ok(Unity {
            mean,
            least: self.least,
            greatest: self.greatest,
            won: self.won,
            empty: self.empty,
        })
    }
}

// HOW UNITED the benches are, from a lent table of answers.
pub fn unity_of(answers: &[ElectionRow]) -> Result<Unity, RowFault>
    ensures { unity.answer_told result ≡ unity.unity_of (map unity.weights_of answers.now) }
{
    let mut summed = Summed::nothing();
    for row in answers {
        summed = summed.with_answer(Weights::from(*row))?;
    }
    summed.finished()
}
