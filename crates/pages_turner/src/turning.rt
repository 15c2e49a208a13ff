// The turner lent to each turn (document 01, "Entries and pages": "one small state changed by each turn").
ghost use Rattle.std.specs.Prelude.{◌≡◌};
ghost use Rattle.refusals.specs.Numbers.{number_of, Gives};
ghost use Rattle.pages_turner.specs.turning.Turning.{after_turn, turner_fault};

use crate::Turner;
use refusals::Refusal;

// THE TURN of a lent turner: its open page moves, its last page stays. A refused one changes nothing.
pub fn turn(turner: &mut Turner, by: i32) -> Result<(), Refusal>
    ensures number { number_of result ≡ turner_fault turner.old by }
    ensures after { turner.new ≡ after_turn turner.old by }
{
    turner.opened = crate::turn_step(turner.opened, turner.last, by).ok_or(Refusal::NoPage)?;
    Ok(())
}

// A turner by value, lent to the turn. Pub for `bench`, whose own turner moves with its view.
pub fn turned(turner: Turner, by: i32) -> Result<Turner, Refusal>
    ensures { Gives (turner_fault turner by) (after_turn turner by) result }
{
    let mut after = turner;
    turn(&mut after, by)?;
    Ok(after)
}
