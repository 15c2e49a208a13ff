// A proposal made from the records that the lines of a call log lend (document 01, "Proposals and votes").
ghost use Rattle.std.specs.Prelude.{◌≡◌};
ghost use Rattle.refusals.specs.Numbers.{Gives};
ghost use Rattle.record.specs.Record as theory;
ghost use Rattle.record.specs.Stored.{stored};
ghost use Rattle.record_rows.specs.grounds.Ground.{◌given◌};
ghost use Rattle.voting_proposals.specs.Propose.{too_short};
ghost use Rattle.log_lent.specs.Lent.{Lent};
ghost use Rattle.log_lent.specs.Kept.{Kept};
ghost use Rattle.log_lent.specs.lent_proposals.Made.{lent_proposal_fault, proposal_made};

use crate::Lending;
use log_commands::Proposing;
use record::Record;
use refusals::Refusal;

// A new proposal, if so many edits and rules have a place for it.
fn fitted(new: Record, edits: u32, rules: u32) -> Result<Record, Refusal>
    ensures { (P : theory.Record) → new ≡ stored P → Gives (12 given too_short edits rules P) (stored P) result }
{
    if (edits as usize) < new.edit_count || (rules as usize) < new.constraint_count {
        return Err(Refusal::NoRoom);
    }
    Ok(new)
}

// The new proposal that a line asks for. Whether it is kept, its caller sees to.
pub fn propose_lent(lending: &Lending, asked: Proposing) -> Result<Record, Refusal>
    ensures { (L : Lent) → Kept L lending.now → Gives (lent_proposal_fault L asked) (stored (proposal_made L asked)) result }
{
    let lent = crate::record_place(asked.lent)?;
    let old = crate::record_place(asked.old)?;
    let new = voting_proposals::new_proposal(lending.record(lent), lending.record(old))?;
    fitted(new, asked.edits, asked.rules)
}
