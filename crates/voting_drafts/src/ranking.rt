// A table joined by the orders of pairs, each by the ranks of its two edits. Functions are pub for `draft`, which ranks what was settled
// first, and `voting_decisions`, which ranks by the pages of a schedule.
ghost use Rattle.std.specs.Prelude.{◌≡◌, List, Ok, ℕ, flat_map};
ghost use Rattle.record.specs.declared.Constraint.{Constraint};
ghost use Rattle.lists.specs.Keyed.{Ascending, united};
ghost use Rattle.record_tables.specs.Table.{constraint_key};
ghost use Rattle.voting.specs.Proposal.{before};
ghost use Rattle.record_joining.specs.insertion.Insertion.{table_of};
ghost use Rattle.voting_drafts.specs.ranking.Ranking.{rank_order, pair_order};

use record::{Constraint, NOTAFTER};
use record_joining::insertion::Constraints;
use refusals::Refusal;

// The constraint "a notafter b".
pub fn notafter(a: u16, b: u16) -> Constraint
    ensures { result ≡ before a b }
{
    Constraint {
        left: a,
        rule: NOTAFTER,
        right: b,
    }
}

// The table joined by the order of a pair by its ranks.
// Kept: that the rows are in order is a premise here and below, as in `Constraints::insert`.
fn order_row(table: Constraints, c: Constraint, a: u8, b: u8) -> Result<Constraints, Refusal>
    ensures { (t : List Constraint) → Ok table ≡ table_of t → Ascending constraint_key t → result ≡ table_of (united constraint_key t (rank_order a b c.left c.right)) }
{
    if a == 0 {
        return Ok(table);
    }
    if b == 0 {
        return Ok(table);
    }
    if a < b {
        return table.insert(notafter(c.left, c.right));
    }
    if b < a {
        return table.insert(notafter(c.right, c.left));
    }
    Ok(table)
}

// The table joined by the orders of all pairs, which may be any.
// Kept: `F.IsAlwaysCallable` is a clause, since no bound says of a closure that it may be called with every name.
pub fn with_orders<F: Fn(u16) -> u8>(
    table: Constraints,
    pairs: &[Constraint],
    rank: F,
) -> Result<Constraints, Refusal>
    requires { F.IsAlwaysCallable rank }
    ensures { (t : List Constraint) (ranks : ℕ → ℕ) → ((x r : ℕ) → F.post rank x r → r ≡ ranks x)
        → Ok table ≡ table_of t → Ascending constraint_key t → result ≡ table_of (united constraint_key t (flat_map (pair_order ranks) pairs.now)) }
{
    let mut out = table;
    for c in pairs {
        out = order_row(out, *c, rank(c.left), rank(c.right))?;
    }
    Ok(out)
}
