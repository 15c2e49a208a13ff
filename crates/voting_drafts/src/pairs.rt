// The noncommuting pairs of a record with no order between them (document 01, "Proposals and votes", last paragraph). Functions are pub for
// the crates of this workspace that make proposals.
ghost use Rattle.std.specs.Prelude.{◌≡◌, not, ◌&&◌, ◌||◌, ◌≤◌, eqb, take};
ghost use Rattle.lists.specs.Lists.{◌among◌};
ghost use Rattle.record.specs.Record as theory;
ghost use Rattle.record.specs.Record.{names, notafter};
ghost use Rattle.record.specs.Stored.{stored, constraint_limit};
ghost use Rattle.graph.specs.links.Resolved.{Resolved};
ghost use Rattle.graph.specs.indexes.Fit.{Fit};
ghost use Rattle.graph.specs.indexes.Indexed.{Indexed};
ghost use Rattle.voting.specs.Proposal.{unordered};

use graph::indexes;
use graph::indexes::IndexTable;
use graph::links::{NOTAFTER_BASE, Rows};
use record::{CONSTRAINTS, Constraint, NONCOMMUTING, Record};

// Noncommuting pairs; nothing is said of the rows past the count.
// Kept: an array with its count: `voting::select` writes over the first rows of an array and gives their number.
#[derive(Clone, Copy)]
pub struct Pairs {
    pub rows: [Constraint; CONSTRAINTS],
    pub count: usize,
}

impl Pairs {
    // The pairs, without what stands after them.
    // Kept: as the slices of a record.
    pub fn slice(&self) -> &[Constraint]
        ensures { result.now ≡ take self.now.count self.now.rows }
    {
        &self.rows[..self.count.min(CONSTRAINTS)]
    }
}

// Whether a constraint is a noncommuting pair with no order; an order is a direct row.
fn is_unordered(c: Constraint, index: &IndexTable, rows: &Rows) -> bool
    ensures { (R : theory.Record) → Resolved R rows.now
        → Indexed R index.now → c.left among names R → c.right among names R
        → result ≡ (eqb c.rule 2 && not (notafter R c.left c.right || notafter R c.right c.left)) }
{
    if c.rule != NONCOMMUTING {
        return false;
    }
    let a = index.index_of(usize::from(c.left));
    let b = index.index_of(usize::from(c.right));
    !rows.leads_either_way(NOTAFTER_BASE, a, b)
}

// The pairs with no order, in the table's order.
pub fn unordered_pairs(multilog: Record) -> Pairs
    ensures few { result.count ≤ constraint_limit }
    ensures pairs { (R : theory.Record) → multilog ≡ stored R → Fit R → take result.count result.rows ≡ unordered R }
{
    let index = indexes::index_table(multilog);
    let graph = indexes::resolved(multilog);
    let mut rows = multilog.constraints;
    let count = voting::select(
        multilog.constraint_slice(),
        |c| is_unordered(c, &index, &graph.rows),
        &mut rows,
    );
    Pairs {
        rows,
        count: count.min(CONSTRAINTS),
    }
}
