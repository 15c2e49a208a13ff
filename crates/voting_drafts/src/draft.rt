// The union of a record and the bench's old proposal, with what was settled first (document 01, "Proposals and votes", last paragraph).
// `started` is pub for the crates of this workspace that make proposals.
ghost use Rattle.std.specs.Prelude.{◌≡◌, get_or};
ghost use Rattle.record.specs.Record as theory;
ghost use Rattle.record.specs.Stored.{stored};
ghost use Rattle.lists.specs.Keyed.{united};
ghost use Rattle.record_tables.specs.Table.{constraint_key};
ghost use Rattle.record_tables.specs.Checked.{Checked};
ghost use Rattle.voting.specs.Proposal.{unordered, firsts};
ghost use Rattle.record_joining.specs.insertion.Insertion.{table_of};
ghost use Rattle.voting_drafts.specs.draft.Draft.{settled_rank};

use crate::{pairs, ranking};
use graph::indexes;
use graph::indexes::IndexTable;
use graph::links::Marks;
use record::Record;
use record_joining::insertion::Constraints;
use refusals::Refusal;

// What is settled ranks first. An edit that the old proposal does not know has the index of INIT, and is not settled.
fn settled_rank(index: &IndexTable, settled: &Marks, name: u16) -> u8
    ensures { result ≡ settled_rank settled.now (get_or index.now name 0) }
{
    let i = index.index_of(usize::from(name));
    if 0 < i && settled[i] == 1 { 1 } else { 2 }
}

// The constraints of the union with the rows "b notafter a".
pub fn started(both: Record, old: Record) -> Result<Constraints, Refusal>
    ensures { (U Q : theory.Record) → both ≡ stored U → Checked U → old ≡ stored Q → Checked Q
        → result ≡ table_of (united constraint_key U.constraints (firsts Q (unordered U))) }
{
    let index = indexes::index_table(old);
    let settled = judgement::settleds(old);
    let pairs = pairs::unordered_pairs(both);
    ranking::with_orders(
        Constraints::of(both),
        pairs.slice(),
        |name| settled_rank(&index, &settled, name),
    )
}
