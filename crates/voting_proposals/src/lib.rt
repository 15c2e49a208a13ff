// Making a proposal from a lent record and the bench's old proposal (document 01, "Proposals and votes", last paragraph).
#![tactic(auto)]

pub mod keeping;

ghost use Rattle.std.specs.Prelude.{◌≡◌, map, ◌≤◌, length};
ghost use Rattle.record.specs.Record as theory;
ghost use Rattle.record.specs.Stored.{stored};
ghost use Rattle.refusals.specs.Numbers.{Gives};
ghost use Rattle.record_tables.specs.Table.{decoded, unite};
ghost use Rattle.record_tables.specs.Checked.{Checked};
ghost use Rattle.record_rows.specs.grounds.Ground.{◌given◌, ◌orelse◌};
ghost use Rattle.voting.specs.Proposal.{proposed};
ghost use Rattle.voting_proposals.specs.Propose.{draft_fault, unkept, new_fault, over, Makes};

use record::Record;
use record_rows::element::Element;
use record_rows::row::{ConstraintRow, EditRow, LentRecord};
use refusals::Refusal;
use voting_drafts::draft;

// How many rows of each table are written.
#[derive(Clone, Copy)]
pub struct Proposed {
    pub edit_count: usize,
    pub constraint_count: usize,
}

// The finished proposal, not yet compared with the old one. both: the union of the record and the old proposal.
fn drafted(both: Record, old: Record) -> Result<Record, Refusal>
    ensures { (M Q : theory.Record) → both ≡ stored (unite M Q) → Checked (unite M Q) → old ≡ stored Q → Checked Q → Gives (draft_fault M Q) (stored (proposed M Q)) result }
{
    if !judgement::sound(old) {
        return Err(Refusal::Unsound);
    }
    let first = draft::started(both, old)?;
    let started = first.in_record(both);
    if !judgement::sound(started) {
        return Err(Refusal::Unsound);
    }
    let last = voting_decisions::finished(started)?;
    Ok(last.in_record(started))
}

// The finished proposal, if it keeps the old one.
fn made(both: Record, old: Record) -> Result<Record, Refusal>
    ensures { (M Q : theory.Record) → both ≡ stored (unite M Q) → Checked (unite M Q) → old ≡ stored Q → Checked Q
        → Gives (draft_fault M Q orelse 11 given unkept M Q) (stored (proposed M Q)) result }
{
    let new = drafted(both, old)?;
    if !keeping::keeps(old, new) {
        return Err(Refusal::NotKept);
    }
    Ok(new)
}

// The new proposal of four lent tables, before an output is looked at. Pub for the crates of this workspace that make proposals without lent outputs.
pub fn new_proposal(lent: LentRecord, old: LentRecord) -> Result<Record, Refusal>
    ensures { Gives (new_fault lent.entry.edits.now lent.entry.constraints.now old.entry.edits.now old.entry.constraints.now)
        (stored (proposed (decoded lent.entry.edits.now lent.entry.constraints.now) (decoded old.entry.edits.now old.entry.constraints.now))) result }
{
    let multilog = record_joining::lent(lent)?;
    let both = record_joining::merge(multilog, old)?;
    made(both, record_union::decode(old))
}

// The rows of edits or of constraints, written over the first of a table.
// Kept: a loop by place: array::from_fn makes whole arrays, and here the first rows of a lent table are written and its rest stays; of what is
// written through iter_mut with zip a proof is told nothing.
fn write_rows<const CELLS: usize, T: Element<CELLS>>(elements: &[T], table: &mut [[u32; CELLS]])
    requires { length elements.now ≤ length table.old }
    ensures { table.new ≡ over (map T.row_of elements.now) table.old }
{
    for (i, element) in elements.iter().enumerate() {
        table[i] = element.row();
    }
}

// Makes a proposal from a record and the bench's old proposal, and writes it over the first rows of two tables. Nothing is written before it is known
// that nothing is refused.
pub fn propose(
    lent: LentRecord,
    old: LentRecord,
    new_edits: &mut [EditRow],
    new_constraints: &mut [ConstraintRow],
) -> Result<Proposed, Refusal>
    ensures { Makes (record {
      edits = lent.entry.edits.now;
      constraints = lent.entry.constraints.now;
      old_edits = old.entry.edits.now;
      old_constraints = old.entry.constraints.now;
      new_edits = new_edits.old;
      new_constraints = new_constraints.old;
    }) result new_edits.new new_constraints.new }
{
    let new = new_proposal(lent, old)?;
    let n = new.edit_slice().len();
    let m = new.constraint_slice().len();
    if new_edits.len() < n || new_constraints.len() < m {
        return Err(Refusal::NoRoom);
    }
    write_rows(new.edit_slice(), new_edits);
    write_rows(new.constraint_slice(), new_constraints);
    Ok(Proposed {
        edit_count: n,
        constraint_count: m,
    })
}
