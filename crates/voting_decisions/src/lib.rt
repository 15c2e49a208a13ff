// A proposal is finished (document 01, "Proposals and votes", last paragraph): the edits in the schedule are marked required, the others aborted,
// and the schedule's unordered pairs are ordered. Functions are pub for the crates of this workspace that make proposals.
#![tactic(auto)]

ghost use Rattle.std.specs.Prelude.{◌≡◌, true, List, ◌∷◌, Ok, ℕ};
ghost use Rattle.record.specs.declared.Constraint.{Constraint};
ghost use Rattle.record.specs.Record as theory;
ghost use Rattle.record.specs.Stored.{stored};
ghost use Rattle.record.specs.Judgement.{sound};
ghost use Rattle.lists.specs.Keyed.{Ascending, united};
ghost use Rattle.record_tables.specs.Table.{constraint_key};
ghost use Rattle.record_tables.specs.Checked.{Checked};
ghost use Rattle.graph.specs.indexes.Fit.{Fit};
ghost use Rattle.voting.specs.Proposal as proposal;
ghost use Rattle.record_joining.specs.insertion.Insertion.{table_of};
ghost use Rattle.voting_decisions.specs.Decisions.{Paged, decided, only_constraints};

use graph::indexes;
use graph::links::Marks;
use record::{CONSTRAINTS, Constraint, EDITS, ENABLES, Record};
use record_joining::insertion::Constraints;
use refusals::Refusal;
use voting_drafts::{pairs, ranking};

// So many constraints leave a place for a decision on each edit.
const UNDECIDED: usize = CONSTRAINTS - EDITS;

// The decision on an edit by its page.
fn decision(name: u16, page: u8) -> Constraint
    ensures { result ≡ decided name page }
{
    if page == 0 {
        return ranking::notafter(name, name);
    }
    Constraint {
        left: name,
        rule: ENABLES,
        right: 0,
    }
}

// The table joined by the decisions on all edits.
// Kept: a record and its pages are two arguments here and below: `Paged` names the rest of a schedule, which no field of a struct of both would give.
fn with_decisions(
    table: Constraints,
    multilog: Record,
    pages: &Marks,
) -> Result<Constraints, Refusal>
    ensures { (R : theory.Record) (rest index : List ℕ) (t : List Constraint) → multilog ≡ stored R → Fit R → Paged R rest index pages.now
        → Ok table ≡ table_of t → Ascending constraint_key t → result ≡ table_of (united constraint_key t (proposal.decisions (0 ∷ rest) (theory.written R))) }
{
    let mut out = table;
    for (i, edit) in multilog.edit_slice().iter().enumerate() {
        let c = decision(edit.name, pages[i + 1]);
        out = out.insert(c)?;
    }
    Ok(out)
}

// The decisions on all edits as the constraints of a record without edits.
// Kept: a loop by place. array::from_fn was tried: its closure, which reads a page one place after the edit's, has to require and to ensure what the
// loop needs no clause for.
fn decisions_of(multilog: Record, pages: &Marks) -> Record
    ensures { (R : theory.Record) (rest index : List ℕ) → multilog ≡ stored R → Fit R → Paged R rest index pages.now
        → result ≡ stored (only_constraints (proposal.decisions (0 ∷ rest) (theory.written R))) }
{
    let mut r = record::empty();
    let edits = multilog.edit_slice();
    for (i, edit) in edits.iter().enumerate() {
        r.constraints[i] = decision(edit.name, pages[i + 1]);
    }
    r.constraint_count = edits.len();
    r
}

// The record's constraints joined by the decisions on all edits: both are in order, and where they have places for sure one walk joins them.
fn decided_table(multilog: Record, pages: &Marks) -> Result<Constraints, Refusal>
    ensures { (R : theory.Record) (rest index : List ℕ) → multilog ≡ stored R → Checked R → Paged R rest index pages.now
        → result ≡ table_of (united constraint_key R.constraints (proposal.decisions (0 ∷ rest) (theory.written R))) }
{
    if UNDECIDED < multilog.constraint_count {
        return with_decisions(Constraints::of(multilog), multilog, pages);
    }
    let small = decisions_of(multilog, pages);
    Ok(Constraints::of(record_union::union(multilog, small)))
}

// The constraints of the finished proposal.
pub fn finished(multilog: Record) -> Result<Constraints, Refusal>
    ensures { (R : theory.Record) → multilog ≡ stored R → Checked R → sound R ≡ true → result ≡ table_of (proposal.finished R).constraints }
{
    let index = indexes::index_table(multilog);
    let paged = judgement::pages(multilog);
    let table = decided_table(multilog, &paged)?;
    let pairs = pairs::unordered_pairs(multilog);
    ranking::with_orders(
        table,
        pairs.slice(),
        |name| paged[index.index_of(usize::from(name))],
    )
}
