// Bundles (document 01, "Proposals and votes"): the bundle of an edit, whether it is eligible, and both asked of a lent record.
#![tactic(auto)]

pub mod bundling;
pub mod equality;

ghost use Rattle.std.specs.Prelude.{◌≡◌, ℕ, Bool, ◌+◌, length};
ghost use Rattle.record.specs.Record as theory;
ghost use Rattle.lists.specs.Lists.{all, ◌among◌};
ghost use Rattle.record.specs.Stored.{stored};
ghost use Rattle.record.specs.Judgement.{settled};
ghost use Rattle.graph.specs.links.Marks.{marks_of};
ghost use Rattle.graph.specs.indexes.Fit.{Fit};
ghost use Rattle.voting.specs.Bundle as vote;
ghost use Rattle.refusals.specs.Numbers.{Gives};
ghost use Rattle.record_tables.specs.Table.{decoded};
ghost use Rattle.judgement.specs.lent_edit.Asked.{lent_edit_fault};
ghost use Rattle.voting_bundles.specs.Bundles.{bundle_answer, bundle_told};

use bundling::Bundling;
use graph::links::Marks;
use judgement::lent_edit;
use record::Record;
use record_rows::row::LentRecord;
use refusals::Refusal;

// The bundle of an edit that the record knows. It is safe for any record and edit.
pub fn bundle(multilog: Record, name: u16) -> Record
    ensures { (R : theory.Record) → multilog ≡ stored R → Fit R → name among theory.written R → result ≡ stored (vote.bundle R name) }
{
    Bundling::new(multilog).bundle(name)
}

// Whether the edits at the indexes from 1 on are marked, as many as there are edits.
fn every_marked(marks: &Marks, edits: usize) -> bool
    ensures { (R : theory.Record) (test : ℕ → Bool) → edits + 1 ≡ length (theory.names R) → marks.now ≡ marks_of R test → result ≡ all test (theory.written R) }
{
    marks.iter().skip(1).take(edits).all(|mark| *mark == 1)
}

// Whether each edit of a record is settled in it: of a bundle, whether it is eligible.
pub fn all_settled(multilog: Record) -> bool
    ensures { (R : theory.Record) → multilog ≡ stored R → Fit R → result ≡ all (settled R) (theory.written R) }
{
    every_marked(&judgement::settleds(multilog), multilog.edit_slice().len())
}

// The bundle of an edit, and whether it is eligible.
#[derive(Clone, Copy)]
pub struct Bundled {
    pub eligible: bool,
    pub bundle: Record,
}

// The bundle of an edit in a lent record.
fn small_of(lent: LentRecord, edit: u32) -> Result<Record, Refusal>
    ensures { Gives (lent_edit_fault lent.entry.edits.now lent.entry.constraints.now edit) (stored (vote.bundle (decoded lent.entry.edits.now lent.entry.constraints.now) edit)) result }
{
    let known = lent_edit::lent_edit(lent, edit)?;
    Ok(bundle(known.multilog, known.name))
}

// THE BUNDLE of an edit in a lent record, and whether it is eligible.
pub fn lent_bundle(lent: LentRecord, edit: u32) -> Result<Bundled, Refusal>
    ensures { bundle_told result ≡ bundle_answer lent.entry.edits.now lent.entry.constraints.now edit }
{
    let bundle = small_of(lent, edit)?;
    Ok(Bundled {
        eligible: all_settled(bundle),
        bundle,
    })
}
