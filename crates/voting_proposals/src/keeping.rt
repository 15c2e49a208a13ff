// Whether a new proposal keeps an old one (document 01, "Proposals and votes", last paragraph). Functions are pub for the crates of this workspace
// that make proposals.
ghost use Rattle.std.specs.Prelude.{◌≡◌, not, ◌&&◌, ◌||◌};
ghost use Rattle.lists.specs.Lists.{◌among◌, ◌within◌};
ghost use Rattle.record.specs.Record as theory;
ghost use Rattle.record.specs.Stored.{stored};
ghost use Rattle.graph.specs.indexes.Fit.{Fit};
ghost use Rattle.voting.specs.Bundle as vote;
ghost use Rattle.voting.specs.Tally.{same_bundle};
ghost use Rattle.voting.specs.Proposal as proposal;

use record::Record;
use voting_bundles::bundling::Bundling;
use voting_bundles::equality;

// Whether the old bundle of an edit that both proposals know is kept by the new one. Whether it is eligible is asked of the old one only, and only
// where they differ: an equal bundle is as eligible as the old one.
fn is_kept(old: &Bundling, new: &Bundling, name: u16) -> bool
    ensures { (Q P : theory.Record) → old.now ≡ stored Q → Fit Q → new.now ≡ stored P → Fit P → name among theory.written Q → name among theory.written P
        → result ≡ (not (vote.eligible Q name) || same_bundle (vote.bundle P name) (vote.bundle Q name) && vote.eligible P name) }
{
    let before = old.bundle(name);
    let after = new.bundle(name);
    if equality::same_bundle(&after, &before) {
        return true;
    }
    !voting_bundles::all_settled(before)
}

// Each edit of the old proposal with an eligible bundle has the same in the new one, still eligible. The new one knows the edits of the old.
pub fn keeps(old: Record, new: Record) -> bool
    ensures { (Q P : theory.Record) → old ≡ stored Q → Fit Q → new ≡ stored P → Fit P → theory.written Q within theory.written P → result ≡ proposal.keeps Q P }
{
    let old_bundles = Bundling::new(old);
    let new_bundles = Bundling::new(new);
    old.edit_slice()
        .iter()
        .all(|edit| is_kept(&old_bundles, &new_bundles, edit.name))
}
