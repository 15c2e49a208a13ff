// The tally of an election (document 01, "Proposals and votes"). It takes the votes one by one, each handed in once, and after each it holds
// the election's answer on the votes so far. Functions are pub for the crates of this workspace that count elections.
#![tactic(auto)]

ghost use Rattle.std.specs.Prelude.{◌≡◌, List, [], ◌∷◌, ◌++◌, map, ◌*◌, ◌≤◌, ◌<◌, ltb, length, take, unwrap_or, IfSome};
ghost use Rattle.std.proofs.Math.Option.{Option, none, some};
ghost use Rattle.record.specs.Record as theory;
ghost use Rattle.record.specs.Stored.{stored};
ghost use Rattle.voting.specs.Tally.{Ballot, total, winner};
ghost use Rattle.voting_tally.specs.Groups.{place, group_in, cast_of, tally_of, result_by, held_bundle};

use record::Record;
use voting::{BENCHES, ElectionResult};
use voting_bundles::equality;

// Kept: document 01 has the tally take the vote apart by let .. else, silent weight in the else branch, bundle beside the enum.
#[derive(Clone, Copy)]
pub enum Vote {
    Silent,
    Bundle,
}

#[derive(Clone, Copy)]
pub struct Cast {
    pub vote: Vote,
    pub bundle: Record,
}

// Equal bundles and the weight of their votes.
#[derive(Clone, Copy)]
pub struct Group {
    pub bundle: Record,
    pub weight: u32,
}

// The groups in the order of their first votes, and the answer so far. Groups past the count hold a filler.
// Kept: an array with its count, which the specification names (tally_of). An ArrayVec of the library fills its places with a Default too, so that
// Group and Record would get one as well, and it is no Copy.
#[derive(Clone, Copy)]
pub struct Tally {
    pub groups: [Group; BENCHES],
    pub count: usize,
    pub election: ElectionResult,
}

// Won when 2 × the group's weight > the whole roll's weight.
fn is_won(weight: u32, whole: u32) -> bool
    ensures { result ≡ ltb whole (2 * weight) }
{
    u64::from(whole) < 2 * u64::from(weight)
}

fn answer(greatest: u32, silent: u32, total: u32) -> ElectionResult
    ensures { result ≡ result_by greatest silent total }
{
    ElectionResult {
        won: is_won(greatest, total),
        greatest,
        silent,
        total,
    }
}

// The tally before the first vote.
pub fn no_votes() -> Tally
    ensures { result ≡ tally_of [] }
{
    let filler = Group {
        bundle: record::empty(),
        weight: 0,
    };
    Tally {
        groups: [filler; BENCHES],
        count: 0,
        election: answer(0, 0, 0),
    }
}

// The place of a bundle's group.
fn place_of(groups: &[Group], bundle: &Record) -> Option<usize>
    ensures low { IfSome result (λ i. i < length groups.now) }
    ensures is { (l : List Ballot) (bundles : List theory.Record) (C : theory.Record) → groups.now ≡ map (group_in l) bundles → bundle.now ≡ stored C
        → unwrap_or result (length bundles) ≡ place C bundles }
{
    groups
        .iter()
        .position(|group| equality::same_bundle(bundle, &group.bundle))
}

impl Tally {
    // Its groups, without the filler.
    // Kept: as the slices of a record, one line over a field and its count.
    pub fn group_slice(&self) -> &[Group]
        ensures { result.now ≡ take self.now.count self.now.groups }
    {
        &self.groups[..self.count.min(BENCHES)]
    }

    // Kept: a premise names the ballots so far, here and below: many lists of ballots come to one tally, so that no view gives the list. The sum of
    // eight votes is at most eight times 65535, 524280.
    fn add_silent(&mut self, weight: u16)
        ensures { (l : List Ballot) → self.old ≡ tally_of l → total l ≤ 524280 → self.new ≡ tally_of (l ++ (record { weight = weight; vote = none } ∷ [])) }
    {
        let e = self.election;
        let weight = u32::from(weight);
        self.election = answer(
            e.greatest,
            e.silent.saturating_add(weight),
            e.total.saturating_add(weight),
        );
    }

    fn add_bundle(&mut self, weight: u16, bundle: &Record)
        ensures { (l : List Ballot) (C : theory.Record) → self.old ≡ tally_of l → length l < 8 → total l ≤ 524280 → bundle.now ≡ stored C
            → self.new ≡ tally_of (l ++ (record { weight = weight; vote = some C } ∷ [])) }
    {
        let n = self.count;
        if BENCHES <= n {
            return;
        }
        let e = self.election;
        let weight = u32::from(weight);
        let i = place_of(self.group_slice(), bundle).unwrap_or(n);
        let weight_so_far = self.groups[i].weight;
        let more = weight_so_far.saturating_add(weight);
        self.groups[i] = Group {
            bundle: *bundle,
            weight: more,
        };
        self.count = n.max(i + 1);
        self.election = answer(
            e.greatest.max(more),
            e.silent,
            e.total.saturating_add(weight),
        );
    }

    // THE TALLY with one vote more.
    pub fn add_vote(&mut self, weight: u16, cast: &Cast)
        ensures { (weight ≤ 65535) × ((l : List Ballot) (v : Option theory.Record) → self.old ≡ tally_of l → length l < 8 → total l ≤ 524280 → cast.now ≡ cast_of v
            → self.new ≡ tally_of (l ++ (record { weight = weight; vote = v } ∷ []))) }
    {
        let vote = cast.vote;
        let Vote::Bundle = vote else {
            self.add_silent(weight);
            return;
        };
        self.add_bundle(weight, &cast.bundle);
    }

    // The won bundle; none while the election is open.
    pub fn won_bundle(&self) -> Option<Record>
        ensures { (l : List Ballot) → self.now ≡ tally_of l → result ≡ held_bundle (winner l) }
    {
        let whole = self.election.total;
        let winner = self
            .group_slice()
            .iter()
            .find(|group| is_won(group.weight, whole));
        winner.map(|group| group.bundle)
    }
}
