// Elections over eight lent proposals and a roll (document 01, "Proposals and votes" and "What is turned away"). The roll's rows are counted one by one,
// and before the first and after each the tally holds the election's answer on the rows so far (document 02, A4).
#![tactic(auto)]

ghost use Rattle.std.specs.Prelude.{◌≡◌, ◌≤◌, true, not, [], IfOk};
ghost use Rattle.std.proofs.Math.Option.{none};
ghost use Rattle.record.specs.Record as theory;
ghost use Rattle.lists.specs.Lists.{any, all, mem};
ghost use Rattle.record.specs.Stored.{stored};
ghost use Rattle.record.specs.Judgement.{sound};
ghost use Rattle.refusals.specs.Numbers.{number, number_of, Gives};
ghost use Rattle.record_rows.specs.grounds.Ground.{◌given◌, ◌orelse◌};
ghost use Rattle.record_tables.specs.Table.{names_of};
ghost use Rattle.record_tables.specs.Checked.{Checked};
ghost use Rattle.voting.specs.Bundle as vote;
ghost use Rattle.voting.specs.Tally.{winner, election_told};
ghost use Rattle.voting_roll.specs.Roll.{roll_faulty};
ghost use Rattle.voting_tally.specs.Groups.{cast_of, tally_of, held_bundle};
ghost use Rattle.voting_roll.specs.Election.{Proposals, held, proposal_fault, first_given, benches, cast, election_fault, election_of};
ghost use Rattle.voting_count.specs.Count.{lent, Faultless, count_told, count_of};
ghost use Rattle.voting_count.specs.Tallied.{tallied_told, tallied_of};
ghost use Rattle.voting_count.specs.Counting.{decoded_proposals, known_name_fault, counting_of, counted_roll_of};

use arrayvec::ArrayVec;
use record::Record;
use record_rows::row;
use record_rows::row::{EditRow, LentRecord};
use record_tables::lookup;
use refusals::Refusal;
use voting::{BENCHES, ElectionResult, RollRow};
use voting_tally::{Cast, Tally, Vote};

// The proposals of the eight benches, an empty one for a bench that has none.
pub type LentProposals<'a> = [LentRecord<'a>; BENCHES];

// The proposals of the eight benches and the rows of the roll.
#[derive(Clone, Copy)]
pub struct Poll<'a> {
    pub proposals: LentProposals<'a>,
    pub roll: &'a [RollRow],
}

// How many answers a tally gives at most: before the first row of the roll and after each.
pub const ANSWERS: usize = BENCHES + 1;

// The election's answers on the rows so far, one after the other.
pub type AnswersSoFar = ArrayVec<ElectionResult, ANSWERS>;

// What an election comes to, and the won bundle; none while it is open.
// Kept: `won` stands beside the bundle, for an election that is answered without its bundle (`election`) says it too. That both agree follows from
// the two clauses of `count` and is a clause where it is used (`log_lent`); as a field of this struct it would be a third place for it.
#[derive(Clone, Copy)]
pub struct Counted {
    pub election: ElectionResult,
    pub bundle: Option<Record>,
}

// The count of a roll's rows: what the election comes to, and its answers before the first of them and after each. Without their tally: its bundles,
// one to each bench, would be set to zeros wherever a caller has a place for them, also for a call that is refused.
#[derive(Drop)]
struct CountedRoll {
    counted: Counted,
    answers: AnswersSoFar,
}

fn silent() -> Cast
    ensures { result ≡ cast_of none }
{
    Cast {
        vote: Vote::Silent,
        bundle: record::empty(),
    }
}

// The vote of a bench that holds this proposal: the edit's eligible bundle in it, otherwise silent.
fn vote_of(proposal: Record, name: u16) -> Cast
    ensures { (R : theory.Record) → proposal ≡ stored R → Checked R → result ≡ cast_of (vote.vote R name) }
{
    if !lookup::knows(proposal, name) {
        return silent();
    }
    let small = voting_bundles::bundle(proposal, name);
    if !voting_bundles::all_settled(small) {
        return silent();
    }
    Cast {
        vote: Vote::Bundle,
        bundle: small,
    }
}

// The fault of the first faulty row of the proposals, by bench.
// Kept: that there is none (`Faultless`) is a premise below: a type for it would hold the same eight loans under a second name.
fn proposals_fault(proposals: &LentProposals) -> Result<(), Refusal>
    ensures { number_of result ≡ first_given (proposal_fault (lent proposals.now)) benches }
{
    for proposal in proposals {
        record_union::refusal::lent_fault(*proposal)?;
    }
    Ok(())
}

// Whether a row of a lent table has this name.
fn has_name(edits: &[EditRow], name: u16) -> bool
    ensures { result ≡ mem name (names_of edits.now) }
{
    edits.iter().any(|row| row[0] == u32::from(name))
}

// Whether an edit is known: any of the eight proposals has it. Rows without fault have the names of the proposal that they are.
fn is_known(proposals: &LentProposals, name: u16) -> bool
    ensures { Faultless (lent proposals.now) → result ≡ any (λ k. mem name (theory.written (held (lent proposals.now) k))) benches }
{
    proposals
        .iter()
        .any(|proposal| has_name(proposal.edits, name))
}

// The name of an edit that a proposal knows.
fn known_name(edit: u32, proposals: &LentProposals) -> Result<u16, Refusal>
    ensures { Faultless (lent proposals.now) → Gives (known_name_fault edit (lent proposals.now)) edit result }
{
    let name = row::name(edit)?;
    if !is_known(proposals, name) {
        return Err(Refusal::Unknown);
    }
    Ok(name)
}

// Whether all eight proposals are sound, those off the roll too; the table then holds them. Each is judged as soon as it is decoded, so that those after
// the first that is not sound are never decoded.
fn decode_sound(proposals: &LentProposals, records: &mut [Record; BENCHES]) -> bool
    ensures judged { Faultless (lent proposals.now) → result ≡ all (λ k. sound (held (lent proposals.now) k)) benches }
    ensures decoded { Faultless (lent proposals.now) → result ≡ true → records.new ≡ decoded_proposals (lent proposals.now) }
{
    for (k, proposal) in proposals.iter().enumerate() {
        let record = record_union::decode(*proposal);
        if !judgement::sound(record) {
            return false;
        }
        records[k] = record;
    }
    true
}

// The vote of a bench: that of its proposal.
fn vote_in(name: u16, proposals: &[Record; BENCHES], bench: u8) -> Cast
    ensures { (P : Proposals) → Faultless P → proposals.now ≡ decoded_proposals P → 1 ≤ bench → bench ≤ 8 → result ≡ cast_of (vote.vote (held P bench) name) }
{
    let k = usize::from(bench).clamp(1, BENCHES) - 1;
    vote_of(proposals[k], name)
}

// The tally of a roll's rows, in one walk: a row without fault is handed in to the tally, and the answer on the rows so far is kept; at the first faulty
// one all is refused. Benches off the roll cast no vote. The tally is lent without votes, since what `count_rows` hands on does not hold it; of a roll
// that is refused nobody reads it, so that no clause says what it holds then.
fn tally_rows(
    name: u16,
    proposals: &[Record; BENCHES],
    roll: &[RollRow],
    tally: &mut Tally,
) -> Result<AnswersSoFar, Refusal>
    ensures { (P : Proposals) → Faultless P → proposals.now ≡ decoded_proposals P → tally.old ≡ tally_of []
        → (number_of result ≡ 14 given roll_faulty roll.now) × IfOk result (λ answers. record { tally = tally.new; answers = answers } ≡ counting_of name P roll.now) }
{
    let mut answers = AnswersSoFar::new();
    answers.push(tally.election);
    for (i, row) in roll.iter().enumerate() {
        voting_roll::row_fault(&roll[..i], *row)?;
        let cast = vote_in(name, proposals, row.bench);
        tally.add_vote(row.weight, &cast);
        answers.push(tally.election);
    }
    Ok(answers)
}

// The count of a roll's rows: what their tally holds in the end, and its answers.
fn count_rows(
    name: u16,
    proposals: &[Record; BENCHES],
    roll: &[RollRow],
) -> Result<CountedRoll, Refusal>
    ensures { (P : Proposals) → Faultless P → proposals.now ≡ decoded_proposals P → Gives (14 given roll_faulty roll.now) (counted_roll_of name P roll.now) result }
{
    let mut tally = voting_tally::no_votes();
    let answers = tally_rows(name, proposals, roll, &mut tally)?;
    Ok(CountedRoll {
        counted: Counted {
            election: tally.election,
            bundle: tally.won_bundle(),
        },
        answers,
    })
}

// The refusal of a call for a fault of the whole: a fault of the roll comes before it.
fn after_roll(roll: &[RollRow], refusal: Refusal) -> Refusal
    ensures { number result ≡ 14 given roll_faulty roll.now orelse number refusal }
{
    match voting_roll::fault(roll) {
        Ok(()) => refusal,
        Err(fault) => fault,
    }
}

// The count of an election on a known edit, where no row of the proposals has a fault.
// Not inlined: its table of records and its tally are set to zeros on entry, which a call that is refused before would pay for too.
#[inline(never)]
fn count_sound(name: u16, poll: &Poll) -> Result<CountedRoll, Refusal>
    ensures { Faultless (lent poll.now.proposals) → Gives (14 given roll_faulty poll.now.roll.now orelse 8 given not (all (λ k. sound (held (lent poll.now.proposals) k)) benches))
        (counted_roll_of name (lent poll.now.proposals) poll.now.roll.now) result }
{
    let mut proposals = [record::empty(); BENCHES];
    if !decode_sound(&poll.proposals, &mut proposals) {
        return Err(after_roll(poll.roll, Refusal::Unsound));
    }
    count_rows(name, &proposals, poll.roll)
}

// The count of an election on an edit. The grounds: rows of the proposals by bench, the roll, then the faults of the whole call. These are looked for
// before a vote is made; where there is one, the roll is walked for its own fault alone.
fn counting_for(edit: u32, poll: &Poll) -> Result<CountedRoll, Refusal>
    ensures { Gives (election_fault edit (lent poll.now.proposals) poll.now.roll.now) (counted_roll_of edit (lent poll.now.proposals) poll.now.roll.now) result }
{
    proposals_fault(&poll.proposals)?;
    let name = match known_name(edit, &poll.proposals) {
        Ok(name) => name,
        Err(refusal) => return Err(after_roll(poll.roll, refusal)),
    };
    count_sound(name, poll)
}

// THE COUNT of an election on an edit.
pub fn count(edit: u32, poll: &Poll) -> Result<Counted, Refusal>
    ensures told { count_told result ≡ count_of edit (lent poll.now.proposals) poll.now.roll.now }
    ensures bundle { IfOk result (λ c. c.bundle ≡ held_bundle (winner (cast edit (lent poll.now.proposals) poll.now.roll.now))) }
{
    Ok(counting_for(edit, poll)?.counted)
}

// THE ANSWER of an election on an edit.
pub fn election(edit: u32, poll: &Poll) -> Result<ElectionResult, Refusal>
    ensures { election_told result ≡ election_of edit (lent poll.now.proposals) poll.now.roll.now }
{
    Ok(counting_for(edit, poll)?.counted.election)
}

// THE ANSWERS SO FAR of an election on an edit: before the first row of the roll and after each.
pub fn tally(edit: u32, poll: &Poll) -> Result<AnswersSoFar, Refusal>
    ensures { tallied_told result ≡ tallied_of edit (lent poll.now.proposals) poll.now.roll.now }
{
    Ok(counting_for(edit, poll)?.answers)
}
