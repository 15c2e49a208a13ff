// What the benchmark calls (benchmark/): a judgement, a schedule, a merge, an election and a reason on lent tables, as numbers; of a reason its line too.
// Kept: `constraints`, `edits`: the two tables of a record apart, as C lends them to the symbols of `benchmark_entry_c`, which are these functions under
// the same clauses.
// Kept: an answer is made by a match in the one function that gives it. A `From` for each would be four impls, each with a clause, called once;
// `c_library` has one for its `Reply`, which several functions make.
#![tactic(auto)]

ghost use Rattle.std.specs.Prelude.{◌≡◌};
ghost use Rattle.benchmark_entry.specs.Measured.{judged_numbers, judgement_numbers, scheduled_of, merged_of, elected_of, explained_of};
ghost use Rattle.text_reasons.specs.ReasonLine.{explained_out};

use graph::links::{MARKS, Marks};
use judgement::lent_record;
use judgement::lent_record::Judgement;
use record_rows::row::{ConstraintRow, EditRow, LentRecord};
use voting::{BENCHES, RollRow};
use voting_count::Poll;

// The marks of a record's edits.
// Kept: a number beside the values, which C reads.
#[repr(C)]
#[derive(Clone, Copy)]
pub struct Judged {
    pub number: u32,
    pub must: Marks,
    pub never: Marks,
    pub settled: Marks,
    pub place: Marks,
}

// How many pages the bench schedule has.
// Kept: a number beside the values, which C reads.
#[repr(C)]
#[derive(Clone, Copy)]
pub struct Scheduled {
    pub number: u32,
    pub count: usize,
}

// The answer to a merge.
// Kept: a number beside the values, which C reads.
#[repr(C)]
#[derive(Clone, Copy)]
pub struct Merged {
    pub number: u32,
    pub undone: usize,
    pub redone: usize,
}

// The answer of an election; won is 1, otherwise 0.
// Kept: a number beside the values, which C reads.
#[repr(C)]
#[derive(Clone, Copy)]
pub struct Elected {
    pub number: u32,
    pub won: u32,
    pub greatest: u32,
    pub silent: u32,
    pub total: u32,
}

// How many bytes of a line were written.
// Kept: a number beside the values, which C reads.
#[repr(C)]
#[derive(Clone, Copy)]
pub struct Explained {
    pub number: u32,
    pub size: usize,
}

pub fn measure_judgement(edits: &[EditRow], constraints: &[ConstraintRow]) -> Judged
    ensures { result ≡ judged_numbers edits.now constraints.now }
{
    match lent_record::judge_lent(LentRecord { edits, constraints }) {
        Ok(judgement) => judgement_numbers(judgement),
        Err(refusal) => Judged {
            number: refusal.number(),
            must: [0; MARKS],
            never: [0; MARKS],
            settled: [0; MARKS],
            place: [0; MARKS],
        },
    }
}

fn judgement_numbers(judgement: Judgement) -> Judged
    ensures { result ≡ judgement_numbers judgement }
{
    let Judgement {
        must,
        never,
        settled,
        place,
        ..
    } = judgement;
    Judged {
        number: 0,
        must,
        never,
        settled,
        place,
    }
}

pub fn measure_schedule(edits: &[EditRow], constraints: &[ConstraintRow]) -> Scheduled
    ensures { result ≡ scheduled_of edits.now constraints.now }
{
    match lent_record::schedule_lent(LentRecord { edits, constraints }) {
        Ok(schedule) => Scheduled {
            number: 0,
            count: schedule.count,
        },
        Err(refusal) => Scheduled {
            number: refusal.number(),
            count: 0,
        },
    }
}

// An empty bench merges one record, then another.
pub fn measure_merge(
    edits: &[EditRow],
    constraints: &[ConstraintRow],
    others: &[EditRow],
    other_constraints: &[ConstraintRow],
) -> Merged
    ensures { result ≡ merged_of edits.now constraints.now others.now other_constraints.now }
{
    let mut bench = bench::empty_bench();
    let _ = bench_edits::merge(&mut bench, LentRecord { edits, constraints });
    let other = LentRecord {
        edits: others,
        constraints: other_constraints,
    };
    match bench_edits::merge(&mut bench, other) {
        Ok(answer) => Merged {
            number: 0,
            undone: answer.undone,
            redone: answer.redone,
        },
        Err(refusal) => Merged {
            number: refusal.number(),
            undone: 0,
            redone: 0,
        },
    }
}

// Benches 1 to 8, each of weight 1.
// Kept: the rows written out: they are a constant, and `array::from_fn` could not give one. Made in the call they would be made within the time that
// the benchmark measures.
const EQUAL_SEATS: [RollRow; BENCHES] = [
    RollRow {
        bench: 1,
        weight: 1,
    },
    RollRow {
        bench: 2,
        weight: 1,
    },
    RollRow {
        bench: 3,
        weight: 1,
    },
    RollRow {
        bench: 4,
        weight: 1,
    },
    RollRow {
        bench: 5,
        weight: 1,
    },
    RollRow {
        bench: 6,
        weight: 1,
    },
    RollRow {
        bench: 7,
        weight: 1,
    },
    RollRow {
        bench: 8,
        weight: 1,
    },
];

// Benches 1 to 4 lend one record, benches 5 to 8 its rival.
pub fn measure_election<'a>(
    edit: u32,
    edits: &'a [EditRow],
    constraints: &'a [ConstraintRow],
    rivals: &'a [EditRow],
    rival_constraints: &'a [ConstraintRow],
) -> Elected
    ensures { result ≡ elected_of edit edits.now constraints.now rivals.now rival_constraints.now }
{
    let one = LentRecord { edits, constraints };
    let rival = LentRecord {
        edits: rivals,
        constraints: rival_constraints,
    };
    let proposals = [one, one, one, one, rival, rival, rival, rival];
    let poll = Poll {
        proposals,
        roll: &EQUAL_SEATS,
    };
    match voting_count::election(edit, &poll) {
        Ok(answer) => Elected {
            number: 0,
            won: u32::from(answer.won),
            greatest: answer.greatest,
            silent: answer.silent,
            total: answer.total,
        },
        Err(refusal) => Elected {
            number: refusal.number(),
            won: 0,
            greatest: 0,
            silent: 0,
            total: 0,
        },
    }
}

// The line that tells why an edit must stand, or can never stand, at the start of out.
pub fn measure_reason(
    edit: u32,
    edits: &[EditRow],
    constraints: &[ConstraintRow],
    out: &mut [u8],
) -> Explained
    ensures answer { result ≡ explained_of edit edits.now constraints.now out.old }
    ensures bytes { out.new ≡ explained_out edits.now constraints.now edit 0 out.old }
{
    match text_reasons::explain(LentRecord { edits, constraints }, edit, out, 0) {
        Ok(size) => Explained { number: 0, size },
        Err(refusal) => Explained {
            number: refusal.number(),
            size: 0,
        },
    }
}
