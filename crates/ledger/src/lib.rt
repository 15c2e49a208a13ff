// The bench in memory and the answers of its calls (document 01, "Entries and pages"). The specs hold the ledger, the promise that every call
// makes, and the undo rule; the calls' code stands in crates above.
#![tactic(auto)]

ghost use Rattle.std.specs.Prelude.{◌≡◌, Ok};
ghost use Rattle.voting.specs.Tally.{election_told};
ghost use Rattle.ledger.specs.Ledger.{accepted_answer, call_told};

use catalogue::{CHIP_CELLS, CHIP_PLACES, View};
use graph::links::Marks;
use pages_turner::Turner;
use record::{Record, Schedule};
use voting::ElectionResult;

// A bench: its record, the marks of its hidden edits, its schedule, its open and last page, and what the open pages make.
#[derive(Clone, Copy)]
pub struct Bench {
    pub multilog: Record,
    pub hidden: Marks,
    pub schedule: Schedule,
    pub turner: Turner,
    pub view: View<CHIP_CELLS, CHIP_PLACES>,
}

// What a call that is not refused answers: the pages undone and redone, and of an adoption the election.
// Kept: no Option: a `CallAnswer` has zeros where there is no election, and an adoption over an empty roll answers zeros too. None and that election
// would be told alike: from what is told a caller could not say which of the two was answered, and call-told-unique would be false. And
// print_adoption, which alone reads these numbers, would have to put the zeros back for None.
#[derive(Clone, Copy)]
pub struct CallResult {
    pub undone: usize,
    pub redone: usize,
    pub election: ElectionResult,
}

impl CallResult {
    // The answer of an accepted call, made here alone. Pub for the crates of the calls.
    pub fn accepted(undone: usize, redone: usize, election: ElectionResult) -> CallResult
        ensures { call_told (Ok result) ≡ accepted_answer undone redone (election_told (Ok election)) }
    {
        CallResult {
            undone,
            redone,
            election,
        }
    }
}
