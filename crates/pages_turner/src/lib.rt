// The turner (document 01, "Entries and pages"): the open page and the last page, and a turn by a signed number of pages.
#![tactic(auto)]

pub mod turning;

ghost use Rattle.std.specs.Prelude.{◌≡◌};
ghost use Rattle.pages_turner.specs.Turn.{turn_of};

use record::EDITS;

#[derive(Clone, Copy, PartialEq, Eq)]
pub struct Turner {
    pub opened: usize,
    pub last: usize,
}

// The page that a turn opens, if there is one. The journal has a row for each edit of a record, so no later page is ever open.
// Kept: document 01 has one thin function per turn over a by-value step, and this is the step.
pub fn turn_step(opened: usize, last: usize, by: i32) -> Option<usize>
    ensures { result ≡ turn_of opened last by }
{
    if opened > EDITS {
        return None;
    }
    opened
        .checked_add_signed(by as isize)
        .filter(|page| *page <= last)
}
