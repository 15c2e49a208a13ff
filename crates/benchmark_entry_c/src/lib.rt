// The C symbols that the benchmark calls (benchmark/): each is the function of `benchmark_entry` of its name, under the same clauses.
#![tactic(auto)]

ghost use Rattle.std.specs.Prelude.{◌≡◌};
ghost use Rattle.benchmark_entry.specs.Measured.{judged_numbers, scheduled_of, merged_of, elected_of, explained_of};
ghost use Rattle.text_reasons.specs.ReasonLine.{explained_out};

use benchmark_entry::{Elected, Explained, Judged, Merged, Scheduled};
use record_rows::row::{ConstraintRow, EditRow};

// Kept: `constraints`, `edits`: C lends the two tables of a record apart.

#[unsafe(no_mangle)]
pub extern "C" fn measure_judgement(edits: &[EditRow], constraints: &[ConstraintRow]) -> Judged
    ensures { result ≡ judged_numbers edits.now constraints.now }
{
    benchmark_entry::measure_judgement(edits, constraints)
}

#[unsafe(no_mangle)]
pub extern "C" fn measure_schedule(edits: &[EditRow], constraints: &[ConstraintRow]) -> Scheduled
    ensures { result ≡ scheduled_of edits.now constraints.now }
{
    benchmark_entry::measure_schedule(edits, constraints)
}

#[unsafe(no_mangle)]
pub extern "C" fn measure_merge(
    edits: &[EditRow],
    constraints: &[ConstraintRow],
    others: &[EditRow],
    other_constraints: &[ConstraintRow],
) -> Merged
    ensures { result ≡ merged_of edits.now constraints.now others.now other_constraints.now }
{
    benchmark_entry::measure_merge(edits, constraints, others, other_constraints)
}

#[unsafe(no_mangle)]
pub extern "C" fn measure_election<'a>(
    edit: u32,
    edits: &'a [EditRow],
    constraints: &'a [ConstraintRow],
    rivals: &'a [EditRow],
    rival_constraints: &'a [ConstraintRow],
) -> Elected
    ensures { result ≡ elected_of edit edits.now constraints.now rivals.now rival_constraints.now }
{
    benchmark_entry::measure_election(edit, edits, constraints, rivals, rival_constraints)
}

#[unsafe(no_mangle)]
pub extern "C" fn measure_reason(
    edit: u32,
    edits: &[EditRow],
    constraints: &[ConstraintRow],
    out: &mut [u8],
) -> Explained
    ensures answer { result ≡ explained_of edit edits.now constraints.now out.old }
    ensures bytes { out.new ≡ explained_out edits.now constraints.now edit 0 out.old }
{
    benchmark_entry::measure_reason(edit, edits, constraints, out)
}
