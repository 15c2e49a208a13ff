// Equal votes (document 01, "Proposals and votes"). The function is pub for the crates of this workspace that count votes or compare proposals.
ghost use Rattle.std.specs.Prelude.{◌≡◌};
ghost use Rattle.record.specs.Record as theory;
ghost use Rattle.record.specs.Stored.{stored};
ghost use Rattle.voting.specs.Tally.{same_bundle};

use record::Record;

// Votes are equal when edits, bodies and constraints are.
// Kept: a derived `==` of records would compare the fillers of their arrays too; of their slices `==` is derived.
pub fn same_bundle(a: &Record, b: &Record) -> bool
    ensures { (P Q : theory.Record) → a.now ≡ stored P → b.now ≡ stored Q → result ≡ same_bundle P Q }
{
    a.edit_slice() == b.edit_slice() && a.constraint_slice() == b.constraint_slice()
}
