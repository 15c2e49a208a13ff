// An edit looked up by its name.
ghost use Rattle.std.specs.Prelude.{◌≡◌};
ghost use Rattle.lists.specs.Lists.{mem};
ghost use Rattle.record.specs.Record as theory;
ghost use Rattle.record.specs.Record.{written};
ghost use Rattle.record.specs.Stored.{stored};
ghost use Rattle.record_tables.specs.Checked.{Checked, known_place};

use record::Record;

// The place of an edit in a record, counted from 0, where it is known.
pub fn place_of(joined: Record, name: u16) -> Option<usize>
    ensures { (R : theory.Record) → joined ≡ stored R → Checked R → result ≡ known_place name (written R) }
{
    joined
        .edit_slice()
        .binary_search_by(|edit| edit.name.cmp(&name))
        .ok()
}

// Whether an edit is written in a record.
pub fn knows(joined: Record, name: u16) -> bool
    ensures { (R : theory.Record) → joined ≡ stored R → Checked R → result ≡ mem name (written R) }
{
    place_of(joined, name).is_some()
}
