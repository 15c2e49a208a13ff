// Marks of the hidden edits by index: the index of an edit, and the marks of a record carried over to one that has more edits.
// The functions are pub for the crates of the bench's calls.
ghost use Rattle.std.specs.Prelude.{◌≡◌, Bool, false, cond, List, ℕ, ◌<◌, IfSome};
ghost use Rattle.lists.specs.Lists.{mem, ◌among◌, ◌within◌};
ghost use Rattle.record.specs.Record as theory;
ghost use Rattle.record.specs.Record.{written};
ghost use Rattle.record.specs.Stored.{stored};
ghost use Rattle.graph.specs.links.Marks.{mark_limit, marks_of};
ghost use Rattle.record_tables.specs.Checked.{Checked};
ghost use Rattle.bench.specs.hidden.Marks.{index_in, mark_named};

use graph::indexes;
use graph::indexes::IndexTable;
use graph::links::{MARKS, Marks};
use record::{EDITS, Record};
use record_tables::lookup;

// The index of a written edit, INIT's being 0.
// Kept: the place is compared with the greatest: of records that are not checked, which it takes too, `place_of` says nothing.
pub fn edit_index(multilog: Record, name: u32) -> Option<usize>
    ensures low { IfSome result (λ index. index < mark_limit) }
    ensures is { (R : theory.Record) → multilog ≡ stored R → Checked R → result ≡ index_in name (written R) }
{
    let name = u16::try_from(name).ok()?;
    let place = lookup::place_of(multilog, name)?;
    if place < EDITS { Some(place + 1) } else { None }
}

// The marks of a record's edits by index: each edit has the mark of its name in another record, given by that record's table of indexes and
// its marks.
fn by_index(multilog: Record, index: &IndexTable, hidden: Marks) -> Marks
    ensures { (R : theory.Record) (test : ℕ → Bool) → multilog ≡ stored R → Checked R → test 0 ≡ false
        → ((x : ℕ) → x among written R → mark_named index.now hidden x ≡ cond (test x) 1 0) → result ≡ marks_of R test }
{
    let mut marks = [0; MARKS];
    for (i, edit) in multilog.edit_slice().iter().enumerate() {
        marks[i + 1] = hidden[index.index_of(usize::from(edit.name))];
    }
    marks
}

// The marks of the hidden edits of a record, by the indexes of a record that has its edits.
pub fn carried(old: Record, hidden: Marks, new: Record) -> Marks
    ensures { (R S : theory.Record) (h : List ℕ) → old ≡ stored R → new ≡ stored S → Checked R → Checked S → h within written R
        → hidden ≡ marks_of R (λ x. mem x h) → result ≡ marks_of S (λ x. mem x h) }
{
    let index = indexes::index_table(old);
    by_index(new, &index, hidden)
}
