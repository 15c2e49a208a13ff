// Entries, the journal and pages of a catalogue, for shelves of any number of cells and places, and the shelf of the chips (document 01, "Entries and
// pages").
#![tactic(auto)]

ghost use Rattle.std.specs.Prelude.{◌≡◌, ℕ, Some, set, take};
ghost use Rattle.std.proofs.Math.Seq.{slice};
ghost use Rattle.record.specs.declared.Edit.{Edit};
ghost use Rattle.record.specs.declared.Field.{Field};
ghost use Rattle.pages.specs.Pages.{run_edit, touched};
ghost use Rattle.pages.specs.Steps.{back, forward, rescheduled, turned_view};
ghost use Rattle.catalogue.specs.Entries.{absent_entry, run_body};
ghost use Rattle.catalogue.specs.Shelves.{content_of, empty_view, shelf, stored_view};
ghost use Rattle.catalogue.specs.Changes.{ViewChanges, ViewTurns, common};

use record::{Body, EDITS, Edit, Field, Schedule};
use record_rows::row;

// Row q - 1 of a journal is that of page q.
pub const PAGES: usize = EDITS;

// What is known of an entry in one field, if anything.
pub type Cell = Option<u32>;

// Kept: document 01 has "an entry of four cells, present or absent". The journal's lines tell the cells of a row that is absent too (`row_text`), and
// that they are blank is a theorem (`absent-blank`): with an Option of the cells blank ones would be put back where they are told.
#[derive(Clone, Copy)]
pub struct Entry<const CELLS: usize> {
    pub present: bool,
    pub cells: [Cell; CELLS],
}

#[derive(Clone, Copy)]
pub struct Catalogue<const CELLS: usize, const PLACES: usize> {
    pub entries: [Entry<CELLS>; PLACES],
}

#[derive(Clone, Copy)]
pub struct Journal<const CELLS: usize> {
    pub rows: [Entry<CELLS>; PAGES],
}

#[derive(Clone, Copy)]
pub struct View<const CELLS: usize, const PLACES: usize> {
    pub catalogue: Catalogue<CELLS, PLACES>,
    pub journal: Journal<CELLS>,
}

// What shelves of these sizes differ in.
pub trait Layout<const CELLS: usize, const PLACES: usize> {
    ghost place: { Edit → ℕ };

    ghost cell: { Field → ℕ };

    // The place of the shelf that an edit touches, past the last where it touches none.
    fn place(edit: Edit) -> usize
        ensures { result ≡ place edit };

    // The cell that a field fills.
    fn cell(field: Field) -> usize
        ensures { result ≡ cell field };
}

// The sizes of the chip catalogue; specs/Chips.antt has the same numbers.
pub const CHIP_CELLS: usize = 4;

pub const CHIP_PLACES: usize = row::PLACES as usize;

// The shelf of the chips.
pub struct Chips;

impl Layout<CHIP_CELLS, CHIP_PLACES> for Chips {
    ghost use Rattle.record_rows.specs.row.Row.{field_number};
    ghost use Rattle.catalogue.specs.Chips.{chip_place};

    ghost place = { chip_place };

    ghost cell = { field_number };

    fn place(edit: Edit) -> usize {
        usize::from(edit.body.place())
    }

    fn cell(field: Field) -> usize {
        field as usize
    }
}

impl<const CELLS: usize> Entry<CELLS> {
    fn absent() -> Entry<CELLS>
        ensures { result ≡ absent_entry CELLS }
    {
        Entry {
            present: false,
            cells: [None; CELLS],
        }
    }

    // With a cell filled, if it has it.
    fn filled(&self, cell: usize, value: u32) -> Entry<CELLS>
        ensures { result ≡ record { present = self.now.present; cells = set self.now.cells cell (Some value) } }
    {
        let mut filled = *self;
        if cell < CELLS {
            filled.cells[cell] = Some(value);
        }
        filled
    }

    // What an edit makes of the entry that it touches.
    fn run<L: Layout<CELLS, PLACES>, const PLACES: usize>(&self, body: Body) -> Entry<CELLS>
        ensures { result ≡ run_body CELLS L.cell body self.now }
    {
        match body {
            Body::Insert(_) if !self.present => Entry {
                present: true,
                cells: [None; CELLS],
            },
            Body::Set(_, field, value) if self.present => self.filled(L::cell(field), value),
            Body::Remove(_) => Self::absent(),
            Body::Insert(_) | Body::Set(_, _, _) => *self,
        }
    }
}

// Kept: a place is tested and then indexed, since a proof learns no element of an array that was written through `get_mut`.
impl<const CELLS: usize, const PLACES: usize> Catalogue<CELLS, PLACES> {
    // An edit run on the catalogue. Gives the touched entry as it was before; a place past the last touches nothing.
    pub fn run_edit<L: Layout<CELLS, PLACES>>(&mut self, edit: Edit) -> Entry<CELLS>
        ensures kept { result ≡ touched (shelf CELLS L.place L.cell) self.old.entries edit }
        ensures ran { self.new.entries ≡ run_edit (shelf CELLS L.place L.cell) self.old.entries edit }
    {
        let place = L::place(edit);
        if place < PLACES {
            let entry = self.entries[place];
            self.entries[place] = entry.run::<L, PLACES>(edit.body);
            entry
        } else {
            Entry::absent()
        }
    }

    // An entry put at a place, if it is one.
    fn put(&mut self, place: usize, entry: Entry<CELLS>)
        ensures { self.new.entries ≡ set self.old.entries place entry.entry }
    {
        if place < PLACES {
            self.entries[place] = entry;
        }
    }
}

// How many pages the open part of the old schedule and the new schedule have in common at their beginning, by their names.
pub fn common_beginning(old: Schedule, opened: usize, new: Schedule) -> usize
    ensures { result ≡ common (take opened old.edits) (take new.count new.edits) }
{
    old.edits[..opened.min(PAGES)]
        .iter()
        .zip(new.edit_slice())
        .take_while(|(before, after)| before.name == after.name)
        .count()
}

// Kept: `schedule`, `opened`: a bench has them apart, the open page in its turner; a struct of both would be made for each call.
impl<const CELLS: usize, const PLACES: usize> View<CELLS, PLACES> {
    // No entry is present, and no page is open.
    pub fn empty() -> View<CELLS, PLACES>
        ensures { result ≡ empty_view CELLS PLACES }
    {
        let absent = Entry::absent();
        View {
            catalogue: Catalogue {
                entries: [absent; PLACES],
            },
            journal: Journal {
                rows: [absent; PAGES],
            },
        }
    }

    // The pages after page `from` up to page `to`, run. A schedule has no page past its rows.
    fn forward_to<L: Layout<CELLS, PLACES>>(&mut self, schedule: Schedule, from: usize, to: usize)
        ensures { self.new ≡ stored_view (forward (shelf CELLS L.place L.cell) from (slice from to schedule.edits) (content_of self.old)) }
    {
        for page in from..to.min(PAGES) {
            self.journal.rows[page] = self.catalogue.run_edit::<L>(schedule.edits[page]);
        }
    }

    // The pages after page `to` up to page `from`, undone by the journal, the last one first.
    fn back_to<L: Layout<CELLS, PLACES>>(&mut self, schedule: Schedule, from: usize, to: usize)
        ensures { self.new ≡ stored_view (back (shelf CELLS L.place L.cell) to (slice to from schedule.edits) (content_of self.old)) }
    {
        for page in (to..from.min(PAGES)).rev() {
            let kept = self.journal.rows[page];
            self.journal.rows[page] = Entry::absent();
            self.catalogue.put(L::place(schedule.edits[page]), kept);
        }
    }

    // From the open page to another page of the schedule.
    pub fn turn_to<L: Layout<CELLS, PLACES>>(
        &mut self,
        schedule: Schedule,
        opened: usize,
        page: usize,
    )
        ensures moves { self.new ≡ stored_view (turned_view (shelf CELLS L.place L.cell) schedule.edits opened page (content_of self.old)) }
        ensures opens { ViewTurns CELLS PLACES L.place L.cell schedule opened page self.old self.new }
    {
        if opened <= page {
            self.forward_to::<L>(schedule, opened, page);
        } else {
            self.back_to::<L>(schedule, opened, page);
        }
    }

    // Back by the journal to the page up to which the schedules are common, and on along the new schedule, to its last page.
    pub fn change<L: Layout<CELLS, PLACES>>(
        &mut self,
        old: Schedule,
        opened: usize,
        new: Schedule,
        common: usize,
    )
        ensures moves { self.new ≡ stored_view (rescheduled (shelf CELLS L.place L.cell) (take opened old.edits) (take new.count new.edits) common (content_of self.old)) }
        ensures opens { ViewChanges CELLS PLACES L.place L.cell old opened new common self.old self.new }
    {
        self.back_to::<L>(old, opened, common);
        self.forward_to::<L>(new, common, new.count);
    }
}
