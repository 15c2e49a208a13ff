// What a bench is asked in a call log: its hidden edits, its schedule, its catalogue, its journal and its page.
ghost use Rattle.std.specs.Prelude.{◌≡◌, cond, [], ◌∷◌, ◌≤◌, length, take};
ghost use Rattle.lists.specs.Lists.{filter};
ghost use Rattle.record.specs.Stored.{edit_limit};
ghost use Rattle.log_forms.specs.Printed.{Printed, texts_from};
ghost use Rattle.log_answers.specs.Answers.{answer_line};
ghost use Rattle.log_answers.specs.bench_answers.Asks.{hides, hidden_line, hidden_text, page_line, schedule_text, cell_form, cell_line, cells_text, is_present, entry_text, catalogue_text, row_text, row_at, journal_text, page_text};

// Kept: `bench`, `printer`: what is asked of and where it is printed meet in a question alone; a struct of both would be made for each.
// Kept: `length edits.now ≤ edit_limit`: a slice has no limit by its type, and marks and rows are read at the places of its edits; `edit_slice` and
// `open_edits` give slices within it.

use catalogue::{CHIP_CELLS, CHIP_PLACES, Cell, Entry, PAGES};
use graph::links::Marks;
use ledger::Bench;
use log_forms::Printer;
use pages_turner::Turner;
use record::{EDITS, Edit};

// Whose cells are printed: a chip's of the catalogue, or those that a page of the journal keeps.
#[derive(Clone, Copy)]
pub enum Owner {
    Chip,
    Page,
}

// The mark of an edit that is hidden.
const HIDES: u8 = 1;

// How many of these marks hide an edit.
fn count_hidden(marks: &[u8]) -> usize
    ensures { result ≡ length (filter hides marks.now) }
{
    marks.iter().filter(|mark| **mark == HIDES).count()
}

// The line of an edit that is hidden.
fn print_if_hidden(printer: &mut Printer<'_>, mark: u8, name: u16)
    ensures { Printed (cond (hides mark) (answer_line "edit=@\n" (name ∷ [])) []) printer.old printer.new }
{
    if mark == HIDES {
        printer.print(b"edit=@\n", &[u64::from(name)]);
    }
}

// Kept: by index, here and for rows: a line goes by the place of its edit (texts_from). A zip has no place, so its invariant would count it, and
// say what is left of both slices besides.
fn print_hidden_edits(printer: &mut Printer<'_>, edits: &[Edit], marks: &Marks)
    requires { length edits.now ≤ edit_limit }
    ensures { Printed (texts_from (hidden_line marks.now) 1 edits.now) printer.old printer.new }
{
    for (i, edit) in edits.iter().enumerate() {
        print_if_hidden(printer, marks[i + 1], edit.name);
    }
}

pub fn print_hidden(printer: &mut Printer<'_>, bench: &Bench)
    ensures { Printed (hidden_text (take bench.now.multilog.edit_count bench.now.multilog.edits) bench.now.hidden) printer.old printer.new }
{
    let edits = bench.multilog.edit_slice();
    let count = count_hidden(&bench.hidden[1..=edits.len()]);
    printer.print(b"hidden=#\n", &[count as u64]);
    print_hidden_edits(printer, edits, &bench.hidden);
}

fn print_pages(printer: &mut Printer<'_>, edits: &[Edit])
    ensures { Printed (texts_from page_line 1 edits.now) printer.old printer.new }
{
    for (i, edit) in edits.iter().enumerate() {
        let numbers = [i as u64 + 1, u64::from(edit.name)];
        printer.print(b"page=# edit=@\n", &numbers);
    }
}

pub fn print_schedule(printer: &mut Printer<'_>, bench: &Bench)
    ensures { Printed (schedule_text (take bench.now.schedule.count bench.now.schedule.edits)) printer.old printer.new }
{
    let edits = bench.schedule.edit_slice();
    printer.print(b"last=#\n", &[edits.len() as u64]);
    print_pages(printer, edits);
}

// The line of a cell: a chip's, or one that a page keeps.
#[tactic(auto, unfolding(crate::specs::bench_answers::Asks::cell_form, text_forms::specs::Spelling::bytes))]
fn cell_form(owner: Owner) -> &'static [u8]
    ensures { result.now ≡ cell_form owner }
{
    match owner {
        Owner::Chip => b"chip=# field=% value=#\n",
        Owner::Page => b"page=# field=% value=#\n",
    }
}

// The line of a cell that is filled.
fn print_cell(printer: &mut Printer<'_>, owner: Owner, label: u64, field: usize, cell: Cell)
    ensures { Printed (cell_line owner label field cell) printer.old printer.new }
{
    if let Some(value) = cell {
        printer.print(cell_form(owner), &[label, field as u64, u64::from(value)]);
    }
}

// The lines of an entry's cells; the label is the chip or the page.
fn print_cells(printer: &mut Printer<'_>, owner: Owner, label: u64, cells: &[Cell; CHIP_CELLS])
    ensures { Printed (cells_text owner label cells.now) printer.old printer.new }
{
    for (field, cell) in cells.iter().enumerate() {
        print_cell(printer, owner, label, field, *cell);
    }
}

fn print_entry(printer: &mut Printer<'_>, chip: usize, entry: &Entry<CHIP_CELLS>)
    ensures { Printed (entry_text chip entry.now) printer.old printer.new }
{
    if entry.present {
        printer.print(b"chip=#\n", &[chip as u64]);
        print_cells(printer, Owner::Chip, chip as u64, &entry.cells);
    }
}

fn count_present(entries: &[Entry<CHIP_CELLS>; CHIP_PLACES]) -> usize
    ensures { result ≡ length (filter is_present entries.now) }
{
    entries.iter().filter(|entry| entry.present).count()
}

fn print_entries(printer: &mut Printer<'_>, entries: &[Entry<CHIP_CELLS>; CHIP_PLACES])
    ensures { Printed (texts_from entry_text 0 entries.now) printer.old printer.new }
{
    for (chip, entry) in entries.iter().enumerate() {
        print_entry(printer, chip, entry);
    }
}

pub fn print_catalogue(printer: &mut Printer<'_>, bench: &Bench)
    ensures { Printed (catalogue_text bench.now.view.catalogue.entries) printer.old printer.new }
{
    let entries = &bench.view.catalogue.entries;
    printer.print(b"chips=#\n", &[count_present(entries) as u64]);
    print_entries(printer, entries);
}

// The touched chip and the entry that a page keeps.
fn print_row(printer: &mut Printer<'_>, page: usize, edit: &Edit, row: &Entry<CHIP_CELLS>)
    ensures { Printed (row_text page edit.now row.now) printer.old printer.new }
{
    let chip = edit.body.place();
    let numbers = [page as u64, chip as u64, u64::from(row.present)];
    printer.print(b"page=# chip=# present=?\n", &numbers);
    print_cells(printer, Owner::Page, page as u64, &row.cells);
}

fn print_rows(printer: &mut Printer<'_>, edits: &[Edit], rows: &[Entry<CHIP_CELLS>; PAGES])
    requires { length edits.now ≤ edit_limit }
    ensures { Printed (texts_from (row_at rows.now) 1 edits.now) printer.old printer.new }
{
    for (i, edit) in edits.iter().enumerate() {
        print_row(printer, i + 1, edit, &rows[i]);
    }
}

// The edits of the open pages.
fn open_edits(edits: &[Edit; EDITS], opened: usize) -> &[Edit]
    ensures edits { result.now ≡ take opened edits.now }
    ensures short { length result.now ≤ edit_limit }
{
    &edits[..opened.min(EDITS)]
}

pub fn print_journal(printer: &mut Printer<'_>, bench: &Bench)
    ensures { Printed (journal_text (take bench.now.turner.opened bench.now.schedule.edits) bench.now.view.journal.rows) printer.old printer.new }
{
    let edits = open_edits(&bench.schedule.edits, bench.turner.opened);
    printer.print(b"open=#\n", &[edits.len() as u64]);
    print_rows(printer, edits, &bench.view.journal.rows);
}

// The turner alone tells the page.
pub fn print_page(printer: &mut Printer<'_>, turner: Turner)
    ensures { Printed (page_text turner.opened turner.last) printer.old printer.new }
{
    let numbers = [turner.opened as u64, turner.last as u64];
    printer.print(b"open=# last=#\n", &numbers);
}
