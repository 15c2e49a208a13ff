// Linked rows: closures, rings and single rows of a relation between the edits of a record, by index. Functions are pub for the crates
// that judge records and bundles; these meet each `requires` by the way in which they link their rows.
ghost use Rattle.std.specs.Prelude.{◌≡◌, Bool, true, false, ◌||◌, List, ◌∷◌, ℕ, ◌+◌, ◌<◌, ◌≤◌, length, get_or, replicate};
ghost use Rattle.std.specs.Iterator.{at_most};
ghost use Rattle.lists.specs.Lists.{mem, ◌among◌, ◌within◌, closure};
ghost use Rattle.record.specs.Record.{Record, names, notafter};
ghost use Rattle.record.specs.Schedule.{ring};
ghost use Rattle.graph.specs.links.Marks.{mark_limit, name_at, marks_of};
ghost use Rattle.graph.specs.links.Links.{notafter_base, noncommuting_base, key_limit, row_limit, rows_length, with_row, Safe, Growing, FirstRow, NextRow, LeftEnd, Walks, NoRow, SomeRow, Leads};
ghost use Rattle.graph.specs.links.Reach.{Marked};
ghost use Rattle.graph.specs.links.Reversed.{LinksReversed, Noting, Reversed};
ghost use Rattle.graph.specs.links.Search.{Visited, VisitedNew};

use crate::reversed_row::ReversedRow;
use record::{CONSTRAINTS, EDITS};
use std::marker::Model;

// Kept: `x < mark_limit`, `key < key_limit`: a type of indexes with that invariant was tried; each access to marks and each turn of a loop over
// indexes then converts, and each proof of a loop rewrites by what the conversion ensures. Keys are sums of a base and an index, and would convert
// twice.
// Kept: `base ≤ noncommuting_base`: any base is taken; an enum of the three rules would ask more, and would not name the relation of a
// bundle's members, which stands above 0.

// Kept: `a`, `b`: the two edits that a question is about; they meet in it alone, and a struct of both would be made for each.

// Marks of the edits of a record and of INIT, one to each index.
pub const MARKS: usize = EDITS + 1;

// Kept: numbers and no truth values: document 01 names "an array of 128 marks", and pages of edits stand in one too. A mark is 1 and no mark 0, as
// the clauses have it (`marks_of`).
pub type Marks = [u8; MARKS];

// The keys of a record's rows: the right index, above the base of the rule. The specs of `links` have the same numbers.
pub const NOTAFTER_BASE: usize = 0;

pub const ENABLES_BASE: usize = MARKS;

pub const NONCOMMUTING_BASE: usize = 2 * MARKS;

// Linked rows in one array: the head of each key, then the link and then the left end of each row, of which a constraint has at most two.
// Kept: one flat array: it is lent and given as a whole (`put_row`, `from_cells`, `cells`), and is one list to the clauses (`with_row`, `Safe`); an
// array of heads and one of rows would be two of each. Links are places in it, since the rows of all keys share it and nothing is allocated.
const ROW_LIMIT: usize = 2 * CONSTRAINTS;

const LINKS_START: usize = 3 * MARKS;

const LEFTS_START: usize = LINKS_START + ROW_LIMIT;

pub const ROWS: usize = LEFTS_START + ROW_LIMIT;

// Links row j, counted from 0, before all others of its key. Any array is taken, and any place in it. Pub for whoever keeps linked rows of their
// own; of the crates here `link_row` alone calls it.
#[tactic(auto, unfolding(crate::specs::links::Links::head_at, crate::specs::links::Links::with_row))]
pub fn put_row(cells: &mut [u16; ROWS], j: usize, key: usize, left: usize)
    requires row { j < row_limit }
    requires key { key < key_limit }
    requires left { left < mark_limit }
    ensures { cells.new ≡ with_row cells.old j key left }
{
    cells[LINKS_START + j] = cells[key];
    cells[key] = (j + 1) as u16;
    cells[LEFTS_START + j] = left as u16;
}

// Rows that are being linked, each before all others of its key.
// Kept: the count is of rows, and the array has three cells of a row far apart, so that no slice of it has the rows so far.
#[derive(Clone, Copy)]
pub struct Linking {
    cells: [u16; ROWS],
    count: usize,
    ghost growing: { Growing cells count },
}

impl Linking {
    // No row yet.
    pub fn new() -> Linking
        ensures cells { result.cells ≡ replicate rows_length 0 }
        ensures count { result.count ≡ 0 }
    {
        Linking {
            cells: [0; ROWS],
            count: 0,
        }
    }

    // Links one more row. Pub for `indexes` and `voting_members`, which link the constraints of a record.
    pub fn link_row(&mut self, key: usize, left: usize)
        requires room { self.old.count < row_limit }
        requires key { key < key_limit }
        requires left { left < mark_limit }
        ensures cells { self.new.cells ≡ with_row self.old.cells self.old.count key left }
        ensures count { self.new.count ≡ self.old.count + 1 }
    {
        put_row(&mut self.cells, self.count, key, left);
        self.count += 1;
    }

    pub fn rows(self) -> Rows
        requires { self.count ≤ row_limit }
        ensures { result ≡ self.cells }
    {
        Rows::from_cells(self.cells)
    }
}

// A row of a key: its left end, and the row that comes next, 0 where none does.
// Kept: 0 for no row, as the cells of the array have it; an Option would be made and taken apart at each step of the innermost loop.
#[derive(Clone, Copy)]
pub struct LinkedRow {
    pub left: usize,
    pub next: usize,
}

// Linked rows. No step along the links leaves them, and each goes down.
#[derive(Clone, Copy)]
pub struct Rows {
    cells: [u16; ROWS],
}

// Clauses see the heads, links and left ends in one list.
impl Model for Rows {
    ghost use Rattle.std.specs.Prelude.{List, ℕ};
    ghost use Rattle.graph.specs.links.Links.{Safe};

    ghost Value = { List ℕ };

    ghost view = { λ r. r.cells };

    ghost inverse = { λ cells. record { cells = cells } };

    ghost invariant = { λ r. Safe r.cells };
}

impl Rows {
    // Rows that were linked in an array: by `Linking`, or by whoever keeps linked rows of their own; no crate here does.
    pub fn from_cells(cells: [u16; ROWS]) -> Rows
        requires { Safe cells }
        ensures { result ≡ cells }
    {
        Rows { cells }
    }

    // The cells as an array, for whoever keeps linked rows of their own; no crate here does.
    pub fn cells(&self) -> &[u16; ROWS]
        ensures is { result.now ≡ self.now }
        ensures safe { Safe self.now }
    {
        &self.cells
    }

    // The first row of a key, counted from 1; 0 where there is none. Pub for whoever walks along rows by their numbers; no other crate
    // here does.
    // Kept: 0 for no row, as in `LinkedRow`.
    pub fn first_row(&self, key: usize) -> usize
        requires { key < key_limit }
        ensures { FirstRow self.now key result }
    {
        usize::from(self.cells[key])
    }

    // Row j: its left end, an index, and the row after it of the same key.
    pub fn row(&self, j: usize) -> LinkedRow
        requires above { 0 < j }
        requires low { j ≤ row_limit }
        ensures left { LeftEnd self.now j result.left }
        ensures next { NextRow self.now j result.next }
    {
        LinkedRow {
            left: usize::from(self.cells[LEFTS_START + (j - 1)]),
            next: usize::from(self.cells[LINKS_START + (j - 1)]),
        }
    }

    // The left ends of the rows of a key.
    pub fn lefts(&self, key: usize) -> Lefts<'_>
        requires { key < key_limit }
        ensures row { FirstRow self.now key result.row }
        ensures rows { result.rows.now ≡ self.now }
    {
        let row = self.first_row(key);
        Lefts { rows: self, row }
    }

    // Marks x and all that leads to it, beside a closed set that is marked. Pub for `judgement_marks` and `voting_members`.
    pub fn close(&self, base: usize, marks: &mut Marks, x: usize)
        requires base { base ≤ noncommuting_base }
        requires low { x < mark_limit }
        ensures { (leads : ℕ → ℕ → Bool) (R : Record) (known s : List ℕ) → Leads leads R base self.now
            → ((a b : ℕ) → leads a b ≡ true → a among known) → ((a b : ℕ) → leads a b ≡ true → b among s → a among s)
            → x < length (names R) → s within names R → marks.old ≡ marks_of R (λ y. mem y s)
            → marks.new ≡ marks_of R (λ y. mem y (closure leads known (name_at R x ∷ s))) }
    {
        mark(base, self, marks, x);
    }

    // Whether a row leads from a to b. Pub for `voting_members`.
    pub fn leads_to(&self, base: usize, a: usize, b: usize) -> bool
        requires base { base ≤ noncommuting_base }
        requires low { b < mark_limit }
        ensures { (leads : ℕ → ℕ → Bool) (R : Record) → Leads leads R base self.now
            → a < length (names R) → b < length (names R) → result ≡ leads (name_at R a) (name_at R b) }
    {
        self.lefts(base + b).any(|left| left == a)
    }

    // Whether a row leads from a to b, or one from b to a. Pub for `judgement_marks` and `voting_drafts::pairs`.
    pub fn leads_either_way(&self, base: usize, a: usize, b: usize) -> bool
        requires base { base ≤ noncommuting_base }
        requires low { (a < mark_limit) × (b < mark_limit) }
        ensures { (leads : ℕ → ℕ → Bool) (R : Record) → Leads leads R base self.now
            → a < length (names R) → b < length (names R) → result ≡ (leads (name_at R a) (name_at R b) || leads (name_at R b) (name_at R a)) }
    {
        self.leads_to(base, a, b) || self.leads_to(base, b, a)
    }

    // Whether some row of the key has a left with this mark. Pub for `judgement_marks` and `judgement_marks::schedules`.
    pub fn any_row(&self, key: usize, marks: &Marks, mark: u8) -> bool
        requires { key < key_limit }
        ensures some { result ≡ true → SomeRow self.now key (λ y. get_or marks.now y 0 ≡ mark) }
        ensures none { result ≡ false → NoRow self.now key (λ y. get_or marks.now y 0 ≡ mark) }
    {
        self.lefts(key).any(|left| marks[left] == mark)
    }
}

// A walk along the rows of one key: it gives their left ends.
#[derive(Drop)]
pub struct Lefts<'a> {
    rows: &'a Rows,
    // the row that comes next, 0 where none is left
    // Kept: 0 for no row, as in `LinkedRow`.
    row: usize,
}

impl<'a> Iterator for Lefts<'a> {
    type Item = usize;

    ghost can_next = { λ s. s.row ≤ row_limit };

    ghost next_gives = { λ s r t. Walks s.rows.now s.row r t.rows.now t.row };

    ghost remaining = { λ s. at_most s.row };

    fn next(&mut self) -> Option<usize> {
        if self.row == 0 {
            return None;
        }
        let row = self.rows.row(self.row);
        self.row = row.next;
        Some(row.left)
    }
}

// Marks x and all that leads to it. Recursion, since a row of work still to do would need an invariant of its own.
fn mark(base: usize, rows: &Rows, marks: &mut Marks, x: usize)
    requires base { base ≤ noncommuting_base }
    requires low { x < mark_limit }
    ensures { Marked base rows.now marks.old x marks.new }
{
    if marks[x] == 1 {
        return;
    }
    marks[x] = 1;
    for left in rows.lefts(base + x) {
        mark(base, rows, marks, left);
    }
}

// States in a search beside the two marks: what comes before the edit is being placed; the edit is placed.
const OPEN: u8 = 2;

const PLACED: u8 = 3;

// Places x after all that come before it in the set; true where a ring is met on the way.
fn visit(rows: &Rows, states: &mut Marks, x: usize) -> bool
    requires { x < mark_limit }
    ensures { Visited rows.now states.old x result states.new }
{
    // Kept: states are numbers: beside `OPEN` and `PLACED` the marks that their array is a copy of; an enum would convert 128 of them at each search.
    let v = states[x];
    if v == OPEN {
        return true;
    }
    if v != 1 {
        return false;
    }
    states[x] = OPEN;
    for left in rows.lefts(x) {
        if visit(rows, states, left) {
            return true;
        }
    }
    states[x] = PLACED;
    false
}

// The same where x is new; an old one stays as it is.
fn visit_new(rows: &Rows, old: &Marks, states: &mut Marks, x: usize) -> bool
    requires { x < mark_limit }
    ensures { VisitedNew rows.now old.now states.old x result states.new }
{
    if old[x] == 1 {
        return false;
    }
    visit(rows, states, x)
}

// Notes each row of notafter to the edit at b, reversed.
fn reverse_rows(rows: &Rows, reversed: &mut [ReversedRow; ROW_LIMIT], b: usize)
    requires { b < mark_limit }
    ensures { Noting rows.now b reversed.old reversed.new }
{
    let mut j = rows.first_row(b);
    // Kept: what is noted of a row stands at the row's number, which a walk over left ends does not give. Were each row linked at once instead, by
    // `link_row(left, b)`, it would have to be shown that the rows linked so far leave a place, so that no row stands under two keys.
    while j != 0 {
        let row = rows.row(j);
        reversed[j - 1] = ReversedRow {
            from: row.left as u8,
            to: b as u8,
        };
        j = row.next;
    }
}

// The reversed rows, linked.
fn linked_rows(reversed: &[ReversedRow]) -> Rows
    requires { length reversed.now ≤ row_limit }
    ensures { LinksReversed reversed.now result }
{
    let mut linking = Linking::new();
    for row in reversed {
        linking.link_row(usize::from(row.from), usize::from(row.to));
    }
    linking.rows()
}

// The edits of a record by index: how many there are, INIT's included, and the linked rows of its constraints.
#[derive(Clone, Copy)]
pub struct Graph {
    pub count: usize,
    pub rows: Rows,
    ghost few: { count ≤ mark_limit },
}

impl Graph {
    // Whether the marked set holds a ring of notafter, where the old set holds none: a ring then has one that is new, and the search starts from
    // these. Pub for `judgement_marks`.
    pub fn has_new_ring(&self, old: &Marks, marks: &Marks) -> bool
        ensures { (R : Record) (u t : List ℕ) → Leads (notafter R) R notafter_base self.now.rows
            → self.now.count ≡ length (names R) → t within names R → old.now ≡ marks_of R (λ y. mem y u) → ring R u ≡ false → marks.now ≡ marks_of R (λ y. mem y t) → result ≡ ring R t }
    {
        let mut states = *marks;
        for x in 0..self.count {
            if visit_new(&self.rows, old, &mut states, x) {
                return true;
            }
        }
        false
    }

    // Whether the marked set holds a ring of notafter. Pub for `judgement`, `judgement_marks` and `judgement_marks::schedules`.
    pub fn has_ring(&self, marks: &Marks) -> bool
        ensures { (R : Record) (t : List ℕ) → Leads (notafter R) R notafter_base self.now.rows
            → self.now.count ≡ length (names R) → t within names R → marks.now ≡ marks_of R (λ y. mem y t) → result ≡ ring R t }
    {
        self.has_new_ring(&[0; MARKS], marks)
    }

    // The marks of all edits. Pub for `judgement_marks` and `judgement_marks::schedules`.
    pub fn all_marks(&self) -> Marks
        ensures { (R : Record) → self.now.count ≡ length (names R) → result ≡ marks_of R (λ y. mem y (names R)) }
    {
        let mut marks = [0; MARKS];
        marks[..self.count].fill(1);
        marks
    }

    // The reversed graph of notafter: rows by their left edits, with the right ones. Pub for `judgement_marks` and `judgement_marks::schedules`.
    pub fn reversed(&self) -> Rows
        ensures { (R : Record) → Leads (notafter R) R notafter_base self.now.rows → self.now.count ≡ length (names R) → Reversed R result }
    {
        let none = ReversedRow { from: 255, to: 0 };
        let mut reversed = [none; ROW_LIMIT];
        let mut count = 0;
        for b in 0..self.count {
            reverse_rows(&self.rows, &mut reversed, b);
            count = count.max(self.rows.first_row(b));
        }
        linked_rows(&reversed[..count])
    }
}
