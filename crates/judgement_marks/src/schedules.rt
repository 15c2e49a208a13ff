// The bench schedule of a record by index, over its linked rows. Functions are pub for the crates that judge records.
ghost use Rattle.std.specs.Prelude.{◌≡◌, Bool, true, false, ◌&&◌, List, ◌∷◌, ℕ, ◌<◌, ◌≤◌, IfSome, length};
ghost use Rattle.lists.specs.Lists.{mem, any, find, distinct, ◌within◌};
ghost use Rattle.record.specs.Record.{Record, names, notafter};
ghost use Rattle.record.specs.Schedule.{needs, musts, order, ring, bars, admit, scheduled, schedule};
ghost use Rattle.record.specs.Judgement.{must};
ghost use Rattle.graph.specs.links.Marks.{mark_limit, name_at, values_of, marks_of, place_in};
ghost use Rattle.graph.specs.links.Reversed.{Reversed};
ghost use Rattle.graph.specs.links.Resolved.{Resolved};
ghost use Rattle.judgement_marks.specs.schedules.Rows.{free, HeldBack, found, Hides, Clear, Missed, RowIs};

use crate::row::Row;
use graph::links::{ENABLES_BASE, Graph, MARKS, Marks, Rows};

// Kept: `x < mark_limit`: as in `graph::links`, where a type of indexes was tried.
// Kept: `Resolved R graph.now.rows`, `graph.now.count ≡ length (names R)`, `Reversed R reversed.now`, `mustmarks.now ≡ marks_of R (must R)`,
// `Hides R hidden.now hiddens`: premises of what is ensured, as in the file of the crate: the theory's record R is no part of a value.

// Whether the edit at x waits and none that waits comes before it.
fn is_free(rows: &Rows, waits: &Marks, x: usize) -> bool
    requires { x < mark_limit }
    ensures { (R : Record) (test : ℕ → Bool) → Resolved R rows.now → x < length (names R)
        → waits.now ≡ marks_of R test → result ≡ free R test (name_at R x) }
{
    waits[x] == 1 && !rows.any_row(x, waits, 1)
}

// The lowest that is free, from a place below which none is.
fn lowest(graph: &Graph, from: usize, waits: &Marks) -> Option<usize>
    requires { from ≤ graph.now.count }
    ensures low { IfSome result (λ x. x < graph.now.count) }
    ensures is { (R : Record) (test : ℕ → Bool) → Resolved R graph.now.rows → graph.now.count ≡ length (names R)
        → waits.now ≡ marks_of R test → ((y : ℕ) → y < from → free R test (name_at R y) ≡ false)
        → (find (free R test) (names R) ≡ found R result) × IfSome result (λ x. (y : ℕ) → y < x → free R test (name_at R y) ≡ false) }
{
    (from..graph.count).find(|x| is_free(&graph.rows, waits, *x))
}

// The lower of best and the edit at y, where that is free.
fn lower_free(rows: &Rows, waits: &Marks, y: usize, best: usize) -> usize
    requires { y < mark_limit }
    ensures { (result ≤ best) × (y < result → HeldBack rows.now waits.now y) }
{
    if y < best && is_free(rows, waits, y) {
        y
    } else {
        best
    }
}

// The lowest that is free of those that come after the edit at x, where it lies below x; otherwise x.
fn lowest_freed(rows: &Rows, reversed: &Rows, waits: &Marks, x: usize) -> usize
    requires { x < mark_limit }
    ensures { (result ≤ x) × ((R : Record) (y : ℕ) → Reversed R reversed.now → distinct (names R) ≡ true → x < length (names R) → y < length (names R)
        → notafter R (name_at R x) (name_at R y) ≡ true → y < result → HeldBack rows.now waits.now y) }
{
    let mut best = x;
    for y in reversed.lefts(x) {
        best = lower_free(rows, waits, y, best);
    }
    best
}

// The marked set in order. None below the last placed was free before it was, so that the next is one that it held back, or lies above it.
fn ordered_row(graph: &Graph, reversed: &Rows, marks: Marks) -> Row
    ensures { (R : Record) (t : List ℕ) → Resolved R graph.now.rows → Reversed R reversed.now
        → graph.now.count ≡ length (names R) → t within names R
        → marks ≡ marks_of R (λ y. mem y t) → RowIs R result (order R t) }
{
    let mut waits = marks;
    let mut indexes = [0; MARKS];
    let mut from = 0;
    for count in 0..graph.count {
        let Some(x) = lowest(graph, from, &waits) else {
            return Row { indexes, count };
        };
        waits[x] = 0;
        indexes[count] = x as u8;
        from = lowest_freed(&graph.rows, reversed, &waits, x);
    }
    Row {
        indexes,
        count: graph.count,
    }
}

// Whether the edit at x is marked and hidden, and isn't a must.
fn is_barred(marks: &Marks, hidden: &Marks, mustmarks: &Marks, x: usize) -> bool
    requires { x < mark_limit }
    ensures { (R : Record) (hiddens t : List ℕ) → x < length (names R) → marks.now ≡ marks_of R (λ y. mem y t)
        → mustmarks.now ≡ marks_of R (must R) → Hides R hidden.now hiddens → result ≡ (mem (name_at R x) t && bars R hiddens (name_at R x)) }
{
    marks[x] == 1 && hidden[x] == 1 && mustmarks[x] != 1
}

// Whether a hidden edit that isn't a must is marked.
fn any_barred(graph: &Graph, marks: &Marks, hidden: &Marks, mustmarks: &Marks) -> bool
    ensures { (R : Record) (hiddens t : List ℕ) → graph.now.count ≡ length (names R) → t within names R → marks.now ≡ marks_of R (λ y. mem y t)
        → mustmarks.now ≡ marks_of R (must R) → Hides R hidden.now hiddens → result ≡ any (bars R hiddens) t }
{
    (0..graph.count).any(|x| is_barred(marks, hidden, mustmarks, x))
}

// What the set of the schedule is taken from: the graph with its reversed rows, what must stand and what is hidden; and of the record as a whole,
// whether one of its edits is barred and whether all together hold a ring.
#[derive(Clone, Copy)]
struct Admission<'a> {
    graph: &'a Graph,
    reversed: &'a Rows,
    mustmarks: &'a Marks,
    hidden: &'a Marks,
    barring: bool,
    ringed: bool,
}

impl Admission<'_> {
    // Whether one that is barred enters with the edit at x, where the old set holds none.
    fn is_shut(&self, old: &Marks, marks: &Marks, x: usize) -> bool
        requires { x < mark_limit }
        ensures { (R : Record) (hiddens t : List ℕ) → Resolved R self.now.graph.now.rows → self.now.graph.now.count ≡ length (names R) → x < self.now.graph.now.count
            → Clear R hiddens t → old.now ≡ marks_of R (λ y. mem y t) → marks.now ≡ marks_of R (λ y. mem y (needs R (name_at R x ∷ t)))
            → self.now.mustmarks.now ≡ marks_of R (must R) → Hides R self.now.hidden.now hiddens → self.now.barring ≡ any (bars R hiddens) (names R)
            → result ≡ any (bars R hiddens) (needs R (name_at R x ∷ t)) }
    {
        if !self.barring {
            return false;
        }
        if self.graph.rows.any_row(ENABLES_BASE + x, old, 0) {
            return any_barred(self.graph, marks, self.hidden, self.mustmarks);
        }
        is_barred(marks, self.hidden, self.mustmarks, x)
    }

    // One edit: taken into the marked set with all its needs, or left out. Nothing of the set is barred, so that only the new needs can be. Where a
    // need that comes before it was left out, so is the edit.
    fn admit(&self, marks: &mut Marks, x: usize)
        requires { x < mark_limit }
        ensures { (R : Record) (hiddens t : List ℕ) → Resolved R self.now.graph.now.rows → Reversed R self.now.reversed.now
            → self.now.graph.now.count ≡ length (names R)
            → x < self.now.graph.now.count → self.now.mustmarks.now ≡ marks_of R (must R) → Hides R self.now.hidden.now hiddens → self.now.barring ≡ any (bars R hiddens) (names R) → self.now.ringed ≡ ring R (names R)
            → Clear R hiddens t → ring R t ≡ false → Missed R hiddens t x → marks.old ≡ marks_of R (λ y. mem y t) → marks.new ≡ marks_of R (λ y. mem y (admit R hiddens t (name_at R x))) }
    {
        if marks[x] == 1 {
            return;
        }
        let graph = self.graph;
        let need = crate::need_before(&graph.rows, x);
        if marks[need] != 1 {
            return;
        }
        let more = crate::with_needs(&graph.rows, marks, x);
        if self.is_shut(marks, &more, x) {
            return;
        }
        if self.ringed && crate::closes_ring(graph, self.reversed, marks, &more, x) {
            return;
        }
        *marks = more;
    }

    // What must stand, which holds no ring, then the others by ascending name.
    fn admitted_marks(&self) -> Marks
        ensures { (R : Record) (hiddens : List ℕ) → Resolved R self.now.graph.now.rows → Reversed R self.now.reversed.now
            → self.now.graph.now.count ≡ length (names R)
            → self.now.mustmarks.now ≡ marks_of R (must R) → Hides R self.now.hidden.now hiddens → self.now.barring ≡ any (bars R hiddens) (names R) → self.now.ringed ≡ ring R (names R) → ring R (musts R) ≡ false
            → result ≡ marks_of R (λ y. mem y (scheduled R hiddens)) }
    {
        let mut marks = *self.mustmarks;
        for x in 1..self.graph.count {
            self.admit(&mut marks, x);
        }
        marks
    }
}

// The set of the schedule: all edits, where none is barred and all together hold no ring; what must stand, where that holds a ring.
fn scheduled_marks(graph: &Graph, reversed: &Rows, mustmarks: &Marks, hidden: &Marks) -> Marks
    ensures { (R : Record) (hiddens : List ℕ) → Resolved R graph.now.rows → Reversed R reversed.now
        → graph.now.count ≡ length (names R)
        → mustmarks.now ≡ marks_of R (must R) → Hides R hidden.now hiddens → result ≡ marks_of R (λ y. mem y (scheduled R hiddens)) }
{
    let all = graph.all_marks();
    let barring = any_barred(graph, &all, hidden, mustmarks);
    let ringed = graph.has_ring(&all);
    let admission = Admission {
        graph,
        reversed,
        mustmarks,
        hidden,
        barring,
        ringed,
    };
    if ringed {
        if graph.has_ring(mustmarks) {
            return *mustmarks;
        }
        return admission.admitted_marks();
    }
    if barring {
        return admission.admitted_marks();
    }
    all
}

// The bench schedule. Pub for `judgement`.
pub fn schedule_row(graph: &Graph, mustmarks: &Marks, hidden: &Marks) -> Row
    ensures { (R : Record) (hiddens : List ℕ) → Resolved R graph.now.rows → graph.now.count ≡ length (names R)
        → mustmarks.now ≡ marks_of R (must R) → Hides R hidden.now hiddens → RowIs R result (schedule R hiddens) }
{
    let reversed = graph.reversed();
    let marks = scheduled_marks(graph, &reversed, mustmarks, hidden);
    ordered_row(graph, &reversed, marks)
}

// The page of each edit. From the end, so that where a row had a repeat its first place would count. Pub for `judgement`, which has
// it of a schedule.
pub fn page_values(row: Row) -> Marks
    ensures { (R : Record) (list : List ℕ) → distinct (names R) ≡ true → length (names R) ≤ mark_limit → RowIs R row list → result ≡ values_of R (place_in list) }
{
    let mut pages = [0; MARKS];
    for k in (0..row.count).rev() {
        pages[usize::from(row.indexes[k])] = k as u8;
    }
    pages
}
