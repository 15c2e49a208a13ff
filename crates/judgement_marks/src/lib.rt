// Must, never and settled of a record by index, over its linked rows. Functions are pub for the crates that judge records.
#![tactic(auto)]

pub mod row;
pub mod schedules;

ghost use Rattle.std.specs.Prelude.{◌≡◌, true, false, cond, not, ◌&&◌, ◌||◌, List, [], ◌∷◌, ℕ, ◌<◌, ◌≤◌, eqb, length, get_or, set};
ghost use Rattle.lists.specs.Lists.{mem, ◌among◌, ◌within◌};
ghost use Rattle.record.specs.Record.{Record, names, enables};
ghost use Rattle.record.specs.Schedule.{needs, musts, ring};
ghost use Rattle.record.specs.Judgement.{must, never, ordered, serialised, settled};
ghost use Rattle.graph.specs.links.Marks.{mark_limit, name_at, marks_of};
ghost use Rattle.graph.specs.links.Reversed.{Reversed};
ghost use Rattle.graph.specs.links.Resolved.{Resolved};
ghost use Rattle.judgement_marks.specs.Opened.{Opened};

use graph::links::{ENABLES_BASE, Graph, MARKS, Marks, NONCOMMUTING_BASE, NOTAFTER_BASE, Rows};

// Kept: `x < mark_limit`: as in `graph::links`, where a type of indexes was tried.
// Kept: `Resolved R graph.now.rows`, `graph.now.count ≡ length (names R)`, `Reversed R reversed.now`, `mustmarks.now ≡ marks_of R (must R)`,
// `nevermarks.now ≡ marks_of R (never R)`: premises of what is ensured. A graph is made of any record, stored with checked tables or not, and the
// theory's record R is no part of its value: a type could say only that some R is there, not that it is the one a clause speaks of.

// Kept: `a`, `b`: as in `graph::links`.

// The edits that must stand. Pub for `judgement`.
pub fn must_marks(rows: &Rows) -> Marks
    ensures { (R : Record) → Resolved R rows.now → result ≡ marks_of R (must R) }
{
    let mut marks = [0u8; MARKS];
    rows.close(ENABLES_BASE, &mut marks, 0);
    marks
}

// A set that is closed under enables, with the edit at x and its needs. The array is a fresh one, and what is known of the set is copied into it, so
// that only what is new is looked for. Pub for `schedules`.
pub fn with_needs(rows: &Rows, known: &Marks, x: usize) -> Marks
    requires { x < mark_limit }
    ensures { (R : Record) (s : List ℕ) → Resolved R rows.now → x < length (names R)
        → ((a b : ℕ) → enables R a b ≡ true → b among s → a among s) → s within names R → known.now ≡ marks_of R (λ y. mem y s)
        → result ≡ marks_of R (λ y. mem y (needs R (name_at R x ∷ s))) }
{
    let mut marks = [0u8; MARKS];
    marks.copy_from_slice(known);
    rows.close(ENABLES_BASE, &mut marks, x);
    marks
}

// The needs of the edit at x, from the marks of what must stand. Pub for `judgement`.
pub fn needs_marks(rows: &Rows, mustmarks: &Marks, x: usize) -> Marks
    requires { x < mark_limit }
    ensures { (R : Record) → Resolved R rows.now → x < length (names R)
        → mustmarks.now ≡ marks_of R (must R) → result ≡ marks_of R (λ y. mem y (needs R (0 ∷ name_at R x ∷ []))) }
{
    with_needs(rows, mustmarks, x)
}

// Whether an edit at x closes a ring when it enters a closed set without one, with its needs. It closes none where it enters alone and comes before
// none of the set. Pub for `schedules`.
pub fn closes_ring(graph: &Graph, reversed: &Rows, old: &Marks, marks: &Marks, x: usize) -> bool
    requires { x < mark_limit }
    ensures { (R : Record) (s : List ℕ) → Resolved R graph.now.rows
        → Reversed R reversed.now → graph.now.count ≡ length (names R) → x < graph.now.count
        → ((a b : ℕ) → enables R a b ≡ true → b among s → a among s) → s within names R → old.now ≡ marks_of R (λ y. mem y s) → ring R s ≡ false
        → marks.now ≡ marks_of R (λ y. mem y (needs R (name_at R x ∷ s))) → result ≡ ring R (needs R (name_at R x ∷ s)) }
{
    if graph.rows.any_row(ENABLES_BASE + x, old, 0) || reversed.any_row(x, marks, 1) {
        return graph.has_new_ring(old, marks);
    }
    false
}

// A need of the edit at x that comes before it in the table: one that enables it, or INIT. Pub for `schedules`.
pub fn need_before(rows: &Rows, x: usize) -> usize
    requires { x < mark_limit }
    ensures { (result ≤ x) × (result < mark_limit) × (0 < x → result < x) × ((R : Record) → Resolved R rows.now → x < length (names R)
        → (result < length (names R)) × (name_at R result among needs R (0 ∷ name_at R x ∷ []))) }
{
    match rows.lefts(ENABLES_BASE + x).next() {
        Some(a) if a < x => a,
        _ => 0,
    }
}

// Whether the edit at x can never stand, where what must stand holds no ring, and it is known which of those before it never can. Of the needs
// of one that can the search has only to look at what more x needs.
fn is_never(graph: &Graph, reversed: &Rows, mustmarks: &Marks, nevermarks: &Marks, x: usize) -> bool
    requires { x < mark_limit }
    ensures { (R : Record) → Resolved R graph.now.rows → Reversed R reversed.now
        → graph.now.count ≡ length (names R) → x < graph.now.count → mustmarks.now ≡ marks_of R (must R) → ring R (musts R) ≡ false → ((y : ℕ) → y < x → get_or nevermarks.now y 0 ≡ cond (never R (name_at R y)) 1 0) → result ≡ never R (name_at R x) }
{
    if mustmarks[x] == 1 {
        return false;
    }
    let a = need_before(&graph.rows, x);
    if nevermarks[a] == 1 {
        return true;
    }
    let old = needs_marks(&graph.rows, mustmarks, a);
    let marks = with_needs(&graph.rows, &old, x);
    closes_ring(graph, reversed, &old, &marks, x)
}

// The edits that can never stand, where what must stand holds no ring.
fn sound_nevers(graph: &Graph, mustmarks: &Marks) -> Marks
    ensures { (R : Record) → Resolved R graph.now.rows → graph.now.count ≡ length (names R)
        → mustmarks.now ≡ marks_of R (must R) → ring R (musts R) ≡ false → result ≡ marks_of R (never R) }
{
    let reversed = graph.reversed();
    let mut marks = [0u8; MARKS];
    for x in 0..graph.count {
        marks[x] = u8::from(is_never(graph, &reversed, mustmarks, &marks, x));
    }
    marks
}

// The edits that can never stand: none where all edits together hold no ring, all where what must stand holds one. Pub for `judgement`.
pub fn never_marks(graph: &Graph, mustmarks: &Marks) -> Marks
    ensures { (R : Record) → Resolved R graph.now.rows → graph.now.count ≡ length (names R)
        → mustmarks.now ≡ marks_of R (must R) → result ≡ marks_of R (never R) }
{
    let all = graph.all_marks();
    let ringed = graph.has_ring(&all);
    if !ringed {
        return [0u8; MARKS];
    }
    if graph.has_ring(mustmarks) {
        return all;
    }
    sound_nevers(graph, mustmarks)
}

// Whether an order between the edits at a and b is recorded either way, or one of the two can never stand.
// Kept: an `if` for each edit that can never stand: each has a law of its own, and with `||` its proof would take the two apart first.
fn has_order(rows: &Rows, nevermarks: &Marks, a: usize, b: usize) -> bool
    requires { (a < mark_limit) × (b < mark_limit) }
    ensures { (R : Record) → Resolved R rows.now → a < length (names R) → b < length (names R)
        → nevermarks.now ≡ marks_of R (never R) → result ≡ ordered R (name_at R a) (name_at R b) }
{
    if nevermarks[a] == 1 {
        return true;
    }
    if nevermarks[b] == 1 {
        return true;
    }
    rows.leads_either_way(NOTAFTER_BASE, a, b)
}

// Marks both edits of a pair that has no order.
fn open_pair(rows: &Rows, nevermarks: &Marks, openmarks: &mut Marks, a: usize, b: usize)
    requires { (a < mark_limit) × (b < mark_limit) }
    ensures { (R : Record) → Resolved R rows.now
        → a < length (names R) → b < length (names R) → nevermarks.now ≡ marks_of R (never R)
        → openmarks.new ≡ cond (ordered R (name_at R a) (name_at R b)) openmarks.old (set (set openmarks.old a 1) b 1) }
{
    if has_order(rows, nevermarks, a, b) {
        return;
    }
    openmarks[a] = 1;
    openmarks[b] = 1;
}

// The same for all pairs whose right edit is at b.
fn open_pairs(rows: &Rows, nevermarks: &Marks, openmarks: &mut Marks, b: usize)
    requires { b < mark_limit }
    ensures { (R : Record) → Resolved R rows.now
        → b < length (names R) → nevermarks.now ≡ marks_of R (never R) → Opened R b openmarks.old openmarks.new }
{
    for a in rows.lefts(NONCOMMUTING_BASE + b) {
        open_pair(rows, nevermarks, openmarks, a, b);
    }
}

// The edits that are not serialised.
fn open_marks(graph: &Graph, nevermarks: &Marks) -> Marks
    ensures { (R : Record) → Resolved R graph.now.rows → graph.now.count ≡ length (names R)
        → nevermarks.now ≡ marks_of R (never R) → result ≡ marks_of R (λ x. not (serialised R x)) }
{
    let mut openmarks = [0; MARKS];
    for b in 0..graph.count {
        open_pairs(&graph.rows, nevermarks, &mut openmarks, b);
    }
    openmarks
}

// Settled is never, or must and serialised.
fn is_settled(mustmark: u8, nevermark: u8, openmark: u8) -> bool
    ensures { result ≡ (eqb nevermark 1 || eqb mustmark 1 && not (eqb openmark 1)) }
{
    nevermark == 1 || mustmark == 1 && openmark != 1
}

// The edits that are settled. Pub for `judgement`.
pub fn settled_marks(graph: &Graph, mustmarks: &Marks, nevermarks: &Marks) -> Marks
    ensures { (R : Record) → Resolved R graph.now.rows → graph.now.count ≡ length (names R)
        → mustmarks.now ≡ marks_of R (must R) → nevermarks.now ≡ marks_of R (never R) → result ≡ marks_of R (settled R) }
{
    let openmarks = open_marks(graph, nevermarks);
    let mut marks = [0; MARKS];
    for x in 0..graph.count {
        marks[x] = u8::from(is_settled(mustmarks[x], nevermarks[x], openmarks[x]));
    }
    marks
}
