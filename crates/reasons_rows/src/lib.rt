// Why an edit must stand, or can never stand, by index over the linked rows of a record. What is pub is for `reasons_lent`.
#![tactic(auto)]

ghost use Rattle.std.specs.Prelude.{◌≡◌, true, List, [], ◌∷◌, ℕ, ◌<◌, length};
ghost use Rattle.lists.specs.Lists.{mem, ascending};
ghost use Rattle.record.specs.Record.{Record, names};
ghost use Rattle.record.specs.Schedule.{needs};
ghost use Rattle.record.specs.Judgement.{sound, must, never};
ghost use Rattle.graph.specs.links.Marks.{mark_limit, name_at, marks_of};
ghost use Rattle.graph.specs.links.Resolved.{Resolved};
ghost use Rattle.reasons.specs.Reasons.{Least, must_by, never_by};
ghost use Rattle.reasons.specs.Costs.{Best};
ghost use Rattle.reasons.specs.Aims.{to_init, back_to, to_ring, RingFrom};
ghost use Rattle.reasons_costs.specs.Searches.{Searches, named};
ghost use Rattle.reasons_rows.specs.Rings.{RingGoal, RingLengthAt, ShortRings, StartAt};

use graph::links::{Graph, MARKS, Marks, NOTAFTER_BASE};
use reasons_costs::row::LeastRow;
use reasons_costs::{Costs, Relation, Search, UNREACHED};
use std::array;

// Kept: `x < mark_limit`: as in `graph::links`, where a type of indexes was tried.
// Kept: `Resolved R graph.now.rows`, `graph.now.count ≡ length (names R)`, `marks.now ≡ marks_of R (λ y. mem y t)`: premises of what is ensured, as in
// `judgement_marks`.

// A chain, and the ring that it leads to.
#[derive(Clone, Copy)]
pub struct ChainToRing {
    pub chain: LeastRow,
    pub ring: LeastRow,
}

// The search for chains of enables to INIT, the one goal.
fn init_search(graph: &Graph) -> Search
    ensures { (R : Record) → Resolved R graph.now.rows → graph.now.count ≡ length (names R) → Searches R to_init result }
{
    let mut goals = [UNREACHED; MARKS];
    goals[0] = 1;
    Search {
        relation: Relation::Enables,
        marks: graph.all_marks(),
        goals,
    }
}

// The cost of the edit at i as a goal of the search for rings from the edit at r: one name where it is notafter that, and both are marked.
// Kept: an `if` for each mark: as in `judgement_marks::has_order`.
fn ring_goal(graph: &Graph, marks: &Marks, i: usize, r: usize) -> u16
    requires { (i < mark_limit) × (r < mark_limit) }
    ensures { RingGoal graph.now.rows marks.now r i result }
{
    if marks[i] != 1 {
        return UNREACHED;
    }
    if marks[r] != 1 {
        return UNREACHED;
    }
    if graph.rows.leads_to(NOTAFTER_BASE, i, r) {
        1
    } else {
        UNREACHED
    }
}

// The search for rings of marked edits, from the edit at r back to it.
fn ring_search(graph: &Graph, marks: &Marks, r: usize) -> Search
    requires { r < mark_limit }
    ensures { (R : Record) (t : List ℕ) → Resolved R graph.now.rows → r < length (names R)
        → marks.now ≡ marks_of R (λ y. mem y t) → Searches R (back_to t (name_at R r)) result }
{
    Search {
        relation: Relation::Notafter,
        marks: *marks,
        goals: array::from_fn(
            |i| -> u16
                requires { (i < mark_limit) × (r < mark_limit) }
                ensures { RingGoal graph.entry.now.rows marks.entry.now r i result }
            { ring_goal(graph, marks, i, r) },
        ),
    }
}

// One more than the names of a least ring from the edit at r; `UNREACHED` where there is none.
fn ring_length(graph: &Graph, marks: &Marks, r: usize) -> u16
    requires { r < mark_limit }
    ensures { RingLengthAt graph.now.rows graph.now.count marks.now r result }
{
    if marks[r] != 1 {
        return UNREACHED;
    }
    let costs = ring_search(graph, marks, r).least_costs(graph);
    costs[r].min(UNREACHED - 1) + 1
}

// The least ring from the edit at r, where there is one.
fn ring_row(graph: &Graph, marks: &Marks, r: usize) -> LeastRow
    requires { r < mark_limit }
    ensures { (R : Record) (t ring : List ℕ) → Resolved R graph.now.rows → graph.now.count ≡ length (names R) → ascending (names R) ≡ true
        → r < length (names R) → marks.now ≡ marks_of R (λ y. mem y t) → RingFrom R t (name_at R r) ring
        → Best (RingFrom R t (name_at R r)) (named R result) }
{
    let search = ring_search(graph, marks, r);
    let costs = search.least_costs(graph);
    search.least_row(graph, &costs, r)
}

// The search for chains of enablers to marked edits with a ring.
fn chain_search(graph: &Graph, marks: &Marks) -> Search
    ensures { (R : Record) (t : List ℕ) → Resolved R graph.now.rows → graph.now.count ≡ length (names R)
        → marks.now ≡ marks_of R (λ y. mem y t) → Searches R (to_ring t) result × ShortRings R t result.goals }
{
    Search {
        relation: Relation::EnabledBy,
        marks: graph.all_marks(),
        goals: array::from_fn(
            |r| -> u16
                requires { r < mark_limit }
                ensures { RingLengthAt graph.entry.now.rows graph.entry.now.count marks.entry.now r result }
            { ring_length(graph, marks, r) },
        ),
    }
}

// Where the chain of the edit at x starts: at INIT, unless it costs less from the edit.
fn start_of(costs: &Costs, x: usize) -> usize
    requires { x < mark_limit }
    ensures { (result < mark_limit) × StartAt costs.now x result }
{
    if costs[0] <= costs[x] { 0 } else { x }
}

// The least chain of the edit at x, which must stand.
pub fn must_chain(graph: &Graph, x: usize) -> LeastRow
    requires { x < mark_limit }
    ensures { (R : Record) → Resolved R graph.now.rows → graph.now.count ≡ length (names R) → ascending (names R) ≡ true → sound R ≡ true
        → x < length (names R) → must R (name_at R x) ≡ true → Least R (name_at R x) (must_by (named R result)) }
{
    let search = init_search(graph);
    let costs = search.least_costs(graph);
    search.least_row(graph, &costs, x)
}

// The least chain and ring of the edit at x, which can never stand; the marks are those of its needs.
pub fn never_chain(graph: &Graph, needmarks: &Marks, x: usize) -> ChainToRing
    requires { x < mark_limit }
    ensures { (R : Record) → Resolved R graph.now.rows → graph.now.count ≡ length (names R) → ascending (names R) ≡ true → sound R ≡ true
        → x < length (names R) → needmarks.now ≡ marks_of R (λ y. mem y (needs R (0 ∷ name_at R x ∷ []))) → never R (name_at R x) ≡ true
        → Least R (name_at R x) (never_by (named R result.chain) (named R result.ring)) }
{
    let search = chain_search(graph, needmarks);
    let costs = search.least_costs(graph);
    let chain = search.least_row(graph, &costs, start_of(&costs, x));
    ChainToRing {
        chain,
        ring: ring_row(graph, needmarks, chain.last),
    }
}
