// Least costs over the linked rows of a record, and the lowest of the shortest rows, by index. What is pub is for `reasons_rows`, which says what is
// searched for.
#![tactic(auto)]

pub mod row;

ghost use Rattle.std.specs.Prelude.{◌≡◌, true, false, ◌+◌, ℕ, ◌<◌, ◌≤◌, List, length, get_or, IfSome};
ghost use Rattle.lists.specs.Lists.{ascending};
ghost use Rattle.record.specs.Record.{Record, names};
ghost use Rattle.graph.specs.links.Marks.{mark_limit, name_at};
ghost use Rattle.graph.specs.links.Links.{LinkedByKey, NoRow, SomeRow};
ghost use Rattle.graph.specs.links.Resolved.{Resolved};
ghost use Rattle.reasons.specs.Aims.{Aim};
ghost use Rattle.reasons_costs.specs.Searches.{unreached, Searches, LeastCosts, Descended};
ghost use Rattle.reasons_costs.specs.Levels.{base_of, linked_by, limited, LinkTo, LinkFrom, LinkAt, LinkBelow, Relaxed, Within, Covers, Covering, is_down, LowestOf, NextOf};

use crate::row::LeastRow;
use graph::links::{ENABLES_BASE, Graph, MARKS, Marks, NOTAFTER_BASE, Rows};

// Kept: `x < mark_limit`: as in `graph::links`, where a type of indexes was tried.
// Kept: `Resolved R graph.now.rows`, `graph.now.count ≡ length (names R)`: premises of what is ensured, as in `judgement_marks`.

// How many names a shortest row from each edit has, by index, and `UNREACHED` where there is no row.
// Kept: a number for no row, as a cost is compared with others at each link; an Option would be taken apart there.
pub type Costs = [u16; MARKS];

pub const UNREACHED: u16 = 1000;

// The links that a search goes along: from x to y where x is notafter y, where x enables y, where x is enabled by y.
#[derive(Clone, Copy)]
pub enum Relation {
    Notafter,
    Enables,
    EnabledBy,
}

impl Relation {
    // The base of the rows that are its links.
    fn base(self) -> usize
        ensures is { result ≡ base_of self }
        ensures low { result ≤ mark_limit }
    {
        match self {
            Relation::Notafter => NOTAFTER_BASE,
            Relation::Enables | Relation::EnabledBy => ENABLES_BASE,
        }
    }

    // Whether it links x to y.
    fn links(self, rows: &Rows, x: usize, y: usize) -> bool
        requires { (x < mark_limit) × (y < mark_limit) }
        ensures { (R : Record) → Resolved R rows.now → x < length (names R) → y < length (names R)
            → result ≡ linked_by R self (name_at R x) (name_at R y) }
    {
        match self {
            Relation::Notafter => rows.leads_to(NOTAFTER_BASE, x, y),
            Relation::Enables => rows.leads_to(ENABLES_BASE, x, y),
            Relation::EnabledBy => rows.leads_to(ENABLES_BASE, y, x),
        }
    }
}

// The highest cost of those that are reached.
fn highest_cost(costs: &Costs) -> u16
    ensures { (x : ℕ) → get_or costs.now x 0 < unreached → get_or costs.now x 0 ≤ result }
{
    let mut highest = 0;
    for x in 0..MARKS {
        if costs[x] < UNREACHED {
            highest = highest.max(costs[x]);
        }
    }
    highest
}

// The indexes from low on that are less than high.
#[derive(Clone, Copy)]
struct Span {
    low: usize,
    high: usize,
}

const EVERY_EDIT: Span = Span {
    low: 0,
    high: MARKS,
};

const NO_EDIT: Span = Span {
    low: MARKS,
    high: 0,
};

impl Span {
    fn is_empty(self) -> bool
        ensures { result ≡ true → (x : ℕ) → Within self x → ⊥ }
    {
        self.low >= self.high
    }

    // The least span with x in it too.
    fn widened(self, x: usize) -> Span
        requires { x < mark_limit }
        ensures here { Within result x }
        ensures wider { (y : ℕ) → Within self y → Within result y }
    {
        Span {
            low: self.low.min(x),
            high: self.high.max(x + 1),
        }
    }
}

// A search for the shortest rows along links between marked edits. At a goal the cost is that of a shortest row that ends there.
#[derive(Clone, Copy)]
pub struct Search {
    pub relation: Relation,
    pub marks: Marks,
    pub goals: Costs,
}

// A level of a search: the edits that cost so much. Where a link leads to one of them, the edit that it leads from costs at most one more.
#[derive(Clone, Copy)]
struct Level<'a> {
    search: &'a Search,
    graph: &'a Graph,
    cost: u16,
    ghost low: { cost < unreached },
}

impl Level<'_> {
    // Makes the edit at x cost at most one more than the level, where it is marked; the next level's span takes it in.
    #[tactic(auto, unfolding(crate::specs::Levels::limited))]
    fn limit_cost(&self, costs: &mut Costs, next: &mut Span, x: usize)
        requires { x < mark_limit }
        ensures covers { Covering costs.old next.old costs.new next.new }
        ensures is { costs.new ≡ limited self.now.search.now.marks costs.old (self.now.cost + 1) x }
    {
        if self.search.marks[x] == 1 {
            costs[x] = costs[x].min(self.cost + 1);
            *next = next.widened(x);
        }
    }

    // Whether b is the right edit of a row whose left edit is at the level.
    fn any_left(&self, costs: &Costs, b: usize) -> bool
        requires { b < mark_limit }
        ensures some { result ≡ true → SomeRow self.now.graph.now.rows (base_of self.now.search.now.relation + b) (λ y. get_or costs.now y 0 ≡ self.now.cost) }
        ensures none { result ≡ false → NoRow self.now.graph.now.rows (base_of self.now.search.now.relation + b) (λ y. get_or costs.now y 0 ≡ self.now.cost) }
    {
        self.graph
            .rows
            .lefts(self.search.relation.base() + b)
            .any(|left| costs[left] == self.cost)
    }

    // The links to b, where it is at the level.
    fn relax_to(&self, costs: &mut Costs, next: &mut Span, b: usize)
        requires { b < mark_limit }
        ensures covers { Covering costs.old next.old costs.new next.new }
        ensures relaxes { (keys : List ℕ) → LinkedByKey keys self.now.graph.now.rows
            → Relaxed (LinkTo (base_of self.now.search.now.relation) keys self.now.graph.now.rows self.now.search.now.marks b) self.now.cost costs.old costs.new }
    {
        if costs[b] != self.cost {
            return;
        }
        for left in self.graph.rows.lefts(self.search.relation.base() + b) {
            self.limit_cost(costs, next, left);
        }
    }

    // The links from b to the level.
    fn relax_from(&self, costs: &mut Costs, next: &mut Span, b: usize)
        requires { b < mark_limit }
        ensures covers { Covering costs.old next.old costs.new next.new }
        ensures relaxes { (keys : List ℕ) → LinkedByKey keys self.now.graph.now.rows
            → Relaxed (LinkFrom (base_of self.now.search.now.relation) keys self.now.graph.now.rows self.now.search.now.marks b) self.now.cost costs.old costs.new }
    {
        if self.any_left(costs, b) {
            self.limit_cost(costs, next, b);
        }
    }

    // The links to the level that are rows of the right edit b.
    fn relax_rows(&self, costs: &mut Costs, next: &mut Span, b: usize)
        requires { b < mark_limit }
        ensures covers { Covering costs.old next.old costs.new next.new }
        ensures relaxes { (keys : List ℕ) → LinkedByKey keys self.now.graph.now.rows
            → Relaxed (LinkAt self.now.search.now.relation keys self.now.graph.now.rows self.now.search.now.marks b) self.now.cost costs.old costs.new }
    {
        match self.search.relation {
            Relation::Notafter | Relation::Enables => self.relax_to(costs, next, b),
            Relation::EnabledBy => self.relax_from(costs, next, b),
        }
    }

    // The right edits whose rows can be links to the level, where its edits lie in the span.
    fn rights(&self, span: Span) -> Span
        ensures low { result.low ≤ result.high }
        ensures high { result.high ≤ self.now.graph.now.count }
        ensures all { (keys : List ℕ) (b x y : ℕ) → LinkAt self.now.search.now.relation keys self.now.graph.now.rows self.now.search.now.marks b x y
            → b < self.now.graph.now.count → (y < mark_limit → Within span y) → Within result b }
    {
        let count = self.graph.count;
        let high = span.high.min(count);
        match self.search.relation {
            Relation::Notafter | Relation::Enables => Span {
                low: span.low.min(high),
                high,
            },
            Relation::EnabledBy => Span {
                low: 0,
                high: count,
            },
        }
    }

    // All links to the level, whose edits lie in the span. Gives the span of the edits that they lead from.
    fn relax(&self, costs: &mut Costs, span: Span) -> Span
        ensures covers { Covering costs.old NO_EDIT costs.new result }
        ensures relaxes { (keys : List ℕ) → LinkedByKey keys self.now.graph.now.rows → Covers self.now.cost costs.old span
            → Relaxed (LinkBelow self.now.search.now.relation self.now.graph.now.count keys self.now.graph.now.rows self.now.search.now.marks) self.now.cost costs.old costs.new }
    {
        let mut next = NO_EDIT;
        let rights = self.rights(span);
        for b in rights.low..rights.high {
            self.relax_rows(costs, &mut next, b);
        }
        next
    }
}

impl Search {
    // The least costs. Up to the goals' highest cost a goal anywhere may be at the level. All edits of a level above it come from the level before, which tells
    // their span.
    pub fn least_costs(&self, graph: &Graph) -> Costs
        ensures { (R : Record) (aim : Aim) → Resolved R graph.now.rows → graph.now.count ≡ length (names R) → Searches R aim self.now → LeastCosts R aim result }
    {
        let mut costs = self.goals;
        let mut span = EVERY_EDIT;
        let highest = highest_cost(&self.goals);
        for cost in 0..UNREACHED {
            if span.is_empty() {
                return costs;
            }
            let level = Level {
                search: self,
                graph,
                cost,
            };
            let next = level.relax(&mut costs, span);
            span = if cost < highest { EVERY_EDIT } else { next };
        }
        costs
    }

    // Whether a link leads from x to y, which costs one less.
    #[tactic(auto, unfolding(crate::specs::Levels::is_down))]
    fn is_down(&self, rows: &Rows, costs: &Costs, x: usize, y: usize) -> bool
        requires { (x < mark_limit) × (y < mark_limit) }
        ensures { (R : Record) → Resolved R rows.now → x < length (names R) → y < length (names R)
            → result ≡ is_down R self.now.relation costs.now x y }
    {
        usize::from(costs[y]) + 1 == usize::from(costs[x]) && self.relation.links(rows, x, y)
    }

    // The lowest such y.
    fn lowest_down(&self, graph: &Graph, costs: &Costs, x: usize) -> Option<usize>
        requires { x < mark_limit }
        ensures low { IfSome result (λ y. y < graph.now.count) }
        ensures is { (R : Record) → Resolved R graph.now.rows → graph.now.count ≡ length (names R) → x < length (names R)
            → LowestOf (is_down R self.now.relation costs.now x) graph.now.count result }
    {
        (0..graph.count).find(|y| self.is_down(&graph.rows, costs, x, *y))
    }

    // Where the lowest row goes on from x; nowhere where it ends there: x is a goal that costs as little, and is lower than what it could go on to.
    fn next(&self, graph: &Graph, costs: &Costs, x: usize) -> Option<usize>
        requires { x < mark_limit }
        ensures low { IfSome result (λ y. y < graph.now.count) }
        ensures is { (R : Record) → Resolved R graph.now.rows → graph.now.count ≡ length (names R) → x < length (names R)
            → NextOf (is_down R self.now.relation costs.now x) graph.now.count (get_or self.now.goals x 0) (get_or costs.now x 0) x result }
    {
        let y = self.lowest_down(graph, costs, x)?;
        if self.goals[x] == costs[x] && x < y {
            return None;
        }
        Some(y)
    }

    // The lowest of the shortest rows from x to a goal.
    pub fn least_row(&self, graph: &Graph, costs: &Costs, x: usize) -> LeastRow
        requires { x < mark_limit }
        ensures { (R : Record) (aim : Aim) → Resolved R graph.now.rows → graph.now.count ≡ length (names R) → ascending (names R) ≡ true
            → Searches R aim self.now → LeastCosts R aim costs.now → x < length (names R) → get_or costs.now x 0 < unreached
            → Descended R aim self.now.goals costs.now x result }
    {
        let mut indexes = [0; MARKS];
        indexes[0] = x as u8;
        let mut last = x;
        for count in 1..MARKS {
            let Some(next) = self.next(graph, costs, last) else {
                return LeastRow {
                    indexes,
                    count,
                    last,
                };
            };
            indexes[count] = next as u8;
            last = next;
        }
        LeastRow {
            indexes,
            count: MARKS,
            last,
        }
    }
}
