// The members of the bundle of an edit (document 01, "Proposals and votes"), by index: a closure over rows made from the constraints. Functions
// are pub for the crates that make bundles; they are safe for any record.
#![tactic(auto)]

ghost use Rattle.std.specs.Prelude.{◌≡◌, ◌+◌, ◌<◌, ◌≤◌, length};
ghost use Rattle.record.specs.Record as theory;
ghost use Rattle.lists.specs.Lists.{mem, ◌among◌};
ghost use Rattle.record.specs.Stored.{stored};
ghost use Rattle.graph.specs.links.Marks.{mark_limit, marks_of};
ghost use Rattle.graph.specs.links.Links.{row_limit, with_row, Leads};
ghost use Rattle.graph.specs.links.Resolved.{Resolved};
ghost use Rattle.graph.specs.indexes.Fit.{Fit};
ghost use Rattle.graph.specs.indexes.Indexed.{Indexed};
ghost use Rattle.voting.specs.Bundle.{members};
ghost use Rattle.voting_members.specs.Rows.{rival_key, enabled_key, forward_key, backward_key, leads_in};

use graph::indexes;
use graph::indexes::IndexTable;
use graph::links::{Linking, MARKS, Marks, NOTAFTER_BASE, Rows};
use record::Record;

// The key of the row between two noncommuting edits; for none it is the count of indexes, which no edit has as its own.
// Kept: a key for no row, so that each constraint links two rows and no more is asked of their places.
fn rival_key(rows: &Rows, from: usize, to: usize) -> usize
    requires { (from < mark_limit) × (to < mark_limit) }
    ensures { (result ≤ mark_limit) × ((R : theory.Record) → Resolved R rows.now → from < length (theory.names R)
        → to < length (theory.names R) → result ≡ rival_key R from to) }
{
    if rows.leads_to(NOTAFTER_BASE, to, from) {
        MARKS
    } else {
        to
    }
}

// "enables 0" gives no row: INIT is no member of a bundle.
// Kept: a key for no row, as in rival_key.
fn enabled_key(right: usize) -> usize
    requires { right < mark_limit }
    ensures { (result ≤ mark_limit) × (result ≡ enabled_key right) }
{
    if right == 0 { MARKS } else { right }
}

// A constraint by the indexes of its edits.
#[derive(Clone, Copy)]
struct IndexedConstraint {
    left: usize,
    rule: u8,
    right: usize,
    ghost low: { (left < mark_limit) × (right < mark_limit) },
}

// The key of a constraint's row from its left to its right edit.
fn forward_key(rows: &Rows, c: IndexedConstraint) -> usize
    ensures { (result ≤ mark_limit) × ((R : theory.Record) → Resolved R rows.now → c.left < length (theory.names R)
        → c.right < length (theory.names R) → result ≡ forward_key R c.left c.rule c.right) }
{
    // Kept: the specification names a constraint's rule by number.
    match c.rule {
        0 => c.right,
        1 => enabled_key(c.right),
        _ => rival_key(rows, c.left, c.right),
    }
}

// The key of its row from its right to its left edit, which a noncommuting pair alone has.
// Kept: a key for no row, as in rival_key.
fn backward_key(rows: &Rows, c: IndexedConstraint) -> usize
    ensures { (result ≤ mark_limit) × ((R : theory.Record) → Resolved R rows.now → c.left < length (theory.names R)
        → c.right < length (theory.names R) → result ≡ backward_key R c.left c.rule c.right) }
{
    // Kept: the specification names a constraint's rule by number.
    match c.rule {
        0 | 1 => MARKS,
        _ => rival_key(rows, c.right, c.left),
    }
}

// Links both rows of a constraint.
fn link_both(linking: &mut Linking, c: IndexedConstraint, forward: usize, backward: usize)
    requires room { linking.old.count + 1 < row_limit }
    requires keys { (forward ≤ mark_limit) × (backward ≤ mark_limit) }
    ensures cells { linking.new.cells ≡ with_row (with_row linking.old.cells linking.old.count forward c.left) (linking.old.count + 1) backward c.right }
    ensures count { linking.new.count ≡ linking.old.count + 2 }
{
    linking.link_row(forward, c.left);
    linking.link_row(backward, c.right);
}

// The linked rows of what leads to a member; `own` are the record's.
fn leading_rows(multilog: Record, table: &IndexTable, own: &Rows) -> Rows
    ensures { (R : theory.Record) → multilog ≡ stored R → Fit R → Indexed R table.now
        → Resolved R own.now → Leads (leads_in R) R 0 result }
{
    let mut linking = Linking::new();
    for constraint in multilog.constraint_slice() {
        let c = IndexedConstraint {
            left: table.index_of(usize::from(constraint.left)),
            rule: constraint.rule,
            right: table.index_of(usize::from(constraint.right)),
        };
        let forward = forward_key(own, c);
        let backward = backward_key(own, c);
        link_both(&mut linking, c, forward, backward);
    }
    linking.rows()
}

// The linked rows of what leads to a member, from the record and the table of its names. They serve every edit of the record. Pub for
// `voting_bundles`, which makes the table.
pub fn member_rows(multilog: Record, table: &IndexTable) -> Rows
    ensures { (R : theory.Record) → multilog ≡ stored R → Fit R → Indexed R table.now → Leads (leads_in R) R 0 result }
{
    let graph = indexes::resolved(multilog);
    leading_rows(multilog, table, &graph.rows)
}

// The members of the bundle of an edit that the record knows; the rows are those of what leads to a member. Pub for `voting_bundles`, which has
// table and rows.
pub fn member_marks(table: &IndexTable, rows: &Rows, edit: u16) -> Marks
    ensures { (R : theory.Record) → Fit R → Indexed R table.now
        → Leads (leads_in R) R 0 rows.now → edit among theory.written R → result ≡ marks_of R (λ y. mem y (members R edit)) }
{
    let x = table.index_of(usize::from(edit));
    let mut marks = [0u8; MARKS];
    rows.close(0, &mut marks, x);
    marks
}
