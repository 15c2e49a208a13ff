// A record with what its bundles are made from, once for many edits.
ghost use Rattle.std.specs.Prelude.{◌≡◌, List, ℕ};
ghost use Rattle.record.specs.Record as theory;
ghost use Rattle.lists.specs.Lists.{mem, ◌among◌};
ghost use Rattle.record.specs.Stored.{stored};
ghost use Rattle.graph.specs.links.Marks.{marks_of};
ghost use Rattle.graph.specs.indexes.Fit.{Fit};
ghost use Rattle.graph.specs.indexes.Indexed.{Indexed};
ghost use Rattle.voting.specs.Bundle.{between, bundle};

use graph::indexes;
use graph::indexes::IndexTable;
use graph::links::{Marks, Rows};
use record::{Constraint, Record};
use std::marker::Model;

// Whether an edit that the record knows is a member, by the marks of the members.
fn is_member(table: &IndexTable, marks: &Marks, name: u16) -> bool
    ensures { (R : theory.Record) (m : List ℕ) → Indexed R table.now → marks.now ≡ marks_of R (λ y. mem y m)
        → name among theory.names R → result ≡ mem name m }
{
    marks[table.index_of(usize::from(name))] == 1
}

// Whether the ends of a constraint are members, or a member and 0.
fn is_between(table: &IndexTable, marks: &Marks, constraint: Constraint) -> bool
    ensures { (R : theory.Record) (m : List ℕ) → Indexed R table.now → marks.now ≡ marks_of R (λ y. mem y m)
        → constraint.left among theory.names R → constraint.right among theory.names R → result ≡ between m constraint.left constraint.right }
{
    if !is_member(table, marks, constraint.left) {
        return false;
    }
    constraint.right == 0 || is_member(table, marks, constraint.right)
}

// A record with the index of each name, and the rows of what leads to a member.
#[derive(Drop)]
pub struct Bundling {
    multilog: Record,
    table: IndexTable,
    rows: Rows,
}

// Clauses see the record.
impl Model for Bundling {
    ghost use Rattle.std.specs.Prelude.{◌≡◌, length};
    ghost use Rattle.record.specs.declared.Record as declared;
    ghost use Rattle.record.specs.Record as theory;
    ghost use Rattle.record.specs.Stored.{stored, edit_limit, constraint_limit};
    ghost use Rattle.graph.specs.links.Links.{Leads};
    ghost use Rattle.graph.specs.indexes.Fit.{Fit};
    ghost use Rattle.graph.specs.indexes.Indexed.{Indexed};
    ghost use Rattle.voting_members.specs.Rows.{leads_in};

    ghost Value = { declared.Record };

    ghost view = { λ b. b.multilog };

    ghost invariant = { λ b. (length b.multilog.edits ≡ edit_limit) × (length b.multilog.constraints ≡ constraint_limit)
        × ((R : theory.Record) → b.multilog ≡ stored R → Fit R → Indexed R b.table × Leads (leads_in R) R 0 b.rows) };
}

impl Bundling {
    pub fn new(multilog: Record) -> Bundling
        ensures { result ≡ multilog }
    {
        let table = indexes::index_table(multilog);
        let rows = voting_members::member_rows(multilog, &table);
        Bundling {
            multilog,
            table,
            rows,
        }
    }

    // The bundle of an edit that the record knows. It is safe for any edit.
    pub fn bundle(&self, name: u16) -> Record
        ensures { (R : theory.Record) → self.now ≡ stored R → Fit R → name among theory.written R → result ≡ stored (bundle R name) }
    {
        let table = &self.table;
        let marks = voting_members::member_marks(table, &self.rows, name);
        let mut small = record::empty();
        let edits = voting::select(
            self.multilog.edit_slice(),
            |edit| is_member(table, &marks, edit.name),
            &mut small.edits,
        );
        let constraints = voting::select(
            self.multilog.constraint_slice(),
            |constraint| is_between(table, &marks, constraint),
            &mut small.constraints,
        );
        small.edit_count = edits;
        small.constraint_count = constraints;
        small
    }
}
