// A record by index: its names resolved once, its constraints as linked rows. Functions are pub for the crates that judge records. They are safe
// for any counts and names; what they give is said of a record that is stored with checked tables.
ghost use Rattle.std.specs.Prelude.{◌≡◌, ℕ, ◌+◌, ◌*◌, ◌<◌, ◌≤◌, length, get_or, set};
ghost use Rattle.record.specs.Record as theory;
ghost use Rattle.record.specs.Stored.{stored};
ghost use Rattle.record_rows.specs.row.Row.{name_limit};
ghost use Rattle.graph.specs.links.Marks.{mark_limit};
ghost use Rattle.graph.specs.links.Links.{key_limit};
ghost use Rattle.graph.specs.links.Resolved.{Resolved};
ghost use Rattle.graph.specs.indexes.Fit.{Fit};
ghost use Rattle.graph.specs.indexes.Indexed.{Indexed};

use crate::links::{ENABLES_BASE, Graph, Linking, NONCOMMUTING_BASE, Rows};
use record::Record;
use record_rows::row::NAMES;
use std::marker::Model;

// Kept: `x < mark_limit`, `key < key_limit`: as in `graph::links`, where a type of indexes was tried.

// How many indexes there are, INIT's included.
fn name_count(multilog: Record) -> usize
    ensures most { result ≤ mark_limit }
    ensures count { (R : theory.Record) → multilog ≡ stored R → Fit R → result ≡ length (theory.names R) }
{
    multilog.edit_slice().len() + 1
}

// The index of each name below the limit of names; 0 for INIT and for a name that the record does not know.
#[derive(Clone, Copy)]
pub struct IndexTable {
    indexes: [u8; NAMES],
}

// Clauses see the indexes.
impl Model for IndexTable {
    ghost use Rattle.std.specs.Prelude.{◌≡◌, List, ℕ, ◌<◌, get_or, length};
    ghost use Rattle.record_rows.specs.row.Row.{name_limit};
    ghost use Rattle.graph.specs.links.Marks.{mark_limit};

    ghost Value = { List ℕ };

    ghost view = { λ t. t.indexes };

    ghost inverse = { λ indexes. record { indexes = indexes } };

    ghost invariant = { λ t. (length t.indexes ≡ name_limit) × ((x : ℕ) → get_or t.indexes x 0 < mark_limit) };
}

// The entry of a name in any table by name, 0 where it has none. Pub for whoever keeps such a table; of the crates here `index_of` alone calls it.
// Kept: with a twin in `text_report` (`number_at`): a table of indexes gives places, and marks give numbers to print; one function of both would be
// converted at each use.
pub fn index_in(indexes: &[u8], name: usize) -> usize
    ensures { result ≡ get_or indexes.now name 0 }
{
    indexes.get(name).map_or(0, |index| usize::from(*index))
}

impl IndexTable {
    // A table of indexes that were filled elsewhere, for whoever keeps indexes of their own; no crate here does.
    pub fn from_indexes(indexes: [u8; NAMES]) -> IndexTable
        requires { (x : ℕ) → get_or indexes x 0 < mark_limit }
        ensures { result ≡ indexes }
    {
        IndexTable { indexes }
    }

    // The indexes as an array, for whoever keeps indexes of their own; no crate here does.
    pub fn indexes(&self) -> &[u8; NAMES]
        ensures is { result.now ≡ self.now }
        ensures size { length self.now ≡ name_limit }
        ensures low { (x : ℕ) → get_or self.now x 0 < mark_limit }
    {
        &self.indexes
    }

    // Kept: tested and then indexed, as in crate catalogue: a proof learns no element that was written through get_mut.
    fn put_index(&mut self, name: u16, index: usize)
        requires { index < mark_limit }
        ensures { self.new ≡ set self.old name index }
    {
        let at = usize::from(name);
        if at < NAMES {
            self.indexes[at] = index as u8;
        }
    }

    // The index of a name, 0 where the record has none. Pub for the crates that resolve names.
    // Kept: 0 for INIT and for no name, as place_in has it; known_index of crate judgement tells them apart.
    pub fn index_of(&self, name: usize) -> usize
        ensures is { result ≡ get_or self.now name 0 }
        ensures low { result < mark_limit }
    {
        index_in(&self.indexes, name)
    }
}

pub fn index_table(multilog: Record) -> IndexTable
    ensures { (R : theory.Record) → multilog ≡ stored R → Fit R → Indexed R result }
{
    let mut table = IndexTable {
        indexes: [0; NAMES],
    };
    for (i, edit) in multilog.edit_slice().iter().enumerate() {
        table.put_index(edit.name, i + 1);
    }
    table
}

// The right index above the base of the rule.
fn key_of(rule: u8, right: usize) -> usize
    requires { right < mark_limit }
    ensures low { result < key_limit }
    ensures is { rule < 3 → result ≡ rule * mark_limit + right }
{
    // Kept: the specification names a constraint's rule by number.
    match rule {
        0 => right,
        1 => ENABLES_BASE + right,
        _ => NONCOMMUTING_BASE + right,
    }
}

fn rows_of(multilog: Record, table: &IndexTable) -> Rows
    ensures { (R : theory.Record) → multilog ≡ stored R → Fit R → Indexed R table.now → Resolved R result }
{
    let mut linking = Linking::new();
    for constraint in multilog.constraint_slice() {
        let left = table.index_of(usize::from(constraint.left));
        let right = table.index_of(usize::from(constraint.right));
        linking.link_row(key_of(constraint.rule, right), left);
    }
    linking.rows()
}

// The edits of a record by index, with its linked rows.
pub fn resolved(multilog: Record) -> Graph
    ensures { (R : theory.Record) → multilog ≡ stored R → Fit R → Resolved R result.rows × (result.count ≡ length (theory.names R)) }
{
    let table = index_table(multilog);
    Graph {
        count: name_count(multilog),
        rows: rows_of(multilog, &table),
    }
}
