// Why an edit of a record in memory must stand, or can never stand, and of a lent record with its grounds (document 02, A3).
#![tactic(auto)]

ghost use Rattle.std.specs.Prelude.{◌≡◌, ℕ, true, ◌∷◌, map, ◌<◌, length, get_or, IfOk, option_map};
ghost use Rattle.refusals.specs.Numbers.{number_of};
ghost use Rattle.record.specs.Record as theory;
ghost use Rattle.record.specs.Stored.{edit_limit, stored};
ghost use Rattle.record.specs.Judgement as judgement;
ghost use Rattle.record_tables.specs.Table.{decoded};
ghost use Rattle.graph.specs.links.Marks.{mark_limit, name_at};
ghost use Rattle.graph.specs.indexes.Fit.{Fit};
ghost use Rattle.reasons.specs.Given.{reason_of};
ghost use Rattle.reasons_costs.specs.Searches.{named};
ghost use Rattle.judgement.specs.lent_edit.Asked.{lent_edit_fault, KnownIn};
ghost use Rattle.reasons_lent.specs.Asked.{reason_told};

use arrayvec::ArrayVec;
use graph::indexes;
use graph::links::MARKS;
use judgement::lent_edit;
use judgement::lent_edit::KnownEdit;
use reasons_costs::row::LeastRow;
use record::{Edit, Record};
use record_rows::row::LentRecord;
use refusals::Refusal;

// Names of edits, in a chain or a ring.
pub type Names = ArrayVec<u16, MARKS>;

// Why an edit must stand: a chain of enables from it to INIT. Why it can never stand: a chain of enablers from it, or from INIT, and the ring of notafter
// that the chain leads to.
#[derive(Drop)]
pub enum Reason {
    Must(Names),
    Never(Names, Names),
}

// The name at an index, INIT's first; 0 past the edits.
fn index_name(edits: &[Edit], index: usize) -> u16
    ensures { result ≡ get_or (0 ∷ map theory.name_of edits.now) index 0 }
{
    if index == 0 {
        return 0;
    }
    match edits.get(index - 1) {
        Some(edit) => edit.name,
        None => 0,
    }
}

// The names of a row of indexes.
fn row_names(multilog: Record, row: &LeastRow) -> Names
    ensures { (R : theory.Record) → multilog ≡ stored R → result.items ≡ named R row.now }
{
    let mut names = Names::new();
    for index in &row.indexes[..row.count] {
        names.push(index_name(multilog.edit_slice(), usize::from(*index)));
    }
    names
}

// The reason for the edit at an index, if there is one.
fn reason_at(multilog: Record, index: usize) -> Option<Reason>
    requires { index < mark_limit }
    ensures { (R : theory.Record) → multilog ≡ stored R → Fit R → judgement.sound R ≡ true → index < length (theory.names R)
        → option_map reason_told result ≡ reason_of R (name_at R index) }
{
    let graph = indexes::resolved(multilog);
    let mustmarks = judgement_marks::must_marks(&graph.rows);
    if mustmarks[index] == 1 {
        let chain = reasons_rows::must_chain(&graph, index);
        return Some(Reason::Must(row_names(multilog, &chain)));
    }
    let needmarks = judgement_marks::needs_marks(&graph.rows, &mustmarks, index);
    if !graph.has_ring(&needmarks) {
        return None;
    }
    let found = reasons_rows::never_chain(&graph, &needmarks, index);
    Some(Reason::Never(
        row_names(multilog, &found.chain),
        row_names(multilog, &found.ring),
    ))
}

// The reason for an edit that a sound record knows, if there is one.
pub fn reason_known(known: KnownEdit) -> Option<Reason>
    requires { known.place < edit_limit }
    ensures { (R : theory.Record) (edit : ℕ) → known.multilog ≡ stored R → Fit R → judgement.sound R ≡ true → KnownIn R edit known.name known.place
        → option_map reason_told result ≡ reason_of R edit }
{
    reason_at(known.multilog, known.place + 1)
}

// The reason for an edit of a lent record, if there is one.
pub fn reason_lent(lent: LentRecord, edit: u32) -> Result<Option<Reason>, Refusal>
    ensures fault { number_of result ≡ lent_edit_fault lent.entry.edits.now lent.entry.constraints.now edit }
    ensures reason { IfOk result (λ r. option_map reason_told r ≡ reason_of (decoded lent.entry.edits.now lent.entry.constraints.now) edit) }
{
    let known = lent_edit::lent_edit(lent, edit)?;
    Ok(reason_known(known))
}
