// An edit of a record, for an operation that is asked about one: its grounds (document 01, "What is turned away").
ghost use Rattle.std.specs.Prelude.{◌≡◌, IfOk};
ghost use Rattle.refusals.specs.Numbers.{number_of};
ghost use Rattle.record.specs.Record as theory;
ghost use Rattle.record.specs.Stored.{stored};
ghost use Rattle.record_tables.specs.Table.{decoded};
ghost use Rattle.record_tables.specs.Checked.{Checked};
ghost use Rattle.judgement.specs.lent_record.Lent.{Taking};
ghost use Rattle.judgement.specs.lent_edit.Asked.{named_fault, lent_edit_fault, KnownIn};

use record::Record;
use record_rows::row;
use record_rows::row::LentRecord;
use record_tables::lookup;
use refusals::Refusal;

// A record in memory, and one of its edits: its name, and its place among the edits.
#[derive(Clone, Copy)]
pub struct KnownEdit {
    pub multilog: Record,
    pub name: u16,
    pub place: usize,
}

// The edit of a record in memory.
pub fn named_edit(multilog: Record, edit: u32) -> Result<KnownEdit, Refusal>
    ensures fault { (R : theory.Record) → multilog ≡ stored R → Checked R → number_of result ≡ named_fault R edit }
    ensures known { IfOk result (λ k. (k.multilog ≡ multilog) × ((R : theory.Record) → multilog ≡ stored R → Checked R → KnownIn R edit k.name k.place)) }
{
    let name = row::name(edit)?;
    let place = lookup::place_of(multilog, name).ok_or(Refusal::Unknown)?;
    Ok(KnownEdit {
        multilog,
        name,
        place,
    })
}

// The edit of a lent record, which has to be sound.
pub fn lent_edit(lent: LentRecord, edit: u32) -> Result<KnownEdit, Refusal>
    ensures fault { number_of result ≡ lent_edit_fault lent.entry.edits.now lent.entry.constraints.now edit }
    ensures taken { IfOk result (λ k. Taking lent.entry.edits.now lent.entry.constraints.now k.multilog) }
    ensures known { IfOk result (λ k. KnownIn (decoded lent.entry.edits.now lent.entry.constraints.now) edit k.name k.place) }
{
    let multilog = record_joining::lent(lent)?;
    let known = named_edit(multilog, edit)?;
    if !crate::sound(multilog) {
        return Err(Refusal::Unsound);
    }
    Ok(known)
}
