// What the election on an edit has won: whether the edit must stand in the won bundle, or can never, and the bundle.
ghost use Rattle.std.specs.Prelude.{◌≡◌};
ghost use Rattle.lists.specs.Lists.{◌among◌};
ghost use Rattle.record.specs.Record as theory;
ghost use Rattle.record.specs.Stored.{stored};
ghost use Rattle.record.specs.Judgement as theory_judgement;
ghost use Rattle.graph.specs.indexes.Fit.{Fit};
ghost use Rattle.log_forms.specs.Printed.{Printed, SameLine};
ghost use Rattle.log_session.specs.votes.Votes.{won_text};

use graph::indexes;
use log_forms::Printer;
use record::Record;

// Whether an edit must stand, and whether it can never. Neither: it is left open.
// Kept: two answers and no enum: the line prints both, and their clauses are the theory's two tests.
#[derive(Clone, Copy)]
pub struct Verdict {
    pub must: bool,
    pub never: bool,
}

// Of an edit that a record knows.
fn verdict_of(multilog: Record, edit: u32) -> Verdict
    ensures { (R : theory.Record) → multilog ≡ stored R → Fit R → edit among theory.names R
        → result ≡ record { must = theory_judgement.must R edit; never = theory_judgement.never R edit } }
{
    let table = indexes::index_table(multilog);
    let index = table.index_of(edit as usize);
    let musts = judgement::musts(multilog);
    let nevers = judgement::nevers(multilog);
    Verdict {
        must: musts[index] == 1,
        never: nevers[index] == 1,
    }
}

// The verdict on the edit, and the bundle.
pub fn print_won(printer: &mut Printer<'_>, edit: u32, bundle: &Record)
    ensures told { (R : theory.Record) → bundle.now ≡ stored R → Fit R → edit among theory.names R → Printed (won_text edit bundle.now) printer.old printer.new }
    ensures same { SameLine printer.old printer.new }
{
    let said = verdict_of(*bundle, edit);
    printer.print(
        b"edit=@ must=? never=? edits=# rules=#\n",
        &[
            u64::from(edit),
            u64::from(said.must),
            u64::from(said.never),
            bundle.edit_count as u64,
            bundle.constraint_count as u64,
        ],
    );
    log_answers::print_text(printer, bundle);
}
