// Forms of the call log: a line is read by a form, and an answer printed by one. Public for the crates of the call log.
#![tactic(auto)]

pub mod productions;

ghost use Rattle.std.specs.Prelude.{◌≡◌, [], ◌∷◌};
ghost use Rattle.text_forms.specs.Form.{fill};
ghost use Rattle.log_forms.specs.Printed.{after_text, Printed};

use refusals::Refusal;

// What is printed: the buffer, the place after what stands in it, past the end where a text did not fit, and the number of the line that is
// answered.
// Kept: `at` is past the end after a text that did not fit, as with_text has it: who runs a log compares it with a limit and with the room.
#[derive(Drop)]
pub struct Printer<'a> {
    pub out: &'a mut [u8],
    pub at: usize,
    pub line: usize,
}

impl<'a> Printer<'a> {
    // At the start of a buffer. Pub for the crates that run a log.
    pub fn new(out: &'a mut [u8], line: usize) -> Printer<'a>
        ensures same_reference { result.out.ghost_name ≡ out.entry.ghost_name }
        ensures content { result.out.now ≡ out.old }
        ensures start { result.at ≡ 0 }
        ensures line { result.line ≡ line }
    {
        Printer { out, at: 0, line }
    }

    // The place after a text: its end, or past the end of the buffer where it did not fit. Pub for the crates that print answers, as below.
    pub fn place_at(&mut self, end: Result<usize, Refusal>)
        ensures { self.new ≡ after_text end self.old }
    {
        self.at = end.unwrap_or(self.out.len() + 1);
    }

    // Prints a form with these numbers, where it fits.
    // Kept: `form`, `numbers`: as in `text_forms`.
    pub fn print(&mut self, form: &[u8], numbers: &[u64])
        ensures { Printed (fill form.now numbers.now ∷ []) self.old self.new }
    {
        let end = text_writer::place_form(form, numbers, self.out, self.at);
        self.place_at(end);
    }
}
