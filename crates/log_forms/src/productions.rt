// Lines read by the productions of a grammar: the numbers of a form, by their places. Public for `log_commands`.
ghost use Rattle.std.specs.Prelude.{◌≡◌};
ghost use Rattle.log_forms.specs.productions.Words.{words_kept, words_read};

use refusals::Refusal;
use text_forms::NUMBERS;

// These numbers, where each fits 32 bits.
// Kept: a loop by place: `try_map` takes each number from an array of Options and lays each word in another, which was a fifth of a log of turns.
fn words_kept(numbers: [u64; NUMBERS]) -> Result<[u32; NUMBERS], Refusal>
    ensures { result ≡ words_kept numbers }
{
    let mut words = [0; NUMBERS];
    for (i, n) in numbers.iter().enumerate() {
        let word = text_lines::word(*n)?;
        words[i] = word;
    }
    Ok(words)
}

// The numbers with which this form gives the bytes.
pub fn read_words(form: &[u8], bytes: &[u8]) -> Result<[u32; NUMBERS], Refusal>
    ensures { result ≡ words_read form.now bytes.now }
{
    let numbers = text_forms::read_form(form, bytes).ok_or(Refusal::NotInForm)?;
    words_kept(numbers)
}
