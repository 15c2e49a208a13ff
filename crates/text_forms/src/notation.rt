// Words that stand for numbers, and the notations of texts: how names and fields are spelled (document 01, "Text"). Public for `text_lines`, whose
// lines are written and read over a notation.
ghost use Rattle.std.specs.Prelude.{◌≡◌, ◌≤◌, [], true, length, get_or, IfSome};
ghost use Rattle.text_forms.specs.decimal.Written.{Written};
ghost use Rattle.text_forms.specs.Spelling.{word_spelling, numeral_of};
ghost use Rattle.text_forms.specs.Form.{words_in};
ghost use Rattle.text_forms.specs.Words.{word_texts, are_words};

use crate::decimal;
use crate::decimal::Numeral;

// The words of answers, rules and fields, each first for 0.
const ANSWERS: [&[u8]; 2] = [b"no", b"yes"];

const RULES: [&[u8]; 3] = [b"notafter", b"enables", b"noncommuting"];

const FIELDS: [&[u8]; 4] = [b"id", b"size", b"erase", b"page"];

// What a text may spell in a way of its own.
pub trait Notated {
    ghost use Rattle.text_forms.specs.Spelling.{Notation};

    ghost notation: { Notation };

    fn name_length(n: u64) -> usize
        ensures { (result ≡ length (notation.names.write n)) × (result ≤ 20) };

    fn write_name(out: &mut [u8], n: u64) -> usize
        requires { length (notation.names.write n) ≤ length out.old }
        ensures { Written (notation.names.write n) out.old result out.new };

    fn read_name(bytes: &[u8]) -> Option<Numeral>
        ensures reads { result ≡ numeral_of notation.names bytes.now }
        ensures inside { IfSome result (λ numeral. numeral.size ≤ length bytes.now) };

    // The word of a field, none for another number.
    // Kept: beside the words below, which the reader goes through: document 01 wants a match on field numbers where a line is written.
    fn field_word(field: u32) -> &'static [u8]
        ensures { result.now ≡ get_or notation.fields field [] };

    fn fields() -> &'static [&'static [u8]]
        ensures gives { word_texts result.now ≡ notation.fields }
        ensures fine { are_words notation.fields ≡ true };
}

// Names in decimal, and the fields of the old text.
pub struct DecimalNotation;

impl Notated for DecimalNotation {
    ghost use Rattle.text_forms.specs.Spelling.{decimal_notation};

    ghost notation = { decimal_notation };

    fn name_length(n: u64) -> usize {
        decimal::number_length(n)
    }

    fn write_name(out: &mut [u8], n: u64) -> usize {
        decimal::write_number(out, n)
    }

    fn read_name(bytes: &[u8]) -> Option<Numeral> {
        decimal::read_number(bytes)
    }

    #[tactic(auto, unfolding(crate::specs::Spelling::decimal_notation, crate::specs::Spelling::field_words, crate::specs::Spelling::bytes))]
    fn field_word(field: u32) -> &'static [u8] {
        match field {
            0 => b"id",
            1 => b"size",
            2 => b"erase",
            3 => b"page",
            _ => b"",
        }
    }

    fn fields() -> &'static [&'static [u8]] {
        &FIELDS
    }
}

// The words that a mark of words stands for.
pub(crate) fn words<N: Notated>(mark: u8) -> &'static [&'static [u8]]
    ensures gives { word_texts result.now ≡ words_in N.notation mark }
    ensures fine { are_words (words_in N.notation mark) ≡ true }
{
    match mark {
        b'%' => N::fields(),
        b'!' => &RULES,
        _ => &ANSWERS,
    }
}

// The word for a number; none past the words.
pub(crate) fn nth_word(words: &[&'static [u8]], n: u64) -> &'static [u8]
    ensures { result.now ≡ (word_spelling (word_texts words.now)).write n }
{
    match words.get(n as usize) {
        Some(word) => *word,
        None => b"",
    }
}

// The number of the word that a text starts with.
pub(crate) fn read_word(words: &[&'static [u8]], bytes: &[u8]) -> Option<Numeral>
    requires { are_words (word_texts words.now) ≡ true }
    ensures { result ≡ numeral_of (word_spelling (word_texts words.now)) bytes.now }
{
    for (place, word) in words.iter().enumerate() {
        if bytes.starts_with(*word) {
            return Some(Numeral {
                size: word.len(),
                value: place as u64,
            });
        }
    }
    None
}
