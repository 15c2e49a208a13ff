// Numbers in decimal without leading zeros, written and read (document 01, "Text"). Public for the crates of forms and lines.
ghost use Rattle.std.specs.Prelude.{◌≡◌, ◌≤◌, length, not, position};
ghost use Rattle.text_forms.specs.decimal.Decimal.{decimal, is_digit, digit_run, value_from, numeral_read, saturated};
ghost use Rattle.text_forms.specs.decimal.Written.{Written};

// The least number that does not fit 32 bits.
const CUTOFF: u64 = u32::MAX as u64 + 1;

// The numeral that a text starts with: how many bytes it takes, at least one, and its value, cut off at 2^32.
#[derive(Clone, Copy)]
pub struct Numeral {
    pub size: usize,
    pub value: u64,
}

// How many bytes n takes.
// Kept: tried with `map_or`, the check finds no proof of the one goal that both cases then are; of a match it has a goal for each.
pub fn number_length(n: u64) -> usize
    ensures { result ≡ length (decimal n) }
{
    match n.checked_ilog10() {
        Some(power) => power as usize + 1,
        None => 1,
    }
}

// Writes n to the start of out, its last digit first, and answers how many bytes that took. Pub for `text_forms`, which has seen that it fits.
pub fn write_number(out: &mut [u8], n: u64) -> usize
    requires { length (decimal n) ≤ length out.old }
    ensures { Written (decimal n) out.old result out.new }
{
    let size = number_length(n);
    let mut rest = n;
    for i in (0..size).rev() {
        out[i] = b'0' + (rest % 10) as u8;
        rest /= 10;
    }
    size
}

// The same, one digit and two apart from the loop. Pub for `text_forms`, as before.
// Kept: beside the loop alone: without the two a line of answers took a tenth to a fifth more time; with them the writers of a text's lines, which go
// word by word, took a sixth more, since they are then too large to be inlined with their words.
pub fn write_short(out: &mut [u8], n: u64) -> usize
    requires { length (decimal n) ≤ length out.old }
    ensures { Written (decimal n) out.old result out.new }
{
    if n < 10 {
        out[0] = b'0' + n as u8;
        return 1;
    }
    if n < 100 {
        out[0] = b'0' + (n / 10) as u8;
        out[1] = b'0' + (n % 10) as u8;
        return 2;
    }
    write_number(out, n)
}

// The place of the first byte that is no digit.
fn digits_end(bytes: &[u8]) -> Option<usize>
    ensures { result ≡ position (λ byte. not (is_digit byte)) bytes.now }
{
    bytes.iter().position(|byte| !byte.is_ascii_digit())
}

// How many digits a text starts with.
fn digit_count(bytes: &[u8]) -> usize
    ensures { result ≡ length (digit_run bytes.now) }
{
    digits_end(bytes).unwrap_or(bytes.len())
}

// What digits spell, cut off at 2^32: digits after that change nothing.
fn digits_value(digits: &[u8]) -> u64
    requires { digit_run digits.now ≡ digits.now }
    ensures { result ≡ saturated (value_from 0 digits.now) }
{
    let mut value = 0u64;
    for digit in digits {
        value = (value * 10 + u64::from(digit - b'0')).min(CUTOFF);
    }
    value
}

// The numeral that a text starts with: some digit, and no zero before another.
pub fn read_number(bytes: &[u8]) -> Option<Numeral>
    ensures { result ≡ numeral_read bytes.now }
{
    let size = digit_count(bytes);
    if size == 0 {
        return None;
    }
    if 1 < size && bytes[0] == b'0' {
        return None;
    }
    Some(Numeral {
        size,
        value: digits_value(&bytes[..size]),
    })
}
