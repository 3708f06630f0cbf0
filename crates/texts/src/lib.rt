// Texts in a lent output: bytes, words, numbers, and forms with numbers filled in. Each `put_..` writes behind what stands there, as far as the
// output goes, and hands back where it ended, so they compose. specs/Written.antt says what is put; proofs/Writing.antt joins what was put.
// A writer that holds output and place would be no plainer: `Puts` would speak of its two fields, before and after, in each clause.
#![tactic(auto)]

ghost use Rattle.std.specs.Prelude.{◌≡◌, [], ◌∷◌};
ghost use Rattle.reading.specs.Decimal.{digit, decimal};
ghost use Rattle.texts.specs.Words.{spaced};
ghost use Rattle.texts.specs.Written.{Puts, piece, filled};

// ---- words and numbers

pub fn put_byte(out: &mut [u8], at: usize, b: u8) -> usize
    ensures { Puts (b ∷ []) at out.old result out.new }
{
    if at < out.len() {
        out[at] = b;
        at + 1
    } else {
        at
    }
}

pub fn put_text(out: &mut [u8], at: usize, text: &[u8]) -> usize
    ensures { Puts text.now at out.old result out.new }
{
    let mut to = at;
    for b in text {
        to = put_byte(out, to, *b);
    }
    to
}

// The byte of the last digit of n.
pub fn last_digit(n: u64) -> u8
    ensures { result ≡ digit n }
{
    b'0' + (n % 10) as u8
}

pub fn put_decimal(out: &mut [u8], at: usize, n: u64) -> usize
    ensures { Puts (decimal n) at out.old result out.new }
{
    if n < 10 {
        return put_byte(out, at, last_digit(n));
    }
    let last = put_decimal(out, at, n / 10);
    put_byte(out, last, last_digit(n))
}

// A blank and a word.
pub fn put_word(out: &mut [u8], at: usize, word: &[u8]) -> usize
    ensures { Puts (spaced (word.now ∷ []) []) at out.old result out.new }
{
    let to = put_byte(out, at, b' ');
    put_text(out, to, word)
}

// ---- forms: the digit 0 stands for the first of the numbers, 1 for the second, and so on; any other byte for itself

// One byte of a form.
pub fn put_piece(out: &mut [u8], at: usize, b: u8, numbers: &[u64]) -> usize
    ensures { Puts (piece b numbers.now) at out.old result out.new }
{
    if b'0' <= b && usize::from(b - b'0') < numbers.len() {
        put_decimal(out, at, numbers[usize::from(b - b'0')])
    } else {
        put_byte(out, at, b)
    }
}

pub fn put_form(out: &mut [u8], at: usize, form: &[u8], numbers: &[u64]) -> usize
    ensures { Puts (filled form.now numbers.now []) at out.old result out.new }
{
    let mut to = at;
    for b in form {
        to = put_piece(out, to, *b, numbers);
    }
    to
}
