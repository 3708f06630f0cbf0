// Readings: levels and signal-to-noise ratios as exact texts, and the difference of two readings of a counter.
// The functions follow the definitions of specs/Level.antt and specs/Decimal.antt one by one. Each `push_..` appends to a text, so they compose.
#![tactic(auto)]

ghost use Rattle.std.specs.Prelude.{◌≡◌, ℕ, List, [], ◌∷◌, ◌++◌};
ghost use Rattle.reading.specs.Decimal.{digit, decimal};
ghost use Rattle.reading.specs.Level.{signed_of, minus, tenths, hundredths, rssi_text, snr_text, text_of, counter_difference};

// A text of at most eight bytes, with zeros behind it. It has its length beside: it is handed back by value, and there is no heap.
#[derive(Clone, Copy, PartialEq, Eq, Debug)]
pub struct Text {
    pub bytes: [u8; 8],
    pub len: usize,
}

// The byte of the last digit of n. `texts` has its own for 64 bits, which its edits `digit_by_nine` and `digits_from_one` hold.
fn last_digit(n: u32) -> u8
    ensures { result ≡ digit n }
{
    b'0' + (n % 10) as u8
}

// The text with one byte more; a text that is full stays as it is.
// The clause names the list that the text is of, so that pushes compose; an invariant of Text would speak of its first eight bytes in each.
#[tactic(auto, using(crate::proofs::Texts::stored_behind))]
fn push(t: Text, b: u8) -> Text
    ensures { (l : List ℕ) → t ≡ text_of l → result ≡ text_of (l ++ (b ∷ [])) }
{
    let at = t.len;
    let mut bytes = t.bytes;
    if at < 8 {
        bytes[at] = b;
        Text { bytes, len: at + 1 }
    } else {
        t
    }
}

// The text with the digits of n behind it.
fn push_decimal(t: Text, n: u32) -> Text
    ensures { (l : List ℕ) → t ≡ text_of l → result ≡ text_of (l ++ decimal n) }
{
    let front = if n < 10 { t } else { push_decimal(t, n / 10) };
    push(front, last_digit(n))
}

// A text that begins with a minus, or is empty.
fn sign(below: bool) -> Text
    ensures { result ≡ text_of (minus below) }
{
    let none = Text {
        bytes: [0; 8],
        len: 0,
    };
    if below { push(none, b'-') } else { none }
}

// The text with n tenths behind it.
fn push_tenths(t: Text, n: u32) -> Text
    ensures { (l : List ℕ) → t ≡ text_of l → result ≡ text_of (l ++ tenths n) }
{
    let whole = push_decimal(t, n / 10);
    push(push(whole, b'.'), last_digit(n))
}

// The text with n hundredths behind it.
fn push_hundredths(t: Text, n: u32) -> Text
    ensures { (l : List ℕ) → t ≡ text_of l → result ≡ text_of (l ++ hundredths n) }
{
    let whole = push_decimal(t, n / 100);
    push(push(push(whole, b'.'), last_digit(n / 10)), last_digit(n))
}

// An RSSI: so many half dBm below zero. The chip counts to 511; every u16 has its text.
#[derive(Clone, Copy, PartialEq, Eq, Debug)]
pub struct HalfDbm(pub u16);

impl HalfDbm {
    // The level in dBm, with one decimal.
    pub fn text(self) -> Text
        ensures { result ≡ text_of (rssi_text self.0) }
    {
        let count = u32::from(self.0);
        push_tenths(sign(0 < count), 5 * count)
    }
}

// An SNR: so many quarter dB, above or below zero.
#[derive(Clone, Copy, PartialEq, Eq, PartialOrd, Ord, Debug)]
pub struct QuarterDb(pub i8);

impl QuarterDb {
    // The count that a byte stands for in two's complement.
    pub fn from_byte(b: u8) -> QuarterDb
        ensures { result.0 ≡ signed_of b }
    {
        QuarterDb(b.cast_signed())
    }

    // The ratio in dB, with two decimals.
    pub fn text(self) -> Text
        ensures { result ≡ text_of (snr_text self.0) }
    {
        let count = self.0;
        push_hundredths(sign(count < 0), 25 * u32::from(count.unsigned_abs()))
    }
}

// How far a counter of 16 bits went on between two readings, also where it wrapped.
pub fn counter_difference(earlier: u16, later: u16) -> u16
    ensures { result ≡ counter_difference earlier later }
{
    later.wrapping_sub(earlier)
}
