// The text of a list of statuses: hex words with white space between them, and lines that begin with `#`, which are skipped.
// specs/Words.antt has the words of a text and what a word says, specs/Found.antt what is found from a place on. `next` steps from word to word:
// proofs/Laws.antt says that so all words of the text are found, in their order.
#![tactic(auto)]

ghost use Rattle.std.specs.Prelude.{◌≡◌, count_by, false, ◌<◌, ◌==◌};
ghost use Rattle.std.specs.List.{position_or_len};
ghost use Rattle.status_list.specs.Words.{all_digits, begins, digit_of, in_comment, is_blank, pair_of};
ghost use Rattle.status_list.specs.Found.{byte_before, found_at, line_of, said_by, skipped_from};

// A word that is a status: its two bytes, and the place behind it.
#[derive(Clone, Copy, PartialEq, Eq, Debug)]
pub struct Found {
    pub high: u8,
    pub low: u8,
    pub next: usize,
}

// Where a word lies that is not four hex digits.
#[derive(Clone, Copy, PartialEq, Eq, Debug)]
pub struct Wrong {
    pub start: usize,
    pub end: usize,
}

// ---- bytes

// White space.
#[tactic(auto, unfolding(crate::specs::Words::is_blank, crate::specs::Words::between))]
pub fn is_blank(b: u8) -> bool
    ensures { result ≡ is_blank b }
{
    b == b' ' || (9 <= b && b <= 13)
}

// Whether a byte stands in a comment, by whether the one before it does.
#[tactic(auto, unfolding(crate::specs::Words::in_comment))]
fn in_comment(c: bool, before: u8, b: u8) -> bool
    ensures { result ≡ in_comment c before b }
{
    b != b'\n' && (c || (before == b'\n' && b == b'#'))
}

// Whether a word begins at a byte.
#[tactic(auto, unfolding(crate::specs::Words::begins))]
fn word_begins(c: bool, before: u8, b: u8) -> bool
    ensures { result ≡ begins c before b }
{
    is_blank(before) && !is_blank(b) && !in_comment(c, before, b)
}

// ---- words

// How many bytes stand before the first word, behind a byte that is in no comment.
fn skipped(before: u8, s: &[u8]) -> usize
    ensures { result ≡ skipped_from false before s.now }
{
    let mut c = false;
    let mut last = before;
    for (i, b) in s.iter().enumerate() {
        if word_begins(c, last, *b) {
            return i;
        }
        c = in_comment(c, last, *b);
        last = *b;
    }
    s.len()
}

// How long the word is that stands at the start.
fn word_length(s: &[u8]) -> usize
    ensures { result ≡ position_or_len is_blank s.now }
{
    s.iter().take_while(|b| !is_blank(**b)).count()
}

// What a hex digit says; 16 for any other byte.
#[tactic(auto, using(crate::proofs::Bytes::digit_cases))]
fn digit(b: u8) -> u8
    ensures { result ≡ digit_of b }
{
    match b {
        b'0'..=b'9' => b - b'0',
        b'A'..=b'F' => b - b'A' + 10,
        b'a'..=b'f' => b - b'a' + 10,
        _ => 16,
    }
}

#[tactic(auto, using(crate::proofs::Scans::digit_steps))]
fn all_digits(word: &[u8]) -> bool
    ensures { result ≡ all_digits word.now }
{
    for b in word {
        if 16 <= digit(*b) {
            return false;
        }
    }
    true
}

// The byte that two digits say.
fn pair(a: u8, b: u8) -> u8
    requires { (digit_of a < 16) × (digit_of b < 16) }
    ensures { result ≡ pair_of a b }
{
    16 * digit(a) + digit(b)
}

// What a word is that lies between two places.
fn said(word: &[u8], start: usize, end: usize) -> Result<Option<Found>, Wrong>
    ensures { result ≡ said_by word.now start end }
{
    if word.len() == 4 && all_digits(word) {
        return Ok(Some(Found {
            high: pair(word[0], word[1]),
            low: pair(word[2], word[3]),
            next: end,
        }));
    }
    Err(Wrong { start, end })
}

// ---- a text

// The byte before a place.
fn byte_before(text: &[u8], at: usize) -> u8
    ensures { result ≡ byte_before text.now at }
{
    match at.checked_sub(1) {
        Some(i) => *text.get(i).unwrap_or(&0),
        None => b'\n',
    }
}

// The first word that begins from a place on, if there is one. The byte before the place tells whether a line or a word begins there; no comment reaches
// there.
pub fn next(text: &[u8], at: usize) -> Result<Option<Found>, Wrong>
    ensures { result ≡ found_at text.now at }
{
    if text.len() <= at {
        return Ok(None);
    }
    let start = at + skipped(byte_before(text, at), &text[at..]);
    if text.len() <= start {
        return Ok(None);
    }
    let end = start + word_length(&text[start..]);
    said(&text[start..end], start, end)
}

fn newlines(s: &[u8]) -> usize
    ensures { result ≡ count_by (λ b. b == 10) s.now }
{
    s.iter().filter(|b| **b == b'\n').count()
}

// The line that the byte at a place is in, counted from 1; 0 where there is no byte.
pub fn line_of(text: &[u8], at: usize) -> usize
    ensures { result ≡ line_of text.now at }
{
    if at < text.len() {
        newlines(&text[..at]) + 1
    } else {
        0
    }
}
