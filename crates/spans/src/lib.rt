// Spans of a lent buffer, in place: a span is written, moved down or up, or set to 0, or a number is stored in two bytes. What does not fit the buffer
// is left undone, so that no call asks anything of its caller. specs/Spans.antt says what each leaves.
#![tactic(auto)]

ghost use Rattle.std.specs.Prelude.{◌≡◌, ◌+◌, leb};
ghost use Rattle.spans.specs.Spans.{stored, written, slid, slid_up, zeroed};

// Whether the m bytes from at + gap on lie in a buffer of len bytes.
fn in_bounds(len: usize, at: usize, gap: usize, m: usize) -> bool
    ensures { result ≡ leb (at + gap + m) len }
{
    at <= len && gap <= len - at && m <= len - at - gap
}

// Writes s over the bytes from `at` on. Like the two slides by a loop: `copy_from_slice` and `copy_within` would have the archive for C want `memmove`.
pub fn write(b: &mut [u8], at: usize, s: &[u8])
    ensures { b.new ≡ written b.old at s.now }
{
    if in_bounds(b.len(), at, 0, s.len()) {
        for i in 0..s.len() {
            b[at + i] = s[i];
        }
    }
}

// Moves the m bytes from at + gap on down to `at`.
pub fn slide(b: &mut [u8], at: usize, gap: usize, m: usize)
    ensures { b.new ≡ slid b.old at gap m }
{
    if in_bounds(b.len(), at, gap, m) {
        for i in 0..m {
            b[at + i] = b[at + gap + i];
        }
    }
}

// Moves the m bytes from `at` on up to at + gap, the last one first.
pub fn slide_up(b: &mut [u8], at: usize, gap: usize, m: usize)
    ensures { b.new ≡ slid_up b.old at gap m }
{
    if in_bounds(b.len(), at, gap, m) {
        for i in (0..m).rev() {
            b[at + gap + i] = b[at + i];
        }
    }
}

// Sets the m bytes from `at` on to 0.
pub fn zero(b: &mut [u8], at: usize, m: usize)
    ensures { b.new ≡ zeroed b.old at m }
{
    if in_bounds(b.len(), at, 0, m) {
        b[at..at + m].fill(0);
    }
}

// Stores v in the two bytes at i, high byte first; a number that two bytes cannot hold is not stored.
pub fn put_word(b: &mut [u8], i: usize, v: usize)
    ensures { b.new ≡ stored b.old i v }
{
    if v < 65536 && in_bounds(b.len(), i, 0, 2) {
        let word = (v as u16).to_be_bytes();
        b[i..i + 2].copy_from_slice(&word);
    }
}
