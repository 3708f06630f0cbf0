// Which list of frames a buffer's bytes hold, for any layout: whether they are a book at all (`check`), and what its header says.
// specs/Contents.antt says what is read in bytes, and which bytes a list has; proofs/Judged.antt and proofs/Written.antt that the two agree.
#![tactic(auto)]

ghost use Rattle.std.specs.Prelude.{◌≡◌, ◌+◌, ◌*◌, ◌<◌, ◌≤◌, length, get_or, drop};
ghost use Rattle.contents.specs.Contents.{all_zero, frames_from, judge, layout, length_at, offset_at, offset_for};
ghost use Rattle.contents.specs.Contents.{present_from, slot_at, slot_from, start, verdict_of, word_at};

use frame::byte_at;
use refusal::Refusal;
use settings::{size_of, slot_of};

// The most bytes that a buffer has, and the most slots that it has offsets for.
pub const LONGEST: usize = 4096;

const MOST_SLOTS: usize = (LONGEST - 4) / 2;

// ---- the header

// The number in the two bytes at i, high byte first.
pub fn word(b: &[u8], i: usize) -> usize
    ensures { (result ≡ word_at b.now i) × (result < 65536) }
{
    if i < b.len() {
        return byte_at(b, i) as usize * 256 + byte_at(b, i + 1) as usize;
    }
    0
}

// The offset that the header has for a slot.
pub fn offset(b: &[u8], slot: usize) -> usize
    ensures { (result ≡ offset_at b.now slot) × (result < 65536) }
{
    if slot < b.len() / 2 {
        return word(b, 4 + 2 * slot);
    }
    0
}

// The same for a header of so many slots: a slot that is not among them has none.
pub fn offset_for(b: &[u8], slots: usize, slot: usize) -> usize
    ensures { (result ≡ offset_for slots b.now slot) × (result < 65536) }
{
    if slot < slots {
        return offset(b, slot);
    }
    0
}

// The offset of a slot where it lies in the buffer, for the loops over all slots.
fn offset_in(b: &[u8], slot: usize) -> usize
    requires { 4 + 2 * slot + 1 < length b.now }
    ensures { (result ≡ offset_at b.now slot) × (result < 65536) }
{
    b[4 + 2 * slot] as usize * 256 + b[4 + 2 * slot + 1] as usize
}

// The first slot whose offset is p; `slots` where there is none. One byte rules most slots out, so the low one is compared first.
fn slot_from(b: &[u8], slots: usize, p: usize) -> usize
    requires { start slots ≤ length b.now }
    ensures { (result ≡ slot_from slots b.now p 0) × (result ≤ slots) }
{
    let low = (p % 256) as u8;
    for s in 0..slots {
        if b[4 + 2 * s + 1] == low && offset_in(b, s) == p {
            return s;
        }
    }
    slots
}

// The same for any buffer: one too short for the offsets of so many slots has none of them.
pub fn slot_at(b: &[u8], slots: usize, p: usize) -> usize
    ensures { (result ≡ slot_at slots b.now p) × (result ≤ slots) }
{
    if slots < b.len() / 2 && 4 + 2 * slots <= b.len() {
        return slot_from(b, slots, p);
    }
    slots
}

// How many slots are present.
fn present(b: &[u8], slots: usize) -> usize
    requires { start slots ≤ length b.now }
    ensures { result ≡ present_from slots b.now 0 }
{
    let mut n: usize = 0;
    for s in 0..slots {
        if offset_in(b, s) != 0 {
            n += 1;
        }
    }
    n
}

// ---- the frames

// How long the frame at p is; 0 where no slot has one there that ends by e.
fn len_at(b: &[u8], slots: usize, p: usize, e: usize) -> usize
    requires { (start slots ≤ length b.now) × (p ≤ e) × (e ≤ length b.now) }
    ensures { (result ≡ length_at slots b.now p e) × (p + result ≤ e) × (result < 256) }
{
    let s = slot_from(b, slots, p);
    if s >= slots {
        return 0;
    }
    let n = size_of(s);
    if n > e - p {
        return 0;
    }
    if slot_of(&b[p..p + n]) == s {
        return n;
    }
    0
}

// Whether c frames fill the bytes from the header to e.
fn tiles(b: &[u8], slots: usize, c: usize, e: usize) -> Result<(), Refusal>
    requires { (start slots ≤ e) × (e ≤ length b.now) }
    ensures { result ≡ verdict_of (frames_from slots c b.now (start slots) e) }
{
    let mut p: usize = 4 + 2 * slots;
    for _i in 0..c {
        let n = len_at(b, slots, p, e);
        if n == 0 {
            return Err(Refusal::NotWellFormed);
        }
        p += n;
    }
    if p == e {
        return Ok(());
    }
    Err(Refusal::NotWellFormed)
}

// Whether every byte from e on is 0. Their bits are joined, with no early end, so that the compiler looks at many bytes at a time.
fn tail_zero(b: &[u8], e: usize) -> bool
    requires { e ≤ length b.now }
    ensures { result ≡ all_zero (drop e b.now) }
{
    let mut bits: u8 = 0;
    for i in e..b.len() {
        bits |= b[i];
    }
    bits == 0
}

// ---- the whole buffer

// Whether the bytes are a book of a layout. More slots than MOST_SLOTS fit no buffer.
pub fn check(b: &[u8], version: u8, slots: usize) -> Result<(), Refusal>
    ensures { result ≡ verdict_of (judge (layout version slots) b.now) }
{
    if slots > MOST_SLOTS {
        return Err(Refusal::BufferSize);
    }
    let first = 4 + 2 * slots;
    if b.len() < first {
        return Err(Refusal::BufferSize);
    }
    if b.len() > LONGEST {
        return Err(Refusal::BufferSize);
    }
    if b[0] != version {
        return Err(Refusal::NotWellFormed);
    }
    let e = word(b, 2);
    if e < first {
        return Err(Refusal::NotWellFormed);
    }
    if b.len() < e {
        return Err(Refusal::NotWellFormed);
    }
    let c = b[1] as usize;
    if present(b, slots) != c {
        return Err(Refusal::NotWellFormed);
    }
    if !tail_zero(b, e) {
        return Err(Refusal::NotWellFormed);
    }
    tiles(b, slots, c, e)
}
