// A record: the operation, the number of bytes of data, a size in two bytes, a kind in eight, the data. Numbers stand high byte first.
ghost use Rattle.std.specs.Prelude.{◌≡◌, ◌+◌, ◌<◌, ◌≤◌, length};

// The bytes before the data.
pub const HEAD: usize = 12;

// The operations: a buffer lent as the book, bytes of it replaced, the book's calls, those of a side that shares it, and a controller's.
pub const LEND: u8 = 1;

pub const POKE: u8 = 2;

pub const MAKE: u8 = 3;

pub const PUT: u8 = 4;

pub const REMOVE: u8 = 5;

pub const ASK: u8 = 6;

pub const CLEAR: u8 = 7;

pub const REPLAY: u8 = 8;

pub const SIDE_PUT: u8 = 9;

pub const SIDE_REMOVE: u8 = 10;

pub const SIDE_ASK: u8 = 11;

pub const SIDE_CLEAR: u8 = 12;

pub const SIDE_REPLAY: u8 = 13;

pub const START: u8 = 14;

pub const SEND: u8 = 15;

pub const HEAR: u8 = 16;

// A number's low byte.
pub fn low(n: usize) -> u8 {
    (n % 256) as u8
}

// The length of the record at the front of s; 0 where none is whole, or where zeros fill the block up.
pub fn whole(s: &[u8]) -> usize
    ensures { result ≤ length s.now }
{
    if s.len() < HEAD || s[0] == 0 {
        return 0;
    }
    let n = HEAD + usize::from(s[1]);
    if s.len() < n { 0 } else { n }
}

// The number that the bytes of s are.
pub fn number(s: &[u8]) -> u64 {
    s.iter().fold(0, |n, b| (n << 8) | u64::from(*b))
}

pub(crate) fn size(r: &[u8]) -> usize
    requires { 12 ≤ length r.now }
{
    (number(&r[2..4]) % 65536) as usize
}

pub(crate) fn kind(r: &[u8]) -> u64
    requires { 12 ≤ length r.now }
{
    number(&r[4..12])
}

// How long the book's buffer is behind this record, if it has `len` bytes before it and can have `most`.
pub(crate) fn lent_len(r: &[u8], len: usize, most: usize) -> usize
    requires { (12 ≤ length r.now) × (len ≤ most) }
    ensures { result ≤ most }
{
    if r[0] == LEND {
        return size(r).min(most);
    }
    len
}

// How long the output is that a call gets: 0 for a call that writes none.
pub(crate) fn output_len(r: &[u8], most: usize) -> usize
    requires { 12 ≤ length r.now }
    ensures { result ≤ most }
{
    match r[0] {
        ASK | REPLAY | SIDE_ASK | SIDE_REPLAY | START | SEND | HEAR => size(r).min(most),
        _ => 0,
    }
}

// Bytes that count up from b: what a buffer holds before a call.
pub fn fill(s: &mut [u8], b: u8) {
    let mut next = b;
    for x in s.iter_mut() {
        *x = next;
        next = next.wrapping_add(1);
    }
}
