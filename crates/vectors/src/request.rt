// A request's payload, read with no condition: a byte that is not there is 0. Numbers stand low byte first.

// Where the arguments of a builder begin. Each has eight bytes; a number of fewer bits is the low part of them.
pub const A0: usize = 0;

pub const A1: usize = 8;

pub const A2: usize = 16;

pub const A3: usize = 24;

pub const A4: usize = 32;

pub const A5: usize = 40;

pub const A6: usize = 48;

pub const A7: usize = 56;

pub const A8: usize = 64;

pub fn byte(p: &[u8], at: usize) -> u8 {
    if at < p.len() { p[at] } else { 0 }
}

pub fn yes(p: &[u8], at: usize) -> bool {
    byte(p, at) != 0
}

// The numbers at a place of the payload, which has 108 bytes.
pub fn u16_at(p: &[u8], at: usize) -> u16 {
    let i = at % 107;
    (byte(p, i) as u16) + 256 * (byte(p, i + 1) as u16)
}

pub fn u32_at(p: &[u8], at: usize) -> u32 {
    let i = at % 105;
    (u16_at(p, i) as u32) + 65536 * (u16_at(p, i + 2) as u32)
}

pub fn u64_at(p: &[u8], at: usize) -> u64 {
    let i = at % 101;
    (u32_at(p, i) as u64) + 4294967296 * (u32_at(p, i + 4) as u64)
}
