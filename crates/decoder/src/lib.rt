// The decoder: a frame's kind and arguments by the one table, or why it has none.
// The laws that tie it to the builders are codec's (proofs/Laws.antt).
#![tactic(auto)]

ghost use Rattle.std.specs.Prelude.{◌≡◌, ◌&&◌, ◌+◌, ◌/◌, ◌%◌, ◌^◌, ◌≤◌, ◌<◌, length, take, T};
ghost use Rattle.frame.specs.Field.{read};
ghost use Rattle.frame.specs.Layout.{bytes, reads};
ghost use Rattle.table.specs.Number.{narrow_of, narrows_of};
ghost use Rattle.table.specs.Table.{kinds, row_at, len_of, count_of, numbers_of};
ghost use Rattle.table.specs.Narrowed.{opcode};
ghost use Rattle.decoder.specs.Words.{big_end, from, first_word, last_word, held_of, held_byte, clean_words, InWords, reached, all_reached};
ghost use Rattle.decoder.specs.Words.{Whole, AllWhole, nine, all_taken};
ghost use Rattle.decoder.specs.Decoding.{stray_at, lower, lacking, judged, sought, decode, decoded};

use refusal::Refusal;

mod rows;
mod seats;

// A frame's kind, and its first count arguments; zeros follow. An array with its count, since the library has no heap.
#[derive(Clone, Copy)]
pub struct Decoded {
    pub kind: u64,
    pub count: usize,
    pub args: [u64; 9],
}

// ---- a frame in words

// The number of eight bytes, high byte first.
fn eight(s: &[u8], at: usize) -> u64
    requires { at + 8 ≤ length s.now }
    ensures { result ≡ big_end (from at (bytes s.now)) 8 }
{
    u64::from_be_bytes([
        s[at],
        s[at + 1],
        s[at + 2],
        s[at + 3],
        s[at + 4],
        s[at + 5],
        s[at + 6],
        s[at + 7],
    ])
}

// The number of the first n bytes, of which there are at most eight.
fn bytes_to(s: &[u8], n: usize) -> u64
    requires { (n ≤ 8) × (n ≤ length s.now) }
    ensures { result ≡ big_end (bytes s.now) n }
{
    let mut sum: u64 = 0;
    for b in &s[..n] {
        sum = sum * 256 + u64::from(*b);
    }
    sum
}

// The first eight of n bytes where there are more than eight, else 0.
fn first_of(frame: &[u8], n: usize) -> u64
    requires { n ≤ length frame.now }
    ensures { result ≡ first_word n (bytes frame.now) }
{
    if 8 < n { eight(frame, 0) } else { 0 }
}

// The last eight of n bytes, or all.
fn last_of(frame: &[u8], n: usize) -> u64
    requires { n ≤ length frame.now }
    ensures { result ≡ last_word n (bytes frame.now) }
{
    if 8 <= n {
        eight(frame, n - 8)
    } else {
        bytes_to(frame, n)
    }
}

// The bits that the fields of the row at a place hold, in the same two words.
fn held_at(i: usize) -> [u64; 2]
    ensures { result ≡ held_of (row_at i) }
{
    match i {
        // from commands.json: held_at
        0 => [0, 0xFFFF_FFFF],
        1 => [0, 0xFFFF_FFFF_FF07],
        2 => [0, 0xFFFF_FF01],
        3 => [0, 0x00FF_FFFF],
        4 => [0, 0xFFFF_87FF_FFFF_FFFF],
        5 => [0xFFFF_87FF_FFFF_FFFF, 0xFFFF_FFFF_7FFF_FFFF],
        6 => [0xFFFF_FF1F_FFFF_FFFF, 0xFFFF_1FFF_FFFF_FFFF],
        7 => [0, 0xFFFF],
        8 => [0, 0xFFFF],
        9 => [0, 0xFFFF],
        10 => [0xFFFF_FFFF_FFFF_FFFF, 0xFFFF_FFFF_FFFF_FFFF],
        11 => [0, 0xFFFF_1F1F],
        12 => [0, 0xFFFF_1F1F_1F1F_1F1F],
        13 => [0, 0x00FF_FFCF],
        14 => [0, 0xFFFF_FF1F],
        15 => [0xFFFF_FFFF_FFFF_0FFF, 0xFFFF_FF0F_FFFF_FFFF],
        16 => [0xFFFF_FFFF_FF1F_FFFF, 0xFFFF_FFFF_1FFF_FFF1],
        17 => [0, 0xFFFF_1FFF],
        18 => [0xFFFF_FFFF_FFFF_FFFF, 0xFFFF_FFFF_FFFF_FFFF],
        19 => [0xFFFF_FFFF_FFFF_FFFF, 0xFFFF_FFFF_FFFF_FFFF],
        20 => [0, 0xFFFF_FFFF],
        21 => [0, 0xFFFF],
        22 => [0, 0xFFFF],
        23 => [0, 0xFFFF_FFFF_FFFF],
        24 => [0, 0x00FF_FF01],
        25 => [0, 0xFFFF_0107],
        26 => [0, 0xFFFF_F30F],
        27 => [0, 0x00FF_FFF3_0F1F],
        28 => [0, 0x00FF_FFFF_FFFF],
        29 => [0, 0x00FF_FFFF_FFFF],
        30 => [0, 0x00FF_FF01],
        31 => [0xFFFF_FFFF_FFFF_FFFF, 0xFFFF_FFFF_FFFF_FF17],
        32 => [0xFFFF_83FF_FFFF_FFFF, 0x83FF_FFFF_FFFF_FFFF],
        33 => [0, 0xFFFF_FFFF_FFFF_FFFF],
        34 => [0, 0x00FF_FF3F],
        35 => [0, 0x00FF_FFFF_FFFF],
        36 => [0, 0xFFFF_FFFF_FFFF],
        37 => [0, 0x00FF_FF0F],
        38.. => [0xFFFF_FFFF_FFFF_03FF, 0xFFFF_FFFF_03FF_FFFF],
        // end: held_at
    }
}

// Whether each word lies under its mask, so that no byte has a stray bit.
fn is_clean(held: [u64; 2], first: u64, last: u64) -> bool
    ensures { result ≡ clean_words held first last }
{
    first & held[0] == first && last & held[1] == last
}

// ---- a row's fields

fn bits_of(word: u64, shift: usize, w: usize) -> u64
    requires { (shift < 64) × (w < 64) }
    ensures { result ≡ word / 2 ^ shift % 2 ^ w }
{
    (word >> shift) % (1u64 << w)
}

// The number that a field of a frame of n bytes holds: some bits of a word, or eight bytes, which are `whole`. With constants for n and the
// number no test is left when the program runs. The frame is here for the contract alone: its bytes come in the words.
fn field_of(frame: &[u8], first: u64, last: u64, whole: u64, n: usize, number: u32) -> u64
    requires { (n ≡ length frame.now) × InWords first last frame.now × T (reached n number) × Whole whole (bytes frame.now) number }
    ensures { result ≡ read (narrow_of number) (bytes frame.now) }
{
    let f = table::narrow_field(number);
    if f.w == 0 {
        return 0;
    }
    if 63 < f.w {
        return whole;
    }
    let end = f.first + (f.w + 7) / 8;
    let shift = 8 * (n - end) + f.lo;
    if shift + f.w <= 64 {
        return bits_of(last, shift, f.w);
    }
    bits_of(first, 8 * (8 - end) + f.lo, f.w)
}

// The numbers that nine fields of a frame hold; whether no bit is stray for the row at a place, and each number is taken.
// Straight code over single numbers, so that it can be written out for each row with that row's constants. With frame, words, whole and n as one
// struct with a method good frames took 27.7 ns in place of 25.1, and an unknown code 52 in place of 41. The arguments are wanted of a bad frame
// too, to find the field: so a bool beside them, and no Option.
fn read_fields(
    place: usize,
    frame: &[u8],
    first: u64,
    last: u64,
    whole: u64,
    n: usize,
    c0: u32,
    c1: u32,
    c2: u32,
    c3: u32,
    c4: u32,
    c5: u32,
    c6: u32,
    c7: u32,
    c8: u32,
    args: &mut [u64; 9],
) -> bool
    requires { (n ≡ length frame.now) × InWords first last frame.now × T (all_reached n (nine c0 c1 c2 c3 c4 c5 c6 c7 c8))
        × AllWhole whole (bytes frame.now) (nine c0 c1 c2 c3 c4 c5 c6 c7 c8) }
    ensures { (result ≡ (clean_words (held_of (row_at place)) first last && all_taken (nine c0 c1 c2 c3 c4 c5 c6 c7 c8) (bytes frame.now)))
        × (args.new ≡ reads (narrows_of (nine c0 c1 c2 c3 c4 c5 c6 c7 c8)) (bytes frame.now)) }
{
    let v0 = field_of(frame, first, last, whole, n, c0);
    let v1 = field_of(frame, first, last, whole, n, c1);
    let v2 = field_of(frame, first, last, whole, n, c2);
    let v3 = field_of(frame, first, last, whole, n, c3);
    let v4 = field_of(frame, first, last, whole, n, c4);
    let v5 = field_of(frame, first, last, whole, n, c5);
    let v6 = field_of(frame, first, last, whole, n, c6);
    let v7 = field_of(frame, first, last, whole, n, c7);
    let v8 = field_of(frame, first, last, whole, n, c8);
    *args = [v0, v1, v2, v3, v4, v5, v6, v7, v8];
    // All are known already: by `&` no way branches off here.
    let t8 = codes::is_taken(c8, v8);
    let t7 = codes::is_taken(c7, v7) & t8;
    let t6 = codes::is_taken(c6, v6) & t7;
    let t5 = codes::is_taken(c5, v5) & t6;
    let t4 = codes::is_taken(c4, v4) & t5;
    let t3 = codes::is_taken(c3, v3) & t4;
    let t2 = codes::is_taken(c2, v2) & t3;
    let t1 = codes::is_taken(c1, v1) & t2;
    let t0 = codes::is_taken(c0, v0) & t1;
    is_clean(held_at(place), first, last) & t0
}

// ---- the decoder

// Byte i of n, of the bits that are held in two words.
fn held_byte(held: [u64; 2], n: usize, i: usize) -> u64
    requires { (i < n) × (n ≤ 12) }
    ensures { result ≡ held_byte held n i }
{
    if i + 8 < n {
        (held[0] >> (8 * (7 - i))) % 256
    } else {
        (held[1] >> (8 * (n - 1 - i))) % 256
    }
}

// The lowest byte with a bit that no field of the row at a place holds, or the frame's length.
fn first_stray(place: usize, frame: &[u8]) -> usize
    requires { (place < kinds) × (len_of (row_at place) ≡ length frame.now) }
    ensures { result ≡ stray_at (row_at place) frame.now }
{
    let held = held_at(place);
    let n = frame.len();
    for (i, byte) in frame.iter().enumerate() {
        let b = u64::from(*byte);
        if b & held_byte(held, n, i) != b {
            return i;
        }
    }
    n
}

// What a field that holds v makes of the lowest byte so far.
fn lowered(number: u32, v: u64, low: usize) -> usize
    ensures { result ≡ lower number v low }
{
    if codes::is_taken(number, v) {
        return low;
    }
    let f = table::narrow_field(number);
    f.first.min(low)
}

// The lowest byte, below n, of a field that does not take what it holds, or n.
fn first_lacking(row: [u32; 13], args: [u64; 9], n: usize) -> usize
    requires { count_of row ≤ 9 }
    ensures { result ≡ lacking n (numbers_of row) (take (count_of row) args) }
{
    let mut low = n;
    for j in (0..row[3] as usize).rev() {
        low = lowered(row[4 + j], args[j], low);
    }
    low
}

// The number of fields of the row at a place.
fn count_at(i: usize) -> usize
    ensures { result ≡ count_of (row_at i) }
{
    (table::head_at(i) / 256 % 16) as usize
}

// What a frame with the opcode and the length of the row at a place says. Only a refused one is gone over again, for the place.
fn judge(i: usize, frame: &[u8]) -> Result<Decoded, Refusal>
    requires { (i < kinds) × (len_of (row_at i) ≡ length frame.now) }
    ensures { result ≡ decoded (judged (i + 1) (row_at i) frame.now) }
{
    let mut args = [0u64; 9];
    if rows::read_row(i, frame, &mut args) {
        return Ok(Decoded {
            kind: (i + 1) as u64,
            count: count_at(i),
            args,
        });
    }
    let p = first_stray(i, frame);
    if p < frame.len() {
        return Err(Refusal::StrayBit(p));
    }
    Err(Refusal::UnknownCode(first_lacking(table::row_at(i), args, frame.len())))
}

// The opcode, which is the first two bytes.
fn opcode_of(frame: &[u8]) -> u64
    requires { 2 ≤ length frame.now }
    ensures { result ≡ opcode frame.now }
{
    u64::from(u16::from_be_bytes([frame[0], frame[1]]))
}

// The row with this opcode and length.
fn seek(op: u64, len: usize) -> Result<usize, Refusal>
    requires { 2 ≤ len }
    ensures { result ≡ sought op len }
{
    let seat = seats::seat_of(op) as usize;
    if seat / 16 % 16 == 0 {
        return Err(Refusal::UnknownOpcode);
    }
    if seat / 16 % 16 == len {
        return Ok(seat / 0x10_0000);
    }
    if seat % 16 == len {
        return Ok(seat / 0x10_0000 + 1);
    }
    Err(Refusal::WrongLength)
}

// A frame's kind and arguments, or why it has none.
pub fn decode(frame: &[u8]) -> Result<Decoded, Refusal>
    ensures { result ≡ decoded (decode frame.now) }
{
    let n = frame.len();
    if n < 2 {
        return Err(Refusal::ShortFrame);
    }
    let i = seek(opcode_of(frame), n)?;
    judge(i, frame)
}
