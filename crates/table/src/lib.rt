// The command table: ONE constant of named rows (src/kinds.rt) that the plain builders, the checked builder, the decoder and the book read.
// Its numbers are proved equal to the rows of specs/Table.antt.
#![tactic(auto)]

ghost use Rattle.std.specs.Prelude.{◌≡◌, ◌/◌, ◌%◌, eqb};
ghost use Rattle.frame.specs.Layout.{put};
ghost use Rattle.table.specs.Number.{narrow_of, plain_of};
ghost use Rattle.table.specs.Table.{forms, rows, row_at, yes_no};
ghost use Rattle.table.specs.Heads.{head_at};

use frame::Field;

pub mod fields;
pub mod kinds;

// How many kinds there are, how many of them are settings, and how many settings have two forms.
// from commands.json: counts
pub const KINDS: u64 = 39;

pub const SETTINGS: usize = 29;

pub const PAIRS: usize = 3;
// end: counts

// The slot of a command that is never kept.
pub const ACTION: u32 = 255;

// The opcode stands in bytes 0 and 1 of every frame.
pub const OPCODE: u32 = 0x0010_0000;

// The row at a place of the table, and the last one past its end. A match on named rows: a table that is indexed is first built on the stack. It stays a
// call: written out in the decoder and in each of the two builders the rows would stand in the archive for C three times.
#[inline(never)]
pub fn row_at(i: usize) -> [u32; 13]
    ensures { result ≡ row_at i }
{
    match i {
        // from commands.json: row_at
        0 => kinds::ROW_1,
        1 => kinds::ROW_2,
        2 => kinds::ROW_3,
        3 => kinds::ROW_4,
        4 => kinds::ROW_5,
        5 => kinds::ROW_6,
        6 => kinds::ROW_7,
        7 => kinds::ROW_8,
        8 => kinds::ROW_9,
        9 => kinds::ROW_10,
        10 => kinds::ROW_11,
        11 => kinds::ROW_12,
        12 => kinds::ROW_13,
        13 => kinds::ROW_14,
        14 => kinds::ROW_15,
        15 => kinds::ROW_16,
        16 => kinds::ROW_17,
        17 => kinds::ROW_18,
        18 => kinds::ROW_19,
        19 => kinds::ROW_20,
        20 => kinds::ROW_21,
        21 => kinds::ROW_22,
        22 => kinds::ROW_23,
        23 => kinds::ROW_24,
        24 => kinds::ROW_25,
        25 => kinds::ROW_26,
        26 => kinds::ROW_27,
        27 => kinds::ROW_28,
        28 => kinds::ROW_29,
        29 => kinds::ROW_30,
        30 => kinds::ROW_31,
        31 => kinds::ROW_32,
        32 => kinds::ROW_33,
        33 => kinds::ROW_34,
        34 => kinds::ROW_35,
        35 => kinds::ROW_36,
        36 => kinds::ROW_37,
        37 => kinds::ROW_38,
        38.. => kinds::ROW_39,
        // end: row_at
    }
}

// The head of the row at a place of the table, and that of the last one past its end.
pub fn head_at(i: usize) -> u32
    ensures { result ≡ head_at i }
{
    match i {
        // from commands.json: head_at
        0 => kinds::HEAD_1,
        1 => kinds::HEAD_2,
        2 => kinds::HEAD_3,
        3 => kinds::HEAD_4,
        4 => kinds::HEAD_5,
        5 => kinds::HEAD_6,
        6 => kinds::HEAD_7,
        7 => kinds::HEAD_8,
        8 => kinds::HEAD_9,
        9 => kinds::HEAD_10,
        10 => kinds::HEAD_11,
        11 => kinds::HEAD_12,
        12 => kinds::HEAD_13,
        13 => kinds::HEAD_14,
        14 => kinds::HEAD_15,
        15 => kinds::HEAD_16,
        16 => kinds::HEAD_17,
        17 => kinds::HEAD_18,
        18 => kinds::HEAD_19,
        19 => kinds::HEAD_20,
        20 => kinds::HEAD_21,
        21 => kinds::HEAD_22,
        22 => kinds::HEAD_23,
        23 => kinds::HEAD_24,
        24 => kinds::HEAD_25,
        25 => kinds::HEAD_26,
        26 => kinds::HEAD_27,
        27 => kinds::HEAD_28,
        28 => kinds::HEAD_29,
        29 => kinds::HEAD_30,
        30 => kinds::HEAD_31,
        31 => kinds::HEAD_32,
        32 => kinds::HEAD_33,
        33 => kinds::HEAD_34,
        34 => kinds::HEAD_35,
        35 => kinds::HEAD_36,
        36 => kinds::HEAD_37,
        37 => kinds::HEAD_38,
        38.. => kinds::HEAD_39,
        // end: head_at
    }
}

// The whole table, built on the stack.
pub fn table() -> [[u32; 13]; KINDS as usize]
    ensures { result ≡ rows }
{
    kinds::TABLE
}

pub fn forms() -> [[u64; 2]; PAIRS]
    ensures { result ≡ forms }
{
    kinds::FORMS
}

// The field that a number says, w bits wide.
fn field(number: u32, w: u32) -> Field
    ensures { result ≡ record { first = number / 268435456; lo = number / 16777216 % 8; w = w; le = eqb (number / 134217728 % 2) 1 } }
{
    Field {
        first: (number / 0x1000_0000) as usize,
        lo: (number / 0x100_0000 % 8) as usize,
        w: w as usize,
        le: number / 0x800_0000 % 2 == 1,
    }
}

// A field as the checked builder and the decoder have it.
#[tactic(auto, unfolding(crate::specs::Number::narrow_of))]
pub fn narrow_field(number: u32) -> Field
    ensures { result ≡ narrow_of number }
{
    field(number, number / 0x1_0000 % 256)
}

// A field as the plain builder has it.
#[tactic(auto, unfolding(crate::specs::Number::plain_of))]
pub fn plain_field(number: u32) -> Field
    ensures { result ≡ plain_of number }
{
    field(number, number / 0x1_0000 % 256 + number / 0x1000 % 16)
}

// The value v, cut to the field's plain width and ORed into the frame.
pub fn put_plain(cmd: &mut [u8], number: u32, v: u64)
    ensures { cmd.new ≡ put cmd.old (plain_of number) v }
{
    frame::put(cmd, plain_field(number), v)
}

// A yes is 1, a no is 0.
pub fn yes_no(b: bool) -> u64
    ensures { result ≡ yes_no b }
{
    u64::from(b)
}
