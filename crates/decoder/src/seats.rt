// Where an opcode's rows are: the head of the first row that has it, with the row's place and length, and the length of the next row where
// that has the same opcode. A length of 0 is none.
ghost use Rattle.std.specs.Prelude.{◌≡◌};
ghost use Rattle.decoder.specs.Seats.{seat_of};

use table::kinds;

// The seat of an opcode.
pub(crate) fn seat_of(op: u64) -> u32
    ensures { result ≡ seat_of op }
{
    match op {
        // from commands.json: seat_of
        0x0220 => kinds::HEAD_1,
        0x0221 => kinds::HEAD_2,
        0x0222 => kinds::HEAD_3,
        0x0223 => kinds::HEAD_4,
        0x0226 => kinds::HEAD_5,
        0x0227 => kinds::HEAD_7,
        0x0228 => kinds::HEAD_8,
        0x0229 => kinds::HEAD_9,
        0x022A => kinds::HEAD_10,
        0x022B => kinds::HEAD_11,
        0x022D => kinds::HEAD_12,
        0x022E => kinds::HEAD_13,
        0x021D => kinds::HEAD_14,
        0x0240 => kinds::HEAD_16,
        0x0241 => kinds::HEAD_17,
        0x0242 => kinds::HEAD_18,
        0x0243 => kinds::HEAD_19,
        0x0244 => kinds::HEAD_20,
        0x0245 => kinds::HEAD_21,
        0x0246 => kinds::HEAD_22,
        0x0247 => kinds::HEAD_23,
        0x0200 => kinds::HEAD_24,
        0x0201 => kinds::HEAD_25,
        0x0202 => kinds::HEAD_27,
        0x020C => kinds::HEAD_29,
        0x020D => kinds::HEAD_30,
        0x020F => kinds::HEAD_31,
        0x0210 => kinds::HEAD_32,
        0x0211 => kinds::HEAD_33,
        0x0215 => kinds::HEAD_34,
        0x0216 => kinds::HEAD_35,
        0x0218 => kinds::HEAD_36,
        0x021A => kinds::HEAD_38,
        0x021B => kinds::HEAD_39,
        // end: seat_of
        _ => 0,
    }
}
