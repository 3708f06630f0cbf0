// Made from docs/commands.json by docs/make_reference.py: the cells, the rows, the pairs of forms and the heads.
// The check refuses a number that is not as specs/Table.antt has it.
use crate::{ACTION, KINDS, PAIRS};

// The fields' numbers, named by their places: B2_7_4 is byte 2, bits 7 to 4; W2_3 is bytes 2 and 3; L3_10 is bytes 3 to 10, low byte first.
// C stands for B or W where the argument is a code: an enum's, or a yes or no. _SF, _PBL, _CRC, _CAD, _BW: one of that list of codes;
// _TO9: nothing above 9; _CUT3: narrowed to 3 bits.
// In hex: the first byte; 8 for the low byte first, plus the low bit; two digits for the narrowed width; the bits that the plain
// builder has more; 8 for a code, plus three digits for what is taken.
const C2_0: u32 = 0x2001_0800;

const B2_1_0: u32 = 0x2002_0000;

const C2_1_0: u32 = 0x2002_0800;

const C2_1_0_TO2: u32 = 0x2002_0802;

const B2_2_0: u32 = 0x2003_0000;

const B2_3_0: u32 = 0x2004_0000;

const C2_3_0: u32 = 0x2004_0800;

const C2_3_0_TO4: u32 = 0x2004_0804;

const B2_4_0: u32 = 0x2005_0000;

const W2: u32 = 0x2008_0000;

const W2_3_CUT12: u32 = 0x200C_4000;

const W2_3: u32 = 0x2010_0000;

const W2_4: u32 = 0x2018_0000;

const W2_5: u32 = 0x2020_0000;

const W2_9: u32 = 0x2040_0000;

const B2_5_2: u32 = 0x2204_0000;

const C2_4: u32 = 0x2401_0800;

const C2_5_4_TO2: u32 = 0x2402_0802;

const B2_7_4_CUT3: u32 = 0x2403_1000;

const C2_7_4_TO8: u32 = 0x2404_0808;

const C2_7_4_SF: u32 = 0x2404_0900;

const B2_7_6: u32 = 0x2602_0000;

const C2_7_6_TO2: u32 = 0x2602_0802;

const C2_7: u32 = 0x2701_0800;

const C3_0: u32 = 0x3001_0800;

const C3_1_0_TO1: u32 = 0x3002_0801;

const C3_2_0: u32 = 0x3003_0800;

const B3_3_0: u32 = 0x3004_0000;

const B3_4_0: u32 = 0x3005_0000;

const W3: u32 = 0x3008_0000;

const W3_4: u32 = 0x3010_0000;

const W3_5: u32 = 0x3018_0000;

const C3_3_2: u32 = 0x3202_0800;

const C3_4: u32 = 0x3401_0800;

const C3_7_4_TO9: u32 = 0x3404_0809;

const L3_10: u32 = 0x3840_0000;

const B4_4_0: u32 = 0x4005_0000;

const W4: u32 = 0x4008_0000;

const C4_PBL: u32 = 0x4008_0901;

const C4_CAD: u32 = 0x4008_0903;

const C5_0: u32 = 0x5001_0800;

const C5_1_0: u32 = 0x5002_0800;

const B5_4_0: u32 = 0x5005_0000;

const W5: u32 = 0x5008_0000;

const W5_7: u32 = 0x5018_0000;

const C5_1: u32 = 0x5101_0800;

const C5_2: u32 = 0x5201_0800;

const C5_3_2_TO2: u32 = 0x5202_0802;

const C5_4_CUT0: u32 = 0x5400_1800;

const C5_4: u32 = 0x5401_0800;

const C6_1_0_TO2: u32 = 0x6002_0802;

const C6_3_0: u32 = 0x6004_0800;

const B6_4_0: u32 = 0x6005_0000;

const W6_7: u32 = 0x6010_0000;

const W6_9: u32 = 0x6020_0000;

const B7_4_0: u32 = 0x7005_0000;

const C7_BW: u32 = 0x7008_0904;

const W7_9: u32 = 0x7018_0000;

const C8_0: u32 = 0x8001_0800;

const B8_2_0: u32 = 0x8003_0000;

const B8_6_0: u32 = 0x8007_0000;

const W8: u32 = 0x8008_0000;

const W8_10: u32 = 0x8018_0000;

const C8_4: u32 = 0x8401_0800;

const C8_7_4_CRC: u32 = 0x8404_0902;

const B9_3_0: u32 = 0x9004_0000;

const B9_7_4: u32 = 0x9404_0000;

const B10_6_0_TO64: u32 = 0xA007_0040;

const W10: u32 = 0xA008_0000;

const C10_7: u32 = 0xA701_0800;

const W11: u32 = 0xB008_0000;

// ROW_k is kind k: opcode, length, slot, number of fields, and the fields in the Rust's argument order.
pub const ROW_1: [u32; 13] = [
    0x0220, 4, 0, 5, C2_7_4_SF, C2_3_0, C3_7_4_TO9, C3_1_0_TO1, C3_3_2, 0, 0, 0, 0,
];

pub const ROW_2: [u32; 13] = [0x0221, 6, 1, 5, W2_3, W4, C5_2, C5_1, C5_0, 0, 0, 0, 0];

pub const ROW_3: [u32; 13] = [0x0222, 4, 2, 2, W2, C3_0, 0, 0, 0, 0, 0, 0, 0];

pub const ROW_4: [u32; 13] = [0x0223, 3, 3, 1, W2, 0, 0, 0, 0, 0, 0, 0, 0];

pub const ROW_5: [u32; 13] = [0x0226, 8, 4, 4, C2_7, B2_2_0, W3_4, W5_7, 0, 0, 0, 0, 0];

pub const ROW_6: [u32; 13] = [
    0x0226, 12, 5, 9, C2_7, B2_2_0, W3_4, W5_7, B8_6_0, B9_7_4, B9_3_0, W10, W11,
];

pub const ROW_7: [u32; 13] = [0x0227, 9, 6, 6, W2, C3_4, B3_3_0, C4_CAD, W5_7, W8, 0, 0, 0];

pub const ROW_8: [u32; 13] = [0x0228, 2, ACTION, 0, 0, 0, 0, 0, 0, 0, 0, 0, 0];

pub const ROW_9: [u32; 13] = [0x0229, 2, ACTION, 0, 0, 0, 0, 0, 0, 0, 0, 0, 0];

pub const ROW_10: [u32; 13] = [0x022A, 2, ACTION, 0, 0, 0, 0, 0, 0, 0, 0, 0, 0];

pub const ROW_11: [u32; 13] = [
    0x022B, 11, 7, 3, C2_7_4_TO8, B2_3_0, L3_10, 0, 0, 0, 0, 0, 0,
];

pub const ROW_12: [u32; 13] = [0x022D, 4, 8, 2, B2_4_0, B3_4_0, 0, 0, 0, 0, 0, 0, 0];

pub const ROW_13: [u32; 13] = [
    0x022E, 8, 9, 6, B2_4_0, B3_4_0, B4_4_0, B5_4_0, B6_4_0, B7_4_0, 0, 0, 0,
];

pub const ROW_14: [u32; 13] = [0x021D, 3, 10, 2, C2_7_6_TO2, B2_3_0, 0, 0, 0, 0, 0, 0, 0];

pub const ROW_15: [u32; 13] = [
    0x021D, 4, 11, 5, B2_7_6, B2_5_2, B2_1_0, C3_4, B3_3_0, 0, 0, 0, 0,
];

pub const ROW_16: [u32; 13] = [0x0240, 11, 12, 4, W2_5, C6_3_0, C7_BW, W8_10, 0, 0, 0, 0, 0];

pub const ROW_17: [u32; 13] = [
    0x0241, 9, 13, 9, W2_3, C4_PBL, C5_4, C5_4_CUT0, C5_3_2_TO2, C5_1_0, W6_7, C8_7_4_CRC, C8_0,
];

pub const ROW_18: [u32; 13] = [0x0242, 4, 14, 2, C2_4, W2_3_CUT12, 0, 0, 0, 0, 0, 0, 0];

pub const ROW_19: [u32; 13] = [0x0243, 10, 15, 2, W2_5, W6_9, 0, 0, 0, 0, 0, 0, 0];

pub const ROW_20: [u32; 13] = [
    0x0244,
    11,
    16,
    3,
    W2_9,
    C10_7,
    B10_6_0_TO64,
    0,
    0,
    0,
    0,
    0,
    0,
];

pub const ROW_21: [u32; 13] = [0x0245, 4, 17, 2, W2, W3, 0, 0, 0, 0, 0, 0, 0];

pub const ROW_22: [u32; 13] = [0x0246, 2, ACTION, 0, 0, 0, 0, 0, 0, 0, 0, 0, 0];

pub const ROW_23: [u32; 13] = [0x0247, 2, ACTION, 0, 0, 0, 0, 0, 0, 0, 0, 0, 0];

pub const ROW_24: [u32; 13] = [0x0200, 6, 18, 1, W2_5, 0, 0, 0, 0, 0, 0, 0, 0];

pub const ROW_25: [u32; 13] = [0x0201, 3, 19, 1, C2_0, 0, 0, 0, 0, 0, 0, 0, 0];

pub const ROW_26: [u32; 13] = [0x0201, 4, 20, 2, C2_0, C3_2_0, 0, 0, 0, 0, 0, 0, 0];

pub const ROW_27: [u32; 13] = [
    0x0202,
    4,
    21,
    4,
    C2_7,
    C2_1_0,
    B2_7_4_CUT3,
    B3_3_0,
    0,
    0,
    0,
    0,
    0,
];

pub const ROW_28: [u32; 13] = [
    0x0202,
    5,
    22,
    5,
    C2_7,
    C2_1_0,
    B2_7_4_CUT3,
    B3_3_0,
    B4_4_0,
    0,
    0,
    0,
    0,
];

pub const ROW_29: [u32; 13] = [0x020C, 5, ACTION, 1, W2_4, 0, 0, 0, 0, 0, 0, 0, 0];

pub const ROW_30: [u32; 13] = [0x020D, 5, ACTION, 1, W2_4, 0, 0, 0, 0, 0, 0, 0, 0];

pub const ROW_31: [u32; 13] = [0x020F, 3, 23, 1, C2_0, 0, 0, 0, 0, 0, 0, 0, 0];

pub const ROW_32: [u32; 13] = [
    0x0210, 9, ACTION, 4, W2_4, W5_7, C8_4, B8_2_0, 0, 0, 0, 0, 0,
];

pub const ROW_33: [u32; 13] = [
    0x0211, 10, 24, 4, C2_7, C2_1_0_TO2, W3_5, W6_9, 0, 0, 0, 0, 0,
];

pub const ROW_34: [u32; 13] = [0x0215, 8, 25, 2, W2_4, W5_7, 0, 0, 0, 0, 0, 0, 0];

pub const ROW_35: [u32; 13] = [
    0x0216, 3, 26, 2, C2_5_4_TO2, C2_3_0_TO4, 0, 0, 0, 0, 0, 0, 0,
];

pub const ROW_36: [u32; 13] = [0x0218, 5, ACTION, 1, W2_4, 0, 0, 0, 0, 0, 0, 0, 0];

pub const ROW_37: [u32; 13] = [0x0218, 6, ACTION, 2, W2_4, W5, 0, 0, 0, 0, 0, 0, 0];

pub const ROW_38: [u32; 13] = [0x021A, 3, 27, 1, B2_3_0, 0, 0, 0, 0, 0, 0, 0, 0];

pub const ROW_39: [u32; 13] = [0x021B, 10, 28, 4, W2_4, W5, C6_1_0_TO2, W7_9, 0, 0, 0, 0, 0];

pub const TABLE: [[u32; 13]; KINDS as usize] = [
    ROW_1, ROW_2, ROW_3, ROW_4, ROW_5, ROW_6, ROW_7, ROW_8, ROW_9, ROW_10, ROW_11, ROW_12, ROW_13,
    ROW_14, ROW_15, ROW_16, ROW_17, ROW_18, ROW_19, ROW_20, ROW_21, ROW_22, ROW_23, ROW_24, ROW_25,
    ROW_26, ROW_27, ROW_28, ROW_29, ROW_30, ROW_31, ROW_32, ROW_33, ROW_34, ROW_35, ROW_36, ROW_37,
    ROW_38, ROW_39,
];

// The kinds that are one setting in two lengths, the shorter form first.
pub const FORMS: [[u64; 2]; PAIRS] = [[5, 6], [25, 26], [27, 28]];

// HEAD_k is what the code wants of row k beside its fields (specs/Heads.antt). In hex: two digits for the row's place, two for the
// slot, the number of fields, the length, and the length of the next row where that has the same opcode.
pub const HEAD_1: u32 = 0x0000_0000 + ROW_1[2] * 0x1000 + ROW_1[3] * 0x100 + ROW_1[1] * 0x10;

pub const HEAD_2: u32 = 0x0010_0000 + ROW_2[2] * 0x1000 + ROW_2[3] * 0x100 + ROW_2[1] * 0x10;

pub const HEAD_3: u32 = 0x0020_0000 + ROW_3[2] * 0x1000 + ROW_3[3] * 0x100 + ROW_3[1] * 0x10;

pub const HEAD_4: u32 = 0x0030_0000 + ROW_4[2] * 0x1000 + ROW_4[3] * 0x100 + ROW_4[1] * 0x10;

pub const HEAD_5: u32 = 0x0040_0000
    + ROW_5[2] * 0x1000
    + ROW_5[3] * 0x100
    + ROW_5[1] * 0x10
    + ROW_6[1];

pub const HEAD_6: u32 = 0x0050_0000 + ROW_6[2] * 0x1000 + ROW_6[3] * 0x100 + ROW_6[1] * 0x10;

pub const HEAD_7: u32 = 0x0060_0000 + ROW_7[2] * 0x1000 + ROW_7[3] * 0x100 + ROW_7[1] * 0x10;

pub const HEAD_8: u32 = 0x0070_0000 + ROW_8[2] * 0x1000 + ROW_8[3] * 0x100 + ROW_8[1] * 0x10;

pub const HEAD_9: u32 = 0x0080_0000 + ROW_9[2] * 0x1000 + ROW_9[3] * 0x100 + ROW_9[1] * 0x10;

pub const HEAD_10: u32 = 0x0090_0000 + ROW_10[2] * 0x1000 + ROW_10[3] * 0x100 + ROW_10[1] * 0x10;

pub const HEAD_11: u32 = 0x00A0_0000 + ROW_11[2] * 0x1000 + ROW_11[3] * 0x100 + ROW_11[1] * 0x10;

pub const HEAD_12: u32 = 0x00B0_0000 + ROW_12[2] * 0x1000 + ROW_12[3] * 0x100 + ROW_12[1] * 0x10;

pub const HEAD_13: u32 = 0x00C0_0000 + ROW_13[2] * 0x1000 + ROW_13[3] * 0x100 + ROW_13[1] * 0x10;

pub const HEAD_14: u32 = 0x00D0_0000
    + ROW_14[2] * 0x1000
    + ROW_14[3] * 0x100
    + ROW_14[1] * 0x10
    + ROW_15[1];

pub const HEAD_15: u32 = 0x00E0_0000 + ROW_15[2] * 0x1000 + ROW_15[3] * 0x100 + ROW_15[1] * 0x10;

pub const HEAD_16: u32 = 0x00F0_0000 + ROW_16[2] * 0x1000 + ROW_16[3] * 0x100 + ROW_16[1] * 0x10;

pub const HEAD_17: u32 = 0x0100_0000 + ROW_17[2] * 0x1000 + ROW_17[3] * 0x100 + ROW_17[1] * 0x10;

pub const HEAD_18: u32 = 0x0110_0000 + ROW_18[2] * 0x1000 + ROW_18[3] * 0x100 + ROW_18[1] * 0x10;

pub const HEAD_19: u32 = 0x0120_0000 + ROW_19[2] * 0x1000 + ROW_19[3] * 0x100 + ROW_19[1] * 0x10;

pub const HEAD_20: u32 = 0x0130_0000 + ROW_20[2] * 0x1000 + ROW_20[3] * 0x100 + ROW_20[1] * 0x10;

pub const HEAD_21: u32 = 0x0140_0000 + ROW_21[2] * 0x1000 + ROW_21[3] * 0x100 + ROW_21[1] * 0x10;

pub const HEAD_22: u32 = 0x0150_0000 + ROW_22[2] * 0x1000 + ROW_22[3] * 0x100 + ROW_22[1] * 0x10;

pub const HEAD_23: u32 = 0x0160_0000 + ROW_23[2] * 0x1000 + ROW_23[3] * 0x100 + ROW_23[1] * 0x10;

pub const HEAD_24: u32 = 0x0170_0000 + ROW_24[2] * 0x1000 + ROW_24[3] * 0x100 + ROW_24[1] * 0x10;

pub const HEAD_25: u32 = 0x0180_0000
    + ROW_25[2] * 0x1000
    + ROW_25[3] * 0x100
    + ROW_25[1] * 0x10
    + ROW_26[1];

pub const HEAD_26: u32 = 0x0190_0000 + ROW_26[2] * 0x1000 + ROW_26[3] * 0x100 + ROW_26[1] * 0x10;

pub const HEAD_27: u32 = 0x01A0_0000
    + ROW_27[2] * 0x1000
    + ROW_27[3] * 0x100
    + ROW_27[1] * 0x10
    + ROW_28[1];

pub const HEAD_28: u32 = 0x01B0_0000 + ROW_28[2] * 0x1000 + ROW_28[3] * 0x100 + ROW_28[1] * 0x10;

pub const HEAD_29: u32 = 0x01C0_0000 + ROW_29[2] * 0x1000 + ROW_29[3] * 0x100 + ROW_29[1] * 0x10;

pub const HEAD_30: u32 = 0x01D0_0000 + ROW_30[2] * 0x1000 + ROW_30[3] * 0x100 + ROW_30[1] * 0x10;

pub const HEAD_31: u32 = 0x01E0_0000 + ROW_31[2] * 0x1000 + ROW_31[3] * 0x100 + ROW_31[1] * 0x10;

pub const HEAD_32: u32 = 0x01F0_0000 + ROW_32[2] * 0x1000 + ROW_32[3] * 0x100 + ROW_32[1] * 0x10;

pub const HEAD_33: u32 = 0x0200_0000 + ROW_33[2] * 0x1000 + ROW_33[3] * 0x100 + ROW_33[1] * 0x10;

pub const HEAD_34: u32 = 0x0210_0000 + ROW_34[2] * 0x1000 + ROW_34[3] * 0x100 + ROW_34[1] * 0x10;

pub const HEAD_35: u32 = 0x0220_0000 + ROW_35[2] * 0x1000 + ROW_35[3] * 0x100 + ROW_35[1] * 0x10;

pub const HEAD_36: u32 = 0x0230_0000
    + ROW_36[2] * 0x1000
    + ROW_36[3] * 0x100
    + ROW_36[1] * 0x10
    + ROW_37[1];

pub const HEAD_37: u32 = 0x0240_0000 + ROW_37[2] * 0x1000 + ROW_37[3] * 0x100 + ROW_37[1] * 0x10;

pub const HEAD_38: u32 = 0x0250_0000 + ROW_38[2] * 0x1000 + ROW_38[3] * 0x100 + ROW_38[1] * 0x10;

pub const HEAD_39: u32 = 0x0260_0000 + ROW_39[2] * 0x1000 + ROW_39[3] * 0x100 + ROW_39[1] * 0x10;
