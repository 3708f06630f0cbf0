// Made from docs/commands.json by docs/make_reference.py: the builders of cmd_fsk, kinds 16 to 23.
use crate::answer::{Answer, framed};
use crate::request::{A0, A1, A2, A3, A4, A5, A6, A7, A8, byte, u16_at, u32_at, u64_at, yes};
use cmd_fsk::{
    AddrComp, BitOrder, Crc, FskPktFormat, PblLenDetect, PldLenUnit, PulseShape, RxBw, WhitenType,
};

// The answer for a kind from 16 to 23; empty for any other.
pub fn built(kind: u8, p: &[u8]) -> Answer {
    match kind {
        16 => kind_16(p),
        17 => kind_17(p),
        18 => kind_18(p),
        19 => kind_19(p),
        20 => kind_20(p),
        21 => kind_21(p),
        22 => kind_22(),
        23 => kind_23(),
        _ => Answer::new(),
    }
}

fn kind_16(p: &[u8]) -> Answer {
    let cmd = cmd_fsk::set_fsk_modulation_params_cmd(
        u32_at(p, A0),
        pulse_shape(p, A1),
        rx_bw(p, A2),
        u32_at(p, A3),
    );
    framed(&cmd)
}

fn kind_17(p: &[u8]) -> Answer {
    let cmd = cmd_fsk::set_fsk_packet_params_cmd(
        u16_at(p, A0),
        pbl_len_detect(p, A1),
        yes(p, A2),
        pld_len_unit(p, A3),
        addr_comp(p, A4),
        fsk_pkt_format(p, A5),
        u16_at(p, A6),
        crc(p, A7),
        yes(p, A8),
    );
    framed(&cmd)
}

fn kind_18(p: &[u8]) -> Answer {
    let cmd = cmd_fsk::set_fsk_whitening_params_cmd(whiten_type(p, A0), u16_at(p, A1));
    framed(&cmd)
}

fn kind_19(p: &[u8]) -> Answer {
    let cmd = cmd_fsk::set_fsk_crc_params_cmd(u32_at(p, A0), u32_at(p, A1));
    framed(&cmd)
}

fn kind_20(p: &[u8]) -> Answer {
    let cmd = cmd_fsk::set_fsk_sync_word_cmd(u64_at(p, A0), bit_order(p, A1), byte(p, A2));
    framed(&cmd)
}

fn kind_21(p: &[u8]) -> Answer {
    let cmd = cmd_fsk::set_fsk_address_cmd(byte(p, A0), byte(p, A1));
    framed(&cmd)
}

fn kind_22() -> Answer {
    let cmd = cmd_fsk::get_fsk_rx_stats_req();
    framed(&cmd)
}

fn kind_23() -> Answer {
    let cmd = cmd_fsk::get_fsk_packet_status_req();
    framed(&cmd)
}

// The value whose code stands at a place; the requests hold no other code, and the last arm takes the first name too.
pub fn pulse_shape(p: &[u8], at: usize) -> PulseShape {
    match byte(p, at) {
        1 => PulseShape::Custom,
        4 => PulseShape::Bt0p3,
        5 => PulseShape::Bt0p5,
        6 => PulseShape::Bt0p7,
        7 => PulseShape::Bt1p0,
        2 => PulseShape::Bt2p0,
        8 => PulseShape::Rc0p3,
        9 => PulseShape::Rc0p5,
        10 => PulseShape::Rc0p7,
        11 => PulseShape::Rc1p0,
        12 => PulseShape::Rrc0p3,
        3 => PulseShape::Rrc0p4,
        13 => PulseShape::Rrc0p5,
        14 => PulseShape::Rrc0p7,
        15 => PulseShape::Rrc1p0,
        _ => PulseShape::None,
    }
}

pub fn rx_bw(p: &[u8], at: usize) -> RxBw {
    match byte(p, at) {
        0 => RxBw::Bw3076,
        64 => RxBw::Bw2857,
        128 => RxBw::Bw2666,
        192 => RxBw::Bw2222,
        136 => RxBw::Bw1333,
        200 => RxBw::Bw1111,
        144 => RxBw::Bw888,
        24 => RxBw::Bw769,
        208 => RxBw::Bw740,
        88 => RxBw::Bw714,
        152 => RxBw::Bw666,
        32 => RxBw::Bw615,
        96 => RxBw::Bw571,
        216 => RxBw::Bw555,
        160 => RxBw::Bw533,
        17 => RxBw::Bw512,
        81 => RxBw::Bw476,
        224 => RxBw::Bw444,
        25 => RxBw::Bw384,
        209 => RxBw::Bw370,
        89 => RxBw::Bw357,
        153 => RxBw::Bw333,
        33 => RxBw::Bw307,
        97 => RxBw::Bw285,
        217 => RxBw::Bw277,
        161 => RxBw::Bw266,
        18 => RxBw::Bw256,
        82 => RxBw::Bw238,
        225 => RxBw::Bw222,
        26 => RxBw::Bw192,
        210 => RxBw::Bw185,
        90 => RxBw::Bw178,
        154 => RxBw::Bw166,
        34 => RxBw::Bw153,
        98 => RxBw::Bw142,
        218 => RxBw::Bw138,
        162 => RxBw::Bw133,
        19 => RxBw::Bw128,
        83 => RxBw::Bw119,
        226 => RxBw::Bw111,
        27 => RxBw::Bw96,
        211 => RxBw::Bw92,
        91 => RxBw::Bw89,
        155 => RxBw::Bw83,
        35 => RxBw::Bw76,
        99 => RxBw::Bw71,
        219 => RxBw::Bw69,
        163 => RxBw::Bw66,
        20 => RxBw::Bw64,
        84 => RxBw::Bw59,
        227 => RxBw::Bw55,
        28 => RxBw::Bw48,
        212 => RxBw::Bw46,
        92 => RxBw::Bw44,
        156 => RxBw::Bw41,
        36 => RxBw::Bw38,
        100 => RxBw::Bw35,
        220 => RxBw::Bw34,
        164 => RxBw::Bw33,
        21 => RxBw::Bw32,
        85 => RxBw::Bw29,
        228 => RxBw::Bw27,
        29 => RxBw::Bw24,
        213 => RxBw::Bw23,
        93 => RxBw::Bw22,
        157 => RxBw::Bw20,
        37 => RxBw::Bw19,
        101 => RxBw::Bw17,
        165 => RxBw::Bw16,
        86 => RxBw::Bw14,
        229 => RxBw::Bw13,
        30 => RxBw::Bw12,
        94 => RxBw::Bw11,
        158 => RxBw::Bw10,
        38 => RxBw::Bw9p6,
        102 => RxBw::Bw8p9,
        222 => RxBw::Bw8p7,
        166 => RxBw::Bw8p3,
        23 => RxBw::Bw8,
        87 => RxBw::Bw7p4,
        230 => RxBw::Bw6p9,
        31 => RxBw::Bw6,
        215 => RxBw::Bw5p8,
        95 => RxBw::Bw5p6,
        159 => RxBw::Bw5p2,
        39 => RxBw::Bw4p8,
        103 => RxBw::Bw4p5,
        223 => RxBw::Bw4p3,
        167 => RxBw::Bw4p2,
        231 => RxBw::Bw3p5,
        _ => RxBw::BwAuto,
    }
}

pub fn pbl_len_detect(p: &[u8], at: usize) -> PblLenDetect {
    match byte(p, at) {
        8 => PblLenDetect::Len8Bits,
        16 => PblLenDetect::Len16Bits,
        24 => PblLenDetect::Len24Bits,
        32 => PblLenDetect::Len32Bits,
        _ => PblLenDetect::None,
    }
}

pub fn pld_len_unit(p: &[u8], at: usize) -> PldLenUnit {
    match byte(p, at) {
        1 => PldLenUnit::Bits,
        _ => PldLenUnit::Bytes,
    }
}

pub fn addr_comp(p: &[u8], at: usize) -> AddrComp {
    match byte(p, at) {
        1 => AddrComp::Node,
        2 => AddrComp::NodeBcast,
        _ => AddrComp::Off,
    }
}

pub fn fsk_pkt_format(p: &[u8], at: usize) -> FskPktFormat {
    match byte(p, at) {
        1 => FskPktFormat::Variable8bit,
        2 => FskPktFormat::Variable9bit,
        3 => FskPktFormat::Variable16bit,
        _ => FskPktFormat::FixedLength,
    }
}

pub fn crc(p: &[u8], at: usize) -> Crc {
    match byte(p, at) {
        1 => Crc::Crc1Byte,
        2 => Crc::Crc2Byte,
        3 => Crc::Crc3Byte,
        4 => Crc::Crc4Byte,
        9 => Crc::Crc1ByteInv,
        10 => Crc::Crc2ByteInv,
        11 => Crc::Crc3ByteInv,
        12 => Crc::Crc4ByteInv,
        _ => Crc::CrcOff,
    }
}

pub fn whiten_type(p: &[u8], at: usize) -> WhitenType {
    match byte(p, at) {
        1 => WhitenType::Sx128x,
        _ => WhitenType::Sx126xLr11xx,
    }
}

pub fn bit_order(p: &[u8], at: usize) -> BitOrder {
    match byte(p, at) {
        1 => BitOrder::MsbFirst,
        _ => BitOrder::LsbFirst,
    }
}
