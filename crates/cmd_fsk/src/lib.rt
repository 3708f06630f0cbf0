// The FSK commands, kinds 16 to 23: the enums, and the plain builders in the Rust's order. The responses are in rsp.rt.
#![tactic(auto)]

ghost use Rattle.std.specs.Prelude.{◌≡◌, [], ◌∷◌};
ghost use Rattle.table.specs.Table.{plain, yes_no};
ghost use Rattle.cmd_fsk.specs.Codes.{pulse_shape_code, rx_bw_code, pbl_len_detect_code, pld_len_unit_code};
ghost use Rattle.cmd_fsk.specs.Codes.{addr_comp_code, fsk_pkt_format_code, crc_code, whiten_type_code, bit_order_code};

use table::{OPCODE, fields, put_plain, yes_no};

pub mod rsp;

pub use rsp::{FskPacketStatusRsp, FskRxStatsRsp};

// Pulse shaping filter: Gaussian (Bt), raised cosine (Rc), root raised cosine (Rrc).
#[derive(Clone, Copy, PartialEq, Eq, Debug)]
pub enum PulseShape {
    None = 0,
    Custom = 1,
    Bt0p3 = 4,
    Bt0p5 = 5,
    Bt0p7 = 6,
    Bt1p0 = 7,
    Bt2p0 = 2,
    Rc0p3 = 8,
    Rc0p5 = 9,
    Rc0p7 = 10,
    Rc1p0 = 11,
    Rrc0p3 = 12,
    Rrc0p4 = 3,
    Rrc0p5 = 13,
    Rrc0p7 = 14,
    Rrc1p0 = 15,
}

impl PulseShape {
    pub fn code(self) -> u64
        ensures { result ≡ pulse_shape_code self }
    {
        self as u64
    }
}

// Receive filter bandwidth in kHz; crate rx_bw has the names and widths by code.
#[derive(Clone, Copy, PartialEq, Eq, Debug)]
pub enum RxBw {
    BwAuto = 255,
    Bw3076 = 0,
    Bw2857 = 64,
    Bw2666 = 128,
    Bw2222 = 192,
    Bw1333 = 136,
    Bw1111 = 200,
    Bw888 = 144,
    Bw769 = 24,
    Bw740 = 208,
    Bw714 = 88,
    Bw666 = 152,
    Bw615 = 32,
    Bw571 = 96,
    Bw555 = 216,
    Bw533 = 160,
    Bw512 = 17,
    Bw476 = 81,
    Bw444 = 224,
    Bw384 = 25,
    Bw370 = 209,
    Bw357 = 89,
    Bw333 = 153,
    Bw307 = 33,
    Bw285 = 97,
    Bw277 = 217,
    Bw266 = 161,
    Bw256 = 18,
    Bw238 = 82,
    Bw222 = 225,
    Bw192 = 26,
    Bw185 = 210,
    Bw178 = 90,
    Bw166 = 154,
    Bw153 = 34,
    Bw142 = 98,
    Bw138 = 218,
    Bw133 = 162,
    Bw128 = 19,
    Bw119 = 83,
    Bw111 = 226,
    Bw96 = 27,
    Bw92 = 211,
    Bw89 = 91,
    Bw83 = 155,
    Bw76 = 35,
    Bw71 = 99,
    Bw69 = 219,
    Bw66 = 163,
    Bw64 = 20,
    Bw59 = 84,
    Bw55 = 227,
    Bw48 = 28,
    Bw46 = 212,
    Bw44 = 92,
    Bw41 = 156,
    Bw38 = 36,
    Bw35 = 100,
    Bw34 = 220,
    Bw33 = 164,
    Bw32 = 21,
    Bw29 = 85,
    Bw27 = 228,
    Bw24 = 29,
    Bw23 = 213,
    Bw22 = 93,
    Bw20 = 157,
    Bw19 = 37,
    Bw17 = 101,
    Bw16 = 165,
    Bw14 = 86,
    Bw13 = 229,
    Bw12 = 30,
    Bw11 = 94,
    Bw10 = 158,
    Bw9p6 = 38,
    Bw8p9 = 102,
    Bw8p7 = 222,
    Bw8p3 = 166,
    Bw8 = 23,
    Bw7p4 = 87,
    Bw6p9 = 230,
    Bw6 = 31,
    Bw5p8 = 215,
    Bw5p6 = 95,
    Bw5p2 = 159,
    Bw4p8 = 39,
    Bw4p5 = 103,
    Bw4p3 = 223,
    Bw4p2 = 167,
    Bw3p5 = 231,
}

impl RxBw {
    pub fn code(self) -> u64
        ensures { result ≡ rx_bw_code self }
    {
        self as u64
    }
}

// How many preamble bits are searched for.
#[derive(Clone, Copy, PartialEq, Eq, Debug)]
pub enum PblLenDetect {
    None = 0,
    Len8Bits = 8,
    Len16Bits = 16,
    Len24Bits = 24,
    Len32Bits = 32,
}

impl PblLenDetect {
    pub fn code(self) -> u64
        ensures { result ≡ pbl_len_detect_code self }
    {
        self as u64
    }
}

// What a payload length counts.
#[derive(Clone, Copy, PartialEq, Eq, Debug)]
pub enum PldLenUnit {
    Bytes = 0,
    Bits = 1,
}

impl PldLenUnit {
    pub fn code(self) -> u64
        ensures { result ≡ pld_len_unit_code self }
    {
        self as u64
    }
}

// Which addresses the filter compares.
#[derive(Clone, Copy, PartialEq, Eq, Debug)]
pub enum AddrComp {
    Off = 0,
    Node = 1,
    NodeBcast = 2,
}

impl AddrComp {
    pub fn code(self) -> u64
        ensures { result ≡ addr_comp_code self }
    {
        self as u64
    }
}

// Fixed length, or a length field of 8, 9 or 16 bits.
#[derive(Clone, Copy, PartialEq, Eq, Debug)]
pub enum FskPktFormat {
    FixedLength = 0,
    Variable8bit = 1,
    Variable9bit = 2,
    Variable16bit = 3,
}

impl FskPktFormat {
    pub fn code(self) -> u64
        ensures { result ≡ fsk_pkt_format_code self }
    {
        self as u64
    }
}

// CRC length, plain or inverted.
#[derive(Clone, Copy, PartialEq, Eq, Debug)]
pub enum Crc {
    CrcOff = 0,
    Crc1Byte = 1,
    Crc2Byte = 2,
    Crc3Byte = 3,
    Crc4Byte = 4,
    Crc1ByteInv = 9,
    Crc2ByteInv = 10,
    Crc3ByteInv = 11,
    Crc4ByteInv = 12,
}

impl Crc {
    pub fn code(self) -> u64
        ensures { result ≡ crc_code self }
    {
        self as u64
    }
}

// Which older chips the whitening agrees with.
#[derive(Clone, Copy, PartialEq, Eq, Debug)]
pub enum WhitenType {
    Sx126xLr11xx = 0,
    Sx128x = 1,
}

impl WhitenType {
    pub fn code(self) -> u64
        ensures { result ≡ whiten_type_code self }
    {
        self as u64
    }
}

// Which bit of the syncword goes first.
#[derive(Clone, Copy, PartialEq, Eq, Debug)]
pub enum BitOrder {
    LsbFirst = 0,
    MsbFirst = 1,
}

impl BitOrder {
    pub fn code(self) -> u64
        ensures { result ≡ bit_order_code self }
    {
        self as u64
    }
}

// Kind 16. Modulation of FSK packets.
pub fn set_fsk_modulation_params_cmd(
    bitrate: u32,
    pulse_shape: PulseShape,
    rx_bw: RxBw,
    fdev: u32,
) -> [u8; 11]
    ensures { result ≡ plain 16 (bitrate ∷ pulse_shape_code pulse_shape ∷ rx_bw_code rx_bw ∷ fdev ∷ []) }
{
    let mut cmd = [0u8; 11];
    put_plain(&mut cmd, OPCODE, fields::K16_OP);
    put_plain(&mut cmd, fields::K16_BITRATE, bitrate as u64);
    put_plain(&mut cmd, fields::K16_PULSE_SHAPE, pulse_shape.code());
    put_plain(&mut cmd, fields::K16_RX_BW, rx_bw.code());
    put_plain(&mut cmd, fields::K16_FDEV, fdev as u64);
    cmd
}

// Kind 17. Packet format of FSK packets; pbl_long and the unit share bit 5.4.
pub fn set_fsk_packet_params_cmd(
    pbl_len_tx: u16,
    pbl_len_detect: PblLenDetect,
    pbl_long: bool,
    pld_len_unit: PldLenUnit,
    addr_comp: AddrComp,
    fsk_pkt_format: FskPktFormat,
    pld_len: u16,
    crc: Crc,
    dc_free: bool,
) -> [u8; 9]
    ensures { result ≡ plain 17 (pbl_len_tx ∷ pbl_len_detect_code pbl_len_detect ∷ yes_no pbl_long ∷ pld_len_unit_code pld_len_unit ∷ addr_comp_code addr_comp ∷ fsk_pkt_format_code fsk_pkt_format ∷ pld_len ∷ crc_code crc ∷ yes_no dc_free ∷ []) }
{
    let mut cmd = [0u8; 9];
    put_plain(&mut cmd, OPCODE, fields::K17_OP);
    put_plain(&mut cmd, fields::K17_PBL_LEN_TX, pbl_len_tx as u64);
    put_plain(&mut cmd, fields::K17_PBL_LEN_DETECT, pbl_len_detect.code());
    put_plain(&mut cmd, fields::K17_PBL_LONG, yes_no(pbl_long));
    put_plain(&mut cmd, fields::K17_PLD_LEN_UNIT, pld_len_unit.code());
    put_plain(&mut cmd, fields::K17_ADDR_COMP, addr_comp.code());
    put_plain(&mut cmd, fields::K17_FSK_PKT_FORMAT, fsk_pkt_format.code());
    put_plain(&mut cmd, fields::K17_PLD_LEN, pld_len as u64);
    put_plain(&mut cmd, fields::K17_CRC, crc.code());
    put_plain(&mut cmd, fields::K17_DC_FREE, yes_no(dc_free));
    cmd
}

// Kind 18. Whitening of FSK packets; the type shares byte 2 with init.
pub fn set_fsk_whitening_params_cmd(whiten_type: WhitenType, init: u16) -> [u8; 4]
    ensures { result ≡ plain 18 (whiten_type_code whiten_type ∷ init ∷ []) }
{
    let mut cmd = [0u8; 4];
    put_plain(&mut cmd, OPCODE, fields::K18_OP);
    put_plain(&mut cmd, fields::K18_WHITEN_TYPE, whiten_type.code());
    put_plain(&mut cmd, fields::K18_INIT, init as u64);
    cmd
}

// Kind 19. CRC of FSK packets.
pub fn set_fsk_crc_params_cmd(polynom: u32, init: u32) -> [u8; 10]
    ensures { result ≡ plain 19 (polynom ∷ init ∷ []) }
{
    let mut cmd = [0u8; 10];
    put_plain(&mut cmd, OPCODE, fields::K19_OP);
    put_plain(&mut cmd, fields::K19_POLYNOM, polynom as u64);
    put_plain(&mut cmd, fields::K19_INIT, init as u64);
    cmd
}

// Kind 20. The FSK syncword.
pub fn set_fsk_sync_word_cmd(syncword: u64, bit_order: BitOrder, nb_bits: u8) -> [u8; 11]
    ensures { result ≡ plain 20 (syncword ∷ bit_order_code bit_order ∷ nb_bits ∷ []) }
{
    let mut cmd = [0u8; 11];
    put_plain(&mut cmd, OPCODE, fields::K20_OP);
    put_plain(&mut cmd, fields::K20_SYNCWORD, syncword);
    put_plain(&mut cmd, fields::K20_BIT_ORDER, bit_order.code());
    put_plain(&mut cmd, fields::K20_NB_BITS, nb_bits as u64);
    cmd
}

// Kind 21. The FSK address filter.
pub fn set_fsk_address_cmd(addr_node: u8, addr_bcast: u8) -> [u8; 4]
    ensures { result ≡ plain 21 (addr_node ∷ addr_bcast ∷ []) }
{
    let mut cmd = [0u8; 4];
    put_plain(&mut cmd, OPCODE, fields::K21_OP);
    put_plain(&mut cmd, fields::K21_ADDR_NODE, addr_node as u64);
    put_plain(&mut cmd, fields::K21_ADDR_BCAST, addr_bcast as u64);
    cmd
}

// Kind 22. Asks for the FSK reception statistics.
pub fn get_fsk_rx_stats_req() -> [u8; 2]
    ensures { result ≡ plain 22 [] }
{
    let mut cmd = [0u8; 2];
    put_plain(&mut cmd, OPCODE, fields::K22_OP);
    cmd
}

// Kind 23. Asks for the status of the last FSK packet.
pub fn get_fsk_packet_status_req() -> [u8; 2]
    ensures { result ≡ plain 23 [] }
{
    let mut cmd = [0u8; 2];
    put_plain(&mut cmd, OPCODE, fields::K23_OP);
    cmd
}
