// The LoRa commands, kinds 1 to 15: the enums, and the plain builders in the Rust's order. The responses are in rsp.rt.
#![tactic(auto)]

ghost use Rattle.std.specs.Prelude.{◌≡◌, [], ◌∷◌};
ghost use Rattle.std.proofs.Common.{rules};
ghost use Rattle.std.specs.Cmp.{partial_order_from_own_ties};
ghost use Rattle.std.specs.Cmp.Rules.{comparing};
ghost use Rattle.std.specs.Ordering.{as_partial_cmp, nat_cmp, on};
ghost use Rattle.table.specs.Table.{plain, yes_no};
ghost use Rattle.cmd_lora.specs.Codes.{sf_code, lora_bw_code, lora_cr_code, ldro_code, lora_filter_code};
ghost use Rattle.cmd_lora.specs.Codes.{header_type_code, timeout_format_code, lora_cad_exit_mode_code, addr_len_code, timing_sync_mode_code};
ghost use Rattle.cmd_lora.specs.Methods.{hz_of, is_fractional, is_li, denominator_of};

use std::cmp::Ordering;
use table::{OPCODE, fields, put_plain, yes_no};

pub mod rsp;

pub use rsp::{LoraPacketStatusRsp, LoraRxStatsRsp};

// Spreading factor: 2^n chips a symbol.
#[derive(Clone, Copy, PartialEq, Eq, PartialOrd, Ord, Debug)]
pub enum Sf {
    Sf5 = 5,
    Sf6 = 6,
    Sf7 = 7,
    Sf8 = 8,
    Sf9 = 9,
    Sf10 = 10,
    Sf11 = 11,
    Sf12 = 12,
}

impl Sf {
    pub fn code(self) -> u64
        ensures { result ≡ sf_code self }
    {
        self as u64
    }
}

// LoRa bandwidth. The names drop the fraction of the kHz.
#[derive(Clone, Copy, PartialEq, Eq, Debug)]
pub enum LoraBw {
    Bw7 = 0,
    Bw15 = 1,
    Bw31 = 2,
    Bw62 = 3,
    Bw125 = 4,
    Bw250 = 5,
    Bw500 = 6,
    Bw1000 = 7,
    Bw10 = 8,
    Bw20 = 9,
    Bw41 = 10,
    Bw83 = 11,
    Bw101 = 12,
    Bw203 = 13,
    Bw406 = 14,
    Bw812 = 15,
}

impl LoraBw {
    pub fn code(self) -> u64
        ensures { result ≡ lora_bw_code self }
    {
        self as u64
    }

    // The exact width in Hz, rounded down.
    pub fn to_hz(self) -> u32
        ensures { result ≡ hz_of self }
    {
        match self {
            LoraBw::Bw1000 => 1_000_000,
            LoraBw::Bw812 => 812_500,
            LoraBw::Bw500 => 500_000,
            LoraBw::Bw406 => 406_250,
            LoraBw::Bw250 => 250_000,
            LoraBw::Bw203 => 203_125,
            LoraBw::Bw125 => 125_000,
            LoraBw::Bw101 => 101_562,
            LoraBw::Bw83 => 83_333,
            LoraBw::Bw62 => 62_500,
            LoraBw::Bw41 => 41_666,
            LoraBw::Bw31 => 31_250,
            LoraBw::Bw20 => 20_833,
            LoraBw::Bw15 => 15_625,
            LoraBw::Bw10 => 10_416,
            LoraBw::Bw7 => 7_812,
        }
    }

    // Whether it is one of the fractional bandwidths.
    pub fn is_fractional(self) -> bool
        ensures { result ≡ is_fractional self }
    {
        matches!(
            self,
            LoraBw::Bw812 | LoraBw::Bw406 | LoraBw::Bw203 | LoraBw::Bw101
        )
    }
}

// By width in Hz, not by code.
impl PartialOrd for LoraBw {
    ghost partial_cmp = { as_partial_cmp (on hz_of nat_cmp) };

    ghost laws = { partial_order_from_own_ties (Prim.search (comparing, rules)) (Prim.search (comparing, rules)) };

    fn partial_cmp(&self, other: &LoraBw) -> Option<Ordering> {
        Some(self.cmp(other))
    }
}

impl Ord for LoraBw {
    ghost cmp = { on hz_of nat_cmp };

    ghost total = { Prim.search (comparing, rules) };

    ghost matches_partial_cmp = { Prim.search (comparing, rules) };

    ghost matches_eq = { Prim.search (comparing, rules) };

    fn cmp(&self, other: &LoraBw) -> Ordering {
        self.to_hz().cmp(&other.to_hz())
    }
}

// LoRa coding rate: short interleaving (Si), long interleaving (Li) or convolutional (Cc).
#[derive(Clone, Copy, PartialEq, Eq, Debug)]
pub enum LoraCr {
    NoCoding = 0,
    Cr1Ham45Si = 1,
    Cr2Ham23Si = 2,
    Cr3Ham47Si = 3,
    Cr4Ham12Si = 4,
    Cr5Ham45Li = 5,
    Cr6Ham23Li = 6,
    Cr7Ham12Li = 7,
    Cr8Cc23 = 8,
    Cr9Cc12 = 9,
}

impl LoraCr {
    pub fn code(self) -> u64
        ensures { result ≡ lora_cr_code self }
    {
        self as u64
    }

    // Whether it interleaves long.
    pub fn is_li(self) -> bool
        ensures { result ≡ is_li self }
    {
        matches!(
            self,
            LoraCr::Cr5Ham45Li
                | LoraCr::Cr6Ham23Li
                | LoraCr::Cr7Ham12Li
                | LoraCr::Cr8Cc23
                | LoraCr::Cr9Cc12
        )
    }

    // The denominator over a numerator of 4.
    pub fn denominator(self) -> u8
        ensures { result ≡ denominator_of self }
    {
        match self {
            LoraCr::NoCoding => 4,
            LoraCr::Cr1Ham45Si | LoraCr::Cr5Ham45Li => 5,
            LoraCr::Cr2Ham23Si | LoraCr::Cr6Ham23Li | LoraCr::Cr8Cc23 => 6,
            LoraCr::Cr3Ham47Si => 7,
            LoraCr::Cr4Ham12Si | LoraCr::Cr7Ham12Li | LoraCr::Cr9Cc12 => 8,
        }
    }
}

// Low data rate optimisation, for long symbols.
#[derive(Clone, Copy, PartialEq, Eq, Debug)]
pub enum Ldro {
    Off = 0,
    On = 1,
}

impl Ldro {
    pub fn code(self) -> u64
        ensures { result ≡ ldro_code self }
    {
        self as u64
    }
}

// Extra filter for the fractional bandwidths.
#[derive(Clone, Copy, PartialEq, Eq, Debug)]
pub enum LoraFilter {
    Auto = 0,
    Chf = 1,
    Dcc = 2,
    DccF = 3,
}

impl LoraFilter {
    pub fn code(self) -> u64
        ensures { result ≡ lora_filter_code self }
    {
        self as u64
    }
}

// Whether a packet carries its own header.
#[derive(Clone, Copy, PartialEq, Eq, Debug)]
pub enum HeaderType {
    Explicit = 0,
    Implicit = 1,
}

impl HeaderType {
    pub fn code(self) -> u64
        ensures { result ≡ header_type_code self }
    {
        self as u64
    }
}

// How a number of symbols is written: plainly, or as mantissa and exponent.
#[derive(Clone, Copy, PartialEq, Eq, Debug)]
pub enum TimeoutFormat {
    Integer = 0,
    Float = 1,
}

impl TimeoutFormat {
    pub fn code(self) -> u64
        ensures { result ≡ timeout_format_code self }
    {
        self as u64
    }
}

// What follows a LoRa channel activity detection. The Rust's `cmd_lora::ExitMode`.
#[derive(Clone, Copy, PartialEq, Eq, Debug)]
pub enum LoraCadExitMode {
    CadOnly = 0,
    CadRx = 1,
    CadLbt = 16,
}

impl LoraCadExitMode {
    pub fn code(self) -> u64
        ensures { result ≡ lora_cad_exit_mode_code self }
    {
        self as u64
    }
}

// How many bytes the address filter compares.
#[derive(Clone, Copy, PartialEq, Eq, Debug)]
pub enum AddrLen {
    AddrNone = 0,
    Addr1B = 1,
    Addr2B = 2,
    Addr3B = 3,
    Addr4B = 4,
    Addr5B = 5,
    Addr6B = 6,
    Addr7B = 7,
    Addr8B = 8,
}

impl AddrLen {
    pub fn code(self) -> u64
        ensures { result ≡ addr_len_code self }
    {
        self as u64
    }
}

// The part that the radio takes in a synchronized transmission.
#[derive(Clone, Copy, PartialEq, Eq, Debug)]
pub enum TimingSyncMode {
    Disabled = 0,
    Initiator = 1,
    Responder = 2,
}

impl TimingSyncMode {
    pub fn code(self) -> u64
        ensures { result ≡ timing_sync_mode_code self }
    {
        self as u64
    }
}

// Kind 1. Modulation of LoRa packets.
pub fn set_lora_modulation_params_cmd(
    sf: Sf,
    lora_bw: LoraBw,
    lora_cr: LoraCr,
    ldro: Ldro,
    lora_filter: LoraFilter,
) -> [u8; 4]
    ensures { result ≡ plain 1 (sf_code sf ∷ lora_bw_code lora_bw ∷ lora_cr_code lora_cr ∷ ldro_code ldro ∷ lora_filter_code lora_filter ∷ []) }
{
    let mut cmd = [0u8; 4];
    put_plain(&mut cmd, OPCODE, fields::K1_OP);
    put_plain(&mut cmd, fields::K1_SF, sf.code());
    put_plain(&mut cmd, fields::K1_LORA_BW, lora_bw.code());
    put_plain(&mut cmd, fields::K1_LORA_CR, lora_cr.code());
    put_plain(&mut cmd, fields::K1_LDRO, ldro.code());
    put_plain(&mut cmd, fields::K1_LORA_FILTER, lora_filter.code());
    cmd
}

// Kind 2. Packet format of LoRa packets.
pub fn set_lora_packet_params_cmd(
    pbl_len: u16,
    payload_len: u8,
    header_type: HeaderType,
    crc_en: bool,
    invert_iq: bool,
) -> [u8; 6]
    ensures { result ≡ plain 2 (pbl_len ∷ payload_len ∷ header_type_code header_type ∷ yes_no crc_en ∷ yes_no invert_iq ∷ []) }
{
    let mut cmd = [0u8; 6];
    put_plain(&mut cmd, OPCODE, fields::K2_OP);
    put_plain(&mut cmd, fields::K2_PBL_LEN, pbl_len as u64);
    put_plain(&mut cmd, fields::K2_PAYLOAD_LEN, payload_len as u64);
    put_plain(&mut cmd, fields::K2_HEADER_TYPE, header_type.code());
    put_plain(&mut cmd, fields::K2_CRC_EN, yes_no(crc_en));
    put_plain(&mut cmd, fields::K2_INVERT_IQ, yes_no(invert_iq));
    cmd
}

// Kind 3. How many symbols a detection may take, as a number or as mantissa and exponent; 0 for no limit.
pub fn set_lora_synch_timeout_cmd(symbols: u8, timeout_format: TimeoutFormat) -> [u8; 4]
    ensures { result ≡ plain 3 (symbols ∷ timeout_format_code timeout_format ∷ []) }
{
    let mut cmd = [0u8; 4];
    put_plain(&mut cmd, OPCODE, fields::K3_OP);
    put_plain(&mut cmd, fields::K3_SYMBOLS, symbols as u64);
    put_plain(&mut cmd, fields::K3_TIMEOUT_FORMAT, timeout_format.code());
    cmd
}

// Kind 4. The LoRa syncword: 0x12 in private networks, and where none is set; 0x34 in public ones.
pub fn set_lora_syncword_cmd(syncword: u8) -> [u8; 3]
    ensures { result ≡ plain 4 (syncword ∷ []) }
{
    let mut cmd = [0u8; 3];
    put_plain(&mut cmd, OPCODE, fields::K4_OP);
    put_plain(&mut cmd, fields::K4_SYNCWORD, syncword as u64);
    cmd
}

// Kind 5. Phase modulation in the preamble.
pub fn config_lora_preamble_modulation_cmd(
    pmod_en: bool,
    dram_ret: u8,
    wakeup_time: u16,
    min_sleep_time: u32,
) -> [u8; 8]
    ensures { result ≡ plain 5 (yes_no pmod_en ∷ dram_ret ∷ wakeup_time ∷ min_sleep_time ∷ []) }
{
    let mut cmd = [0u8; 8];
    put_plain(&mut cmd, OPCODE, fields::K5_OP);
    put_plain(&mut cmd, fields::K5_PMOD_EN, yes_no(pmod_en));
    put_plain(&mut cmd, fields::K5_DRAM_RET, dram_ret as u64);
    put_plain(&mut cmd, fields::K5_WAKEUP_TIME, wakeup_time as u64);
    put_plain(&mut cmd, fields::K5_MIN_SLEEP_TIME, min_sleep_time as u64);
    cmd
}

// Kind 6. The same, with the detection's own parameters.
pub fn config_lora_preamble_modulation_adv_cmd(
    pmod_en: bool,
    dram_ret: u8,
    wakeup_time: u16,
    min_sleep_time: u32,
    err_thr: u8,
    min_sym: u8,
    detect_time_sym: u8,
    start_offset: u8,
    end_offset: u8,
) -> [u8; 12]
    ensures { result ≡ plain 6 (yes_no pmod_en ∷ dram_ret ∷ wakeup_time ∷ min_sleep_time ∷ err_thr ∷ min_sym ∷ detect_time_sym ∷ start_offset ∷ end_offset ∷ []) }
{
    let mut cmd = [0u8; 12];
    put_plain(&mut cmd, OPCODE, fields::K6_OP);
    put_plain(&mut cmd, fields::K6_PMOD_EN, yes_no(pmod_en));
    put_plain(&mut cmd, fields::K6_DRAM_RET, dram_ret as u64);
    put_plain(&mut cmd, fields::K6_WAKEUP_TIME, wakeup_time as u64);
    put_plain(&mut cmd, fields::K6_MIN_SLEEP_TIME, min_sleep_time as u64);
    put_plain(&mut cmd, fields::K6_ERR_THR, err_thr as u64);
    put_plain(&mut cmd, fields::K6_MIN_SYM, min_sym as u64);
    put_plain(&mut cmd, fields::K6_DETECT_TIME_SYM, detect_time_sym as u64);
    put_plain(&mut cmd, fields::K6_START_OFFSET, start_offset as u64);
    put_plain(&mut cmd, fields::K6_END_OFFSET, end_offset as u64);
    cmd
}

// Kind 7. Parameters of the LoRa channel activity detection.
pub fn set_lora_cad_params_cmd(
    nb_symbols: u8,
    pbl_any: bool,
    pnr_delta: u8,
    exit_mode: LoraCadExitMode,
    timeout: u32,
    det_peak: u8,
) -> [u8; 9]
    ensures { result ≡ plain 7 (nb_symbols ∷ yes_no pbl_any ∷ pnr_delta ∷ lora_cad_exit_mode_code exit_mode ∷ timeout ∷ det_peak ∷ []) }
{
    let mut cmd = [0u8; 9];
    put_plain(&mut cmd, OPCODE, fields::K7_OP);
    put_plain(&mut cmd, fields::K7_NB_SYMBOLS, nb_symbols as u64);
    put_plain(&mut cmd, fields::K7_PBL_ANY, yes_no(pbl_any));
    put_plain(&mut cmd, fields::K7_PNR_DELTA, pnr_delta as u64);
    put_plain(&mut cmd, fields::K7_EXIT_MODE, exit_mode.code());
    put_plain(&mut cmd, fields::K7_TIMEOUT, timeout as u64);
    put_plain(&mut cmd, fields::K7_DET_PEAK, det_peak as u64);
    cmd
}

// Kind 8. Starts a LoRa channel activity detection.
pub fn set_lora_cad_cmd() -> [u8; 2]
    ensures { result ≡ plain 8 [] }
{
    let mut cmd = [0u8; 2];
    put_plain(&mut cmd, OPCODE, fields::K8_OP);
    cmd
}

// Kind 9. Asks for the LoRa reception statistics.
pub fn get_lora_rx_stats_req() -> [u8; 2]
    ensures { result ≡ plain 9 [] }
{
    let mut cmd = [0u8; 2];
    put_plain(&mut cmd, OPCODE, fields::K9_OP);
    cmd
}

// Kind 10. Asks for the status of the last LoRa packet.
pub fn get_lora_packet_status_req() -> [u8; 2]
    ensures { result ≡ plain 10 [] }
{
    let mut cmd = [0u8; 2];
    put_plain(&mut cmd, OPCODE, fields::K10_OP);
    cmd
}

// Kind 11. The LoRa address filter; the address goes low byte first.
pub fn set_lora_address_cmd(addr_len: AddrLen, addr_pos: u8, addr: u64) -> [u8; 11]
    ensures { result ≡ plain 11 (addr_len_code addr_len ∷ addr_pos ∷ addr ∷ []) }
{
    let mut cmd = [0u8; 11];
    put_plain(&mut cmd, OPCODE, fields::K11_OP);
    put_plain(&mut cmd, fields::K11_ADDR_LEN, addr_len.code());
    put_plain(&mut cmd, fields::K11_ADDR_POS, addr_pos as u64);
    put_plain(&mut cmd, fields::K11_ADDR, addr);
    cmd
}

// Kind 12. The LoRa syncword, all ten bits.
pub fn set_lora_syncword_extended_cmd(sync1: u8, sync2: u8) -> [u8; 4]
    ensures { result ≡ plain 12 (sync1 ∷ sync2 ∷ []) }
{
    let mut cmd = [0u8; 4];
    put_plain(&mut cmd, OPCODE, fields::K12_OP);
    put_plain(&mut cmd, fields::K12_SYNC1, sync1 as u64);
    put_plain(&mut cmd, fields::K12_SYNC2, sync2 as u64);
    cmd
}

// Kind 13. The side detectors' syncwords, all ten bits each.
pub fn set_lora_side_det_syncword_extended_cmd(
    sd1_sw1: u8,
    sd1_sw2: u8,
    sd2_sw1: u8,
    sd2_sw2: u8,
    sd3_sw1: u8,
    sd3_sw2: u8,
) -> [u8; 8]
    ensures { result ≡ plain 13 (sd1_sw1 ∷ sd1_sw2 ∷ sd2_sw1 ∷ sd2_sw2 ∷ sd3_sw1 ∷ sd3_sw2 ∷ []) }
{
    let mut cmd = [0u8; 8];
    put_plain(&mut cmd, OPCODE, fields::K13_OP);
    put_plain(&mut cmd, fields::K13_SD1_SW1, sd1_sw1 as u64);
    put_plain(&mut cmd, fields::K13_SD1_SW2, sd1_sw2 as u64);
    put_plain(&mut cmd, fields::K13_SD2_SW1, sd2_sw1 as u64);
    put_plain(&mut cmd, fields::K13_SD2_SW2, sd2_sw2 as u64);
    put_plain(&mut cmd, fields::K13_SD3_SW1, sd3_sw1 as u64);
    put_plain(&mut cmd, fields::K13_SD3_SW2, sd3_sw2 as u64);
    cmd
}

// Kind 14. Transmission synchronized by a DIO, whose number is masked to its field.
pub fn set_lora_tx_sync_cmd(timing_sync_mode: TimingSyncMode, dio_num: u8) -> [u8; 3]
    ensures { result ≡ plain 14 (timing_sync_mode_code timing_sync_mode ∷ dio_num ∷ []) }
{
    let mut cmd = [0u8; 3];
    put_plain(&mut cmd, OPCODE, fields::K14_OP);
    put_plain(
        &mut cmd,
        fields::K14_TIMING_SYNC_MODE,
        timing_sync_mode.code(),
    );
    put_plain(&mut cmd, fields::K14_DIO_NUM, dio_num as u64);
    cmd
}

// Kind 15. Blanking of strong interference; it shares its opcode with kind 14 and is longer.
pub fn set_lora_blanking_cmd(
    thr_gain: u8,
    thr: u8,
    lvl_gain: u8,
    detect: bool,
    rssi_thr: u8,
) -> [u8; 4]
    ensures { result ≡ plain 15 (thr_gain ∷ thr ∷ lvl_gain ∷ yes_no detect ∷ rssi_thr ∷ []) }
{
    let mut cmd = [0u8; 4];
    put_plain(&mut cmd, OPCODE, fields::K15_OP);
    put_plain(&mut cmd, fields::K15_THR_GAIN, thr_gain as u64);
    put_plain(&mut cmd, fields::K15_THR, thr as u64);
    put_plain(&mut cmd, fields::K15_LVL_GAIN, lvl_gain as u64);
    put_plain(&mut cmd, fields::K15_DETECT, yes_no(detect));
    put_plain(&mut cmd, fields::K15_RSSI_THR, rssi_thr as u64);
    cmd
}
