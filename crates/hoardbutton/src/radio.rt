// What the radio sends: status, interrupts, and the seven responses. A response of another length is refused (7).
ghost use Rattle.std.specs.Prelude.{◌≡◌, Ok};
ghost use Rattle.status.specs.Codes.{cmd_code, reset_code, mode_code};
ghost use Rattle.status.specs.Words.{status_of, intr_of, cmd_in, reset_in, mode_in};
ghost use Rattle.cmd_lora.specs.Responses.{lora_rx_stats_read, lora_packet_status_read};
ghost use Rattle.cmd_fsk.specs.Responses.{fsk_rx_stats_read, fsk_packet_status_read};
ghost use Rattle.cmd_common.specs.Responses.{rssi_inst_read, timestamp_value_read, cca_result_read};
ghost use Rattle.hoardbutton.specs.Radio.{status_c, lora_rx_stats_c, lora_packet_status_c, fsk_rx_stats_c, fsk_packet_status_c, rssi_inst_c, timestamp_value_c, cca_result_c};
ghost use Rattle.hoardbutton.specs.Radio.{lora_rx_stats_none, lora_packet_status_none, fsk_rx_stats_none, fsk_packet_status_none};

use crate::answers::low;
use cmd_common::rsp::{CcaResultRsp, RssiInstRsp, TimestampValueRsp};
use cmd_fsk::rsp::{FskPacketStatusRsp, FskRxStatsRsp};
use cmd_lora::rsp::{LoraPacketStatusRsp, LoraRxStatsRsp};
use status::{Intr, Status};

// The status word and what its bits say (REFERENCE, "Status and interrupts").
#[repr(C)]
#[derive(Clone, Copy)]
pub struct HbStatus {
    pub value: u16,
    pub irq: bool,
    pub ok: bool,
    pub cmd: u32,
    pub reset_src: u32,
    pub chip_mode: u32,
}

fn cmd_code(s: Status) -> u32
    ensures { result ≡ cmd_code (cmd_in s.0) }
{
    low(s.cmd().code())
}

fn reset_code(s: Status) -> u32
    ensures { result ≡ reset_code (reset_in s.0) }
{
    low(s.reset_src().code())
}

fn mode_code(s: Status) -> u32
    ensures { result ≡ mode_code (mode_in s.0) }
{
    low(s.chip_mode().code())
}

fn told(s: Status) -> HbStatus
    ensures { result ≡ status_c s }
{
    HbStatus {
        value: s.0,
        irq: s.irq(),
        ok: s.is_ok(),
        cmd: cmd_code(s),
        reset_src: reset_code(s),
        chip_mode: mode_code(s),
    }
}

#[unsafe(no_mangle)]
pub extern "C" fn hb_status(bytes: &[u8]) -> HbStatus
    ensures { result ≡ status_c (status_of bytes.now) }
{
    told(Status::from_slice(bytes))
}

// The raised interrupts, one bit each.
#[unsafe(no_mangle)]
pub extern "C" fn hb_intr(bytes: &[u8]) -> u32
    ensures { result ≡ (intr_of bytes.now).0 }
{
    Intr::from_slice(bytes).value()
}

#[repr(C)]
#[derive(Clone, Copy, Default)]
pub struct HbLoraRxStats {
    pub refusal: u32,
    pub status: u16,
    pub pkt_rx: u16,
    pub crc_error: u16,
    pub header_error: u16,
    pub detection: u16,
    pub false_sync: u16,
}

// A reading, and none beside a refusal.
pub(crate) fn lora_rx_stats_of(rsp: LoraRxStatsRsp) -> HbLoraRxStats
    ensures { result ≡ lora_rx_stats_c (Ok rsp) }
{
    HbLoraRxStats {
        refusal: 0,
        status: rsp.status.0,
        pkt_rx: rsp.pkt_rx,
        crc_error: rsp.crc_error,
        header_error: rsp.header_error,
        detection: rsp.detection,
        false_sync: rsp.false_sync,
    }
}

pub(crate) fn lora_rx_stats_none(refusal: u32) -> HbLoraRxStats
    ensures { result ≡ lora_rx_stats_none refusal }
{
    HbLoraRxStats {
        refusal,
        ..HbLoraRxStats::default()
    }
}

#[unsafe(no_mangle)]
pub extern "C" fn hb_lora_rx_stats(bytes: &[u8]) -> HbLoraRxStats
    ensures { result ≡ lora_rx_stats_c (lora_rx_stats_read bytes.now) }
{
    match LoraRxStatsRsp::from_slice(bytes) {
        Ok(rsp) => lora_rx_stats_of(rsp),
        Err(why) => lora_rx_stats_none(why.number()),
    }
}

#[repr(C)]
#[derive(Clone, Copy, Default)]
pub struct HbLoraPacketStatus {
    pub refusal: u32,
    pub status: u16,
    pub crc: bool,
    pub coding_rate: u8,
    pub pkt_length: u8,
    pub snr_pkt: i8,
    pub rssi_pkt: u16,
    pub rssi_signal_pkt: u16,
    pub detector: u8,
}

// A reading, and none beside a refusal.
pub(crate) fn lora_packet_status_of(rsp: LoraPacketStatusRsp) -> HbLoraPacketStatus
    ensures { result ≡ lora_packet_status_c (Ok rsp) }
{
    HbLoraPacketStatus {
        refusal: 0,
        status: rsp.status.0,
        crc: rsp.crc,
        coding_rate: rsp.coding_rate,
        pkt_length: rsp.pkt_length,
        snr_pkt: rsp.snr_pkt.0,
        rssi_pkt: rsp.rssi_pkt.0,
        rssi_signal_pkt: rsp.rssi_signal_pkt.0,
        detector: rsp.detector,
    }
}

pub(crate) fn lora_packet_status_none(refusal: u32) -> HbLoraPacketStatus
    ensures { result ≡ lora_packet_status_none refusal }
{
    HbLoraPacketStatus {
        refusal,
        ..HbLoraPacketStatus::default()
    }
}

#[unsafe(no_mangle)]
pub extern "C" fn hb_lora_packet_status(bytes: &[u8]) -> HbLoraPacketStatus
    ensures { result ≡ lora_packet_status_c (lora_packet_status_read bytes.now) }
{
    match LoraPacketStatusRsp::from_slice(bytes) {
        Ok(rsp) => lora_packet_status_of(rsp),
        Err(why) => lora_packet_status_none(why.number()),
    }
}

#[repr(C)]
#[derive(Clone, Copy, Default)]
pub struct HbFskRxStats {
    pub refusal: u32,
    pub status: u16,
    pub pkt_rx: u16,
    pub crc_error: u16,
    pub len_error: u16,
    pub pbl_det: u16,
    pub sync_ok: u16,
    pub sync_fail: u16,
    pub timeout: u16,
}

// A reading, and none beside a refusal.
pub(crate) fn fsk_rx_stats_of(rsp: FskRxStatsRsp) -> HbFskRxStats
    ensures { result ≡ fsk_rx_stats_c (Ok rsp) }
{
    HbFskRxStats {
        refusal: 0,
        status: rsp.status.0,
        pkt_rx: rsp.pkt_rx,
        crc_error: rsp.crc_error,
        len_error: rsp.len_error,
        pbl_det: rsp.pbl_det,
        sync_ok: rsp.sync_ok,
        sync_fail: rsp.sync_fail,
        timeout: rsp.timeout,
    }
}

pub(crate) fn fsk_rx_stats_none(refusal: u32) -> HbFskRxStats
    ensures { result ≡ fsk_rx_stats_none refusal }
{
    HbFskRxStats {
        refusal,
        ..HbFskRxStats::default()
    }
}

#[unsafe(no_mangle)]
pub extern "C" fn hb_fsk_rx_stats(bytes: &[u8]) -> HbFskRxStats
    ensures { result ≡ fsk_rx_stats_c (fsk_rx_stats_read bytes.now) }
{
    match FskRxStatsRsp::from_slice(bytes) {
        Ok(rsp) => fsk_rx_stats_of(rsp),
        Err(why) => fsk_rx_stats_none(why.number()),
    }
}

#[repr(C)]
#[derive(Clone, Copy, Default)]
pub struct HbFskPacketStatus {
    pub refusal: u32,
    pub status: u16,
    pub pkt_len: u16,
    pub rssi_avg: u16,
    pub rssi_sync: u16,
    pub addr_match_bcast: bool,
    pub addr_match_node: bool,
    pub lqi: u8,
}

// A reading, and none beside a refusal.
pub(crate) fn fsk_packet_status_of(rsp: FskPacketStatusRsp) -> HbFskPacketStatus
    ensures { result ≡ fsk_packet_status_c (Ok rsp) }
{
    HbFskPacketStatus {
        refusal: 0,
        status: rsp.status.0,
        pkt_len: rsp.pkt_len,
        rssi_avg: rsp.rssi_avg.0,
        rssi_sync: rsp.rssi_sync.0,
        addr_match_bcast: rsp.addr_match_bcast,
        addr_match_node: rsp.addr_match_node,
        lqi: rsp.lqi,
    }
}

pub(crate) fn fsk_packet_status_none(refusal: u32) -> HbFskPacketStatus
    ensures { result ≡ fsk_packet_status_none refusal }
{
    HbFskPacketStatus {
        refusal,
        ..HbFskPacketStatus::default()
    }
}

#[unsafe(no_mangle)]
pub extern "C" fn hb_fsk_packet_status(bytes: &[u8]) -> HbFskPacketStatus
    ensures { result ≡ fsk_packet_status_c (fsk_packet_status_read bytes.now) }
{
    match FskPacketStatusRsp::from_slice(bytes) {
        Ok(rsp) => fsk_packet_status_of(rsp),
        Err(why) => fsk_packet_status_none(why.number()),
    }
}

#[repr(C)]
#[derive(Clone, Copy, Default)]
pub struct HbRssiInst {
    pub refusal: u32,
    pub status: u16,
    pub rssi: u16,
}

#[unsafe(no_mangle)]
pub extern "C" fn hb_rssi_inst(bytes: &[u8]) -> HbRssiInst
    ensures { result ≡ rssi_inst_c (rssi_inst_read bytes.now) }
{
    match RssiInstRsp::from_slice(bytes) {
        Ok(rsp) => HbRssiInst {
            refusal: 0,
            status: rsp.status.0,
            rssi: rsp.rssi.0,
        },
        Err(why) => HbRssiInst {
            refusal: why.number(),
            ..HbRssiInst::default()
        },
    }
}

#[repr(C)]
#[derive(Clone, Copy, Default)]
pub struct HbTimestampValue {
    pub refusal: u32,
    pub status: u16,
    pub timestamp: u32,
}

#[unsafe(no_mangle)]
pub extern "C" fn hb_timestamp_value(bytes: &[u8]) -> HbTimestampValue
    ensures { result ≡ timestamp_value_c (timestamp_value_read bytes.now) }
{
    match TimestampValueRsp::from_slice(bytes) {
        Ok(rsp) => HbTimestampValue {
            refusal: 0,
            status: rsp.status.0,
            timestamp: rsp.timestamp,
        },
        Err(why) => HbTimestampValue {
            refusal: why.number(),
            ..HbTimestampValue::default()
        },
    }
}

#[repr(C)]
#[derive(Clone, Copy, Default)]
pub struct HbCcaResult {
    pub refusal: u32,
    pub status: u16,
    pub rssi_min: u16,
    pub rssi_max: u16,
    pub rssi_avg: u16,
}

#[unsafe(no_mangle)]
pub extern "C" fn hb_cca_result(bytes: &[u8]) -> HbCcaResult
    ensures { result ≡ cca_result_c (cca_result_read bytes.now) }
{
    match CcaResultRsp::from_slice(bytes) {
        Ok(rsp) => HbCcaResult {
            refusal: 0,
            status: rsp.status.0,
            rssi_min: rsp.rssi_min.0,
            rssi_max: rsp.rssi_max.0,
            rssi_avg: rsp.rssi_avg.0,
        },
        Err(why) => HbCcaResult {
            refusal: why.number(),
            ..HbCcaResult::default()
        },
    }
}
