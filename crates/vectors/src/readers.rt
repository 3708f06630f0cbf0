// The readers: status, interrupts, the seven responses, the methods of three enums, texts and numbers.
use crate::answer::Answer;
use crate::lora::{lora_bw, lora_cr, sf};
use crate::request::{byte, u16_at, u32_at};
use cmd_common::rsp::{CcaResultRsp, RssiInstRsp, TimestampValueRsp};
use cmd_fsk::rsp::{FskPacketStatusRsp, FskRxStatsRsp};
use cmd_lora::rsp::{LoraPacketStatusRsp, LoraRxStatsRsp};
use cmd_lora::{LoraBw, LoraCr};
use reading::{HalfDbm, QuarterDb, Text, counter_difference};
use refusal::Refusal;
use rx_bw::rx_bw_tenths;
use status::{Intr, Lr2021Error, Status};
use std::cmp::Ordering;

// The answer for an operation on a slice of the payload; empty for any other.
pub fn read_slice(op: u8, s: &[u8], p: &[u8]) -> Answer {
    match op {
        64 => statuses(s, p),
        65 => interrupts(s, u32_at(p, 64)),
        66 => lora_rx_stats(s),
        67 => lora_packet_status(s),
        68 => fsk_rx_stats(s),
        69 => fsk_packet_status(s),
        70 => rssi_inst(s),
        71 => timestamp_value(s),
        72 => cca_result(s),
        _ => Answer::new(),
    }
}

// The answer for an operation on numbers; empty for any other.
pub fn read_numbers(op: u8, p: &[u8]) -> Answer {
    match op {
        73 => bandwidths(lora_bw(p, 0), lora_bw(p, 1)),
        74 => coding_rate(lora_cr(p, 0)),
        75 => Answer::new().byte(order(sf(p, 0).cmp(&sf(p, 1)))),
        76 => text(HalfDbm(u16_at(p, 0)).text()),
        77 => text(QuarterDb::from_byte(byte(p, 0)).text()),
        78 => Answer::new().put_u16(counter_difference(u16_at(p, 0), u16_at(p, 2))),
        79 => Answer::new().put_u16(rx_bw_tenths(byte(p, 0))),
        _ => Answer::new(),
    }
}

fn statuses(s: &[u8], p: &[u8]) -> Answer {
    let first = put_status(Answer::new(), Status::from_slice(s));
    put_status(first, Status::from_array([byte(p, 0), byte(p, 1)]))
}

fn put_status(a: Answer, s: Status) -> Answer {
    let v = s.0;
    let high = a.byte((v / 256) as u8).byte((v % 256) as u8);
    let state = high.low(s.cmd().code()).flag(s.is_ok()).flag(s.irq());
    state
        .low(s.reset_src().code())
        .low(s.chip_mode().code())
        .byte(checked(s.check()))
}

fn checked(c: Result<(), Lr2021Error>) -> u8 {
    match c {
        Ok(()) => 0,
        Err(e) => error(e),
    }
}

fn error(e: Lr2021Error) -> u8 {
    match e {
        Lr2021Error::CmdFail => 1,
        Lr2021Error::CmdErr => 2,
        _ => 3,
    }
}

fn interrupts(s: &[u8], mask: u32) -> Answer {
    let i = Intr::from_slice(s);
    let a = accessors(Answer::new().put_u32(i.value()), i)
        .flag(i.none())
        .flag(i.intr_match(mask));
    a.put_u32(Intr::new(mask).value())
        .put_u32(Intr::new_txrx().value())
        .put_u32(Intr::new_ranging().value())
}

// Eight accessors, the first in bit 0.
fn put_eight(a: Answer, bits: [bool; 8]) -> Answer {
    a.byte(bits.iter().rev().fold(0, |n, bit| n << 1 | u8::from(*bit)))
}

fn accessors(a: Answer, i: Intr) -> Answer {
    let b = put_eight(
        a,
        [
            i.rx_fifo(),
            i.tx_fifo(),
            i.rng_req_vld(),
            i.tx_timestamp(),
            i.rx_timestamp(),
            i.preamble_detected(),
            i.header_valid(),
            i.cad_detected(),
        ],
    );
    let c = put_eight(
        b,
        [
            i.lora_hdr_timestamp(),
            i.header_err(),
            i.eol(),
            i.pa(),
            i.lora_tx_rx_hop(),
            i.sync_fail(),
            i.lora_symbol_end(),
            i.lora_timestamp_stat(),
        ],
    );
    let d = put_eight(
        c,
        [
            i.error(),
            i.cmd(),
            i.rx_done(),
            i.tx_done(),
            i.cad_done(),
            i.timeout(),
            i.crc_error(),
            i.len_error(),
        ],
    );
    put_eight(
        d,
        [
            i.addr_error(),
            i.fhss(),
            i.inter_packet1(),
            i.inter_packet2(),
            i.rng_resp_done(),
            i.rng_req_dis(),
            i.rng_exch_vld(),
            i.rng_timeout(),
        ],
    )
}

fn refused(x: Refusal) -> Answer {
    Answer::new().low(x.number() as u64)
}

// What a response that was read begins with.
fn accepted(s: Status) -> Answer {
    Answer::new().byte(0).put_u16(s.0)
}

fn lora_rx_stats(s: &[u8]) -> Answer {
    match LoraRxStatsRsp::from_slice(s) {
        Ok(r) => accepted(r.status)
            .put_u16(r.pkt_rx)
            .put_u16(r.crc_error)
            .put_u16(r.header_error)
            .put_u16(r.detection)
            .put_u16(r.false_sync),
        Err(x) => refused(x),
    }
}

fn lora_packet_status(s: &[u8]) -> Answer {
    match LoraPacketStatusRsp::from_slice(s) {
        Ok(r) => {
            let a = accepted(r.status)
                .flag(r.crc)
                .byte(r.coding_rate)
                .byte(r.pkt_length)
                .byte(r.snr_pkt.0.cast_unsigned());
            a.put_u16(r.rssi_pkt.0)
                .put_u16(r.rssi_signal_pkt.0)
                .byte(r.detector)
        }
        Err(x) => refused(x),
    }
}

fn fsk_rx_stats(s: &[u8]) -> Answer {
    match FskRxStatsRsp::from_slice(s) {
        Ok(r) => {
            let a = accepted(r.status)
                .put_u16(r.pkt_rx)
                .put_u16(r.crc_error)
                .put_u16(r.len_error)
                .put_u16(r.pbl_det);
            a.put_u16(r.sync_ok).put_u16(r.sync_fail).put_u16(r.timeout)
        }
        Err(x) => refused(x),
    }
}

fn fsk_packet_status(s: &[u8]) -> Answer {
    match FskPacketStatusRsp::from_slice(s) {
        Ok(r) => {
            let a = accepted(r.status)
                .put_u16(r.pkt_len)
                .put_u16(r.rssi_avg.0)
                .put_u16(r.rssi_sync.0);
            a.flag(r.addr_match_bcast)
                .flag(r.addr_match_node)
                .byte(r.lqi)
        }
        Err(x) => refused(x),
    }
}

fn rssi_inst(s: &[u8]) -> Answer {
    match RssiInstRsp::from_slice(s) {
        Ok(r) => accepted(r.status).put_u16(r.rssi.0),
        Err(x) => refused(x),
    }
}

fn timestamp_value(s: &[u8]) -> Answer {
    match TimestampValueRsp::from_slice(s) {
        Ok(r) => accepted(r.status).put_u32(r.timestamp),
        Err(x) => refused(x),
    }
}

fn cca_result(s: &[u8]) -> Answer {
    match CcaResultRsp::from_slice(s) {
        Ok(r) => accepted(r.status)
            .put_u16(r.rssi_min.0)
            .put_u16(r.rssi_max.0)
            .put_u16(r.rssi_avg.0),
        Err(x) => refused(x),
    }
}

fn order(o: Ordering) -> u8 {
    match o {
        Ordering::Less => 0,
        Ordering::Equal => 1,
        Ordering::Greater => 2,
    }
}

fn bandwidths(w: LoraBw, other: LoraBw) -> Answer {
    Answer::new()
        .put_u32(w.to_hz())
        .flag(w.is_fractional())
        .byte(order(w.cmp(&other)))
}

fn coding_rate(r: LoraCr) -> Answer {
    Answer::new().flag(r.is_li()).byte(r.denominator())
}

// A text has zeros behind its end, so all eight bytes may go.
fn text(t: Text) -> Answer {
    let b = t.bytes;
    Answer::new().low(t.len as u64).bytes(&b)
}
