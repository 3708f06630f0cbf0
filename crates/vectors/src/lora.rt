// Made from docs/commands.json by docs/make_reference.py: the builders of cmd_lora, kinds 1 to 15.
use crate::answer::{Answer, framed};
use crate::request::{A0, A1, A2, A3, A4, A5, A6, A7, A8, byte, u16_at, u32_at, u64_at, yes};
use cmd_lora::{
    AddrLen, HeaderType, Ldro, LoraBw, LoraCadExitMode, LoraCr, LoraFilter, Sf, TimeoutFormat,
    TimingSyncMode,
};

// The answer for a kind from 1 to 15; empty for any other.
pub fn built(kind: u8, p: &[u8]) -> Answer {
    match kind {
        1 => kind_1(p),
        2 => kind_2(p),
        3 => kind_3(p),
        4 => kind_4(p),
        5 => kind_5(p),
        6 => kind_6(p),
        7 => kind_7(p),
        8 => kind_8(),
        9 => kind_9(),
        10 => kind_10(),
        11 => kind_11(p),
        12 => kind_12(p),
        13 => kind_13(p),
        14 => kind_14(p),
        15 => kind_15(p),
        _ => Answer::new(),
    }
}

fn kind_1(p: &[u8]) -> Answer {
    let cmd = cmd_lora::set_lora_modulation_params_cmd(
        sf(p, A0),
        lora_bw(p, A1),
        lora_cr(p, A2),
        ldro(p, A3),
        lora_filter(p, A4),
    );
    framed(&cmd)
}

fn kind_2(p: &[u8]) -> Answer {
    let cmd = cmd_lora::set_lora_packet_params_cmd(
        u16_at(p, A0),
        byte(p, A1),
        header_type(p, A2),
        yes(p, A3),
        yes(p, A4),
    );
    framed(&cmd)
}

fn kind_3(p: &[u8]) -> Answer {
    let cmd = cmd_lora::set_lora_synch_timeout_cmd(byte(p, A0), timeout_format(p, A1));
    framed(&cmd)
}

fn kind_4(p: &[u8]) -> Answer {
    let cmd = cmd_lora::set_lora_syncword_cmd(byte(p, A0));
    framed(&cmd)
}

fn kind_5(p: &[u8]) -> Answer {
    let cmd = cmd_lora::config_lora_preamble_modulation_cmd(
        yes(p, A0),
        byte(p, A1),
        u16_at(p, A2),
        u32_at(p, A3),
    );
    framed(&cmd)
}

fn kind_6(p: &[u8]) -> Answer {
    let cmd = cmd_lora::config_lora_preamble_modulation_adv_cmd(
        yes(p, A0),
        byte(p, A1),
        u16_at(p, A2),
        u32_at(p, A3),
        byte(p, A4),
        byte(p, A5),
        byte(p, A6),
        byte(p, A7),
        byte(p, A8),
    );
    framed(&cmd)
}

fn kind_7(p: &[u8]) -> Answer {
    let cmd = cmd_lora::set_lora_cad_params_cmd(
        byte(p, A0),
        yes(p, A1),
        byte(p, A2),
        lora_cad_exit_mode(p, A3),
        u32_at(p, A4),
        byte(p, A5),
    );
    framed(&cmd)
}

fn kind_8() -> Answer {
    let cmd = cmd_lora::set_lora_cad_cmd();
    framed(&cmd)
}

fn kind_9() -> Answer {
    let cmd = cmd_lora::get_lora_rx_stats_req();
    framed(&cmd)
}

fn kind_10() -> Answer {
    let cmd = cmd_lora::get_lora_packet_status_req();
    framed(&cmd)
}

fn kind_11(p: &[u8]) -> Answer {
    let cmd = cmd_lora::set_lora_address_cmd(addr_len(p, A0), byte(p, A1), u64_at(p, A2));
    framed(&cmd)
}

fn kind_12(p: &[u8]) -> Answer {
    let cmd = cmd_lora::set_lora_syncword_extended_cmd(byte(p, A0), byte(p, A1));
    framed(&cmd)
}

fn kind_13(p: &[u8]) -> Answer {
    let cmd = cmd_lora::set_lora_side_det_syncword_extended_cmd(
        byte(p, A0),
        byte(p, A1),
        byte(p, A2),
        byte(p, A3),
        byte(p, A4),
        byte(p, A5),
    );
    framed(&cmd)
}

fn kind_14(p: &[u8]) -> Answer {
    let cmd = cmd_lora::set_lora_tx_sync_cmd(timing_sync_mode(p, A0), byte(p, A1));
    framed(&cmd)
}

fn kind_15(p: &[u8]) -> Answer {
    let cmd = cmd_lora::set_lora_blanking_cmd(
        byte(p, A0),
        byte(p, A1),
        byte(p, A2),
        yes(p, A3),
        byte(p, A4),
    );
    framed(&cmd)
}

// The value whose code stands at a place; the requests hold no other code, and the last arm takes the first name too.
pub fn sf(p: &[u8], at: usize) -> Sf {
    match byte(p, at) {
        6 => Sf::Sf6,
        7 => Sf::Sf7,
        8 => Sf::Sf8,
        9 => Sf::Sf9,
        10 => Sf::Sf10,
        11 => Sf::Sf11,
        12 => Sf::Sf12,
        _ => Sf::Sf5,
    }
}

pub fn lora_bw(p: &[u8], at: usize) -> LoraBw {
    match byte(p, at) {
        1 => LoraBw::Bw15,
        2 => LoraBw::Bw31,
        3 => LoraBw::Bw62,
        4 => LoraBw::Bw125,
        5 => LoraBw::Bw250,
        6 => LoraBw::Bw500,
        7 => LoraBw::Bw1000,
        8 => LoraBw::Bw10,
        9 => LoraBw::Bw20,
        10 => LoraBw::Bw41,
        11 => LoraBw::Bw83,
        12 => LoraBw::Bw101,
        13 => LoraBw::Bw203,
        14 => LoraBw::Bw406,
        15 => LoraBw::Bw812,
        _ => LoraBw::Bw7,
    }
}

pub fn lora_cr(p: &[u8], at: usize) -> LoraCr {
    match byte(p, at) {
        1 => LoraCr::Cr1Ham45Si,
        2 => LoraCr::Cr2Ham23Si,
        3 => LoraCr::Cr3Ham47Si,
        4 => LoraCr::Cr4Ham12Si,
        5 => LoraCr::Cr5Ham45Li,
        6 => LoraCr::Cr6Ham23Li,
        7 => LoraCr::Cr7Ham12Li,
        8 => LoraCr::Cr8Cc23,
        9 => LoraCr::Cr9Cc12,
        _ => LoraCr::NoCoding,
    }
}

pub fn ldro(p: &[u8], at: usize) -> Ldro {
    match byte(p, at) {
        1 => Ldro::On,
        _ => Ldro::Off,
    }
}

pub fn lora_filter(p: &[u8], at: usize) -> LoraFilter {
    match byte(p, at) {
        1 => LoraFilter::Chf,
        2 => LoraFilter::Dcc,
        3 => LoraFilter::DccF,
        _ => LoraFilter::Auto,
    }
}

pub fn header_type(p: &[u8], at: usize) -> HeaderType {
    match byte(p, at) {
        1 => HeaderType::Implicit,
        _ => HeaderType::Explicit,
    }
}

pub fn timeout_format(p: &[u8], at: usize) -> TimeoutFormat {
    match byte(p, at) {
        1 => TimeoutFormat::Float,
        _ => TimeoutFormat::Integer,
    }
}

pub fn lora_cad_exit_mode(p: &[u8], at: usize) -> LoraCadExitMode {
    match byte(p, at) {
        1 => LoraCadExitMode::CadRx,
        16 => LoraCadExitMode::CadLbt,
        _ => LoraCadExitMode::CadOnly,
    }
}

pub fn addr_len(p: &[u8], at: usize) -> AddrLen {
    match byte(p, at) {
        1 => AddrLen::Addr1B,
        2 => AddrLen::Addr2B,
        3 => AddrLen::Addr3B,
        4 => AddrLen::Addr4B,
        5 => AddrLen::Addr5B,
        6 => AddrLen::Addr6B,
        7 => AddrLen::Addr7B,
        8 => AddrLen::Addr8B,
        _ => AddrLen::AddrNone,
    }
}

pub fn timing_sync_mode(p: &[u8], at: usize) -> TimingSyncMode {
    match byte(p, at) {
        1 => TimingSyncMode::Initiator,
        2 => TimingSyncMode::Responder,
        _ => TimingSyncMode::Disabled,
    }
}
