// Made from docs/commands.json by docs/make_reference.py: the builders of cmd_common, kinds 24 to 39.
use crate::answer::{Answer, framed};
use crate::request::{A0, A1, A2, A3, A4, byte, u32_at, yes};
use cmd_common::{
    AutoTxrxMode, CadExitMode, PaLfMode, PaSel, RxBoost, RxPath, TimestampIndex, TimestampSource,
};

// The answer for a kind from 24 to 39; empty for any other.
pub fn built(kind: u8, p: &[u8]) -> Answer {
    match kind {
        24 => kind_24(p),
        25 => kind_25(p),
        26 => kind_26(p),
        27 => kind_27(p),
        28 => kind_28(p),
        29 => kind_29(p),
        30 => kind_30(p),
        31 => kind_31(p),
        32 => kind_32(p),
        33 => kind_33(p),
        34 => kind_34(p),
        35 => kind_35(p),
        36 => kind_36(p),
        37 => kind_37(p),
        38 => kind_38(p),
        39 => kind_39(p),
        _ => Answer::new(),
    }
}

fn kind_24(p: &[u8]) -> Answer {
    let cmd = cmd_common::set_rf_frequency_cmd(u32_at(p, A0));
    framed(&cmd)
}

fn kind_25(p: &[u8]) -> Answer {
    let cmd = cmd_common::set_rx_path_cmd(rx_path(p, A0));
    framed(&cmd)
}

fn kind_26(p: &[u8]) -> Answer {
    let cmd = cmd_common::set_rx_path_adv_cmd(rx_path(p, A0), rx_boost(p, A1));
    framed(&cmd)
}

fn kind_27(p: &[u8]) -> Answer {
    let cmd = cmd_common::set_pa_config_cmd(
        pa_sel(p, A0),
        pa_lf_mode(p, A1),
        byte(p, A2),
        byte(p, A3),
    );
    framed(&cmd)
}

fn kind_28(p: &[u8]) -> Answer {
    let cmd = cmd_common::set_pa_config_adv_cmd(
        pa_sel(p, A0),
        pa_lf_mode(p, A1),
        byte(p, A2),
        byte(p, A3),
        byte(p, A4),
    );
    framed(&cmd)
}

fn kind_29(p: &[u8]) -> Answer {
    let cmd = cmd_common::set_rx_adv_cmd(u32_at(p, A0));
    framed(&cmd)
}

fn kind_30(p: &[u8]) -> Answer {
    let cmd = cmd_common::set_tx_adv_cmd(u32_at(p, A0));
    framed(&cmd)
}

fn kind_31(p: &[u8]) -> Answer {
    let cmd = cmd_common::sel_pa_cmd(pa_sel(p, A0));
    framed(&cmd)
}

fn kind_32(p: &[u8]) -> Answer {
    let cmd = cmd_common::set_rx_duty_cycle_cmd(
        u32_at(p, A0),
        u32_at(p, A1),
        yes(p, A2),
        byte(p, A3),
    );
    framed(&cmd)
}

fn kind_33(p: &[u8]) -> Answer {
    let cmd = cmd_common::set_auto_rx_tx_cmd(
        yes(p, A0),
        auto_txrx_mode(p, A1),
        u32_at(p, A2),
        u32_at(p, A3),
    );
    framed(&cmd)
}

fn kind_34(p: &[u8]) -> Answer {
    let cmd = cmd_common::set_default_rx_tx_timeout_cmd(u32_at(p, A0), u32_at(p, A1));
    framed(&cmd)
}

fn kind_35(p: &[u8]) -> Answer {
    let cmd = cmd_common::set_timestamp_source_cmd(timestamp_index(p, A0), timestamp_source(p, A1));
    framed(&cmd)
}

fn kind_36(p: &[u8]) -> Answer {
    let cmd = cmd_common::set_cca_cmd(u32_at(p, A0));
    framed(&cmd)
}

fn kind_37(p: &[u8]) -> Answer {
    let cmd = cmd_common::set_cca_adv_cmd(u32_at(p, A0), byte(p, A1));
    framed(&cmd)
}

fn kind_38(p: &[u8]) -> Answer {
    let cmd = cmd_common::set_agc_gain_manual_cmd(byte(p, A0));
    framed(&cmd)
}

fn kind_39(p: &[u8]) -> Answer {
    let cmd = cmd_common::set_cad_params_cmd(
        u32_at(p, A0),
        byte(p, A1),
        cad_exit_mode(p, A2),
        u32_at(p, A3),
    );
    framed(&cmd)
}

// The value whose code stands at a place; the requests hold no other code, and the last arm takes the first name too.
pub fn rx_path(p: &[u8], at: usize) -> RxPath {
    match byte(p, at) {
        1 => RxPath::HfPath,
        _ => RxPath::LfPath,
    }
}

pub fn rx_boost(p: &[u8], at: usize) -> RxBoost {
    match byte(p, at) {
        1 => RxBoost::B1,
        2 => RxBoost::B2,
        3 => RxBoost::B3,
        4 => RxBoost::B4,
        5 => RxBoost::B5,
        6 => RxBoost::B6,
        7 => RxBoost::Max,
        _ => RxBoost::Off,
    }
}

pub fn pa_sel(p: &[u8], at: usize) -> PaSel {
    match byte(p, at) {
        1 => PaSel::HfPa,
        _ => PaSel::LfPa,
    }
}

pub fn pa_lf_mode(p: &[u8], at: usize) -> PaLfMode {
    match byte(p, at) {
        1 => PaLfMode::LfPaFdm,
        2 => PaLfMode::LfPaHsmRfo1,
        3 => PaLfMode::LfPaHsmRfo2,
        _ => PaLfMode::LfPaFsm,
    }
}

pub fn auto_txrx_mode(p: &[u8], at: usize) -> AutoTxrxMode {
    match byte(p, at) {
        1 => AutoTxrxMode::Always,
        2 => AutoTxrxMode::RxOk,
        _ => AutoTxrxMode::Disable,
    }
}

pub fn timestamp_index(p: &[u8], at: usize) -> TimestampIndex {
    match byte(p, at) {
        1 => TimestampIndex::Ts1,
        2 => TimestampIndex::Ts2,
        _ => TimestampIndex::Ts0,
    }
}

pub fn timestamp_source(p: &[u8], at: usize) -> TimestampSource {
    match byte(p, at) {
        1 => TimestampSource::TxDone,
        2 => TimestampSource::RxDone,
        3 => TimestampSource::Sync,
        4 => TimestampSource::Header,
        _ => TimestampSource::None,
    }
}

pub fn cad_exit_mode(p: &[u8], at: usize) -> CadExitMode {
    match byte(p, at) {
        1 => CadExitMode::Tx,
        2 => CadExitMode::Rx,
        _ => CadExitMode::Fallback,
    }
}
