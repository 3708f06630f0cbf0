// The commands common to all modems, kinds from 24 on: the enums, and the plain builders in the Rust's order. The responses are in rsp.rt.
#![tactic(auto)]

ghost use Rattle.std.specs.Prelude.{◌≡◌, [], ◌∷◌};
ghost use Rattle.table.specs.Table.{plain, yes_no};
ghost use Rattle.cmd_common.specs.Codes.{rx_path_code, rx_boost_code, pa_sel_code, pa_lf_mode_code};
ghost use Rattle.cmd_common.specs.Codes.{auto_txrx_mode_code, timestamp_index_code, timestamp_source_code, cad_exit_mode_code};

use table::{OPCODE, fields, put_plain, yes_no};

pub mod rsp;

pub use rsp::{CcaResultRsp, RssiInstRsp, TimestampValueRsp};

// The units of the arguments are those that the Rust states; where it states none, none is given (REFERENCE, "Commands").

// Receive path: low or high frequency.
#[derive(Clone, Copy, PartialEq, Eq, Debug)]
pub enum RxPath {
    LfPath = 0,
    HfPath = 1,
}

impl RxPath {
    pub fn code(self) -> u64
        ensures { result ≡ rx_path_code self }
    {
        self as u64
    }
}

// Receive boost, off to full; a command that brings none leaves it as it was.
#[derive(Clone, Copy, PartialEq, Eq, Debug)]
pub enum RxBoost {
    Off = 0,
    B1 = 1,
    B2 = 2,
    B3 = 3,
    B4 = 4,
    B5 = 5,
    B6 = 6,
    Max = 7,
}

impl RxBoost {
    pub fn code(self) -> u64
        ensures { result ≡ rx_boost_code self }
    {
        self as u64
    }
}

// Power amplifier: low or high frequency.
#[derive(Clone, Copy, PartialEq, Eq, Debug)]
pub enum PaSel {
    LfPa = 0,
    HfPa = 1,
}

impl PaSel {
    pub fn code(self) -> u64
        ensures { result ≡ pa_sel_code self }
    {
        self as u64
    }
}

// Mode of the low frequency amplifier; the first where it is not used.
#[derive(Clone, Copy, PartialEq, Eq, Debug)]
pub enum PaLfMode {
    LfPaFsm = 0,
    LfPaFdm = 1,
    LfPaHsmRfo1 = 2,
    LfPaHsmRfo2 = 3,
}

impl PaLfMode {
    pub fn code(self) -> u64
        ensures { result ≡ pa_lf_mode_code self }
    {
        self as u64
    }
}

// When the radio turns around by itself.
#[derive(Clone, Copy, PartialEq, Eq, Debug)]
pub enum AutoTxrxMode {
    Disable = 0,
    Always = 1,
    RxOk = 2,
}

impl AutoTxrxMode {
    pub fn code(self) -> u64
        ensures { result ≡ auto_txrx_mode_code self }
    {
        self as u64
    }
}

// One of the three timestamps.
#[derive(Clone, Copy, PartialEq, Eq, Debug)]
pub enum TimestampIndex {
    Ts0 = 0,
    Ts1 = 1,
    Ts2 = 2,
}

impl TimestampIndex {
    pub fn code(self) -> u64
        ensures { result ≡ timestamp_index_code self }
    {
        self as u64
    }
}

// The event that a timestamp marks.
#[derive(Clone, Copy, PartialEq, Eq, Debug)]
pub enum TimestampSource {
    None = 0,
    TxDone = 1,
    RxDone = 2,
    Sync = 3,
    Header = 4,
}

impl TimestampSource {
    pub fn code(self) -> u64
        ensures { result ≡ timestamp_source_code self }
    {
        self as u64
    }
}

// What follows a channel activity detection of the other modems. The Rust's `cmd_common::ExitMode`.
#[derive(Clone, Copy, PartialEq, Eq, Debug)]
pub enum CadExitMode {
    Fallback = 0,
    Tx = 1,
    Rx = 2,
}

impl CadExitMode {
    pub fn code(self) -> u64
        ensures { result ≡ cad_exit_mode_code self }
    {
        self as u64
    }
}

// Kind 24. The radio frequency in Hz.
pub fn set_rf_frequency_cmd(rf_freq: u32) -> [u8; 6]
    ensures { result ≡ plain 24 (rf_freq ∷ []) }
{
    let mut cmd = [0u8; 6];
    put_plain(&mut cmd, OPCODE, fields::K24_OP);
    put_plain(&mut cmd, fields::K24_RF_FREQ, rf_freq as u64);
    cmd
}

// Kind 25. The receive path.
pub fn set_rx_path_cmd(rx_path: RxPath) -> [u8; 3]
    ensures { result ≡ plain 25 (rx_path_code rx_path ∷ []) }
{
    let mut cmd = [0u8; 3];
    put_plain(&mut cmd, OPCODE, fields::K25_OP);
    put_plain(&mut cmd, fields::K25_RX_PATH, rx_path.code());
    cmd
}

// Kind 26. The receive path and its boost.
pub fn set_rx_path_adv_cmd(rx_path: RxPath, rx_boost: RxBoost) -> [u8; 4]
    ensures { result ≡ plain 26 (rx_path_code rx_path ∷ rx_boost_code rx_boost ∷ []) }
{
    let mut cmd = [0u8; 4];
    put_plain(&mut cmd, OPCODE, fields::K26_OP);
    put_plain(&mut cmd, fields::K26_RX_PATH, rx_path.code());
    put_plain(&mut cmd, fields::K26_RX_BOOST, rx_boost.code());
    cmd
}

// Kind 27. The power amplifier; its selection shares bit 2.7 with the duty cycle.
pub fn set_pa_config_cmd(
    pa_sel: PaSel,
    pa_lf_mode: PaLfMode,
    pa_lf_duty_cycle: u8,
    pa_lf_slices: u8,
) -> [u8; 4]
    ensures { result ≡ plain 27 (pa_sel_code pa_sel ∷ pa_lf_mode_code pa_lf_mode ∷ pa_lf_duty_cycle ∷ pa_lf_slices ∷ []) }
{
    let mut cmd = [0u8; 4];
    put_plain(&mut cmd, OPCODE, fields::K27_OP);
    put_plain(&mut cmd, fields::K27_PA_SEL, pa_sel.code());
    put_plain(&mut cmd, fields::K27_PA_LF_MODE, pa_lf_mode.code());
    put_plain(
        &mut cmd,
        fields::K27_PA_LF_DUTY_CYCLE,
        pa_lf_duty_cycle as u64,
    );
    put_plain(&mut cmd, fields::K27_PA_LF_SLICES, pa_lf_slices as u64);
    cmd
}

// Kind 28. The same, with the high frequency duty cycle.
pub fn set_pa_config_adv_cmd(
    pa_sel: PaSel,
    pa_lf_mode: PaLfMode,
    pa_lf_duty_cycle: u8,
    pa_lf_slices: u8,
    pa_hf_duty_cycle: u8,
) -> [u8; 5]
    ensures { result ≡ plain 28 (pa_sel_code pa_sel ∷ pa_lf_mode_code pa_lf_mode ∷ pa_lf_duty_cycle ∷ pa_lf_slices ∷ pa_hf_duty_cycle ∷ []) }
{
    let mut cmd = [0u8; 5];
    put_plain(&mut cmd, OPCODE, fields::K28_OP);
    put_plain(&mut cmd, fields::K28_PA_SEL, pa_sel.code());
    put_plain(&mut cmd, fields::K28_PA_LF_MODE, pa_lf_mode.code());
    put_plain(
        &mut cmd,
        fields::K28_PA_LF_DUTY_CYCLE,
        pa_lf_duty_cycle as u64,
    );
    put_plain(&mut cmd, fields::K28_PA_LF_SLICES, pa_lf_slices as u64);
    put_plain(
        &mut cmd,
        fields::K28_PA_HF_DUTY_CYCLE,
        pa_hf_duty_cycle as u64,
    );
    cmd
}

// Kind 29. Receives. The time-out counts steps of 1/32.768 kHz, so it is at most 512 s.
pub fn set_rx_adv_cmd(rx_timeout: u32) -> [u8; 5]
    ensures { result ≡ plain 29 (rx_timeout ∷ []) }
{
    let mut cmd = [0u8; 5];
    put_plain(&mut cmd, OPCODE, fields::K29_OP);
    put_plain(&mut cmd, fields::K29_RX_TIMEOUT, rx_timeout as u64);
    cmd
}

// Kind 30. Transmits. The time-out counts steps of 1/32.768 kHz, so it is at most 512 s.
pub fn set_tx_adv_cmd(tx_timeout: u32) -> [u8; 5]
    ensures { result ≡ plain 30 (tx_timeout ∷ []) }
{
    let mut cmd = [0u8; 5];
    put_plain(&mut cmd, OPCODE, fields::K30_OP);
    put_plain(&mut cmd, fields::K30_TX_TIMEOUT, tx_timeout as u64);
    cmd
}

// Kind 31. Selects a power amplifier that was configured before.
pub fn sel_pa_cmd(pa_sel: PaSel) -> [u8; 3]
    ensures { result ≡ plain 31 (pa_sel_code pa_sel ∷ []) }
{
    let mut cmd = [0u8; 3];
    put_plain(&mut cmd, OPCODE, fields::K31_OP);
    put_plain(&mut cmd, fields::K31_PA_SEL, pa_sel.code());
    cmd
}

// Kind 32. Receives anew after each cycle_time, and listens for rx_max_time.
pub fn set_rx_duty_cycle_cmd(
    rx_max_time: u32,
    cycle_time: u32,
    use_lora_cad: bool,
    dram_ret: u8,
) -> [u8; 9]
    ensures { result ≡ plain 32 (rx_max_time ∷ cycle_time ∷ yes_no use_lora_cad ∷ dram_ret ∷ []) }
{
    let mut cmd = [0u8; 9];
    put_plain(&mut cmd, OPCODE, fields::K32_OP);
    put_plain(&mut cmd, fields::K32_RX_MAX_TIME, rx_max_time as u64);
    put_plain(&mut cmd, fields::K32_CYCLE_TIME, cycle_time as u64);
    put_plain(&mut cmd, fields::K32_USE_LORA_CAD, yes_no(use_lora_cad));
    put_plain(&mut cmd, fields::K32_DRAM_RET, dram_ret as u64);
    cmd
}

// Kind 33. Turns from reception to transmission by itself, or back.
pub fn set_auto_rx_tx_cmd(
    clear: bool,
    auto_txrx_mode: AutoTxrxMode,
    timeout: u32,
    delay: u32,
) -> [u8; 10]
    ensures { result ≡ plain 33 (yes_no clear ∷ auto_txrx_mode_code auto_txrx_mode ∷ timeout ∷ delay ∷ []) }
{
    let mut cmd = [0u8; 10];
    put_plain(&mut cmd, OPCODE, fields::K33_OP);
    put_plain(&mut cmd, fields::K33_CLEAR, yes_no(clear));
    put_plain(&mut cmd, fields::K33_AUTO_TXRX_MODE, auto_txrx_mode.code());
    put_plain(&mut cmd, fields::K33_TIMEOUT, timeout as u64);
    put_plain(&mut cmd, fields::K33_DELAY, delay as u64);
    cmd
}

// Kind 34. The time-outs of kinds 29 and 30, in their steps, where a DIO triggers or where a command brings none.
pub fn set_default_rx_tx_timeout_cmd(rx_timeout: u32, tx_timeout: u32) -> [u8; 8]
    ensures { result ≡ plain 34 (rx_timeout ∷ tx_timeout ∷ []) }
{
    let mut cmd = [0u8; 8];
    put_plain(&mut cmd, OPCODE, fields::K34_OP);
    put_plain(&mut cmd, fields::K34_RX_TIMEOUT, rx_timeout as u64);
    put_plain(&mut cmd, fields::K34_TX_TIMEOUT, tx_timeout as u64);
    cmd
}

// Kind 35. The event that a timestamp marks.
pub fn set_timestamp_source_cmd(
    timestamp_index: TimestampIndex,
    timestamp_source: TimestampSource,
) -> [u8; 3]
    ensures { result ≡ plain 35 (timestamp_index_code timestamp_index ∷ timestamp_source_code timestamp_source ∷ []) }
{
    let mut cmd = [0u8; 3];
    put_plain(&mut cmd, OPCODE, fields::K35_OP);
    put_plain(
        &mut cmd,
        fields::K35_TIMESTAMP_INDEX,
        timestamp_index.code(),
    );
    put_plain(
        &mut cmd,
        fields::K35_TIMESTAMP_SOURCE,
        timestamp_source.code(),
    );
    cmd
}

// Kind 36. Receives for the duration and measures the level, to tell whether the channel is clear.
pub fn set_cca_cmd(duration: u32) -> [u8; 5]
    ensures { result ≡ plain 36 (duration ∷ []) }
{
    let mut cmd = [0u8; 5];
    put_plain(&mut cmd, OPCODE, fields::K36_OP);
    put_plain(&mut cmd, fields::K36_DURATION, duration as u64);
    cmd
}

// Kind 37. The same, at a fixed gain.
pub fn set_cca_adv_cmd(duration: u32, gain: u8) -> [u8; 6]
    ensures { result ≡ plain 37 (duration ∷ gain ∷ []) }
{
    let mut cmd = [0u8; 6];
    put_plain(&mut cmd, OPCODE, fields::K37_OP);
    put_plain(&mut cmd, fields::K37_DURATION, duration as u64);
    put_plain(&mut cmd, fields::K37_GAIN, gain as u64);
    cmd
}

// Kind 38. A fixed gain of the receiver; 0 leaves it automatic.
pub fn set_agc_gain_manual_cmd(gain_step: u8) -> [u8; 3]
    ensures { result ≡ plain 38 (gain_step ∷ []) }
{
    let mut cmd = [0u8; 3];
    put_plain(&mut cmd, OPCODE, fields::K38_OP);
    put_plain(&mut cmd, fields::K38_GAIN_STEP, gain_step as u64);
    cmd
}

// Kind 39. Parameters of the channel activity detection of the other modems, which goes by the measured level.
pub fn set_cad_params_cmd(
    cad_timeout: u32,
    threshold: u8,
    exit_mode: CadExitMode,
    trx_timeout: u32,
) -> [u8; 10]
    ensures { result ≡ plain 39 (cad_timeout ∷ threshold ∷ cad_exit_mode_code exit_mode ∷ trx_timeout ∷ []) }
{
    let mut cmd = [0u8; 10];
    put_plain(&mut cmd, OPCODE, fields::K39_OP);
    put_plain(&mut cmd, fields::K39_CAD_TIMEOUT, cad_timeout as u64);
    put_plain(&mut cmd, fields::K39_THRESHOLD, threshold as u64);
    put_plain(&mut cmd, fields::K39_EXIT_MODE, exit_mode.code());
    put_plain(&mut cmd, fields::K39_TRX_TIMEOUT, trx_timeout as u64);
    cmd
}
