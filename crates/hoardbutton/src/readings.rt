// Levels, ratios and counters, and the widths by code.
ghost use Rattle.std.specs.Prelude.{◌≡◌};
ghost use Rattle.reading.specs.Level.{rssi_text, snr_text, counter_difference};
ghost use Rattle.rx_bw.specs.Width.{name_of};
ghost use Rattle.dump_text.specs.Whole.{filled};
ghost use Rattle.hoardbutton.specs.Readings.{bw_of, hz_c};
ghost use Rattle.hoardbutton.specs.Reels.{text_c};

use crate::answers::{HbAnswer, done, refused};
use cmd_lora::LoraBw;
use reading::{HalfDbm, QuarterDb};
use refusal::Refusal;

// The text to the front of the output, or refusal 12.
fn written(text: &[u8], out: &mut [u8]) -> HbAnswer
    ensures { (result ≡ text_c text.now out.old) × (out.new ≡ filled text.now out.old) }
{
    let n = text.len();
    if n <= out.len() {
        out[0..n].copy_from_slice(text);
        return done(n as u64);
    }
    refused(Refusal::OutputShort)
}

#[unsafe(no_mangle)]
pub extern "C" fn hb_level_text(half_dbm: u16, out: &mut [u8]) -> HbAnswer
    ensures { (result ≡ text_c (rssi_text half_dbm) out.old) × (out.new ≡ filled (rssi_text half_dbm) out.old) }
{
    let t = HalfDbm(half_dbm).text();
    let bytes = t.bytes;
    let n = t.len;
    written(&bytes[0..n], out)
}

#[unsafe(no_mangle)]
pub extern "C" fn hb_snr_text(quarter_db: i8, out: &mut [u8]) -> HbAnswer
    ensures { (result ≡ text_c (snr_text quarter_db) out.old) × (out.new ≡ filled (snr_text quarter_db) out.old) }
{
    let t = QuarterDb(quarter_db).text();
    let bytes = t.bytes;
    let n = t.len;
    written(&bytes[0..n], out)
}

#[unsafe(no_mangle)]
pub extern "C" fn hb_counter_difference(earlier: u16, later: u16) -> u16
    ensures { result ≡ counter_difference earlier later }
{
    reading::counter_difference(earlier, later)
}

fn lora_bw(code: u8) -> LoraBw
    ensures { result ≡ bw_of code }
{
    match code {
        0 => LoraBw::Bw7,
        1 => LoraBw::Bw15,
        2 => LoraBw::Bw31,
        3 => LoraBw::Bw62,
        4 => LoraBw::Bw125,
        5 => LoraBw::Bw250,
        6 => LoraBw::Bw500,
        7 => LoraBw::Bw1000,
        8 => LoraBw::Bw10,
        9 => LoraBw::Bw20,
        10 => LoraBw::Bw41,
        11 => LoraBw::Bw83,
        12 => LoraBw::Bw101,
        13 => LoraBw::Bw203,
        14 => LoraBw::Bw406,
        15 => LoraBw::Bw812,
        _ => LoraBw::Bw7,
    }
}

// The width of a code of `LoraBw` in Hz, rounded down; 0 for a code that the enum lacks.
#[unsafe(no_mangle)]
pub extern "C" fn hb_lora_bw_hz(code: u8) -> u32
    ensures { result ≡ hz_c code }
{
    if code < 16 { lora_bw(code).to_hz() } else { 0 }
}

// The name of a code of `RxBw` in tenths of kHz; 0 for a code that the enum lacks.
#[unsafe(no_mangle)]
pub extern "C" fn hb_rx_bw_tenths(code: u8) -> u16
    ensures { result ≡ name_of code }
{
    rx_bw::rx_bw_tenths(code)
}
