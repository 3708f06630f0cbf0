// The report of a played day: the text of its numbers, of a frame of its book, and of the place where its trace is faulty.
// specs/Report.antt has each text; proofs/Longest.antt that none is longer than its output must be. The trace's name is the program's to print.
#![tactic(auto)]

ghost use Rattle.std.specs.Prelude.{◌≡◌, [], ◌∷◌, ◌≤◌, length};
ghost use Rattle.reading.specs.Level.{rssi_text, snr_text};
ghost use Rattle.texts.specs.Words.{spaced};
ghost use Rattle.texts.specs.Written.{Puts};
ghost use Rattle.texts.specs.Whole.{told, laid};
ghost use Rattle.report.specs.Report.{refused_by, refused_below};
ghost use Rattle.report.specs.Report.{counts_text, lora_rx_stats_text, lora_packet_status_text, fsk_rx_stats_text, fsk_packet_status_text};
ghost use Rattle.report.specs.Report.{numbers_text, frame_text, stopped_text};
ghost use Rattle.report.specs.Lengths.{longest, longest_line};

use cmd_fsk::{FskPacketStatusRsp, FskRxStatsRsp};
use cmd_lora::{LoraPacketStatusRsp, LoraRxStatsRsp};
use day::Day;
use reading::{HalfDbm, QuarterDb};
use texts::{put_form, put_text, put_word};

// No day's numbers take more, whatever they are.
pub const LONGEST: usize = 2048;

// No line of a frame or of a fault takes more.
pub const LONGEST_LINE: usize = 70;

// ---- fields whose text is no number: a name and the text

// A level and a ratio have a function each, as they have a type each, so that none is put for the other.
fn put_level(out: &mut [u8], at: usize, name: &[u8], level: HalfDbm) -> usize
    ensures { Puts (spaced (name.now ∷ rssi_text level.0 ∷ []) []) at out.old result out.new }
{
    let text = level.text();
    let bytes = text.bytes;
    let n = text.len;
    let to = put_word(out, at, name);
    put_word(out, to, &bytes[0..n])
}

fn put_ratio(out: &mut [u8], at: usize, name: &[u8], ratio: QuarterDb) -> usize
    ensures { Puts (spaced (name.now ∷ snr_text ratio.0 ∷ []) []) at out.old result out.new }
{
    let text = ratio.text();
    let bytes = text.bytes;
    let n = text.len;
    let to = put_word(out, at, name);
    put_word(out, to, &bytes[0..n])
}

// ---- counts

fn put_refused_by(out: &mut [u8], at: usize, number: u64, n: u64) -> usize
    ensures { Puts (refused_by number n) at out.old result out.new }
{
    if 0 < n {
        let numbers = [number, n];
        put_form(out, at, b"refused 0 1\n", &numbers)
    } else {
        at
    }
}

fn put_refused(out: &mut [u8], at: usize, counts: [u64; 9]) -> usize
    ensures { Puts (refused_below 9 counts) at out.old result out.new }
{
    let mut to = at;
    for (number, n) in counts.iter().enumerate() {
        to = put_refused_by(out, to, number as u64, *n);
    }
    to
}

fn put_counts(out: &mut [u8], at: usize, day: Day) -> usize
    ensures { Puts (counts_text day) at out.old result out.new }
{
    let first = [day.records, day.accepted];
    let last = [day.skipped];
    let a = put_form(out, at, b"records 0\naccepted 1\n", &first);
    let b = put_refused(out, a, day.refused);
    put_form(out, b, b"skipped 0\n", &last)
}

// ---- readings

fn put_lora_rx_stats(out: &mut [u8], at: usize, last: Option<LoraRxStatsRsp>) -> usize
    ensures { Puts (lora_rx_stats_text last) at out.old result out.new }
{
    let Some(rsp) = last else {
        return at;
    };
    let numbers = [
        rsp.pkt_rx as u64,
        rsp.crc_error as u64,
        rsp.header_error as u64,
        rsp.detection as u64,
        rsp.false_sync as u64,
    ];
    put_form(
        out,
        at,
        b"lora_rx_stats pkt_rx 0 crc_error 1 header_error 2 detection 3 false_sync 4\n",
        &numbers,
    )
}

fn put_lora_packet_status(out: &mut [u8], at: usize, last: Option<LoraPacketStatusRsp>) -> usize
    ensures { Puts (lora_packet_status_text last) at out.old result out.new }
{
    let Some(rsp) = last else {
        return at;
    };
    let front = [
        u64::from(rsp.crc),
        rsp.coding_rate as u64,
        rsp.pkt_length as u64,
    ];
    let back = [rsp.detector as u64];
    let a = put_form(
        out,
        at,
        b"lora_packet_status crc 0 coding_rate 1 pkt_length 2",
        &front,
    );
    let b = put_ratio(out, a, b"snr_pkt", rsp.snr_pkt);
    let c = put_level(out, b, b"rssi_pkt", rsp.rssi_pkt);
    let d = put_level(out, c, b"rssi_signal_pkt", rsp.rssi_signal_pkt);
    put_form(out, d, b" detector 0\n", &back)
}

fn put_fsk_rx_stats(out: &mut [u8], at: usize, last: Option<FskRxStatsRsp>) -> usize
    ensures { Puts (fsk_rx_stats_text last) at out.old result out.new }
{
    let Some(rsp) = last else {
        return at;
    };
    let numbers = [
        rsp.pkt_rx as u64,
        rsp.crc_error as u64,
        rsp.len_error as u64,
        rsp.pbl_det as u64,
        rsp.sync_ok as u64,
        rsp.sync_fail as u64,
        rsp.timeout as u64,
    ];
    put_form(
        out,
        at,
        b"fsk_rx_stats pkt_rx 0 crc_error 1 len_error 2 pbl_det 3 sync_ok 4 sync_fail 5 timeout 6\n",
        &numbers,
    )
}

fn put_fsk_packet_status(out: &mut [u8], at: usize, last: Option<FskPacketStatusRsp>) -> usize
    ensures { Puts (fsk_packet_status_text last) at out.old result out.new }
{
    let Some(rsp) = last else {
        return at;
    };
    let front = [rsp.pkt_len as u64];
    let back = [
        u64::from(rsp.addr_match_bcast),
        u64::from(rsp.addr_match_node),
        rsp.lqi as u64,
    ];
    let a = put_form(out, at, b"fsk_packet_status pkt_len 0", &front);
    let b = put_level(out, a, b"rssi_avg", rsp.rssi_avg);
    let c = put_level(out, b, b"rssi_sync", rsp.rssi_sync);
    put_form(
        out,
        c,
        b" addr_match_bcast 0 addr_match_node 1 lqi 2\n",
        &back,
    )
}

// ---- texts

// A day's numbers at the start of `out`: the answer is how long they are, 0 where the output has fewer than `LONGEST` bytes and is left alone.
pub fn numbers(day: Day, out: &mut [u8]) -> usize
    ensures value { result ≡ told longest (numbers_text day) out.old }
    ensures out_after { out.new ≡ laid longest (numbers_text day) out.old }
    ensures upper_bound { result ≤ length out.old }
{
    if out.len() < LONGEST {
        return 0;
    }
    let a = put_counts(out, 0, day);
    let b = put_lora_rx_stats(out, a, day.lora_rx_stats);
    let c = put_lora_packet_status(out, b, day.lora_packet_status);
    let d = put_fsk_rx_stats(out, c, day.fsk_rx_stats);
    put_fsk_packet_status(out, d, day.fsk_packet_status)
}

// The line of a trace's fault, likewise in `LONGEST_LINE` bytes.
pub fn stopped(place: u64, out: &mut [u8]) -> usize
    ensures value { result ≡ told longest_line (stopped_text place) out.old }
    ensures out_after { out.new ≡ laid longest_line (stopped_text place) out.old }
    ensures upper_bound { result ≤ length out.old }
{
    if out.len() < LONGEST_LINE {
        return 0;
    }
    let numbers = [15, place];
    put_form(out, 0, b"stopped 0 1\n", &numbers)
}

// The line of a frame of the book, likewise.
pub fn frame(index: u64, frame: &[u8], out: &mut [u8]) -> usize
    ensures value { result ≡ told longest_line (frame_text index frame.now) out.old }
    ensures out_after { out.new ≡ laid longest_line (frame_text index frame.now) out.old }
    ensures upper_bound { result ≤ length out.old }
{
    if out.len() < LONGEST_LINE {
        return 0;
    }
    let mut part = [0u8; 64];
    let n = dump_text::line(index, frame, &mut part);
    let to = put_text(out, 0, b"frame ");
    put_text(out, to, &part[0..n])
}
