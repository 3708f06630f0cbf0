// A day's numbers, and what one record of a trace does to them: a command is put into the book and tallied, an answer is read as that of the
// latest command. specs/Days.antt says what each makes of the numbers, specs/Steps.antt of the book as well; proofs/Counts.antt has the laws.
#![tactic(auto)]

ghost use Rattle.std.specs.Prelude.{◌≡◌};
ghost use Rattle.day.specs.Days.{fresh, plus, noted, tallied, missed, on_received};
ghost use Rattle.day.specs.Days.{heard_lora_rx_stats, heard_lora_packet_status, heard_fsk_rx_stats, heard_fsk_packet_status};
ghost use Rattle.day.specs.Steps.{sent_day, sent_bytes};

use book::Answer;
use cmd_fsk::rsp::{FskPacketStatusRsp, FskRxStatsRsp};
use cmd_lora::rsp::{LoraPacketStatusRsp, LoraRxStatsRsp};
use refusal::Refusal;
use settings::slot_for;

// A day's numbers; its list of frames is in the book. `latest` is the kind of the latest command, 0 where it does not decode or there was none;
// each request has its last reading, if there was one; `refused` has a count for each number from 0 to 8.
#[derive(Clone, Copy)]
pub struct Day {
    pub latest: u64,
    pub lora_rx_stats: Option<LoraRxStatsRsp>,
    pub lora_packet_status: Option<LoraPacketStatusRsp>,
    pub fsk_rx_stats: Option<FskRxStatsRsp>,
    pub fsk_packet_status: Option<FskPacketStatusRsp>,
    pub accepted: u64,
    pub refused: [u64; 9],
    pub skipped: u64,
    pub records: u64,
}

// No record yet.
pub fn fresh() -> Day
    ensures { result ≡ fresh }
{
    Day {
        latest: 0,
        lora_rx_stats: None,
        lora_packet_status: None,
        fsk_rx_stats: None,
        fsk_packet_status: None,
        accepted: 0,
        refused: [0u64; 9],
        skipped: 0,
        records: 0,
    }
}

// n more; what would not fit stays as it is.
fn plus(count: u64, n: u64) -> u64
    ensures { result ≡ plus count n }
{
    count.checked_add(n).unwrap_or(count)
}

// ---- answers

// An answer that is no reading.
fn miss(day: Day) -> Day
    ensures { result ≡ missed day }
{
    let mut next = day;
    next.skipped = plus(day.skipped, 1);
    next.records = plus(day.records, 1);
    next
}

// The four differ in the field that they write. One over a closure for the field would promise by what the closure gives, and not by the day.
fn hear_lora_rx_stats(day: Day, read: Result<LoraRxStatsRsp, Refusal>) -> Day
    ensures { result ≡ heard_lora_rx_stats read day }
{
    let Ok(rsp) = read else {
        return miss(day);
    };
    Day {
        lora_rx_stats: Some(rsp),
        records: plus(day.records, 1),
        ..day
    }
}

fn hear_lora_packet_status(day: Day, read: Result<LoraPacketStatusRsp, Refusal>) -> Day
    ensures { result ≡ heard_lora_packet_status read day }
{
    let Ok(rsp) = read else {
        return miss(day);
    };
    Day {
        lora_packet_status: Some(rsp),
        records: plus(day.records, 1),
        ..day
    }
}

fn hear_fsk_rx_stats(day: Day, read: Result<FskRxStatsRsp, Refusal>) -> Day
    ensures { result ≡ heard_fsk_rx_stats read day }
{
    let Ok(rsp) = read else {
        return miss(day);
    };
    Day {
        fsk_rx_stats: Some(rsp),
        records: plus(day.records, 1),
        ..day
    }
}

fn hear_fsk_packet_status(day: Day, read: Result<FskPacketStatusRsp, Refusal>) -> Day
    ensures { result ≡ heard_fsk_packet_status read day }
{
    let Ok(rsp) = read else {
        return miss(day);
    };
    Day {
        fsk_packet_status: Some(rsp),
        records: plus(day.records, 1),
        ..day
    }
}

// An answer, read as that of the latest command.
#[tactic(auto, unfolding(crate::specs::Days::on_received))]
pub fn receive(day: Day, bytes: &[u8]) -> Day
    ensures { result ≡ on_received bytes.now day }
{
    match day.latest {
        9 => hear_lora_rx_stats(day, LoraRxStatsRsp::from_slice(bytes)),
        10 => hear_lora_packet_status(day, LoraPacketStatusRsp::from_slice(bytes)),
        22 => hear_fsk_rx_stats(day, FskRxStatsRsp::from_slice(bytes)),
        23 => hear_fsk_packet_status(day, FskPacketStatusRsp::from_slice(bytes)),
        _ => miss(day),
    }
}

// ---- commands

// A command of this kind that is not put: an action.
fn note(day: Day, kind: u64) -> Day
    ensures { result ≡ noted kind day }
{
    let mut next = day;
    next.latest = kind;
    next.records = plus(day.records, 1);
    next
}

// A put, by the book's answer.
fn tally(day: Day, kind: u64, answer: Answer) -> Day
    ensures { result ≡ tallied kind answer day }
{
    let mut next = note(day, kind);
    match answer {
        Ok(_) => {
            next.accepted = plus(day.accepted, 1);
        }
        Err(why) => {
            let n = why.number() as usize;
            if n < 9 {
                let mut refused = day.refused;
                refused[n] = plus(refused[n], 1);
                next.refused = refused;
            }
        }
    }
    next
}

// A command: an action is only noted, every other one is put, and tallied by what the book answers.
pub fn send(day: Day, book: &mut [u8], frame: &[u8]) -> Day
    ensures value { result ≡ sent_day frame.now book.old day }
    ensures book_after { book.new ≡ sent_bytes frame.now book.old }
{
    let found = decoder::decode(frame);
    match found {
        Ok(decoded) => {
            if slot_for(decoded.kind) < table::SETTINGS {
                tally(day, decoded.kind, book::put(book, frame))
            } else {
                note(day, decoded.kind)
            }
        }
        Err(_) => tally(day, 0, book::put(book, frame)),
    }
}
