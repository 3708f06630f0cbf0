// A recorded day, played again on a fresh book that is made in the lent buffer.
ghost use Rattle.std.specs.Prelude.{◌≡◌};
ghost use Rattle.playback.specs.Plays.{plays};
ghost use Rattle.hoardbutton.specs.Plays.{refusal_in, place_in, day_c};
ghost use Rattle.hoardbutton.specs.Plays.{last_lora_rx_stats_c, last_lora_packet_status_c, last_fsk_rx_stats_c, last_fsk_packet_status_c};

use crate::radio::{
    HbFskPacketStatus, HbFskRxStats, HbLoraPacketStatus, HbLoraRxStats, fsk_packet_status_none,
    fsk_packet_status_of, fsk_rx_stats_none, fsk_rx_stats_of, lora_packet_status_none,
    lora_packet_status_of, lora_rx_stats_none, lora_rx_stats_of,
};
use book::Answer;
use cmd_fsk::rsp::{FskPacketStatusRsp, FskRxStatsRsp};
use cmd_lora::rsp::{LoraPacketStatusRsp, LoraRxStatsRsp};
use playback::Played;

// A day: the refusal with its place, the counts, and the last reading of each request, zeros where there is none.
#[repr(C)]
#[derive(Clone, Copy)]
pub struct HbDay {
    pub refusal: u32,
    pub place: u64,
    pub records: u64,
    pub accepted: u64,
    pub skipped: u64,
    pub refused: [u64; 9],
    pub has_lora_rx_stats: bool,
    pub has_lora_packet_status: bool,
    pub has_fsk_rx_stats: bool,
    pub has_fsk_packet_status: bool,
    pub lora_rx_stats: HbLoraRxStats,
    pub lora_packet_status: HbLoraPacketStatus,
    pub fsk_rx_stats: HbFskRxStats,
    pub fsk_packet_status: HbFskPacketStatus,
}

fn refusal_in(answer: Answer) -> u32
    ensures { result ≡ refusal_in answer }
{
    match answer {
        Ok(_) => 0,
        Err(why) => why.number(),
    }
}

fn place_in(answer: Answer) -> u64
    ensures { result ≡ place_in answer }
{
    match answer {
        Ok(_) => 0,
        Err(why) => why.place() as u64,
    }
}

// ---- the last readings. C has a struct of its own for each (include/hoardbutton.h), so each has its own match.

fn last_lora_rx_stats(last: Option<LoraRxStatsRsp>) -> HbLoraRxStats
    ensures { result ≡ last_lora_rx_stats_c last }
{
    match last {
        None => lora_rx_stats_none(0),
        Some(rsp) => lora_rx_stats_of(rsp),
    }
}

fn last_lora_packet_status(last: Option<LoraPacketStatusRsp>) -> HbLoraPacketStatus
    ensures { result ≡ last_lora_packet_status_c last }
{
    match last {
        None => lora_packet_status_none(0),
        Some(rsp) => lora_packet_status_of(rsp),
    }
}

fn last_fsk_rx_stats(last: Option<FskRxStatsRsp>) -> HbFskRxStats
    ensures { result ≡ last_fsk_rx_stats_c last }
{
    match last {
        None => fsk_rx_stats_none(0),
        Some(rsp) => fsk_rx_stats_of(rsp),
    }
}

fn last_fsk_packet_status(last: Option<FskPacketStatusRsp>) -> HbFskPacketStatus
    ensures { result ≡ last_fsk_packet_status_c last }
{
    match last {
        None => fsk_packet_status_none(0),
        Some(rsp) => fsk_packet_status_of(rsp),
    }
}

// ---- the day

fn told(played: Played) -> HbDay
    ensures { result ≡ day_c played }
{
    let answer = played.answer;
    let day = played.day;
    let refused = day.refused;
    HbDay {
        refusal: refusal_in(answer),
        place: place_in(answer),
        records: day.records,
        accepted: day.accepted,
        skipped: day.skipped,
        refused,
        has_lora_rx_stats: day.lora_rx_stats.is_some(),
        has_lora_packet_status: day.lora_packet_status.is_some(),
        has_fsk_rx_stats: day.fsk_rx_stats.is_some(),
        has_fsk_packet_status: day.fsk_packet_status.is_some(),
        lora_rx_stats: last_lora_rx_stats(day.lora_rx_stats),
        lora_packet_status: last_lora_packet_status(day.lora_packet_status),
        fsk_rx_stats: last_fsk_rx_stats(day.fsk_rx_stats),
        fsk_packet_status: last_fsk_packet_status(day.fsk_packet_status),
    }
}

#[unsafe(no_mangle)]
pub extern "C" fn hb_play(trace: &[u8], book: &mut [u8]) -> HbDay
    ensures value { result ≡ day_c (plays trace.now book.old).played }
    ensures book_after { book.new ≡ (plays trace.now book.old).bytes }
{
    told(playback::play(trace, book))
}
