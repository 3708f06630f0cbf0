// The responses to the LoRa commands, as the fields that they hold. specs/Responses.antt has the places.
ghost use Rattle.std.specs.Prelude.{◌≡◌};
ghost use Rattle.cmd_lora.specs.Responses.{lora_rx_stats_rsp, lora_rx_stats_read, lora_packet_status_rsp, lora_packet_status_read};

use frame::byte_at;
use reading::{HalfDbm, QuarterDb};
use refusal::Refusal;
use status::{Status, half, word_at};

// Counts since the last reset: packets, of these with a wrong CRC and with a wrong header, detected preambles, false synchronizations.
#[derive(Clone, Copy)]
pub struct LoraRxStatsRsp {
    pub status: Status,
    pub pkt_rx: u16,
    pub crc_error: u16,
    pub header_error: u16,
    pub detection: u16,
    pub false_sync: u16,
}

impl LoraRxStatsRsp {
    #[tactic(auto, unfolding(crate::specs::Responses::lora_rx_stats_rsp))]
    pub fn from_array(bytes: [u8; 12]) -> LoraRxStatsRsp
        ensures { result ≡ lora_rx_stats_rsp bytes }
    {
        LoraRxStatsRsp {
            status: Status::from_slice(&bytes),
            pkt_rx: word_at(&bytes, 2),
            crc_error: word_at(&bytes, 4),
            header_error: word_at(&bytes, 6),
            detection: word_at(&bytes, 8),
            false_sync: word_at(&bytes, 10),
        }
    }

    // Bytes of another length are no such response.
    pub fn from_slice(bytes: &[u8]) -> Result<LoraRxStatsRsp, Refusal>
        ensures { result ≡ lora_rx_stats_read bytes.now }
    {
        let Ok(array) = <[u8; 12]>::try_from(bytes) else {
            return Err(Refusal::ResponseLength);
        };
        Ok(LoraRxStatsRsp::from_array(array))
    }
}

// What the last packet was received with. Its CRC (a yes or no) and coding rate come from its header, or from the setting where it has none;
// pkt_length counts bytes; the ratio is in quarters of a dB, the levels in halves of a dBm below zero, that of the signal after despreading.
// detector has a bit for each path that received it: main, side 1, side 2, side 3 from bit 0 on.
#[derive(Clone, Copy)]
pub struct LoraPacketStatusRsp {
    pub status: Status,
    pub crc: bool,
    pub coding_rate: u8,
    pub pkt_length: u8,
    pub snr_pkt: QuarterDb,
    pub rssi_pkt: HalfDbm,
    pub rssi_signal_pkt: HalfDbm,
    pub detector: u8,
}

impl LoraPacketStatusRsp {
    #[tactic(auto, unfolding(crate::specs::Responses::lora_packet_status_rsp, crate::specs::Responses::snr))]
    pub fn from_array(bytes: [u8; 8]) -> LoraPacketStatusRsp
        ensures { result ≡ lora_packet_status_rsp bytes }
    {
        LoraPacketStatusRsp {
            status: Status::from_slice(&bytes),
            crc: byte_at(&bytes, 2) & 0x10 != 0,
            coding_rate: byte_at(&bytes, 2) % 16,
            pkt_length: byte_at(&bytes, 3),
            snr_pkt: QuarterDb::from_byte(byte_at(&bytes, 4)),
            rssi_pkt: HalfDbm(half(byte_at(&bytes, 5), byte_at(&bytes, 7) / 2 % 2)),
            rssi_signal_pkt: HalfDbm(half(byte_at(&bytes, 6), byte_at(&bytes, 7) % 2)),
            detector: byte_at(&bytes, 7) / 4 % 16,
        }
    }

    // Bytes of another length are no such response.
    pub fn from_slice(bytes: &[u8]) -> Result<LoraPacketStatusRsp, Refusal>
        ensures { result ≡ lora_packet_status_read bytes.now }
    {
        let Ok(array) = <[u8; 8]>::try_from(bytes) else {
            return Err(Refusal::ResponseLength);
        };
        Ok(LoraPacketStatusRsp::from_array(array))
    }
}
