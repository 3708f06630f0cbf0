// The responses to the FSK commands, as the fields that they hold. specs/Responses.antt has the places.
ghost use Rattle.std.specs.Prelude.{◌≡◌};
ghost use Rattle.cmd_fsk.specs.Responses.{fsk_rx_stats_rsp, fsk_rx_stats_read, fsk_packet_status_rsp, fsk_packet_status_read};

use frame::byte_at;
use reading::HalfDbm;
use refusal::Refusal;
use status::{Status, half, word_at};

// Counts since the last reset: packets, of these with a wrong CRC and with a wrong length, detections, good and failed syncwords, time-outs.
#[derive(Clone, Copy)]
pub struct FskRxStatsRsp {
    pub status: Status,
    pub pkt_rx: u16,
    pub crc_error: u16,
    pub len_error: u16,
    pub pbl_det: u16,
    pub sync_ok: u16,
    pub sync_fail: u16,
    pub timeout: u16,
}

impl FskRxStatsRsp {
    #[tactic(auto, unfolding(crate::specs::Responses::fsk_rx_stats_rsp))]
    pub fn from_array(bytes: [u8; 16]) -> FskRxStatsRsp
        ensures { result ≡ fsk_rx_stats_rsp bytes }
    {
        FskRxStatsRsp {
            status: Status::from_slice(&bytes),
            pkt_rx: word_at(&bytes, 2),
            crc_error: word_at(&bytes, 4),
            len_error: word_at(&bytes, 6),
            pbl_det: word_at(&bytes, 8),
            sync_ok: word_at(&bytes, 10),
            sync_fail: word_at(&bytes, 12),
            timeout: word_at(&bytes, 14),
        }
    }

    // Bytes of another length are no such response.
    pub fn from_slice(bytes: &[u8]) -> Result<FskRxStatsRsp, Refusal>
        ensures { result ≡ fsk_rx_stats_read bytes.now }
    {
        let Ok(array) = <[u8; 16]>::try_from(bytes) else {
            return Err(Refusal::ResponseLength);
        };
        Ok(FskRxStatsRsp::from_array(array))
    }
}

// What the last packet was received with. pkt_len counts bytes, those that are added in the FIFO among them; the levels are in halves of a dBm
// below zero, the average and that after the syncword; lqi, the quality of the link, is in quarters of a dB.
#[derive(Clone, Copy)]
pub struct FskPacketStatusRsp {
    pub status: Status,
    pub pkt_len: u16,
    pub rssi_avg: HalfDbm,
    pub rssi_sync: HalfDbm,
    pub addr_match_bcast: bool,
    pub addr_match_node: bool,
    pub lqi: u8,
}

impl FskPacketStatusRsp {
    #[tactic(auto, unfolding(crate::specs::Responses::fsk_packet_status_rsp))]
    pub fn from_array(bytes: [u8; 8]) -> FskPacketStatusRsp
        ensures { result ≡ fsk_packet_status_rsp bytes }
    {
        FskPacketStatusRsp {
            status: Status::from_slice(&bytes),
            pkt_len: word_at(&bytes, 2),
            rssi_avg: HalfDbm(half(byte_at(&bytes, 4), byte_at(&bytes, 6) / 4 % 2)),
            rssi_sync: HalfDbm(half(byte_at(&bytes, 5), byte_at(&bytes, 6) % 2)),
            addr_match_bcast: byte_at(&bytes, 6) & 0x20 != 0,
            addr_match_node: byte_at(&bytes, 6) & 0x10 != 0,
            lqi: byte_at(&bytes, 7),
        }
    }

    // Bytes of another length are no such response.
    pub fn from_slice(bytes: &[u8]) -> Result<FskPacketStatusRsp, Refusal>
        ensures { result ≡ fsk_packet_status_read bytes.now }
    {
        if bytes.len() != 8 {
            return Err(Refusal::ResponseLength);
        }
        // Byte by byte, and not by `try_from`: out of one number of eight bytes its fields are cut by a third more instructions.
        let array = [
            bytes[0], bytes[1], bytes[2], bytes[3], bytes[4], bytes[5], bytes[6], bytes[7],
        ];
        Ok(FskPacketStatusRsp::from_array(array))
    }
}
