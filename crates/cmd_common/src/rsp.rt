// The responses to the common commands, as the fields that they hold. specs/Responses.antt has the places.
ghost use Rattle.std.specs.Prelude.{◌≡◌};
ghost use Rattle.cmd_common.specs.Responses.{rssi_inst_rsp, rssi_inst_read, timestamp_value_rsp, timestamp_value_read, cca_result_rsp, cca_result_read};

use frame::byte_at;
use reading::HalfDbm;
use refusal::Refusal;
use status::{Status, half, u32_of};

// The level at this moment, in halves of a dBm below zero.
#[derive(Clone, Copy)]
pub struct RssiInstRsp {
    pub status: Status,
    pub rssi: HalfDbm,
}

impl RssiInstRsp {
    #[tactic(auto, unfolding(crate::specs::Responses::rssi_inst_rsp))]
    pub fn from_array(bytes: [u8; 4]) -> RssiInstRsp
        ensures { result ≡ rssi_inst_rsp bytes }
    {
        RssiInstRsp {
            status: Status::from_slice(&bytes),
            rssi: HalfDbm(half(byte_at(&bytes, 2), byte_at(&bytes, 3) % 2)),
        }
    }

    // Bytes of another length are no such response.
    pub fn from_slice(bytes: &[u8]) -> Result<RssiInstRsp, Refusal>
        ensures { result ≡ rssi_inst_read bytes.now }
    {
        let Ok(array) = <[u8; 4]>::try_from(bytes) else {
            return Err(Refusal::ResponseLength);
        };
        Ok(RssiInstRsp::from_array(array))
    }
}

// A time stamp: the ticks of the high frequency clock from the event to the request. It is wrong where the chip slept in between.
#[derive(Clone, Copy)]
pub struct TimestampValueRsp {
    pub status: Status,
    pub timestamp: u32,
}

impl TimestampValueRsp {
    #[tactic(auto, unfolding(crate::specs::Responses::timestamp_value_rsp))]
    pub fn from_array(bytes: [u8; 6]) -> TimestampValueRsp
        ensures { result ≡ timestamp_value_rsp bytes }
    {
        TimestampValueRsp {
            status: Status::from_slice(&bytes),
            timestamp: u32_of(
                byte_at(&bytes, 2),
                byte_at(&bytes, 3),
                byte_at(&bytes, 4),
                byte_at(&bytes, 5),
            ),
        }
    }

    // Bytes of another length are no such response.
    pub fn from_slice(bytes: &[u8]) -> Result<TimestampValueRsp, Refusal>
        ensures { result ≡ timestamp_value_read bytes.now }
    {
        let Ok(array) = <[u8; 6]>::try_from(bytes) else {
            return Err(Refusal::ResponseLength);
        };
        Ok(TimestampValueRsp::from_array(array))
    }
}

// The lowest, highest and average level that an assessment of the channel met, in halves of a dBm below zero.
#[derive(Clone, Copy)]
pub struct CcaResultRsp {
    pub status: Status,
    pub rssi_min: HalfDbm,
    pub rssi_max: HalfDbm,
    pub rssi_avg: HalfDbm,
}

impl CcaResultRsp {
    #[tactic(auto, unfolding(crate::specs::Responses::cca_result_rsp))]
    pub fn from_array(bytes: [u8; 6]) -> CcaResultRsp
        ensures { result ≡ cca_result_rsp bytes }
    {
        CcaResultRsp {
            status: Status::from_slice(&bytes),
            rssi_min: HalfDbm(half(byte_at(&bytes, 2), byte_at(&bytes, 5) / 4 % 2)),
            rssi_max: HalfDbm(half(byte_at(&bytes, 3), byte_at(&bytes, 5) / 2 % 2)),
            rssi_avg: HalfDbm(half(byte_at(&bytes, 4), byte_at(&bytes, 5) % 2)),
        }
    }

    // Bytes of another length are no such response.
    pub fn from_slice(bytes: &[u8]) -> Result<CcaResultRsp, Refusal>
        ensures { result ≡ cca_result_read bytes.now }
    {
        let Ok(array) = <[u8; 6]>::try_from(bytes) else {
            return Err(Refusal::ResponseLength);
        };
        Ok(CcaResultRsp::from_array(array))
    }
}
