// The device status and the interrupts, read from the bytes that the chip sends. specs/ has their numbers and bits.
// The command crates read their responses with the functions that stand first.
#![tactic(auto)]

ghost use Rattle.std.specs.Prelude.{◌≡◌, [], ◌∷◌, ◌+◌, ◌*◌, eqb};
ghost use Rattle.status.specs.Notation.{byte, raised, is_set, mask_of};
ghost use Rattle.status.specs.Codes.{cmd_code, reset_code, mode_code, cmd_of, check_of, good_cmd};
ghost use Rattle.status.specs.Words.{status_of, intr, intr_of, cmd_in, reset_in, mode_in};

use frame::byte_at;

// Byte i and the next as one number, high byte first.
pub fn word_at(s: &[u8], i: usize) -> u16
    ensures { result ≡ 256 * byte s.now i + byte s.now (i + 1) }
{
    if i < s.len() {
        u16::from_be_bytes([byte_at(s, i), byte_at(s, i + 1)])
    } else {
        0
    }
}

// Four bytes as one number, high byte first.
pub fn u32_of(b0: u8, b1: u8, b2: u8, b3: u8) -> u32
    ensures { result ≡ 256 * (256 * (256 * b0 + b1) + b2) + b3 }
{
    u32::from_be_bytes([b0, b1, b2, b3])
}

// Twice a byte, and one bit more.
pub fn half(whole: u8, bit: u8) -> u16
    ensures { result ≡ 2 * whole + bit }
{
    2 * u16::from(whole) + u16::from(bit)
}

// Why a command did not do its work.
#[derive(Clone, Copy, PartialEq, Eq, Debug)]
pub enum Lr2021Error {
    Pin,
    Spi,
    CmdFail,
    CmdErr,
    BusyTimeout,
    InvalidSize,
    Unknown,
}

// The status that comes first with each command: bits 11-9 the command, 8 the interrupt, 7-4 the reset, 2-0 the mode.
#[derive(Clone, Copy, PartialEq, Eq, Default, Debug)]
pub struct Status(pub u16);

// How the last command went.
#[derive(Clone, Copy, PartialEq, Eq, Debug)]
pub enum CmdStatus {
    Fail = 0,
    PErr = 1,
    Ok = 2,
    Data = 3,
    Unknown = 8, // bits 11-9 hold no 8
}

impl From<u8> for CmdStatus {
    ghost from_gives = { λ value status. status ≡ cmd_of value };

    fn from(value: u8) -> CmdStatus {
        match value {
            0 => CmdStatus::Fail,
            1 => CmdStatus::PErr,
            2 => CmdStatus::Ok,
            3 => CmdStatus::Data,
            _ => CmdStatus::Unknown,
        }
    }
}

impl CmdStatus {
    // Its number in the Rust.
    pub fn code(self) -> u64
        ensures { result ≡ cmd_code self }
    {
        self as u64
    }

    pub fn check(self) -> Result<(), Lr2021Error>
        ensures { result ≡ check_of self }
    {
        match self {
            CmdStatus::Unknown => Err(Lr2021Error::Unknown),
            CmdStatus::Fail => Err(Lr2021Error::CmdFail),
            CmdStatus::PErr => Err(Lr2021Error::CmdErr),
            CmdStatus::Ok | CmdStatus::Data => Ok(()),
        }
    }
}

// What reset the chip last.
#[derive(Clone, Copy, PartialEq, Eq, Debug)]
pub enum ResetSrc {
    Cleared = 0,
    Analog = 1,
    External = 2,
    Watchdog = 4,
    Iocd = 5,
    Rtc = 6,
    Unknown = 16,
}

impl ResetSrc {
    // Its number in the Rust.
    pub fn code(self) -> u64
        ensures { result ≡ reset_code self }
    {
        self as u64
    }
}

// What the chip is doing.
#[derive(Clone, Copy, PartialEq, Eq, Debug)]
pub enum ChipModeStatus {
    Sleep = 0,
    Rc = 1,
    Xosc = 2,
    Fs = 3,
    Rx = 4,
    Tx = 5,
    Unknown = 8, // bits 2-0 hold no 8
}

impl ChipModeStatus {
    // Its number in the Rust.
    pub fn code(self) -> u64
        ensures { result ≡ mode_code self }
    {
        self as u64
    }
}

impl Status {
    pub fn from_array(bytes: [u8; 2]) -> Status
        ensures { result ≡ status_of bytes }
    {
        Status(u16::from_be_bytes(bytes))
    }

    // A byte that the slice lacks is 0; those past the second are not looked at.
    pub fn from_slice(bytes: &[u8]) -> Status
        ensures { result ≡ status_of bytes.now }
    {
        Status(word_at(bytes, 0))
    }

    pub fn cmd(self) -> CmdStatus
        ensures { result ≡ cmd_in self.0 }
    {
        CmdStatus::from((self.0 / 512 % 8) as u8)
    }

    // Whether the last command succeeded.
    pub fn is_ok(self) -> bool
        ensures { result ≡ good_cmd (cmd_in self.0) }
    {
        matches!(self.cmd(), CmdStatus::Ok | CmdStatus::Data)
    }

    // Whether an interrupt is pending.
    pub fn irq(self) -> bool
        ensures { result ≡ is_set self.0 8 }
    {
        self.0 & 0x0100 != 0
    }

    // A number past 6 has no name, and 3 has none: taken for 3 it leaves seven cases, which become a table without a branch.
    pub fn reset_src(self) -> ResetSrc
        ensures { result ≡ reset_in self.0 }
    {
        let value = self.0 / 16 % 16;
        let near = if 6 < value { 3 } else { value };
        match near {
            0 => ResetSrc::Cleared,
            1 => ResetSrc::Analog,
            2 => ResetSrc::External,
            3 => ResetSrc::Unknown,
            4 => ResetSrc::Watchdog,
            5 => ResetSrc::Iocd,
            6 => ResetSrc::Rtc,
            _ => ResetSrc::Unknown,
        }
    }

    pub fn chip_mode(self) -> ChipModeStatus
        ensures { result ≡ mode_in self.0 }
    {
        match self.0 % 8 {
            0 => ChipModeStatus::Sleep,
            1 => ChipModeStatus::Rc,
            2 => ChipModeStatus::Xosc,
            3 => ChipModeStatus::Fs,
            4 => ChipModeStatus::Rx,
            5 => ChipModeStatus::Tx,
            _ => ChipModeStatus::Unknown,
        }
    }

    pub fn check(self) -> Result<(), Lr2021Error>
        ensures { result ≡ check_of (cmd_in self.0) }
    {
        self.cmd().check()
    }
}

// The interrupts, one bit each.
// The receive FIFO has reached its threshold.
pub const IRQ_MASK_RX_FIFO: u32 = 0x00000001;
// The transmit FIFO has reached its threshold.
pub const IRQ_MASK_TX_FIFO: u32 = 0x00000002;
// The slave has received a valid ranging request.
pub const IRQ_MASK_RNG_REQ_VLD: u32 = 0x00000004;
// A sent packet has ended: for time stamps only, not for a change of mode.
pub const IRQ_MASK_TX_TIMESTAMP: u32 = 0x00000008;
// A received packet has ended: for time stamps only, not for a change of mode.
pub const IRQ_MASK_RX_TIMESTAMP: u32 = 0x00000010;
// A preamble is detected.
pub const IRQ_MASK_PREAMBLE_DETECTED: u32 = 0x00000020;
// A LoRa header is detected, or a sync word is valid.
pub const IRQ_MASK_HEADER_VALID: u32 = 0x00000040;
// Activity is detected on the channel.
pub const IRQ_MASK_CAD_DETECTED: u32 = 0x00000080;
// The precise time of a LoRa header; in implicit mode, of eight symbols of the payload.
pub const IRQ_MASK_LORA_HDR_TIMESTAMP: u32 = 0x00000100;
// The CRC of a LoRa header is wrong.
pub const IRQ_MASK_HEADER_ERR: u32 = 0x00000200;
// The end of life.
pub const IRQ_MASK_EOL: u32 = 0x00000400;
// The power amplifier met too much current or voltage.
pub const IRQ_MASK_PA: u32 = 0x00000800;
// A LoRa hop within a packet.
pub const IRQ_MASK_LORA_TX_RX_HOP: u32 = 0x00001000;
// The sync word did not match after a detection (for debugging).
pub const IRQ_MASK_SYNC_FAIL: u32 = 0x00002000;
// A LoRa symbol has ended (for debugging).
pub const IRQ_MASK_LORA_SYMBOL_END: u32 = 0x00004000;
// The time stamp register has new statistics (for debugging).
pub const IRQ_MASK_LORA_TIMESTAMP_STAT: u32 = 0x00008000;
// An error other than one of a command.
pub const IRQ_MASK_ERROR: u32 = 0x00010000;
// A command of the host failed or was wrong.
pub const IRQ_MASK_CMD: u32 = 0x00020000;
// A packet is received.
pub const IRQ_MASK_RX_DONE: u32 = 0x00040000;
// A packet is sent.
pub const IRQ_MASK_TX_DONE: u32 = 0x00080000;
// The detection of channel activity is over.
pub const IRQ_MASK_CAD_DONE: u32 = 0x00100000;
// Receiving or sending took too long.
pub const IRQ_MASK_TIMEOUT: u32 = 0x00200000;
// A packet was received with a wrong CRC.
pub const IRQ_MASK_CRC_ERROR: u32 = 0x00400000;
// A packet was received with a wrong length.
pub const IRQ_MASK_LEN_ERROR: u32 = 0x00800000;
// A packet was received for another address.
pub const IRQ_MASK_ADDR_ERROR: u32 = 0x01000000;
// A ramp-up of a hop within a packet is done.
pub const IRQ_MASK_FHSS: u32 = 0x02000000;
// The host can load a new table of frequencies.
pub const IRQ_MASK_INTER_PACKET1: u32 = 0x04000000;
// The host can load a new payload.
pub const IRQ_MASK_INTER_PACKET2: u32 = 0x08000000;
// The slave has sent its ranging response.
pub const IRQ_MASK_RNG_RESP_DONE: u32 = 0x10000000;
// A ranging request is discarded: its address does not match.
pub const IRQ_MASK_RNG_REQ_DIS: u32 = 0x20000000;
// The master has received a valid ranging response.
pub const IRQ_MASK_RNG_EXCH_VLD: u32 = 0x40000000;
// The master has received no ranging response.
pub const IRQ_MASK_RNG_TIMEOUT: u32 = 0x80000000;

// What serves to send and receive with LoRa.
pub const IRQ_MASK_LORA_TXRX: u32 = IRQ_MASK_PREAMBLE_DETECTED
    | IRQ_MASK_HEADER_ERR
    | IRQ_MASK_HEADER_VALID
    | IRQ_MASK_RX_DONE
    | IRQ_MASK_TX_DONE
    | IRQ_MASK_CAD_DETECTED
    | IRQ_MASK_CAD_DONE
    | IRQ_MASK_TIMEOUT
    | IRQ_MASK_CRC_ERROR;
// What serves to send and receive with FSK.
pub const IRQ_MASK_FSK_TXRX: u32 = IRQ_MASK_PREAMBLE_DETECTED
    | IRQ_MASK_RX_DONE
    | IRQ_MASK_TX_DONE
    | IRQ_MASK_LEN_ERROR
    | IRQ_MASK_TIMEOUT
    | IRQ_MASK_CRC_ERROR;

// No function reads these two masks: here it is stated which bits they have.
fn lora_txrx() -> u32
    ensures { result ≡ mask_of (5 ∷ 9 ∷ 6 ∷ 18 ∷ 19 ∷ 7 ∷ 20 ∷ 21 ∷ 22 ∷ []) }
{
    IRQ_MASK_LORA_TXRX
}

fn fsk_txrx() -> u32
    ensures { result ≡ mask_of (5 ∷ 18 ∷ 19 ∷ 23 ∷ 21 ∷ 22 ∷ []) }
{
    IRQ_MASK_FSK_TXRX
}

// Interrupts that are raised, or that are to be: a bit for each.
#[derive(Clone, Copy, PartialEq, Eq, Default, Debug)]
pub struct Intr(pub u32);

impl From<u32> for Intr {
    ghost from_gives = { λ value raised. raised ≡ intr value };

    fn from(value: u32) -> Intr {
        Intr::new(value)
    }
}

impl Intr {
    // A byte that the slice lacks is 0; those past the fourth are not looked at.
    pub fn from_slice(bytes: &[u8]) -> Intr
        ensures { result ≡ intr_of bytes.now }
    {
        // Nearly always all four are there, and are then read at once.
        if 4 <= bytes.len() {
            return Intr(u32_of(bytes[0], bytes[1], bytes[2], bytes[3]));
        }
        Intr(u32_of(
            byte_at(bytes, 0),
            byte_at(bytes, 1),
            byte_at(bytes, 2),
            byte_at(bytes, 3),
        ))
    }

    // From a mask, an OR of the constants above.
    pub fn new(value: u32) -> Intr
        ensures { result ≡ intr value }
    {
        Intr(value)
    }

    // A packet sent or received, or the time for it over.
    pub fn new_txrx() -> Intr
        ensures { result ≡ intr (mask_of (18 ∷ 19 ∷ 21 ∷ [])) }
    {
        Intr(IRQ_MASK_RX_DONE | IRQ_MASK_TX_DONE | IRQ_MASK_TIMEOUT)
    }

    // What ranging raises.
    pub fn new_ranging() -> Intr
        ensures { result ≡ intr (mask_of (30 ∷ 28 ∷ 29 ∷ 21 ∷ 31 ∷ [])) }
    {
        Intr(
            IRQ_MASK_RNG_EXCH_VLD
                | IRQ_MASK_RNG_RESP_DONE
                | IRQ_MASK_RNG_REQ_DIS
                | IRQ_MASK_TIMEOUT
                | IRQ_MASK_RNG_TIMEOUT,
        )
    }

    pub fn value(self) -> u32
        ensures { result ≡ self.0 }
    {
        self.0
    }

    // Whether one of the mask's interrupts is raised.
    pub fn intr_match(self, mask: u32) -> bool
        ensures { result ≡ raised self.0 mask }
    {
        self.0 & mask != 0
    }

    // Whether no interrupt is raised.
    pub fn none(self) -> bool
        ensures { result ≡ eqb self.0 0 }
    {
        self.0 == 0
    }

    // Whether each is raised, in bit order 0 to 31; the masks above say what each is. One function a bit, by the names that the Rust has.
    pub fn rx_fifo(self) -> bool
        ensures { result ≡ is_set self.0 0 }
    {
        self.0 & IRQ_MASK_RX_FIFO != 0
    }

    pub fn tx_fifo(self) -> bool
        ensures { result ≡ is_set self.0 1 }
    {
        self.0 & IRQ_MASK_TX_FIFO != 0
    }

    pub fn rng_req_vld(self) -> bool
        ensures { result ≡ is_set self.0 2 }
    {
        self.0 & IRQ_MASK_RNG_REQ_VLD != 0
    }

    pub fn tx_timestamp(self) -> bool
        ensures { result ≡ is_set self.0 3 }
    {
        self.0 & IRQ_MASK_TX_TIMESTAMP != 0
    }

    pub fn rx_timestamp(self) -> bool
        ensures { result ≡ is_set self.0 4 }
    {
        self.0 & IRQ_MASK_RX_TIMESTAMP != 0
    }

    pub fn preamble_detected(self) -> bool
        ensures { result ≡ is_set self.0 5 }
    {
        self.0 & IRQ_MASK_PREAMBLE_DETECTED != 0
    }

    pub fn header_valid(self) -> bool
        ensures { result ≡ is_set self.0 6 }
    {
        self.0 & IRQ_MASK_HEADER_VALID != 0
    }

    pub fn cad_detected(self) -> bool
        ensures { result ≡ is_set self.0 7 }
    {
        self.0 & IRQ_MASK_CAD_DETECTED != 0
    }

    pub fn lora_hdr_timestamp(self) -> bool
        ensures { result ≡ is_set self.0 8 }
    {
        self.0 & IRQ_MASK_LORA_HDR_TIMESTAMP != 0
    }

    pub fn header_err(self) -> bool
        ensures { result ≡ is_set self.0 9 }
    {
        self.0 & IRQ_MASK_HEADER_ERR != 0
    }

    pub fn eol(self) -> bool
        ensures { result ≡ is_set self.0 10 }
    {
        self.0 & IRQ_MASK_EOL != 0
    }

    pub fn pa(self) -> bool
        ensures { result ≡ is_set self.0 11 }
    {
        self.0 & IRQ_MASK_PA != 0
    }

    pub fn lora_tx_rx_hop(self) -> bool
        ensures { result ≡ is_set self.0 12 }
    {
        self.0 & IRQ_MASK_LORA_TX_RX_HOP != 0
    }

    pub fn sync_fail(self) -> bool
        ensures { result ≡ is_set self.0 13 }
    {
        self.0 & IRQ_MASK_SYNC_FAIL != 0
    }

    pub fn lora_symbol_end(self) -> bool
        ensures { result ≡ is_set self.0 14 }
    {
        self.0 & IRQ_MASK_LORA_SYMBOL_END != 0
    }

    pub fn lora_timestamp_stat(self) -> bool
        ensures { result ≡ is_set self.0 15 }
    {
        self.0 & IRQ_MASK_LORA_TIMESTAMP_STAT != 0
    }

    pub fn error(self) -> bool
        ensures { result ≡ is_set self.0 16 }
    {
        self.0 & IRQ_MASK_ERROR != 0
    }

    pub fn cmd(self) -> bool
        ensures { result ≡ is_set self.0 17 }
    {
        self.0 & IRQ_MASK_CMD != 0
    }

    pub fn rx_done(self) -> bool
        ensures { result ≡ is_set self.0 18 }
    {
        self.0 & IRQ_MASK_RX_DONE != 0
    }

    pub fn tx_done(self) -> bool
        ensures { result ≡ is_set self.0 19 }
    {
        self.0 & IRQ_MASK_TX_DONE != 0
    }

    pub fn cad_done(self) -> bool
        ensures { result ≡ is_set self.0 20 }
    {
        self.0 & IRQ_MASK_CAD_DONE != 0
    }

    pub fn timeout(self) -> bool
        ensures { result ≡ is_set self.0 21 }
    {
        self.0 & IRQ_MASK_TIMEOUT != 0
    }

    pub fn crc_error(self) -> bool
        ensures { result ≡ is_set self.0 22 }
    {
        self.0 & IRQ_MASK_CRC_ERROR != 0
    }

    pub fn len_error(self) -> bool
        ensures { result ≡ is_set self.0 23 }
    {
        self.0 & IRQ_MASK_LEN_ERROR != 0
    }

    pub fn addr_error(self) -> bool
        ensures { result ≡ is_set self.0 24 }
    {
        self.0 & IRQ_MASK_ADDR_ERROR != 0
    }

    pub fn fhss(self) -> bool
        ensures { result ≡ is_set self.0 25 }
    {
        self.0 & IRQ_MASK_FHSS != 0
    }

    pub fn inter_packet1(self) -> bool
        ensures { result ≡ is_set self.0 26 }
    {
        self.0 & IRQ_MASK_INTER_PACKET1 != 0
    }

    pub fn inter_packet2(self) -> bool
        ensures { result ≡ is_set self.0 27 }
    {
        self.0 & IRQ_MASK_INTER_PACKET2 != 0
    }

    pub fn rng_resp_done(self) -> bool
        ensures { result ≡ is_set self.0 28 }
    {
        self.0 & IRQ_MASK_RNG_RESP_DONE != 0
    }

    pub fn rng_req_dis(self) -> bool
        ensures { result ≡ is_set self.0 29 }
    {
        self.0 & IRQ_MASK_RNG_REQ_DIS != 0
    }

    pub fn rng_exch_vld(self) -> bool
        ensures { result ≡ is_set self.0 30 }
    {
        self.0 & IRQ_MASK_RNG_EXCH_VLD != 0
    }

    pub fn rng_timeout(self) -> bool
        ensures { result ≡ is_set self.0 31 }
    {
        self.0 & IRQ_MASK_RNG_TIMEOUT != 0
    }
}
