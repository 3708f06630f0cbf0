// Why a call is refused: one enum for the whole library. specs/Numbers.antt has the numbers and places, and says when each is given.
#![tactic(auto)]

ghost use Rattle.std.specs.Prelude.{◌≡◌, Some};
ghost use Rattle.refusal.specs.Numbers.{number_of, place_of};
ghost use Rattle.refusal.specs.Told.{told};

use std::error::Error;
use std::fmt;

// A refusal that has a place carries it: a byte of the frame or of the trace from 0, or an argument or a bank from 1.
#[derive(Clone, Copy, PartialEq, Eq, Debug)]
pub enum Refusal {
    ShortFrame,
    UnknownOpcode,
    WrongLength,
    StrayBit(usize),
    UnknownCode(usize),
    ArgumentOutside(usize),
    ResponseLength,
    NoRoom,
    NotHeld,
    NotWellFormed,
    BufferSize,
    OutputShort,
    NotAKind,
    ReelCut,
    TraceFault(usize),
    BothForms,
    OwnersWrong,
    OtherSide,
    NoWidth(usize),
    NotNarrowest(usize),
    ListLength,
    SettingMissing,
}

impl Refusal {
    // Its number, 1 to 22.
    pub fn number(self) -> u32
        ensures { result ≡ number_of self }
    {
        match self {
            Refusal::ShortFrame => 1,
            Refusal::UnknownOpcode => 2,
            Refusal::WrongLength => 3,
            Refusal::StrayBit(_) => 4,
            Refusal::UnknownCode(_) => 5,
            Refusal::ArgumentOutside(_) => 6,
            Refusal::ResponseLength => 7,
            Refusal::NoRoom => 8,
            Refusal::NotHeld => 9,
            Refusal::NotWellFormed => 10,
            Refusal::BufferSize => 11,
            Refusal::OutputShort => 12,
            Refusal::NotAKind => 13,
            Refusal::ReelCut => 14,
            Refusal::TraceFault(_) => 15,
            Refusal::BothForms => 16,
            Refusal::OwnersWrong => 17,
            Refusal::OtherSide => 18,
            Refusal::NoWidth(_) => 19,
            Refusal::NotNarrowest(_) => 20,
            Refusal::ListLength => 21,
            Refusal::SettingMissing => 22,
        }
    }

    // Where: 0 for a refusal that has no place.
    pub fn place(self) -> usize
        ensures { result ≡ place_of self }
    {
        match self {
            Refusal::StrayBit(at) | Refusal::UnknownCode(at) => at,
            Refusal::ArgumentOutside(at) | Refusal::TraceFault(at) => at,
            Refusal::NoWidth(bank) | Refusal::NotNarrowest(bank) => bank,
            Refusal::ShortFrame
            | Refusal::UnknownOpcode
            | Refusal::WrongLength
            | Refusal::ResponseLength
            | Refusal::NoRoom
            | Refusal::NotHeld
            | Refusal::NotWellFormed
            | Refusal::BufferSize
            | Refusal::OutputShort
            | Refusal::NotAKind
            | Refusal::ReelCut
            | Refusal::BothForms
            | Refusal::OwnersWrong
            | Refusal::OtherSide
            | Refusal::ListLength
            | Refusal::SettingMissing => 0,
        }
    }
}

// Its number and its place, in words.
impl fmt::Display for Refusal {
    ghost output = { λ why. Some (told why) };

    fn fmt<W: fmt::Write>(&self, f: &mut fmt::Formatter<W>) -> fmt::Result {
        let number = self.number();
        let place = self.place();
        write!(f, "refused {number} at {place}")
    }
}

impl Error for Refusal {}
