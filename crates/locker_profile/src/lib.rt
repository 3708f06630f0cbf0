// The locker profile: whether a book's LoRa settings keep the seven rules for banks, and else which is the first that they break.
// specs/Rules.antt has the rules, specs/Profile.antt the answer for a book; proofs/Laws.antt what the answers mean, and what they do not depend on.
#![tactic(auto)]

ghost use Rattle.std.specs.Prelude.{◌≡◌, not, true, ◌≤◌, ◌<◌};
ghost use Rattle.table.specs.Table.{settings};
ghost use Rattle.decoder.specs.Decoding.{decode};
ghost use Rattle.settings.specs.Settings.{slot_for};
ghost use Rattle.cmd_lora.specs.Methods.{over};
ghost use Rattle.book.specs.Book.{opened_for, Read};
ghost use Rattle.locker_profile.specs.Rules.{due_for, first_broken, is_long, rate, rules, spreading_factor, width, width_of};
ghost use Rattle.locker_profile.specs.Profile.{answer_for, lora_from};
ghost use Rattle.locker_profile.specs.Steps.{asked_of, handed, missing_for};

use cmd_lora::{HeaderType, Ldro, LoraBw, LoraCr, Sf};
use refusal::Refusal;

// None where all rules are kept, and else the first broken one, counted from 1; or why the book cannot be judged.
pub type Answer = Result<Option<usize>, Refusal>;

// The arguments that the rules look at, as numbers: four of kind 1, two of kind 2 and that of kind 4.
#[derive(Clone, Copy)]
struct Lora {
    pub sf: u64,
    pub lora_bw: u64,
    pub lora_cr: u64,
    pub ldro: u64,
    pub header_type: u64,
    pub crc_en: u64,
    pub syncword: u64,
}

// ---- what the book holds

// What an ask calls not held, 9, is a missing setting here, 22; the book's own refusals stay.
fn missing(why: Refusal) -> Refusal
    ensures { result ≡ missing_for why }
{
    if why.number() == 9 {
        return Refusal::SettingMissing;
    }
    why
}

// The arguments of a frame; one that a book holds decodes.
fn arguments_of(frame: &[u8]) -> [u64; 9]
    ensures { result ≡ handed (decode frame.now) }
{
    let answer = decoder::decode(frame);
    match answer {
        Ok(decoded) => decoded.args,
        Err(_) => [0u64; 9],
    }
}

// A setting's arguments. No frame is longer than 12 bytes: an ask is refused by the book itself, or because it holds no frame of the kind.
fn asked(book: &[u8], kind: u64) -> Result<[u64; 9], Refusal>
    requires { slot_for kind < settings }
    ensures { result ≡ asked_of kind (opened_for Read book.now) }
{
    let mut frame = [0u8; 12];
    let answer = book::ask(book, kind, &mut frame);
    match answer {
        Ok(n) => {
            let args = arguments_of(&frame[0..n]);
            Ok(args)
        }
        Err(why) => Err(missing(why)),
    }
}

fn lora_of(modulation: [u64; 9], packet: [u64; 9], sync: [u64; 9]) -> Lora
    ensures { result ≡ lora_from modulation packet sync }
{
    Lora {
        sf: modulation[0],
        lora_bw: modulation[1],
        lora_cr: modulation[2],
        ldro: modulation[3],
        header_type: packet[2],
        crc_en: packet[3],
        syncword: sync[0],
    }
}

// ---- the rules

fn breaks_spreading_factor(lora: Lora) -> bool
    ensures { result ≡ not (spreading_factor lora) }
{
    lora.sf < Sf::Sf7.code() || Sf::Sf12.code() < lora.sf
}

fn breaks_width(lora: Lora) -> bool
    ensures { result ≡ not (width lora) }
{
    lora.lora_bw != LoraBw::Bw125.code() && lora.lora_bw != LoraBw::Bw250.code()
}

fn breaks_rate(lora: Lora) -> bool
    ensures { result ≡ not (rate lora) }
{
    lora.lora_cr < LoraCr::Cr1Ham45Si.code() || LoraCr::Cr4Ham12Si.code() < lora.lora_cr
}

// Whether 2^sf chips, hz of them a second, last at least 16 ms: products are compared, so that nothing is rounded.
fn is_long(sf: u64, hz: u32) -> bool
    requires { sf ≤ 12 }
    ensures { result ≡ is_long sf (over hz 1) }
{
    16 * (hz as u64) <= (1u64 << sf) * 1000
}

// The width of 125 or 250 kHz in Hz: both are whole numbers.
fn hz_of(lora: Lora) -> u32
    requires { width lora ≡ true }
    ensures { over result 1 ≡ width_of lora.lora_bw }
{
    if lora.lora_bw == LoraBw::Bw125.code() {
        return LoraBw::Bw125.to_hz();
    }
    LoraBw::Bw250.to_hz()
}

// The code of the optimisation that is due.
fn due(lora: Lora) -> u64
    requires { (spreading_factor lora ≡ true) × (width lora ≡ true) }
    ensures { result ≡ due_for lora }
{
    if is_long(lora.sf, hz_of(lora)) {
        return Ldro::On.code();
    }
    Ldro::Off.code()
}

// The first broken rule, counted from 1; None where all are kept.
fn first_broken(lora: Lora) -> Option<usize>
    ensures { result ≡ first_broken 1 rules lora }
{
    if breaks_spreading_factor(lora) {
        return Some(1);
    }
    if breaks_width(lora) {
        return Some(2);
    }
    if breaks_rate(lora) {
        return Some(3);
    }
    if lora.header_type != HeaderType::Explicit.code() {
        return Some(4);
    }
    if lora.crc_en != 1 {
        return Some(5);
    }
    if lora.syncword != 0x12 {
        return Some(6);
    }
    if lora.ldro != due(lora) {
        return Some(7);
    }
    None
}

// ---- the answer

// Whether a book keeps the rules. It is refused as an ask of it would be, and then where it lacks kind 1, 2 or 4.
pub fn check(book: &[u8]) -> Answer
    ensures { result ≡ answer_for book.now }
{
    let modulation = asked(book, 1)?;
    let packet = asked(book, 2)?;
    let sync = asked(book, 4)?;
    Ok(first_broken(lora_of(modulation, packet, sync)))
}
