// Frames: the plain and the checked builder, and the decoder.
ghost use Rattle.std.specs.Prelude.{◌≡◌};
ghost use Rattle.decoder.specs.Decoding.{decode, decoded};
ghost use Rattle.builder.specs.Building.{checked, built, plain_by};
ghost use Rattle.hoardbutton.specs.Frames.{frame_c, decoded_c};

use crate::answers::{low, refused};
use builder::Built;
use decoder::Decoded;
use refusal::Refusal;

// A frame's length and bytes, zeros behind them; or a refusal with its place.
#[repr(C)]
#[derive(Clone, Copy)]
pub struct HbFrame {
    pub refusal: u32,
    pub place: u32,
    pub len: u32,
    pub bytes: [u8; 12],
}

// A frame's kind with its first count arguments, zeros behind them; or a refusal with its place.
#[repr(C)]
#[derive(Clone, Copy)]
pub struct HbDecoded {
    pub refusal: u32,
    pub place: u32,
    pub kind: u32,
    pub count: u32,
    pub args: [u64; 9],
}

fn framed(answer: Result<Built, Refusal>) -> HbFrame
    ensures { result ≡ frame_c answer }
{
    match answer {
        Ok(built) => {
            let bytes = built.bytes;
            HbFrame {
                refusal: 0,
                place: 0,
                len: low(built.len as u64),
                bytes,
            }
        }
        Err(why) => {
            let told = refused(why);
            let bytes = [0u8; 12];
            HbFrame {
                refusal: told.refusal,
                place: told.place,
                len: 0,
                bytes,
            }
        }
    }
}

#[unsafe(no_mangle)]
pub extern "C" fn hb_plain(kind: u64, args: &[u64]) -> HbFrame
    ensures { result ≡ frame_c (built (plain_by kind args.now)) }
{
    framed(builder::plain(kind, args))
}

#[unsafe(no_mangle)]
pub extern "C" fn hb_checked(kind: u64, args: &[u64]) -> HbFrame
    ensures { result ≡ frame_c (built (checked kind args.now)) }
{
    framed(builder::checked(kind, args))
}

fn decoded(answer: Result<Decoded, Refusal>) -> HbDecoded
    ensures { result ≡ decoded_c answer }
{
    match answer {
        Ok(d) => {
            let args = d.args;
            HbDecoded {
                refusal: 0,
                place: 0,
                kind: low(d.kind),
                count: low(d.count as u64),
                args,
            }
        }
        Err(why) => {
            let said = refused(why);
            let args = [0u64; 9];
            HbDecoded {
                refusal: said.refusal,
                place: said.place,
                kind: 0,
                count: 0,
                args,
            }
        }
    }
}

#[unsafe(no_mangle)]
pub extern "C" fn hb_decode(frame: &[u8]) -> HbDecoded
    ensures { result ≡ decoded_c (decoded (decode frame.now)) }
{
    decoded(decoder::decode(frame))
}
