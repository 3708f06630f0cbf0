// A reel, read by a place that each step takes and hands back.
ghost use Rattle.std.specs.Prelude.{◌≡◌};
ghost use Rattle.reel.specs.Reel.{step_at};
ghost use Rattle.dump_text.specs.Text.{text_of};
ghost use Rattle.dump_text.specs.Whole.{filled};
ghost use Rattle.hoardbutton.specs.Reels.{step_c, text_c};

use crate::answers::{HbAnswer, answered};
use reel::{Cursor, Framed};
use refusal::Refusal;

// The bounds of the next frame with the place behind it; or that the reel has ended; or a refusal.
#[repr(C)]
#[derive(Clone, Copy)]
pub struct HbStep {
    pub refusal: u32,
    pub ended: u32,
    pub start: u64,
    pub end: u64,
    pub next: u64,
}

// A step that found no frame: it ended, or was refused. Apart from a frame, since told in one match with it a step took half as much time again.
fn unframed(refusal: u32, ended: u32) -> HbStep
    ensures { result ≡ record { refusal = refusal; ended = ended; start = 0; end = 0; next = 0 } }
{
    HbStep {
        refusal,
        ended,
        start: 0,
        end: 0,
        next: 0,
    }
}

fn stepped(s: Result<Option<Framed>, Refusal>) -> HbStep
    ensures { result ≡ step_c s }
{
    let found = match s {
        Ok(Some(found)) => found,
        Ok(None) => return unframed(0, 1),
        Err(why) => return unframed(why.number(), 0),
    };
    HbStep {
        refusal: 0,
        ended: 0,
        start: found.start as u64,
        end: found.end as u64,
        next: found.next.at as u64,
    }
}

#[unsafe(no_mangle)]
pub extern "C" fn hb_reel_step(reel: &[u8], at: u64) -> HbStep
    ensures { result ≡ step_c (step_at reel.now at) }
{
    let place = Cursor { at: at as usize };
    stepped(place.step(reel))
}

// The text of a dump to the front of the output.
#[unsafe(no_mangle)]
pub extern "C" fn hb_dump(reel: &[u8], out: &mut [u8]) -> HbAnswer
    ensures { (result ≡ text_c (text_of reel.now) out.old) × (out.new ≡ filled (text_of reel.now) out.old) }
{
    answered(dump_text::dump(reel, out))
}
