// The reel: frames, each after one length byte, read by a place that each step takes and hands back.
// specs/Reel.antt says what a step finds, how frames make a reel and what a reel is made of; proofs/Walks.antt that stepping finds just that.
#![tactic(auto)]

ghost use Rattle.std.specs.Prelude.{◌≡◌};
ghost use Rattle.reel.specs.Reel.{step_at};

use refusal::Refusal;

// A place in a reel.
#[derive(Clone, Copy, PartialEq, Eq, Debug)]
pub struct Cursor {
    pub at: usize,
}

// A frame: its bounds in the reel, and the place behind it.
#[derive(Clone, Copy, PartialEq, Eq, Debug)]
pub struct Framed {
    pub start: usize,
    pub end: usize,
    pub next: Cursor,
}

impl Cursor {
    // The first place of a reel.
    pub fn new() -> Self
        ensures { result ≡ record { at = 0 } }
    {
        Cursor { at: 0 }
    }

    // The next frame, or none at the end. A step that is refused hands back no place.
    pub fn step(self, reel: &[u8]) -> Result<Option<Framed>, Refusal>
        ensures { result ≡ step_at reel.now self.at }
    {
        let at = self.at;
        if reel.len() < at {
            return Err(Refusal::ReelCut);
        }
        if reel.len() == at {
            return Ok(None);
        }
        let n = usize::from(reel[at]);
        let start = at + 1;
        if n <= reel.len() - start {
            let end = start + n;
            Ok(Some(Framed {
                start,
                end,
                next: Cursor { at: end },
            }))
        } else {
            Err(Refusal::ReelCut)
        }
    }
}
