// A book filled from the front, in any layout: the empty book, a frame behind the others, and the frames of a reel, one behind the other. What does
// not fit is left undone, so that no call asks anything of its caller. That a frame's setting is not held yet is the caller's to know: calls of a book
// are made of these, as of those of `spans`. specs/Filling.antt says what each leaves, proofs/Filling.antt which list a filled book holds.
#![tactic(auto)]

ghost use Rattle.std.specs.Prelude.{◌≡◌, ◌<◌};
ghost use Rattle.contents.specs.Contents.{layout};
ghost use Rattle.reel.specs.Reel.{unreel};
ghost use Rattle.filling.specs.Filling.{appended_to, blanked, filled_by, has_room, sized_for};

use reel::Cursor;

// The most frames that a header's count can say.
const MOST_COUNTED: u8 = 255;

// Whether a book of so many slots can have that length.
fn is_sized(len: usize, slots: usize) -> bool
    ensures { result ≡ sized_for slots len }
{
    if len > contents::LONGEST {
        return false;
    }
    if slots > len {
        return false;
    }
    4 + 2 * slots <= len
}

// The empty book of a layout, whatever the bytes were.
pub fn blank(b: &mut [u8], version: u8, slots: usize)
    ensures { b.new ≡ blanked (layout version slots) b.old }
{
    let n = b.len();
    if is_sized(n, slots) {
        spans::zero(b, 0, n);
        b[0] = version;
        spans::put_word(b, 2, 4 + 2 * slots);
    }
}

// Whether n bytes of a setting's slot have room behind the frames, as the header says where these end.
fn has_room(b: &[u8], slots: usize, slot: usize, n: usize) -> bool
    ensures { result ≡ has_room slots slot n b.now }
{
    if slot >= table::SETTINGS {
        return false;
    }
    if slot >= slots {
        return false;
    }
    if !is_sized(b.len(), slots) {
        return false;
    }
    let e = contents::word(b, 2);
    if e < 4 + 2 * slots {
        return false;
    }
    if b.len() < e {
        return false;
    }
    if b.len() - e < n {
        return false;
    }
    b[1] < MOST_COUNTED
}

// A frame of a slot behind the others, with its offset in the header.
pub fn append(b: &mut [u8], slots: usize, slot: usize, frame: &[u8])
    ensures { b.new ≡ appended_to slots slot frame.now b.old }
{
    if has_room(b, slots, slot, frame.len()) {
        let e = contents::word(b, 2);
        let c = b[1];
        spans::write(b, e, frame);
        b[1] = c + 1;
        spans::put_word(b, 2, e + frame.len());
        spans::put_word(b, 4 + 2 * slot, e);
    }
}

// The frames of a reel, one behind the other, in a blank book of a layout; one that has no slot or no room there is left out.
#[tactic(auto, using(reel::proofs::Found::found_steps))]
pub fn fill(b: &mut [u8], version: u8, slots: usize, reel: &[u8])
    ensures { b.new ≡ filled_by (layout version slots) (unreel reel.now).frames b.old }
{
    blank(b, version, slots);
    let mut cursor = Cursor::new();
    while let Ok(Some(found)) = cursor.step(reel) {
        let frame = &reel[found.start..found.end];
        let slot = settings::slot_of(frame);
        append(b, slots, slot, frame);
        cursor = found.next;
    }
}
