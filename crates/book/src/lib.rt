// The settings book over a lent buffer, in place: make, put, remove, ask, clear, replay. specs/Plain.antt says what each call does to a
// plain list of frames, specs/Book.antt what it does to a buffer that holds one; proofs/History.antt has the theorem over every list of calls.
// Which layout a book has its bytes say (`slots_in`); the edits in place take the number of its slots.
#![tactic(auto)]

ghost use Rattle.std.specs.Prelude.{◌≡◌, [], ◌+◌, ◌-◌, ◌*◌, ◌<◌, ◌≤◌, length, get_or, take, drop, set};
ghost use Rattle.std.proofs.Math.Seq.{paste};
ghost use Rattle.table.specs.Table.{settings};
ghost use Rattle.settings.specs.Settings.{slot_of};
ghost use Rattle.contents.specs.Contents.{layout, longest, offset_at, start};
ghost use Rattle.book.specs.Plain.{declined_of, put_on};
ghost use Rattle.book.specs.Book.{Edit, Permits, Read, Tells, call, opened_for, layout_in, opened, ours, verdict};
ghost use Rattle.book.specs.Edits.{shifted_at, Low, remap, moved, refitted, swapped, taken_out, Tiles, reel_from};
ghost use Rattle.book.specs.History.{Make, Put, Remove, Ask, Clear, Replay, after};

use refusal::Refusal;
use settings::{size_of, slot_for};

// A call's answer: done, with the number of bytes written where the call writes to an output and else 0; or why it was refused.
pub type Answer = Result<usize, Refusal>;

// The layout that is made and edited: its version, its slots, and where its frames start.
const VERSION: u8 = 1;

const SLOTS: usize = 29;

const START: usize = 4 + 2 * SLOTS;

// The longest reel of a book's frames: an output of so many bytes takes every replay.
pub const LONGEST_REEL: usize = forms::MOST_BYTES + forms::MOST_FRAMES;

// The slots of the bytes' layout.
pub fn slots_in(book: &[u8]) -> usize
    ensures { (result ≡ (layout_in book.now).slots) × (result ≤ longest) }
{
    SLOTS
}

// Whether the bytes are a sound book of a layout.
fn is_sound(book: &[u8], version: u8, slots: usize) -> Answer
    ensures { result ≡ verdict (opened (layout version slots) book.now) }
{
    contents::check(book, version, slots)?;
    if forms::both_forms(book, slots) {
        Err(Refusal::BothForms)
    } else {
        Ok(0)
    }
}

// Whether the bytes are a book that can be read. Every refusal of a whole book is given by this function or the next, but for that of a make. They are
// two, and say the same, for the version to come (docs/DESIGN, "A version of the book").
pub fn ready_to_read(book: &[u8]) -> Answer
    ensures { result ≡ verdict (opened_for Read book.now) }
{
    is_sound(book, VERSION, SLOTS)
}

// Whether they are one that can be edited.
pub fn ready_to_edit(book: &[u8]) -> Answer
    ensures { result ≡ verdict (opened_for Edit book.now) }
{
    is_sound(book, VERSION, SLOTS)
}

// Why a frame is no setting, by the decoder's answer: its refusal, or that the kind is an action.
fn declined(answer: Result<decoder::Decoded, Refusal>) -> Answer
    ensures { result ≡ declined_of answer }
{
    match answer {
        Ok(_) => Err(Refusal::NotAKind),
        Err(why) => Err(why),
    }
}

// ---- edits in place

// An offset, once the old bytes at `at` are new ones: 0 for the slot whose bytes they were.
fn shifted(at: usize, old: usize, new: usize, o: usize) -> usize
    requires { (old ≤ at) × (o ≤ longest) × (new ≤ longest) }
    ensures { (result ≡ shifted_at at old new o) × (result < 65536) }
{
    if at < o {
        return o - old + new;
    }
    if o == at {
        return 0;
    }
    o
}

fn shift_offsets(b: &mut [u8], slots: usize, at: usize, old: usize, new: usize)
    requires { (start slots ≤ length b.old) × (old ≤ at) × (new ≤ longest) × Low slots b.old }
    ensures { b.new ≡ remap (shifted_at at old new) slots b.old 0 }
{
    for s in 0..slots {
        let o = contents::offset(b, s);
        spans::put_word(b, 4 + 2 * s, shifted(at, old, new, o));
    }
}

// What stands behind the old bytes at `at`, up to e, moves down or up to behind the new ones, and zeros take the bytes that it leaves.
fn move_rest(b: &mut [u8], at: usize, old: usize, new: usize, e: usize)
    requires { (at + old ≤ e) × (e ≤ length b.old) × (length b.old ≤ longest) × (e - old + new ≤ length b.old) }
    ensures { b.new ≡ moved b.old at old new e }
{
    let m = e - (at + old);
    if new < old {
        spans::slide(b, at + new, old - new, m);
        spans::zero(b, e - old + new, old - new);
        return;
    }
    spans::slide_up(b, at + old, new - old, m);
}

// Room for new bytes where the old ones at `at` stood, in a book whose frames end at e.
fn refit(b: &mut [u8], slots: usize, at: usize, old: usize, new: usize, e: usize)
    requires { (start slots ≤ at) × (old ≤ at) × (at + old ≤ e) × (e ≤ length b.old) × (length b.old ≤ longest) × (e - old + new ≤ length b.old)
        × Low slots b.old }
    ensures { b.new ≡ refitted slots b.old at old new e }
{
    shift_offsets(b, slots, at, old, new);
    move_rest(b, at, old, new, e);
    spans::put_word(b, 2, e - old + new);
}

// The frame of len bytes at `at` goes, and what stands behind it, up to e, closes the gap.
fn take_out(b: &mut [u8], slots: usize, at: usize, len: usize, e: usize)
    requires { (start slots ≤ at) × (len ≤ at) × (at + len ≤ e) × (e ≤ length b.old) × (length b.old ≤ longest) × (0 < get_or b.old 1 0)
        × Low slots b.old }
    ensures { b.new ≡ taken_out slots b.old at len e }
{
    let c = b[1];
    refit(b, slots, at, len, 0, e);
    b[1] = c - 1;
}

// A frame of a slot where the old bytes at `at` stood, in a book whose frames end at e.
fn swap(b: &mut [u8], slots: usize, at: usize, old: usize, frame: &[u8], slot: usize, e: usize)
    requires { (start slots ≤ at) × (old ≤ at) × (at + old ≤ e) × (e ≤ length b.old) × (length b.old ≤ longest)
        × (e - old + length frame.now ≤ length b.old) × (slot < slots) × Low slots b.old }
    ensures { b.new ≡ swapped slots b.old at old frame.now slot e }
{
    refit(b, slots, at, old, frame.len(), e);
    spans::write(b, at, frame);
    spans::put_word(b, 4 + 2 * slot, at);
}

// ---- the reel

// A length byte at w, and the n bytes of b from p after it.
fn write_frame(b: &[u8], p: usize, n: usize, out: &mut [u8], w: usize)
    requires { (p + n ≤ length b.now) × (w + 1 + n ≤ length out.old) × (n < 256) }
    ensures { out.new ≡ paste (set out.old w n) (w + 1) (take n (drop p b.now)) n }
{
    out[w] = n as u8;
    spans::write(out, w + 1, &b[p..p + n]);
}

// The c frames that fill the bytes up to e, as a reel. How long each is its slot says: in a sound book it need not be decoded again.
fn write_reel(b: &[u8], slots: usize, c: usize, e: usize, out: &mut [u8])
    requires { (start slots ≤ e) × (e ≤ length b.now) × (e - start slots + c ≤ length out.old) × Tiles slots c b.now (start slots) e }
    ensures { out.new ≡ reel_from slots c b.now (start slots) e 0 out.old }
{
    let mut p: usize = 4 + 2 * slots;
    let mut w: usize = 0;
    for _i in 0..c {
        let n = size_of(contents::slot_at(b, slots, p));
        write_frame(b, p, n, out, w);
        p += n;
        w = w + 1 + n;
    }
}

// ---- the calls

// The empty book, in a buffer of any content.
pub fn make(book: &mut [u8]) -> Answer
    ensures { Permits (after Make book.old) result book.new }
{
    if book.len() < START {
        return Err(Refusal::BufferSize);
    }
    if book.len() > contents::LONGEST {
        return Err(Refusal::BufferSize);
    }
    filling::blank(book, VERSION, SLOTS);
    Ok(0)
}

// A setting's frame, in the place of the one that is held in either form, or behind all others.
pub fn put(book: &mut [u8], frame: &[u8]) -> Answer
    ensures { Permits (after (Put frame.now) book.old) result book.new }
{
    ready_to_edit(book)?;
    let answer = decoder::decode(frame);
    let Ok(decoded) = answer else {
        return declined(answer);
    };
    let slot = slot_for(decoded.kind);
    if slot < table::SETTINGS {
        return put_setting(book, frame, slot);
    }
    declined(answer)
}

// A put into a sound book, of a frame that is a setting's: a slot's frames are all of one length, so an overwrite needs no room.
fn put_setting(book: &mut [u8], frame: &[u8], slot: usize) -> Answer
    requires { (Ok 0 ≡ verdict (opened ours book.old)) × (slot ≡ slot_of frame.now) × (slot < settings) }
    ensures { Permits (call ours (put_on frame.now) [] book.old) result book.new }
{
    let at = contents::offset(book, slot);
    if at != 0 {
        spans::write(book, at, frame);
        return Ok(0);
    }
    put_new(book, frame, slot)
}

// A put of a form that is not held: where its other form stands, or behind all others. Room is judged on the frames after the put.
fn put_new(book: &mut [u8], frame: &[u8], slot: usize) -> Answer
    requires { (Ok 0 ≡ verdict (opened ours book.old)) × (slot ≡ slot_of frame.now) × (slot < settings) × (0 ≡ offset_at book.old slot) }
    ensures { Permits (call ours (put_on frame.now) [] book.old) result book.new }
{
    let e = contents::word(book, 2);
    let twin = forms::other_form(slot);
    let at = contents::offset(book, twin);
    if at != 0 {
        let old = size_of(twin);
        if frame.len() > book.len() - (e - old) {
            return Err(Refusal::NoRoom);
        }
        swap(book, SLOTS, at, old, frame, slot, e);
        return Ok(0);
    }
    if frame.len() <= book.len() - e {
        filling::append(book, SLOTS, slot, frame);
        return Ok(0);
    }
    Err(Refusal::NoRoom)
}

// Takes a kind's frame out, and closes the gap.
pub fn remove(book: &mut [u8], kind: u64) -> Answer
    ensures { Permits (after (Remove kind) book.old) result book.new }
{
    ready_to_edit(book)?;
    let slot = slot_for(kind);
    if slot >= table::SETTINGS {
        return Err(Refusal::NotAKind);
    }
    let at = contents::offset(book, slot);
    if at == 0 {
        return Err(Refusal::NotHeld);
    }
    let e = contents::word(book, 2);
    let n = size_of(slot);
    take_out(book, SLOTS, at, n, e);
    Ok(0)
}

// Writes a kind's frame to the front of the output.
pub fn ask(book: &[u8], kind: u64, out: &mut [u8]) -> Answer
    ensures { Tells (after (Ask kind out.old) book.now) result out.new }
{
    ready_to_read(book)?;
    let slot = slot_for(kind);
    if slot >= table::SETTINGS {
        return Err(Refusal::NotAKind);
    }
    let at = contents::offset_for(book, slots_in(book), slot);
    if at == 0 {
        return Err(Refusal::NotHeld);
    }
    let n = size_of(slot);
    if n > out.len() {
        return Err(Refusal::OutputShort);
    }
    spans::write(out, 0, &book[at..at + n]);
    Ok(n)
}

// Takes every frame out.
pub fn clear(book: &mut [u8]) -> Answer
    ensures { Permits (after Clear book.old) result book.new }
{
    ready_to_edit(book)?;
    filling::blank(book, VERSION, SLOTS);
    Ok(0)
}

// Writes all frames to the front of the output, each after its length, in the order of first entry.
pub fn replay(book: &[u8], out: &mut [u8]) -> Answer
    ensures { Tells (after (Replay out.old) book.now) result out.new }
{
    ready_to_read(book)?;
    let slots = slots_in(book);
    let e = contents::word(book, 2);
    let c = book[1] as usize;
    let total = e - (4 + 2 * slots) + c;
    if total <= out.len() {
        write_reel(book, slots, c, e, out);
        return Ok(total);
    }
    Err(Refusal::OutputShort)
}
