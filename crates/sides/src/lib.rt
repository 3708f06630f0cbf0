// One book for two sides, each with its own settings and its own quota of the room: put, remove, ask, clear and replay of a side, made of the
// book's own calls. specs/Calls.antt says what each call does to a side's own list and to the joint one; proofs/History.antt has the theorem
// over every list of calls, and proofs/Apart.antt that neither side can tell what the other does.
#![tactic(auto)]

ghost use Rattle.std.specs.Prelude.{◌≡◌, cond, ◌&&◌, [], ◌*◌, ◌+◌, ◌-◌, ◌<◌, ◌≤◌, eqb, ltb, length, take};
ghost use Rattle.table.specs.Table.{action, kinds, settings};
ghost use Rattle.settings.specs.Settings.{size_of, slot_for};
ghost use Rattle.spans.specs.Spans.{written};
ghost use Rattle.contents.specs.Contents.{longest, present_for, start};
ghost use Rattle.owners.specs.Owners.{owner_table, owns};
ghost use Rattle.book.specs.Plain.{remove_on};
ghost use Rattle.book.specs.Book.{call_for, Edit, layout_in, longest_reel, Permits, room_in, Tells};
ghost use Rattle.sides.specs.Calls.{Request, foreign};
ghost use Rattle.sides.specs.Histories.{after_event, by};
ghost use Rattle.sides.specs.Means.{emptied_bytes, may_read, picked, Retold, weight_after, weight_from};

use book::Answer;
use owners::owner_of;
use reel::Cursor;
use refusal::Refusal;
use settings::{size_of, slot_for};

// ---- whether a side may call

// How many bytes the frames of each side have.
#[derive(Clone, Copy)]
struct Weights {
    first: usize,
    second: usize,
}

// The same of one slot: its frames are all of one length, so a header that has an offset for it tells.
fn slot_weights(book: &[u8], owners: &[u8], slots: usize, slot: usize) -> Weights
    ensures first_value { (result.first ≡ cond (present_for slots book.now slot && owns owners.now 1 slot) (size_of slot) 0) × (result.first ≤ 12) }
    ensures second_value { (result.second ≡ cond (present_for slots book.now slot && owns owners.now 2 slot) (size_of slot) 0) × (result.second ≤ 12) }
{
    if contents::offset_for(book, slots, slot) == 0 {
        return Weights {
            first: 0,
            second: 0,
        };
    }
    let side = owner_of(owners, slot);
    let n = size_of(slot);
    if side == 1 {
        return Weights {
            first: n,
            second: 0,
        };
    }
    if side == 2 {
        return Weights {
            first: 0,
            second: n,
        };
    }
    Weights {
        first: 0,
        second: 0,
    }
}

// What a sound book's header tells of both sides, in one pass.
fn weigh(book: &[u8], owners: &[u8], slots: usize) -> Weights
    ensures first_value { (result.first ≡ weight_from slots settings (owns owners.now 1) book.now 0) × (result.first ≤ 12 * settings) }
    ensures second_value { (result.second ≡ weight_from slots settings (owns owners.now 2) book.now 0) × (result.second ≤ 12 * settings) }
{
    let mut first: usize = 0;
    let mut second: usize = 0;
    for s in 0..table::SETTINGS {
        let more = slot_weights(book, owners, slots, s);
        first += more.first;
        second += more.second;
    }
    Weights { first, second }
}

fn of_side(both: Weights, side: u64) -> usize
    ensures { result ≡ cond (eqb side 1) both.first both.second }
{
    if side == 1 { both.first } else { both.second }
}

// How many bytes of frames a buffer of that length has room for, behind a header of so many slots.
fn room_in(len: usize, slots: usize) -> u64
    requires { slots ≤ longest }
    ensures { result ≡ len - start slots }
{
    let first = 4 + 2 * slots;
    if len < first {
        return 0;
    }
    (len - first) as u64
}

// Whether nothing is wrong with the table, the caller and the quotas, as the header tells: the book's own call judges the rest, so it is read once.
fn may_call(book: &[u8], owners: &[u8], quota1: u64, quota2: u64, caller: u64) -> bool
    ensures { result ≡ may_read (layout_in book.now).slots (owner_table owners.now quota1 quota2) caller
        (room_in book.now) book.now }
{
    let slots = book::slots_in(book);
    if !owners::is_right(owners, slots, room_in(book.len(), slots), quota1, quota2) {
        return false;
    }
    if !owners::is_side(caller) {
        return false;
    }
    let held = weigh(book, owners, slots);
    if held.first as u64 > quota1 {
        return false;
    }
    held.second as u64 <= quota2
}

// The slot that an ask names, if the table has an entry for it; else the mark of an action.
fn asked_slot(owners: &[u8], kind: u64) -> usize
    ensures { result ≡ cond (ltb (slot_for kind) (length owners.now)) (slot_for kind) action }
{
    let slot = slot_for(kind);
    if slot < owners.len() {
        return slot;
    }
    table::ACTION as usize
}

// Whether a slot is a setting's that is not the side's.
fn is_foreign(owners: &[u8], side: u64, slot: usize) -> bool
    ensures { result ≡ foreign (owner_table owners.now 0 0) side slot }
{
    if slot < table::SETTINGS {
        return owner_of(owners, slot) != side;
    }
    false
}

// ---- put, remove and ask: past a side's own refusals they are the book's, and its refusals of a whole book come before them

// How many bytes the frames of a side have once n bytes are put to a slot of its own: they may take the place of either form.
fn weight_after(book: &[u8], slots: usize, slot: usize, held: usize, n: usize) -> usize
    requires { (held ≤ 12 * settings) × (n ≤ 255) }
    ensures { result ≡ weight_after slots book.now slot held n }
{
    if contents::offset_for(book, slots, slot) != 0 {
        return held;
    }
    let twin = forms::other_form(slot);
    if contents::offset_for(book, slots, twin) != 0 {
        let old = size_of(twin);
        if old <= held {
            return held - old + n;
        }
        return n;
    }
    held + n
}

// A side's put: its own quota is its room, and what fits both quotas fits the book.
pub fn put(
    book: &mut [u8],
    owners: &[u8],
    quota1: u64,
    quota2: u64,
    caller: u64,
    frame: &[u8],
) -> Answer
    ensures { Permits (after_event (owner_table owners.now quota1 quota2) (by caller (Request.Put frame.now) [])
        book.old)
        result book.new }
{
    if !may_call(book, owners, quota1, quota2, caller) {
        return book::ready_to_edit(book).and(Err(Refusal::OwnersWrong));
    }
    let slot = settings::slot_of(frame);
    if is_foreign(owners, caller, slot) {
        return book::ready_to_edit(book).and(Err(Refusal::OtherSide));
    }
    if slot >= table::SETTINGS {
        return book::put(book, frame);
    }
    let slots = book::slots_in(book);
    let held = of_side(weigh(book, owners, slots), caller);
    if weight_after(book, slots, slot, held, frame.len()) as u64
        > owners::quota_of(quota1, quota2, caller)
    {
        return book::ready_to_edit(book).and(Err(Refusal::NoRoom));
    }
    book::put(book, frame)
}

// A side's removal of a kind.
pub fn remove(
    book: &mut [u8],
    owners: &[u8],
    quota1: u64,
    quota2: u64,
    caller: u64,
    kind: u64,
) -> Answer
    ensures { Permits (after_event (owner_table owners.now quota1 quota2) (by caller (Request.Remove kind) []) book.old)
        result book.new }
{
    if !may_call(book, owners, quota1, quota2, caller) {
        return book::ready_to_edit(book).and(Err(Refusal::OwnersWrong));
    }
    if is_foreign(owners, caller, slot_for(kind)) {
        return book::ready_to_edit(book).and(Err(Refusal::OtherSide));
    }
    book::remove(book, kind)
}

// A side's question for a kind's frame.
pub fn ask(
    book: &[u8],
    owners: &[u8],
    quota1: u64,
    quota2: u64,
    caller: u64,
    kind: u64,
    out: &mut [u8],
) -> Answer
    ensures { Tells (after_event (owner_table owners.now quota1 quota2) (by caller (Request.Ask kind) out.old)
        book.now)
        result out.new }
{
    if !may_call(book, owners, quota1, quota2, caller) {
        return book::ready_to_read(book).and(Err(Refusal::OwnersWrong));
    }
    if is_foreign(owners, caller, asked_slot(owners, kind)) {
        return book::ready_to_read(book).and(Err(Refusal::OtherSide));
    }
    book::ask(book, kind, out)
}

// ---- clear

// Takes a kind out, if it is the side's. The book is not asked to remove what its header does not have: that would be refused.
fn take_out(book: &mut [u8], owners: &[u8], side: u64, k: u64)
    ensures { book.new ≡ cond (owns owners.now side (slot_for k)) (call_for Edit (remove_on k) [] book.old).bytes
        book.old }
{
    let slot = slot_for(k);
    if owner_of(owners, slot) == side && contents::offset(book, slot) != 0 {
        let _removed = book::remove(book, k);
    }
}

// Takes every kind of the side out, one after the other.
fn take_all_out(book: &mut [u8], owners: &[u8], side: u64)
    ensures { book.new ≡ emptied_bytes (owns owners.now side) kinds 1 book.old }
{
    for k in 1..table::KINDS + 1 {
        take_out(book, owners, side, k);
    }
}

// A side's clear: the other's frames stay, in their order.
pub fn clear(book: &mut [u8], owners: &[u8], quota1: u64, quota2: u64, caller: u64) -> Answer
    ensures { Permits (after_event (owner_table owners.now quota1 quota2) (by caller Request.Clear []) book.old)
        result book.new }
{
    book::ready_to_edit(book)?;
    if !may_call(book, owners, quota1, quota2, caller) {
        return Err(Refusal::OwnersWrong);
    }
    take_all_out(book, owners, caller);
    Ok(0)
}

// ---- replay

// Writes a piece of a reel behind the w bytes that are written, if its frame is of the side; says how many are written then.
fn copied(owners: &[u8], side: u64, slot: usize, piece: &[u8], out: &mut [u8], w: usize) -> usize
    requires { w + length piece.now ≤ length out.old }
    ensures value { result ≡ cond (owns owners.now side slot) (w + length piece.now) w }
    ensures out_after { out.new ≡ cond (owns owners.now side slot) (written out.old w piece.now) out.old }
{
    if owner_of(owners, slot) != side {
        return w;
    }
    spans::write(out, w, piece);
    w + piece.len()
}

// The side's frames of a reel, as a reel at the front of the output; says how many bytes it has.
#[tactic(auto, using(reel::proofs::Found::found_steps))]
fn pick(owners: &[u8], side: u64, reel: &[u8], out: &mut [u8]) -> usize
    requires { length reel.now ≤ length out.old }
    ensures { (take result out.new ≡ picked (owns owners.now side) reel.now) × (result ≤ length reel.now) }
{
    let mut w: usize = 0;
    let mut cursor = Cursor::new();
    while let Ok(Some(found)) = cursor.step(reel) {
        let slot = settings::slot_of(&reel[found.start..found.end]);
        w = copied(owners, side, slot, &reel[cursor.at..found.end], out, w);
        cursor = found.next;
    }
    w
}

// The side's frames of a reel to the front of the output, if they fit it.
fn tell_part(owners: &[u8], side: u64, reel: &[u8], out: &mut [u8]) -> Answer
    requires { length reel.now ≤ longest_reel }
    ensures { Retold (picked (owns owners.now side) reel.now) out.old result out.new }
{
    let mut part = [0u8; book::LONGEST_REEL];
    let n = pick(owners, side, reel, &mut part);
    if n > out.len() {
        return Err(Refusal::OutputShort);
    }
    spans::write(out, 0, &part[0..n]);
    Ok(n)
}

// A side's replay: its frames in the order of first entry. The whole replay has every frame, and fits its buffer whatever the book holds.
pub fn replay(
    book: &[u8],
    owners: &[u8],
    quota1: u64,
    quota2: u64,
    caller: u64,
    out: &mut [u8],
) -> Answer
    ensures { Tells (after_event (owner_table owners.now quota1 quota2) (by caller Request.Replay out.old) book.now)
        result out.new }
{
    if !may_call(book, owners, quota1, quota2, caller) {
        return book::ready_to_read(book).and(Err(Refusal::OwnersWrong));
    }
    let mut reel = [0u8; book::LONGEST_REEL];
    let n = book::replay(book, &mut reel)?;
    tell_part(owners, caller, &reel[0..n], out)
}
