// A recorded day, played again on a fresh book: whole (`play`), or in parts of any size (`pass`). specs/Trace.antt says what records a trace has,
// specs/Plays.antt what playing them gives, specs/Parts.antt what one pass does; proofs/ has the laws of prefixes, and that parts make up the whole.
#![tactic(auto)]

ghost use Rattle.std.specs.Prelude.{◌≡◌, true, ◌+◌, ◌<◌, ◌≤◌, length, drop};
ghost use Rattle.book.specs.Book.{Edit, opened_for, verdict};
ghost use Rattle.day.specs.Days.{plus};
ghost use Rattle.day.specs.Steps.{step_day, step_bytes};
ghost use Rattle.playback.specs.Trace.{record_at, fits, size_at};
ghost use Rattle.playback.specs.Plays.{plays};
ghost use Rattle.playback.specs.Parts.{started, is_over, ended, hopeless, passes};
ghost use Rattle.playback.specs.Code.{size_in, RecordsCome, GapComes, HeaderComes};

use book::Answer;
use day::Day;
use refusal::Refusal;

// Where a playback stands: before the header; behind it, with so many records left, so many bytes before the next one, and the offset that was
// reached; or at a fault, with its place.
#[derive(Clone, Copy)]
pub enum Stage {
    Header,
    Records { left: usize, skip: usize, at: usize },
    Stopped(usize),
}

// A playback between two parts; its list of frames is in the book.
#[derive(Clone, Copy)]
pub struct Cursor {
    pub stage: Stage,
    pub day: Day,
}

// What a pass gives: how many bytes it used, or why the book refuses; and where the playback stands.
#[derive(Clone, Copy)]
pub struct Passed {
    pub answer: Answer,
    pub cursor: Cursor,
}

// What a playback gives: done or refused, and the day of the records before a fault.
#[derive(Clone, Copy)]
pub struct Played {
    pub answer: Answer,
    pub day: Day,
}

// ---- the cursor

// Before the first byte.
pub fn start() -> Cursor
    ensures { result ≡ started }
{
    let day = day::fresh();
    Cursor {
        stage: Stage::Header,
        day,
    }
}

// Whether nothing that follows alters the day.
pub fn is_over(cursor: Cursor) -> bool
    ensures { result ≡ is_over cursor.stage }
{
    match cursor.stage {
        Stage::Header => false,
        Stage::Records { left, .. } => left == 0,
        Stage::Stopped(_) => true,
    }
}

// What the playback gives that ends here. Before it is over, records that are still to come are missing, and nothing says so: the last pass is
// the one with no more to follow.
pub fn end(cursor: Cursor) -> Played
    ensures { result ≡ ended cursor }
{
    let answer = match cursor.stage {
        Stage::Header | Stage::Records { .. } => Ok(0),
        Stage::Stopped(at) => Err(Refusal::TraceFault(at)),
    };
    Played {
        answer,
        day: cursor.day,
    }
}

// ---- records

// An offset n bytes on; one that would overflow stays.
fn onward(at: usize, n: usize) -> usize
    ensures { result ≡ plus at n }
{
    at.checked_add(n).unwrap_or(at)
}

// How many bytes the record at a place takes, where one fits.
fn size_at(part: &[u8], i: usize) -> Option<usize>
    ensures { result ≡ size_in (drop i part.now) }
{
    let left = part.len().saturating_sub(i);
    if left < 2 || part[i] > 1 {
        return None;
    }
    let n = usize::from(part[i + 1]) + 2;
    if n <= left { Some(n) } else { None }
}

// Whether what stands at a place, and is no whole record, never will be one.
fn is_hopeless(part: &[u8], i: usize, more: bool) -> bool
    ensures { result ≡ hopeless more (drop i part.now) }
{
    !more || (i < part.len() && part[i] > 1)
}

// One record, that fits.
fn turn(day: Day, book: &mut [u8], part: &[u8], i: usize, end: usize) -> Day
    requires { (fits (drop i part.now) ≡ true) × (end ≡ i + size_at (drop i part.now)) × (end ≤ length part.now) }
    ensures value { result ≡ step_day (record_at (drop i part.now)) book.old day }
    ensures book_after { book.new ≡ step_bytes (record_at (drop i part.now)) book.old }
{
    let start = i + 2;
    if part[i] == 0 {
        day::send(day, book, &part[start..end])
    } else {
        day::receive(day, &part[start..end])
    }
}

// ---- a pass

fn halt(used: usize, stage: Stage, day: Day) -> Passed
    ensures { result ≡ record { answer = Ok used; cursor = record { stage = stage; day = day } } }
{
    Passed {
        answer: Ok(used),
        cursor: Cursor { stage, day },
    }
}

// The whole records of the part from a place on, as many as are left, on a sound book.
fn play_records(
    day: Day,
    book: &mut [u8],
    part: &[u8],
    from: usize,
    more: bool,
    count: usize,
    offset: usize,
) -> Passed
    requires { (Ok 0 ≡ verdict (opened_for Edit book.old)) × (from ≤ length part.now) }
    ensures { RecordsCome more count offset from part.now day book.old result book.new }
{
    let mut day = day;
    let mut i = from;
    let mut at = offset;
    let mut left = count;
    while left > 0 {
        let Some(n) = size_at(part, i) else {
            if is_hopeless(part, i, more) {
                return halt(i, Stage::Stopped(at), day);
            }
            return halt(i, Stage::Records { left, skip: 0, at }, day);
        };
        let next = turn(day, book, part, i, i + n);
        day = next;
        at = onward(at, n);
        i += n;
        left -= 1;
    }
    halt(
        i,
        Stage::Records {
            left: 0,
            skip: 0,
            at,
        },
        day,
    )
}

// The bytes before the first record, and the records behind them.
fn play_gap(
    day: Day,
    book: &mut [u8],
    part: &[u8],
    from: usize,
    more: bool,
    left: usize,
    skip: usize,
    at: usize,
) -> Passed
    requires { (Ok 0 ≡ verdict (opened_for Edit book.old)) × (from ≤ length part.now) }
    ensures { GapComes more left skip at from part.now day book.old result book.new }
{
    let here = part.len() - from;
    if skip <= here {
        return play_records(day, book, part, from + skip, more, left, onward(at, skip));
    }
    if more {
        let stage = Stage::Records {
            left,
            skip: skip - here,
            at: onward(at, here),
        };
        return halt(part.len(), stage, day);
    }
    play_records(day, book, part, part.len(), more, left, onward(at, skip))
}

// The header, and what is behind it.
fn play_header(day: Day, book: &mut [u8], part: &[u8], more: bool) -> Passed
    requires { Ok 0 ≡ verdict (opened_for Edit book.old) }
    ensures { HeaderComes more part.now day book.old result book.new }
{
    if part.len() < 4 {
        if more {
            return halt(0, Stage::Header, day);
        }
        return halt(0, Stage::Stopped(0), day);
    }
    let first = contents::word(part, 2);
    if first < 4 {
        return halt(0, Stage::Stopped(0), day);
    }
    let count = contents::word(part, 0);
    play_gap(day, book, part, 4, more, count, first - 4, 4)
}

// The next bytes of a trace, on the book that the playback has so far; `more` says whether more follow. What is not used comes again.
pub fn pass(cursor: Cursor, book: &mut [u8], part: &[u8], more: bool) -> Passed
    ensures value { result ≡ (passes more cursor part.now book.old).passed }
    ensures book_after { book.new ≡ (passes more cursor part.now book.old).bytes }
{
    let found = book::ready_to_edit(book);
    let Ok(_) = found else {
        return Passed {
            answer: found,
            cursor,
        };
    };
    let day = cursor.day;
    let stage = cursor.stage;
    match stage {
        Stage::Header => play_header(day, book, part, more),
        Stage::Records { left, skip, at } => play_gap(day, book, part, 0, more, left, skip, at),
        Stage::Stopped(at) => halt(0, Stage::Stopped(at), day),
    }
}

// ---- a whole trace

// A trace, on a fresh book that is made in the buffer.
pub fn play(trace: &[u8], book: &mut [u8]) -> Played
    ensures value { result ≡ (plays trace.now book.old).played }
    ensures book_after { book.new ≡ (plays trace.now book.old).bytes }
{
    let made = book::make(book);
    let Ok(_) = made else {
        let day = day::fresh();
        return Played { answer: made, day };
    };
    let passed = pass(start(), book, trace, false);
    let cursor = passed.cursor;
    end(cursor)
}
