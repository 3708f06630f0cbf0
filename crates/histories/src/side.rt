// A side's call, carried out. The record's kind is the caller. Its data are the two quotas in eight bytes each, the number of owners in one, the
// owners, and then what the call is for: the frame that is put, or the kind, in eight bytes, that is taken out or asked for.
ghost use Rattle.std.specs.Prelude.{◌≡◌, ◌≤◌, length};

use crate::record;
use book::Answer;

// Where the quotas start, the second of them, the number of owners, and the owners.
const QUOTA1: usize = record::HEAD;

const QUOTA2: usize = QUOTA1 + 8;

const COUNT: usize = QUOTA2 + 8;

const OWNERS: usize = COUNT + 1;

// The call of a record whose owners end at `end`. Where the data are too short for a kind there is nothing to carry out, and that is done.
fn called(op: u8, r: &[u8], end: usize, book: &mut [u8], lent: &mut [u8]) -> Answer
    requires { (29 ≤ end) × (end ≤ length r.now) }
{
    let quota1 = record::number(&r[QUOTA1..QUOTA2]);
    let quota2 = record::number(&r[QUOTA2..COUNT]);
    let caller = record::kind(r);
    let owners = &r[OWNERS..end];
    let rest = &r[end..];
    match op {
        record::SIDE_PUT => return sides::put(book, owners, quota1, quota2, caller, rest),
        record::SIDE_CLEAR => return sides::clear(book, owners, quota1, quota2, caller),
        record::SIDE_REPLAY => return sides::replay(book, owners, quota1, quota2, caller, lent),
        _ => {}
    }
    if rest.len() < 8 {
        return Ok(0);
    }
    let kind = record::number(&rest[0..8]);
    if op == record::SIDE_REMOVE {
        return sides::remove(book, owners, quota1, quota2, caller, kind);
    }
    sides::ask(book, owners, quota1, quota2, caller, kind, lent)
}

// The call of any record of a side, if its data are long enough for the owner table that they announce.
pub(crate) fn carried(op: u8, r: &[u8], book: &mut [u8], lent: &mut [u8]) -> Answer
    requires { 12 ≤ length r.now }
{
    if r.len() < OWNERS {
        return Ok(0);
    }
    let end = OWNERS + usize::from(r[COUNT]);
    if r.len() < end {
        return Ok(0);
    }
    called(op, r, end, book, lent)
}
