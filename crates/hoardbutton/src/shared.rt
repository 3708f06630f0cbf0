// The settings book of two sides: each call is lent the owner table, and told both quotas and who calls.
ghost use Rattle.std.specs.Prelude.{[]};
ghost use Rattle.owners.specs.Owners.{owner_table};
ghost use Rattle.sides.specs.Calls.{Request};
ghost use Rattle.sides.specs.Histories.{after_event, by};
ghost use Rattle.hoardbutton.specs.Books.{Leaves, Writes};

use crate::answers::{HbAnswer, answered};

#[unsafe(no_mangle)]
pub extern "C" fn hb_side_put(
    book: &mut [u8],
    owners: &[u8],
    quota1: u64,
    quota2: u64,
    caller: u64,
    frame: &[u8],
) -> HbAnswer
    ensures { Leaves (after_event (owner_table owners.now quota1 quota2) (by caller (Request.Put frame.now) []) book.old)
        result book.new }
{
    answered(sides::put(book, owners, quota1, quota2, caller, frame))
}

#[unsafe(no_mangle)]
pub extern "C" fn hb_side_remove(
    book: &mut [u8],
    owners: &[u8],
    quota1: u64,
    quota2: u64,
    caller: u64,
    kind: u64,
) -> HbAnswer
    ensures { Leaves (after_event (owner_table owners.now quota1 quota2) (by caller (Request.Remove kind) []) book.old)
        result book.new }
{
    answered(sides::remove(book, owners, quota1, quota2, caller, kind))
}

#[unsafe(no_mangle)]
pub extern "C" fn hb_side_ask(
    book: &[u8],
    owners: &[u8],
    quota1: u64,
    quota2: u64,
    caller: u64,
    kind: u64,
    out: &mut [u8],
) -> HbAnswer
    ensures { Writes (after_event (owner_table owners.now quota1 quota2) (by caller (Request.Ask kind) out.old) book.now)
        result out.new }
{
    answered(sides::ask(book, owners, quota1, quota2, caller, kind, out))
}

#[unsafe(no_mangle)]
pub extern "C" fn hb_side_clear(
    book: &mut [u8],
    owners: &[u8],
    quota1: u64,
    quota2: u64,
    caller: u64,
) -> HbAnswer
    ensures { Leaves (after_event (owner_table owners.now quota1 quota2) (by caller Request.Clear []) book.old)
        result book.new }
{
    answered(sides::clear(book, owners, quota1, quota2, caller))
}

#[unsafe(no_mangle)]
pub extern "C" fn hb_side_replay(
    book: &[u8],
    owners: &[u8],
    quota1: u64,
    quota2: u64,
    caller: u64,
    out: &mut [u8],
) -> HbAnswer
    ensures { Writes (after_event (owner_table owners.now quota1 quota2) (by caller Request.Replay out.old) book.now)
        result out.new }
{
    answered(sides::replay(book, owners, quota1, quota2, caller, out))
}
