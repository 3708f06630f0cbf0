// The settings book over a lent buffer.
ghost use Rattle.std.specs.Prelude.{◌≡◌};
ghost use Rattle.book.specs.History.{Make, Put, Remove, Ask, Clear, Replay, after};
ghost use Rattle.hoardbutton.specs.Books.{Leaves, Writes};

use crate::answers::{HbAnswer, answered};

#[unsafe(no_mangle)]
pub extern "C" fn hb_book_make(book: &mut [u8]) -> HbAnswer
    ensures { Leaves (after Make book.old) result book.new }
{
    answered(book::make(book))
}

#[unsafe(no_mangle)]
pub extern "C" fn hb_book_put(book: &mut [u8], frame: &[u8]) -> HbAnswer
    ensures { Leaves (after (Put frame.now) book.old) result book.new }
{
    answered(book::put(book, frame))
}

#[unsafe(no_mangle)]
pub extern "C" fn hb_book_remove(book: &mut [u8], kind: u64) -> HbAnswer
    ensures { Leaves (after (Remove kind) book.old) result book.new }
{
    answered(book::remove(book, kind))
}

#[unsafe(no_mangle)]
pub extern "C" fn hb_book_ask(book: &[u8], kind: u64, out: &mut [u8]) -> HbAnswer
    ensures { Writes (after (Ask kind out.old) book.now) result out.new }
{
    answered(book::ask(book, kind, out))
}

#[unsafe(no_mangle)]
pub extern "C" fn hb_book_clear(book: &mut [u8]) -> HbAnswer
    ensures { Leaves (after Clear book.old) result book.new }
{
    answered(book::clear(book))
}

#[unsafe(no_mangle)]
pub extern "C" fn hb_book_replay(book: &[u8], out: &mut [u8]) -> HbAnswer
    ensures { Writes (after (Replay out.old) book.now) result out.new }
{
    answered(book::replay(book, out))
}
