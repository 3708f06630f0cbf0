// What a record asks for, carried out on the book's buffer and the output.
ghost use Rattle.std.specs.Prelude.{◌≡◌, ◌≤◌, length};

use crate::{control, record, side};
use book::Answer;
use texts::put_text;

fn low(n: u32) -> u8 {
    (n % 256) as u8
}

// What is no call is done.
fn lend(book: &mut [u8], first: u64) -> Answer {
    record::fill(book, (first % 256) as u8);
    Ok(0)
}

// The data go over the bytes from `at` on, if there is room for all.
fn poke(book: &mut [u8], at: usize, data: &[u8]) -> Answer {
    if at <= book.len() && data.len() <= book.len() - at {
        put_text(book, at, data);
    }
    Ok(0)
}

pub(crate) fn carried(op: u8, r: &[u8], book: &mut [u8], lent: &mut [u8]) -> Answer
    requires { 12 ≤ length r.now }
{
    match op {
        record::LEND => lend(book, record::kind(r)),
        record::POKE => poke(book, record::size(r), &r[12..]),
        record::MAKE => book::make(book),
        record::PUT => book::put(book, &r[12..]),
        record::REMOVE => book::remove(book, record::kind(r)),
        record::ASK => book::ask(book, record::kind(r), lent),
        record::CLEAR => book::clear(book),
        record::REPLAY => book::replay(book, lent),
        record::SIDE_PUT..=record::SIDE_REPLAY => side::carried(op, r, book, lent),
        record::START..=record::HEAR => control::carried(op, r, book, lent),
        _ => Ok(0),
    }
}

// An answer in four bytes: refusal, or 0 where it is done; place; the number of bytes written, high byte first.
pub fn told(said: Answer) -> [u8; 4] {
    match said {
        Ok(n) => [0, 0, record::low(n / 256), record::low(n)],
        Err(why) => [low(why.number()), record::low(why.place()), 0, 0],
    }
}
