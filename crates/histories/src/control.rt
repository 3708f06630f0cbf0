// A controller's call, carried out. The record's kind is the count of the state. Its data are the state's outcome in one byte, 0 for running, 1 for
// done, 2 for stopped, and then the status that is heard. The state, or what is sent, goes to the output.
ghost use Rattle.std.specs.Prelude.{◌≡◌, ◌≤◌, length};

use crate::record;
use book::Answer;
use controller::{State, Turn};
use texts::put_text;

// Where the outcome stands, and where the status starts.
const OUTCOME: usize = record::HEAD;

const STATUS: usize = OUTCOME + 1;

// How many bytes of the output say what is sent.
const SENDING: usize = 14;

fn stated(outcome: u8, count: u64) -> State {
    match outcome {
        0 => State::Running(count as usize),
        1 => State::Done,
        _ => State::Stopped(count as usize),
    }
}

// The outcome, and the count in eight bytes.
fn standing(outcome: u8, n: usize, lent: &mut [u8]) -> Answer {
    let all = [
        outcome,
        record::low(n >> 56),
        record::low(n >> 48),
        record::low(n >> 40),
        record::low(n >> 32),
        record::low(n >> 24),
        record::low(n >> 16),
        record::low(n >> 8),
        record::low(n),
    ];
    if lent.len() < all.len() {
        return Ok(0);
    }
    put_text(lent, 0, &all);
    Ok(all.len())
}

fn told(said: controller::Answer, lent: &mut [u8]) -> Answer {
    match said? {
        State::Running(sent) => standing(0, sent, lent),
        State::Done => standing(1, 0, lent),
        State::Stopped(position) => standing(2, position, lent),
    }
}

// Whether nothing is left to do, how many bytes are sent, and the twelve bytes of the frame.
fn going(over: u8, n: usize, frame: &[u8; 12], lent: &mut [u8]) -> Answer {
    if lent.len() < SENDING {
        return Ok(0);
    }
    let head = [over, record::low(n)];
    put_text(lent, 0, &head);
    put_text(lent, 2, frame);
    Ok(SENDING)
}

// Where nothing is sent twelve zeros are told, of a send that is refused too.
fn sent(turn: Turn, lent: &mut [u8]) -> Answer {
    match turn {
        Ok(Some(sending)) => {
            let frame = sending.frame;
            going(0, sending.len, &frame, lent)
        }
        Ok(None) => going(1, 0, &[0u8; 12], lent),
        Err(why) => {
            let _told = going(0, 0, &[0u8; 12], lent);
            Err(why)
        }
    }
}

// Where the data are too short for a state there is nothing to carry out, and that is done.
pub(crate) fn carried(op: u8, r: &[u8], book: &[u8], lent: &mut [u8]) -> Answer
    requires { 12 ≤ length r.now }
{
    if op == record::START {
        return told(controller::start(book), lent);
    }
    if r.len() < STATUS {
        return Ok(0);
    }
    let state = stated(r[OUTCOME], record::kind(r));
    if op == record::SEND {
        return sent(controller::send(state, book), lent);
    }
    told(controller::hear(state, book, &r[STATUS..]), lent)
}
