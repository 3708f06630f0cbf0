// The controller of a bank: it sends the frames of a book, one at each step, and is handed the two status bytes that came back with each.
// A step is `send`, which says which bytes go out, and then `hear`, which takes the status; the state goes by value from one to the next.
// specs/Controller.antt says what a step does; proofs/Laws.antt has the theorems over every list of statuses.
#![tactic(auto)]

ghost use Rattle.std.specs.Prelude.{◌≡◌, length};
ghost use Rattle.reel.specs.Reel.{unreel};
ghost use Rattle.book.specs.Book.{Read, opened_for};
ghost use Rattle.controller.specs.Controller.{Lies, behind_of, goes_on, heard_of, heard_on, is_good, judged_by, sending_of, sends_of, start_of};

use reel::Cursor;
use refusal::Refusal;
use status::{CmdStatus, Status};

// Where the controller stands: so many frames are sent, all is done, or a frame, counted from 1, was judged bad.
#[derive(Clone, Copy)]
pub enum State {
    Running(usize),
    Done,
    Stopped(usize),
}

// The state as it is now, or why the book is refused; then the state is what it was.
pub type Answer = Result<State, Refusal>;

// So many bytes are sent, 0 for the final empty read. They stand first, zeros behind them.
#[derive(Clone, Copy)]
pub struct Sending {
    pub len: usize,
    pub frame: [u8; 12],
}

// What a step sends, None where the work is over; or why the book is refused.
pub type Turn = Result<Option<Sending>, Refusal>;

// What comes behind so many frames of a reel: a frame, the final read, or nothing.
#[derive(Clone, Copy)]
enum Ahead {
    Frame { start: usize, end: usize },
    Read,
    Nothing,
}

// What comes where the reel has ended and `left` of those sent are not found there.
fn behind(sent: usize, left: usize) -> Ahead
    ensures { result ≡ behind_of sent left }
{
    if left == 0 && 0 < sent {
        return Ahead::Read;
    }
    Ahead::Nothing
}

// What comes behind the frames that are sent.
#[tactic(auto, using(crate::proofs::Walking::ahead_steps, reel::proofs::Found::found_steps))]
fn look_ahead(reel: &[u8], sent: usize) -> Ahead
    ensures { Lies reel.now (unreel reel.now).frames sent result }
{
    let mut left = sent;
    let mut cursor = Cursor::new();
    // A replay is whole, and the loop ends where it does; any other reel has no frame where a step is refused either.
    while let Ok(Some(found)) = cursor.step(reel) {
        if left == 0 {
            return Ahead::Frame {
                start: found.start,
                end: found.end,
            };
        }
        left -= 1;
        cursor = found.next;
    }
    behind(sent, left)
}

// The first state: an empty book is done at once.
pub fn start(book: &[u8]) -> Answer
    ensures { result ≡ start_of (opened_for Read book.now) }
{
    let mut reel = [0u8; book::LONGEST_REEL];
    let n = book::replay(book, &mut reel)?;
    if n == 0 {
        return Ok(State::Done);
    }
    Ok(State::Running(0))
}

// What the step sends, of the frames of a reel.
fn to_send(state: State, reel: &[u8]) -> Option<Sending>
    ensures { result ≡ sends_of (unreel reel.now).frames state }
{
    match state {
        State::Running(sent) => match look_ahead(reel, sent) {
            Ahead::Frame { start, end } => {
                let mut frame = [0u8; 12];
                spans::write(&mut frame, 0, &reel[start..end]);
                Some(Sending {
                    len: end - start,
                    frame,
                })
            }
            Ahead::Read => Some(Sending {
                len: 0,
                frame: [0u8; 12],
            }),
            Ahead::Nothing => None,
        },
        State::Done => None,
        State::Stopped(_) => None,
    }
}

// What the step sends.
pub fn send(state: State, book: &[u8]) -> Turn
    ensures { result ≡ sending_of (opened_for Read book.now) state }
{
    let mut reel = [0u8; book::LONGEST_REEL];
    let len = book::replay(book, &mut reel)?;
    Ok(to_send(state, &reel[0..len]))
}

// Whether the work goes on behind a frame that went so. It is what `Status::is_ok` says, but as a rule of the controller's own.
fn goes_on(cmd: CmdStatus) -> bool
    ensures { result ≡ goes_on cmd }
{
    matches!(cmd, CmdStatus::Ok | CmdStatus::Data)
}

// The state behind a step, `next` where it stops nothing. The first status comes back with the first frame, and so judges none.
fn judged(sent: usize, good: bool, next: State) -> State
    ensures { result ≡ judged_by sent good next }
{
    if sent == 0 || good {
        return next;
    }
    State::Stopped(sent)
}

// The state behind a step whose status was good or not, on the frames of a reel.
fn heard(state: State, reel: &[u8], good: bool) -> State
    ensures { result ≡ heard_on (length (unreel reel.now).frames) state good }
{
    match state {
        State::Running(sent) => match look_ahead(reel, sent) {
            Ahead::Frame { start: _, end: _ } => {
                let more = sent + 1;
                judged(sent, good, State::Running(more))
            }
            Ahead::Read => judged(sent, good, State::Done),
            Ahead::Nothing => state,
        },
        State::Done => state,
        State::Stopped(_) => state,
    }
}

// The state behind the step, by the status that came back.
pub fn hear(state: State, book: &[u8], status: &[u8]) -> Answer
    ensures { result ≡ heard_of (opened_for Read book.now) state (is_good status.now) }
{
    let mut reel = [0u8; book::LONGEST_REEL];
    let n = book::replay(book, &mut reel)?;
    let good = goes_on(Status::from_slice(status).cmd());
    Ok(heard(state, &reel[0..n], good))
}
