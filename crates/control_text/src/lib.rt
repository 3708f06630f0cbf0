// The text of a run of the controller: a book is played against a list of statuses, a line for each step and a last line.
// specs/Text.antt has the text, by the controller's own contracts; proofs/Longest.antt that none is longer than the output must be.
#![tactic(auto)]

ghost use Rattle.std.specs.Prelude.{◌≡◌, [], map, ◌+◌, ◌<◌, ◌≤◌, ◌^◌, length};
ghost use Rattle.std.proofs.lemmas.List.Edits.{sets};
ghost use Rattle.texts.specs.Words.{spaced};
ghost use Rattle.texts.specs.Written.{Puts};
ghost use Rattle.texts.specs.Whole.{laid};
ghost use Rattle.status_list.specs.Words.{words_in};
ghost use Rattle.book.specs.Book.{Read, opened_for};
ghost use Rattle.control_text.specs.Text.{Closes, Short, Within, closing, heard, hex_digit, hex_of, is_running, judged_words, longest, played, played_in};
ghost use Rattle.control_text.specs.Text.{run_of, sent_of, status_name, step_line, text_of, told_of, turn_words};

use controller::{State, Turn};
use status::{CmdStatus, Status};
use texts::{put_byte, put_decimal, put_form, put_text};

// No text takes more: 128 bytes for each step, and for the last line.
pub const LONGEST: usize = 128 * (forms::MOST_FRAMES + 2);

// What ended a run: it is over, the statuses are, or a word is none.
#[derive(Clone, Copy, PartialEq, Eq, Debug)]
pub enum Halt {
    Ended,
    Waiting,
    Wrong { start: usize, end: usize },
}

// Where the last line begins, how long the text is, and what ended the run. Where a word is wrong there is no last line.
#[derive(Clone, Copy, PartialEq, Eq, Debug)]
pub struct Played {
    pub steps: usize,
    pub len: usize,
    pub halt: Halt,
}

// ---- a step's line

// `char::from_digit` gives an `Option` of a char: no plainer.
fn hex_digit(n: u8) -> u8
    requires { n < 16 }
    ensures { result ≡ hex_digit n }
{
    if n < 10 { b'0' + n } else { b'a' - 10 + n }
}

// Bytes in hex, a blank before each.
fn put_bytes(out: &mut [u8], at: usize, bytes: &[u8]) -> usize
    ensures { Puts (spaced (map hex_of bytes.now) []) at out.old result out.new }
{
    let mut to = at;
    for byte in bytes {
        let blank = put_byte(out, to, b' ');
        let high = put_byte(out, blank, hex_digit(*byte / 16));
        to = put_byte(out, high, hex_digit(*byte % 16));
    }
    to
}

fn put_name(out: &mut [u8], at: usize, status: &[u8]) -> usize
    ensures { Puts (status_name status.now) at out.old result out.new }
{
    let cmd = Status::from_slice(status).cmd();
    match cmd {
        CmdStatus::Fail => put_text(out, at, b"Fail"),
        CmdStatus::PErr => put_text(out, at, b"PErr"),
        CmdStatus::Ok => put_text(out, at, b"Ok"),
        CmdStatus::Data => put_text(out, at, b"Data"),
        CmdStatus::Unknown => put_text(out, at, b"Unknown"),
    }
}

// Which frame is judged, and how it went.
fn put_judged(out: &mut [u8], at: usize, sent: usize, status: &[u8]) -> usize
    ensures { Puts (spaced (judged_words sent status.now) []) at out.old result out.new }
{
    if sent == 0 {
        return at;
    }
    let numbers = [sent as u64];
    let to = put_form(out, at, b" judged 0 ", &numbers);
    put_name(out, to, status)
}

// What is sent.
fn put_turn(out: &mut [u8], at: usize, turn: Turn) -> usize
    requires { Short turn }
    ensures { Puts (spaced (turn_words turn) []) at out.old result out.new }
{
    match turn {
        Ok(Some(sending)) => {
            let frame = sending.frame;
            if sending.len == 0 {
                return put_text(out, at, b" read");
            }
            let to = put_text(out, at, b" sent");
            put_bytes(out, to, &frame[0..sending.len])
        }
        Ok(None) => at,
        Err(_) => at,
    }
}

fn put_step(out: &mut [u8], at: usize, sent: usize, turn: Turn, status: &[u8]) -> usize
    requires sent_bound { sent + 1 < 2 ^ 64 }
    requires short { Short turn }
    ensures { Puts (step_line sent turn status.now) at out.old result out.new }
{
    let a = put_decimal(out, at, sent as u64 + 1);
    let b = put_judged(out, a, sent, status);
    let c = put_turn(out, b, turn);
    put_byte(out, c, b'\n')
}

// ---- the last line

fn put_closing(out: &mut [u8], at: usize, state: State, status: &[u8]) -> usize
    ensures { Puts (closing state status.now) at out.old result out.new }
{
    match state {
        State::Running(sent) => {
            let numbers = [sent as u64];
            put_form(out, at, b"waiting 0\n", &numbers)
        }
        State::Done => put_text(out, at, b"done\n"),
        State::Stopped(position) => {
            let numbers = [position as u64];
            let a = put_form(out, at, b"stopped 0 ", &numbers);
            let b = put_name(out, a, status);
            put_byte(out, b, b'\n')
        }
    }
}

// ---- a run

fn is_running(state: State) -> bool
    ensures { result ≡ is_running state }
{
    matches!(state, State::Running(_))
}

// The state behind a step.
fn hear(book: &[u8], state: State, status: &[u8]) -> State
    ensures { result ≡ heard (opened_for Read book.now) state status.now }
{
    let answer = controller::hear(state, book, status);
    match answer {
        Ok(next) => next,
        Err(_) => state,
    }
}

// The last line, behind those of the steps. A run that has something to do left waits for a status.
fn close(out: &mut [u8], at: usize, state: State, status: &[u8]) -> Played
    ensures { Closes status.now state at out.old result out.new }
{
    let len = put_closing(out, at, state, status);
    let halt = if is_running(state) {
        Halt::Waiting
    } else {
        Halt::Ended
    };
    Played {
        steps: at,
        len,
        halt,
    }
}

// Plays from the first state on.
fn run(book: &[u8], text: &[u8], first: State, out: &mut [u8]) -> Played
    requires first_value { sent_of first ≡ 0 }
    requires text_in_bounds { length (text_of (run_of book.now first text.now)) ≤ length out.old }
    ensures value { result ≡ told_of (run_of book.now first text.now) }
    ensures out_after { out.new ≡ sets out.old 0 (text_of (run_of book.now first text.now)) }
{
    let mut state = first;
    let mut last = [0u8; 2];
    let mut at: usize = 0;
    let mut to: usize = 0;
    while let State::Running(sent) = state {
        let found = match status_list::next(text, at) {
            Ok(Some(found)) => found,
            Ok(None) => return close(out, to, state, &last),
            Err(wrong) => {
                return Played {
                    steps: to,
                    len: to,
                    halt: Halt::Wrong {
                        start: wrong.start,
                        end: wrong.end,
                    },
                };
            }
        };
        last = [found.high, found.low];
        let turn = controller::send(state, book);
        to = put_step(out, to, sent, turn, &last);
        state = hear(book, state, &last);
        at = found.next;
    }
    close(out, to, state, &last)
}

// Plays a book against the statuses of a text, and puts what there is to print at the start of `out`. An output of fewer than `LONGEST` bytes is left
// alone, and nothing is played.
pub fn play(book: &[u8], text: &[u8], out: &mut [u8]) -> Played
    ensures value { result ≡ played_in (played (opened_for Read book.now) (words_in text.now)) out.old }
    ensures out_after { out.new ≡ laid longest (text_of (played (opened_for Read book.now) (words_in text.now))) out.old }
    ensures steps_le_len { (result.steps ≤ result.len) × (result.len ≤ length out.old) × Within (length text.now) result.halt }
{
    if out.len() < LONGEST {
        return Played {
            steps: 0,
            len: 0,
            halt: Halt::Waiting,
        };
    }
    let began = controller::start(book);
    match began {
        Ok(first) => run(book, text, first, out),
        Err(why) => {
            let numbers = [why.number() as u64];
            let len = put_form(out, 0, b"refused 0\n", &numbers);
            Played {
                steps: 0,
                len,
                halt: Halt::Ended,
            }
        }
    }
}
