// The controller of a bank. Its state is two numbers, so a caller may hand in any: what no run gives counts as ended.
ghost use Rattle.std.specs.Prelude.{◌≡◌};
ghost use Rattle.book.specs.Book.{Read, opened_for};
ghost use Rattle.controller.specs.Controller.{heard_of, is_good, sending_of, start_of};
ghost use Rattle.hoardbutton.specs.Controllers.{behind_c, hear_c, sending_c, start_c, state_c, state_of};

use crate::answers::{low, refused};
use controller::{Answer, State, Turn};

// Outcome 0: running, count frames are sent; 1: done; 2: stopped at frame count, from 1; any other: ended.
#[repr(C)]
#[derive(Clone, Copy)]
pub struct HbController {
    pub outcome: u64,
    pub count: u64,
}

// The state behind a call; or a refusal with its place, and the state that was given.
#[repr(C)]
#[derive(Clone, Copy)]
pub struct HbControl {
    pub refusal: u32,
    pub place: u32,
    pub state: HbController,
}

// The bytes that a step sends, zeros behind them; or that the work is over; or a refusal with its place.
#[repr(C)]
#[derive(Clone, Copy)]
pub struct HbSending {
    pub refusal: u32,
    pub place: u32,
    pub over: u32,
    pub len: u32,
    pub bytes: [u8; 12],
}

fn state_of(c: HbController) -> State
    ensures { result ≡ state_of c }
{
    if c.outcome == 0 {
        return State::Running(c.count as usize);
    }
    State::Done
}

fn state_told(state: State) -> HbController
    ensures { result ≡ state_c state }
{
    match state {
        State::Running(n) => HbController {
            outcome: 0,
            count: n as u64,
        },
        State::Done => HbController {
            outcome: 1,
            count: 0,
        },
        State::Stopped(p) => HbController {
            outcome: 2,
            count: p as u64,
        },
    }
}

fn behind(given: HbController, state: State) -> HbController
    ensures { result ≡ behind_c given state }
{
    if given.outcome == 0 {
        return state_told(state);
    }
    given
}

fn started(a: Answer) -> HbControl
    ensures { result ≡ start_c a }
{
    match a {
        Ok(state) => HbControl {
            refusal: 0,
            place: 0,
            state: state_told(state),
        },
        Err(why) => {
            let said = refused(why);
            HbControl {
                refusal: said.refusal,
                place: said.place,
                state: state_told(State::Done),
            }
        }
    }
}

#[unsafe(no_mangle)]
pub extern "C" fn hb_controller_start(book: &[u8]) -> HbControl
    ensures { result ≡ start_c (start_of (opened_for Read book.now)) }
{
    started(controller::start(book))
}

fn sent(turn: Turn) -> HbSending
    ensures { result ≡ sending_c turn }
{
    match turn {
        Ok(Some(sending)) => {
            let bytes = sending.frame;
            HbSending {
                refusal: 0,
                place: 0,
                over: 0,
                len: low(sending.len as u64),
                bytes,
            }
        }
        Ok(None) => HbSending {
            refusal: 0,
            place: 0,
            over: 1,
            len: 0,
            bytes: [0u8; 12],
        },
        Err(why) => {
            let said = refused(why);
            HbSending {
                refusal: said.refusal,
                place: said.place,
                over: 0,
                len: 0,
                bytes: [0u8; 12],
            }
        }
    }
}

#[unsafe(no_mangle)]
pub extern "C" fn hb_controller_send(book: &[u8], state: HbController) -> HbSending
    ensures { result ≡ sending_c (sending_of (opened_for Read book.now) (state_of state)) }
{
    sent(controller::send(state_of(state), book))
}

fn heard(given: HbController, a: Answer) -> HbControl
    ensures { result ≡ hear_c given a }
{
    match a {
        Ok(state) => HbControl {
            refusal: 0,
            place: 0,
            state: behind(given, state),
        },
        Err(why) => {
            let said = refused(why);
            HbControl {
                refusal: said.refusal,
                place: said.place,
                state: given,
            }
        }
    }
}

#[unsafe(no_mangle)]
pub extern "C" fn hb_controller_hear(book: &[u8], state: HbController, status: &[u8]) -> HbControl
    ensures { result ≡ hear_c state (heard_of (opened_for Read book.now) (state_of state) (is_good status.now)) }
{
    heard(state, controller::hear(state_of(state), book, status))
}
