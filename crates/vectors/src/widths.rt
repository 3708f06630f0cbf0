// Lists of banks, to be checked and to be found: `count` banks, whose needs are the payload's first eight in turn, but for one bank, which has the
// ninth; behind them the length of the other list, that bank from 0, and 34 codes.
use crate::answer::Answer;
use crate::coded::refused;
use crate::request::{A8, byte, u64_at};
use refusal::Refusal;

// Two more than a list may have.
const MOST: usize = 34;

const CODES_LEN: usize = 72;

const ODD: usize = 73;

const CODES: usize = 74;

fn need(p: &[u8], bank: usize) -> u64 {
    if bank == byte(p, ODD) as usize {
        return u64_at(p, A8);
    }
    u64_at(p, 8 * (bank % 8))
}

fn needs(p: &[u8]) -> [u64; 34] {
    let mut all = [0u64; 34];
    for (i, slot) in all.iter_mut().enumerate() {
        *slot = need(p, i);
    }
    all
}

fn codes(p: &[u8]) -> [u8; 34] {
    let mut all = [0u8; 34];
    for (i, slot) in all.iter_mut().enumerate() {
        *slot = byte(p, CODES + i);
    }
    all
}

// Refusal, place, how many banks are right.
fn said(answer: Result<usize, Refusal>) -> Answer {
    match answer {
        Ok(banks) => Answer::new().put_u16(0).low(banks as u64),
        Err(why) => refused(why).byte(0),
    }
}

pub fn checked(count: usize, p: &[u8]) -> Answer {
    let all = needs(p);
    let given = codes(p);
    let len = byte(p, CODES_LEN) as usize;
    if MOST < count {
        return Answer::new();
    }
    if MOST < len {
        return Answer::new();
    }
    said(bank_widths::check(&all[0..count], &given[0..len]))
}

// Finds into the first codes of `out`, so many if there are.
fn find_in(needs: &[u64], len: usize, out: &mut [u8]) -> Result<usize, Refusal> {
    if out.len() < len {
        return bank_widths::find(needs, out);
    }
    bank_widths::find(needs, &mut out[0..len])
}

// Behind the rest all 34 codes, as the search leaves them.
pub fn found(count: usize, p: &[u8]) -> Answer {
    let all = needs(p);
    let mut out = codes(p);
    if MOST < count {
        return Answer::new();
    }
    let answer = find_in(&all[0..count], byte(p, CODES_LEN) as usize, &mut out);
    said(answer).bytes(&out)
}
