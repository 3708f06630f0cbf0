// Answers the requests on standard input, on standard output: requests of 112 bytes, answers of 80. tests/README.md
// has their form, and the Rust answers the same requests there. A request that is cut short at the end gets none.
#![tactic(auto)]

ghost use Rattle.std.specs.Prelude.{◌≡◌, ◌+◌, ◌≤◌, length};

use answer::Answer;
use std::io::{Read, Stdin, Stdout};

mod answer;
mod coded;
mod common;
mod fsk;
mod lora;
mod profiles;
mod readers;
mod request;
mod widths;

const REQUEST: usize = 112;

const ANSWER: usize = 80;

// A read takes in so many whole requests.
const REQUESTS: usize = 860;

// The answer for an operation with the slice length `aux` and the payload p.
fn answer_to(op: u8, aux: usize, p: &[u8]) -> Answer {
    // from commands.json: builders
    if op < 16 {
        return lora::built(op, p);
    }
    if op < 24 {
        return fsk::built(op, p);
    }
    if op < 64 {
        return common::built(op, p);
    }
    // end: builders
    match op {
        64..=72 if aux <= p.len() => readers::read_slice(op, &p[0..aux], p),
        80 if aux <= p.len() => coded::decoded(&p[0..aux]),
        81 => coded::built(aux, p),
        82 => widths::checked(aux, p),
        83 => widths::found(aux, p),
        84 if aux <= p.len() => profiles::judged(&p[0..aux]),
        _ => readers::read_numbers(op, p),
    }
}

// The answer for one request.
fn answer_one(r: &[u8]) -> [u8; 80] {
    if r.len() < REQUEST {
        return [0u8; 80];
    }
    let a = answer_to(r[0], request::byte(r, 1) as usize, &r[4..112]);
    a.bytes
}

// Puts the answers for the whole requests of s into out, as far as it has room, and tells how many bytes they are.
fn answer_all(s: &[u8], out: &mut [u8]) -> usize
    ensures { (result ≤ length out.new) × (length out.new ≡ length out.old) }
{
    let n = (s.len() / REQUEST).min(out.len() / ANSWER);
    for k in 0..n {
        let at = REQUEST * k;
        let to = ANSWER * k;
        out[to..to + ANSWER].copy_from_slice(&answer_one(&s[at..at + REQUEST]));
    }
    ANSWER * n
}

// Reads until s is full, the input ends or a read fails, and tells how many bytes came. `histories` has it too: `front`, where it could stand, is for
// programs with options (tests/programs), and in a library it would be one more function without its theorem of one outcome (tests/public-functions).
fn read_full(input: Stdin, s: &mut [u8]) -> usize
    ensures { result ≤ length s.new }
{
    let mut from = input;
    let mut have: usize = 0;
    while have < s.len() {
        match from.read(&mut s[have..]) {
            Ok(n) if 0 < n => have += n,
            _ => break,
        }
    }
    have
}

// Reads once until s is full or the input ends, answers, and tells whether there may be more.
fn turn(input: Stdin, output: Stdout, s: &mut [u8], out: &mut [u8]) -> bool {
    let n = read_full(input, s);
    let m = answer_all(&s[..n], out);
    Print::write_all(&output, &out[0..m]).is_ok() && n == s.len()
}

// Nothing says that the input ends, so there are more turns than any run uses up.
fn run(input: Stdin, output: Stdout, s: &mut [u8], out: &mut [u8]) {
    for _ in 0..u64::MAX {
        if !turn(input, output, s, out) {
            return;
        }
    }
}

fn main(rt: HostRuntime) {
    let mut s = [0u8; REQUESTS * REQUEST];
    let mut out = [0u8; REQUESTS * ANSWER];
    run(rt.stdin(), rt.stdout(), &mut s, &mut out);
}
