// Replays histories of the book: carries the records on standard input out and answers each on standard output. tests/README.md has the
// form of both, and tests/histories a plain list that gives the same answers.
#![tactic(auto)]

ghost use Rattle.std.specs.Prelude.{◌≡◌, ◌+◌, ◌≤◌, IfSome, length};

use std::io::{Read, Stdin, Stdout};

mod call;
mod control;
mod record;
mod side;

// No record crosses a multiple of so many bytes of the input.
const BLOCK: usize = 65536;

// The longest buffer that is lent as a book, longer than a book may be, and the longest output.
const BOOK: usize = 5000;

const LENT: usize = 512;

// Carries a record out, and puts its answer to the front of out: the call's answer, the book's bytes, the output's bytes.
fn answer(r: &[u8], book: &mut [u8], lent: &mut [u8], out: &mut [u8]) -> usize
    requires { (12 ≤ length r.now) × (4 + length book.old + length lent.old ≤ length out.old) }
    ensures { result ≤ length out.old }
{
    let n = 4 + book.len();
    let all = n + lent.len();
    record::fill(lent, 165);
    let said = call::carried(r[0], r, book, lent);
    let head = call::told(said);
    out[0..4].copy_from_slice(&head);
    out[4..n].copy_from_slice(book);
    out[n..all].copy_from_slice(lent);
    all
}

// Writes the w bytes of out that are filled where it has no room for `need` more, and tells how many are filled then.
fn room(output: Stdout, out: &[u8], w: usize, need: usize) -> usize
    requires { (w ≤ length out.now) × (need ≤ length out.now) }
    ensures { result + need ≤ length out.now }
{
    if out.len() - w < need {
        let _ = Print::write_all(&output, &out[0..w]);
        return 0;
    }
    w
}

// Answers a record on the first `have` bytes of the book's buffer, behind the w bytes of out that are filled, and tells how many are then.
fn step(
    output: Stdout,
    r: &[u8],
    have: usize,
    w: usize,
    book: &mut [u8],
    lent: &mut [u8],
    out: &mut [u8],
) -> usize
    requires { (12 ≤ length r.now) × (have ≤ length book.old) × (w ≤ length out.old)
        × (4 + length book.old + length lent.old ≤ length out.old) }
    ensures { result ≤ length out.old }
{
    let o = record::output_len(r, lent.len());
    let from = room(output, out, w, 4 + have + o);
    from + answer(r, &mut book[0..have], &mut lent[0..o], &mut out[from..])
}

// Answers the records of a block, each as long as it says itself, and tells how long the book's buffer is then, if all is written.
fn block(
    output: Stdout,
    len: usize,
    s: &[u8],
    book: &mut [u8],
    lent: &mut [u8],
    out: &mut [u8],
) -> Option<usize>
    requires { (len ≤ length book.old) × (4 + length book.old + length lent.old ≤ length out.old) }
    ensures { IfSome result (λ n. n ≤ length book.old) }
{
    let mut have = len;
    let mut at: usize = 0;
    let mut w: usize = 0;
    let mut size = record::whole(s);
    while record::HEAD <= size {
        let r = &s[at..at + size];
        have = record::lent_len(r, have, book.len());
        w = step(output, r, have, w, book, lent, out);
        at += size;
        size = record::whole(&s[at..]);
    }
    match Print::write_all(&output, &out[0..w]) {
        Ok(()) => Some(have),
        Err(_) => None,
    }
}

// Reads until s is full, the input ends or a read fails, and tells how many bytes came. `vectors` has it too, which says why.
fn read_full(input: Stdin, s: &mut [u8]) -> usize
    ensures { result ≤ length s.new }
{
    let mut from = input;
    let mut have: usize = 0;
    while have < s.len() {
        match from.read(&mut s[have..]) {
            Ok(n) if 0 < n => have += n,
            _ => break,
        }
    }
    have
}

// Reads a block, or what is left of the input, and answers it; tells how long the book's buffer is then, if there may be more.
fn turn(
    input: Stdin,
    output: Stdout,
    len: usize,
    s: &mut [u8],
    book: &mut [u8],
    lent: &mut [u8],
    out: &mut [u8],
) -> Option<usize>
    requires { (len ≤ length book.old) × (4 + length book.old + length lent.old ≤ length out.old) }
    ensures { IfSome result (λ n. n ≤ length book.old) }
{
    let n = read_full(input, s);
    let after = block(output, len, &s[..n], book, lent, out)?;
    if n == s.len() { Some(after) } else { None }
}

// Nothing says that the input ends, so there are more turns than any run uses up.
fn run(input: Stdin, output: Stdout, s: &mut [u8], book: &mut [u8], lent: &mut [u8], out: &mut [u8])
    requires { 4 + length book.old + length lent.old ≤ length out.old }
{
    let mut len: usize = 0;
    for _ in 0..u64::MAX {
        let Some(next) = turn(input, output, len, s, book, lent, out) else {
            return;
        };
        len = next;
    }
}

fn main(rt: HostRuntime) {
    let mut s = [0u8; BLOCK];
    let mut book = [0u8; BOOK];
    let mut lent = [0u8; LENT];
    let mut out = [0u8; BLOCK];
    run(
        rt.stdin(),
        rt.stdout(),
        &mut s,
        &mut book,
        &mut lent,
        &mut out,
    );
}
