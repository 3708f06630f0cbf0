// Plays recorded traces, each on a fresh book, and prints a report of each: `play FILE..`, or `play` for what comes in on standard input;
// `play --help` says more. playback has what a trace gives, report the texts; here traces are only read for them, through a buffer of fixed size.
#![tactic(auto)]

ghost use Rattle.std.specs.Prelude.{◌≤◌};

use arguments::Inputs;
use book::Answer;
use front::{Closed, Fetched, Front, Input};
use playback::Cursor;
use std::fs::File;
use std::io::Error;
use std::rt::{Env, Files};

// ---- a report

// A line for each frame of a reel.
#[tactic(auto, using(reel::proofs::Found::found_steps))]
fn say_frames(front: &Front, reel: &[u8], line: &mut [u8]) -> Result<(), Closed> {
    let mut place = reel::Cursor::new();
    let mut index: u64 = 0;
    while let Ok(Some(found)) = place.step(reel) {
        let n = report::frame(index, &reel[found.start..found.end], line);
        front.say(&line[0..n])?;
        place = found.next;
        index += 1;
    }
    Ok(())
}

// The frames that the book holds, by a buffer that takes every reel of one.
fn say_book(front: &Front, book: &[u8], line: &mut [u8]) -> Result<(), Closed> {
    let mut reel = [0u8; book::LONGEST_REEL];
    let answer = book::replay(book, &mut reel);
    let Ok(n) = answer else {
        return Ok(());
    };
    if reel.len() < n {
        return Ok(());
    }
    say_frames(front, &reel[0..n], line)
}

fn say_name(front: &Front, name: &[u8]) -> Result<(), Closed> {
    front.say(b"trace ")?;
    front.say(name)?;
    front.say(b"\n")
}

// What a playback came to: its name, its numbers, its book, and its fault if there is one.
fn say_report(
    front: &Front,
    name: &[u8],
    cursor: Cursor,
    book: &[u8],
    text: &mut [u8],
) -> Result<(), Closed> {
    say_name(front, name)?;
    let played = playback::end(cursor);
    let day = played.day;
    let answer = played.answer;
    let n = report::numbers(day, text);
    front.say(&text[0..n])?;
    say_book(front, book, text)?;
    let Err(why) = answer else {
        return Ok(());
    };
    let m = report::stopped(why.place() as u64, text);
    front.say(&text[0..m])
}

// ---- one trace

// How many of n bytes a pass used: all of them where the book refuses, which one that `make` made does not.
fn used_of(answer: Answer, n: usize) -> usize
    ensures { result ≤ n }
{
    let Ok(used) = answer else {
        return n;
    };
    if used <= n { used } else { n }
}

// Plays an input on the book, and reads no further than what alters the day. A read that fails ends the trace.
// Nothing says that the input ends, so there are more turns than any run uses up.
fn run(front: &Front, input: &Input, s: &mut [u8], book: &mut [u8]) -> Result<Cursor, Error> {
    let mut cursor = playback::start();
    let mut f = Fetched {
        have: 0,
        more: true,
    };
    for _ in 0..u64::MAX {
        let p = playback::pass(cursor, book, &s[..f.have], f.more);
        cursor = p.cursor;
        if !f.more || playback::is_over(cursor) {
            break;
        }
        let answer = p.answer;
        f = front.refill(input, s, used_of(answer, f.have), f.have)?;
    }
    Ok(cursor)
}

// Plays input i, if it can be opened, and reports it. A trace that cannot be read to its end has no report.
fn play<R: Env + Files<File = File>>(
    front: &Front,
    rt: &R,
    inputs: Inputs,
    i: usize,
    arg: &mut [u8],
    s: &mut [u8],
    book: &mut [u8],
    text: &mut [u8],
) -> Result<(), Closed> {
    let Some(input) = front.open(rt, inputs, i, arg) else {
        return Ok(());
    };
    let name = &arg[..input.name];
    let _made = book::make(book);
    match run(front, &input, s, book) {
        Ok(cursor) => say_report(front, name, cursor, book, text),
        Err(why) => {
            front.cannot_read(name, why);
            Ok(())
        }
    }
}

fn main(rt: HostRuntime) {
    let front = Front {
        program: b"play",
        input: rt.stdin(),
        output: rt.stdout(),
        errors: rt.stderr(),
    };
    let mut arg = [0u8; 4096];
    let mut s = [0u8; 65536];
    let mut book = [0u8; 4096];
    let mut text = [0u8; 4096];
    let Some(inputs) = front.begin(
        &rt,
        b"usage: play [--] [FILE]..\n\
Plays each recorded trace on a fresh book of 4096 bytes and reports it. A trace is read from FILE, or from standard input where there is no FILE\n\
or FILE is -. A report has a line for its trace, the records played, the puts accepted, the puts refused by each number, the answers skipped,\n\
the last reading of each kind, each frame that the book then holds (as dump prints it), and where the trace is at fault: stopped, 15 and the place.\n\
-h, --help  prints this\n\
--version   prints the version\n",
        &mut arg,
    ) else {
        return;
    };
    for i in 0..inputs.count() {
        let said = play(
            &front, &rt, inputs, i, &mut arg, &mut s, &mut book, &mut text,
        );
        if said.is_err() {
            return;
        }
    }
}
