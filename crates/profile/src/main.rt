// Tells of each book whether it keeps the locker profile, the rules for banks: `profile FILE..`, or `profile` for what comes in on standard input;
// `profile --help` says more. locker_profile has the answer, profile_text its text; here books are only read for them.
#![tactic(auto)]

use arguments::Inputs;
use front::{Closed, Front};
use std::fs::File;
use std::rt::{Env, Files};

// A byte more than the longest book has, so that a longer one is told without being read whole.
const READ: usize = 4097;

// A line with the book's name and its answer.
fn say_answer(front: &Front, name: &[u8], book: &[u8]) -> Result<(), Closed> {
    let mut text = [0u8; profile_text::LONGEST];
    let n = profile_text::answer(locker_profile::check(book), &mut text);
    front.say(name)?;
    front.say(b" ")?;
    front.say(&text[0..n])
}

// Answers input i, if it can be read.
fn answer<R: Env + Files<File = File>>(
    front: &Front,
    rt: &R,
    inputs: Inputs,
    i: usize,
    arg: &mut [u8],
    s: &mut [u8],
) -> Result<(), Closed> {
    let Some(content) = front.read(rt, inputs, i, arg, s) else {
        return Ok(());
    };
    say_answer(front, &arg[..content.name], &s[..content.have])
}

fn main(rt: HostRuntime) {
    let front = Front {
        program: b"profile",
        input: rt.stdin(),
        output: rt.stdout(),
        errors: rt.stderr(),
    };
    let mut arg = [0u8; 4096];
    let mut s = [0u8; READ];
    let Some(inputs) = front.begin(
        &rt,
        b"usage: profile [--] [FILE]..\n\
Tells of each book whether it keeps the locker profile, the rules for the LoRa settings of banks. A book's bytes are read from FILE, or from\n\
standard input where there is no FILE or FILE is -. Each has a line: its name, which is - for standard input, and yes, or the first rule that\n\
it breaks, or refused and a number. Other settings are free.\n\
1 spreading_factor: Sf7 to Sf12. 2 width: Bw125 or Bw250. 3 rate: one of the four with short interleaving. 4 header: explicit. 5 crc: on.\n\
6 syncword: kind 4 has 0x12. 7 optimisation: on where a symbol takes 16 ms or longer, so for Sf11 and Sf12 at Bw125 and for Sf12 at Bw250,\n\
and off elsewhere.\n\
11: not 62 to 4096 bytes. 10: not well formed. 16: both forms of a setting are held. 22: kind 1, 2 or 4 is not held.\n\
-h, --help  prints this\n\
--version   prints the version\n",
        &mut arg,
    ) else {
        return;
    };
    for i in 0..inputs.count() {
        if answer(&front, &rt, inputs, i, &mut arg, &mut s).is_err() {
            return;
        }
    }
}
