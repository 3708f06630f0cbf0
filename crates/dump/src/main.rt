// Prints reels, a line for each frame: `dump FILE..`, or `dump` for what comes in on standard input; `dump --help` says more.
// The lines are those of the crate dump_text; here they are only read for and written out, through buffers of fixed size.
#![tactic(auto)]

use arguments::Inputs;
use front::{Closed, Fetched, Front, Input};
use std::fs::File;
use std::rt::{Env, Files};

// Dumps an input. Where a read fails, that is said and no line follows.
// Nothing says that the input ends, so there are more turns than any run uses up.
fn run(
    front: &Front,
    input: &Input,
    name: &[u8],
    s: &mut [u8],
    out: &mut [u8],
) -> Result<(), Closed> {
    let mut from: usize = 0;
    let mut index: u64 = 0;
    let mut f = Fetched {
        have: 0,
        more: true,
    };
    for _ in 0..u64::MAX {
        let p = dump_text::pass(index, &s[from..f.have], f.more, out);
        front.say(&out[..p.written])?;
        index = p.next;
        from += p.used;
        if p.used == 0 {
            if !f.more {
                return Ok(());
            }
            f = match front.refill(input, s, from, f.have) {
                Ok(fetched) => fetched,
                Err(why) => {
                    front.cannot_read(name, why);
                    return Ok(());
                }
            };
            from = 0;
        }
    }
    Ok(())
}

// Dumps input i, if it can be opened, behind a heading where there are several.
fn dump<R: Env + Files<File = File>>(
    front: &Front,
    rt: &R,
    inputs: Inputs,
    i: usize,
    arg: &mut [u8],
    s: &mut [u8],
    out: &mut [u8],
) -> Result<(), Closed> {
    let Some(input) = front.open(rt, inputs, i, arg) else {
        return Ok(());
    };
    let name = &arg[..input.name];
    if 1 < inputs.count() {
        front.heading(name)?;
    }
    run(front, &input, name, s, out)
}

fn main(rt: HostRuntime) {
    let front = Front {
        program: b"dump",
        input: rt.stdin(),
        output: rt.stdout(),
        errors: rt.stderr(),
    };
    let mut arg = [0u8; 4096];
    let mut s = [0u8; 65536];
    let mut out = [0u8; 65536];
    let Some(inputs) = front.begin(
        &rt,
        b"usage: dump [--] [FILE]..\n\
Prints the frames of each reel, read from FILE, or from standard input where there is no FILE or FILE is -.\n\
A line for each frame: its index, kind (0 if refused), refusal, place, then its arguments as decimals.\n\
A reel is frames, each after one length byte. A cut frame prints as refusal 14 and ends its reel.\n\
Where there is more than one FILE, the lines of each follow a heading, ==> FILE <==.\n\
-h, --help  prints this\n\
--version   prints the version\n",
        &mut arg,
    ) else {
        return;
    };
    for i in 0..inputs.count() {
        if dump(&front, &rt, inputs, i, &mut arg, &mut s, &mut out).is_err() {
            return;
        }
    }
}
