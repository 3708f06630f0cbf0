// Finds for each bank of a list the narrowest receive width that suffices, or judges the codes proposed: `widths FILE`, or `widths` for what comes in
// on standard input; `widths --help` says more. bank_list has what a text says, widths_text the answers; here a list is only read for them, whole.
#![tactic(auto)]

use bank_list::Fault;
use front::Front;

// A byte more than the longest list has, so that a longer one is told without being read whole.
const READ: usize = 65537;

fn wrong_line(front: &Front, name: &[u8], line: usize, fault: Fault) {
    let what: &[u8] = match fault {
        Fault::NotABank => b"not a need, nor a need and a code",
        Fault::NeedPast => b"a need past 18446744073709551615",
        Fault::CodePast => b"a code above 255",
        Fault::CodeLacking => b"no code, though an earlier bank has one",
        Fault::CodeSurplus => b"a code, though an earlier bank has none",
    };
    front.wrong_line(name, line, what);
}

// The answer to a list, or what is wrong with it.
fn answer(front: &Front, name: &[u8], text: &[u8], out: &mut [u8]) {
    if text.len() == READ {
        front.wrong_input(name, b"more than 65536 bytes");
        return;
    }
    let list = bank_list::read(text);
    if let Err(wrong) = list {
        wrong_line(front, name, wrong.line, wrong.fault);
        return;
    }
    let n = widths_text::answer(list, out);
    let _ = front.say(&out[0..n]);
}

fn main(rt: HostRuntime) {
    let front = Front {
        program: b"widths",
        input: rt.stdin(),
        output: rt.stdout(),
        errors: rt.stderr(),
    };
    let mut arg = [0u8; 4096];
    let mut s = [0u8; READ];
    let mut out = [0u8; 4096];
    let Some(inputs) = front.begin(
        &rt,
        b"usage: widths [--] [FILE]\n\
Finds for each bank the narrowest FSK receive width that is at least its need, or judges the codes proposed. A list is read from FILE, or from standard\n\
input where there is no FILE or FILE is -. It has a line for each of 1 to 32 banks: its need in whole Hz, or its need and a code, with a blank, a tab\n\
or a comma between. Blank lines and lines that begin with # are skipped.\n\
Needs alone: a line for each bank, with its number, need, code, name in kHz and width in Hz, cut after six decimals.\n\
With codes: ok, or the first bank that is refused, and for 20 a line with its right code.\n\
19: no listed width suffices. 20: the code is not the narrowest that does. 21: not 1 to 32 banks.\n\
-h, --help  prints this\n\
--version   prints the version\n",
        &mut arg,
    ) else {
        return;
    };
    if 1 < inputs.count() {
        front.wrong_call(b"one list at a time");
        return;
    }
    if let Some(content) = front.read(&rt, inputs, 0, &mut arg, &mut s) {
        answer(&front, &arg[..content.name], &s[..content.have], &mut out);
    }
}
