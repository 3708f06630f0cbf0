// The front of a program: what each that people call does around its work. It looks through its arguments, opens and reads what they name, and says what
// it has to say. There are no callbacks: a program asks for what comes next, input by input, and keeps what is its own.
// What is read and written is the system's. The contracts say how much there is, and what of a lent buffer is as it was (specs/Buffers.antt).
// A program's exit status says nothing: what could not be done stands on standard error.
#![tactic(auto)]

ghost use Rattle.std.specs.Prelude.{◌≡◌, ◌<◌, ◌≤◌, IfOk, IfSome, length, take};
ghost use Rattle.std.specs.Io.{ReadsAtMost};
ghost use Rattle.arguments.specs.Places.{place_at};
ghost use Rattle.front.specs.Buffers.{Asks, Drawn, Fetches, Opening, Opens, Reading, Reads, called, span_of, standard_in, standard_input};

use arguments::{Inputs, Place, Word, same_bytes};
use std::env::FillError;
use std::fmt::Write;
use std::fs::File;
use std::io::{Error, Read, Stderr, Stdin, Stdout};
use std::os::fd::AsRawFd;
use std::rt::{Env, Files};
use std::{fmt, fs};
use texts::{put_decimal, put_text};

// The version of the library and its programs, as it is printed.
const VERSION: [u8; 6] = *b"0.1.0\n";

// The system's numbers of errors that the front finds itself: a descriptor that is none, an argument that is not there, a name that is too long, and one
// that is not UTF-8, which no file is opened by.
const EBADF: i32 = 9;

const EINVAL: i32 = 22;

const ENAMETOOLONG: i32 = 36;

const EILSEQ: i32 = 84;

// A program's front: its name, which each message begins with, and the standard streams, as its `main` has them. The runtime stays beside it: three of
// the methods need that, and each of them and each function of a program would be generic over it.
#[derive(Clone, Copy)]
pub struct Front<'a> {
    pub program: &'a [u8],
    pub input: Stdin,
    pub output: Stdout,
    pub errors: Stderr,
}

// Standard output takes no more. Where that is found it is said too, so whoever is told has only to end.
#[derive(Clone, Copy, Debug, PartialEq, Eq)]
pub struct Closed;

// An input: its descriptor, and how many bytes of `arg` are its name; the file, where it is no standard input. The descriptor stays beside the file: the
// law `standard-called` speaks of it, and `control` compares two.
#[derive(Drop)]
pub struct Input {
    pub fd: i32,
    pub name: usize,
    pub file: Option<File>,
}

// What a read left: so many bytes in the buffer, and whether more may follow.
#[derive(Clone, Copy, Debug, PartialEq, Eq)]
pub struct Fetched {
    pub have: usize,
    pub more: bool,
}

// What was read of an input, to its end or to the buffer's: how many bytes of `arg` are its name, and how many bytes there are.
#[derive(Clone, Copy, Debug, PartialEq, Eq)]
pub struct Content {
    pub name: usize,
    pub have: usize,
}

// ---- the texts of errors

// The text of an error, as far as there is room: a buffer and its length, as there is no heap.
#[derive(Drop)]
struct Reason {
    bytes: [u8; 300],
    len: usize,
    ghost within: { len ≤ 300 },
}

impl fmt::Write for Reason {
    fn write_str(&mut self, s: &str) -> fmt::Result {
        self.len = put_text(&mut self.bytes, self.len, s.as_bytes());
        Ok(())
    }
}

// Where the system's words for an error end: behind them stands its number, in brackets.
fn words_end(text: &[u8]) -> usize
    ensures { result ≤ length text.now }
{
    match text.iter().rposition(|b| *b == b'(') {
        Some(n) => n.saturating_sub(1),
        None => text.len(),
    }
}

// The system's number for an argument that is not there, or for which there is no room.
fn number_of(why: FillError) -> i32 {
    match why {
        FillError::NotPresent => EINVAL,
        FillError::TooLong => ENAMETOOLONG,
    }
}

// ---- the arguments

// How many arguments there are, the program's own name among them.
fn arg_count<R: Env>(rt: &R, arg: &mut [u8]) -> usize {
    for i in 0..usize::MAX {
        if let Err(FillError::NotPresent) = rt.arg(i, arg) {
            return i;
        }
    }
    usize::MAX
}

// What argument i is; one for which `arg` has no room is a name.
fn word_at<R: Env>(rt: &R, i: usize, arg: &mut [u8]) -> Word {
    match rt.arg(i, arg) {
        Ok(n) => arguments::word_of(&arg[..n]),
        Err(_) => Word::Name,
    }
}

// The first argument before `end` that is no name.
fn look_through<R: Env>(rt: &R, end: usize, arg: &mut [u8]) -> Option<usize>
    ensures { IfSome result (λ i. (0 < i) × (i < end)) }
{
    for i in 1..end {
        if word_at(rt, i, arg) != Word::Name {
            return Some(i);
        }
    }
    None
}

// ---- an input

// Opens the file of this name.
fn open_file<R: Files<File = File>>(rt: &R, name: &[u8]) -> Result<File, Error> {
    match std::str::from_utf8(name) {
        Ok(text) => fs::open(rt, text),
        Err(_) => Err(Error::from_raw_os_error(EILSEQ)),
    }
}

// Closes an input. Standard input, which has no file, stays open, so that a second `-` goes on there.
pub fn close(input: Input) {
    drop(input);
}

impl Front<'_> {
    // ---- what is said

    // Writes to standard error. Where that fails nothing can be said of it.
    fn utter(&self, text: &[u8]) {
        let _ = Print::write_all(&self.errors, text);
    }

    // Writes three texts, one behind the other.
    fn utter_three(&self, first: &[u8], second: &[u8], third: &[u8]) {
        self.utter(first);
        self.utter(second);
        self.utter(third);
    }

    fn utter_decimal(&self, n: usize) {
        let mut digits = [0u8; 20];
        let end = put_decimal(&mut digits, 0, n as u64);
        self.utter(&digits[..end]);
    }

    // Ends a message by why something could not be done.
    fn utter_why(&self, why: Error) {
        let mut reason = Reason {
            bytes: [0; 300],
            len: 0,
        };
        let _ = write!(reason, "{why}");
        let text = &reason.bytes[..reason.len];
        self.utter_three(b": ", &text[..words_end(text)], b"\n");
    }

    // Begins a message about an input; `-` is standard input.
    fn complain(&self, what: &[u8], name: &[u8]) {
        if same_bytes(name, b"-") {
            self.utter_three(self.program, what, b"standard input");
        } else {
            self.utter_three(self.program, what, name);
        }
    }

    // Says what could not be done, to what, and why.
    fn cannot(&self, what: &[u8], name: &[u8], why: Error) {
        self.complain(what, name);
        self.utter_why(why);
    }

    // Says that an input could not be read, and why, as the read that failed has left it.
    pub fn cannot_read(&self, name: &[u8], why: Error) {
        self.cannot(b": cannot read ", name, why);
    }

    // Writes to standard output. A write that fails is said, and may leave a part of the text there.
    pub fn say(&self, text: &[u8]) -> Result<(), Closed> {
        if let Err(why) = Print::write_all(&self.output, text) {
            self.cannot(b": cannot write ", b"standard output", why);
            return Err(Closed);
        }
        Ok(())
    }

    // Writes three texts, one behind the other.
    fn say_three(&self, first: &[u8], second: &[u8], third: &[u8]) -> Result<(), Closed> {
        self.say(first)?;
        self.say(second)?;
        self.say(third)
    }

    // Goes before what is said of each of several inputs.
    pub fn heading(&self, name: &[u8]) -> Result<(), Closed> {
        if same_bytes(name, b"-") {
            return self.say(b"==> standard input <==\n");
        }
        self.say_three(b"==> ", name, b" <==\n")
    }

    // Says what is wrong with an input.
    pub fn wrong_input(&self, name: &[u8], what: &[u8]) {
        self.complain(b": ", name);
        self.utter_three(b": ", what, b"\n");
    }

    // Says what is wrong with a line of an input.
    pub fn wrong_line(&self, name: &[u8], line: usize, what: &[u8]) {
        self.complain(b": ", name);
        self.utter(b": line ");
        self.utter_decimal(line);
        self.utter_three(b": ", what, b"\n");
    }

    // Says what is wrong with the arguments.
    fn wrong(&self, what: &[u8], argument: &[u8]) {
        self.utter_three(self.program, what, argument);
        self.utter_three(b"; ", self.program, b" --help says more\n");
    }

    // Says what is wrong with a call.
    pub fn wrong_call(&self, what: &[u8]) {
        self.wrong(b": ", what);
    }

    // ---- the arguments

    // What argument i of so many asks for, the first that is no name.
    fn ask(&self, help: &[u8], given: usize, i: usize, argument: &[u8]) -> Option<Inputs>
        requires { (0 < i) × (i ≤ given) }
        ensures { Asks result }
    {
        match arguments::word_of(argument) {
            Word::Name => return Some(Inputs { given, mark: None }),
            Word::Mark => {
                return Some(Inputs {
                    given,
                    mark: Some(i),
                });
            }
            Word::Help => {
                let _ = self.say(help);
            }
            Word::Version => {
                let _ = self.say_three(self.program, b" (Hoardbutton) ", &VERSION);
            }
            Word::Unknown => self.wrong(b": unknown option ", argument),
        }
        None
    }

    // Looks through the arguments before anything is read. The first that is no name decides: help and the version are said, and so is an unknown option.
    // One for which `arg` has no room is a name. Where there is work to do, its inputs are handed back.
    pub fn begin<R: Env>(&self, rt: &R, help: &[u8], arg: &mut [u8]) -> Option<Inputs>
        ensures { Asks result }
    {
        let end = arg_count(rt, arg);
        if end == 0 {
            return None;
        }
        let Some(i) = look_through(rt, end, arg) else {
            return Some(Inputs {
                given: end - 1,
                mark: None,
            });
        };
        match rt.arg(i, arg) {
            Ok(n) => self.ask(help, end - 1, i, &arg[..n]),
            Err(_) => self.ask(help, end - 1, i, b""),
        }
    }

    // ---- an input

    // Standard input, under a name of n bytes.
    fn standard_input(&self, n: usize) -> Input
        ensures { result ≡ standard_input n }
    {
        Input {
            fd: self.input.as_raw_fd(),
            name: n,
            file: None,
        }
    }

    // Opens the file of this name; `-` is standard input.
    fn open_name<R: Files<File = File>>(&self, rt: &R, name: &[u8]) -> Option<Input>
        ensures { IfSome result (λ i. i.name ≤ length name.now) }
    {
        if same_bytes(name, b"-") {
            return Some(self.standard_input(name.len()));
        }
        match open_file(rt, name) {
            Ok(file) => Some(Input {
                fd: file.as_raw_fd(),
                name: name.len(),
                file: Some(file),
            }),
            Err(why) => {
                self.cannot(b": cannot open ", name, why);
                None
            }
        }
    }

    // Opens what argument k names. A name that `arg` has no room for cannot be opened.
    fn open_argument<R: Env + Files<File = File>>(
        &self,
        rt: &R,
        k: usize,
        arg: &mut [u8],
    ) -> Option<Input>
        ensures { Opening arg.old arg.new result }
    {
        match rt.arg(k, arg) {
            Ok(n) => self.open_name(rt, &arg[..n]),
            Err(why) => {
                self.complain(b": cannot open ", b"a name of more than ");
                self.utter_decimal(arg.len());
                self.utter(b" bytes");
                self.utter_why(Error::from_raw_os_error(number_of(why)));
                None
            }
        }
    }

    // Standard input, where `arg` has room for its name.
    fn open_standard_input(&self, arg: &mut [u8]) -> Option<Input>
        ensures { (result ≡ standard_in arg.old) × (arg.new ≡ called arg.old) }
    {
        if arg.is_empty() {
            return None;
        }
        arg[0] = b'-';
        Some(self.standard_input(1))
    }

    // Opens input i and leaves its name in `arg`: `-` for standard input. A file that cannot be opened is said.
    pub fn open<R: Env + Files<File = File>>(
        &self,
        rt: &R,
        inputs: Inputs,
        i: usize,
        arg: &mut [u8],
    ) -> Option<Input>
        ensures opening { Opening arg.old arg.new result }
        ensures opens { Opens (place_at inputs.given inputs.mark i) arg.old arg.new result }
    {
        match inputs.place(i)? {
            Place::Argument(k) => self.open_argument(rt, k, arg),
            Place::StandardInput => self.open_standard_input(arg),
        }
    }

    // ---- reading

    // Reads once from an input. Of one that is neither a file nor standard input nothing can be read.
    fn read_once(&self, input: &Input, s: &mut [u8]) -> Result<usize, Error>
        ensures { ReadsAtMost result s.new }
    {
        match &input.file {
            Some(file) => {
                let mut file = file;
                file.read(s)
            }
            None => {
                let mut standard = self.input;
                if input.fd == standard.as_raw_fd() {
                    return standard.read(s);
                }
                Err(Error::from_raw_os_error(EBADF))
            }
        }
    }

    // Reads once behind the first `have` bytes. A read that gives nothing is the input's end, or there is no room.
    fn read_on(&self, input: &Input, s: &mut [u8], have: usize) -> Result<Fetched, Error>
        requires { have ≤ length s.old }
        ensures { Fetches (take have s.old) s.old s.new result }
    {
        let n = self.read_once(input, &mut s[have..])?;
        Ok(Fetched {
            have: have + n,
            more: 0 < n,
        })
    }

    // Keeps the bytes from `from` to `have`, which go to the front, and reads once behind them: so the buffer has to be longer than what a part leaves.
    // Where there are no such places none is kept, and nothing is asked of the caller.
    pub fn refill(
        &self,
        input: &Input,
        s: &mut [u8],
        from: usize,
        have: usize,
    ) -> Result<Fetched, Error>
        ensures { Fetches (span_of s.old from have) s.old s.new result }
    {
        if have < from || s.len() < have {
            return self.read_on(input, s, 0);
        }
        let n = have - from;
        spans::slide(s, 0, from, n);
        self.read_on(input, s, n)
    }

    // Reads until the input ends or the buffer is full, since a pipe gives pieces, and tells how many bytes came. No index is counted: a read gives the step.
    fn read_whole(&self, input: &Input, s: &mut [u8]) -> Result<usize, Error>
        ensures long { length s.new ≡ length s.old }
        ensures most { IfOk result (λ n. n ≤ length s.new) }
    {
        let mut have: usize = 0;
        while have < s.len() {
            let n = self.read_once(input, &mut s[have..])?;
            if n == 0 {
                break;
            }
            have += n;
        }
        Ok(have)
    }

    // Reads an input that was opened under this name, as far as the buffer has room, and closes it. One that cannot be read so far is said, and gives none;
    // of one that was not found nothing is read.
    pub fn read_opened(&self, input: Option<Input>, name: &[u8], s: &mut [u8]) -> Option<Content>
        ensures { Drawn input s.old s.new result }
    {
        let opened = input?;
        let content = match self.read_whole(&opened, s) {
            Ok(have) => Some(Content {
                name: opened.name,
                have,
            }),
            Err(why) => {
                self.cannot_read(name, why);
                None
            }
        };
        close(opened);
        content
    }

    // Reads input i, as far as the buffer has room. A file that cannot be opened, or read so far, is said, and gives none.
    pub fn read<R: Env + Files<File = File>>(
        &self,
        rt: &R,
        inputs: Inputs,
        i: usize,
        arg: &mut [u8],
        s: &mut [u8],
    ) -> Option<Content>
        ensures reading { Reading arg.old arg.new s.old s.new result }
        ensures reads { Reads (place_at inputs.given inputs.mark i) arg.old arg.new s.old s.new result }
    {
        let input = self.open(rt, inputs, i, arg);
        let name = match &input {
            Some(opened) => opened.name,
            None => 0,
        };
        self.read_opened(input, &arg[..name], s)
    }
}
