// Plays a book through the controller against statuses that are written down: `control BOOK [STATUSES]`, or `control BOOK` for statuses that come in on
// standard input; `control --help` says more. control_text has what is printed; here a book and a list are only read for it.
#![tactic(auto)]

ghost use Rattle.front.specs.Buffers.{Opening};
ghost use Rattle.std.specs.Prelude.{◌≤◌, length};

use arguments::{Inputs, Place, same_bytes};
use control_text::{Halt, LONGEST};
use front::{Closed, Front, Input};
use std::fs::File;
use std::rt::{Env, Files};
use texts::put_text;

// A byte more than the longest book has, so that a longer one is told without being read whole.
const BOOK: usize = 4097;

// Of a list so many bytes are read: a run can end before its list does.
const TEXT: usize = 65536;

// Room for a message with a word, of which the first 80 bytes are enough.
const MESSAGE: usize = 101;

// ---- the call

// Whether a book is named, and one list at the most. What is wrong is said.
fn is_right(front: &Front, inputs: Inputs) -> bool {
    let Some(Place::Argument(_)) = inputs.place(0) else {
        front.wrong_call(b"no book is named");
        return false;
    };
    if 2 < inputs.count() {
        front.wrong_call(b"one book and one list of statuses at a time");
        return false;
    }
    true
}

// The list is the second name, or standard input where there is none.
fn open_list<R: Env + Files<File = File>>(
    front: &Front,
    rt: &R,
    inputs: Inputs,
    arg: &mut [u8],
) -> Option<Input>
    ensures { Opening arg.old arg.new result }
{
    if inputs.count() < 2 {
        let nameless = Inputs {
            given: 0,
            mark: None,
        };
        return front.open(rt, nameless, 0, arg);
    }
    front.open(rt, inputs, 1, arg)
}

// ---- what is said

fn wrong_word(front: &Front, name: &[u8], text: &[u8], start: usize, end: usize)
    requires { (start ≤ end) × (end ≤ length text.now) }
{
    let mut what = [0u8; MESSAGE];
    let to = put_text(&mut what, 0, b"not four hex digits: ");
    let n = put_text(&mut what, to, &text[start..end]);
    let line = status_list::line_of(text, start);
    front.wrong_line(name, line, &what[0..n]);
}

// Whether a part of a list has too few words for the run.
fn is_short(halt: Halt, whole: bool) -> bool {
    if let Halt::Waiting = halt {
        return !whole;
    }
    false
}

// Plays the book against a text: the whole list, or the words of the part of a longer one that is read.
fn play(front: &Front, name: &[u8], book: &[u8], text: &[u8], whole: bool) -> Result<(), Closed> {
    let mut out = [0u8; LONGEST];
    let played = control_text::play(book, text, &mut out);
    let halt = played.halt;
    if is_short(halt, whole) {
        front.say(&out[..played.steps])?;
        front.wrong_input(name, b"the first 65536 bytes do not end the run");
        return Ok(());
    }
    front.say(&out[..played.len])?;
    if let Halt::Wrong { start, end } = halt {
        wrong_word(front, name, text, start, end);
    }
    Ok(())
}

// Plays the book against no status at all, and tells whether it waits for one. What is refused, or done at once, is said, and needs none.
fn is_waiting(front: &Front, book: &[u8]) -> Result<bool, Closed> {
    let mut out = [0u8; LONGEST];
    let played = control_text::play(book, b"", &mut out);
    let halt = played.halt;
    if let Halt::Waiting = halt {
        return Ok(true);
    }
    front.say(&out[..played.len])?;
    Ok(false)
}

// ---- the inputs

// How far a part of a list has whole words: to its last white space, since what stands behind that may go on.
fn whole_words(s: &[u8]) -> usize
    ensures { result ≤ length s.now }
{
    match s.iter().rposition(|b| status_list::is_blank(*b)) {
        Some(i) => i + 1,
        None => 0,
    }
}

// Reads the list and plays the book against it.
fn answer_list(front: &Front, book: &[u8], list: Option<Input>, name: &[u8]) -> Result<(), Closed> {
    let mut s = [0u8; TEXT + 1];
    let Some(read) = front.read_opened(list, name, &mut s) else {
        return Ok(());
    };
    if read.have <= TEXT {
        return play(front, name, book, &s[..read.have], true);
    }
    let n = whole_words(&s);
    play(front, name, book, &s[..n], false)
}

// Reads the book, and the list where it is waited for. Neither is read before both are open.
fn answer(
    front: &Front,
    book: Input,
    book_name: &[u8],
    list: Option<Input>,
    name: &[u8],
) -> Result<(), Closed> {
    let mut b = [0u8; BOOK];
    let Some(read) = front.read_opened(Some(book), book_name, &mut b) else {
        return Ok(());
    };
    let bytes = &b[..read.have];
    if is_waiting(front, bytes)? {
        return answer_list(front, bytes, list, name);
    }
    Ok(())
}

// The list, beside a book on standard input. Where there is none, the list may have got its descriptor: then it is given back, and the book's read fails.
fn list_beside(book: &Input, list: Input) -> Option<Input> {
    if list.fd == book.fd {
        front::close(list);
        return None;
    }
    Some(list)
}

// Answers, unless both are standard input.
fn answer_named(
    front: &Front,
    book: Input,
    book_name: &[u8],
    list: Input,
    name: &[u8],
) -> Result<(), Closed> {
    if !same_bytes(book_name, b"-") {
        return answer(front, book, book_name, Some(list), name);
    }
    if same_bytes(name, b"-") {
        front.wrong_call(b"book and statuses cannot both be standard input");
        return Ok(());
    }
    let own = list_beside(&book, list);
    answer(front, book, book_name, own, name)
}

fn main(rt: HostRuntime) {
    let front = Front {
        program: b"control",
        input: rt.stdin(),
        output: rt.stdout(),
        errors: rt.stderr(),
    };
    let mut arg = [0u8; 4096];
    let mut other = [0u8; 4096];
    let Some(inputs) = front.begin(
        &rt,
        b"usage: control [--] BOOK [STATUSES]\n\
Plays a book through the controller, which sends its frames one at each step, against the statuses that came back. The book's bytes are read from\n\
BOOK, or from standard input where BOOK is -. The statuses are read from STATUSES, or from standard input where there is no STATUSES or STATUSES is -.\n\
They are words of four hex digits, as 0404, with white space between; lines that begin with # are skipped. A status judges the frame before the one\n\
that it came back with, and a final read, which sends nothing, judges the last. Each step whose status is there has a line, with the step's number:\n\
1 sent 02 23 34: it sent this frame, and nothing is judged yet\n\
2 judged 1 Ok sent 02 00 33 be 27 a0: frame 1 went well, and this frame is sent\n\
3 judged 2 Ok read: frame 2 went well, and all are sent\n\
The last line is done, stopped with the number of the frame that went wrong and how (Fail, PErr, Unknown), waiting with the number of steps where\n\
the statuses end first, or refused and a number, where the book is not played. Statuses behind the end are not looked at. At a word that is no status\n\
the run breaks off without a last line, and so it does where the first 65536 bytes of the statuses do not end it.\n\
11: not 62 to 4096 bytes. 10: not well formed. 16: both forms of a setting are held.\n\
-h, --help  prints this\n\
--version   prints the version\n",
        &mut arg,
    ) else {
        return;
    };
    if !is_right(&front, inputs) {
        return;
    }
    let book = front.open(&rt, inputs, 0, &mut arg);
    let list = open_list(&front, &rt, inputs, &mut other);
    let Some(book) = book else {
        return;
    };
    let Some(list) = list else {
        return;
    };
    let book_name = &arg[..book.name];
    let name = &other[..list.name];
    let _ = answer_named(&front, book, book_name, list, name);
}
