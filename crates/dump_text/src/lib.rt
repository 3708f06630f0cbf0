// The text of a dump: a line for each frame of a reel. specs/Text.antt says what the text of a reel is.
// `pass` works in parts, so that a reel of any length goes through buffers of fixed size: proofs/Parts.antt says that the parts make up the whole.
#![tactic(auto)]

ghost use Rattle.std.specs.Prelude.{◌≡◌, true, cond, [], ◌∷◌, ◌+◌, ◌≤◌, length};
ghost use Rattle.reading.specs.Decimal.{digit, decimal};
ghost use Rattle.texts.specs.Whole.{told, laid};
ghost use Rattle.decoder.specs.Decoding.{reading, refuses, decode};
ghost use Rattle.reel.specs.Reel.{unreel};
ghost use Rattle.dump_text.specs.Text.{blanked, head_of, line_of, text_of};
ghost use Rattle.dump_text.specs.Parts.{longest, goes_on, lines_of, Puts, Passes};
ghost use Rattle.dump_text.specs.Whole.{dumped, filled, laid_at, Lays};

use reel::Cursor;
use refusal::Refusal;

// The longest line is that of kind 6 with every bit set, at an index of twenty digits: proofs/Longest.antt.
const LONGEST: usize = 64;

// How far a pass came: the input bytes that it used, the output bytes that it wrote, and the index of the next frame.
#[derive(Clone, Copy)]
pub struct Passed {
    pub used: usize,
    pub written: usize,
    pub next: u64,
}

// ---- numbers

fn put_byte(out: &mut [u8], at: usize, b: u8) -> usize
    requires { at + 1 ≤ length out.old }
    ensures { Puts (b ∷ []) at out.old result out.new }
{
    out[at] = b;
    at + 1
}

// The last digit of n.
fn put_digit(out: &mut [u8], at: usize, n: u64) -> usize
    requires { at + 1 ≤ length out.old }
    ensures { Puts (digit n ∷ []) at out.old result out.new }
{
    put_byte(out, at, 48 + (n % 10) as u8)
}

// The digits of n, two at a time.
fn put_decimal(out: &mut [u8], at: usize, n: u64) -> usize
    requires { at + length (decimal n) ≤ length out.old }
    ensures { Puts (decimal n) at out.old result out.new }
{
    if n < 10 {
        return put_digit(out, at, n);
    }
    if n < 100 {
        let last = put_digit(out, at, n / 10);
        return put_digit(out, last, n);
    }
    let tens = put_decimal(out, at, n / 100);
    let last = put_digit(out, tens, n / 10);
    put_digit(out, last, n)
}

// A blank and a number.
fn put_number(out: &mut [u8], at: usize, n: u64) -> usize
    requires { at + length (blanked (n ∷ [])) ≤ length out.old }
    ensures { Puts (blanked (n ∷ [])) at out.old result out.new }
{
    let to = put_byte(out, at, b' ');
    put_decimal(out, to, n)
}

// Numbers, a blank before each.
fn put_arguments(out: &mut [u8], at: usize, args: &[u64]) -> usize
    requires { at + length (blanked args.now) ≤ length out.old }
    ensures { Puts (blanked args.now) at out.old result out.new }
{
    let mut to = at;
    for &n in args {
        to = put_number(out, to, n);
    }
    to
}

// ---- lines

// The four numbers that every line begins with.
fn put_head(out: &mut [u8], at: usize, index: u64, kind: u64, refusal: u64, place: u64) -> usize
    requires { at + length (head_of index kind refusal place) ≤ length out.old }
    ensures { Puts (head_of index kind refusal place) at out.old result out.new }
{
    let a = put_decimal(out, at, index);
    let b = put_number(out, a, kind);
    let c = put_number(out, b, refusal);
    put_number(out, c, place)
}

// The line of a frame that is refused.
fn put_refusal(out: &mut [u8], at: usize, index: u64, why: Refusal) -> usize
    requires { at + length (line_of index (refuses why)) ≤ length out.old }
    ensures { Puts (line_of index (refuses why)) at out.old result out.new }
{
    let number = why.number() as u64;
    let place = why.place() as u64;
    let to = put_head(out, at, index, 0, number, place);
    put_byte(out, to, b'\n')
}

// The line of a frame of this kind.
fn put_kind(out: &mut [u8], at: usize, index: u64, kind: u64, args: &[u64]) -> usize
    requires { at + length (line_of index (reading kind args.now)) ≤ length out.old }
    ensures { Puts (line_of index (reading kind args.now)) at out.old result out.new }
{
    let to = put_head(out, at, index, kind, 0, 0);
    let end = put_arguments(out, to, args);
    put_byte(out, end, b'\n')
}

// The line of a frame.
fn put_line(out: &mut [u8], at: usize, index: u64, frame: &[u8]) -> usize
    requires { at + length (line_of index (decode frame.now)) ≤ length out.old }
    ensures { Puts (line_of index (decode frame.now)) at out.old result out.new }
{
    let answer = decoder::decode(frame);
    match answer {
        Ok(d) => put_kind(out, at, index, d.kind, &d.args[..d.count]),
        Err(why) => put_refusal(out, at, index, why),
    }
}

// The line of one frame at the start of `out`: the answer is how long it is, 0 where the output lacks room for the longest and is left alone.
pub fn line(index: u64, frame: &[u8], out: &mut [u8]) -> usize
    ensures value { result ≡ told longest (line_of index (decode frame.now)) out.old }
    ensures out_after { out.new ≡ laid longest (line_of index (decode frame.now)) out.old }
    ensures upper_bound { result ≤ length out.old }
{
    if out.len() < LONGEST {
        return 0;
    }
    put_line(out, 0, index, frame)
}

// ---- passes

// Whether there is room for a line, however long, and an index behind this one.
fn goes_on(room: usize, index: u64) -> bool
    ensures { result ≡ goes_on room index }
{
    LONGEST <= room && index < u64::MAX
}

// Puts the lines of the frames that `input` begins with at the start of `out`, from an index on. A frame that the input ends in is left for the
// next pass if more input is to come, and else prints as cut. Where `out` has no room for a line, nothing more is used.
#[tactic(auto, using(reel::proofs::Found::found_steps))]
pub fn pass(index: u64, input: &[u8], more: bool, out: &mut [u8]) -> Passed
    ensures passes { Passes (lines_of more (length out.old) index (unreel input.now)) out.old result out.new }
    ensures used_in_bounds { (result.used ≤ length input.now) × (result.written ≤ length out.old) }
{
    let mut cursor = Cursor::new();
    let mut written: usize = 0;
    let mut next = index;
    while goes_on(out.len() - written, next) {
        match cursor.step(input) {
            Ok(Some(found)) => {
                written = put_line(out, written, next, &input[found.start..found.end]);
                cursor = found.next;
                next += 1;
            }
            Ok(None) => break,
            Err(why) => {
                if more {
                    break;
                }
                let end = put_refusal(out, written, next, why);
                return Passed {
                    used: input.len(),
                    written: end,
                    next: next + 1,
                };
            }
        }
    }
    Passed {
        used: cursor.at,
        written,
        next,
    }
}

// ---- a whole text in one output

// Puts a part of a text at its place, if asked to.
fn lay_part(part: &[u8], out: &mut [u8], at: usize, write: bool)
    requires { at + length part.now ≤ length out.old }
    ensures { out.new ≡ cond write (laid_at part.now at out.old) out.old }
{
    if write {
        out[at..at + part.len()].copy_from_slice(part);
    }
}

// Goes through the text in parts, and tells how long it is, or at least that it is longer than the output; puts it at the start of `out`
// if asked to.
fn lay(reel: &[u8], out: &mut [u8], write: bool) -> usize
    requires { write ≡ true → length (text_of reel.now) ≤ length out.old }
    ensures { Lays (text_of reel.now) write out.old result out.new }
{
    let mut part = [0u8; 512];
    let mut used: usize = 0;
    let mut at: usize = 0;
    let mut index: u64 = 0;
    while used < reel.len() {
        let p = pass(index, &reel[used..], false, &mut part);
        let n = p.written;
        if out.len() - at < n {
            return at + n;
        }
        lay_part(&part[0..n], out, at, write);
        used += p.used;
        index = p.next;
        at += n;
    }
    at
}

// The text of a reel at the start of `out`, and how long it is; or a refusal where the output is too short.
pub fn dump(reel: &[u8], out: &mut [u8]) -> Result<usize, Refusal>
    ensures value { result ≡ dumped (text_of reel.now) out.old }
    ensures out_after { out.new ≡ filled (text_of reel.now) out.old }
{
    let n = lay(reel, out, false);
    if out.len() < n {
        return Err(Refusal::OutputShort);
    }
    lay(reel, out, true);
    Ok(n)
}
