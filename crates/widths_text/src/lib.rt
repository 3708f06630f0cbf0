// The answer of the program `widths` as text: a line for each bank with its right code, `ok`, or a refusal.
// specs/Text.antt has each text; proofs/Longest.antt that none is longer than the output must be, proofs/Laws.antt that the banks kept get the
// answer that all would get, proofs/Widths.antt that no width is rounded up.
#![tactic(auto)]

ghost use Rattle.std.specs.Prelude.{◌≡◌, ◌≤◌, min, length};
ghost use Rattle.texts.specs.Written.{Puts};
ghost use Rattle.texts.specs.Whole.{told, laid};
ghost use Rattle.bank_widths.specs.Lists.{right_codes};
ghost use Rattle.bank_list.specs.Banks.{most_kept};
ghost use Rattle.widths_text.specs.Text.{longest, millionths, bank_line, line_at, bank_lines, refused_text, ServedAt, needs_text, proposals_text, read_text};

use bank_list::{Found, KEPT, Listed, WrongLine};
use refusal::Refusal;
use texts::{put_byte, put_form, put_text};

// No answer takes more.
pub const LONGEST: usize = 4096;

// ---- lines

fn put_millionths(out: &mut [u8], at: usize, v: u64) -> usize
    ensures { Puts (millionths v) at out.old result out.new }
{
    let numbers = [
        v / 1_000_000,
        v / 100_000 % 10,
        v / 10_000 % 10,
        v / 1000 % 10,
        v / 100 % 10,
        v / 10 % 10,
        v % 10,
    ];
    put_form(out, at, b"0.123456", &numbers)
}

fn put_bank(out: &mut [u8], at: usize, bank: u64, need: u64, code: u8) -> usize
    ensures { Puts (bank_line bank need code) at out.old result out.new }
{
    let name = rx_bw::rx_bw_tenths(code) as u64;
    // 40 MHz in millionths of Hz, of which the division leaves whole ones.
    let width = 40_000_000_000_000 / bank_widths::divisor(code);
    let numbers = [bank, need, code as u64, name / 10, name % 10];
    let a = put_form(out, at, b"0 1 2 3.4 ", &numbers);
    let b = put_millionths(out, a, width);
    put_byte(out, b, b'\n')
}

fn put_banks(out: &mut [u8], at: usize, needs: &[u64], codes: &[u8]) -> usize
    requires { length needs.now ≡ length codes.now }
    ensures { Puts (bank_lines 0 needs.now codes.now) at out.old result out.new }
{
    let mut to = at;
    for (i, need) in needs.iter().enumerate() {
        to = put_bank(out, to, i as u64 + 1, *need, codes[i]);
    }
    to
}

fn put_refused(out: &mut [u8], at: usize, why: Refusal) -> usize
    ensures { Puts (refused_text why) at out.old result out.new }
{
    let number = why.number() as u64;
    let place = why.place() as u64;
    let numbers = [number, place];
    if 0 < place {
        put_form(out, at, b"refused 0 at bank 1\n", &numbers)
    } else {
        put_form(out, at, b"refused 0\n", &numbers)
    }
}

// A bank's line with its right code, which a search for this bank alone finds.
fn put_right(out: &mut [u8], at: usize, needs: &[u64], bank: usize) -> usize
    requires { ServedAt needs.now bank }
    ensures { Puts (line_at needs.now (right_codes needs.now) bank) at out.old result out.new }
{
    let need = needs[bank - 1];
    let one = [need];
    let mut code = [0u8; 1];
    let _ = bank_widths::find(&one, &mut code);
    put_bank(out, at, bank as u64, need, code[0])
}

// ---- answers

fn put_needs(out: &mut [u8], at: usize, needs: &[u64]) -> usize
    requires { length needs.now ≤ most_kept }
    ensures { Puts (needs_text needs.now) at out.old result out.new }
{
    let mut codes = [0u8; KEPT];
    let n = needs.len();
    match bank_widths::find(needs, &mut codes[..n]) {
        Ok(_) => put_banks(out, at, needs, &codes[..n]),
        Err(why) => put_refused(out, at, why),
    }
}

fn put_proposals(out: &mut [u8], at: usize, needs: &[u64], codes: &[u8]) -> usize
    ensures { Puts (proposals_text needs.now codes.now) at out.old result out.new }
{
    let Err(why) = bank_widths::check(needs, codes) else {
        return put_text(out, at, b"ok\n");
    };
    let to = put_refused(out, at, why);
    if why.number() == 20 {
        put_right(out, to, needs, why.place())
    } else {
        to
    }
}

// A list may say that more banks are kept than there are: then all are meant.
fn capped(n: usize) -> usize
    ensures { result ≡ min n most_kept }
{
    n.min(KEPT)
}

// The answer to a list of banks at the start of `out`: how long it is, 0 where a line of the list is wrong, and where the output has fewer than `LONGEST`
// bytes and is left alone.
pub fn answer(list: Result<Listed, WrongLine>, out: &mut [u8]) -> usize
    ensures value { result ≡ told longest (read_text list) out.old }
    ensures out_after { out.new ≡ laid longest (read_text list) out.old }
    ensures upper_bound { result ≤ length out.old }
{
    if out.len() < LONGEST {
        return 0;
    }
    let Ok(listed) = list else {
        return 0;
    };
    let found = listed.found;
    let needs = listed.needs;
    let codes = listed.codes;
    match found {
        Found::Needs(n) => {
            let m = capped(n);
            put_needs(out, 0, &needs[0..m])
        }
        Found::Proposals(n) => {
            let m = capped(n);
            put_proposals(out, 0, &needs[0..m], &codes[0..m])
        }
    }
}
