// The text of a list of banks: a line for each bank, its need alone or its need and its code.
// specs/Lines.antt says what a line is and what it says, specs/Banks.antt what the lines of a text give together.
#![tactic(auto)]

ghost use Rattle.std.specs.Prelude.{◌≡◌, ◌+◌, ◌*◌, ◌-◌, [], min, None, Ok, Some};
ghost use Rattle.std.specs.List.{list_all, prefix_len};
ghost use Rattle.bank_list.specs.Lines.{body_length, body_of, is_blank, is_digit, is_inside, is_number, is_separator, number_of, numbered};
ghost use Rattle.bank_list.specs.Lines.{bank_of, line_of, need_said, proposal_said, skips};
ghost use Rattle.bank_list.specs.Banks.{Paired, Parsed, after_line, banks, listed, most_kept, parsed, put_at, with_code};

// What is wrong with a line: it cannot be read, its need is past 64 bits, its code is past a byte, it lacks a code where an earlier bank has one,
// or it has one where an earlier bank has none.
#[derive(Clone, Copy)]
pub enum Fault {
    NotABank,
    NeedPast,
    CodePast,
    CodeLacking,
    CodeSurplus,
}

// The first wrong line, counted from 1.
#[derive(Clone, Copy)]
pub struct WrongLine {
    pub line: usize,
    pub fault: Fault,
}

// How many banks are kept, with needs alone or with proposed codes.
#[derive(Clone, Copy)]
pub enum Found {
    Needs(usize),
    Proposals(usize),
}

// One more than a list may have tells as much as any number does.
pub const KEPT: usize = 33;

// The banks kept, with zeros behind them: arrays beside a count, since nothing here allocates.
#[derive(Clone, Copy)]
pub struct Listed {
    pub found: Found,
    pub needs: [u64; 33],
    pub codes: [u8; 33],
}

// What a line says that is not skipped: a need, and its code where it has one.
#[derive(Clone, Copy)]
struct Bank {
    need: u64,
    code: Option<u8>,
}

// ---- bytes and numbers

fn is_digit(b: u8) -> bool
    ensures { result ≡ is_digit b }
{
    b'0' <= b && b <= b'9'
}

fn is_blank(b: u8) -> bool
    ensures { result ≡ is_blank b }
{
    b == b' ' || b == b'\t'
}

// What may stand between two numbers.
fn is_separator(b: u8) -> bool
    ensures { result ≡ is_separator b }
{
    is_blank(b) || b == b','
}

// How many digits stand at the start.
fn digits(s: &[u8]) -> usize
    ensures { result ≡ prefix_len is_digit s.now }
{
    s.iter().take_while(|b| is_digit(**b)).count()
}

// How many bytes stand before the first newline.
fn line_length(s: &[u8]) -> usize
    ensures { result ≡ prefix_len is_inside s.now }
{
    s.iter().take_while(|b| **b != b'\n').count()
}

// A number with a digit more, or that it is past 64 bits.
fn with_digit(value: u64, digit: u8) -> Option<u64>
    ensures { result ≡ numbered (10 * value + (digit - 48)) }
{
    value
        .checked_mul(10)?
        .checked_add(digit.saturating_sub(b'0') as u64)
}

// The number that digits say.
fn number_of(digits: &[u8]) -> Option<u64>
    ensures { result ≡ numbered (number_of digits.now) }
{
    let mut value: u64 = 0;
    for digit in digits {
        value = with_digit(value, *digit)?;
    }
    Some(value)
}

fn is_number(s: &[u8]) -> bool
    ensures { result ≡ is_number s.now }
{
    let n = digits(s);
    n != 0 && n == s.len()
}

// ---- lines

fn need_said(need: Option<u64>) -> Result<Bank, Fault>
    ensures { result ≡ need_said need }
{
    let need = need.ok_or(Fault::NeedPast)?;
    Ok(Bank { need, code: None })
}

fn proposal_said(need: Option<u64>, code: Option<u64>) -> Result<Bank, Fault>
    ensures { result ≡ proposal_said need code }
{
    let need = need.ok_or(Fault::NeedPast)?;
    match code {
        Some(c) if c < 256 => Ok(Bank {
            need,
            code: Some(c as u8),
        }),
        _ => Err(Fault::CodePast),
    }
}

// What a line says that is not skipped.
fn bank_said(body: &[u8]) -> Result<Bank, Fault>
    ensures { result ≡ bank_of body.now }
{
    let d = digits(body);
    if d == 0 {
        return Err(Fault::NotABank);
    }
    let need = number_of(&body[..d]);
    let Some((between, code)) = body[d..].split_first() else {
        return need_said(need);
    };
    if is_separator(*between) && is_number(code) {
        return proposal_said(need, number_of(code));
    }
    Err(Fault::NotABank)
}

fn all_blank(s: &[u8]) -> bool
    ensures { result ≡ list_all is_blank s.now }
{
    s.iter().all(|b| is_blank(*b))
}

fn is_skipped(body: &[u8]) -> bool
    ensures { result ≡ skips body.now }
{
    all_blank(body) || body[0] == b'#'
}

// A line without the carriage return that it may end in.
fn body(line: &[u8]) -> &[u8]
    ensures { result.now ≡ body_of line.now }
{
    line.strip_suffix(b"\r").unwrap_or(line)
}

// What a line says; a skipped one says nothing.
fn line_said(line: &[u8]) -> Result<Option<Bank>, Fault>
    ensures { result ≡ line_of (body_of line.now) }
{
    let body = body(line);
    if is_skipped(body) {
        return Ok(None);
    }
    Ok(Some(bank_said(body)?))
}

// ---- banks

// A count with one more, up to what is kept.
fn one_more(count: usize) -> usize
    ensures { result ≡ min (count + 1) most_kept }
{
    count.saturating_add(1).min(KEPT)
}

// A bank at its place; one that has no place is not kept.
fn put(l: Listed, found: Found, at: usize, need: u64, code: u8) -> Listed
    ensures { result ≡ put_at found at need code l }
{
    let mut needs = l.needs;
    let mut codes = l.codes;
    if at < KEPT {
        needs[at] = need;
        codes[at] = code;
    }
    Listed {
        found,
        needs,
        codes,
    }
}

fn empty() -> Listed
    ensures { Ok result ≡ listed (banks [] []) }
{
    Listed {
        found: Found::Needs(0),
        needs: [0; 33],
        codes: [0; 33],
    }
}

// What is found with one need more, on this line.
fn with_need(l: Listed, line: usize, need: u64) -> Result<Listed, WrongLine>
    ensures { (p : Parsed) → Paired p → Ok l ≡ listed p → result ≡ listed (after_line p line (with_code need None)) }
{
    match l.found {
        Found::Needs(count) => Ok(put(l, Found::Needs(one_more(count)), count, need, 0)),
        Found::Proposals(_) => Err(WrongLine {
            line,
            fault: Fault::CodeLacking,
        }),
    }
}

// What is found with one proposal more, on this line.
fn with_proposal(l: Listed, line: usize, need: u64, code: u8) -> Result<Listed, WrongLine>
    ensures { (p : Parsed) → Paired p → Ok l ≡ listed p → result ≡ listed (after_line p line (with_code need (Some code))) }
{
    match l.found {
        Found::Needs(count) => {
            if count == 0 {
                return Ok(put(l, Found::Proposals(1), 0, need, code));
            }
            Err(WrongLine {
                line,
                fault: Fault::CodeSurplus,
            })
        }
        Found::Proposals(count) => Ok(put(l, Found::Proposals(one_more(count)), count, need, code)),
    }
}

fn after_line(
    l: Listed,
    line: usize,
    said: Result<Option<Bank>, Fault>,
) -> Result<Listed, WrongLine>
    ensures { (p : Parsed) → Paired p → Ok l ≡ listed p → result ≡ listed (after_line p line said) }
{
    match said {
        Ok(None) => Ok(l),
        Ok(Some(bank)) => match bank.code {
            None => with_need(l, line, bank.need),
            Some(code) => with_proposal(l, line, bank.need, code),
        },
        Err(fault) => Err(WrongLine { line, fault }),
    }
}

// Reads the banks of a text, or its first wrong line. Lines done are counted, and not the next one's number, which a text of the greatest length would
// take past 64 bits. `split` tells how many parts it gives and that none has a newline, and not which bytes they are: so the lines are cut here.
pub fn read(text: &[u8]) -> Result<Listed, WrongLine>
    ensures { result ≡ listed (parsed text.now) }
{
    let mut l = empty();
    let mut done: usize = 0;
    let mut at: usize = 0;
    while at < text.len() {
        let rest = &text[at..];
        let n = line_length(rest);
        done += 1;
        l = after_line(l, done, line_said(&rest[..n]))?;
        at += n;
        if at < text.len() {
            at += 1;
        }
    }
    Ok(l)
}
