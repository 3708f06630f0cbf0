// What the program `profile` prints of a book behind its name: `yes`, the first broken rule, or a refusal.
// specs/Text.antt has the text; proofs/Longest.antt that none is longer than the output must be, proofs/Apart.antt that it tells which answer it is.
#![tactic(auto)]

ghost use Rattle.std.specs.Prelude.{◌≡◌, ◌≤◌, length};
ghost use Rattle.texts.specs.Written.{Puts};
ghost use Rattle.texts.specs.Whole.{told, laid};
ghost use Rattle.profile_text.specs.Text.{answer_text, longest, rule_word};

use locker_profile::Answer;
use texts::{put_byte, put_form, put_text};

// No text takes more, whatever the answer.
pub const LONGEST: usize = 43;

fn put_rule_word(out: &mut [u8], at: usize, rule: usize) -> usize
    ensures { Puts (rule_word rule) at out.old result out.new }
{
    match rule {
        1 => put_text(out, at, b"spreading_factor"),
        2 => put_text(out, at, b"width"),
        3 => put_text(out, at, b"rate"),
        4 => put_text(out, at, b"header"),
        5 => put_text(out, at, b"crc"),
        6 => put_text(out, at, b"syncword"),
        7 => put_text(out, at, b"optimisation"),
        _ => at,
    }
}

// The text at the start of `out`: how long it is, 0 where the output has fewer than `LONGEST` bytes and is left alone.
pub fn answer(answer: Answer, out: &mut [u8]) -> usize
    ensures value { result ≡ told longest (answer_text answer) out.old }
    ensures out_after { out.new ≡ laid longest (answer_text answer) out.old }
    ensures upper_bound { result ≤ length out.old }
{
    if out.len() < LONGEST {
        return 0;
    }
    match answer {
        Ok(None) => put_text(out, 0, b"yes\n"),
        Ok(Some(rule)) => {
            let numbers = [rule as u64];
            let a = put_form(out, 0, b"rule 0 ", &numbers);
            let b = put_rule_word(out, a, rule);
            put_byte(out, b, b'\n')
        }
        Err(why) => {
            let numbers = [why.number() as u64];
            put_form(out, 0, b"refused 0\n", &numbers)
        }
    }
}
