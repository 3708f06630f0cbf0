// Which width of the FSK receive filter each bank gets: a proposed list of codes is judged, or the right one is found.
// width_rule has the rule, specs/Lists.antt what is answered, and proofs/Laws.antt what follows from them.
// A width is 40 MHz over a divisor, so the narrowest is that of the greatest divisor, and a need in Hz bounds the divisor.
#![tactic(auto)]

ghost use Rattle.std.specs.Prelude.{◌≡◌, cond, [], ◌∷◌, ◌++◌, ◌+◌, ◌/◌, ◌≤◌, ◌<◌, get_or, length, take, Contains, EachIndex, IfSome, MatchOption, slice_index};
ghost use Rattle.rx_bw.specs.Width.{divisor, is_named, name_of};
ghost use Rattle.bank_widths.specs.Lists.{found, found_in, if_done, judged, judged_from, lengths_right, right_codes};
ghost use Rattle.bank_widths.specs.Keys.{choice_for, key_of, limit_of, listed_keys};

use refusal::Refusal;

// ---- widths

// The first factor of a code's divisor.
fn factor(code: u8) -> u64
    ensures { result ≡ get_or (13 ∷ 14 ∷ 15 ∷ 18 ∷ []) (code / 64) 0 }
{
    match code / 64 {
        0 => 13,
        1 => 14,
        2 => 15,
        _ => 18,
    }
}

// The divisor of the width that a code has by the rule, listed or not.
pub fn divisor(code: u8) -> u64
    ensures { result ≡ divisor code }
{
    let first = factor(code);
    let second = (code / 8 % 8) as u64 + 1;
    (first * second) << (code % 8)
}

// ---- keys: a listed code behind its divisor in one number, so that the greatest key is that of the narrowest width

fn key_of(code: u8) -> u64
    ensures { result ≡ key_of code }
{
    divisor(code) * 256 + code as u64
}

// Puts the key of a code behind the `count` that stand there if the code has a name, and tells how many there are then.
#[tactic(auto, using(crate::proofs::Keys::key_steps))]
fn put_key(keys: &mut [u64], count: usize, code: u8, name: u16) -> usize
    requires { (count < length keys.old) × (name ≡ name_of code) }
    ensures keys_after { take result keys.new ≡ take count keys.old ++ cond (is_named code) (key_of code ∷ []) [] }
    ensures upper_bound { (result ≤ count + 1) × (length keys.new ≡ length keys.old) }
{
    if name == 0 {
        return count;
    }
    keys[count] = key_of(code);
    count + 1
}

// The greatest key up to a limit.
fn greatest(keys: &[u64], limit: u64) -> Option<u64>
    ensures held { IfSome result (Contains keys.now) }
    ensures within { IfSome result (λ m. m ≤ limit) }
    ensures most { MatchOption result (EachIndex keys.now (λ k. limit < slice_index keys.now k)) (λ m. EachIndex keys.now (λ k. slice_index keys.now k ≤ limit → slice_index keys.now k ≤ m)) }
{
    keys.iter().copied().filter(|key| *key <= limit).max()
}

// The greatest key that a width of at least the need can have.
#[tactic(auto, unfolding(crate::specs::Keys::limit_of))]
fn limit_of(need: u64) -> u64
    ensures { result ≡ limit_of need }
{
    if need == 0 {
        u64::MAX
    } else {
        40_000_000 / need * 256 + 255
    }
}

// The keys of all listed codes but `BwAuto`, in an array that is lent: one that is handed back by value stands on the stack three times. They stay: without
// them each need goes through all 256 names, and 32 banks take 9.2 µs instead of 2.8; and the library has no heap.
#[derive(Clone, Copy)]
struct ListedKeys<'a> {
    keys: &'a [u64],
    ghost listed: { keys.now ≡ listed_keys },
}

// Puts the keys at the front of an array, and tells how many there are.
fn put_keys(all: &mut [u64; 256]) -> usize
    ensures { (result ≤ 256) × (take result all.new ≡ listed_keys) }
{
    let names = rx_bw::rx_bw_names();
    let mut count: usize = 0;
    for (code, name) in names.iter().enumerate() {
        count = put_key(all, count, code as u8, *name);
    }
    count
}

impl ListedKeys<'_> {
    // The right code for a need, or that there is none.
    fn choice_for(self, need: u64) -> Option<u8>
        ensures { result ≡ choice_for need }
    {
        let best = greatest(self.keys, limit_of(need))?;
        Some((best % 256) as u8)
    }
}

// ---- banks

// Judges the codes bank by bank.
fn judge(keys: ListedKeys, needs: &[u64], codes: &[u8]) -> Result<usize, Refusal>
    requires { length needs.now ≡ length codes.now }
    ensures { result ≡ judged_from 0 needs.now codes.now }
{
    for (i, need) in needs.iter().enumerate() {
        let right = keys.choice_for(*need).ok_or(Refusal::NoWidth(i + 1))?;
        if codes[i] != right {
            return Err(Refusal::NotNarrowest(i + 1));
        }
    }
    Ok(needs.len())
}

// Puts the right codes at the front of `codes`, up to the first bank that cannot be served: where all can be, they stand there.
fn put_codes(keys: ListedKeys, needs: &[u64], codes: &mut [u8]) -> Result<usize, Refusal>
    requires { length needs.now ≤ length codes.old }
    ensures value { result ≡ judged_from 0 needs.now (right_codes needs.now) }
    ensures needs_after { if_done result (take (length needs.now) codes.new) (right_codes needs.now) ≡ right_codes needs.now }
{
    for (i, need) in needs.iter().enumerate() {
        codes[i] = keys.choice_for(*need).ok_or(Refusal::NoWidth(i + 1))?;
    }
    Ok(needs.len())
}

// ---- lists

// Whether there are 1 to 32 banks, and as many in the other list.
#[tactic(auto, unfolding(crate::specs::Lists::lengths_right))]
fn lengths_right(n: usize, m: usize) -> bool
    ensures { result ≡ lengths_right n m }
{
    1 <= n && n <= 32 && n == m
}

// Whether each code is the narrowest listed one whose width is at least its bank's need: how many banks there are, or why not all are right; 19 and 20
// have the first such bank, counted from 1.
pub fn check(needs: &[u64], codes: &[u8]) -> Result<usize, Refusal>
    ensures { result ≡ judged needs.now codes.now }
{
    if !lengths_right(needs.len(), codes.len()) {
        return Err(Refusal::ListLength);
    }
    let mut all = [0u64; 256];
    let n = put_keys(&mut all);
    judge(ListedKeys { keys: &all[..n] }, needs, codes)
}

// Finds the right code of each bank. The codes go through a list of our own, so that a bank that cannot be served leaves `out` alone.
pub fn find(needs: &[u64], out: &mut [u8]) -> Result<usize, Refusal>
    ensures value { result ≡ found needs.now (length out.old) }
    ensures out_after { out.new ≡ found_in needs.now out.old }
{
    if !lengths_right(needs.len(), out.len()) {
        return Err(Refusal::ListLength);
    }
    let mut all = [0u64; 256];
    let n = put_keys(&mut all);
    let mut codes = [0u8; 32];
    let count = put_codes(ListedKeys { keys: &all[..n] }, needs, &mut codes)?;
    spans::write(out, 0, &codes[..needs.len()]);
    Ok(count)
}
