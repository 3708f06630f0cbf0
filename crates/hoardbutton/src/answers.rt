// What a call says, in numbers: done with a value, or a refusal with its place.
ghost use Rattle.std.specs.Prelude.{◌≡◌};
ghost use Rattle.hoardbutton.specs.Answers.{low, done_c, refused_c, answer_c};

use refusal::Refusal;

// Done, with the bytes written where a call writes, the number of banks where it judges or finds widths, the broken rule where it judges a profile;
// or a refusal with its place.
#[repr(C)]
#[derive(Clone, Copy)]
pub struct HbAnswer {
    pub refusal: u32,
    pub place: u32,
    pub value: u64,
}

// The low 32 bits.
pub(crate) fn low(x: u64) -> u32
    ensures { result ≡ low x }
{
    (x % 0x1_0000_0000) as u32
}

pub(crate) fn done(value: u64) -> HbAnswer
    ensures { result ≡ done_c value }
{
    HbAnswer {
        refusal: 0,
        place: 0,
        value,
    }
}

pub(crate) fn refused(why: Refusal) -> HbAnswer
    ensures { result ≡ refused_c why }
{
    HbAnswer {
        refusal: why.number(),
        place: low(why.place() as u64),
        value: 0,
    }
}

// What a call says that counts something: the count, or the refusal.
pub(crate) fn answered(a: Result<usize, Refusal>) -> HbAnswer
    ensures { result ≡ answer_c a }
{
    match a {
        Ok(n) => done(n as u64),
        Err(why) => refused(why),
    }
}
