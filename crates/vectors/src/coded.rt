// The decoder and the checked builder.
use crate::answer::Answer;
use crate::request::u64_at;
use refusal::Refusal;

pub fn refused(why: Refusal) -> Answer {
    Answer::new()
        .low(why.number() as u64)
        .low(why.place() as u64)
}

fn arguments(a: Answer, v: [u64; 9]) -> Answer {
    let mut all = a;
    for x in v {
        all = all.put_u64(x);
    }
    all
}

// Refusal, place, kind, count, four zeros, the nine arguments.
pub fn decoded(frame: &[u8]) -> Answer {
    match decoder::decode(frame) {
        Ok(d) => {
            let head = Answer::new().put_u16(0).low(d.kind).low(d.count as u64);
            arguments(head.put_u32(0), d.args)
        }
        Err(why) => refused(why),
    }
}

// Twelve arguments, which stand behind the kind.
fn given(p: &[u8]) -> [u64; 12] {
    let mut args = [0u64; 12];
    for i in 0..12 {
        args[i] = u64_at(p, 8 * i + 8);
    }
    args
}

// Refusal, place, length, the frame. The payload has the kind and then the arguments, `count` of them.
pub fn built(count: usize, p: &[u8]) -> Answer {
    let args = given(p);
    if 12 < count {
        return Answer::new();
    }
    match builder::checked(u64_at(p, 0), &args[0..count]) {
        Ok(b) => Answer::new().put_u16(0).low(b.len as u64).bytes(&b.bytes),
        Err(why) => refused(why),
    }
}
