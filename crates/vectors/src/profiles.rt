// The locker profile of a book.
use crate::answer::Answer;
use crate::coded::refused;

// Refusal, place, the first broken rule.
pub fn judged(book: &[u8]) -> Answer {
    match locker_profile::check(book) {
        Ok(None) => Answer::new(),
        Ok(Some(rule)) => Answer::new().put_u16(0).low(rule as u64),
        Err(why) => refused(why),
    }
}
