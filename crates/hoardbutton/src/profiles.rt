// The locker profile of a book.
ghost use Rattle.std.specs.Prelude.{◌≡◌};
ghost use Rattle.locker_profile.specs.Profile.{answer_for};
ghost use Rattle.hoardbutton.specs.Profiles.{profile_c};

use crate::answers::{HbAnswer, done, refused};
use locker_profile::Answer;

fn answered(a: Answer) -> HbAnswer
    ensures { result ≡ profile_c a }
{
    match a {
        Ok(None) => done(0),
        Ok(Some(rule)) => done(rule as u64),
        Err(why) => refused(why),
    }
}

#[unsafe(no_mangle)]
pub extern "C" fn hb_profile(book: &[u8]) -> HbAnswer
    ensures { result ≡ profile_c (answer_for book.now) }
{
    answered(locker_profile::check(book))
}
