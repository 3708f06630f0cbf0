// The receive widths of banks: a list of codes judged, or found.
ghost use Rattle.std.specs.Prelude.{◌≡◌, length};
ghost use Rattle.bank_widths.specs.Lists.{found, found_in, judged};
ghost use Rattle.hoardbutton.specs.Answers.{answer_c};

use crate::answers::{HbAnswer, answered};

#[unsafe(no_mangle)]
pub extern "C" fn hb_widths_check(needs: &[u64], codes: &[u8]) -> HbAnswer
    ensures { result ≡ answer_c (judged needs.now codes.now) }
{
    answered(bank_widths::check(needs, codes))
}

#[unsafe(no_mangle)]
pub extern "C" fn hb_widths_find(needs: &[u64], codes: &mut [u8]) -> HbAnswer
    ensures value { result ≡ answer_c (found needs.now (length codes.old)) }
    ensures codes_after { codes.new ≡ found_in needs.now codes.old }
{
    answered(bank_widths::find(needs, codes))
}
