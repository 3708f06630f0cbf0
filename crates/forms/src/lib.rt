// The two forms of a setting: some can be sent in a short or in a long frame, and a book holds one of the two at a time.
// specs/Forms.antt says what that means; which kinds pair stands in the table.
#![tactic(auto)]

ghost use Rattle.std.specs.Prelude.{◌≡◌, ◌&&◌};
ghost use Rattle.settings.specs.Settings.{slot_for};
ghost use Rattle.contents.specs.Contents.{present_for};
ghost use Rattle.forms.specs.Forms.{in_both, other};

use settings::slot_for;

// The most bytes and the most frames that a list has which holds no setting in both its forms.
pub const MOST_BYTES: usize = 169;

pub const MOST_FRAMES: usize = 26;

// The slot of the other form of a slot's setting; the same slot where the setting has one form.
pub fn other_form(slot: usize) -> usize
    ensures { result ≡ other slot }
{
    for [short, long] in table::forms() {
        let short = slot_for(short);
        let long = slot_for(long);
        if slot == short {
            return long;
        }
        if slot == long {
            return short;
        }
    }
    slot
}

// Whether a header of so many slots has offsets for both kinds.
fn both_present(book: &[u8], slots: usize, short: u64, long: u64) -> bool
    ensures { result ≡ present_for slots book.now (slot_for short) && present_for slots book.now (slot_for long) }
{
    contents::offset_for(book, slots, slot_for(short)) != 0
        && contents::offset_for(book, slots, slot_for(long)) != 0
}

// Whether a header of so many slots has offsets for both forms of a setting.
pub fn both_forms(book: &[u8], slots: usize) -> bool
    ensures { result ≡ in_both (present_for slots book.now) }
{
    for [short, long] in table::forms() {
        if both_present(book, slots, short, long) {
            return true;
        }
    }
    false
}
