// The settings among the kinds: the slot that each has in a book, and how long its frame is. Both stand in the heads of the table's rows.
// specs/Settings.antt says what they are; proofs/Settings.antt has their laws.
#![tactic(auto)]

ghost use Rattle.std.specs.Prelude.{◌≡◌, ◌/◌, ◌%◌, ◌≤◌};
ghost use Rattle.settings.specs.Settings.{slot_for, size_of, slot_of};

use table::kinds;

// What stands for no slot: the table's mark of an action, by which rows and laws have it, and which lies past every slot that a caller compares.
const NO_SLOT: usize = table::ACTION as usize;

// The slot of a kind; NO_SLOT where it is an action, or no kind at all.
pub fn slot_for(kind: u64) -> usize
    ensures { result ≡ slot_for kind }
{
    if 0 < kind {
        if kind <= table::KINDS {
            return (table::head_at((kind - 1) as usize) / 0x1000 % 256) as usize;
        }
    }
    NO_SLOT
}

// The head of the row that has a slot; 0 where no setting has it.
fn head_of(slot: usize) -> u32
    ensures { result / 16 % 16 ≡ size_of slot }
{
    match slot {
        // from commands.json: head_of
        0 => kinds::HEAD_1,
        1 => kinds::HEAD_2,
        2 => kinds::HEAD_3,
        3 => kinds::HEAD_4,
        4 => kinds::HEAD_5,
        5 => kinds::HEAD_6,
        6 => kinds::HEAD_7,
        7 => kinds::HEAD_11,
        8 => kinds::HEAD_12,
        9 => kinds::HEAD_13,
        10 => kinds::HEAD_14,
        11 => kinds::HEAD_15,
        12 => kinds::HEAD_16,
        13 => kinds::HEAD_17,
        14 => kinds::HEAD_18,
        15 => kinds::HEAD_19,
        16 => kinds::HEAD_20,
        17 => kinds::HEAD_21,
        18 => kinds::HEAD_24,
        19 => kinds::HEAD_25,
        20 => kinds::HEAD_26,
        21 => kinds::HEAD_27,
        22 => kinds::HEAD_28,
        23 => kinds::HEAD_31,
        24 => kinds::HEAD_33,
        25 => kinds::HEAD_34,
        26 => kinds::HEAD_35,
        27 => kinds::HEAD_38,
        28 => kinds::HEAD_39,
        // end: head_of
        _ => 0,
    }
}

// How long a frame of a slot is; 0 where no setting has the slot.
pub fn size_of(slot: usize) -> usize
    ensures { (result ≡ size_of slot) × (result ≤ 12) }
{
    (head_of(slot) / 16 % 16) as usize
}

// The slot of a frame; NO_SLOT where it is an action's, or does not decode.
pub fn slot_of(frame: &[u8]) -> usize
    ensures { result ≡ slot_of frame.now }
{
    let Ok(decoded) = decoder::decode(frame) else {
        return NO_SLOT;
    };
    slot_for(decoded.kind)
}
