// The owner table beside a book that two sides share: whose each slot is, and how many bytes of frames each side may hold.
// specs/Owners.antt says when a table is right; proofs/Laws.antt what follows from that.
#![tactic(auto)]

ghost use Rattle.std.specs.Prelude.{◌≡◌, not, [], eqb};
ghost use Rattle.settings.specs.Settings.{slot_for};
ghost use Rattle.owners.specs.Owners.{each_side, is_side, joined, owner_of, owner_table, quota_of, spare_first, table_right};

use settings::slot_for;

// Whether a number names a side.
pub fn is_side(w: u64) -> bool
    ensures { result ≡ is_side w }
{
    w == 1 || w == 2
}

// A side's quota, of both.
pub fn quota_of(quota1: u64, quota2: u64, side: u64) -> u64
    ensures { result ≡ quota_of (owner_table [] quota1 quota2) side }
{
    if side == 1 { quota1 } else { quota2 }
}

// The owner of a slot; 0 where the table has no entry for it.
pub fn owner_of(owners: &[u8], slot: usize) -> u64
    ensures { result ≡ owner_of owners.now slot }
{
    frame::byte_at(owners, slot) as u64
}

// Whether every entry is a side.
fn each_side(owners: &[u8]) -> bool
    ensures { result ≡ each_side owners.now }
{
    for owner in owners {
        if !is_side(*owner as u64) {
            return false;
        }
    }
    true
}

// Whether every entry is side 1's whose slot no setting has.
fn spare_first(owners: &[u8]) -> bool
    ensures { result ≡ spare_first owners.now }
{
    for i in table::SETTINGS..owners.len() {
        if owners[i] != 1 {
            return false;
        }
    }
    true
}

// Whether two kinds have different owners.
fn is_split(owners: &[u8], short: u64, long: u64) -> bool
    ensures { result ≡ not (eqb (owner_of owners.now (slot_for short)) (owner_of owners.now (slot_for long))) }
{
    owner_of(owners, slot_for(short)) != owner_of(owners, slot_for(long))
}

// Whether the two forms of each setting have one owner.
fn is_joined(owners: &[u8]) -> bool
    ensures { result ≡ joined owners.now }
{
    let forms = table::forms();
    for [short, long] in forms {
        if is_split(owners, short, long) {
            return false;
        }
    }
    true
}

// Whether the table is right beside a book of so many slots with room for so many bytes of frames. The quotas are not added, since their sum
// may be past 64 bits.
pub fn is_right(owners: &[u8], slots: usize, room: u64, quota1: u64, quota2: u64) -> bool
    ensures { result ≡ table_right slots room (owner_table owners.now quota1 quota2) }
{
    if owners.len() != slots {
        return false;
    }
    if !each_side(owners) {
        return false;
    }
    if !spare_first(owners) {
        return false;
    }
    if !is_joined(owners) {
        return false;
    }
    if quota1 > room {
        return false;
    }
    quota2 <= room - quota1
}
