// Which codes a field takes: lists of codes as words of bits, limits, and whether a value fits its field.
#![tactic(auto)]

ghost use Rattle.std.specs.Prelude.{◌≡◌, [], ◌^◌, ltb, get_or};
ghost use Rattle.table.specs.Codes.{lists, is_in, takes};
ghost use Rattle.table.specs.Number.{codes_of};
ghost use Rattle.codes.specs.Allowed.{fits, allows, accepts};

// from commands.json: lists
// The codes of `RxBw`, 64 to a word: bit v % 64 of word v / 64 is set where the enum has the code v.
const RX_BW_0: u64 = 0x0000_00FF_FFBE_0001;

const RX_BW_64: u64 = 0x0000_00FF_FFFE_0001;

const RX_BW_128: u64 = 0x0000_00FF_FF01_0101;

const RX_BW_192: u64 = 0x8000_00FF_DFBF_0101;

// The lists of codes by number, 64 to a word: `Sf`, `PblLenDetect`, `Crc`, `LoraCadExitMode`, `RxBw`.
const COUNT: usize = 5;

const LISTS: [[u64; 4]; COUNT] = [
    [0x1FE0, 0, 0, 0],
    [0x1_0101_0101, 0, 0, 0],
    [0x1E1F, 0, 0, 0],
    [0x1_0003, 0, 0, 0],
    [RX_BW_0, RX_BW_64, RX_BW_128, RX_BW_192],
];
// end: lists

// Whether a list has the code v.
fn is_listed(list: usize, v: u64) -> bool
    ensures { result ≡ is_in v (get_or lists list []) }
{
    list < COUNT && v < 256 && (LISTS[list][(v / 64) as usize] >> (v % 64)) % 2 == 1
}

// Whether the field takes v, so far as codes and limits go.
pub fn is_taken(number: u32, v: u64) -> bool
    ensures { result ≡ takes (codes_of number) v }
{
    match number % 0x800 {
        0 => true,
        limit @ 1..=255 => v <= u64::from(limit),
        list @ 256.. => is_listed((list - 256) as usize, v),
    }
}

// Whether v has at most w bits.
fn is_within(w: usize, v: u64) -> bool
    ensures { result ≡ ltb v (2 ^ w) }
{
    64 <= w || v >> w == 0
}

// Whether v has at most w bits and the field takes it.
fn is_fitting(w: usize, number: u32, v: u64) -> bool
    ensures { result ≡ fits w number v }
{
    is_within(w, v) && is_taken(number, v)
}

// Whether the checked builder takes v for the field.
pub fn is_allowed(number: u32, v: u64) -> bool
    ensures { result ≡ allows number v }
{
    is_fitting(table::narrow_field(number).w, number, v)
}

// Whether the plain builder takes v for the field: a number may be any, since it is masked.
pub fn is_accepted(number: u32, v: u64) -> bool
    ensures { result ≡ accepts number v }
{
    number / 0x800 % 2 == 0 || is_fitting(table::plain_field(number).w, number, v)
}
