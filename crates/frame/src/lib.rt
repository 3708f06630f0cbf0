// A field of a frame: a number packed into bytes and read from them, by position, width and byte order.
// Which fields a command has is the table's; this crate knows no command.
#![tactic(auto)]

ghost use Rattle.std.specs.Prelude.{◌≡◌, true, false, MatchOption, ◌+◌, ◌-◌, ◌*◌, ◌/◌, ◌%◌, ◌^◌, ◌≤◌, ◌<◌};
ghost use Rattle.frame.specs.Field.{size, rank, place, bits, part, read, sound, Sound};
ghost use Rattle.frame.specs.Layout.{bytes, put, get};

// Bits 7 to 4 of byte 2 are first 2, lo 4, w 4; bytes 5 to 7 are first 5, lo 0, w 24. With le the low byte stands first.
#[derive(Clone, Copy, PartialEq, Eq, Debug)]
pub struct Field {
    pub first: usize,
    pub lo: usize,
    pub w: usize,
    pub le: bool,
}

impl Field {
    // The bytes that it takes.
    fn size(self) -> usize
        requires { self.w ≤ 64 }
        ensures { result ≡ size self }
    {
        (self.w + 7) / 8
    }
}

// Whether a field lies within 16 bytes, within its bytes' bits, and within 64 bits in all.
#[tactic(auto, unfolding(crate::specs::Field::sound))]
pub fn is_sound(f: Field) -> bool
    ensures { result ≡ sound 16 f }
{
    f.w <= 64 && f.first <= 16 && f.first + f.size() <= 16 && f.lo <= 8 && f.lo + f.w.min(8) <= 8
}

// A field that is sound.
#[derive(Clone, Copy)]
struct Placed {
    field: Field,
    ghost lies: { Sound 16 field },
}

impl Placed {
    fn of(f: Field) -> Option<Placed>
        ensures { MatchOption result (sound 16 f ≡ false) (λ p. (sound 16 f ≡ true) × (p.field ≡ f)) }
    {
        if is_sound(f) {
            Some(Placed { field: f })
        } else {
            None
        }
    }

    // Which byte of the value, 0 the lowest, stands in byte i.
    fn rank(self, i: usize) -> usize
        requires { (self.field.first ≤ i) × (i < self.field.first + size self.field) }
        ensures { result ≡ rank self.field i }
    {
        let f = self.field;
        if f.le {
            i - f.first
        } else {
            f.first + f.size() - 1 - i
        }
    }

    // The byte where byte k of the value stands.
    fn place(self, k: usize) -> usize
        requires { k < size self.field }
        ensures { result ≡ place self.field k }
    {
        let f = self.field;
        if f.le {
            f.first + k
        } else {
            f.first + f.size() - 1 - k
        }
    }

    // As many bits of v, from bit at on, as byte k of the field has.
    fn bits(self, k: usize, v: u64, at: usize) -> u64
        requires { (k < size self.field) × (at < 64) }
        ensures { result ≡ v / 2 ^ at % 2 ^ bits self.field k }
    {
        let left = self.field.w - 8 * k;
        (v >> at) % (1 << left.min(8))
    }

    // What the value v puts into byte i, one of the field's.
    fn part(self, v: u64, i: usize) -> u8
        requires { (self.field.first ≤ i) × (i < self.field.first + size self.field) }
        ensures { result ≡ part self.field v i }
    {
        let d = self.rank(i);
        let x = self.bits(d, v, 8 * d);
        (x << self.field.lo) as u8
    }

    fn put(self, s: &mut [u8], v: u64)
        ensures { s.new ≡ put s.old self.field v }
    {
        let f = self.field;
        let end = f.first + f.size();
        for i in f.first..end.min(s.len()) {
            s[i] |= self.part(v, i);
        }
    }

    #[tactic(auto, unfolding(crate::specs::Field::read_to, crate::specs::Field::read))]
    fn get(self, s: &[u8]) -> u64
        ensures { result ≡ read self.field (bytes s.now) }
    {
        let f = self.field;
        let mut acc = 0;
        for k in 0..f.size() {
            let b = byte_at(s, self.place(k));
            let x = self.bits(k, u64::from(b), f.lo);
            acc += x << (8 * k);
        }
        acc
    }
}

// `put`, `get`, `byte_at` and `is_sound` are no methods: the crates above, the benchmarks and docs/GUARANTEES.md call them by these names.
// The value v, cut to the field and ORed into the bytes; those that s lacks are lost, and so is a field that is none.
#[tactic(auto, unfolding(crate::specs::Layout::put))]
pub fn put(s: &mut [u8], f: Field, v: u64)
    ensures { s.new ≡ put s.old f v }
{
    if let Some(placed) = Placed::of(f) {
        placed.put(s, v);
    }
}

// Byte i, 0 past the end.
pub fn byte_at(s: &[u8], i: usize) -> u8
    ensures { result ≡ bytes s.now i }
{
    s.get(i).copied().unwrap_or(0)
}

// The number that the field holds; a byte that s lacks reads as 0, and so does a field that is none.
#[tactic(auto, unfolding(crate::specs::Layout::get))]
pub fn get(s: &[u8], f: Field) -> u64
    ensures { result ≡ get s.now f }
{
    match Placed::of(f) {
        Some(placed) => placed.get(s),
        None => 0,
    }
}
