// The builders by number: the frame of a kind for its arguments, by the one table, or why there is none. `checked` takes what the kind's
// fields, limits and enums allow; `plain` takes what the typed builder could be called with, and masks.
// The laws that tie them to each other and to the decoder are codec's (proofs/Laws.antt).
#![tactic(auto)]

ghost use Rattle.std.specs.Prelude.{ℕ, Bool, List, ◌≡◌, ◌∷◌, ◌≤◌, ◌<◌, length, replicate};
ghost use Rattle.frame.specs.Layout.{puts};
ghost use Rattle.table.specs.Table.{kinds, count_of, numbers_of, plain_row};
ghost use Rattle.builder.specs.Building.{first_misfit, builds, checked, plain_by, built};
ghost use Rattle.builder.specs.Ways.{Gives, row_by, made_at};
ghost use Rattle.builder.specs.Gives.{plain-gives, narrow-gives};
ghost use Rattle.frame.specs.declared.Field.{Field};
ghost use Rattle.table.specs.Number.{narrow_of, plain_of};
ghost use Rattle.table.specs.Narrowed.{frame_of};
ghost use Rattle.codes.specs.Allowed.{allows, accepts};

use frame::Field;
use refusal::Refusal;

// A frame's length, and its bytes; zeros follow. An array with its length, since the library has no heap.
#[derive(Clone, Copy)]
pub struct Built {
    pub len: usize,
    pub bytes: [u8; 12],
}

// One of the two builders: the fields that it puts into, and the arguments that it takes.
trait Way {
    ghost takes: { ℕ → ℕ → Bool };

    ghost field: { ℕ → Field };

    ghost frame: { List ℕ → List ℕ → List ℕ };

    // The field of a cell.
    fn field_of(number: u32) -> Field
        ensures { result ≡ field number };

    // Whether the builder takes v for the field.
    fn is_fine(number: u32, v: u64) -> bool
        ensures { result ≡ takes number v };

    // Its fields lie in the frame, and give it.
    ghost makes: { Gives field frame };
}

// Any number, masked, and any code of an enum.
struct PlainWay;

impl Way for PlainWay {
    ghost takes = { accepts };

    ghost field = { plain_of };

    ghost frame = { plain_row };

    fn field_of(number: u32) -> Field {
        table::plain_field(number)
    }

    fn is_fine(number: u32, v: u64) -> bool {
        codes::is_accepted(number, v)
    }

    ghost makes = { plain-gives };
}

// What the narrowed fields allow.
struct CheckedWay;

impl Way for CheckedWay {
    ghost takes = { allows };

    ghost field = { narrow_of };

    ghost frame = { frame_of };

    fn field_of(number: u32) -> Field {
        table::narrow_field(number)
    }

    fn is_fine(number: u32, v: u64) -> bool {
        codes::is_allowed(number, v)
    }

    ghost makes = { narrow-gives };
}

// The opcode and the arguments put into their fields; zeros follow.
fn packed<W: Way>(row: [u32; 13], op: u64, args: &[u64]) -> [u8; 12]
    requires { (count_of row ≤ 9) × (length args.now ≡ count_of row) }
    ensures { result ≡ puts (replicate 12 0) (row_by W.field row) (op ∷ args.now) }
{
    let mut out = [0u8; 12];
    frame::put(&mut out, W::field_of(table::OPCODE), op);
    for (j, v) in args.iter().enumerate() {
        frame::put(&mut out, W::field_of(row[4 + j]), *v);
    }
    out
}

// The first argument that its field does not take, or that is missing or surplus, counted from 1.
fn first_misfit<W: Way>(row: [u32; 13], args: &[u64]) -> Option<usize>
    requires { count_of row ≤ 9 }
    ensures { result ≡ first_misfit W.takes 1 (numbers_of row) args.now }
{
    let n = row[3] as usize;
    for j in 0..n {
        if args.len() <= j || !W::is_fine(row[4 + j], args[j]) {
            return Some(j + 1);
        }
    }
    if n < args.len() { Some(n + 1) } else { None }
}

// The frame of the row at a place, or its first argument that does not fit.
fn build<W: Way>(i: usize, args: &[u64]) -> Result<Built, Refusal>
    requires { i < kinds }
    ensures { result ≡ built (made_at W.takes W.frame i args.now) }
{
    let row = table::row_at(i);
    if let Some(n) = first_misfit::<W>(row, args) {
        return Err(Refusal::ArgumentOutside(n));
    }
    let bytes = packed::<W>(row, u64::from(row[0]), args);
    Ok(Built {
        len: row[1] as usize,
        bytes,
    })
}

// The frame of a kind, or why there is none.
fn by_kind<W: Way>(kind: u64, args: &[u64]) -> Result<Built, Refusal>
    ensures { result ≡ built (builds W.takes W.frame kind args.now) }
{
    if kind == 0 || table::KINDS < kind {
        return Err(Refusal::NotAKind);
    }
    build::<W>((kind - 1) as usize, args)
}

// The frame of a kind for its arguments, or why there is none.
pub fn checked(kind: u64, args: &[u64]) -> Result<Built, Refusal>
    ensures { result ≡ built (checked kind args.now) }
{
    by_kind::<CheckedWay>(kind, args)
}

// The plain builder of a kind, called with numbers: those that fit no field are masked, and only what the typed builder could not be
// called with is refused.
pub fn plain(kind: u64, args: &[u64]) -> Result<Built, Refusal>
    ensures { result ≡ built (plain_by kind args.now) }
{
    by_kind::<PlainWay>(kind, args)
}
