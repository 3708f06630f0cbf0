// What an argument of a program is, for programs that take names of files and a few options, and which inputs the names are.
// specs/Words.antt and specs/Places.antt have the rules.
#![tactic(auto)]

ghost use Rattle.std.specs.Prelude.{◌≡◌, ◌<◌, length, slice_get};
ghost use Rattle.arguments.specs.Words.{same_bytes, word_of};
ghost use Rattle.arguments.specs.Places.{names_of, place_at, places_of};

// What an argument is before `--`, behind which each is a name.
#[derive(Clone, Copy, Debug, PartialEq, Eq)]
pub enum Word {
    Name,
    Mark,
    Help,
    Version,
    Unknown,
}

// Whether both have the same bytes in the same order: `==`, under the name and the theorem of one outcome that the front and its edits have it by.
pub fn same_bytes(a: &[u8], b: &[u8]) -> bool
    ensures { result ≡ same_bytes a.now b.now }
{
    a == b
}

// Tests and no `match` on the byte strings: that one leaves a goal for each of some twenty ways through the bytes, and none is found.
#[tactic(auto, unfolding(crate::specs::Words::word_of, crate::specs::Words::is_option))]
pub fn word_of(arg: &[u8]) -> Word
    ensures { result ≡ word_of arg.now }
{
    if same_bytes(arg, b"--") {
        Word::Mark
    } else if same_bytes(arg, b"-h") || same_bytes(arg, b"--help") {
        Word::Help
    } else if same_bytes(arg, b"--version") {
        Word::Version
    } else if 1 < arg.len() && arg[0] == b'-' {
        Word::Unknown
    } else {
        Word::Name
    }
}

// What a program is given behind its name: so many arguments, and which of them is the mark, the first that is `--`, if one is.
#[derive(Clone, Copy, Debug, PartialEq, Eq)]
pub struct Inputs {
    pub given: usize,
    pub mark: Option<usize>,
}

// Where an input is: the argument that names it, or standard input where there is no name.
#[derive(Clone, Copy, Debug, PartialEq, Eq)]
pub enum Place {
    Argument(usize),
    StandardInput,
}

impl Inputs {
    // How many arguments are names.
    fn names(self) -> usize
        ensures { result ≡ length (names_of self.given self.mark) }
    {
        match self.mark {
            Some(mark) if 0 < mark && mark <= self.given => self.given - 1,
            _ => self.given,
        }
    }

    // How many inputs there are.
    pub fn count(self) -> usize
        ensures { result ≡ length (places_of self.given self.mark) }
    {
        let names = self.names();
        if names == 0 { 1 } else { names }
    }

    // The argument that is name i, counted from 0.
    fn argument(self, i: usize) -> usize
        requires { i < length (names_of self.given self.mark) }
        ensures { Some (Place.Argument result) ≡ slice_get (names_of self.given self.mark) i }
    {
        match self.mark {
            Some(mark) if 0 < mark && mark <= i + 1 => i + 2,
            _ => i + 1,
        }
    }

    // Where input i is, counted from 0; nowhere past the last.
    pub fn place(self, i: usize) -> Option<Place>
        ensures { result ≡ place_at self.given self.mark i }
    {
        if i < self.names() {
            Some(Place::Argument(self.argument(i)))
        } else if i == 0 {
            Some(Place::StandardInput)
        } else {
            None
        }
    }
}
