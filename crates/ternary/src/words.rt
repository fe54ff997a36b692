ghost use Rattle.std.specs.Prelude.{◌≡◌, Some};
ghost use Rattle.ternary.specs.Marks.{mark_text};

use std::fmt;

// The most states that an automaton may have, and so the most codes of a table.
pub const MOST_STATES: usize = 512;

// The most entries that a table may have.
pub const MOST_ENTRIES: usize = 4096;

// The most bits that a code may have.
pub const MOST_BITS: u32 = 16;

// A state of an automaton, numbered from 0.
#[derive(Clone, Copy, PartialEq, Eq, Default, Debug)]
pub struct StateNo(pub u16);

impl From<StateNo> for usize {
    ghost from_gives = { λ state place. place ≡ state.0 };

    // The place of a state in a list with one place a state.
    fn from(state: StateNo) -> usize {
        state.0 as usize
    }
}

// The name by which a table knows a state: not its number, and found only in an image's code list or in a plan.
#[derive(Clone, Copy, PartialEq, Eq, Default, Debug)]
pub struct StateCode(pub u16);

// A byte that led to a state of class 1 to 255: its place in its piece, and the class.
#[derive(Clone, Copy, PartialEq, Eq, Default, Debug)]
pub struct Mark {
    pub place: u16,
    pub class: u8,
}

// As a mark is printed: its place and its class, in brackets.
impl fmt::Display for Mark {
    ghost output = { λ mark. Some (mark_text mark) };

    fn fmt<W: fmt::Write>(&self, f: &mut fmt::Formatter<W>) -> fmt::Result {
        let place = self.place;
        let class = self.class;
        write!(f, "({place}, {class})")
    }
}

// What a walk over a piece answers: the bytes taken, the marks written, the code reached, whether marks
// stopped it, and the searches made.
#[derive(Clone, Copy, PartialEq, Eq, Debug)]
pub struct Progress {
    pub taken: usize,
    pub marks: usize,
    pub code: StateCode,
    pub marks_full: bool,
    pub searches: usize,
}
