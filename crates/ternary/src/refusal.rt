ghost use Rattle.std.specs.Prelude.{◌≡◌, Some};
ghost use Rattle.ternary.specs.Refusals.{number, offset, refusal_text};

use crate::words::{Progress, StateNo};
use std::error::Error;
use std::fmt;

// Why a call declines.
#[derive(Clone, Copy, PartialEq, Eq, Debug, Drop)]
pub enum Refusal {
    // The automaton breaks a limit or a buffer length.
    BadAutomaton,
    // A build or a plan has too little working memory.
    WorkTooShort,
    // An output buffer is too short.
    OutputTooShort,
    // A build needs more entries than an image may have.
    TooManyEntries,
    // A card has no free place.
    CardFull,
    // A table has more entries than the card's capacity.
    CardTooSmall,
    // A walk met a code and a byte without an entry: how far it came.
    NoEntry(Progress),
    // A scanner was never loaded.
    NotLoaded,
    // A piece is longer than a walk may take.
    PieceTooLong,
    // A file or an image is malformed: the offset of the first field that breaks a rule.
    Malformed(usize),
    // An automaton and an image differ in the number of states or in the start state.
    Mismatch,
    // A table decides otherwise than its automaton: the lowest state, then the lowest byte, where it does.
    WrongEntry(StateNo, u8),
    // A two-byte table decides otherwise than its automaton: the lowest state, then the lowest first byte, then the lowest
    // second byte, where it does.
    WrongPair(StateNo, u8, u8),
    // A part that is named by place and length leaves its buffer.
    OutsideBuffer,
    // No coach has the number, or it is open where it must not be, or the reverse.
    BadCoach,
    // Bytes of a coach are waiting already.
    BytesWaiting,
    // A turn's quota is out of bounds, its marks are fewer, or the bytes that it comes to are not in its buffer.
    BadTurn,
    // A pattern text breaks the syntax: the number of the pattern, counted from 1, and the place in it of the first token
    // that cannot follow those before it, or of its end.
    WrongPattern(usize, usize),
    // There are no patterns, or over 32, over 256 positions in all, or parentheses over 32 deep.
    PatternsTooLarge,
    // Over 512 sets of positions can be reached.
    TooManySets,
    // The two images of a load differ in the code width or in the code of a state.
    CodesDiffer,
}

impl Refusal {
    // The number by which a refusal is known outside.
    pub fn number(&self) -> u8
        ensures { result ≡ number self.now }
    {
        match self {
            Refusal::BadAutomaton => 1,
            Refusal::WorkTooShort => 2,
            Refusal::OutputTooShort => 3,
            Refusal::TooManyEntries => 4,
            Refusal::CardFull => 5,
            Refusal::CardTooSmall => 6,
            Refusal::NoEntry(_) => 7,
            Refusal::NotLoaded => 8,
            Refusal::PieceTooLong => 9,
            Refusal::Malformed(_) => 10,
            Refusal::Mismatch => 11,
            Refusal::WrongEntry(_, _) => 12,
            Refusal::WrongPair(_, _, _) => 12,
            Refusal::OutsideBuffer => 14,
            Refusal::BadCoach => 16,
            Refusal::BytesWaiting => 17,
            Refusal::BadTurn => 18,
            Refusal::WrongPattern(_, _) => 19,
            Refusal::PatternsTooLarge => 20,
            Refusal::TooManySets => 21,
            Refusal::CodesDiffer => 22,
        }
    }

    // The offset at which a file or an image is malformed; other refusals have none.
    pub fn offset(&self) -> Option<usize>
        ensures { result ≡ offset self.now }
    {
        match self {
            Refusal::Malformed(at) => Some(*at),
            _ => None,
        }
    }
}

// As a refusal is printed: its number, and the offset where a file or an image is malformed.
impl fmt::Display for Refusal {
    ghost output = { λ why. Some (refusal_text why) };

    fn fmt<W: fmt::Write>(&self, f: &mut fmt::Formatter<W>) -> fmt::Result {
        let number = self.number();
        match self.offset() {
            Some(at) => write!(f, "refused {number} at {at}"),
            None => write!(f, "refused {number}"),
        }
    }
}

impl Error for Refusal {}
