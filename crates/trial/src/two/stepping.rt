// The walk over a two-byte and a one-byte table as the rules word it, coded apart from the library's.
use crate::two::carried::{meets, meets_second};
use crate::verdict::accepts;
use pairs::pair::PairEntry;
use pairs::stride::Stride;
use std::alloc::{AllocError, Global};
use ternary::entry::Entry;
use ternary::refusal::Refusal;
use ternary::words::{Mark, Progress, StateCode};

// How a walk ends, or that it goes on.
#[derive(Clone, Copy, PartialEq, Eq)]
enum Turn {
    On,
    // all bytes are taken
    Whole,
    // a mark has no slot
    Full,
    // a search met no entry
    Missing,
}

// Two tables, and how far a walk over them has come.
#[derive(Drop)]
struct Steps<'a> {
    pairs: &'a [PairEntry],
    entries: &'a [Entry],
    slots: usize,
    code: StateCode,
    taken: usize,
    searches: usize,
    marks: Vec<Mark>,
}

// What comes of a walk: the answer, and the marks that are written.
#[derive(Drop)]
pub struct Stepped {
    pub answer: Result<Progress, Refusal>,
    pub marks: Vec<Mark>,
}

// Walks over a piece of no more than 65,536 bytes from a code, with so many slots.
pub fn step_through(
    heap: Global,
    pairs: &[PairEntry],
    entries: &[Entry],
    code: StateCode,
    piece: &[u8],
    slots: usize,
) -> Result<Stepped, AllocError> {
    let mut steps = Steps {
        pairs,
        entries,
        slots,
        code,
        taken: 0,
        searches: 0,
        marks: Vec::new(heap),
    };
    let mut turn = Turn::On;
    for _ in 0..=piece.len() {
        if turn == Turn::On {
            turn = steps.turn(piece)?;
        }
    }
    let progress = Progress {
        taken: steps.taken,
        marks: steps.marks.len(),
        code: steps.code,
        marks_full: turn == Turn::Full,
        searches: steps.searches,
    };
    Ok(Stepped {
        answer: if turn == Turn::Missing {
            Err(Refusal::NoEntry(progress))
        } else {
            Ok(progress)
        },
        marks: steps.marks,
    })
}

impl Steps<'_> {
    // Takes the next bytes of a piece.
    fn turn(&mut self, piece: &[u8]) -> Result<Turn, AllocError> {
        match piece.get(self.taken..) {
            Some([byte]) => self.single(*byte),
            Some([byte, second, ..]) => self.double(*byte, *second),
            _ => Ok(Turn::Whole),
        }
    }

    // What the one-byte table has for a byte.
    fn searched(&mut self, byte: u8) -> Option<Entry> {
        self.searches = self.searches.saturating_add(1);
        let found = self.entries.iter().find(|e| accepts(e, self.code, byte));
        found.copied()
    }

    // What the two-byte table has for two bytes.
    fn pair_searched(&mut self, byte: u8, second: u8) -> Option<PairEntry> {
        self.searches = self.searches.saturating_add(1);
        let code = self.code;
        let found = self
            .pairs
            .iter()
            .find(|e| meets(e, code, byte) && meets_second(e, second));
        found.copied()
    }

    // Takes so many bytes, if the mark of the last has a slot.
    fn take(&mut self, bytes: usize, next: StateCode, class: u8) -> Result<bool, AllocError> {
        let taken = self.taken.saturating_add(bytes);
        if class != 0 {
            if self.marks.len() == self.slots {
                return Ok(false);
            }
            let place = u16::try_from(taken.saturating_sub(1)).unwrap_or(u16::MAX);
            self.marks.push(Mark { place, class })?;
        }
        self.taken = taken;
        self.code = next;
        Ok(true)
    }

    // The last byte of a piece.
    fn single(&mut self, byte: u8) -> Result<Turn, AllocError> {
        let Some(entry) = self.searched(byte) else {
            return Ok(Turn::Missing);
        };
        let fits = self.take(1, entry.next(), entry.class())?;
        Ok(if fits { Turn::On } else { Turn::Full })
    }

    // Two bytes, or the first of them alone.
    fn double(&mut self, byte: u8, second: u8) -> Result<Turn, AllocError> {
        let Some(pair) = self.pair_searched(byte, second) else {
            return Ok(Turn::Missing);
        };
        let entry = pair.entry();
        let bytes = match pair.stride() {
            Stride::One => 1,
            Stride::Two => 2,
        };
        if self.take(bytes, entry.next(), entry.class())? {
            return Ok(Turn::On);
        }
        if bytes == 1 {
            return Ok(Turn::Full);
        }
        match self.searched(byte) {
            None => Ok(Turn::Missing),
            Some(first) => {
                if first.class() == 0 {
                    let _ = self.take(1, first.next(), 0)?;
                }
                Ok(Turn::Full)
            }
        }
    }
}
