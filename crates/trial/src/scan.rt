// What the calls have to answer, reckoned straight over an automaton's successors and classes, and not by the library.
use automaton::words::Automaton;
use std::alloc::{AllocError, Global};
use ternary::words::{Mark, StateNo};

// Where the run of an automaton stands.
#[derive(Clone, Copy)]
pub struct Scan<'a> {
    automaton: Automaton<'a>,
    state: StateNo,
}

// What comes of a piece: how many bytes are taken, their marks, and whether a mark did not fit.
#[derive(Drop)]
pub struct Scanned {
    pub taken: usize,
    pub marks: Vec<Mark>,
    pub full: bool,
}

// The successor of a state on a byte.
pub fn next(automaton: Automaton<'_>, state: StateNo, byte: u8) -> StateNo {
    let place = 256 * usize::from(state) + byte as usize;
    automaton.successors.get(place).copied().unwrap_or_default()
}

// The class of a state.
pub fn class(automaton: Automaton<'_>, state: StateNo) -> u8 {
    automaton
        .classes
        .get(usize::from(state))
        .copied()
        .unwrap_or_default()
}

impl<'a> Scan<'a> {
    // A run that stands at the start.
    pub fn new(automaton: Automaton<'a>) -> Scan<'a> {
        Scan {
            automaton,
            state: automaton.start,
        }
    }

    // The state that the run has come to.
    pub fn state(&self) -> StateNo {
        self.state
    }

    // Takes bytes of a piece, up to the first whose mark does not fit so many slots.
    pub fn feed(
        &mut self,
        heap: Global,
        piece: &[u8],
        slots: usize,
    ) -> Result<Scanned, AllocError> {
        let mut marks = Vec::new(heap);
        for (taken, byte) in piece.iter().enumerate() {
            let next = next(self.automaton, self.state, *byte);
            let class = class(self.automaton, next);
            if class != 0 && marks.len() == slots {
                return Ok(Scanned {
                    taken,
                    marks,
                    full: true,
                });
            }
            if class != 0 {
                let place = u16::try_from(taken).unwrap_or(u16::MAX);
                marks.push(Mark { place, class })?;
            }
            self.state = next;
        }
        Ok(Scanned {
            taken: piece.len(),
            marks,
            full: false,
        })
    }
}
