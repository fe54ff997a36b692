// Images in parts, and built ones.
use automaton::words::Automaton;
use builder::build::build;
use forest::plan::FIXED_WORK;
use image::reader::Image;
use image::writer::pack;
use std::alloc::{AllocError, Global};
use ternary::entry::Entry;
use ternary::refusal::Refusal;
use ternary::words::{MOST_ENTRIES, MOST_STATES, StateCode, StateNo};

// The bytes of the largest image.
const LARGEST_IMAGE: usize = 12 + 2 * MOST_STATES + 9 * MOST_ENTRIES;

// The bytes of an image, or why there are none.
pub type Made = Result<Vec<u8>, Refusal>;

// The parts of an image.
#[derive(Clone, Drop)]
pub struct Parts {
    pub width: u8,
    pub start: StateNo,
    pub codes: Vec<StateCode>,
    pub entries: Vec<Entry>,
}

impl Parts {
    // The parts that an image hands out.
    pub fn of(heap: Global, image: Image<'_>) -> Result<Parts, AllocError> {
        let header = image.header();
        Ok(Parts {
            width: header.width,
            start: header.start,
            codes: image.codes().collect(heap)?,
            entries: image.entries().collect(heap)?,
        })
    }

    // The code of a state, and 0 for a number that no state has.
    pub fn code(&self, state: StateNo) -> StateCode {
        self.codes
            .get(usize::from(state))
            .copied()
            .unwrap_or_default()
    }

    // The image of the parts.
    pub fn packed(&self, heap: Global) -> Result<Made, AllocError> {
        let mut bytes = vec![in heap; 0; LARGEST_IMAGE]?;
        let size = pack(
            self.width,
            self.start,
            self.codes.as_slice(),
            self.entries.as_slice(),
            bytes.as_mut_slice(),
        );
        Ok(cut(bytes, size))
    }
}

// The working memory that suffices for an automaton.
pub fn room(automaton: Automaton<'_>) -> usize {
    let states = usize::from(automaton.states);
    states * states + FIXED_WORK
}

// The image that is built for an automaton.
pub fn built(heap: Global, automaton: Automaton<'_>) -> Result<Made, AllocError> {
    let mut work = vec![in heap; 7; room(automaton)]?;
    let mut bytes = vec![in heap; 9; LARGEST_IMAGE]?;
    let size = build(automaton, work.as_mut_slice(), bytes.as_mut_slice());
    Ok(cut(bytes, size))
}

// The bytes that were written.
pub fn cut(mut bytes: Vec<u8>, size: Result<usize, Refusal>) -> Made {
    bytes.truncate(size?);
    Ok(bytes)
}
