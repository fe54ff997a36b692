// Two-byte images in parts, and built ones.
use crate::parts::{Made, cut, room};
use automaton::words::Automaton;
use pair_builder::build::build;
use pair_image::reader::Image;
use pair_image::writer::pack;
use pairs::pair::PairEntry;
use std::alloc::{AllocError, Global};
use ternary::words::{MOST_ENTRIES, MOST_STATES, StateCode, StateNo};

// The bytes of the largest two-byte image.
const LARGEST_IMAGE: usize = 12 + 2 * MOST_STATES + 12 * MOST_ENTRIES;

// The parts of a two-byte image.
#[derive(Clone, Drop)]
pub struct PairParts {
    pub width: u8,
    pub start: StateNo,
    pub codes: Vec<StateCode>,
    pub entries: Vec<PairEntry>,
}

impl PairParts {
    // The parts that an image hands out.
    pub fn of(heap: Global, image: Image<'_>) -> Result<PairParts, AllocError> {
        let header = image.header();
        Ok(PairParts {
            width: header.width,
            start: header.start,
            codes: image.codes().collect(heap)?,
            entries: image.entries().collect(heap)?,
        })
    }

    // The code of a state, and 0 for a number that no state has.
    pub fn code(&self, state: StateNo) -> StateCode {
        self.codes
            .get(usize::from(state))
            .copied()
            .unwrap_or_default()
    }

    // The image of the parts.
    pub fn packed(&self, heap: Global) -> Result<Made, AllocError> {
        let mut bytes = vec![in heap; 0; LARGEST_IMAGE]?;
        let size = pack(
            self.width,
            self.start,
            self.codes.as_slice(),
            self.entries.as_slice(),
            bytes.as_mut_slice(),
        );
        Ok(cut(bytes, size))
    }
}

// The two-byte image that is built for an automaton.
pub fn pairs_built(heap: Global, automaton: Automaton<'_>) -> Result<Made, AllocError> {
    let mut work = vec![in heap; 7; room(automaton)]?;
    let mut bytes = vec![in heap; 9; LARGEST_IMAGE]?;
    let size = build(automaton, work.as_mut_slice(), bytes.as_mut_slice());
    Ok(cut(bytes, size))
}
