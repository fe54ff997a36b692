// Pairs of images of which a load is refused.
use crate::altered::set;
use crate::machine::Machine;
use crate::parts::{Made, Parts};
use crate::random::Random;
use crate::two::parting::PairParts;
use pairs::pair::PairEntry;
use std::alloc::{AllocError, Global};
use ternary::entry::Entry;
use ternary::refusal::Refusal;
use ternary::words::{MOST_STATES, StateCode, StateNo};

// An automaton and the bytes of a two-byte and a one-byte image, and why a load refuses them.
#[derive(Drop)]
pub struct PairWrong {
    pub machine: Machine,
    pub two: Vec<u8>,
    pub one: Vec<u8>,
    pub why: Refusal,
}

// A two-byte image with a fault, and the offset of it.
pub fn malformed_pair(
    random: &mut Random,
    image: &Vec<u8>,
    parts: &PairParts,
) -> Result<(Vec<u8>, usize), AllocError> {
    let mut image = image.clone()?;
    let states = parts.codes.len();
    let index = random.below(parts.entries.len());
    let entry = index
        .saturating_mul(12)
        .saturating_add(states.saturating_mul(2))
        .saturating_add(12);
    let fault = match random.below(8) {
        0 => spoiled(&mut image, 0, 1, 0),
        1 => spoiled(&mut image, 5, 17, 5),
        2 => spoiled(&mut image, 8, 255, 8),
        3 => {
            image.truncate(image.len().saturating_sub(1));
            1
        }
        4 if !parts.entries.is_empty() => {
            set(&mut image, entry.saturating_add(5), 127);
            spoiled(
                &mut image,
                entry.saturating_add(4),
                255,
                entry.saturating_add(4),
            )
        }
        5 if !parts.entries.is_empty() => {
            set(&mut image, entry.saturating_add(7), 254);
            spoiled(
                &mut image,
                entry.saturating_add(6),
                1,
                entry.saturating_add(6),
            )
        }
        6 if !parts.entries.is_empty() => {
            let stride = if random.one_in(2) { 0 } else { 3 };
            spoiled(
                &mut image,
                entry.saturating_add(11),
                stride,
                entry.saturating_add(11),
            )
        }
        _ => {
            let bytes = random.below(12);
            image.truncate(bytes);
            bytes
        }
    };
    Ok((image, fault))
}

// Writes a byte of the image, which then has its first fault at the offset that is answered.
fn spoiled(image: &mut Vec<u8>, place: usize, byte: u8, fault: usize) -> usize {
    set(image, place, byte);
    fault
}

// A two-byte image of one state more, or of another start state if there cannot be more states.
pub fn mismatched_pair(heap: Global, parts: &PairParts) -> Result<Made, AllocError> {
    let mut parts = parts.clone()?;
    if parts.codes.len() < MOST_STATES {
        let code = parts.code(StateNo(0));
        parts.codes.push(code)?;
    } else {
        parts.start = StateNo(parts.start.0 ^ 1);
    }
    parts.packed(heap)
}

// A two-byte table with entries behind the last, so many in all, that are never a first match.
pub fn padded_pair(parts: &PairParts, count: usize) -> Result<PairParts, AllocError> {
    let mut parts = parts.clone()?;
    let last = parts.entries.as_slice().last().copied().unwrap_or_default();
    for _ in parts.entries.len()..count {
        parts.entries.push(last)?;
    }
    Ok(parts)
}

// A two-byte table with the lowest bit of all codes turned, which carries what it carried.
pub fn turned_pair(parts: &PairParts) -> Result<PairParts, AllocError> {
    let mut parts = parts.clone()?;
    for code in parts.codes.iter_mut() {
        *code = turned(*code);
    }
    for pair in parts.entries.iter_mut() {
        let entry = turned_entry(pair.entry());
        *pair = PairEntry::new(
            entry,
            pair.second_value(),
            pair.second_mask(),
            pair.stride(),
        );
    }
    Ok(parts)
}

// A code with its lowest bit turned.
fn turned(code: StateCode) -> StateCode {
    StateCode(code.0 ^ 1)
}

// The entry for codes with their lowest bit turned.
fn turned_entry(entry: Entry) -> Entry {
    Entry::new(
        entry.code_value() ^ 1,
        entry.code_mask(),
        entry.byte_value(),
        entry.byte_mask(),
        turned(entry.next()),
        entry.class(),
    )
}

// A one-byte table of the same codes in one bit more, which carries what it carried.
pub fn widened(parts: &Parts) -> Result<Parts, AllocError> {
    let mut parts = parts.clone()?;
    parts.width = parts.width.saturating_add(1);
    Ok(parts)
}
