// Loads that are refused.
use crate::altered::set;
use crate::machine::Machine;
use crate::parts::{Made, Parts};
use crate::random::Random;
use std::alloc::{AllocError, Global};
use ternary::refusal::Refusal;
use ternary::words::{MOST_STATES, StateNo};

// An automaton and the bytes of an image, and why a check and a load refuse them; none if they accept them.
#[derive(Drop)]
pub struct Wrong {
    pub machine: Machine,
    pub image: Vec<u8>,
    pub why: Result<(), Refusal>,
}

// An automaton that breaks a limit, with the image of the sound one.
pub fn bad_automaton(
    random: &mut Random,
    machine: &Machine,
    image: &Vec<u8>,
) -> Result<Wrong, AllocError> {
    let mut machine = machine.clone()?;
    let states = machine.automaton().states;
    match random.below(3) {
        0 => machine.start = StateNo(states),
        1 => {
            let _ = machine.classes.pop();
        }
        _ => {
            let place = random.below(machine.successors.len());
            set(&mut machine.successors, place, StateNo(states));
        }
    }
    Ok(Wrong {
        machine,
        image: image.clone()?,
        why: Err(Refusal::BadAutomaton),
    })
}

// An image with a fault.
pub fn malformed(
    random: &mut Random,
    machine: &Machine,
    image: &Vec<u8>,
    parts: &Parts,
) -> Result<Wrong, AllocError> {
    let mut image = image.clone()?;
    let states = parts.codes.len();
    let at = match random.below(8) {
        0 => spoiled(&mut image, 0, 2, 0),
        1 => {
            image.truncate(image.len().saturating_sub(1));
            1
        }
        2 => shortened(&mut image, random.below(12)),
        3 => spoiled(&mut image, 5, 17, 5),
        4 => spoiled(&mut image, 8, 255, 8),
        5 => spoiled(&mut image, 10, 255, 10),
        6 if parts.width < 16 => spoil_code(&mut image, random.below(states)),
        7 if !parts.entries.is_empty() => spoil_entry(
            &mut image,
            states,
            random.below(parts.entries.len()),
        ),
        _ => shortened(&mut image, 0),
    };
    Ok(Wrong {
        machine: machine.clone()?,
        image,
        why: Err(Refusal::Malformed(at)),
    })
}

// Writes a byte of the image, which then has its first fault at the offset that is answered.
fn spoiled(image: &mut Vec<u8>, place: usize, byte: u8, fault: usize) -> usize {
    set(image, place, byte);
    fault
}

// Leaves so few bytes, and answers the offset of the fault.
fn shortened(image: &mut Vec<u8>, bytes: usize) -> usize {
    image.truncate(bytes);
    bytes
}

// Raises the code of a state above 15 bits, and answers the offset of the fault.
fn spoil_code(image: &mut Vec<u8>, state: usize) -> usize {
    let at = state.saturating_mul(2).saturating_add(12);
    spoiled(image, at, 255, at)
}

// Gives an entry a byte value with a bit under a star, and answers the offset of the fault.
fn spoil_entry(image: &mut Vec<u8>, states: usize, index: usize) -> usize {
    let entry = index.saturating_mul(9).saturating_add(12);
    let at = entry
        .saturating_add(states.saturating_mul(2))
        .saturating_add(4);
    set(image, at.saturating_add(1), 127);
    spoiled(image, at, 255, at)
}

// An image of one state more, or of another start state if there cannot be more states.
pub fn mismatched(heap: Global, parts: &Parts) -> Result<Made, AllocError> {
    let mut parts = parts.clone()?;
    if parts.codes.len() < MOST_STATES {
        let code = parts.code(StateNo(0));
        parts.codes.push(code)?;
    } else {
        parts.start = StateNo(parts.start.0 ^ 1);
    }
    parts.packed(heap)
}

// An image with entries behind the last, so many in all, that are never a first match.
pub fn padded(heap: Global, parts: &Parts, count: usize) -> Result<Made, AllocError> {
    let mut parts = parts.clone()?;
    let last = parts.entries.as_slice().last().copied().unwrap_or_default();
    for _ in parts.entries.len()..count {
        parts.entries.push(last)?;
    }
    parts.packed(heap)
}
