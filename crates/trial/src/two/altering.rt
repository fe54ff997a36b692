// Two-byte tables with a change.
use crate::altered::set;
use crate::parts::Parts;
use crate::random::Random;
use crate::two::parting::PairParts;
use pairs::pair::PairEntry;
use pairs::stride::Stride;
use std::alloc::AllocError;
use ternary::entry::Entry;
use ternary::words::StateCode;

// The same table with one change, which may be right all the same.
pub fn pairs_altered(random: &mut Random, parts: &PairParts) -> Result<PairParts, AllocError> {
    let mut parts = parts.clone()?;
    let index = random.below(parts.entries.len());
    match random.below(4) {
        0 => {
            let other = random.below(parts.entries.len());
            swap(&mut parts.entries, index, other);
        }
        1 => {
            if index < parts.entries.len() {
                let _ = parts.entries.remove(index);
            }
        }
        2 => {
            let to = random.below(parts.codes.len());
            let code = drawn_code(random, &parts);
            set(&mut parts.codes, to, code);
        }
        _ => {
            let code = drawn_code(random, &parts);
            if let Some(pair) = parts.entries.get(index).copied() {
                set(&mut parts.entries, index, changed(random, pair, code));
            }
        }
    }
    Ok(parts)
}

// The code of one of the states.
fn drawn_code(random: &mut Random, parts: &PairParts) -> StateCode {
    let from = random.below(parts.codes.len());
    parts.codes.get(from).copied().unwrap_or_default()
}

// Swaps two entries.
fn swap(entries: &mut Vec<PairEntry>, first: usize, second: usize) {
    if let (Some(one), Some(other)) = (entries.get(first).copied(), entries.get(second).copied()) {
        set(entries, first, other);
        set(entries, second, one);
    }
}

// An entry with another part: a mask, the successor code, the class, or the stride.
fn changed(random: &mut Random, pair: PairEntry, code: StateCode) -> PairEntry {
    let one = pair.entry();
    let (mut code_mask, mut byte_mask, mut second_mask) = (
        one.code_mask(),
        one.byte_mask(),
        pair.second_mask(),
    );
    let (mut next, mut class, mut stride) = (one.next(), one.class(), pair.stride());
    match random.below(6) {
        0 => code_mask &= code_mask >> 1,
        1 => byte_mask <<= 1,
        2 => second_mask <<= 1,
        3 => next = code,
        4 => class = random.byte(),
        _ => {
            stride = match stride {
                Stride::One => Stride::Two,
                Stride::Two => Stride::One,
            }
        }
    }
    let entry = Entry::new(
        one.code_value(),
        code_mask,
        one.byte_value(),
        byte_mask,
        next,
        class,
    );
    PairEntry::new(entry, pair.second_value(), second_mask, stride)
}

// A one-byte table of the same keys and successors, with a class of no meaning for every other entry and none for the rest.
pub fn reclassed(random: &mut Random, parts: &Parts) -> Result<Parts, AllocError> {
    let mut parts = parts.clone()?;
    for entry in parts.entries.iter_mut() {
        let class = if random.one_in(2) { 5 } else { 0 };
        *entry = Entry::new(
            entry.code_value(),
            entry.code_mask(),
            entry.byte_value(),
            entry.byte_mask(),
            entry.next(),
            class,
        );
    }
    Ok(parts)
}
