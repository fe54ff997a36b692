// Tables with a change.
use crate::parts::Parts;
use crate::random::Random;
use std::alloc::AllocError;
use ternary::entry::Entry;
use ternary::words::StateCode;

// Writes an item, if it has a place.
pub fn set<T: Drop>(items: &mut Vec<T>, place: usize, item: T) {
    if let Some(at) = items.get_mut(place) {
        *at = item;
    }
}

// The same table with one change, which may be right all the same.
pub fn altered(random: &mut Random, parts: &Parts) -> Result<Parts, AllocError> {
    let mut parts = parts.clone()?;
    match random.below(4) {
        0 => swap_two(random, &mut parts.entries),
        1 => remove_one(random, &mut parts.entries),
        2 => share_code(random, &mut parts.codes),
        _ => change_one(random, &mut parts),
    }
    Ok(parts)
}

// Swaps two entries.
fn swap_two(random: &mut Random, entries: &mut Vec<Entry>) {
    let first = random.below(entries.len());
    let second = random.below(entries.len());
    if let (Some(one), Some(other)) = (entries.get(first).copied(), entries.get(second).copied()) {
        set(entries, first, other);
        set(entries, second, one);
    }
}

// Removes an entry.
fn remove_one(random: &mut Random, entries: &mut Vec<Entry>) {
    let index = random.below(entries.len());
    if index < entries.len() {
        let _ = entries.remove(index);
    }
}

// Gives a state the code of another.
fn share_code(random: &mut Random, codes: &mut Vec<StateCode>) {
    let from = random.below(codes.len());
    let to = random.below(codes.len());
    if let Some(code) = codes.get(from).copied() {
        set(codes, to, code);
    }
}

// Changes a part of an entry: a mask, the successor code, or the class.
fn change_one(random: &mut Random, parts: &mut Parts) {
    let index = random.below(parts.entries.len());
    let from = random.below(parts.codes.len());
    if let (Some(entry), Some(code)) = (
        parts.entries.get(index).copied(),
        parts.codes.get(from).copied(),
    ) {
        let changed = match random.below(4) {
            0 => with_masks(
                entry,
                entry.code_mask() & (entry.code_mask() >> 1),
                entry.byte_mask(),
            ),
            1 => with_masks(entry, entry.code_mask(), entry.byte_mask() << 1),
            2 => deciding(entry, code, entry.class()),
            _ => deciding(entry, entry.next(), random.byte()),
        };
        set(&mut parts.entries, index, changed);
    }
}

// The entry with other masks.
fn with_masks(entry: Entry, code_mask: u16, byte_mask: u8) -> Entry {
    Entry::new(
        entry.code_value(),
        code_mask,
        entry.byte_value(),
        byte_mask,
        entry.next(),
        entry.class(),
    )
}

// The entry with another decision.
fn deciding(entry: Entry, next: StateCode, class: u8) -> Entry {
    Entry::new(
        entry.code_value(),
        entry.code_mask(),
        entry.byte_value(),
        entry.byte_mask(),
        next,
        class,
    )
}
