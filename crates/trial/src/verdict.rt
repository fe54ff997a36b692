// Whether a table carries an automaton, with a first match that is coded apart from the library's.
use crate::parts::Parts;
use crate::scan::{class, next};
use automaton::words::Automaton;
use ternary::entry::Entry;
use ternary::refusal::Refusal;
use ternary::words::{StateCode, StateNo};

// What a check of a sound automaton has to answer of the image of these parts.
pub fn verdict(automaton: Automaton<'_>, parts: &Parts) -> Result<(), Refusal> {
    let states = usize::from(automaton.states);
    if parts.codes.len() != states || parts.start != automaton.start {
        return Err(Refusal::Mismatch);
    }
    for number in 0..automaton.states {
        let state = StateNo(number);
        if let Some(byte) = wrong_byte(automaton, parts, state) {
            return Err(Refusal::WrongEntry(state, byte));
        }
    }
    Ok(())
}

// The lowest byte on which a state is not carried.
fn wrong_byte(automaton: Automaton<'_>, parts: &Parts, state: StateNo) -> Option<u8> {
    (0..=255).find(|byte| !carries(automaton, parts, state, *byte))
}

// Whether the table leads from a state on a byte as the automaton does.
fn carries(automaton: Automaton<'_>, parts: &Parts, state: StateNo, byte: u8) -> bool {
    let next = next(automaton, state, byte);
    let Some(entry) = parts
        .entries
        .iter()
        .find(|entry| accepts(entry, parts.code(state), byte))
    else {
        return false;
    };
    entry.next() == parts.code(next) && entry.class() == class(automaton, next)
}

// Whether no bit that an entry compares differs.
pub fn accepts(entry: &Entry, code: StateCode, byte: u8) -> bool {
    let code_differs = (entry.code_value() ^ code.0) & entry.code_mask();
    let byte_differs = (entry.byte_value() ^ byte) & entry.byte_mask();
    code_differs == 0 && byte_differs == 0
}
