// Whether a two-byte table carries an automaton, with a first match that is coded apart from the library's.
use crate::scan::{class, next};
use crate::two::parting::PairParts;
use automaton::words::Automaton;
use pairs::pair::PairEntry;
use pairs::stride::Stride;
use std::alloc::{AllocError, Global};
use ternary::refusal::Refusal;
use ternary::words::{StateCode, StateNo};

// What a check of a sound automaton has to answer of the two-byte image of these parts.
pub fn pair_verdict(
    heap: Global,
    automaton: Automaton<'_>,
    parts: &PairParts,
) -> Result<Result<(), Refusal>, AllocError> {
    let states = usize::from(automaton.states);
    if parts.codes.len() != states || parts.start != automaton.start {
        return Ok(Err(Refusal::Mismatch));
    }
    for number in 0..automaton.states {
        let state = StateNo(number);
        if let Some((byte, second)) = wrong_bytes(heap, automaton, parts, state)? {
            return Ok(Err(Refusal::WrongPair(state, byte, second)));
        }
    }
    Ok(Ok(()))
}

// The lowest bytes on which a state is not carried.
fn wrong_bytes(
    heap: Global,
    automaton: Automaton<'_>,
    parts: &PairParts,
    state: StateNo,
) -> Result<Option<(u8, u8)>, AllocError> {
    for byte in 0..=255 {
        let code = parts.code(state);
        let met = parts.entries.iter().filter(|e| meets(e, code, byte));
        let row: Vec<PairEntry> = met.copied().collect(heap)?;
        let wrong = (0..=255).find(|second| !carries(automaton, parts, &row, state, byte, *second));
        if let Some(second) = wrong {
            return Ok(Some((byte, second)));
        }
    }
    Ok(None)
}

// Whether the first of these entries that meets the second byte leads from a state as the automaton does.
fn carries(
    automaton: Automaton<'_>,
    parts: &PairParts,
    row: &Vec<PairEntry>,
    state: StateNo,
    byte: u8,
    second: u8,
) -> bool {
    let Some(entry) = row.iter().find(|e| meets_second(e, second)) else {
        return false;
    };
    let between = next(automaton, state, byte);
    let (reached, silent) = match entry.stride() {
        Stride::One => (between, true),
        Stride::Two => (
            next(automaton, between, second),
            class(automaton, between) == 0,
        ),
    };
    let decided = entry.entry();
    silent && decided.next() == parts.code(reached) && decided.class() == class(automaton, reached)
}

// Whether no bit of a code and a first byte that an entry compares differs.
pub fn meets(entry: &PairEntry, code: StateCode, byte: u8) -> bool {
    let single = entry.entry();
    let code_differs = (single.code_value() ^ code.0) & single.code_mask();
    let byte_differs = (single.byte_value() ^ byte) & single.byte_mask();
    code_differs == 0 && byte_differs == 0
}

// Whether no bit of a second byte that an entry compares differs.
pub fn meets_second(entry: &PairEntry, second: u8) -> bool {
    (entry.second_value() ^ second) & entry.second_mask() == 0
}
