// How many entries the two-byte table of an automaton has, by the building rule, coded another way than the library: a root
// is unrolled if it gives no mark and the word that covers all bytes may lead to the root at no cost.
use crate::lists::{closes, words};
use crate::plan::Plan;
use crate::scan::class;
use automaton::words::Automaton;
use std::alloc::{AllocError, Global};
use ternary::words::StateNo;

// How many entries a two-byte table has, and how many roots are unrolled in it.
#[derive(Clone, Copy)]
pub struct Unrolled {
    pub entries: usize,
    pub roots: usize,
}

// Of a table that has so many entries before it is unrolled.
pub fn count_unrolled(
    heap: Global,
    automaton: Automaton<'_>,
    plan: &Plan,
    before: usize,
) -> Result<Unrolled, AllocError> {
    let mut unrolled = Unrolled {
        entries: before,
        roots: 0,
    };
    for number in 0..automaton.states {
        let state = StateNo(number);
        let parent = plan.parents.get(number as usize).copied().flatten();
        if parent.is_none() && class(automaton, state) == 0 && closes(heap, automaton, state)? {
            let list = words(heap, automaton, state, None)?;
            unrolled.entries = unrolled.entries.saturating_add(list.saturating_sub(1));
            unrolled.roots = unrolled.roots.saturating_add(1);
        }
    }
    Ok(unrolled)
}
