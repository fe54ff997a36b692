// The plan of an automaton, reckoned by the rules and not by the library: the pairs are sorted, trees are united at their
// tops, and each tree is walked from its root.
use crate::altered::set;
use crate::lists::words;
use crate::scan::next;
use automaton::words::Automaton;
use std::alloc::{AllocError, Global};
use ternary::words::{MOST_BITS, StateCode, StateNo};

// Two states that are joined.
type Join = (u16, u16);

// How many bits a code has, the codes of the states, and whom each defers to.
#[derive(Drop)]
pub struct Plan {
    pub width: u32,
    pub codes: Vec<StateCode>,
    pub parents: Vec<Option<u16>>,
}

impl Plan {
    // How many entries the table of the automaton has.
    pub fn entries(&self, heap: Global, automaton: Automaton<'_>) -> Result<usize, AllocError> {
        let mut entries: usize = 0;
        for (state, parent) in self.parents.iter().enumerate() {
            let words = words(heap, automaton, numbered(state), *parent)?;
            entries = entries.saturating_add(words);
        }
        Ok(entries)
    }
}

// The state at a place of a list with one place a state.
fn numbered(place: usize) -> StateNo {
    StateNo(u16::try_from(place).unwrap_or(u16::MAX))
}

// The states in the order in which the walks from the roots meet them, and whom each defers to.
#[derive(Drop)]
struct Walk {
    order: Vec<u16>,
    parents: Vec<Option<u16>>,
}

// A prefix: its bits, and how many they are.
#[derive(Clone, Copy, Default)]
struct Prefix {
    value: u64,
    bits: u32,
}

// The plan of an automaton.
pub fn reckon(heap: Global, automaton: Automaton<'_>) -> Result<Plan, AllocError> {
    let mut tops = Vec::new(heap);
    for state in 0..automaton.states {
        tops.push(state)?;
    }
    let joins = joined(heap, close_pairs(heap, automaton)?, &mut tops)?;
    let walked = walked(
        heap,
        &joins,
        roots(heap, automaton, &tops)?,
        automaton.states,
    )?;
    let prefixes = prefixes(heap, &walked)?;
    let width = prefixes.iter().map(|prefix| prefix.bits).max().unwrap_or(0);
    if width > MOST_BITS {
        return flat(heap, automaton.states);
    }
    Ok(Plan {
        width,
        codes: prefixes
            .iter()
            .map(|prefix| filled(*prefix, width))
            .collect(heap)?,
        parents: walked.parents,
    })
}

// How many bytes lead two states to the same one.
fn shared(automaton: Automaton<'_>, s: u16, t: u16) -> u64 {
    let alike = (0..=255).filter(|byte| next(automaton, StateNo(s), *byte)
        == next(automaton, StateNo(t), *byte));
    alike.count() as u64
}

// The pairs that share 32 bytes or more, sorted: more shared bytes first, then the lower smaller state, then the lower
// larger one. Each is one number, with what comes first in its highest bits.
fn close_pairs(heap: Global, automaton: Automaton<'_>) -> Result<Vec<u64>, AllocError> {
    let mut pairs = Vec::new(heap);
    for s in 0..automaton.states {
        add_pairs(&mut pairs, automaton, s)?;
    }
    pairs.sort_unstable();
    Ok(pairs)
}

// Adds the pairs of a state and a larger one.
fn add_pairs(pairs: &mut Vec<u64>, automaton: Automaton<'_>, s: u16) -> Result<(), AllocError> {
    for t in s.saturating_add(1)..automaton.states {
        let bytes = shared(automaton, s, t);
        if bytes >= 32 {
            let first = 512_u64.saturating_sub(bytes);
            pairs.push(first << 32 | (s as u64) << 16 | t as u64)?;
        }
    }
    Ok(())
}

// The top of a state's tree.
fn top(tops: &Vec<u16>, state: u16) -> u16 {
    let mut at = state;
    for _ in 0..tops.len() {
        let above = tops.get(at as usize).copied().unwrap_or(at);
        if above == at {
            return at;
        }
        at = above;
    }
    at
}

// Joins the pairs in their order, except where both states have one top already.
fn joined(heap: Global, pairs: Vec<u64>, tops: &mut Vec<u16>) -> Result<Vec<Join>, AllocError> {
    let mut joins = Vec::new(heap);
    for pair in pairs.iter() {
        let [.., s1, s0, t1, t0] = pair.to_be_bytes();
        let (s, t) = (u16::from_be_bytes([s1, s0]), u16::from_be_bytes([t1, t0]));
        let (low, high) = (top(tops, s), top(tops, t));
        if low != high {
            if let Some(above) = tops.get_mut(high as usize) {
                *above = low;
            }
            joins.push((s, t))?;
        }
    }
    Ok(joins)
}

// How many bytes lead from a state to itself.
fn loops(automaton: Automaton<'_>, state: u16) -> usize {
    let state = StateNo(state);
    (0..=255)
        .filter(|byte| next(automaton, state, *byte) == state)
        .count()
}

// The roots, in state order: of each tree the state with the most bytes that lead to itself, on equal counts the lowest.
fn roots(heap: Global, automaton: Automaton<'_>, tops: &Vec<u16>) -> Result<Vec<u16>, AllocError> {
    let mut best = vec![in heap; None; tops.len()]?;
    for state in 0..automaton.states {
        let loops = loops(automaton, state);
        if let Some(held) = best.get_mut(top(tops, state) as usize) {
            *held = better(*held, (state, loops));
        }
    }
    let mut roots: Vec<u16> = best.iter().flatten().map(|held| held.0).collect(heap)?;
    roots.sort_unstable();
    Ok(roots)
}

// The one of two states with more loops, and else the first.
fn better(held: Option<(u16, usize)>, other: (u16, usize)) -> Option<(u16, usize)> {
    match held {
        Some(held) if held.1 >= other.1 => Some(held),
        _ => Some(other),
    }
}

// Walks the trees from their roots, one join further each time.
fn walked(
    heap: Global,
    joins: &Vec<Join>,
    roots: Vec<u16>,
    states: u16,
) -> Result<Walk, AllocError> {
    let mut walked = Walk {
        order: roots,
        parents: vec![in heap; None; states as usize]?,
    };
    for index in 0..states as usize {
        if let Some(at) = walked.order.get(index).copied() {
            walked.step(joins, at)?;
        }
    }
    Ok(walked)
}

impl Walk {
    // Meets the states that are joined to this one and were not met yet: they defer to it.
    fn step(&mut self, joins: &Vec<Join>, at: u16) -> Result<(), AllocError> {
        for (s, t) in joins.iter().copied() {
            if s == at {
                self.meet(t, at)?;
            } else if t == at {
                self.meet(s, at)?;
            }
        }
        Ok(())
    }

    // Meets a state, unless it was met.
    fn meet(&mut self, state: u16, from: u16) -> Result<(), AllocError> {
        if self.order.contains(&state) {
            return Ok(());
        }
        set(&mut self.parents, state as usize, Some(from));
        self.order.push(state)?;
        Ok(())
    }

    // Where the states that defer to the same one are counted; the roots behind all states.
    fn place(&self, state: usize) -> usize {
        match self.parents.get(state).copied().flatten() {
            Some(parent) => parent as usize,
            None => self.parents.len(),
        }
    }

    // Counts the states that defer to each state, and the roots behind them; and gives each state its number.
    fn numbers(&self, heap: Global) -> Result<(Vec<u32>, Vec<u32>), AllocError> {
        let roots = self.parents.len();
        let mut counts = vec![in heap; 0; roots + 1]?;
        let mut numbers = Vec::new(heap);
        for state in 0..roots {
            let place = self.place(state);
            let before: u32 = counts.get(place).copied().unwrap_or(0);
            let more = before.saturating_add(1);
            set(&mut counts, place, more);
            numbers.push(if place == roots { before } else { more })?;
        }
        Ok((counts, numbers))
    }
}

// The prefixes of the states, in the order of the walks, so that each stands behind its parent's.
fn prefixes(heap: Global, walked: &Walk) -> Result<Vec<Prefix>, AllocError> {
    let (counts, numbers) = walked.numbers(heap)?;
    let mut prefixes = vec![in heap; Prefix::default(); numbers.len()]?;
    for state in walked.order.iter() {
        let state = *state as usize;
        let place = walked.place(state);
        let above = prefixes.get(place).copied().unwrap_or_default();
        let count = counts.get(place).copied().unwrap_or(0);
        let largest = if place == numbers.len() {
            count.saturating_sub(1)
        } else {
            count
        };
        let bits = u32::BITS - largest.leading_zeros();
        let number = numbers.get(state).copied().unwrap_or(0);
        set(
            &mut prefixes,
            state,
            Prefix {
                value: above.value.wrapping_shl(bits) | number as u64,
                bits: above.bits.saturating_add(bits),
            },
        );
    }
    Ok(prefixes)
}

// A prefix, filled up with zeros.
fn filled(prefix: Prefix, width: u32) -> StateCode {
    let zeros = width.saturating_sub(prefix.bits);
    let [.., high, low] = prefix.value.wrapping_shl(zeros).to_be_bytes();
    StateCode(u16::from_be_bytes([high, low]))
}

// The plan in which every state is a root.
fn flat(heap: Global, states: u16) -> Result<Plan, AllocError> {
    Ok(Plan {
        width: u16::BITS - states.saturating_sub(1).leading_zeros(),
        codes: (0..states).map(|state| StateCode(state)).collect(heap)?,
        parents: vec![in heap; None; states as usize]?,
    })
}
