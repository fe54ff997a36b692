// How many words a shortest list for a row of successors has, counted over the blocks of bytes that have their first bits
// in common, from the single bytes up.
use crate::scan::next;
use automaton::words::Automaton;
use std::alloc::{AllocError, Global};
use ternary::words::StateNo;

// A block of bytes: its cost below a word that covers it, the states that such a word may have for that, and its cost
// below no word.
#[derive(Drop)]
struct Block {
    cost: usize,
    states: Vec<StateNo>,
    open: usize,
}

impl Block {
    // The block of two halves.
    fn of(heap: Global, low: &Block, high: &Block) -> Result<Block, AllocError> {
        let mut cost = low.cost.saturating_add(high.cost);
        let mut states = common(heap, &low.states, &high.states)?;
        if states.is_empty() {
            cost = cost.saturating_add(1);
            states.extend(low.states.iter().copied())?;
            states.extend(high.states.iter().copied())?;
        }
        let open = low.open.saturating_add(high.open);
        Ok(Block {
            cost,
            states,
            open: open.min(cost.saturating_add(1)),
        })
    }
}

// The states that stand in both.
fn common(
    heap: Global,
    low: &Vec<StateNo>,
    high: &Vec<StateNo>,
) -> Result<Vec<StateNo>, AllocError> {
    let both = low.iter().filter(|state| high.contains(state));
    both.copied().collect(heap)
}

// The words for a state that defers to another, or to none.
pub fn words(
    heap: Global,
    automaton: Automaton<'_>,
    state: StateNo,
    parent: Option<u16>,
) -> Result<usize, AllocError> {
    let whole = whole(heap, automaton, state, parent)?;
    Ok(whole.iter().map(|block| block.open).max().unwrap_or(0))
}

// Whether a shortest list of a state that defers to none may end with a word that covers all bytes and leads to the state
// itself: the words below it and it are no more than the list has, and it may have this state for that.
pub fn closes(heap: Global, automaton: Automaton<'_>, state: StateNo) -> Result<bool, AllocError> {
    let whole = whole(heap, automaton, state, None)?;
    Ok(
        whole.iter().all(|block| block.cost.saturating_add(1) == block.open
            && block.states.contains(&state)),
    )
}

// The block of all bytes of a state, alone in its list.
fn whole(
    heap: Global,
    automaton: Automaton<'_>,
    state: StateNo,
    parent: Option<u16>,
) -> Result<Vec<Block>, AllocError> {
    let mut blocks = Vec::new(heap);
    for byte in 0..=255 {
        let to = next(automaton, state, byte);
        let deferrable = parent.is_some_and(|parent| next(automaton, StateNo(parent), byte) == to);
        blocks.push(Block {
            cost: 0,
            states: vec![in heap; to]?,
            open: if deferrable { 0 } else { 1 },
        })?;
    }
    for _ in 0..8 {
        blocks = halved(heap, &blocks)?;
    }
    Ok(blocks)
}

// The blocks of which each has two of these.
fn halved(heap: Global, blocks: &Vec<Block>) -> Result<Vec<Block>, AllocError> {
    let mut wider = Vec::new(heap);
    for halves in blocks.chunks(2) {
        if let [low, high] = halves {
            wider.push(Block::of(heap, low, high)?)?;
        }
    }
    Ok(wider)
}
