use ternary::words::StateNo;

// A deterministic automaton over bytes as it is handed to calls: the number of its states, the start state,
// and lent buffers with the successors, state by state and 256 a state, and a class for each state.
#[derive(Clone, Copy)]
pub struct Automaton<'a> {
    pub states: u16,
    pub start: StateNo,
    pub successors: &'a [StateNo],
    pub classes: &'a [u8],
}

// What reading an automaton file answers: the number of states and the start state.
#[derive(Clone, Copy, PartialEq, Eq, Debug)]
pub struct Header {
    pub states: u16,
    pub start: StateNo,
}

// The bytes from `low` to `high` lead to `next`.
#[derive(Clone, Copy, PartialEq, Eq, Debug)]
pub struct ByteRange {
    pub low: u8,
    pub high: u8,
    pub next: StateNo,
}
