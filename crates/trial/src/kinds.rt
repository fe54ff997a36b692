// Automata drawn at random.
use crate::figures::next_in_chain;
use crate::machine::Machine;
use crate::random::Random;
use std::alloc::{AllocError, Global};
use ternary::words::StateNo;

// How the successors of an automaton are drawn.
#[derive(Clone, Copy)]
enum Kind {
    // few bytes lead anywhere else than a state's usual successor
    Sparse,
    // each byte leads anywhere
    Dense,
    // runs of bytes lead to one state
    Runs,
    // most bytes lead back
    Loops,
    // each state defers to the one before it
    Chain,
    // one byte leads on to the next state, and all else to state 0
    Steps,
    // the rows of four states again and again, with few changes or none
    Repeats,
}

// How the classes of an automaton are drawn.
#[derive(Clone, Copy)]
enum Marking {
    Never,
    Seldom,
    Often,
    Always,
}

impl Marking {
    // One of the ways.
    fn drawn(random: &mut Random) -> Marking {
        match random.below(8) {
            0 => Marking::Never,
            1 | 2 | 3 => Marking::Seldom,
            4 | 5 | 6 => Marking::Often,
            _ => Marking::Always,
        }
    }

    // The class of a state.
    fn class(self, random: &mut Random) -> u8 {
        match self {
            Marking::Never => 0,
            Marking::Seldom => { if random.one_in(8) { 7 } else { 0 } }
            Marking::Often => random.byte(),
            Marking::Always => random.byte().max(1),
        }
    }
}

// A row of successors as it is drawn: how, of how many states, for which state, and its usual successor.
#[derive(Clone, Copy)]
struct Row {
    kind: Kind,
    states: u16,
    state: u16,
    usual: StateNo,
}

impl Row {
    // The successor on a byte, with that on the byte before it, and that of the state four before on this byte.
    fn next(
        &self,
        random: &mut Random,
        byte: u8,
        before: StateNo,
        above: Option<StateNo>,
    ) -> StateNo {
        let anywhere = random.state(self.states);
        match self.kind {
            Kind::Sparse => {
                if random.one_in(30) {
                    anywhere
                } else {
                    self.usual
                }
            }
            Kind::Dense => anywhere,
            Kind::Runs => { if random.one_in(12) { anywhere } else { before } }
            Kind::Loops => {
                if random.one_in(20) {
                    anywhere
                } else {
                    StateNo(self.state)
                }
            }
            Kind::Chain => StateNo(next_in_chain(self.state, byte)),
            Kind::Steps => self.step(byte),
            Kind::Repeats => {
                if self.changes(random) {
                    anywhere
                } else {
                    above.unwrap_or(before)
                }
            }
        }
    }

    // One byte leads on to the next state, and all else to state 0.
    fn step(&self, byte: u8) -> StateNo {
        if u16::from(byte) == self.state % 256 {
            StateNo(self.state.wrapping_add(1) % self.states.max(1))
        } else {
            StateNo(0)
        }
    }

    // Whether a repeated row changes here: often in the first four, seldom in odd ones, and never in even ones.
    fn changes(&self, random: &mut Random) -> bool {
        if self.state < 4 {
            random.one_in(6)
        } else {
            self.state % 2 == 1 && random.one_in(100)
        }
    }

    // Puts the row behind those of the states before.
    fn push(&self, random: &mut Random, successors: &mut Vec<StateNo>) -> Result<(), AllocError> {
        let mut before = self.usual;
        for byte in 0..=255 {
            let above = successors.len().checked_sub(1024);
            let above = above.and_then(|place| successors.get(place).copied());
            before = self.next(random, byte, before, above);
            successors.push(before)?;
        }
        Ok(())
    }
}

// One of the kinds.
fn drawn_kind(random: &mut Random) -> Kind {
    match random.below(9) {
        0 | 1 => Kind::Sparse,
        2 => Kind::Dense,
        3 | 4 => Kind::Runs,
        5 => Kind::Loops,
        6 => Kind::Chain,
        7 => Kind::Steps,
        _ => Kind::Repeats,
    }
}

// How many states: mostly few, and seldom up to 512.
fn drawn_states(random: &mut Random) -> u16 {
    let StateNo(more) = match random.below(24) {
        0 => StateNo(0),
        1..=17 => random.state(24),
        18..=22 => random.state(120),
        _ => random.state(512),
    };
    more.min(511) + 1
}

// An automaton.
pub fn drawn_machine(heap: Global, random: &mut Random) -> Result<Machine, AllocError> {
    let states = drawn_states(random);
    machine_of(heap, random, states)
}

// An automaton of so many states.
pub fn machine_of(heap: Global, random: &mut Random, states: u16) -> Result<Machine, AllocError> {
    let successors = drawn_successors(heap, random, states)?;
    let classes = drawn_classes(heap, random, states)?;
    Ok(Machine {
        start: random.state(states),
        successors,
        classes,
    })
}

// The successors of so many states.
fn drawn_successors(
    heap: Global,
    random: &mut Random,
    states: u16,
) -> Result<Vec<StateNo>, AllocError> {
    let kind = drawn_kind(random);
    let mut successors = Vec::new(heap);
    for state in 0..states {
        let row = Row {
            kind,
            states,
            state,
            usual: usual(random, states),
        };
        row.push(random, &mut successors)?;
    }
    Ok(successors)
}

// A row's usual successor: state 0 as often as all others.
fn usual(random: &mut Random, states: u16) -> StateNo {
    if random.one_in(2) {
        StateNo(0)
    } else {
        random.state(states)
    }
}

// The classes of so many states.
fn drawn_classes(heap: Global, random: &mut Random, states: u16) -> Result<Vec<u8>, AllocError> {
    let marking = Marking::drawn(random);
    let mut classes = Vec::new(heap);
    for _ in 0..states {
        classes.push(marking.class(random))?;
    }
    Ok(classes)
}
