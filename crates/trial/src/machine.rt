// Automata that own their buffers.
use automaton::words::Automaton;
use std::alloc::{AllocError, Global};
use ternary::words::StateNo;

// An automaton with buffers of its own.
#[derive(Clone, Drop)]
pub struct Machine {
    pub start: StateNo,
    pub successors: Vec<StateNo>,
    pub classes: Vec<u8>,
}

impl Machine {
    // The automaton of so many states in which each byte leads to the state that a function names, and each state
    // has this class.
    pub(crate) fn new<F: Fn(u16, u8) -> u16>(
        heap: Global,
        states: u16,
        class: u8,
        successor: F,
    ) -> Result<Machine, AllocError>
        requires { F.IsAlwaysCallable successor }
    {
        let mut successors = Vec::new(heap);
        for place in 0..256 * states as usize {
            let next = successor((place / 256) as u16, (place % 256) as u8);
            successors.push(StateNo(next))?;
        }
        Ok(Machine {
            start: StateNo(0),
            successors,
            classes: vec![in heap; class; states as usize]?,
        })
    }

    // The automaton over the buffers.
    pub fn automaton(&self) -> Automaton<'_> {
        Automaton {
            states: u16::try_from(self.classes.len()).unwrap_or(u16::MAX),
            start: self.start,
            successors: self.successors.as_slice(),
            classes: self.classes.as_slice(),
        }
    }
}
