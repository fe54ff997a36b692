// Automata drawn at random for tables of two bytes: most of them have states on which many bytes lead to one root, which
// loops, and which marks or not.
use crate::kinds::machine_of;
use crate::machine::Machine;
use crate::random::Random;
use std::alloc::{AllocError, Global};
use ternary::words::StateNo;

// How many states: a check of two bytes looks at 65,536 pairs a state, so there are mostly few.
fn drawn_states(random: &mut Random) -> u16 {
    let StateNo(more) = match random.below(20) {
        0 => StateNo(0),
        1..=16 => random.state(9),
        _ => random.state(24),
    };
    more % 24 + 1
}

// An automaton: with hubs, or of any kind.
pub fn varied_machine(heap: Global, random: &mut Random) -> Result<Machine, AllocError> {
    let states = drawn_states(random);
    if random.one_in(3) {
        return machine_of(heap, random, states);
    }
    hubbed_machine(heap, random, states)
}

// An automaton in which the bytes of a state lead to its hub, with an exception now and then. The first states are hubs, three
// at most.
pub fn hubbed_machine(
    heap: Global,
    random: &mut Random,
    states: u16,
) -> Result<Machine, AllocError> {
    let StateNo(more) = random.state(3);
    let hubs = more.min(2) + 1;
    let hubs = hubs.min(states);
    let astray = match random.below(3) {
        0 => 8,
        1 => 40,
        _ => 150,
    };
    let mut successors = Vec::new(heap);
    for state in 0..states {
        for _ in 0..256 {
            let strays = random.one_in(astray);
            let anywhere = random.state(states);
            let hub = StateNo(state % hubs.max(1));
            successors.push(if strays { anywhere } else { hub })?;
        }
    }
    Ok(Machine {
        start: random.state(states),
        successors,
        classes: hubbed_classes(heap, random, states, hubs)?,
    })
}

// The classes of so many states: a hub marks once in three times, another state every other time.
fn hubbed_classes(
    heap: Global,
    random: &mut Random,
    states: u16,
    hubs: u16,
) -> Result<Vec<u8>, AllocError> {
    let mut classes = Vec::new(heap);
    for state in 0..states {
        let marks = if state < hubs {
            random.one_in(3)
        } else {
            random.one_in(2)
        };
        let class = random.byte().max(1);
        classes.push(if marks { class } else { 0 })?;
    }
    Ok(classes)
}
