// A build and a check of two-byte images.
ghost use Rattle.std.specs.Prelude.{◌≡◌};
ghost use Rattle.measured.specs.Told.{numbers_handed};
ghost use Rattle.measured.specs.PairTold.{PairBuildTold, PairCheckTold};

use crate::calls::{built, checked};
use crate::states::{MOST_SUCCESSORS, states_of};
use automaton::words::Automaton;
use pair_builder::build::build;
use pair_table::check::check;
use ternary::refusal::Refusal;
use ternary::words::StateNo;

// Builds the two-byte table image of an automaton: the image's size, or the refusal's number.
#[unsafe(no_mangle)]
pub extern "C" fn measured_pair_build(
    states: u16,
    start: u16,
    successors: &[u16],
    classes: &[u8],
    work: &mut [u32],
    out: &mut [u8],
) -> usize
    ensures { PairBuildTold (numbers_handed states start successors.now classes.now) work.old work.new out.old out.new result }
{
    if successors.len() > MOST_SUCCESSORS {
        return built(Err(Refusal::BadAutomaton));
    }
    let successors = states_of(successors);
    let automaton = Automaton {
        states,
        start: StateNo(start),
        successors: successors.as_slice(),
        classes,
    };
    built(build(automaton, work, out))
}

// Checks a two-byte image against its automaton: 0 if it is accepted, or the refusal's number.
#[unsafe(no_mangle)]
pub extern "C" fn measured_pair_check(
    states: u16,
    start: u16,
    successors: &[u16],
    classes: &[u8],
    image: &[u8],
) -> u8
    ensures { PairCheckTold (numbers_handed states start successors.now classes.now) image.now result }
{
    if successors.len() > MOST_SUCCESSORS {
        return checked(Err(Refusal::BadAutomaton));
    }
    let successors = states_of(successors);
    let automaton = Automaton {
        states,
        start: StateNo(start),
        successors: successors.as_slice(),
        classes,
    };
    checked(check(automaton, image))
}
