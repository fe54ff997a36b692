// A build and a check.
ghost use Rattle.std.specs.Prelude.{◌≡◌};
ghost use Rattle.automaton.specs.Limits.{handed};
ghost use Rattle.measured.specs.Told.{BuildTold, CheckTold, build_number, check_number, numbers_handed};

use crate::states::{MOST_SUCCESSORS, states_of};
use automaton::words::Automaton;
use builder::build::build;
use table::check::check;
use ternary::refusal::Refusal;
use ternary::words::StateNo;

// The number for a build: the image's size, or the refusal's number, which is less than any size.
pub(crate) fn built(answer: Result<usize, Refusal>) -> usize
    ensures { result ≡ build_number answer }
{
    match answer {
        Ok(size) => size,
        Err(why) => why.number() as usize,
    }
}

// The number for a check: 0 if it accepts, or the refusal's number.
pub(crate) fn checked(answer: Result<(), Refusal>) -> u8
    ensures { result ≡ check_number answer }
{
    match answer {
        Ok(()) => 0,
        Err(why) => why.number(),
    }
}

// Builds the table image of an automaton: the image's size, or the refusal's number.
#[unsafe(no_mangle)]
pub extern "C" fn measured_build(
    states: u16,
    start: u16,
    successors: &[u16],
    classes: &[u8],
    work: &mut [u32],
    out: &mut [u8],
) -> usize
    ensures { BuildTold (numbers_handed states start successors.now classes.now) work.old work.new out.old out.new result }
{
    if successors.len() > MOST_SUCCESSORS {
        return built(Err(Refusal::BadAutomaton));
    }
    let successors = states_of(successors);
    let automaton = Automaton {
        states,
        start: StateNo(start),
        successors: successors.as_slice(),
        classes,
    };
    built(build(automaton, work, out))
}

// Checks an image against its automaton: 0 if it is accepted, or the refusal's number.
#[unsafe(no_mangle)]
pub extern "C" fn measured_check(
    states: u16,
    start: u16,
    successors: &[u16],
    classes: &[u8],
    image: &[u8],
) -> u8
    ensures { CheckTold (numbers_handed states start successors.now classes.now) image.now result }
{
    if successors.len() > MOST_SUCCESSORS {
        return checked(Err(Refusal::BadAutomaton));
    }
    let successors = states_of(successors);
    let automaton = Automaton {
        states,
        start: StateNo(start),
        successors: successors.as_slice(),
        classes,
    };
    checked(check(automaton, image))
}
