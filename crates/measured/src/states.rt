// Numbers from outside as states.
ghost use Rattle.std.specs.Prelude.{◌≡◌, ◌≤◌, map, length};
ghost use Rattle.measured.specs.Told.{state_no};

use arrayvec::ArrayVec;
use ternary::words::{MOST_STATES, StateNo};

// The most successors that an automaton has.
pub(crate) const MOST_SUCCESSORS: usize = 256 * MOST_STATES;

// The states of these numbers.
pub(crate) type States = ArrayVec<StateNo, MOST_SUCCESSORS>;

// Numbers as states. A state does not cross from outside, so that each is made anew.
pub(crate) fn states_of(numbers: &[u16]) -> States
    requires { length numbers.now ≤ 131072 }
    ensures { result.items ≡ map state_no numbers.now }
{
    let mut states = ArrayVec::new();
    for number in numbers {
        states.push(StateNo(*number));
    }
    states
}
