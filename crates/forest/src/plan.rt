// The plan of an automaton, and what it hands out.
ghost use Rattle.std.specs.Prelude.{◌≡◌, ◌<◌, ◌≤◌, length, map, Some};
ghost use Rattle.std.specs.List.{range_with_len};
ghost use Rattle.automaton.specs.Runs.{Dfa};
ghost use Rattle.forest.specs.Deferment.{forest_of};
ghost use Rattle.forest.specs.Plan.{PlanOf, states_of, placement_of, placement_in};

use arrayvec::ArrayVec;
use ternary::words::{MOST_STATES, StateCode, StateNo};

mod making;

// The numbers of working memory that a plan asks for beyond one for each two states.
pub const FIXED_WORK: usize = 8192;

// A state's place in a plan: the state that it defers to, unless it is a root; its steps to the root; its code,
// which is its shadow's value too; and the mask of its shadow.
#[derive(Clone, Copy, PartialEq, Eq, Default, Debug)]
pub struct Placement {
    pub parent: Option<StateNo>,
    pub depth: u16,
    pub code: StateCode,
    pub mask: u16,
}

// The forest of an automaton with the codes of its states: how many bits a code has, and the place of each state.
#[derive(Drop)]
pub struct Plan {
    pub(crate) width: u8,
    pub(crate) places: ArrayVec<Placement, MOST_STATES>,
}

impl Plan {
    // How many states the automaton has.
    pub fn states(&self) -> u16
        ensures value { result ≡ states_of self.now }
        ensures few { result ≤ 512 }
    {
        self.places.len() as u16
    }

    // How many bits a code has.
    pub fn width(&self) -> u8
        ensures { result ≡ self.now.width }
    {
        self.width
    }

    // The places of the states, in state order.
    pub fn placements(&self) -> &[Placement]
        ensures value { result.now ≡ self.now.places.items }
        ensures few { length result.now ≤ 512 }
        ensures placed { (a : Dfa) → PlanOf a self.now → result.now ≡ map (placement_of (forest_of a)) (range_with_len 0 a.states) }
    {
        &self.places
    }

    // The place of a state; none for a number that no state has.
    pub fn placement(&self, state: StateNo) -> Option<Placement>
        ensures value { result ≡ placement_in self.now state.0 }
        ensures placed { (a : Dfa) → PlanOf a self.now → state.0 < a.states → result ≡ Some (placement_of (forest_of a) state.0) }
    {
        self.places.get(usize::from(state)).copied()
    }
}
