// The deferrable bytes of a state, its prefix list, and whether the closing entry of its list is unrolled.
ghost use Rattle.std.specs.Prelude.{◌≡◌, ℕ, ◌<◌, nat_eq};
ghost use Rattle.automaton.specs.Sound.{meant};
ghost use Rattle.prefix.specs.States.{flags};
ghost use Rattle.builder.specs.Gathering.{lists_of};
ghost use Rattle.builder.specs.Lists.{deferrable};
ghost use Rattle.pair_builder.specs.Choosing.{front_of, opens};

use crate::planned::Planned;
use arrayvec::ArrayVec;
use prefix::lists::{shared_bytes, shortest_list};
use prefix::word::PrefixWord;
use ternary::words::StateNo;

impl Planned<'_> {
    // The bytes that a state shares with the state that it defers to. A root shares none.
    fn deferrable_of(&self, state: StateNo) -> [bool; 256]
        requires { state.0 < (meant self.now.automaton).states }
        ensures { (byte : ℕ) → byte < 256 → flags result byte ≡ deferrable
            (meant self.now.automaton) state.0 byte }
    {
        let row = self.automaton.successors(state);
        match self.place_of(state).parent {
            Some(other) => shared_bytes(row, self.automaton.successors(other)),
            None => [false; 256],
        }
    }

    // The prefix list of a state.
    pub(crate) fn list_of(&self, state: StateNo) -> ArrayVec<PrefixWord<StateNo>, 256>
        requires { state.0 < (meant self.now.automaton).states }
        ensures { result.items ≡ lists_of (meant self.now.automaton) state.0 }
    {
        let row = self.automaton.successors(state);
        shortest_list(row, &self.deferrable_of(state))
    }

    // The bytes that lead to the state itself.
    fn own_bytes(&self, state: StateNo) -> [bool; 256]
        ensures { (byte : ℕ) → byte < 256 → flags result byte ≡ nat_eq
            ((meant self.now.automaton).next state.0 byte) state.0 }
    {
        let row = self.automaton.successors(state);
        shared_bytes(row, &[state; 256])
    }

    // The words before a closing word that leads to the state itself: a shortest list that may leave out the bytes that do.
    pub(crate) fn front_of(&self, state: StateNo) -> ArrayVec<PrefixWord<StateNo>, 256>
        ensures { result.items ≡ front_of (meant self.now.automaton) state.0 }
    {
        let row = self.automaton.successors(state);
        shortest_list(row, &self.own_bytes(state))
    }

    // Whether a state is a root of class 0 with a shortest list that closes with a default word that leads to it.
    pub(crate) fn opens(&self, state: StateNo) -> bool
        requires { state.0 < (meant self.now.automaton).states }
        ensures { result ≡ opens (meant self.now.automaton) state.0 }
    {
        self.place_of(state).parent.is_none()
            && self.automaton.class(state) == 0
            && self.front_of(state).len() + 1 == self.list_of(state).len()
    }
}
