// The deferrable bytes of a state, and its prefix list.
ghost use Rattle.std.specs.Prelude.{◌≡◌, ℕ, ◌<◌};
ghost use Rattle.automaton.specs.Sound.{meant};
ghost use Rattle.prefix.specs.States.{flags};
ghost use Rattle.builder.specs.Gathering.{lists_of};
ghost use Rattle.builder.specs.Lists.{deferrable};

use crate::planned::Planned;
use arrayvec::ArrayVec;
use prefix::lists::{shared_bytes, shortest_list};
use prefix::word::PrefixWord;
use ternary::words::StateNo;

impl Planned<'_> {
    // The bytes that a state shares with the state that it defers to. A root shares none.
    fn deferrable_of(&self, state: StateNo) -> [bool; 256]
        requires { state.0 < (meant self.now.automaton).states }
        ensures { (byte : ℕ) → byte < 256 → flags result byte ≡ deferrable (meant self.now.automaton) state.0 byte }
    {
        let row = self.automaton.successors(state);
        match self.place_of(state).parent {
            Some(other) => shared_bytes(row, self.automaton.successors(other)),
            None => [false; 256],
        }
    }

    // The prefix list of a state.
    pub(crate) fn list_of(&self, state: StateNo) -> ArrayVec<PrefixWord<StateNo>, 256>
        requires { state.0 < (meant self.now.automaton).states }
        ensures { result.items ≡ lists_of (meant self.now.automaton) state.0 }
    {
        let row = self.automaton.successors(state);
        shortest_list(row, &self.deferrable_of(state))
    }
}
