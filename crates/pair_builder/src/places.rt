// The places of states in a plan, and the entries of their words.
ghost use Rattle.std.specs.Prelude.{◌≡◌, ◌<◌, map};
ghost use Rattle.std.specs.List.{range_with_len};
ghost use Rattle.automaton.specs.Sound.{meant};
ghost use Rattle.forest.specs.Deferment.{forest_of};
ghost use Rattle.forest.specs.Plan.{placement_of};
ghost use Rattle.forest.specs.Table.{height};
ghost use Rattle.builder.specs.Lists.{code_of, entry_for};

use crate::planned::Planned;
use arrayvec::ArrayVec;
use forest::plan::Placement;
use prefix::word::PrefixWord;
use ternary::entry::Entry;
use ternary::words::{MOST_STATES, StateCode, StateNo};

impl Planned<'_> {
    // The place of a state.
    pub(crate) fn place_of(&self, state: StateNo) -> Placement
        requires { state.0 < (meant self.now.automaton).states }
        ensures { result ≡ placement_of (forest_of (meant self.now.automaton)) state.0 }
    {
        self.plan.placements()[usize::from(state)]
    }

    // One more than the largest depth of a state.
    pub(crate) fn height(&self) -> usize
        ensures { result ≡ height (forest_of (meant self.now.automaton))
            (meant self.now.automaton).states }
    {
        let placements = self.plan.placements().iter();
        placements
            .map(|placement| placement.depth as usize + 1)
            .fold(0, usize::max)
    }

    // The codes of the states, in state order.
    pub(crate) fn codes(&self) -> ArrayVec<StateCode, MOST_STATES>
        ensures { result.items ≡ map (code_of (meant self.now.automaton))
            (range_with_len 0 (meant self.now.automaton).states) }
    {
        let mut codes = ArrayVec::new();
        // `extend` would answer a refusal that cannot be: there is room for all states.
        for placement in self.plan.placements() {
            codes.push(placement.code);
        }
        codes
    }

    // The entry of a word: the state's shadow with the word, and the code and the class of the word's successor.
    pub(crate) fn entry_of(&self, state: StateNo, word: PrefixWord<StateNo>) -> Entry
        requires { (state.0 < (meant self.now.automaton).states) ×
            (word.next.0 < (meant self.now.automaton).states) }
        ensures { result ≡ entry_for (meant self.now.automaton) state.0 word }
    {
        let own = self.place_of(state);
        let next = self.place_of(word.next);
        Entry::new(
            own.code.0,
            own.mask,
            word.byte_value(),
            word.byte_mask(),
            next.code,
            self.automaton.class(word.next),
        )
    }
}
