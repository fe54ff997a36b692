// Gathering the entries of a table: deeper states first, and states of equal depth by lower number.
ghost use Rattle.std.specs.Prelude.{◌≡◌, ◌<◌, [], map, length, MatchResult};
ghost use Rattle.ternary.specs.declared.refusal.Refusal.TheVariants.{TooManyEntries};
ghost use Rattle.automaton.specs.Sound.{meant};
ghost use Rattle.builder.specs.Gathering.{Gathers, lists_of, level_over};
ghost use Rattle.builder.specs.Lists.{entry_for, table_over};

use crate::gathered::{Gathered, add};
use crate::planned::Planned;
use ternary::refusal::Refusal;
use ternary::words::StateNo;

impl Planned<'_> {
    // Gathers the entries of a state.
    fn gather_state(&self, state: StateNo, gathered: &mut Gathered) -> Result<(), Refusal>
        requires { state.0 < (meant self.now.automaton).states }
        ensures { Gathers gathered.old.items gathered.new.items (map (entry_for (meant self.now.automaton) state.0) (lists_of (meant self.now.automaton) state.0)) result }
    {
        let list = self.list_of(state);
        for word in list.as_slice() {
            add(gathered, self.entry_of(state, *word))?;
        }
        Ok(())
    }

    // Gathers the entries of the states at a depth, lower numbers first.
    fn gather_level(&self, depth: usize, gathered: &mut Gathered) -> Result<(), Refusal>
        ensures { Gathers gathered.old.items gathered.new.items (level_over (meant self.now.automaton) (lists_of (meant self.now.automaton)) depth (meant self.now.automaton).states) result }
    {
        for (s, placement) in self.plan.placements().iter().enumerate() {
            if placement.depth as usize == depth {
                self.gather_state(StateNo(s as u16), gathered)?;
            }
        }
        Ok(())
    }

    // Gathers the entries of all states, deeper ones first, in a vector that the caller holds: it is too large to hand out.
    pub(crate) fn gather(&self, gathered: &mut Gathered) -> Result<(), Refusal>
        requires { gathered.old.items ≡ [] }
        ensures { MatchResult result (λ _. gathered.new.items ≡ table_over (meant self.now.automaton) (lists_of (meant self.now.automaton))) (λ e. (e ≡ TooManyEntries) × (4096 < length (table_over (meant self.now.automaton) (lists_of (meant self.now.automaton))))) }
    {
        let height = self.height();
        // A depth has no slice behind it.
        for depth in (0..height).rev() {
            self.gather_level(depth, gathered)?;
        }
        Ok(())
    }
}
