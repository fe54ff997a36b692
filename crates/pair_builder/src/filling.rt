// Gathering the entries of a two-byte table: deeper states first, and states of equal depth by lower number.
ghost use Rattle.std.specs.Prelude.{◌≡◌, ◌<◌, true, map, length, MatchResult};
ghost use Rattle.std.specs.List.{AllByRecursion};
ghost use Rattle.ternary.specs.declared.refusal.Refusal.TheVariants.{TooManyEntries};
ghost use Rattle.automaton.specs.Sound.{meant};
ghost use Rattle.builder.specs.Lists.{entry_for};
ghost use Rattle.pair_builder.specs.Choosing.{Gathers, choice_of};
ghost use Rattle.pair_builder.specs.Unrolled.{single, double, closing_word, pair_block, pair_level, pair_table};

use crate::entries::{Gathered, add, double, single};
use crate::planned::Planned;
use prefix::word::PrefixWord;
use ternary::entry::Entry;
use ternary::refusal::Refusal;
use ternary::words::StateNo;

// The word of a closing default entry that leads to a state.
fn closing_word(state: StateNo) -> PrefixWord<StateNo>
    ensures { result ≡ closing_word state.0 }
{
    PrefixWord {
        bits: 0,
        value: 0,
        next: state,
    }
}

impl Planned<'_> {
    // Gathers an entry of one byte for each word of a state.
    fn gather_singles(
        &self,
        state: StateNo,
        words: &[PrefixWord<StateNo>],
        gathered: &mut Gathered,
    ) -> Result<(), Refusal>
        requires state { state.0 < (meant self.now.automaton).states }
        requires words { AllByRecursion (λ w. w.next.0 < (meant self.now.automaton).states)
            words.now }
        ensures { Gathers gathered.old.items gathered.new.items (map
            (λ w. single (entry_for (meant self.now.automaton) state.0 w)) words.now) result }
    {
        for word in words {
            add(gathered, single(self.entry_of(state, *word)))?;
        }
        Ok(())
    }

    // Gathers an entry of two bytes for each word of a state, behind the first entry.
    fn gather_doubles(
        &self,
        state: StateNo,
        first: Entry,
        words: &[PrefixWord<StateNo>],
        gathered: &mut Gathered,
    ) -> Result<(), Refusal>
        requires state { state.0 < (meant self.now.automaton).states }
        requires words { AllByRecursion (λ w. w.next.0 < (meant self.now.automaton).states)
            words.now }
        ensures { Gathers gathered.old.items gathered.new.items (map
            (λ w. double first (entry_for (meant self.now.automaton) state.0 w)) words.now)
            result }
    {
        for later in words {
            add(gathered, double(first, self.entry_of(state, *later)))?;
        }
        Ok(())
    }

    // Gathers the entries of a root whose closing entry is unrolled.
    fn gather_opened(&self, state: StateNo, gathered: &mut Gathered) -> Result<(), Refusal>
        requires state { state.0 < (meant self.now.automaton).states }
        requires opened { (choice_of (meant self.now.automaton)).opened state.0 ≡ true }
        ensures { Gathers gathered.old.items gathered.new.items
            (pair_block (meant self.now.automaton) (choice_of (meant self.now.automaton)) state.0)
            result }
    {
        let front = self.front_of(state);
        let last = self.entry_of(state, closing_word(state));
        self.gather_singles(state, front.as_slice(), gathered)?;
        self.gather_doubles(state, last, front.as_slice(), gathered)?;
        add(gathered, double(last, last))
    }

    // Gathers the entries of a state.
    fn gather_state(&self, state: StateNo, gathered: &mut Gathered) -> Result<(), Refusal>
        requires { state.0 < (meant self.now.automaton).states }
        ensures { Gathers gathered.old.items gathered.new.items
            (pair_block (meant self.now.automaton) (choice_of (meant self.now.automaton)) state.0)
            result }
    {
        if self.opens(state) {
            self.gather_opened(state, gathered)
        } else {
            let list = self.list_of(state);
            self.gather_singles(state, list.as_slice(), gathered)
        }
    }

    // Gathers the entries of the states at a depth, lower numbers first.
    fn gather_level(&self, depth: usize, gathered: &mut Gathered) -> Result<(), Refusal>
        ensures { Gathers gathered.old.items gathered.new.items
            (pair_level (meant self.now.automaton) (choice_of (meant self.now.automaton)) depth
            (meant self.now.automaton).states) result }
    {
        for (s, placement) in self.plan.placements().iter().enumerate() {
            if placement.depth as usize == depth {
                self.gather_state(StateNo(s as u16), gathered)?;
            }
        }
        Ok(())
    }

    // The entries of all states, deeper ones first.
    pub(crate) fn entries(&self) -> Result<Gathered, Refusal>
        ensures { MatchResult result (λ gathered. gathered.items ≡ pair_table
            (meant self.now.automaton) (choice_of (meant self.now.automaton)))
            (λ e. (e ≡ TooManyEntries) ×
            (4096 < length (pair_table (meant self.now.automaton)
            (choice_of (meant self.now.automaton))))) }
    {
        let height = self.height();
        let mut gathered = Gathered::new();
        // A depth has no slice behind it.
        for depth in (0..height).rev() {
            self.gather_level(depth, &mut gathered)?;
        }
        Ok(gathered)
    }
}
