ghost use Rattle.std.specs.Prelude.{◌≡◌, ◌<◌, Decides, MatchResult};
ghost use Rattle.std.specs.List.{AllByRecursion};
ghost use Rattle.ternary.specs.declared.refusal.Refusal.TheVariants.{BadAutomaton};
ghost use Rattle.automaton.specs.Limits.{handed, Within};

use crate::words::Automaton;
use ternary::refusal::Refusal;
use ternary::words::MOST_STATES;

impl Automaton<'_> {
    // Accepts an automaton that keeps its limits and buffer lengths.
    pub fn limits(&self) -> Result<(), Refusal>
        ensures { MatchResult result (λ _. Within (handed self.now)) (λ e. (e ≡ BadAutomaton) × (Within (handed self.now) → ⊥)) }
    {
        if within(*self) {
            Ok(())
        } else {
            Err(Refusal::BadAutomaton)
        }
    }
}

// Whether the automaton keeps its limits and buffer lengths.
fn within(automaton: Automaton<'_>) -> bool
    ensures { Decides result (Within (handed automaton.entry)) }
{
    let states = usize::from(automaton.states);
    if states == 0 || states > MOST_STATES {
        return false;
    }
    if automaton.start.0 >= automaton.states {
        return false;
    }
    if automaton.successors.len() != 256 * states || automaton.classes.len() != states {
        return false;
    }
    automaton
        .successors
        .iter()
        .all(|next| next.0 < automaton.states)
}
