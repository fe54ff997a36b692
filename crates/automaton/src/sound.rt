// Automata of which it is known that they keep their limits.
ghost use Rattle.std.specs.Prelude.{◌≡◌, MatchResult};
ghost use Rattle.std.proofs.Props.{props};
ghost use Rattle.ternary.specs.declared.refusal.Refusal.TheVariants.{BadAutomaton};
ghost use Rattle.automaton.specs.Limits.{handed, Within};

use crate::words::Automaton;
use ternary::refusal::Refusal;

mod asking;

// An automaton that keeps its limits and buffer lengths. Its parts are handed out by total calls.
#[derive(Clone, Copy)]
pub struct SoundAutomaton<'a> {
    automaton: Automaton<'a>,
    ghost within: { Within (handed automaton) } by { Prim.hlevel props },
}

impl<'a> Automaton<'a> {
    // The automaton as one that keeps its limits, or the refusal of one that does not.
    pub fn sound(self) -> Result<SoundAutomaton<'a>, Refusal>
        ensures { MatchResult result (λ s. s.automaton ≡ self.entry) (λ e. (e ≡ BadAutomaton) × (Within (handed self.entry) → ⊥)) }
    {
        self.limits()?;
        Ok(SoundAutomaton { automaton: self })
    }
}
