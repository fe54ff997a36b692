// Who defers to whom, by the rule.
ghost use Rattle.std.specs.Prelude.{◌*◌, ◌≤◌, length};
ghost use Rattle.automaton.specs.Sound.{meant};
ghost use Rattle.forest.specs.Placing.{AllInPlace};

use crate::joining::Grove;
use crate::placing::{Place, places};
use crate::sharing::ByteCounts;
use arrayvec::ArrayVec;
use automaton::sound::SoundAutomaton;
use ternary::words::MOST_STATES;

// The place of each state of an automaton.
pub(crate) fn defer(
    automaton: SoundAutomaton<'_>,
    counts: &mut [u32],
) -> ArrayVec<Place, MOST_STATES>
    requires room { (meant automaton).states * (meant automaton).states ≤ length counts.old }
    ensures { AllInPlace (meant automaton.entry) result.items }
{
    let counts = ByteCounts::of(automaton, counts);
    let grove = Grove::of(&counts);
    places(&grove, &counts)
}
