// Who defers to whom, and the codes and shadows of the states.
ghost use Rattle.std.specs.Prelude.{◌≡◌, ◌+◌, ◌*◌, ◌≤◌, length, IfOk, OnOk, None};
ghost use Rattle.automaton.specs.Limits.{handed, dfa};
ghost use Rattle.automaton.specs.Sound.{meant};
ghost use Rattle.forest.specs.Codes.{numbered};
ghost use Rattle.forest.specs.Heaviest.{HeaviestPlan};
ghost use Rattle.forest.specs.Laws.{PlanLaws};
ghost use Rattle.forest.specs.Plan.{PlanOf, Planned, PlanAnswer, states_of};

use crate::codes::{Deferment, bits_for, each_state, shadow_mask};
use crate::deferment::defer;
use crate::plan::{FIXED_WORK, Placement, Plan};
use automaton::sound::SoundAutomaton;
use automaton::words::Automaton;
use ternary::refusal::Refusal;
use ternary::words::{StateCode, StateNo};

impl Plan {
    // The plan of an automaton; the shared counts of its states are worked out in the lent numbers.
    pub fn of(automaton: Automaton<'_>, work: &mut [u32]) -> Result<Plan, Refusal>
        ensures answer { PlanAnswer (handed automaton.entry) work.old work.new result }
        ensures laws { OnOk result (PlanLaws (dfa (handed automaton.entry))) }
        ensures heaviest { IfOk result (HeaviestPlan (dfa (handed automaton.entry))) }
    {
        let automaton = automaton.sound()?;
        let states = automaton.states() as usize;
        if work.len() < states * states + FIXED_WORK {
            return Err(Refusal::WorkTooShort);
        }
        Ok(planned(automaton, work))
    }
}

// The plan of an automaton. Where codes would pass 16 bits, nothing is joined.
fn planned(automaton: SoundAutomaton<'_>, counts: &mut [u32]) -> Plan
    requires room { (meant automaton).states * (meant automaton).states ≤ length counts.old }
    ensures { PlanOf (meant automaton.entry) result }
{
    let states = automaton.states();
    let places = defer(automaton, counts);
    let joined = Deferment { places: &places };
    joined.plan().unwrap_or_else(|| flat(states))
}

// The plan of so many states that are all roots. A root's code is its number among the roots, and all states are roots in
// state order.
fn flat(states: u16) -> Plan
    requires { states ≤ 512 }
    ensures { (states_of result ≡ states) × Planned (numbered states (λ s. None) (λ s. 0)) result }
{
    let width = bits_for(states as u32);
    let mask = shadow_mask(width, width);
    let places = each_state(
        states,
        |StateNo(root)| Placement {
            parent: None,
            depth: 0,
            code: StateCode(root),
            mask,
        },
    );
    Plan {
        width: width as u8,
        places,
    }
}
