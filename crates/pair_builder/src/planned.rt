// An automaton with its plan.
ghost use Rattle.std.specs.Prelude.{◌≡◌, ◌≤◌, length, MatchResult, Err};
ghost use Rattle.std.proofs.Props.{props};
ghost use Rattle.automaton.specs.Limits.{handed};
ghost use Rattle.automaton.specs.Sound.{meant};
ghost use Rattle.forest.specs.Plan.{PlanOf, PlanAnswer};
ghost use Rattle.builder.specs.Build.{work_needed};

use automaton::sound::SoundAutomaton;
use automaton::words::Automaton;
use forest::plan::Plan;
use ternary::refusal::Refusal;

// An automaton that keeps its limits, and its plan.
#[derive(Drop)]
pub(crate) struct Planned<'a> {
    pub(crate) automaton: SoundAutomaton<'a>,
    pub(crate) plan: Plan,
    ghost planned: { PlanOf (meant automaton) plan } by { Prim.hlevel props },
}

impl<'a> Planned<'a> {
    // Plans an automaton in the lent numbers, or refuses it.
    pub(crate) fn of(automaton: Automaton<'a>, work: &mut [u32]) -> Result<Planned<'a>, Refusal>
        ensures { MatchResult result (λ p. (p.automaton.automaton ≡ automaton.entry) ×
            (work_needed (handed automaton.entry) ≤ length work.old))
            (λ e. PlanAnswer (handed automaton.entry) work.old work.new (Err e)) }
    {
        let sound = automaton.sound()?;
        let plan = Plan::of(automaton, work)?;
        Ok(Planned {
            automaton: sound,
            plan,
        })
    }
}
