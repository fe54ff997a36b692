// A plan as it is printed: who defers to whom, and the codes and shadows of the states.
ghost use Rattle.std.specs.Prelude.{◌≡◌, IfOk, string_bytes};
ghost use Rattle.automaton.specs.Runs.{Dfa};
ghost use Rattle.forest.specs.Plan.{PlanOf};
ghost use Rattle.printed.specs.Lines.{width_text, parent_text, place_text, state_text, ended, plan_text, small_answer, FilePlan, file_text};

use crate::bits::{code_text, word_text};
use crate::reading::{SMALL_WORK, SmallAutomaton};
use crate::refused::{ended_line, refusal_line};
use forest::plan::{Placement, Plan};
use std::alloc::{AllocError, Global};
use ternary::refusal::Refusal;
use ternary::words::StateNo;

// What is printed for an automaton file: its plan, or why it is refused.
pub fn file_text(heap: Global, file: &[u8]) -> Result<String, AllocError>
    ensures { IfOk result (λ s. string_bytes s ≡ file_text file.now) }
{
    match plan_file(file) {
        Ok(plan) => plan_text(heap, &plan),
        Err(refusal) => ended_line(heap, refusal_line(heap, refusal)?),
    }
}

// The plan of the automaton in a file, or why it is refused: first for its length, then for a fault, then for its
// number of states.
pub fn plan_file(file: &[u8]) -> Result<Plan, Refusal>
    ensures { FilePlan file.now (small_answer file.now) result }
{
    let mut small = SmallAutomaton::new();
    small.read(file)?;
    let mut work = [0; SMALL_WORK];
    Plan::of(small.automaton(), &mut work)
}

// The head line of a plan: how many bits a code has.
pub fn width_line(heap: Global, width: u8) -> Result<String, AllocError>
    ensures { IfOk result (λ s. string_bytes s ≡ width_text width) }
{
    format!(in heap; "{width} code bits")
}

// The line of a state: its number, code and shadow, and the state that it defers to unless it is a root.
pub fn state_line(
    heap: Global,
    width: u8,
    state: StateNo,
    placement: Placement,
) -> Result<String, AllocError>
    ensures { IfOk result (λ s. string_bytes s ≡ state_text width state.0 placement) }
{
    let number = state.0;
    let place = place_text(heap, width, placement)?;
    format!(in heap; "state {number} {place}")
}

// A state's place: its code, its shadow, and whom it defers to.
fn place_text(heap: Global, width: u8, placement: Placement) -> Result<String, AllocError>
    ensures { IfOk result (λ s. string_bytes s ≡ place_text width placement) }
{
    let code = code_text(heap, width, placement.code)?;
    let shadow = word_text(heap, width, placement.code.0, placement.mask)?;
    let parent = parent_text(heap, placement.parent)?;
    format!(in heap; "code {code} shadow {shadow} {parent}")
}

// Whom a state defers to, or that it is a root.
fn parent_text(heap: Global, parent: Option<StateNo>) -> Result<String, AllocError>
    ensures { IfOk result (λ s. string_bytes s ≡ parent_text parent) }
{
    match parent {
        Some(StateNo(number)) => format!(in heap; "defers to {number}"),
        None => String::from_str(heap, "root"),
    }
}

// A plan as it is printed: its head line, and a line for each state.
pub fn plan_text(heap: Global, plan: &Plan) -> Result<String, AllocError>
    ensures { (a : Dfa) → PlanOf a plan.now → IfOk result (λ s. string_bytes s ≡ plan_text a) }
{
    let width = plan.width();
    let placements = plan.placements();
    let mut text = ended_line(heap, width_line(heap, width)?)?;
    for (s, placement) in placements.iter().enumerate() {
        let line = state_line(heap, width, StateNo(s as u16), *placement)?;
        text.push_str(ended_line(heap, line)?.as_str())?;
    }
    Ok(text)
}
