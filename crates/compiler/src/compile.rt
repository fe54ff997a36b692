//! From patterns to an automaton, with every refusal in its order.
ghost use Rattle.std.specs.Prelude.{◌≡◌, length, IfOk};
ghost use Rattle.automaton.specs.File.{filled};
ghost use Rattle.compiler.specs.Compiled.{told, compile_answer, compiled_rows, compiled_classes, IsBuilt};
ghost use Rattle.compiler.specs.Laws.{KeepsLimits, MarksPatterns, TellsFault, TellsTooMany};

use crate::fill::fill;
use automaton::words::Header;
use positions::build::{build, is_too_large};
use subsets::states::explore;
use syntax::places::place::Place;
use syntax::places::{first_wrong, one_leaves};
use ternary::refusal::Refusal;
use ternary::words::StateNo;

/// Compiles patterns into two lent buffers, the successors state by state and a class for each
/// state, and answers
/// the number of states and the start state.
pub fn compile(
    buffer: &[u8],
    patterns: &[Place],
    successors: &mut [StateNo],
    classes: &mut [u8],
) -> Result<Header, Refusal>
    ensures answer { told result
        ≡ compile_answer buffer.now patterns.now (length successors.old) (length classes.old) }
    ensures successors { successors.new
        ≡ filled result successors.old (compiled_rows buffer.now patterns.now) }
    ensures classes { classes.new
        ≡ filled result classes.old (compiled_classes buffer.now patterns.now) }
    ensures limits { KeepsLimits buffer.now patterns.now result successors.new classes.new }
    ensures marks { MarksPatterns buffer.now patterns.now result successors.new classes.new }
    ensures fault { TellsFault buffer.now patterns.now result successors.new classes.new }
    ensures sets { TellsTooMany buffer.now patterns.now result successors.new classes.new }
{
    compile_into(buffer, patterns, successors, classes)
}

/// Compiles patterns: the first refusal, or the header with both buffers filled.
fn compile_into(
    buffer: &[u8],
    patterns: &[Place],
    successors: &mut [StateNo],
    classes: &mut [u8],
) -> Result<Header, Refusal>
    ensures answer { told result
        ≡ compile_answer buffer.now patterns.now (length successors.old) (length classes.old) }
    ensures successors { successors.new
        ≡ filled result successors.old (compiled_rows buffer.now patterns.now) }
    ensures classes { classes.new
        ≡ filled result classes.old (compiled_classes buffer.now patterns.now) }
    ensures built { IfOk result (λ _. IsBuilt buffer.now patterns.now) }
{
    if one_leaves(buffer, patterns) {
        return Err(Refusal::OutsideBuffer);
    }
    if let Some((pattern, place)) = first_wrong(buffer, patterns) {
        return Err(Refusal::WrongPattern(pattern, place));
    }
    if is_too_large(buffer, patterns) {
        return Err(Refusal::PatternsTooLarge);
    }
    let positions = build(buffer, patterns);
    let Some(states) = explore(&positions) else {
        return Err(Refusal::TooManySets);
    };
    if successors.len() < 256 * states.count || classes.len() < states.count {
        return Err(Refusal::OutputTooShort);
    }
    fill(&positions, &states, successors, classes);
    Ok(Header {
        states: states.count as u16,
        start: StateNo(0),
    })
}
