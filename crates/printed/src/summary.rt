ghost use Rattle.std.specs.Prelude.{◌≡◌, IfOk, Some, string_bytes};
ghost use Rattle.printed.specs.Lines.{marking, summarized, summary_text, line_of};

use crate::reading::SmallAutomaton;
use crate::refused::refusal_line;
use std::alloc::{AllocError, Global};
use std::fmt;
use ternary::refusal::Refusal;
use ternary::words::StateNo;

// What is printed of an automaton: the number of its states, its start state, and how many states mark.
#[derive(Clone, Copy)]
pub struct Summary {
    pub states: u16,
    pub start: StateNo,
    pub marking: usize,
}

// The line that is printed for a file: its summary, or why it is refused.
pub fn summary_line(heap: Global, file: &[u8]) -> Result<String, AllocError>
    ensures { IfOk result (λ s. string_bytes s ≡ line_of file.now) }
{
    match summarize(file) {
        Ok(summary) => summary.line(heap),
        Err(refusal) => refusal_line(heap, refusal),
    }
}

impl Summary {
    // The summary as it is printed.
    pub fn line(&self, heap: Global) -> Result<String, AllocError>
        ensures { IfOk result (λ s. string_bytes s ≡ summary_text self.now) }
    {
        format!(in heap; "{self}")
    }
}

// As a summary is printed: how many states, the start state, how many states mark.
impl fmt::Display for Summary {
    ghost output = { λ summary. Some (summary_text summary) };

    fn fmt<W: fmt::Write>(&self, f: &mut fmt::Formatter<W>) -> fmt::Result {
        let states = self.states;
        let start = self.start.0;
        let marking = self.marking;
        write!(f, "{states} states, start {start}, {marking} marking")
    }
}

// The summary of the automaton in a file, or why it is refused: first for its length, then for a fault, then
// for its number of states.
pub fn summarize(file: &[u8]) -> Result<Summary, Refusal>
    ensures { result ≡ summarized file.now }
{
    let mut small = SmallAutomaton::new();
    small.read(file)?;
    let automaton = small.automaton();
    Ok(Summary {
        states: automaton.states,
        start: automaton.start,
        marking: count_marking(automaton.classes),
    })
}

// How many of the classes mark.
fn count_marking(classes: &[u8]) -> usize
    ensures { result ≡ marking classes.now }
{
    classes.iter().filter(|class| **class != 0).count()
}
