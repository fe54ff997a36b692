// Reading such an automaton, and lending it to calls.
ghost use Rattle.std.specs.Prelude.{◌≡◌};
ghost use Rattle.automaton.specs.Limits.{handed};
ghost use Rattle.printed.specs.Lines.{small_answer};
ghost use Rattle.printed.specs.Small.{held, ReadSmall};

use crate::reading::{LONGEST_FILE, SMALL_STATES, SMALL_SUCCESSORS, SmallAutomaton};
use automaton::file::read;
use automaton::words::{Automaton, Header};
use ternary::refusal::Refusal;
use ternary::words::StateNo;

impl SmallAutomaton {
    // Room for an automaton, with none read yet.
    pub(crate) fn new() -> SmallAutomaton {
        SmallAutomaton {
            header: Header {
                states: 0,
                start: StateNo(0),
            },
            successors: [StateNo(0); SMALL_SUCCESSORS],
            classes: [0; SMALL_STATES],
        }
    }

    // Reads the automaton in a file into the room, which is too large to hand out; or refuses the file: first for its length,
    // then for a fault, then for its number of states.
    pub(crate) fn read(&mut self, file: &[u8]) -> Result<(), Refusal>
        ensures { ReadSmall file.now (small_answer file.now) self.new result }
    {
        if file.len() as u64 > LONGEST_FILE {
            return Err(Refusal::OutputTooShort);
        }
        let header = read(file, &mut self.successors, &mut self.classes)?;
        self.header = header;
        Ok(())
    }

    // The automaton, as it is handed to calls.
    pub(crate) fn automaton(&self) -> Automaton<'_>
        ensures { handed result ≡ held self.now }
    {
        let states = self.header.states as usize;
        Automaton {
            states: self.header.states,
            start: self.header.start,
            successors: &self.successors[0..256 * states],
            classes: &self.classes[0..states],
        }
    }
}
