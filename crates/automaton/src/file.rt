ghost use Rattle.std.specs.Prelude.{◌≡◌, length};
ghost use Rattle.automaton.specs.File.{decode, header_of, rows, classes as classes_of, read_answer, filled};
ghost use Rattle.automaton.specs.Laws.{KeepsLimits, IsItsSourcesFile, GivesSourceBack, GivesAutomatonBack};

use crate::file::faults::check_file;
use crate::file::fill::fill;
use crate::words::Header;
use fields::word_at;
use ternary::refusal::Refusal;
use ternary::words::StateNo;

mod faults;
mod fill;
mod record;

// Reads an automaton file into two lent buffers, the successors state by state and a class for each state,
// and answers the number of states and the start state.
pub fn read(file: &[u8], successors: &mut [StateNo], classes: &mut [u8]) -> Result<Header, Refusal>
    ensures answer { result ≡ read_answer file.now (length successors.old) (length classes.old) }
    ensures successors { successors.new ≡ filled result successors.old (rows (decode file.now)) }
    ensures classes { classes.new ≡ filled result classes.old (classes_of (decode file.now)) }
    ensures limits { KeepsLimits file.now result successors.old successors.new classes.old classes.new }
    ensures exact { IsItsSourcesFile file.now result successors.old successors.new classes.old classes.new }
    ensures source { GivesSourceBack file.now result successors.old successors.new classes.old classes.new }
    ensures automaton { GivesAutomatonBack file.now result successors.old successors.new classes.old classes.new }
{
    read_into(file, successors, classes)
}

// Reads a file: its first fault, a buffer that is too short, or the header with both buffers filled.
fn read_into(file: &[u8], successors: &mut [StateNo], classes: &mut [u8]) -> Result<Header, Refusal>
    ensures answer { result ≡ read_answer file.now (length successors.old) (length classes.old) }
    ensures successors { successors.new ≡ filled result successors.old (rows (decode file.now)) }
    ensures classes { classes.new ≡ filled result classes.old (classes_of (decode file.now)) }
{
    check_file(file)?;
    let header = Header::read(file);
    let states = header.states as usize;
    if successors.len() < 256 * states || classes.len() < states {
        return Err(Refusal::OutputTooShort);
    }
    fill(&file[9..], successors, classes, states);
    Ok(header)
}

impl Header {
    // The number of states and the start state that a file says.
    pub(crate) fn read(file: &[u8]) -> Header
        ensures { result ≡ header_of file.now }
    {
        Header {
            states: word_at(file, 5),
            start: StateNo(word_at(file, 7)),
        }
    }
}
