ghost use Rattle.std.specs.Prelude.{◌≡◌};
ghost use Rattle.automaton.specs.Limits.{handed};
ghost use Rattle.table.specs.Filed.{filed};

use automaton::words::Automaton;
use ternary::words::StateNo;

/// An automaton with the bytes of an image for it, as an operator files them: what `check` is asked about and a load is
/// given, in buffers of its own. Nothing is tested of it before.
#[derive(Clone, Drop)]
pub struct Filing {
    /// The number of states.
    pub states: u16,
    /// The start state.
    pub start: StateNo,
    /// The successors: 256 for each state, in the order of states and bytes.
    pub successors: Vec<StateNo>,
    /// The class of each state, 0 for one that does not mark.
    pub classes: Vec<u8>,
    /// The bytes of the image.
    pub image: Vec<u8>,
}

impl Filing {
    /// The automaton, as it is handed to calls; nothing is copied.
    pub fn automaton(&self) -> Automaton<'_>
        ensures { handed result ≡ filed self.now }
    {
        Automaton {
            states: self.states,
            start: self.start,
            successors: self.successors.as_slice(),
            classes: self.classes.as_slice(),
        }
    }
}
