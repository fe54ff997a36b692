ghost use Rattle.std.specs.Prelude.{◌≡◌};
ghost use Rattle.automaton.specs.Limits.{handed};
ghost use Rattle.pair_commission.specs.Runs.{filed};

use automaton::words::Automaton;
use std::alloc::AllocError;
use ternary::refusal::Refusal;
use ternary::words::{Mark, Progress, StateNo};

/// An automaton with the bytes of a two-byte image and of a one-byte image for it.
#[derive(Clone, Drop)]
pub struct Filing {
    pub states: u16,
    pub start: StateNo,
    pub successors: Vec<StateNo>,
    pub classes: Vec<u8>,
    pub two: Vec<u8>,
    pub one: Vec<u8>,
}

impl Filing {
    /// The automaton, as it is handed to calls.
    pub fn automaton(&self) -> Automaton<'_>
        ensures { handed result ≡ filed self.now }
    {
        Automaton {
            states: self.states,
            start: self.start,
            successors: self.successors.as_slice(),
            classes: self.classes.as_slice(),
        }
    }
}

/// One call of a scanner, with all that is passed to it: what is loaded; a piece and how many mark slots there are for
/// it; or a restart.
#[derive(Drop)]
pub enum Call {
    Load(Filing),
    Feed(Vec<u8>, usize),
    Restart,
}

/// What a call of a scanner did: a load or a restart that is accepted, or a feed with its marks.
#[derive(Drop)]
pub enum Done {
    Accepted,
    Fed(Progress, Vec<Mark>),
}

/// What a call of a scanner answers: what it did, or a refusal.
pub type Answer = Result<Done, Refusal>;

/// What a commission did: what the checks answered of the vendor's two images, the sizes of the images that were built and
/// accepted, the answers of the calls, and whether memory sufficed for all of them.
#[derive(Drop)]
pub struct Report {
    pub two_vendor: Result<(), Refusal>,
    pub one_vendor: Result<(), Refusal>,
    pub two_built: Result<usize, Refusal>,
    pub one_built: Result<usize, Refusal>,
    pub answers: Vec<Answer>,
    pub ended: Result<(), AllocError>,
}
