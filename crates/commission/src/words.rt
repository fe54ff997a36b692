use std::alloc::AllocError;
use table::filing::Filing;
use ternary::refusal::Refusal;
use ternary::words::{Mark, Progress};

// One call of a scanner, with all that is passed to it: what is loaded; a piece and how many mark slots there are for
// it; or a restart.
#[derive(Drop)]
pub enum Call {
    Load(Filing),
    Feed(Vec<u8>, usize),
    Restart,
}

// What a call of a scanner did: a load or a restart that is accepted, or a feed with its marks.
#[derive(Drop)]
pub enum Done {
    Accepted,
    Fed(Progress, Vec<Mark>),
}

// What a call of a scanner answers: what it did, or a refusal.
pub type Answer = Result<Done, Refusal>;

// What a commission did: what check answered of the vendor's image, the size of the image that was built and accepted,
// the answers of the calls, and whether memory sufficed for all of them.
#[derive(Drop)]
pub struct Report {
    pub vendor: Result<(), Refusal>,
    pub built: Result<usize, Refusal>,
    pub answers: Vec<Answer>,
    pub ended: Result<(), AllocError>,
}
