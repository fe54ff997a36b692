pub use table::filing::Filing;
use ternary::refusal::Refusal;
use ternary::words::{Mark, Progress};

/// The coaches that a gateway serves: their numbers are those below this one.
pub const COACHES: usize = 64;

/// The most bytes that one turn may take.
pub const MOST_QUOTA: usize = 4_096;

/// What a turn did: the coach that it served, and what the walk over that coach's bytes answered. On a gateway that was
/// loaded the walk is never refused (`laws::laws`).
#[derive(Debug, Drop)]
pub struct Served {
    /// The number of the coach, below 64.
    pub coach: u8,
    /// The walk's answer: bytes taken, marks written into the slots, code reached. Places of marks count from the front of
    /// the bytes that this turn walked over.
    pub walk: Result<Progress, Refusal>,
}

/// A part of the receive buffer that waits for a coach.
#[derive(Clone, Copy, PartialEq, Eq, Debug)]
pub struct Part {
    /// The place of its first byte in the receive buffer.
    pub place: usize,
    /// Its bytes; 0 where none wait.
    pub length: usize,
}

/// What a turn is given.
#[derive(Drop)]
pub struct Turn {
    /// What the receive buffer holds at this turn.
    pub buffer: Vec<u8>,
    /// The mark slots.
    pub slots: usize,
    /// The most bytes that the turn may take: 1 to 4,096, and no more than the slots.
    pub quota: usize,
}

/// One call of a gateway, with all that is passed to it.
#[derive(Drop)]
pub enum Call {
    /// Loads what is filed.
    Load(Filing),
    /// Opens a coach.
    Open(u8),
    /// Names the part that waits for a coach.
    Post(u8, Part),
    /// Serves the next coach that waits.
    Turn(Turn),
    /// Closes a coach.
    Close(u8),
}

/// What a call that is not refused did.
#[derive(Drop)]
pub enum Done {
    /// A load, an open, a post or a close.
    Accepted,
    /// A turn that found no bytes waiting.
    Idle,
    /// A turn that served a coach, with the marks that its walk wrote.
    Served(Served, Vec<Mark>),
}

/// What a call of a gateway answers: what it did, or a refusal.
pub type Answer = Result<Done, Refusal>;
