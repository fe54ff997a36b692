ghost use Rattle.std.specs.Prelude.{◌≡◌, ◌+◌, ◌^◌, ◌<◌, ◌≤◌, drop, length, MatchOption, Decides};
ghost use Rattle.scanner.specs.Walks.{Outcome};
ghost use Rattle.gateway.specs.Sessions.{closed, opened, posted, IsOpen, IsShut, AllClosed, waits, part_end, taken, marks_written, walked, piece, IsNext};

use crate::words::COACHES;
use card::rules::Card;
use scanner::scanner::code_reached;
use scanner::walk::walk;
use ternary::refusal::Refusal;
use ternary::words::{Mark, Progress, StateCode};

/// What a gateway keeps of one coach from its open to its close, as a server keeps a session of each peer: where the
/// coach's run stands, and which part of the receive buffer waits. The record of one that is not open has code 0 and
/// nothing waiting. Only a gateway makes records and reads them.
#[derive(Clone, Copy, PartialEq, Eq, Debug)]
pub struct Session {
    is_open: bool,
    code: StateCode,
    place: usize,
    waiting: usize,
}

impl Session {
    // The record of a coach that is not open.
    pub(crate) fn closed() -> Session
        ensures { result ≡ closed }
    {
        Session {
            is_open: false,
            code: StateCode(0),
            place: 0,
            waiting: 0,
        }
    }

    // The record of a coach that starts at a code.
    pub(crate) fn opened(code: StateCode) -> Session
        ensures { result ≡ opened code }
    {
        Session {
            is_open: true,
            code,
            place: 0,
            waiting: 0,
        }
    }

    // The same coach, with this part of the receive buffer waiting.
    pub(crate) fn posted(&self, place: usize, waiting: usize) -> Session
        ensures { result ≡ posted self.now place waiting }
    {
        Session {
            is_open: self.is_open,
            code: self.code,
            place,
            waiting,
        }
    }

    // Whether bytes of the coach wait.
    pub(crate) fn waits(&self) -> bool
        ensures { result ≡ waits self.now }
    {
        self.is_open && self.waiting > 0
    }

    // Whether the part that waits lies in a buffer of so many bytes.
    pub(crate) fn lies_within(&self, bytes: usize) -> bool
        ensures { Decides result (part_end self.now ≤ bytes) }
    {
        self.place <= bytes && self.waiting <= bytes - self.place
    }

    // Walks over the front of the part that waits, no more than a quota of it: what is taken no longer waits.
    pub(crate) fn serve<C: Card>(
        &mut self,
        card: &C,
        buffer: &[u8],
        marks: &mut [Mark],
        quota: usize,
    ) -> Result<Progress, Refusal>
        requires { part_end self.old ≤ length buffer.now }
        ensures outcome { Outcome (C.entries card.now) self.old.code
            (piece self.old buffer.now quota) marks.old marks.new result }
        ensures session { self.new ≡ walked self.old result }
        ensures slots { drop (marks_written result) marks.new ≡ drop (marks_written result) marks.old }
    {
        let size = quota.min(self.waiting);
        let answer = walk(
            card,
            self.code,
            &buffer[self.place..self.place + size],
            marks,
        );
        *self = after_walk(*self, size, &answer);
        answer
    }
}

// A table in which no coach is open.
pub(crate) fn all_closed() -> [Session; COACHES]
    ensures { AllClosed result }
{
    [Session::closed(); COACHES]
}

// A session after a walk over `size` of its bytes.
fn after_walk(session: Session, size: usize, answer: &Result<Progress, Refusal>) -> Session
    requires room { session.place + size < 2 ^ 64 }
    requires waiting { size ≤ session.waiting }
    requires taken { taken answer.now ≤ size }
    ensures { result ≡ walked session answer.now }
{
    let taken = bytes_taken(answer);
    Session {
        is_open: session.is_open,
        code: code_reached(session.code, answer),
        place: session.place + taken,
        waiting: session.waiting - taken,
    }
}

// The bytes that a walk took, also where it met a byte without an entry.
fn bytes_taken(answer: &Result<Progress, Refusal>) -> usize
    ensures { result ≡ taken answer.now }
{
    match answer {
        Ok(progress) => progress.taken,
        Err(Refusal::NoEntry(progress)) => progress.taken,
        Err(_) => 0,
    }
}

// The place in the table of the record of a coach that is open; none where no such coach has the number.
pub(crate) fn open_place(sessions: &[Session], coach: u8) -> Option<usize>
    requires { length sessions.now ≡ 64 }
    ensures { MatchOption result
        (IsOpen sessions.now coach → ⊥)
        (λ place. (place ≡ coach) × IsOpen sessions.now coach) }
{
    let place = usize::from(coach);
    if place < sessions.len() && sessions[place].is_open {
        Some(place)
    } else {
        None
    }
}

// The place in the table of the record of a coach that is not open; none where no such coach has the number.
pub(crate) fn shut_place(sessions: &[Session], coach: u8) -> Option<usize>
    requires { length sessions.now ≡ 64 }
    ensures { MatchOption result
        (IsShut sessions.now coach → ⊥)
        (λ place. (place ≡ coach) × IsShut sessions.now coach) }
{
    let place = usize::from(coach);
    if place < sessions.len() && !sessions[place].is_open {
        Some(place)
    } else {
        None
    }
}

// The first coach with bytes waiting, in cyclic order from `from`.
pub(crate) fn next_waiting(sessions: &[Session], from: u8) -> Option<u8>
    requires { length sessions.now ≡ 64 }
    ensures { IsNext sessions.now from result }
{
    for steps in 0..COACHES {
        let coach = (usize::from(from) + steps) % COACHES;
        if sessions[coach].waits() {
            return Some(coach as u8);
        }
    }
    None
}
