// What a gateway has to answer, reckoned over the run of the automaton for each coach, and not by the library.
use crate::scan::{Scan, Scanned};
use automaton::words::Automaton;
use std::alloc::{AllocError, Global};
use ternary::refusal::Refusal;
use ternary::words::StateNo;

// A coach that is open: its number, where its run stands, and the part of the receive buffer that waits.
#[derive(Clone, Copy)]
struct Coach<'a> {
    number: u8,
    scan: Scan<'a>,
    place: usize,
    waiting: usize,
}

impl<'a> Coach<'a> {
    // The bytes that a turn goes over, if the part lies in the buffer.
    fn piece<'b>(&self, buffer: &'b [u8], quota: usize) -> Option<&'b [u8]> {
        let part = buffer.get(self.place..)?.get(..self.waiting)?;
        Some(part.get(..quota).unwrap_or(part))
    }
}

// The coaches that are open, in the sequence of their opens; who was served last since the load; and what is loaded.
#[derive(Drop)]
pub struct Coaches<'a> {
    loaded: Option<Automaton<'a>>,
    open: Vec<Coach<'a>>,
    last: Option<u8>,
}

// What a turn comes to that serves a coach: the coach, what comes of its bytes, and the state that its run reaches.
#[derive(Drop)]
pub struct Turned {
    pub coach: u8,
    pub scanned: Scanned,
    pub reached: StateNo,
}

impl<'a> Coaches<'a> {
    // Nothing is loaded.
    pub fn new(heap: Global) -> Coaches<'a> {
        Coaches {
            loaded: None,
            open: Vec::new(heap),
            last: None,
        }
    }

    // An accepted load.
    pub fn load(&mut self, automaton: Automaton<'a>) {
        self.loaded = Some(automaton);
        self.open.clear();
        self.last = None;
    }

    // An open.
    pub fn open(&mut self, number: u8) -> Result<Result<(), Refusal>, AllocError> {
        let Some(automaton) = self.loaded else {
            return Ok(Err(Refusal::NotLoaded));
        };
        if number > 63 || self.found(number).is_some() {
            return Ok(Err(Refusal::BadCoach));
        }
        self.open.push(Coach {
            number,
            scan: Scan::new(automaton),
            place: 0,
            waiting: 0,
        })?;
        Ok(Ok(()))
    }

    // A post.
    pub fn post(&mut self, number: u8, place: usize, length: usize) -> Result<(), Refusal> {
        let at = self.opened(number)?;
        if let Some(coach) = self.open.get_mut(at) {
            if coach.waiting != 0 {
                return Err(Refusal::BytesWaiting);
            }
            coach.place = place;
            coach.waiting = length;
        }
        Ok(())
    }

    // A close.
    pub fn close(&mut self, number: u8) -> Result<(), Refusal> {
        let at = self.opened(number)?;
        if at < self.open.len() {
            let _ = self.open.remove(at);
        }
        Ok(())
    }

    // A turn with so many slots for marks.
    pub fn turn(
        &mut self,
        heap: Global,
        buffer: &[u8],
        slots: usize,
        quota: usize,
    ) -> Result<Result<Option<Turned>, Refusal>, AllocError> {
        if self.loaded.is_none() {
            return Ok(Err(Refusal::NotLoaded));
        }
        if quota == 0 || quota > 4096 || slots < quota {
            return Ok(Err(Refusal::BadTurn));
        }
        let next = self.next().and_then(|number| self.found(number));
        let Some(coach) = next.and_then(|at| self.open.get_mut(at)) else {
            return Ok(Ok(None));
        };
        let Some(piece) = coach.piece(buffer, quota) else {
            return Ok(Err(Refusal::BadTurn));
        };
        let scanned = coach.scan.feed(heap, piece, slots)?;
        coach.place = coach.place.saturating_add(scanned.taken);
        coach.waiting = coach.waiting.saturating_sub(scanned.taken);
        self.last = Some(coach.number);
        Ok(Ok(Some(Turned {
            coach: coach.number,
            reached: coach.scan.state(),
            scanned,
        })))
    }

    // Who comes next: of those that wait the lowest number above the one served last, and else the lowest of all.
    pub fn next(&self) -> Option<u8> {
        let above = self.last.map_or(0, |last| last.saturating_add(1));
        self.lowest(above).or(self.lowest(0))
    }

    // The lowest number, from this one on, of a coach that waits.
    fn lowest(&self, from: u8) -> Option<u8> {
        let waiting = self.open.iter().filter(|coach| coach.waiting != 0);
        waiting
            .map(|coach| coach.number)
            .filter(|number| *number >= from)
            .min()
    }

    // The place of an open coach among those that are open.
    fn found(&self, number: u8) -> Option<usize> {
        self.open.iter().position(|coach| coach.number == number)
    }

    // The place of a coach that has to be open.
    fn opened(&self, number: u8) -> Result<usize, Refusal> {
        if self.loaded.is_none() {
            return Err(Refusal::NotLoaded);
        }
        self.found(number).ok_or(Refusal::BadCoach)
    }
}
