// A depot: calls of a gateway, and beside it the coaches as they have to be served.
use crate::cases::Case;
use crate::coaches::{Coaches, Turned};
use crate::counts::add;
use crate::findings::Subject;
use crate::random::Random;
use crate::streams::drawn_bytes;
use crate::trial::Trial;
use card::rules::Card;
use gateway::gateway::Gateway;
use gateway::words::Served;
use std::alloc::AllocError;
use ternary::refusal::Refusal;
use ternary::words::Mark;

// What a slot holds before a turn.
const STALE: Mark = Mark {
    place: 999,
    class: 99,
};

// How many calls a depot has after its load.
const CALLS: usize = 256;

// The most turns after them that let each coach be seen: four for each.
const LAST_TURNS: usize = 256;

// A gateway over a card, the coaches beside it, the receive buffer, and the numbers below which most coaches have theirs.
#[derive(Drop)]
struct Depot<'a, C> {
    case: &'a Case,
    gateway: Gateway<C>,
    coaches: Coaches<'a>,
    buffer: Vec<u8>,
    numbers: usize,
}

// Makes calls on a new gateway over a card for the entries of a case.
pub fn serve<C: Card + Drop>(trial: &mut Trial, case: &Case, card: C) -> Result<(), AllocError> {
    let size = drawn_size(&mut trial.random);
    let mut depot = Depot {
        case,
        gateway: Gateway::new(card),
        coaches: Coaches::new(trial.heap),
        buffer: drawn_bytes(trial.heap, &mut trial.random, size)?,
        numbers: drawn_numbers(&mut trial.random),
    };
    for _ in 0..8 {
        depot.call_unloaded(trial)?;
    }
    depot.load(trial)?;
    for _ in 0..CALLS {
        depot.call(trial)?;
    }
    depot.see_all(trial)
}

impl<'a, C: Card> Depot<'a, C> {
    // One call before a load.
    fn call_unloaded(&mut self, trial: &mut Trial) -> Result<(), AllocError> {
        match trial.random.below(5) {
            0 => self.open(trial),
            1 => self.post(trial),
            2 => self.close(trial),
            3 => self.refuse_load(trial),
            _ => self.turn(trial),
        }
    }

    // One call: mostly a turn.
    fn call(&mut self, trial: &mut Trial) -> Result<(), AllocError> {
        match trial.random.below(128) {
            0 => self.load(trial),
            1 | 2 => self.refuse_load(trial),
            3..=6 => self.close(trial),
            7..=30 => self.open(trial),
            31..=74 => self.post(trial),
            _ => self.turn(trial),
        }
    }

    // A load of the case's automaton and image.
    fn load(&mut self, trial: &mut Trial) -> Result<(), AllocError> {
        add(&mut trial.findings.counts.depot.loads, 1);
        let automaton = self.case.machine.automaton();
        let answer = self.gateway.load(automaton, self.case.image.as_slice());
        self.coaches.load(automaton);
        trial.expect(Subject::DepotLoad, answer == Ok(()))
    }

    // One of the loads that are refused.
    fn refuse_load(&mut self, trial: &mut Trial) -> Result<(), AllocError> {
        let index = trial.random.below(self.case.wrong.len());
        let Some(wrong) = self.case.wrong.get(index) else {
            return Ok(());
        };
        let automaton = wrong.machine.automaton();
        let answer = self.gateway.load(automaton, wrong.image.as_slice());
        self.compare(trial, Subject::DepotLoad, answer, wrong.why)
    }

    // An open.
    fn open(&mut self, trial: &mut Trial) -> Result<(), AllocError> {
        let coach = self.drawn_coach(&mut trial.random);
        add(&mut trial.findings.counts.depot.opens, 1);
        let answer = self.gateway.open(coach);
        let expected = self.coaches.open(coach)?;
        self.compare(trial, Subject::Open, answer, expected)
    }

    // A post of a part that mostly lies in the buffer.
    fn post(&mut self, trial: &mut Trial) -> Result<(), AllocError> {
        let coach = self.drawn_coach(&mut trial.random);
        let (place, length) = drawn_part(&mut trial.random, self.buffer.len());
        self.post_part(trial, coach, place, length)
    }

    // A post of this part.
    fn post_part(
        &mut self,
        trial: &mut Trial,
        coach: u8,
        place: usize,
        length: usize,
    ) -> Result<(), AllocError> {
        add(&mut trial.findings.counts.depot.posts, 1);
        let answer = self.gateway.post(coach, place, length);
        let expected = self.coaches.post(coach, place, length);
        self.compare(trial, Subject::Post, answer, expected)
    }

    // A close.
    fn close(&mut self, trial: &mut Trial) -> Result<(), AllocError> {
        let coach = self.drawn_coach(&mut trial.random);
        self.close_coach(trial, coach)
    }

    // A close of this coach.
    fn close_coach(&mut self, trial: &mut Trial, coach: u8) -> Result<(), AllocError> {
        add(&mut trial.findings.counts.depot.closes, 1);
        let answer = self.gateway.close(coach);
        let expected = self.coaches.close(coach);
        self.compare(trial, Subject::Close, answer, expected)
    }

    // Compares what a call answers that gives nothing.
    fn compare(
        &mut self,
        trial: &mut Trial,
        subject: Subject,
        answer: Result<(), Refusal>,
        expected: Result<(), Refusal>,
    ) -> Result<(), AllocError> {
        if expected.is_err() {
            add(&mut trial.findings.counts.depot.refused_calls, 1);
        }
        trial.expect(subject, answer == expected)
    }

    // A turn, mostly over other bytes than the turn before, and now and then over fewer.
    fn turn(&mut self, trial: &mut Trial) -> Result<(), AllocError> {
        let size = self.buffer.len();
        if !trial.random.one_in(4) {
            self.buffer = drawn_bytes(trial.heap, &mut trial.random, size)?;
        }
        let length = if trial.random.one_in(16) {
            trial.random.below(size)
        } else {
            size
        };
        let quota = drawn_quota(&mut trial.random);
        let slots = drawn_slots(&mut trial.random, quota);
        self.turn_over(trial, length, slots, quota)
    }

    // A turn over the first bytes of the buffer. A coach whose part leaves them is mostly closed, so that others come.
    fn turn_over(
        &mut self,
        trial: &mut Trial,
        length: usize,
        slots: usize,
        quota: usize,
    ) -> Result<(), AllocError> {
        add(&mut trial.findings.counts.depot.turns, 1);
        let next = self.coaches.next();
        let buffer = self.buffer.as_slice().get(..length).unwrap_or_default();
        let mut marks = vec![in trial.heap; STALE; slots]?;
        let answer = self.gateway.turn(buffer, marks.as_mut_slice(), quota);
        let expected = self.coaches.turn(trial.heap, buffer, slots, quota)?;
        let refused = expected.is_err();
        self.compare_turn(trial, answer, &marks, expected)?;
        match next {
            Some(coach) if refused && trial.random.one_in(4) => self.close_coach(trial, coach),
            _ => Ok(()),
        }
    }

    // Compares what a turn answers and what it leaves of the slots.
    fn compare_turn(
        &mut self,
        trial: &mut Trial,
        answer: Result<Option<Served>, Refusal>,
        marks: &Vec<Mark>,
        expected: Result<Option<Turned>, Refusal>,
    ) -> Result<(), AllocError> {
        let mut written = Vec::new(trial.heap);
        let right = match (answer, expected) {
            (Ok(Some(served)), Ok(Some(turned))) => {
                let scanned = turned.scanned;
                let progress = self.case.progress(&scanned, turned.reached);
                trial
                    .findings
                    .counts
                    .depot
                    .count_part(scanned.taken, scanned.marks.len());
                written = scanned.marks;
                served.coach == turned.coach && served.walk == Ok(progress)
            }
            (Ok(None), Ok(None)) => true,
            (Err(why), Err(expected)) => {
                add(&mut trial.findings.counts.depot.refused_calls, 1);
                why == expected
            }
            (_, _) => false,
        };
        written.resize(marks.len(), STALE)?;
        trial.expect(Subject::Turn, right)?;
        trial.expect(Subject::TurnMarks, marks.as_slice() == written.as_slice())
    }

    // Lets each coach that is open be served once more at least, which shows where its run stands.
    fn see_all(&mut self, trial: &mut Trial) -> Result<(), AllocError> {
        let size = self.buffer.len();
        for coach in 0..64 {
            self.post_part(trial, coach, 0, size)?;
        }
        for _ in 0..LAST_TURNS {
            if self.coaches.next().is_none() {
                break;
            }
            self.turn_over(trial, size, 4096, 4096)?;
        }
        self.turn_over(trial, size, 4096, 4096)
    }

    // A coach's number: seldom one that no coach has, or one of any coach.
    fn drawn_coach(&self, random: &mut Random) -> u8 {
        let number = match random.below(20) {
            0 => random.below(256),
            1 => random.below(64),
            _ => random.below(self.numbers),
        };
        u8::try_from(number).unwrap_or(u8::MAX)
    }
}

// The numbers below which most coaches have theirs.
fn drawn_numbers(random: &mut Random) -> usize {
    match random.below(4) {
        0 => 64,
        1 => 2,
        2 => 5,
        _ => 16,
    }
}

// How many bytes the buffer has: mostly few, and seldom more than two turns take.
fn drawn_size(random: &mut Random) -> usize {
    match random.below(8) {
        0 => random.below(12_000),
        1 => random.below(4),
        2 => random.below(1000),
        _ => random.below(100),
    }
}

// The place and the length of a part: mostly one that lies in a buffer of so many bytes.
fn drawn_part(random: &mut Random, size: usize) -> (usize, usize) {
    let place = random.below(size.saturating_add(1));
    let rest = size.saturating_sub(place);
    match random.below(48) {
        0 => (usize::MAX, random.below(3)),
        1 => (place, usize::MAX),
        2 => (place, rest.saturating_add(1)),
        3..=5 => (place, 0),
        6..=9 => (0, size),
        10..=19 => (place, rest),
        _ => (place, random.below(rest.saturating_add(1))),
    }
}

// A quota: seldom one that no turn takes.
fn drawn_quota(random: &mut Random) -> usize {
    match random.below(48) {
        0 => 0,
        1 => 4097,
        2 => usize::MAX,
        3..=12 => 4096,
        13..=19 => 1,
        20..=39 => random.below(30).saturating_add(1),
        _ => random.below(4096).saturating_add(1),
    }
}

// How many slots for the marks of a turn with a quota: seldom fewer.
fn drawn_slots(random: &mut Random, quota: usize) -> usize {
    let most = quota.min(4097);
    match random.below(32) {
        0 => most.saturating_sub(1),
        1 => random.below(most),
        2..=5 => most.saturating_add(random.below(5)),
        _ => most,
    }
}
