// A journey: calls of a scanner, and beside it the run of the automaton.
use crate::cases::Case;
use crate::counts::add;
use crate::findings::Subject;
use crate::scan::Scan;
use crate::streams::{drawn_piece, drawn_slots};
use crate::trial::Trial;
use card::rules::Card;
use scanner::scanner::Scanner;
use std::alloc::AllocError;
use ternary::refusal::Refusal;
use ternary::words::{Mark, Progress};

// What a slot holds before a feed.
const STALE: Mark = Mark {
    place: 999,
    class: 99,
};

// How many calls a journey has after its load.
const CALLS: usize = 12;

// A scanner over a card, and where the run of the loaded automaton stands; none before a load.
#[derive(Drop)]
struct Journey<'a, C> {
    case: &'a Case,
    scanner: Scanner<C>,
    scan: Option<Scan<'a>>,
}

// Makes calls on a new scanner over an empty card for the entries of a case.
pub fn travel<C: Card + Drop>(trial: &mut Trial, case: &Case, card: C) -> Result<(), AllocError> {
    trial.expect(Subject::Capacity, card.capacity() as usize == case.capacity)?;
    let mut journey = Journey {
        case,
        scanner: Scanner::new(card),
        scan: None,
    };
    journey.feed(trial)?;
    journey.restart(trial)?;
    journey.refuse_load(trial)?;
    journey.load(trial)?;
    for _ in 0..CALLS {
        journey.call(trial)?;
    }
    Ok(())
}

// A load onto a card with one place too few, which stays not loaded.
pub fn refuse_small_card<C: Card + Drop>(
    trial: &mut Trial,
    case: &Case,
    card: C,
) -> Result<(), AllocError> {
    let mut journey = Journey {
        case,
        scanner: Scanner::new(card),
        scan: None,
    };
    let answer = journey
        .scanner
        .load(case.machine.automaton(), case.image.as_slice());
    journey.refused(trial, answer == Err(Refusal::CardTooSmall))
}

impl<'a, C: Card> Journey<'a, C> {
    // One call: mostly a feed.
    fn call(&mut self, trial: &mut Trial) -> Result<(), AllocError> {
        match trial.random.below(16) {
            0 => self.load(trial),
            1 | 2 => self.restart(trial),
            3 | 4 => self.refuse_load(trial),
            5 => self.refuse_piece(trial),
            _ => self.feed(trial),
        }
    }

    // A load of the case's automaton and image.
    fn load(&mut self, trial: &mut Trial) -> Result<(), AllocError> {
        add(&mut trial.findings.counts.loads, 1);
        let automaton = self.case.machine.automaton();
        let answer = self.scanner.load(automaton, self.case.image.as_slice());
        self.scan = Some(Scan::new(automaton));
        trial.expect(Subject::Load, answer == Ok(()))?;
        self.stand(trial)
    }

    // A restart.
    fn restart(&mut self, trial: &mut Trial) -> Result<(), AllocError> {
        let answer = self.scanner.restart();
        if self.scan.is_none() {
            return self.refused(trial, answer == Err(Refusal::NotLoaded));
        }
        add(&mut trial.findings.counts.restarts, 1);
        self.scan = Some(Scan::new(self.case.machine.automaton()));
        trial.expect(Subject::Restart, answer == Ok(()))?;
        self.stand(trial)
    }

    // A feed of a piece with some slots for marks.
    fn feed(&mut self, trial: &mut Trial) -> Result<(), AllocError> {
        let piece = drawn_piece(trial.heap, &mut trial.random)?;
        let slots = drawn_slots(&mut trial.random, piece.len());
        let mut marks = vec![in trial.heap; STALE; slots]?;
        let answer = self.scanner.feed(piece.as_slice(), marks.as_mut_slice());
        let Some(mut scan) = self.scan else {
            let unchanged = marks.iter().all(|mark| *mark == STALE);
            return self.refused(trial, answer == Err(Refusal::NotLoaded) && unchanged);
        };
        let mut scanned = scan.feed(trial.heap, piece.as_slice(), slots)?;
        self.scan = Some(scan);
        trial
            .findings
            .counts
            .count_feed(scanned.taken, scanned.marks.len());
        let expected = self.case.progress(&scanned, scan.state());
        trial.expect(Subject::Feed, answer == Ok(expected))?;
        scanned.marks.resize(slots, STALE)?;
        trial.expect(Subject::Marks, marks.as_slice() == scanned.marks.as_slice())
    }

    // A feed of a piece of 65,537 bytes.
    fn refuse_piece(&mut self, trial: &mut Trial) -> Result<(), AllocError> {
        let piece = vec![in trial.heap; trial.random.byte(); 65_537]?;
        let mut marks = [STALE; 3];
        let answer = self.scanner.feed(piece.as_slice(), &mut marks);
        self.refused(
            trial,
            answer == Err(Refusal::PieceTooLong) && marks == [STALE; 3],
        )
    }

    // One of the loads that are refused.
    fn refuse_load(&mut self, trial: &mut Trial) -> Result<(), AllocError> {
        let index = trial.random.below(self.case.wrong.len());
        let Some(wrong) = self.case.wrong.get(index) else {
            return Ok(());
        };
        let answer = self
            .scanner
            .load(wrong.machine.automaton(), wrong.image.as_slice());
        self.refused(trial, answer == wrong.why)
    }

    // After a call that was refused, as it had to be, the scanner stands where it stood.
    fn refused(&mut self, trial: &mut Trial, right: bool) -> Result<(), AllocError> {
        add(&mut trial.findings.counts.refused_calls, 1);
        trial.expect(Subject::Refused, right)?;
        self.stand(trial)
    }

    // An empty piece shows where the scanner stands.
    fn stand(&mut self, trial: &mut Trial) -> Result<(), AllocError> {
        let answer = self.scanner.feed(&[], &mut []);
        let expected = match self.scan {
            Some(scan) => Ok(Progress {
                taken: 0,
                marks: 0,
                code: self.case.parts.code(scan.state()),
                marks_full: false,
                searches: 0,
            }),
            None => Err(Refusal::NotLoaded),
        };
        trial.expect(Subject::Stand, answer == expected)
    }
}
