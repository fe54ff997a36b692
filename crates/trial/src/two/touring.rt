// A tour: calls of a scanner over two lent cards, and beside it the run of the automaton, a walk coded apart, and a scanner of
// one byte a search.
use crate::counts::add;
use crate::findings::Subject;
use crate::scan::{Scan, Scanned};
use crate::streams::{drawn_piece, drawn_slots};
use crate::trial::Trial;
use crate::two::instances::Instance;
use crate::two::stepping::step_through;
use card::rules::Card;
use pair_scanner::lent::PairScanner;
use pairs::list::PairCard;
use pairs::pair::PairEntry;
use scanner::scanner::Scanner;
use std::alloc::AllocError;
use ternary::refusal::Refusal;
use ternary::words::{Mark, Progress};

// What a slot holds before a feed.
pub const STALE: Mark = Mark {
    place: 999,
    class: 99,
};

// How many calls a tour has after its load.
const CALLS: usize = 12;

// A scanner with the cards that it is lent, where the run of the loaded automaton stands, none before a load, and a scanner of
// one byte a search.
#[derive(Drop)]
struct Tour<'a, 'b, C, D> {
    instance: &'a Instance,
    scanner: PairScanner,
    two: PairCard<'b>,
    one: C,
    scan: Option<Scan<'a>>,
    single: Scanner<D>,
}

// Makes calls on a new scanner over cards for the entries of an instance, the two-byte one over these places, beside a one-byte
// scanner over another card.
pub fn make_tour<C: Card + Drop, D: Card + Drop>(
    trial: &mut Trial,
    instance: &Instance,
    two: &mut [PairEntry],
    one: C,
    other: D,
) -> Result<(), AllocError> {
    let two = PairCard::new(two);
    let single = Scanner::new(other);
    trial.expect(
        Subject::Capacity,
        two.capacity() as usize == instance.two_capacity,
    )?;
    let mut tour = Tour {
        instance,
        scanner: PairScanner::new(),
        two,
        one,
        scan: None,
        single,
    };
    tour.feed(trial)?;
    tour.restart(trial)?;
    tour.refuse_load(trial)?;
    tour.load(trial)?;
    for _ in 0..CALLS {
        tour.call(trial)?;
    }
    tour.refuse_all(trial)?;
    tour.feed(trial)
}

impl<C: Card, D: Card> Tour<'_, '_, C, D> {
    // One call: mostly a feed.
    fn call(&mut self, trial: &mut Trial) -> Result<(), AllocError> {
        match trial.random.below(16) {
            0 => self.load(trial),
            1 | 2 => self.restart(trial),
            3 => self.refuse_load(trial),
            4 => self.refuse_piece(trial),
            _ => self.feed(trial),
        }
    }

    // A load of the instance's automaton and images.
    fn load(&mut self, trial: &mut Trial) -> Result<(), AllocError> {
        add(&mut trial.findings.tallies.loads, 1);
        let automaton = self.instance.machine.automaton();
        let answer = self.scanner.load(
            &mut self.two,
            &mut self.one,
            automaton,
            self.instance.two_image.as_slice(),
            self.instance.one_image.as_slice(),
        );
        let other = self
            .single
            .load(automaton, self.instance.one_image.as_slice());
        self.scan = Some(Scan::new(automaton));
        trial.expect(Subject::PairLoad, answer == Ok(()) && other == Ok(()))?;
        self.stand(trial)
    }

    // A restart.
    fn restart(&mut self, trial: &mut Trial) -> Result<(), AllocError> {
        let answer = self.scanner.restart();
        let other = self.single.restart();
        if self.scan.is_some() {
            self.scan = Some(Scan::new(self.instance.machine.automaton()));
            trial.expect(Subject::PairRestart, answer == Ok(()) && other == Ok(()))?;
        } else {
            trial.expect(Subject::PairRefused, answer == Err(Refusal::NotLoaded))?;
        }
        self.stand(trial)
    }

    // A feed of a piece with some slots for marks.
    fn feed(&mut self, trial: &mut Trial) -> Result<(), AllocError> {
        let piece = drawn_piece(trial.heap, &mut trial.random)?;
        let slots = drawn_slots(&mut trial.random, piece.len());
        let mut marks = vec![in trial.heap; STALE; slots]?;
        let code = match self.scan {
            Some(scan) => self.instance.code(scan.state()),
            None => self.instance.code(self.instance.machine.start),
        };
        let answer = self.scanner.feed(
            &self.two,
            &self.one,
            piece.as_slice(),
            marks.as_mut_slice(),
        );
        let Some(mut scan) = self.scan else {
            let unchanged = marks.iter().all(|mark| *mark == STALE);
            let refused = answer == Err(Refusal::NotLoaded);
            return trial.expect(Subject::PairRefused, refused && unchanged);
        };
        let scanned = scan.feed(trial.heap, piece.as_slice(), slots)?;
        self.scan = Some(scan);
        let mut steps = step_through(
            trial.heap,
            self.instance.two.entries.as_slice(),
            self.instance.one.entries.as_slice(),
            code,
            piece.as_slice(),
            slots,
        )?;
        trial.expect(Subject::PairWalk, answer == steps.answer)?;
        steps.marks.resize(slots, STALE)?;
        trial.expect(
            Subject::PairWalkMarks,
            marks.as_slice() == steps.marks.as_slice(),
        )?;
        self.try_feed(trial, answer, &scanned, piece.len())?;
        self.try_marks(trial, answer, marks, scanned, &piece)
    }

    // The answer is what the automaton's run says, with no more searches than bytes, and at least half as many.
    fn try_feed(
        &self,
        trial: &mut Trial,
        answer: Result<Progress, Refusal>,
        scanned: &Scanned,
        bytes: usize,
    ) -> Result<(), AllocError> {
        let (Ok(progress), Some(scan)) = (answer, self.scan) else {
            return trial.expect(Subject::PairFeed, false);
        };
        trial.findings.tallies.count_feed(progress);
        let expected = Progress {
            taken: scanned.taken,
            marks: scanned.marks.len(),
            code: self.instance.code(scan.state()),
            marks_full: scanned.full,
            searches: progress.searches,
        };
        trial.expect(Subject::PairFeed, progress == expected)?;
        let few = progress.searches <= bytes && bytes <= progress.searches.saturating_mul(2);
        trial.expect(Subject::Searches, few || scanned.full)
    }

    // The marks are those of the automaton's run and of the scanner of one byte a search, which answers alike.
    fn try_marks(
        &mut self,
        trial: &mut Trial,
        answer: Result<Progress, Refusal>,
        marks: Vec<Mark>,
        mut scanned: Scanned,
        piece: &Vec<u8>,
    ) -> Result<(), AllocError> {
        let slots = marks.len();
        let mut others = vec![in trial.heap; STALE; slots]?;
        let other = self.single.feed(piece.as_slice(), others.as_mut_slice());
        let alike = match (answer, other) {
            (Ok(mine), Ok(theirs)) => {
                let searches = mine.searches;
                mine == Progress { searches, ..theirs } && searches <= theirs.searches
            }
            _ => false,
        };
        trial.expect(
            Subject::OneByte,
            alike && marks.as_slice() == others.as_slice(),
        )?;
        scanned.marks.resize(slots, STALE)?;
        trial.expect(
            Subject::PairMarks,
            marks.as_slice() == scanned.marks.as_slice(),
        )
    }

    // A feed of a piece of 65,537 bytes.
    fn refuse_piece(&mut self, trial: &mut Trial) -> Result<(), AllocError> {
        let piece = vec![in trial.heap; trial.random.byte(); 65_537]?;
        let mut marks = [STALE; 3];
        let answer = self
            .scanner
            .feed(&self.two, &self.one, piece.as_slice(), &mut marks);
        let refused = answer == Err(Refusal::PieceTooLong) && marks == [STALE; 3];
        trial.expect(Subject::PairRefused, refused)?;
        self.stand(trial)
    }

    // One of the loads that are refused.
    fn refuse_load(&mut self, trial: &mut Trial) -> Result<(), AllocError> {
        let index = trial.random.below(self.instance.wrong.len());
        self.refuse(trial, index)
    }

    // All loads that are refused, one after another.
    fn refuse_all(&mut self, trial: &mut Trial) -> Result<(), AllocError> {
        for index in 0..self.instance.wrong.len() {
            self.refuse(trial, index)?;
        }
        Ok(())
    }

    // The load of that number among those that are refused. The scanner then stands where it stood.
    fn refuse(&mut self, trial: &mut Trial, index: usize) -> Result<(), AllocError> {
        let Some(wrong) = self.instance.wrong.get(index) else {
            return Ok(());
        };
        let answer = self.scanner.load(
            &mut self.two,
            &mut self.one,
            wrong.machine.automaton(),
            wrong.two.as_slice(),
            wrong.one.as_slice(),
        );
        trial.findings.tallies.refused.count(wrong.why);
        trial.expect(Subject::PairRefused, answer == Err(wrong.why))?;
        self.stand(trial)
    }

    // An empty piece shows where the scanner stands.
    fn stand(&mut self, trial: &mut Trial) -> Result<(), AllocError> {
        let answer = self.scanner.feed(&self.two, &self.one, &[], &mut []);
        let expected = match self.scan {
            Some(scan) => Ok(Progress {
                taken: 0,
                marks: 0,
                code: self.instance.code(scan.state()),
                marks_full: false,
                searches: 0,
            }),
            None => Err(Refusal::NotLoaded),
        };
        trial.expect(Subject::PairStand, answer == expected)
    }
}
