// An automaton with a two-byte and a one-byte image, and loads that are refused.
use crate::altered::{altered, set};
use crate::counts::add;
use crate::findings::Subject;
use crate::machine::Machine;
use crate::parts::{Made, Parts, built, room};
use crate::plan::reckon;
use crate::trial::Trial;
use crate::two::altering::pairs_altered;
use crate::two::carried::pair_verdict;
use crate::two::parting::{PairParts, pairs_built};
use crate::two::refusing::{
    PairWrong, malformed_pair, mismatched_pair, padded_pair, turned_pair, widened,
};
use crate::two::unrolling::count_unrolled;
use crate::verdict::verdict;
use crate::wrong::{bad_automaton, malformed, mismatched, padded};
use image::reader::unpack;
use pair_builder::build::build as build_pairs;
use pair_image::reader::unpack as unpack_pairs;
use pair_table::check::check as check_pairs;
use std::alloc::AllocError;
use ternary::refusal::Refusal;
use ternary::words::{MOST_ENTRIES, StateCode, StateNo};

// An automaton, its two images and their parts, how many entries the cards hold that it is loaded onto, and loads that are
// refused there.
#[derive(Drop)]
pub struct Instance {
    pub machine: Machine,
    pub two_image: Vec<u8>,
    pub one_image: Vec<u8>,
    pub two: PairParts,
    pub one: Parts,
    pub two_capacity: usize,
    pub one_capacity: usize,
    pub wrong: Vec<PairWrong>,
}

impl Instance {
    // The images that are built for an automaton, unless one would have too many entries.
    pub fn of(trial: &mut Trial, machine: Machine) -> Result<Option<Instance>, AllocError> {
        let automaton = machine.automaton();
        let plan = reckon(trial.heap, automaton)?;
        let single = plan.entries(trial.heap, automaton)?;
        let wanted = count_unrolled(trial.heap, automaton, &plan, single)?;
        let image = pairs_built(trial.heap, automaton)?;
        let Ok(two_image) = image else {
            add(&mut trial.findings.tallies.refused_builds, 1);
            let many = wanted.entries > MOST_ENTRIES;
            trial.expect(
                Subject::PairBuild,
                many && image == Err(Refusal::TooManyEntries),
            )?;
            return Ok(None);
        };
        let Ok(one_image) = built(trial.heap, automaton)? else {
            trial.expect(Subject::Build, false)?;
            return Ok(None);
        };
        add(&mut trial.findings.tallies.unrolled, wanted.roots);
        try_pair_builds(trial, &machine, two_image.len())?;
        let instance = Instance::over(trial, machine, two_image, one_image)?;
        if let Some(instance) = &instance {
            let entries = instance.two.entries.len();
            trial.expect(Subject::PairEntries, entries == wanted.entries)?;
            let same = instance.two.width == instance.one.width
                && instance.two.codes.as_slice() == instance.one.codes.as_slice();
            trial.expect(Subject::SameCodes, same)?;
        }
        Ok(instance)
    }

    // The instance of the same automaton with a changed two-byte table, if that carries it too.
    pub fn changed(&self, trial: &mut Trial) -> Result<Option<Instance>, AllocError> {
        let mut parts = pairs_altered(&mut trial.random, &self.two)?;
        parts.codes = self.two.codes.clone()?;
        if pair_verdict(trial.heap, self.machine.automaton(), &parts)?.is_err() {
            return Ok(None);
        }
        match parts.packed(trial.heap)? {
            Ok(image) => {
                Instance::over(trial, self.machine.clone()?, image, self.one_image.clone()?)
            }
            Err(_) => {
                trial.expect(Subject::Pack, false)?;
                Ok(None)
            }
        }
    }

    // The instance of an automaton with images that carry it.
    fn over(
        trial: &mut Trial,
        machine: Machine,
        two_image: Vec<u8>,
        one_image: Vec<u8>,
    ) -> Result<Option<Instance>, AllocError> {
        let (Ok(pairs), Ok(single)) = (
            unpack_pairs(two_image.as_slice()),
            unpack(one_image.as_slice()),
        ) else {
            trial.expect(Subject::Unpack, false)?;
            return Ok(None);
        };
        let two = PairParts::of(trial.heap, pairs)?;
        let one = Parts::of(trial.heap, single)?;
        let (more, others) = (trial.random.below(40), trial.random.below(40));
        let two_capacity = two.entries.len().saturating_add(more);
        let one_capacity = one.entries.len().saturating_add(others);
        let mut instance = Instance {
            machine,
            two_image,
            one_image,
            two,
            one,
            two_capacity: two_capacity.min(MOST_ENTRIES),
            one_capacity: one_capacity.min(MOST_ENTRIES),
            wrong: Vec::new(trial.heap),
        };
        instance.try_image(trial)?;
        instance.add_wrong(trial)?;
        Ok(Some(instance))
    }

    // The two-byte image is accepted, and its parts give the same bytes again.
    fn try_image(&self, trial: &mut Trial) -> Result<(), AllocError> {
        add(&mut trial.findings.tallies.images, 1);
        let automaton = self.machine.automaton();
        let checked = check_pairs(automaton, self.two_image.as_slice());
        trial.expect(Subject::PairCheck, checked == Ok(()))?;
        if self.is_small() {
            let scanned = pair_verdict(trial.heap, automaton, &self.two)?;
            trial.expect(Subject::PairCarried, scanned == Ok(()))?;
        }
        let again = match self.two.packed(trial.heap)? {
            Ok(bytes) => bytes.as_slice() == self.two_image.as_slice(),
            Err(_) => false,
        };
        trial.expect(Subject::PackedAgain, again)
    }

    // Whether the verdict of this crate, which looks at each pair of bytes, is worth its time.
    fn is_small(&self) -> bool {
        self.machine.classes.len() <= 24
    }

    // Makes the loads that are refused.
    fn add_wrong(&mut self, trial: &mut Trial) -> Result<(), AllocError> {
        let broken = bad_automaton(&mut trial.random, &self.machine, &self.one_image)?;
        let two = self.two_image.clone()?;
        self.push(broken.machine, two, broken.image, Refusal::BadAutomaton)?;
        self.add_malformed(trial)?;
        self.add_mismatched(trial)?;
        self.add_padded(trial)?;
        self.add_other_codes(trial)?;
        if self.is_small() {
            for _ in 0..3 {
                self.add_altered(trial)?;
            }
            self.add_foreign(trial)?;
        }
        Ok(())
    }

    // A fault in either image, and one in both, which is told of the two-byte one.
    fn add_malformed(&mut self, trial: &mut Trial) -> Result<(), AllocError> {
        let (two, at) = malformed_pair(&mut trial.random, &self.two_image, &self.two)?;
        let one = malformed(&mut trial.random, &self.machine, &self.one_image, &self.one)?;
        let why = one.why.err().unwrap_or(Refusal::NotLoaded);
        let faulty = one.image;
        self.add_one(trial, Ok(faulty.clone()?), why)?;
        self.add_two(trial, Ok(two.clone()?), Refusal::Malformed(at))?;
        self.add(trial, Ok(two), Ok(faulty), Refusal::Malformed(at))
    }

    // A state more or another start in either image.
    fn add_mismatched(&mut self, trial: &mut Trial) -> Result<(), AllocError> {
        let two = mismatched_pair(trial.heap, &self.two)?;
        let one = mismatched(trial.heap, &self.one)?;
        self.add_one(trial, one, Refusal::Mismatch)?;
        self.add_two(trial, two, Refusal::Mismatch)
    }

    // One entry more than its card holds in either image.
    fn add_padded(&mut self, trial: &mut Trial) -> Result<(), AllocError> {
        if self.two_capacity < MOST_ENTRIES {
            let many = padded_pair(&self.two, self.two_capacity.saturating_add(1))?;
            let two = many.packed(trial.heap)?;
            self.add_two(trial, two, Refusal::CardTooSmall)?;
        }
        if self.one_capacity < MOST_ENTRIES {
            let one = padded(trial.heap, &self.one, self.one_capacity.saturating_add(1))?;
            self.add_one(trial, one, Refusal::CardTooSmall)?;
        }
        Ok(())
    }

    // Codes in another width, and other codes; the latter beside too many entries too, which are told later.
    fn add_other_codes(&mut self, trial: &mut Trial) -> Result<(), AllocError> {
        if self.one.width < 16 {
            let wide = widened(&self.one)?;
            let one = wide.packed(trial.heap)?;
            self.add_one(trial, one, Refusal::CodesDiffer)?;
        }
        if self.two.width > 0 && self.two_capacity < MOST_ENTRIES {
            let turned = turned_pair(&self.two)?;
            let two = turned.packed(trial.heap)?;
            self.add_two(trial, two, Refusal::CodesDiffer)?;
            let many = padded_pair(&turned, self.two_capacity.saturating_add(1))?;
            let two = many.packed(trial.heap)?;
            self.add_two(trial, two, Refusal::CodesDiffer)?;
        }
        Ok(())
    }

    // One change in either image, where it makes that wrong; and a wrong one-byte image beside a two-byte image with too many
    // entries, which are told later.
    fn add_altered(&mut self, trial: &mut Trial) -> Result<(), AllocError> {
        let parts = pairs_altered(&mut trial.random, &self.two)?;
        let why = pair_verdict(trial.heap, self.machine.automaton(), &parts)?;
        let two = parts.packed(trial.heap)?;
        try_pair_check(trial, &self.machine, &two, why)?;
        if let Err(why) = why {
            self.add_two(trial, two, why)?;
        }
        let parts = altered(&mut trial.random, &self.one)?;
        if let Err(why) = verdict(self.machine.automaton(), &parts) {
            let one = parts.packed(trial.heap)?;
            let many = padded_pair(&self.two, self.two_capacity.saturating_add(1))?;
            let two = many.packed(trial.heap)?;
            if self.two_capacity < MOST_ENTRIES {
                self.add(trial, two, one, why)?;
            }
        }
        Ok(())
    }

    // The images with an automaton of which one class or one successor is another.
    fn add_foreign(&mut self, trial: &mut Trial) -> Result<(), AllocError> {
        let mut machine = self.machine.clone()?;
        let next = trial.random.state(machine.automaton().states);
        if trial.random.one_in(2) {
            let state = trial.random.below(machine.classes.len());
            set(&mut machine.classes, state, trial.random.byte());
        } else {
            let place = trial.random.below(machine.successors.len());
            set(&mut machine.successors, place, next);
        }
        let two = pair_verdict(trial.heap, machine.automaton(), &self.two)?;
        let one = verdict(machine.automaton(), &self.one);
        if let Err(why) = two.and(one) {
            let (two, one) = (self.two_image.clone()?, self.one_image.clone()?);
            self.push(machine, two, one, why)?;
        }
        Ok(())
    }

    // A load of this automaton with another two-byte image.
    fn add_two(&mut self, trial: &mut Trial, two: Made, why: Refusal) -> Result<(), AllocError> {
        let one = self.one_image.clone()?;
        self.add(trial, two, Ok(one), why)
    }

    // A load of this automaton with another one-byte image.
    fn add_one(&mut self, trial: &mut Trial, one: Made, why: Refusal) -> Result<(), AllocError> {
        let two = self.two_image.clone()?;
        self.add(trial, Ok(two), one, why)
    }

    // A load of this automaton with these images.
    fn add(
        &mut self,
        trial: &mut Trial,
        two: Made,
        one: Made,
        why: Refusal,
    ) -> Result<(), AllocError> {
        let machine = self.machine.clone()?;
        match (two, one) {
            (Ok(two), Ok(one)) => self.push(machine, two, one, why),
            _ => trial.expect(Subject::Pack, false),
        }
    }

    // Keeps a load that is refused.
    fn push(
        &mut self,
        machine: Machine,
        two: Vec<u8>,
        one: Vec<u8>,
        why: Refusal,
    ) -> Result<(), AllocError> {
        self.wrong.push(PairWrong {
            machine,
            two,
            one,
            why,
        })?;
        Ok(())
    }

    // The code of a state.
    pub fn code(&self, state: StateNo) -> StateCode {
        self.one.code(state)
    }
}

// A check of a two-byte image answers what it has to.
fn try_pair_check(
    trial: &mut Trial,
    machine: &Machine,
    image: &Made,
    why: Result<(), Refusal>,
) -> Result<(), AllocError> {
    let right = match image {
        Ok(image) => check_pairs(machine.automaton(), image.as_slice()) == why,
        Err(_) => false,
    };
    trial.expect(Subject::PairCheck, right)
}

// Builds with too little working memory, or into one byte too few, are refused, and leave the output as it was.
fn try_pair_builds(trial: &mut Trial, machine: &Machine, size: usize) -> Result<(), AllocError> {
    let room = room(machine.automaton());
    let short = refuses(trial, machine, room.saturating_sub(1), size)?;
    trial.expect(Subject::LittleWork, short == Some(Refusal::WorkTooShort))?;
    let short = refuses(trial, machine, room, size.saturating_sub(1))?;
    trial.expect(Subject::ShortOutput, short == Some(Refusal::OutputTooShort))
}

// Why a build with so much memory and output is refused, if it leaves the output as it was.
fn refuses(
    trial: &mut Trial,
    machine: &Machine,
    room: usize,
    size: usize,
) -> Result<Option<Refusal>, AllocError> {
    add(&mut trial.findings.tallies.refused_builds, 1);
    let mut work = vec![in trial.heap; 7; room]?;
    let mut bytes = vec![in trial.heap; 9; size]?;
    let answer = build_pairs(
        machine.automaton(),
        work.as_mut_slice(),
        bytes.as_mut_slice(),
    );
    let unchanged = bytes.iter().all(|byte| *byte == 9);
    Ok(answer.err().filter(|_| unchanged))
}
