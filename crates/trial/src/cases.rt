// An automaton with its image and loads that are refused.
use crate::altered::{altered, set};
use crate::counts::add;
use crate::figures::machine_ab;
use crate::findings::Subject;
use crate::machine::Machine;
use crate::parts::{Made, Parts, built, room};
use crate::plan::{Plan, reckon};
use crate::scan::Scanned;
use crate::trial::Trial;
use crate::verdict::verdict;
use crate::wrong::{Wrong, bad_automaton, malformed, mismatched, padded};
use builder::build::build;
use image::reader::unpack;
use std::alloc::AllocError;
use table::check::check;
use ternary::refusal::Refusal;
use ternary::words::{MOST_ENTRIES, Progress, StateNo};

// An automaton, its image, the image's parts, how many entries the cards hold that it is loaded onto, and loads that
// are refused there.
#[derive(Drop)]
pub struct Case {
    pub machine: Machine,
    pub image: Vec<u8>,
    pub parts: Parts,
    pub capacity: usize,
    pub wrong: Vec<Wrong>,
}

impl Case {
    // What a feed has to answer.
    pub fn progress(&self, scanned: &Scanned, reached: StateNo) -> Progress {
        Progress {
            taken: scanned.taken,
            marks: scanned.marks.len(),
            code: self.parts.code(reached),
            marks_full: scanned.full,
            searches: scanned.taken.saturating_add(scanned.full as usize),
        }
    }

    // The case of an automaton with the image that is built for it, unless that would have too many entries.
    pub fn of(trial: &mut Trial, machine: Machine) -> Result<Option<Case>, AllocError> {
        let plan = reckon(trial.heap, machine.automaton())?;
        let entries = plan.entries(trial.heap, machine.automaton())?;
        match built(trial.heap, machine.automaton())? {
            Ok(image) => {
                try_builds(trial, &machine, image.len())?;
                let case = Case::over(trial, machine, image)?;
                try_plan(trial, &case, &plan, entries)?;
                Ok(case)
            }
            Err(why) => {
                add(&mut trial.findings.counts.refused_builds, 1);
                let many = entries > MOST_ENTRIES;
                trial.expect(Subject::Build, many && why == Refusal::TooManyEntries)?;
                Ok(None)
            }
        }
    }

    // The case of the same automaton with a changed table, if that carries it too.
    pub fn changed(&self, trial: &mut Trial) -> Result<Option<Case>, AllocError> {
        let parts = altered(&mut trial.random, &self.parts)?;
        if verdict(self.machine.automaton(), &parts).is_err() {
            return Ok(None);
        }
        match parts.packed(trial.heap)? {
            Ok(image) => Case::over(trial, self.machine.clone()?, image),
            Err(_) => {
                trial.expect(Subject::Pack, false)?;
                Ok(None)
            }
        }
    }

    // The case of an automaton with an image that carries it.
    fn over(
        trial: &mut Trial,
        machine: Machine,
        image: Vec<u8>,
    ) -> Result<Option<Case>, AllocError> {
        let Ok(unpacked) = unpack(image.as_slice()) else {
            trial.expect(Subject::Unpack, false)?;
            return Ok(None);
        };
        let parts = Parts::of(trial.heap, unpacked)?;
        let more = trial.random.below(70);
        let capacity = parts.entries.len().saturating_add(more).min(MOST_ENTRIES);
        let mut case = Case {
            machine,
            image,
            parts,
            capacity,
            wrong: Vec::new(trial.heap),
        };
        case.try_image(trial)?;
        case.add_wrong(trial)?;
        Ok(Some(case))
    }

    // The image is accepted, and its parts give the same bytes again.
    fn try_image(&self, trial: &mut Trial) -> Result<(), AllocError> {
        add(&mut trial.findings.counts.images, 1);
        let automaton = self.machine.automaton();
        let checked = check(automaton, self.image.as_slice());
        trial.expect(Subject::Check, checked == Ok(()))?;
        let scanned = verdict(automaton, &self.parts);
        trial.expect(Subject::Carried, scanned == Ok(()))?;
        let again = match self.parts.packed(trial.heap)? {
            Ok(bytes) => bytes.as_slice() == self.image.as_slice(),
            Err(_) => false,
        };
        trial.expect(Subject::PackedAgain, again)
    }

    // Makes the loads that are refused, of each sort one.
    fn add_wrong(&mut self, trial: &mut Trial) -> Result<(), AllocError> {
        let broken = bad_automaton(&mut trial.random, &self.machine, &self.image)?;
        self.add(trial, broken)?;
        let faulty = malformed(&mut trial.random, &self.machine, &self.image, &self.parts)?;
        self.add(trial, faulty)?;
        let other = mismatched(trial.heap, &self.parts)?;
        self.add_image(trial, other, Err(Refusal::Mismatch))?;
        self.add_padded(trial)?;
        self.add_altered(trial)?;
        self.add_altered(trial)?;
        self.add_foreign(trial)
    }

    // An image with one entry more than the cards hold. A check accepts it.
    fn add_padded(&mut self, trial: &mut Trial) -> Result<(), AllocError> {
        if self.capacity == MOST_ENTRIES {
            return Ok(());
        }
        let image = padded(trial.heap, &self.parts, self.capacity.saturating_add(1))?;
        self.add_image(trial, image, Err(Refusal::CardTooSmall))
    }

    // An image with one change, with what a check of it has to answer.
    fn add_altered(&mut self, trial: &mut Trial) -> Result<(), AllocError> {
        let parts = altered(&mut trial.random, &self.parts)?;
        let why = verdict(self.machine.automaton(), &parts);
        let image = parts.packed(trial.heap)?;
        self.add_image(trial, image, why)
    }

    // The image with another automaton.
    fn add_foreign(&mut self, trial: &mut Trial) -> Result<(), AllocError> {
        let machine = self.foreign(trial)?;
        let why = verdict(machine.automaton(), &self.parts);
        let image = self.image.clone()?;
        self.add(
            trial,
            Wrong {
                machine,
                image,
                why,
            },
        )
    }

    // Another automaton: the one with the text "ab", or this one with one class or successor changed.
    fn foreign(&self, trial: &mut Trial) -> Result<Machine, AllocError> {
        let mut machine = self.machine.clone()?;
        let next = trial.random.state(machine.automaton().states);
        match trial.random.below(3) {
            0 => return machine_ab(trial.heap),
            1 => {
                let state = trial.random.below(machine.classes.len());
                set(&mut machine.classes, state, trial.random.byte());
            }
            _ => {
                let place = trial.random.below(machine.successors.len());
                set(&mut machine.successors, place, next);
            }
        }
        Ok(machine)
    }

    // A load of this automaton with another image.
    fn add_image(
        &mut self,
        trial: &mut Trial,
        image: Made,
        why: Result<(), Refusal>,
    ) -> Result<(), AllocError> {
        let machine = self.machine.clone()?;
        match image {
            Ok(image) => self.add(
                trial,
                Wrong {
                    machine,
                    image,
                    why,
                },
            ),
            Err(_) => trial.expect(Subject::Pack, false),
        }
    }

    // Compares with what a check answers, and keeps the load if it is refused.
    fn add(&mut self, trial: &mut Trial, wrong: Wrong) -> Result<(), AllocError> {
        let answer = check(wrong.machine.automaton(), wrong.image.as_slice());
        let expected = match wrong.why {
            Err(Refusal::CardTooSmall) => Ok(()),
            why => why,
        };
        trial.expect(Subject::Check, answer == expected)?;
        if wrong.why.is_err() {
            self.wrong.push(wrong)?;
        }
        Ok(())
    }
}

// The image that was built has the width, the codes and the number of entries that the rules say.
fn try_plan(
    trial: &mut Trial,
    case: &Option<Case>,
    plan: &Plan,
    entries: usize,
) -> Result<(), AllocError> {
    let Some(case) = case else {
        return Ok(());
    };
    trial.expect(Subject::Width, case.parts.width as u32 == plan.width)?;
    let codes = case.parts.codes.as_slice() == plan.codes.as_slice();
    trial.expect(Subject::Codes, codes)?;
    trial.expect(Subject::Entries, case.parts.entries.len() == entries)
}

// Builds with too little working memory, or into one byte too few, are refused.
fn try_builds(trial: &mut Trial, machine: &Machine, size: usize) -> Result<(), AllocError> {
    let room = room(machine.automaton());
    let short = refuses(trial, machine, room.saturating_sub(1), size)?;
    trial.expect(Subject::LittleWork, short == Some(Refusal::WorkTooShort))?;
    if machine.classes.len() < 64 {
        let short = refuses(trial, machine, room, size.saturating_sub(1))?;
        trial.expect(Subject::ShortOutput, short == Some(Refusal::OutputTooShort))?;
    }
    Ok(())
}

// Why a build with so much memory and output is refused, if it leaves the output as it was.
fn refuses(
    trial: &mut Trial,
    machine: &Machine,
    room: usize,
    size: usize,
) -> Result<Option<Refusal>, AllocError> {
    add(&mut trial.findings.counts.refused_builds, 1);
    let mut work = vec![in trial.heap; 7; room]?;
    let mut bytes = vec![in trial.heap; 9; size]?;
    let answer = build(
        machine.automaton(),
        work.as_mut_slice(),
        bytes.as_mut_slice(),
    );
    let unchanged = bytes.iter().all(|byte| *byte == 9);
    Ok(answer.err().filter(|_| unchanged))
}
