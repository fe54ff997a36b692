// What all steps of a trial share.
use crate::findings::{Findings, Subject};
use crate::random::Random;
use std::alloc::{AllocError, Global};

// The memory, the numbers that look like chance, and what was found.
#[derive(Drop)]
pub struct Trial {
    pub heap: Global,
    pub random: Random,
    pub findings: Findings,
}

impl Trial {
    // Nothing was tried yet.
    pub fn new(heap: Global) -> Trial {
        Trial {
            heap,
            random: Random::new(0),
            findings: Findings::new(heap),
        }
    }

    // Goes on with the numbers of a seed.
    pub fn begin(&mut self, seed: u64) {
        self.random = Random::new(seed);
        self.findings.seed = seed;
    }

    // Keeps it as a difference if something does not hold.
    pub fn expect(&mut self, subject: Subject, holds: bool) -> Result<(), AllocError> {
        self.findings.expect(subject, holds)
    }
}
