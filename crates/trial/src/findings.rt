// What was found: how much was tried, and what differed.
use crate::counts::{Counts, add};
use crate::two::tallies::Tallies;
use std::alloc::{AllocError, Global};

// What is compared: a figure, or an answer of the library with what it has to be.
#[derive(Clone, Copy, PartialEq, Eq, Debug)]
pub enum Subject {
    // 512 states
    MostStates,
    // 513 states
    MoreStates,
    // the table of "ab", as it is
    Ab,
    // a piece of 65,536 bytes
    LongestPiece,
    // a piece of 65,537 bytes
    LongerPiece,
    // the table of "ab" with its last two entries swapped
    TwoSwapped,
    // the table of "ab" without its first entry
    OneRemoved,
    // the table of "ab" with one code for two states
    SharedCode,
    // a chain of deferment of 17 states
    ChainOf17,
    // a chain of deferment of 18 states
    ChainOf18,
    // why a build is refused
    Build,
    // how many bits a code of a built image has
    Width,
    // the codes of a built image
    Codes,
    // how many entries a built image has
    Entries,
    // a build with too little working memory
    LittleWork,
    // a build into too short an output
    ShortOutput,
    // an image is unpacked
    Unpack,
    // parts are packed
    Pack,
    // the bytes of an image whose parts are packed again
    PackedAgain,
    // a check's answer
    Check,
    // whether a built image carries its automaton, by the verdict of this crate
    Carried,
    // a card's capacity
    Capacity,
    // a load
    Load,
    // a restart
    Restart,
    // the answer of a feed
    Feed,
    // the slots for marks after a feed
    Marks,
    // a call that has to be refused
    Refused,
    // where a scanner stands, as an empty piece shows
    Stand,
    // a load of a gateway
    DepotLoad,
    // an open
    Open,
    // a post
    Post,
    // a close
    Close,
    // the answer of a turn
    Turn,
    // the slots for marks after a turn
    TurnMarks,
    // why a build of a two-byte image is refused
    PairBuild,
    // how many entries a built two-byte image has
    PairEntries,
    // the codes of two built images
    SameCodes,
    // a check of a two-byte image
    PairCheck,
    // whether a two-byte image carries its automaton, by the verdict of this crate
    PairCarried,
    // an append to a card
    PairCard,
    // a load, a restart and a refused call of a scanner over two cards
    PairLoad,
    PairRestart,
    PairRefused,
    // where a scanner over two cards stands
    PairStand,
    // a feed and its marks, beside the automaton's run
    PairFeed,
    PairMarks,
    // a feed or a walk and its marks, beside the walk of this crate
    PairWalk,
    PairWalkMarks,
    // how many searches a feed makes
    Searches,
    // a feed and its marks, beside a scanner of one byte a search
    OneByte,
}

// What differed, and the seed of the round in which it did.
#[derive(Clone, Copy)]
pub struct Difference {
    pub seed: u64,
    pub subject: Subject,
}

// The counts so far, and the differences.
#[derive(Drop)]
pub struct Findings {
    pub seed: u64,
    pub counts: Counts,
    pub tallies: Tallies,
    pub differences: Vec<Difference>,
}

impl Findings {
    // Nothing was tried yet.
    pub fn new(heap: Global) -> Findings {
        Findings {
            seed: 0,
            counts: Counts::default(),
            tallies: Tallies::default(),
            differences: Vec::new(heap),
        }
    }

    // Keeps it as a difference if something does not hold.
    pub fn expect(&mut self, subject: Subject, holds: bool) -> Result<(), AllocError> {
        if !holds {
            let seed = self.seed;
            self.differences.push(Difference { seed, subject })?;
        }
        Ok(())
    }

    // Counts a figure, and keeps it as a difference if it does not hold.
    pub fn figure(&mut self, subject: Subject, holds: bool) -> Result<(), AllocError> {
        add(&mut self.counts.figures, 1);
        self.expect(subject, holds)
    }
}
