// An automaton file within the limits of the programs.
ghost use Rattle.std.specs.Prelude.{◌≤◌};

use automaton::words::Header;
use forest::plan::FIXED_WORK;
use ternary::words::StateNo;

mod small;

// The most bytes of a file that is printed.
pub const LONGEST_FILE: u64 = 65_536;

// The most states of an automaton that is printed, and the successors of so many.
const SMALL_STATES: usize = 64;

const SMALL_SUCCESSORS: usize = 256 * SMALL_STATES;

// The numbers of working memory that suffice for such an automaton.
pub(crate) const SMALL_WORK: usize = SMALL_STATES * SMALL_STATES + FIXED_WORK;

// An automaton of at most 64 states, as it was read from a file, in the first places of its buffers.
#[derive(Drop)]
pub(crate) struct SmallAutomaton {
    header: Header,
    successors: [StateNo; SMALL_SUCCESSORS],
    classes: [u8; SMALL_STATES],
    ghost few: { header.states ≤ 64 },
}
