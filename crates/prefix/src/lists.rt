ghost use Rattle.std.specs.Prelude.{◌≡◌, ℕ, ◌<◌, ◌≤◌};
ghost use Rattle.std.specs.List.{AllByRecursion};
ghost use Rattle.arrayvec.specs.ArrayVec.{array_vec_len};
ghost use Rattle.prefix.specs.Listed.{chosen, numbered};
ghost use Rattle.prefix.specs.States.{successors, shares, flags};
ghost use Rattle.prefix.specs.Words.{Formed, Shortest, Fewest};

use crate::trees::{Prefix, Row, Subtrees};
use crate::word::PrefixWord;
use arrayvec::ArrayVec;
use std::array;
use ternary::words::StateNo;

// The bytes that two rows share: those for which both have the same successor. A state may leave just these to the
// state that it defers to.
pub fn shared_bytes(row: &[StateNo; 256], other: &[StateNo; 256]) -> [bool; 256]
    ensures { (byte : ℕ) → byte < 256 → flags result byte ≡ shares row.now other.now byte }
{
    array::from_fn(|byte| row[byte] == other[byte])
}

// A shortest list of words for a row. A byte that is marked in `deferrable` may stay without a match.
pub fn shortest_list(
    row: &[StateNo; 256],
    deferrable: &[bool; 256],
) -> ArrayVec<PrefixWord<StateNo>, 256>
    ensures words { result.items ≡ chosen (numbered row.now) (flags deferrable.now) }
    ensures shortest { Shortest result.items (successors row.now) (flags deferrable.now) }
    ensures formed { AllByRecursion Formed result.items }
    ensures bound { array_vec_len result ≤ 256 }
{
    let mut subtrees = Subtrees::new(Row {
        successors: row,
        deferrable,
    });
    let root = subtrees.add(Prefix::ALL);
    let mut words = ArrayVec::new();
    subtrees.emit(root, Prefix::ALL, None, &mut words);
    words
}

// How many words a shortest list for a row has.
pub fn shortest_length(row: &[StateNo; 256], deferrable: &[bool; 256]) -> usize
    ensures fewest { Fewest result (successors row.now) (flags deferrable.now) }
    ensures bound { result ≤ 256 }
{
    let mut subtrees = Subtrees::new(Row {
        successors: row,
        deferrable,
    });
    let root = subtrees.add(Prefix::ALL);
    subtrees.node(root).least as usize
}
