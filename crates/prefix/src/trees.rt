// A row of an automaton as a tree over the bits of a byte.
ghost use Rattle.std.specs.Prelude.{◌≡◌, ◌^◌, ◌<◌, []};
ghost use Rattle.prefix.specs.Listed.{low_half, high_half};

use crate::sets::{Part, States};
use arrayvec::ArrayVec;
use ternary::words::StateNo;

// The successor of each byte, and which bytes may stay without a match.
#[derive(Clone, Copy)]
pub(crate) struct Row<'a> {
    pub successors: &'a [StateNo; 256],
    pub deferrable: &'a [bool; 256],
}

// The bytes whose first `bits` bits are `value`.
#[derive(Clone, Copy)]
pub(crate) struct Prefix {
    pub bits: u8,
    pub value: u8,
}

impl Prefix {
    // All bytes.
    pub(crate) const ALL: Prefix = Prefix { bits: 0, value: 0 };

    // The two prefixes that are one bit longer.
    pub(crate) fn halves(self) -> (Prefix, Prefix)
        requires { (self.bits < 8) × (self.value < 2 ^ self.bits) }
        ensures { (result.0 ≡ low_half self) × (result.1 ≡ high_half self) }
    {
        let low = Prefix {
            bits: self.bits + 1,
            value: 2 * self.value,
        };
        let high = Prefix {
            bits: self.bits + 1,
            value: 2 * self.value + 1,
        };
        (low, high)
    }
}

// The nodes of the two halves of a subtree.
#[derive(Clone, Copy, Default)]
pub(crate) struct Halves {
    pub low: u16,
    pub high: u16,
}

// What a subtree of a row costs in words.
#[derive(Clone, Copy, Default)]
pub(crate) struct Node {
    // the cost below a word that covers the subtree and decides one of the candidates; any other decision costs one more
    pub base: u16,
    // the cost below no word
    pub least: u16,
    // whether a list below no word is shortest without a word that covers the subtree
    pub bare: bool,
    pub candidates: Part,
    // a byte has none
    pub halves: Option<Halves>,
}

// The subtrees of a row: a node for each, and the candidates of all.
#[derive(Drop)]
pub(crate) struct Subtrees<'a> {
    pub row: Row<'a>,
    pub nodes: ArrayVec<Node, 511>,
    pub candidates: States,
}

impl<'a> Subtrees<'a> {
    // No subtree of the row yet.
    pub(crate) fn new(row: Row<'a>) -> Self
        ensures row { result.row ≡ row.entry }
        ensures nodes { result.nodes.items ≡ [] }
        ensures candidates { result.candidates.items ≡ [] }
    {
        Subtrees {
            row,
            nodes: ArrayVec::new(),
            candidates: ArrayVec::new(),
        }
    }
}
