ghost use Rattle.std.specs.Prelude.{◌≡◌, bit_and};
ghost use Rattle.pairs.specs.declared.stride.Stride.TheVariants.{One};

use crate::stride::Stride;
use ternary::entry::Entry;

pub mod matching;

/// One row of a two-byte table: an entry over a code and the first byte, a ternary word over the second byte, and the bytes
/// it takes. No value has a bit under a star.
#[derive(Clone, Copy, PartialEq, Eq, Debug)]
pub struct PairEntry {
    entry: Entry,
    second_value: u8,
    second_mask: u8,
    stride: Stride,
    ghost second_clear: { bit_and second_value second_mask ≡ second_value },
}

impl PairEntry {
    /// The entry with this second mask, which clears each second value bit under a star.
    pub fn new(entry: Entry, second_value: u8, second_mask: u8, stride: Stride) -> PairEntry
        ensures entry { result.entry ≡ entry }
        ensures second_value { result.second_value ≡ bit_and second_value second_mask }
        ensures second_mask { result.second_mask ≡ second_mask }
        ensures stride { result.stride ≡ stride }
    {
        PairEntry {
            entry,
            second_value: cleared(second_value, second_mask),
            second_mask,
            stride,
        }
    }

    /// The code and the first byte that are compared, and the decision.
    pub fn entry(&self) -> Entry
        ensures { result ≡ self.now.entry }
    {
        self.entry
    }

    /// The bits that the second byte is compared with.
    pub fn second_value(&self) -> u8
        ensures { result ≡ self.now.second_value }
    {
        self.second_value
    }

    /// The bits of the second byte that are compared.
    pub fn second_mask(&self) -> u8
        ensures { result ≡ self.now.second_mask }
    {
        self.second_mask
    }

    /// The bytes that the entry takes.
    pub fn stride(&self) -> Stride
        ensures { result ≡ self.now.stride }
    {
        self.stride
    }
}

// An entry with a star for every bit, which takes one byte: what an unused place holds.
impl Default for PairEntry {
    ghost is_default = { λ e. (e.entry.code_mask ≡ 0) × (e.entry.byte_mask ≡ 0) × (e.entry.next.0 ≡ 0)
        × (e.entry.class ≡ 0) × (e.second_mask ≡ 0) × (e.stride ≡ One) };

    fn default() -> PairEntry {
        PairEntry::new(Entry::default(), 0, 0, Stride::One)
    }
}

// A value without its bits under a star.
fn cleared(value: u8, mask: u8) -> u8
    ensures value { result ≡ bit_and value mask }
    ensures clear { bit_and result mask ≡ result }
{
    value & mask
}
