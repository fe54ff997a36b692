ghost use Rattle.std.specs.Prelude.{◌≡◌, Decides, ◌==◌, bit_and};
ghost use Rattle.std.specs.Option.{option_copied};
ghost use Rattle.std.specs.List.{find};
ghost use Rattle.ternary.specs.Match.{Agrees};
ghost use Rattle.pairs.specs.Match.{Matches, decision, matches, first, IsFirst};

use crate::pair::PairEntry;
use crate::stride::Stride;
use ternary::words::StateCode;

impl PairEntry {
    /// Whether all compared bits of the code and of both bytes agree.
    pub fn matches(&self, code: StateCode, byte: u8, second: u8) -> bool
        ensures value { result ≡ matches self.now code.0 byte second }
        ensures agrees { Decides result (Matches self.now code.0 byte second) }
    {
        self.entry.matches(code, byte) && agrees(self.second_value, self.second_mask, second)
    }
}

// Whether a byte has the bits of a value wherever the mask has one.
fn agrees(value: u8, mask: u8, byte: u8) -> bool
    ensures value { result ≡ (bit_and byte mask == value) }
    ensures agrees { bit_and value mask ≡ value → Decides result (Agrees value mask byte) }
{
    byte & mask == value
}

/// The successor code, the class and the stride of the first entry that matches.
pub fn first_pair(
    entries: &[PairEntry],
    code: StateCode,
    byte: u8,
    second: u8,
) -> Option<(StateCode, u8, Stride)>
    ensures value { result ≡ first entries.now code.0 byte second }
    ensures first { IsFirst entries.now code.0 byte second result }
{
    find(entries, code, byte, second).map(|e| (e.entry.next(), e.entry.class(), e.stride))
}

// The first entry that matches. Four entries are tried in a turn, and it is compiled once, as the search among one-byte
// entries is.
#[inline(never)]
fn find(entries: &[PairEntry], code: StateCode, byte: u8, second: u8) -> Option<&PairEntry>
    ensures { option_copied result ≡ find (λ e. matches e code.0 byte second) entries.now }
{
    let mut rest = entries;
    while let [a, b, c, d, more @ ..] = rest {
        if a.matches(code, byte, second) {
            return Some(a);
        }
        if b.matches(code, byte, second) {
            return Some(b);
        }
        if c.matches(code, byte, second) {
            return Some(c);
        }
        if d.matches(code, byte, second) {
            return Some(d);
        }
        rest = more;
    }
    find_singly(rest, code, byte, second)
}

// The first entry that matches, where there are few.
fn find_singly(entries: &[PairEntry], code: StateCode, byte: u8, second: u8) -> Option<&PairEntry>
    ensures { option_copied result ≡ find (λ e. matches e code.0 byte second) entries.now }
{
    entries.iter().find(|e| e.matches(code, byte, second))
}
