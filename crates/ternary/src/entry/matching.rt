ghost use Rattle.std.specs.Prelude.{◌≡◌, Decides, ◌==◌, bit_and};
ghost use Rattle.std.specs.Option.{option_copied};
ghost use Rattle.std.specs.List.{find};
ghost use Rattle.ternary.specs.Match.{Agrees, Matches, decision, matches, first, IsFirst};

use crate::entry::Entry;
use crate::words::StateCode;

// So many entries are tried before the search for the others is called.
const HEAD: usize = 4;

impl Entry {
    // Whether all compared bits of the code and of the byte agree.
    pub fn matches(&self, code: StateCode, byte: u8) -> bool
        ensures value { result ≡ matches self.now code.0 byte }
        ensures agrees { Decides result (Matches self.now code.0 byte) }
    {
        agrees(self.code_value, self.code_mask, code.0)
            && agrees(self.byte_value as u16, self.byte_mask as u16, byte as u16)
    }
}

// Whether a number has the bits of a value wherever the mask has one.
fn agrees(value: u16, mask: u16, number: u16) -> bool
    ensures value { result ≡ (bit_and number mask == value) }
    ensures agrees { bit_and value mask ≡ value → Decides result (Agrees value mask number) }
{
    number & mask == value
}

// The successor code and the class of the first entry that matches.
pub fn first_match(entries: &[Entry], code: StateCode, byte: u8) -> Option<(StateCode, u8)>
    ensures value { result ≡ first entries.now code.0 byte }
    ensures first { IsFirst entries.now code.0 byte result }
{
    find(entries, code, byte).map(|e| (e.next, e.class))
}

// The first entry that matches. Those at the head are tried where the search is called, so that an early match costs no call.
fn find(entries: &[Entry], code: StateCode, byte: u8) -> Option<&Entry>
    ensures { option_copied result ≡ find (λ e. matches e code.0 byte) entries.now }
{
    let (head, rest) = entries.split_at(entries.len().min(HEAD));
    find_singly(head, code, byte).or_else(|| find_by_fours(rest, code, byte))
}

// The first entry that matches, where there may be many. A search is what feeds spend their time on: four entries are tried
// in a turn, and it is compiled once, which takes a third of the time off and does not change with where its callers lie.
#[inline(never)]
fn find_by_fours(entries: &[Entry], code: StateCode, byte: u8) -> Option<&Entry>
    ensures { option_copied result ≡ find (λ e. matches e code.0 byte) entries.now }
{
    let mut rest = entries;
    while let [a, b, c, d, more @ ..] = rest {
        if a.matches(code, byte) {
            return Some(a);
        }
        if b.matches(code, byte) {
            return Some(b);
        }
        if c.matches(code, byte) {
            return Some(c);
        }
        if d.matches(code, byte) {
            return Some(d);
        }
        rest = more;
    }
    find_singly(rest, code, byte)
}

// The first entry that matches, where there are few.
fn find_singly(entries: &[Entry], code: StateCode, byte: u8) -> Option<&Entry>
    ensures { option_copied result ≡ find (λ e. matches e code.0 byte) entries.now }
{
    entries.iter().find(|e| e.matches(code, byte))
}
