ghost use Rattle.std.specs.Prelude.{◌≡◌, min, [], length, MatchResult};
ghost use Rattle.pairs.specs.Match.{first};
ghost use Rattle.pairs.specs.Cards.{listed, unused, places, no_entry, Added, Declined};

use crate::pair::PairEntry;
use crate::pair::matching::first_pair;
use crate::stride::Stride;
use ternary::refusal::Refusal;
use ternary::words::StateCode;

/// A card of two-byte entries over a lent buffer: its list is the first `used` places, in order, and the whole buffer if that
/// has fewer.
#[derive(Drop)]
pub struct PairCard<'a> {
    buffer: &'a mut [PairEntry],
    used: usize,
}

impl<'a> PairCard<'a> {
    /// An empty card over the buffer, whatever that holds.
    pub fn new(buffer: &'a mut [PairEntry]) -> PairCard<'a>
        ensures list { listed result ≡ [] }
        ensures free { unused result ≡ length buffer.old }
        ensures capacity { places result ≡ length buffer.old }
    {
        PairCard { buffer, used: 0 }
    }
}

impl PairCard<'_> {
    // The number of entries in the list.
    fn count(&self) -> usize
        ensures { result ≡ min self.now.used (length self.now.buffer.now) }
    {
        self.used.min(self.buffer.len())
    }

    /// The capacity, or 65,535 if it is larger.
    pub fn capacity(&self) -> u16
        ensures { result ≡ min (places self.now) 65535 }
    {
        u16::try_from(self.buffer.len()).unwrap_or(u16::MAX)
    }

    /// Whether the list has no entry.
    pub fn is_empty(&self) -> bool
        ensures { result ≡ no_entry (listed self.now) }
    {
        self.count() == 0
    }

    /// Empties the list; every place is free again.
    pub fn clear(&mut self)
        ensures emptied { listed self.new ≡ [] }
        ensures freed { unused self.new ≡ places self.old }
        ensures same_size { places self.new ≡ places self.old }
    {
        self.used = 0;
    }

    /// Puts an entry last, in a free place; declines where there is none.
    pub fn append(&mut self, e: PairEntry) -> Result<(), Refusal>
        ensures cases { MatchResult result
            (λ _. Added e (listed self.old) (unused self.old) (listed self.new) (unused self.new))
            (λ why. Declined why (unused self.old) self.old self.new) }
        ensures same_size { places self.new ≡ places self.old }
    {
        let count = self.count();
        if count == self.buffer.len() {
            return Err(Refusal::CardFull);
        }
        self.buffer[count] = e;
        self.used = count + 1;
        Ok(())
    }

    /// The successor code, the class and the stride of the first entry that matches.
    pub fn search(&self, code: StateCode, byte: u8, second: u8) -> Option<(StateCode, u8, Stride)>
        ensures { result ≡ first (listed self.now) code.0 byte second }
    {
        first_pair(&self.buffer[0..self.count()], code, byte, second)
    }
}
