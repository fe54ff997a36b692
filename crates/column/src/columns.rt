ghost use Rattle.std.specs.Prelude.{◌≡◌, min, []};
ghost use Rattle.column.specs.ColumnCards.{listed, unused, places, room};

use crate::bitmaps::{BLOCK, find, write_entry};
use card::rules::Card;
use ternary::entry::Entry;
use ternary::refusal::Refusal;
use ternary::words::{MOST_ENTRIES, StateCode};

// The most blocks that a card uses, 64 entries each.
const MOST_BLOCKS: usize = MOST_ENTRIES / 64;

// A card made of bitmaps: for each key bit and each value of it, the entries that accept that value.
// The bits of places from `used` on are never trusted: they may be anything.
#[derive(Drop)]
pub struct ColumnCard<'a> {
    words: &'a mut [u64],
    decisions: &'a mut [(StateCode, u8)],
    used: usize,
}

impl<'a> ColumnCard<'a> {
    // An empty card over the two buffers, whatever they hold. No word of them is written.
    pub fn new(words: &'a mut [u64], decisions: &'a mut [(StateCode, u8)]) -> ColumnCard<'a>
        ensures list { listed result ≡ [] }
        ensures free { unused result ≡ room words.old decisions.old }
        ensures capacity { places result ≡ room words.old decisions.old }
    {
        ColumnCard {
            words,
            decisions,
            used: 0,
        }
    }

    // How many entries fit.
    fn places(&self) -> usize
        ensures { result ≡ places self.now }
    {
        let blocks = self.words.len() / BLOCK;
        let places = 64 * blocks.min(MOST_BLOCKS);
        places.min(self.decisions.len())
    }

    // The number of entries in the list.
    fn count(&self) -> usize
        ensures { result ≡ min self.now.used (places self.now) }
    {
        self.used.min(self.places())
    }
}

impl Card for ColumnCard<'_> {
    ghost entries = { listed };

    ghost free = { unused };

    ghost size = { places };

    fn capacity(&self) -> u16 {
        self.places() as u16
    }

    fn is_empty(&self) -> bool {
        self.count() == 0
    }

    fn clear(&mut self) {
        self.used = 0;
    }

    fn append(&mut self, e: Entry) -> Result<(), Refusal> {
        let index = self.used;
        if index >= self.places() {
            return Err(Refusal::CardFull);
        }
        write_entry(self.words, index, &e);
        self.decisions[index] = (e.next(), e.class());
        self.used = index + 1;
        Ok(())
    }

    fn search(&self, code: StateCode, byte: u8) -> Option<(StateCode, u8)> {
        let index = find(&*self.words, self.count(), code.0, byte)?;
        Some(self.decisions[index])
    }
}
