ghost use Rattle.std.specs.Prelude.{◌≡◌, min, [], length};
ghost use Rattle.card.specs.ListCards.{listed, unused, places};

use crate::rules::Card;
use ternary::entry::Entry;
use ternary::entry::matching::first_match;
use ternary::refusal::Refusal;
use ternary::words::StateCode;

// A card over a lent buffer: its list is the first `used` places, in order, and the whole buffer if that has fewer.
#[derive(Drop)]
pub struct ListCard<'a> {
    buffer: &'a mut [Entry],
    used: usize,
}

impl<'a> ListCard<'a> {
    // An empty card over the buffer, whatever that holds.
    pub fn new(buffer: &'a mut [Entry]) -> ListCard<'a>
        ensures list { listed result ≡ [] }
        ensures free { unused result ≡ length buffer.old }
        ensures capacity { places result ≡ length buffer.old }
    {
        ListCard { buffer, used: 0 }
    }

    // The number of entries in the list.
    fn count(&self) -> usize
        ensures { result ≡ min self.now.used (length self.now.buffer.now) }
    {
        self.used.min(self.buffer.len())
    }
}

impl Card for ListCard<'_> {
    ghost entries = { listed };

    ghost free = { unused };

    ghost size = { places };

    fn capacity(&self) -> u16 {
        u16::try_from(self.buffer.len()).unwrap_or(u16::MAX)
    }

    fn is_empty(&self) -> bool {
        self.count() == 0
    }

    fn clear(&mut self) {
        self.used = 0;
    }

    fn append(&mut self, e: Entry) -> Result<(), Refusal> {
        let count = self.count();
        if count == self.buffer.len() {
            return Err(Refusal::CardFull);
        }
        self.buffer[count] = e;
        self.used = count + 1;
        Ok(())
    }

    fn search(&self, code: StateCode, byte: u8) -> Option<(StateCode, u8)> {
        first_match(&self.buffer[0..self.count()], code, byte)
    }
}
