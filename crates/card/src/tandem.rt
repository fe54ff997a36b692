ghost use Rattle.std.specs.Prelude.{◌≡◌};
ghost use Rattle.card.specs.Tandem.{in_a_row, both, free_of};

use crate::rules::Card;
use ternary::entry::Entry;
use ternary::refusal::Refusal;
use ternary::words::StateCode;

// Two cards as one: the list of the first, followed by the list of the second.
#[derive(Drop)]
pub struct Tandem<A, B> {
    first: A,
    second: B,
}

impl<A, B> Tandem<A, B> {
    // The tandem of these two cards, whatever they hold.
    pub fn new(first: A, second: B) -> Tandem<A, B>
        ensures first { result.first ≡ first }
        ensures second { result.second ≡ second }
    {
        Tandem { first, second }
    }
}

impl<A: Card, B: Card> Card for Tandem<A, B> {
    ghost entries = { λ c. in_a_row (A.Card.entries c.first) (B.Card.entries c.second) };

    ghost free = { λ c. free_of (A.Card.free c.first) (B.Card.free c.second) (B.Card.entries c.second) };

    ghost size = { λ c. both (A.Card.size c.first) (B.Card.size c.second) };

    fn capacity(&self) -> u16 {
        self.first.capacity().saturating_add(self.second.capacity())
    }

    fn is_empty(&self) -> bool {
        self.first.is_empty() && self.second.is_empty()
    }

    fn clear(&mut self) {
        self.first.clear();
        self.second.clear();
    }

    fn append(&mut self, e: Entry) -> Result<(), Refusal> {
        if self.second.is_empty() && self.first.append(e).is_ok() {
            return Ok(());
        }
        self.second.append(e)
    }

    fn search(&self, code: StateCode, byte: u8) -> Option<(StateCode, u8)> {
        let found = self.first.search(code, byte);
        found.or_else(|| self.second.search(code, byte))
    }
}
