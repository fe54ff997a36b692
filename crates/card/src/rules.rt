ghost use Rattle.std.specs.Prelude.{◌≡◌, ℕ, min, List, [], MatchResult};
ghost use Rattle.ternary.specs.declared.entry.Entry.{Entry};
ghost use Rattle.ternary.specs.Match.{first};
ghost use Rattle.card.specs.Cards.{no_entry, Added, Declined};

use ternary::entry::Entry;
use ternary::refusal::Refusal;
use ternary::words::StateCode;

// A lookup card: a list of entries, a free count and a capacity, of which none is tied to the others.
pub trait Card {
    // The list of entries.
    ghost entries: { Self → List Entry };

    // The free count.
    ghost free: { Self → ℕ };

    // The capacity.
    ghost size: { Self → ℕ };

    // The capacity, or 65,535 if it is larger.
    fn capacity(&self) -> u16
        ensures { result ≡ min (size self.now) 65535 };

    // Whether the list has no entry.
    fn is_empty(&self) -> bool
        ensures { result ≡ no_entry (entries self.now) };

    // Empties the list; every place is free again.
    fn clear(&mut self)
        ensures emptied { entries self.new ≡ [] }
        ensures freed { free self.new ≡ size self.old }
        ensures same_size { size self.new ≡ size self.old };

    // Puts an entry last, in a free place; declines where there is none.
    fn append(&mut self, e: Entry) -> Result<(), Refusal>
        ensures cases { MatchResult result
            (λ _. Added e (entries self.old) (free self.old) (entries self.new) (free self.new))
            (λ why. Declined why (free self.old) self.old self.new) }
        ensures same_size { size self.new ≡ size self.old };

    // The successor code and the class of the first entry that matches.
    fn search(&self, code: StateCode, byte: u8) -> Option<(StateCode, u8)>
        ensures { result ≡ first (entries self.now) code.0 byte };
}
