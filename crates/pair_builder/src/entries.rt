// Two-byte entries, and those of a table while they are gathered.
ghost use Rattle.std.specs.Prelude.{◌≡◌, [], ◌∷◌};
ghost use Rattle.pair_builder.specs.Choosing.{Gathers};
ghost use Rattle.pair_builder.specs.Unrolled.{single, double};

use arrayvec::ArrayVec;
use pairs::pair::PairEntry;
use pairs::stride::Stride;
use ternary::entry::Entry;
use ternary::refusal::Refusal;
use ternary::words::MOST_ENTRIES;

// The entries so far.
pub(crate) type Gathered = ArrayVec<PairEntry, MOST_ENTRIES>;

// Takes one more entry, or refuses it if there are 4,096 already.
pub(crate) fn add(gathered: &mut Gathered, entry: PairEntry) -> Result<(), Refusal>
    ensures { Gathers gathered.old.items gathered.new.items (entry ∷ []) result }
{
    gathered
        .try_push(entry)
        .map_err(|_| Refusal::TooManyEntries)
}

// The entry that takes one byte, whatever the second.
pub(crate) fn single(entry: Entry) -> PairEntry
    ensures { result ≡ single entry }
{
    PairEntry::new(entry, 0, 0, Stride::One)
}

// The entry that takes two bytes: the byte of the first, and then the byte of the second, which decides.
pub(crate) fn double(first: Entry, second: Entry) -> PairEntry
    ensures { result ≡ double first second }
{
    let entry = Entry::new(
        first.code_value(),
        first.code_mask(),
        first.byte_value(),
        first.byte_mask(),
        second.next(),
        second.class(),
    );
    PairEntry::new(entry, second.byte_value(), second.byte_mask(), Stride::Two)
}
