// The entries of a table while they are gathered.
ghost use Rattle.std.specs.Prelude.{[], ◌∷◌};
ghost use Rattle.builder.specs.Gathering.{Gathers};

use arrayvec::ArrayVec;
use ternary::entry::Entry;
use ternary::refusal::Refusal;
use ternary::words::MOST_ENTRIES;

// The entries so far.
pub(crate) type Gathered = ArrayVec<Entry, MOST_ENTRIES>;

// Takes one more entry, or refuses it if there are 4,096 already.
pub(crate) fn add(gathered: &mut Gathered, entry: Entry) -> Result<(), Refusal>
    ensures { Gathers gathered.old.items gathered.new.items (entry ∷ []) result }
{
    gathered
        .try_push(entry)
        .map_err(|_| Refusal::TooManyEntries)
}
