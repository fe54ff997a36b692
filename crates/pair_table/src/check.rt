ghost use Rattle.std.specs.Prelude.{◌≡◌, ◌≤◌, drop, filter, length, is_ok, Decides};
ghost use Rattle.std.specs.Bool.{OnTrue};
ghost use Rattle.std.specs.List.{find, list_all};
ghost use Rattle.std.specs.Option.{option_copied};
ghost use Rattle.automaton.specs.Limits.{handed};
ghost use Rattle.automaton.specs.Sound.{meant};
ghost use Rattle.ternary.specs.Match as one_byte;
ghost use Rattle.pairs.specs.Carries.{Right};
ghost use Rattle.pair_table.specs.Acceptance.{Acceptable, Checked, OnlyAnswer};
ghost use Rattle.pair_table.specs.Steps.{accepts_code, accepts_byte, alike, listed, unread, Alike, Leads, RightAt, WrongSecond, WrongBytes, WrongPlace};

use arrayvec::ArrayVec;
use automaton::sound::SoundAutomaton;
use automaton::words::Automaton;
use pair_image::listed::{Items, Listed};
use pair_image::reader::{Header, unpack};
use pairs::pair::PairEntry;
use pairs::pair::matching::first_pair;
use pairs::stride::Stride;
use ternary::entry::Entry;
use ternary::refusal::Refusal;
use ternary::words::{MOST_ENTRIES, MOST_STATES, StateCode, StateNo};

/// Accepts an automaton and the bytes of a two-byte image that keep the acceptance rule, and refuses all others.
pub fn check(automaton: Automaton<'_>, image: &[u8]) -> Result<(), Refusal>
    ensures answer { Checked (handed automaton.entry) image.now result }
    ensures exact { Decides (is_ok result) (Acceptable (handed automaton.entry) image.now) }
    ensures only { OnlyAnswer (handed automaton.entry) image.now result }
{
    let automaton = automaton.sound()?;
    let image = unpack(image)?;
    if !agree(automaton, image.header()) {
        return Err(Refusal::Mismatch);
    }
    let codes: ArrayVec<StateCode, MOST_STATES> = taken(image.codes());
    let entries: ArrayVec<PairEntry, MOST_ENTRIES> = taken(image.entries());
    let table = Table {
        automaton,
        codes: codes.as_slice(),
        entries: entries.as_slice(),
    };
    match table.first_wrong() {
        Some((state, byte, second)) => Err(Refusal::WrongPair(state, byte, second)),
        None => Ok(()),
    }
}

// Whether an image's header has the automaton's number of states and start state.
fn agree(automaton: SoundAutomaton<'_>, header: Header) -> bool
    ensures { Decides result ((header.states ≡ (meant automaton.entry).states) × (header.start.0 ≡ (meant automaton.entry).start)) }
{
    header.states == automaton.states() && header.start == automaton.start()
}

// The items of an image's list, taken once.
fn taken<T: Listed + Default, const MOST: usize>(items: Items<'_, T>) -> ArrayVec<T, MOST>
    requires { length (unread T.listed items) ≤ MOST }
    ensures { result.items ≡ unread T.listed items.entry }
{
    let mut list = ArrayVec::new();
    // `extend` would answer a refusal that cannot be: there is room for all.
    for item in items {
        list.push(item);
    }
    list
}

// Some of the entries of a table.
type Own = ArrayVec<PairEntry, MOST_ENTRIES>;

// Whether an entry matches a code.
fn accepts_code(entry: PairEntry, code: StateCode) -> bool
    ensures { result ≡ accepts_code code.0 entry }
{
    let one = entry.entry();
    code.0 & one.code_mask() == one.code_value()
}

// Whether an entry matches a first byte.
fn accepts_byte(entry: PairEntry, byte: u8) -> bool
    ensures { result ≡ accepts_byte byte entry }
{
    let one = entry.entry();
    byte & one.byte_mask() == one.byte_value()
}

// The first entry that matches a code and a first byte, whatever the second.
fn first_at(entries: &[PairEntry], code: StateCode, byte: u8) -> Option<&PairEntry>
    ensures { option_copied result ≡ find (λ e. one_byte.matches e.entry code.0 byte) entries.now }
{
    entries.iter().find(|e| e.entry().matches(code, byte))
}

// Whether each entry matches both of two first bytes or none.
fn all_alike(entries: &[PairEntry], byte: u8, other: u8) -> bool
    ensures { result ≡ list_all (alike byte other) entries.now }
{
    entries.iter().all(|e| is_alike(*e, byte, other))
}

// Whether an entry matches both of two first bytes or none.
fn is_alike(entry: PairEntry, byte: u8, other: u8) -> bool
    ensures { result ≡ alike byte other entry }
{
    accepts_byte(entry, byte) == accepts_byte(entry, other)
}

// An automaton, and the codes of its states and the entries that have to carry it.
#[derive(Clone, Copy)]
struct Table<'a> {
    automaton: SoundAutomaton<'a>,
    codes: &'a [StateCode],
    entries: &'a [PairEntry],
    ghost few: { length entries.now ≤ 4096 },
}

impl Table<'_> {
    // The lowest state, then the lowest first byte, then the lowest second byte, at which the entries do not carry the
    // automaton.
    fn first_wrong(&self) -> Option<(StateNo, u8, u8)>
        ensures { WrongPlace (meant self.now.automaton) (listed self.now.codes.now) self.now.entries.now result }
    {
        let mut own = Own::new();
        let mut row = Own::new();
        for number in 0..self.automaton.states() {
            let state = StateNo(number);
            if let Some((byte, second)) = self.first_wrong_of(state, &mut own, &mut row) {
                return Some((state, byte, second));
            }
        }
        None
    }

    // The lowest bytes at which the entries do not carry a state. They are looked through once for those that match its
    // code.
    fn first_wrong_of(&self, state: StateNo, own: &mut Own, row: &mut Own) -> Option<(u8, u8)>
        ensures { WrongBytes (meant self.now.automaton) (listed self.now.codes.now) self.now.entries.now state.0 result }
    {
        self.take_for(self.code(state), own);
        let alone = Table {
            automaton: self.automaton,
            codes: self.codes,
            entries: own.as_slice(),
        };
        alone.first_wrong_bytes(state, row)
    }

    // Takes the entries that match a code, in order, in place of those that were taken before.
    fn take_for(&self, code: StateCode, own: &mut Own)
        ensures { own.new.items ≡ filter (accepts_code code.0) self.now.entries.now }
    {
        own.clear();
        for entry in self.entries {
            if accepts_code(*entry, code) {
                own.push(*entry);
            }
        }
    }

    // The lowest bytes at which the entries do not carry a state. The second bytes are looked through only for a first byte
    // that one entry does not settle, and that is not like the latest for which they were.
    fn first_wrong_bytes(&self, state: StateNo, row: &mut Own) -> Option<(u8, u8)>
        ensures { WrongBytes (meant self.now.automaton) (listed self.now.codes.now) self.now.entries.now state.0 result }
    {
        let mut latest = None;
        for byte in 0..=255 {
            if !self.is_settled(state, byte) && !self.is_alike(state, byte, latest) {
                if let Some(second) = self.first_wrong_at(state, byte, row) {
                    return Some((byte, second));
                }
                latest = Some(byte);
            }
        }
        None
    }

    // Whether the first entry that matches a state's code and a first byte takes this byte alone, decides rightly, and
    // compares no bit of the second byte: whatever that is, the state is carried.
    fn is_settled(&self, state: StateNo, byte: u8) -> bool
        ensures { OnTrue result (RightAt (meant self.now.automaton) (listed self.now.codes.now) self.now.entries.now state.0 byte) }
    {
        let Some(first) = first_at(self.entries, self.code(state), byte) else {
            return false;
        };
        match (first.stride(), first.second_mask()) {
            (Stride::One, 0) => self.leads(state, byte, first.entry()),
            _ => false,
        }
    }

    // Whether an entry has the code and the class of the state that a byte leads to.
    fn leads(&self, state: StateNo, byte: u8, entry: Entry) -> bool
        ensures { Decides result (Leads (meant self.now.automaton) (listed self.now.codes.now) state.0 byte entry) }
    {
        let next = self.automaton.next(state, byte);
        entry.next() == self.code(next) && entry.class() == self.automaton.class(next)
    }

    // Whether a state goes on from a first byte as it does from an earlier one, and the same entries match both.
    fn is_alike(&self, state: StateNo, byte: u8, earlier: Option<u8>) -> bool
        ensures { OnTrue result (Alike (meant self.now.automaton) (listed self.now.codes.now) self.now.entries.now state.0 byte earlier) }
    {
        let Some(earlier) = earlier else {
            return false;
        };
        self.automaton.next(state, byte) == self.automaton.next(state, earlier)
            && all_alike(self.entries, byte, earlier)
    }

    // The lowest second byte at which the entries do not carry a state after a first byte. They are looked through once for
    // those that match this byte.
    fn first_wrong_at(&self, state: StateNo, byte: u8, row: &mut Own) -> Option<u8>
        ensures { WrongSecond (meant self.now.automaton) (listed self.now.codes.now) self.now.entries.now state.0 byte result }
    {
        self.take_at(byte, row);
        let alone = Table {
            automaton: self.automaton,
            codes: self.codes,
            entries: row.as_slice(),
        };
        alone.first_wrong_second(state, byte)
    }

    // Takes the entries that match a first byte, in order, in place of those that were taken before.
    fn take_at(&self, byte: u8, row: &mut Own)
        ensures { row.new.items ≡ filter (accepts_byte byte) self.now.entries.now }
    {
        row.clear();
        for entry in self.entries {
            if accepts_byte(*entry, byte) {
                row.push(*entry);
            }
        }
    }

    // The lowest second byte at which the entries do not carry a state after a first byte, by a search among all of them.
    fn first_wrong_second(&self, state: StateNo, byte: u8) -> Option<u8>
        ensures { WrongSecond (meant self.now.automaton) (listed self.now.codes.now) self.now.entries.now state.0 byte result }
    {
        for second in 0..=255 {
            if !self.decides(state, byte, second) {
                return Some(second);
            }
        }
        None
    }

    // Whether the first entry that matches a state's code and two bytes decides rightly.
    fn decides(&self, state: StateNo, byte: u8, second: u8) -> bool
        ensures { Decides result (Right (meant self.now.automaton) (listed self.now.codes.now) self.now.entries.now state.0 byte second) }
    {
        let between = self.automaton.next(state, byte);
        match first_pair(self.entries, self.code(state), byte, second) {
            Some((code, class, Stride::One)) => {
                code == self.code(between) && class == self.automaton.class(between)
            }
            Some((code, class, Stride::Two)) => {
                let next = self.automaton.next(between, second);
                code == self.code(next)
                    && class == self.automaton.class(next)
                    && self.automaton.class(between) == 0
            }
            None => false,
        }
    }

    // The code of a state, and 0 for a number that no state has.
    fn code(&self, state: StateNo) -> StateCode
        ensures { result ≡ listed self.now.codes.now state.0 }
    {
        let code = self.codes.get(usize::from(state));
        code.copied().unwrap_or_default()
    }
}
