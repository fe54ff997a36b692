ghost use Rattle.std.specs.Prelude.{◌≡◌, ◌≤◌, drop, length, is_ok, Decides};
ghost use Rattle.automaton.specs.Limits.{handed};
ghost use Rattle.automaton.specs.Sound.{meant};
ghost use Rattle.image.specs.Calls.{parts_of};
ghost use Rattle.table.specs.Acceptance.{Acceptable, Checked, OnlyAnswer, Right};
ghost use Rattle.table.specs.Steps.{accepts, deciding, listed, unread, WrongByte, WrongPlace};

use arrayvec::ArrayVec;
use automaton::sound::SoundAutomaton;
use automaton::words::Automaton;
use image::listed::{Items, Listed};
use image::reader::{Header, unpack};
use ternary::entry::Entry;
use ternary::entry::matching::first_match;
use ternary::refusal::Refusal;
use ternary::words::{MOST_ENTRIES, MOST_STATES, StateCode, StateNo};

// Accepts an automaton and the bytes of an image that keep the acceptance rule, and refuses all others.
pub fn check(automaton: Automaton<'_>, image: &[u8]) -> Result<(), Refusal>
    ensures answer { Checked (handed automaton.entry) image.now result }
    ensures exact { Decides (is_ok result) (Acceptable (handed automaton.entry) image.now) }
    ensures only { OnlyAnswer (handed automaton.entry) image.now result }
{
    let automaton = automaton.sound()?;
    let image = unpack(image)?;
    if !agree(automaton, image.header()) {
        return Err(Refusal::Mismatch);
    }
    let codes: ArrayVec<StateCode, MOST_STATES> = taken(image.codes());
    let entries: ArrayVec<Entry, MOST_ENTRIES> = taken(image.entries());
    let table = Table {
        automaton,
        codes: codes.as_slice(),
        entries: entries.as_slice(),
    };
    match table.first_wrong() {
        Some((state, byte)) => Err(Refusal::WrongEntry(state, byte)),
        None => Ok(()),
    }
}

// Whether an image's header has the automaton's number of states and start state.
fn agree(automaton: SoundAutomaton<'_>, header: Header) -> bool
    ensures { Decides result ((header.states ≡ (meant automaton.entry).states) × (header.start.0 ≡ (meant automaton.entry).start)) }
{
    header.states == automaton.states() && header.start == automaton.start()
}

// The items of an image's list, taken once.
fn taken<T: Listed + Default, const MOST: usize>(items: Items<'_, T>) -> ArrayVec<T, MOST>
    requires { length (unread T.listed items) ≤ MOST }
    ensures { result.items ≡ unread T.listed items.entry }
{
    let mut list = ArrayVec::new();
    // `extend` would answer a refusal that cannot be: there is room for all.
    for item in items {
        list.push(item);
    }
    list
}

// The entries that match the code of one state.
type Own = ArrayVec<Entry, MOST_ENTRIES>;

// Whether an entry matches a code.
fn accepts(entry: Entry, code: StateCode) -> bool
    ensures { result ≡ accepts code.0 entry }
{
    code.0 & entry.code_mask() == entry.code_value()
}

// An automaton, and the codes of its states and the entries that have to carry it.
#[derive(Clone, Copy)]
struct Table<'a> {
    automaton: SoundAutomaton<'a>,
    codes: &'a [StateCode],
    entries: &'a [Entry],
    ghost few: { length entries.now ≤ 4096 },
}

impl Table<'_> {
    // The lowest state, and then the lowest byte, at which the entries do not carry the automaton.
    fn first_wrong(&self) -> Option<(StateNo, u8)>
        ensures { WrongPlace (meant self.now.automaton) (listed self.now.codes.now) self.now.entries.now result }
    {
        let mut own = Own::new();
        // The answer is that of the loop over bytes, which stays for the reason given there.
        for number in 0..self.automaton.states() {
            let state = StateNo(number);
            if let Some(byte) = self.first_wrong_of(state, &mut own) {
                return Some((state, byte));
            }
        }
        None
    }

    // The lowest byte at which the entries do not carry a state. They are looked through once for those that match its code,
    // so that a search for a byte meets these alone.
    fn first_wrong_of(&self, state: StateNo, own: &mut Own) -> Option<u8>
        ensures { WrongByte (meant self.now.automaton) (listed self.now.codes.now) self.now.entries.now state.0 result }
    {
        self.take_for(self.code(state), own);
        let alone = Table {
            automaton: self.automaton,
            codes: self.codes,
            entries: own.as_slice(),
        };
        alone.first_wrong_byte(state)
    }

    // Takes the entries that match a code, in order, in place of those that were taken before: up to the first that matches it
    // with every byte, since none behind that decides anything for the code.
    fn take_for(&self, code: StateCode, own: &mut Own)
        ensures { own.new.items ≡ deciding code.0 self.now.entries.now }
    {
        own.clear();
        for entry in self.entries {
            if accepts(*entry, code) {
                own.push(*entry);
                if entry.byte_mask() == 0 {
                    return;
                }
            }
        }
    }

    // The lowest byte at which the entries do not carry a state, by a search among all of them.
    fn first_wrong_byte(&self, state: StateNo) -> Option<u8>
        ensures { WrongByte (meant self.now.automaton) (listed self.now.codes.now) self.now.entries.now state.0 result }
    {
        let code = self.code(state);
        // The loop keeps the contract, a relation, turn by turn.
        for byte in 0..=255 {
            if !self.decides(state, code, byte) {
                return Some(byte);
            }
        }
        None
    }

    // Whether the first entry that matches a state's code and a byte holds the successor's code and class. The code is asked
    // for once for all bytes.
    fn decides(&self, state: StateNo, own: StateCode, byte: u8) -> bool
        requires { own ≡ listed self.now.codes.now state.0 }
        ensures { Decides result (Right (meant self.now.automaton) (listed self.now.codes.now) self.now.entries.now state.0 byte) }
    {
        let next = self.automaton.next(state, byte);
        match first_match(self.entries, own, byte) {
            Some((code, class)) => code == self.code(next) && class == self.automaton.class(next),
            None => false,
        }
    }

    // The code of a state, and 0 for a number that no state has.
    fn code(&self, state: StateNo) -> StateCode
        ensures { result ≡ listed self.now.codes.now state.0 }
    {
        let code = self.codes.get(usize::from(state));
        code.copied().unwrap_or_default()
    }
}
