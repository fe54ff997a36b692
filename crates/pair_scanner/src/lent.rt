ghost use Rattle.std.specs.Prelude.{◌≡◌, ◌+◌, ◌≤◌, Decides, true, length, is_err, None, Err, OnOk, IfOk, ◌≢◌};
ghost use Rattle.ternary.specs.declared.refusal.Refusal.{Refusal};
ghost use Rattle.ternary.specs.Refusals.{number};
ghost use Rattle.automaton.specs.Limits.{handed};
ghost use Rattle.image.specs.Calls.{parts_of};
ghost use Rattle.image.specs.Format.{decode};
ghost use Rattle.pairs.specs.Cards.{listed, unused, places};
ghost use Rattle.pair_image.specs.Calls.{parts_of as pair_parts_of};
ghost use Rattle.pair_image.specs.Format.{decode as pair_decode};
ghost use Rattle.scanner.specs.Book.{blank};
ghost use Rattle.pair_scanner.specs.Book.{SameCodes, Loads, Feeds, Restarts};
ghost use Rattle.pair_scanner.specs.Scanners.{seen, reached, LoadAnswer, FeedAnswer, RestartAnswer, done_told, fed_told, Keeps, KeepsOn, Seen, moved, SearchesFew};

use automaton::words::Automaton;
use card::rules::Card;
use image::reader::{Image, unpack};
use pair_image::reader::{Image as PairImage, unpack as unpack_pairs};
use pair_table::check::check as check_pairs;
use pair_walk::walk::walk;
use pairs::list::PairCard;
use table::check::check;
use ternary::refusal::Refusal;
use ternary::words::{Mark, Progress, StateCode, StateNo};

/// Where a loaded scanner stands: the code of the start state, and the code that it has come to.
#[derive(Clone, Copy, PartialEq, Eq, Debug)]
pub struct Position {
    start: StateCode,
    code: StateCode,
}

/// Where a scanner stands, once it is loaded. It owns no card: both are lent to each call that reads or fills them.
#[derive(Clone, Copy, PartialEq, Eq, Debug)]
pub struct PairScanner {
    position: Option<Position>,
}

impl PairScanner {
    /// A scanner that is not loaded.
    pub fn new() -> PairScanner
        ensures position { result.position ≡ None }
    {
        PairScanner { position: None }
    }

    /// Checks a two-byte image and a one-byte image against their automaton and against each other, fills each card with the
    /// entries of its image, and stands at the start state's code.
    pub fn load<C: Card>(
        &mut self,
        two: &mut PairCard<'_>,
        one: &mut C,
        automaton: Automaton<'_>,
        two_image: &[u8],
        one_image: &[u8],
    ) -> Result<(), Refusal>
        ensures refused { is_err result ≡ true →
            (self.new ≡ self.old) × (two.new ≡ two.old) × (one.new ≡ one.old) }
        ensures answer { LoadAnswer (handed automaton.entry) two_image.now one_image.now
            (seen C.entries C.size two.old one.old self.old)
            (seen C.entries C.size two.new one.new self.new) result }
        ensures free { OnOk result
            ((unused two.new + length (pair_decode two_image.now).entries ≡ places two.old)
            × (C.free one.new + length (decode one_image.now).entries ≡ C.size one.old)) }
        ensures keeps { KeepsOn
            (Loads (places two.old) (C.size one.old) (handed automaton.entry)
            two_image.now one_image.now)
            (seen C.entries C.size two.old one.old self.old) (done_told result)
            (seen C.entries C.size two.new one.new self.new) }
    {
        check_pairs(automaton, two_image)?;
        check(automaton, one_image)?;
        let pairs = unpack_pairs(two_image)?;
        let image = unpack(one_image)?;
        if !same_codes(pairs, image) {
            return Err(Refusal::CodesDiffer);
        }
        if pairs.header().entries > two.capacity() {
            return Err(Refusal::CardTooSmall);
        }
        if image.header().entries > one.capacity() {
            return Err(Refusal::CardTooSmall);
        }
        let Some(start) = image.code(automaton.start) else {
            unreachable()
        };
        fill_pairs(two, pairs);
        fill(one, image);
        self.position = Some(Position { start, code: start });
        Ok(())
    }

    /// Walks over the piece on the lent cards from the own code, and stays at the code reached.
    pub fn feed<C: Card>(
        &mut self,
        two: &PairCard<'_>,
        one: &C,
        piece: &[u8],
        marks: &mut [Mark],
    ) -> Result<Progress, Refusal>
        ensures refused { (why : Refusal) → result ≡ Err why → (number why ≢ 7) →
            (self.new ≡ self.old) × (marks.new ≡ marks.old) }
        ensures answer { FeedAnswer (listed two.now) (C.entries one.now) self.old.position
            self.new.position piece.now marks.old marks.new result }
        ensures keeps { KeepsOn (Feeds piece.now (length marks.old))
            (seen C.entries C.size two.now one.now self.old) (fed_told result marks.new)
            (seen C.entries C.size two.now one.now self.new) }
        ensures searches { SearchesFew
            (seen C.entries C.size two.now one.now self.old) piece.now result }
    {
        let at = self.position.ok_or(Refusal::NotLoaded)?;
        let answer = walk(two, one, at.code, piece, marks);
        let code = code_reached(at.code, &answer);
        self.position = Some(Position {
            start: at.start,
            code,
        });
        answer
    }

    /// Back to the start state's code. No card is read.
    pub fn restart(&mut self) -> Result<(), Refusal>
        ensures refused { is_err result ≡ true → self.new ≡ self.old }
        ensures answer { RestartAnswer self.old.position self.new.position result }
        ensures keeps { (s : Seen) → s.position ≡ self.old.position →
            KeepsOn Restarts s (done_told result) (moved s self.new.position) }
    {
        let at = self.position.ok_or(Refusal::NotLoaded)?;
        self.position = Some(Position {
            start: at.start,
            code: at.start,
        });
        Ok(())
    }
}

// Whether two images have the same code width and the same codes.
fn same_codes(two: PairImage<'_>, one: Image<'_>) -> bool
    ensures { Decides result (SameCodes (pair_parts_of two.entry) (parts_of one.entry)) }
{
    let states = two.header().states;
    if two.header().width != one.header().width || states != one.header().states {
        return false;
    }
    for number in 0..states {
        let state = StateNo(number);
        if two.code(state) != one.code(state) {
            return false;
        }
    }
    true
}

// Clears the two-byte card, and appends the entries of the image in order.
fn fill_pairs(card: &mut PairCard<'_>, image: PairImage<'_>)
    requires few { length (pair_parts_of image).entries ≤ 4096 }
    requires room { length (pair_parts_of image).entries ≤ places card.old }
    ensures listed { listed card.new ≡ (pair_parts_of image.entry).entries }
    ensures free { unused card.new + length (pair_parts_of image.entry).entries ≡ places card.old }
    ensures capacity { places card.new ≡ places card.old }
{
    card.clear();
    for e in image.entries() {
        // There is room for all, so none is declined.
        let _ = card.append(e);
    }
}

// Clears the one-byte card, and appends the entries of the image in order.
fn fill<C: Card>(card: &mut C, image: Image<'_>)
    requires few { length (parts_of image).entries ≤ 4096 }
    requires room { length (parts_of image).entries ≤ C.size card.old }
    ensures listed { C.entries card.new ≡ (parts_of image.entry).entries }
    ensures free { C.free card.new + length (parts_of image.entry).entries ≡ C.size card.old }
    ensures capacity { C.size card.new ≡ C.size card.old }
{
    card.clear();
    for e in image.entries() {
        // There is room for all, so none is declined.
        let _ = card.append(e);
    }
}

// The code that a walk from `code` has come to, also where a search found nothing.
fn code_reached(code: StateCode, answer: &Result<Progress, Refusal>) -> StateCode
    ensures { result ≡ reached code answer.now }
{
    match answer {
        Ok(progress) => progress.code,
        Err(Refusal::NoEntry(progress)) => progress.code,
        Err(_) => code,
    }
}
