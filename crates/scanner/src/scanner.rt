ghost use Rattle.std.specs.Prelude.{◌≡◌, ◌+◌, true, length, is_err, None, Err, OnOk, ◌≢◌};
ghost use Rattle.ternary.specs.declared.refusal.Refusal.{Refusal};
ghost use Rattle.ternary.specs.Refusals.{number};
ghost use Rattle.automaton.specs.Limits.{handed};
ghost use Rattle.image.specs.Format.{decode};
ghost use Rattle.scanner.specs.Book.{blank, Loads, Feeds, Restarts};
ghost use Rattle.scanner.specs.Scanners.{seen, reached, LoadAnswer, FeedAnswer, RestartAnswer, done_told, fed_told, Keeps, KeepsOn};

use crate::loading::load_card;
use crate::walk::walk;
use automaton::words::Automaton;
use card::rules::Card;
use ternary::refusal::Refusal;
use ternary::words::{Mark, Progress, StateCode};

// Where a loaded scanner stands: the code of the start state, and the code that it has come to.
#[derive(Clone, Copy, PartialEq, Eq, Debug)]
pub struct Position {
    start: StateCode,
    code: StateCode,
}

// A card and, once it is loaded, where the scanner stands.
#[derive(Drop)]
pub struct Scanner<C> {
    card: C,
    position: Option<Position>,
}

impl<C: Card> Scanner<C> {
    // A scanner that is not loaded, whatever the card holds.
    pub fn new(card: C) -> Scanner<C>
        ensures card { result.card ≡ card }
        ensures position { result.position ≡ None }
        ensures keeps { Keeps (seen C.entries C.size result) blank }
    {
        Scanner {
            card,
            position: None,
        }
    }

    // Checks an image against its automaton, fills the card with its entries, and stands at the start state's code.
    pub fn load(&mut self, automaton: Automaton<'_>, image: &[u8]) -> Result<(), Refusal>
        ensures refused { is_err result ≡ true → self.new ≡ self.old }
        ensures answer { LoadAnswer (handed automaton.entry) image.now (seen C.entries C.size self.old) (seen C.entries C.size self.new) result }
        ensures free { OnOk result (C.free self.new.card + length (decode image.now).entries ≡ C.size self.old.card) }
        ensures keeps { KeepsOn (Loads (C.size self.old.card) (handed automaton.entry) image.now) (seen C.entries C.size self.old) (done_told result) (seen C.entries C.size self.new) }
    {
        let start = load_card(&mut self.card, automaton, image)?;
        self.position = Some(Position { start, code: start });
        Ok(())
    }

    // Walks over the piece on the own card from the own code, and stays at the code reached.
    pub fn feed(&mut self, piece: &[u8], marks: &mut [Mark]) -> Result<Progress, Refusal>
        ensures card { self.new.card ≡ self.old.card }
        ensures refused { (why : Refusal) → result ≡ Err why → (number why ≢ 7) → (self.new ≡ self.old) × (marks.new ≡ marks.old) }
        ensures answer { FeedAnswer (C.entries self.old.card) self.old.position self.new.position piece.now marks.old marks.new result }
        ensures keeps { KeepsOn (Feeds piece.now (length marks.old)) (seen C.entries C.size self.old) (fed_told result marks.new) (seen C.entries C.size self.new) }
    {
        let at = self.position.ok_or(Refusal::NotLoaded)?;
        let answer = walk(&self.card, at.code, piece, marks);
        let code = code_reached(at.code, &answer);
        self.position = Some(Position {
            start: at.start,
            code,
        });
        answer
    }

    // Back to the start state's code.
    pub fn restart(&mut self) -> Result<(), Refusal>
        ensures card { self.new.card ≡ self.old.card }
        ensures refused { is_err result ≡ true → self.new ≡ self.old }
        ensures answer { RestartAnswer self.old.position self.new.position result }
        ensures keeps { KeepsOn Restarts (seen C.entries C.size self.old) (done_told result) (seen C.entries C.size self.new) }
    {
        let at = self.position.ok_or(Refusal::NotLoaded)?;
        self.position = Some(Position {
            start: at.start,
            code: at.start,
        });
        Ok(())
    }
}

// The code that a walk from `code` has come to, also where it met a byte without an entry. A scanner and whoever else
// walks piece after piece goes on from there.
pub fn code_reached(code: StateCode, answer: &Result<Progress, Refusal>) -> StateCode
    ensures { result ≡ reached code answer.now }
{
    match answer {
        Ok(progress) => progress.code,
        Err(Refusal::NoEntry(progress)) => progress.code,
        Err(_) => code,
    }
}
