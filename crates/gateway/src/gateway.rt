ghost use Rattle.std.specs.Prelude.{◌≡◌, ◌≢◌, ℕ, ◌+◌, ◌%◌, true, drop, length, slice_set, Some, is_err, Decides, OnOk, IsSomeAnd};
ghost use Rattle.automaton.specs.Limits.{handed};
ghost use Rattle.image.specs.Format.{decode};
ghost use Rattle.table.specs.Acceptance.{code_of};
ghost use Rattle.gateway.specs.Sessions.{closed, opened, posted, session_of, walked, marks_written, AllClosed};
ghost use Rattle.gateway.specs.Gateways.{seen, IsBlank, GoodQuota, Turns, Step, loading, opening, posting, turning, closing, done_reply, turn_reply};
ghost use Rattle.gateway.specs.Calls.{IfIdle, IfServes};

use crate::session::{Session, all_closed, next_waiting, open_place, shut_place};
use crate::words::{COACHES, MOST_QUOTA, Served};
use automaton::words::Automaton;
use card::rules::Card;
use scanner::loading::load_card;
use ternary::refusal::Refusal;
use ternary::words::{Mark, StateCode};

/// A card with, once it is loaded, the code of the start state; a record for each coach; and the coach with whom the next
/// turn begins to search.
#[derive(Drop)]
pub struct Gateway<C> {
    card: C,
    start: Option<StateCode>,
    sessions: [Session; COACHES],
    next: u8,
}

impl<C: Card> Gateway<C> {
    /// A gateway that is not loaded, whatever the card holds. It allocates nothing, now or later.
    pub fn new(card: C) -> Gateway<C>
        ensures card { result.card ≡ card }
        ensures blank { IsBlank (seen C.entries C.size result) }
    {
        Gateway {
            card,
            start: None,
            sessions: all_closed(),
            next: 0,
        }
    }

    /// Checks an image against its automaton, fills the card with its entries, and closes every coach. The next turn begins
    /// to search with coach 0. Refused as a check is, by 1, 10, 11 or 12, and then by 6 if the card has too few places.
    /// Costs a check and an append for each entry.
    pub fn load(&mut self, automaton: Automaton<'_>, image: &[u8]) -> Result<(), Refusal>
        ensures refused { is_err result ≡ true → self.new ≡ self.old }
        ensures listed { OnOk result (C.entries self.new.card ≡ (decode image.now).entries) }
        ensures start { OnOk result
            (self.new.start ≡ Some (code_of (decode image.now) automaton.entry.start.0)) }
        ensures closed { OnOk result (AllClosed self.new.sessions) }
        ensures next { OnOk result (self.new.next ≡ 0) }
        ensures step { Step (seen C.entries C.size self.old)
            (loading (handed automaton.entry) image.now) (done_reply result)
            (seen C.entries C.size self.new) }
        ensures free { OnOk result
            (C.free self.new.card + length (decode image.now).entries ≡ C.size self.old.card) }
    {
        let start = load_card(&mut self.card, automaton, image)?;
        self.start = Some(start);
        self.sessions = all_closed();
        self.next = 0;
        Ok(())
    }

    /// Opens a coach at the start state's code, with nothing waiting. Refused by 8 before a load, and by 16 if the number
    /// is 64 or more or the coach is open.
    pub fn open(&mut self, coach: u8) -> Result<(), Refusal>
        ensures card { self.new.card ≡ self.old.card }
        ensures refused { is_err result ≡ true → self.new ≡ self.old }
        ensures ok { OnOk result (IsSomeAnd self.old.start (λ start. self.new ≡ record self.old {
          sessions = slice_set self.old.sessions coach (opened start);
        })) }
        ensures step { Step (seen C.entries C.size self.old)
            (opening coach) (done_reply result)
            (seen C.entries C.size self.new) }
    {
        let Some(start) = self.start else {
            return Err(Refusal::NotLoaded);
        };
        let Some(place) = shut_place(&self.sessions, coach) else {
            return Err(Refusal::BadCoach);
        };
        self.sessions[place] = Session::opened(start);
        Ok(())
    }

    /// Names the part of the receive buffer that waits for a coach: the place of its first byte, and its bytes. A part of
    /// no bytes leaves none waiting. The buffer itself is looked at by the turns that serve the coach, and not before.
    /// Refused by 8 before a load, by 16 if no coach that is open has the number, and by 17 while bytes of it wait.
    pub fn post(&mut self, coach: u8, place: usize, length: usize) -> Result<(), Refusal>
        ensures card { self.new.card ≡ self.old.card }
        ensures refused { is_err result ≡ true → self.new ≡ self.old }
        ensures ok { OnOk result (self.new ≡ record self.old {
          sessions = slice_set self.old.sessions coach
              (posted (session_of self.old.sessions coach) place length);
        }) }
        ensures step { Step (seen C.entries C.size self.old)
            (posting coach place length) (done_reply result)
            (seen C.entries C.size self.new) }
    {
        if self.start.is_none() {
            return Err(Refusal::NotLoaded);
        }
        let Some(number) = open_place(&self.sessions, coach) else {
            return Err(Refusal::BadCoach);
        };
        let session = self.sessions[number];
        if session.waits() {
            return Err(Refusal::BytesWaiting);
        }
        self.sessions[number] = session.posted(place, length);
        Ok(())
    }

    /// Serves the next coach with bytes waiting, in cyclic order after the last one served, or none: walks over the front
    /// of its part, as `buffer` holds it now, no more than `quota` bytes of it; bytes not taken still wait. The marks go
    /// into the first slots. Refused by 8 before a load, and by 18 if the quota is not 1 to 4,096, the slots are fewer than
    /// the quota, or the next coach's part does not lie in the buffer; a refused turn changes nothing, the slots included,
    /// and serves nobody. Costs a look at 64 records and a walk over `quota` bytes at most.
    pub fn turn(
        &mut self,
        buffer: &[u8],
        marks: &mut [Mark],
        quota: usize,
    ) -> Result<Option<Served>, Refusal>
        ensures card { self.new.card ≡ self.old.card }
        ensures refused { is_err result ≡ true → (self.new ≡ self.old) × (marks.new ≡ marks.old) }
        ensures idle { IfIdle result ((self.new ≡ self.old) × (marks.new ≡ marks.old)) }
        ensures ok { IfServes result (λ v. self.new ≡ record self.old {
          sessions = slice_set self.old.sessions v.coach
              (walked (session_of self.old.sessions v.coach) v.walk);
          next = (v.coach + 1) % 64;
        }) }
        ensures others { IfServes result (λ v. (other : ℕ) → other ≢ v.coach
            → session_of self.new.sessions other ≡ session_of self.old.sessions other) }
        ensures slots { IfServes result (λ v.
            drop (marks_written v.walk) marks.new ≡ drop (marks_written v.walk) marks.old) }
        ensures answer { Turns buffer.now marks.old quota (seen C.entries C.size self.old)
            (turn_reply result marks.new) marks.new
            (seen C.entries C.size self.new) }
        ensures step { Step (seen C.entries C.size self.old)
            (turning buffer.now (length marks.old) quota) (turn_reply result marks.new)
            (seen C.entries C.size self.new) }
    {
        if self.start.is_none() {
            return Err(Refusal::NotLoaded);
        }
        if !is_good_quota(quota, marks.len()) {
            return Err(Refusal::BadTurn);
        }
        let Some(coach) = next_waiting(&self.sessions, self.next) else {
            return Ok(None);
        };
        let number = usize::from(coach);
        let session = self.sessions[number];
        if !session.lies_within(buffer.len()) {
            return Err(Refusal::BadTurn);
        }
        let walk = self.sessions[number].serve(&self.card, buffer, marks, quota);
        self.next = (coach + 1) % 64;
        Ok(Some(Served { coach, walk }))
    }

    /// Ends a coach: bytes of it that wait are dropped. Refused by 8 before a load, and by 16 if no coach that is open has
    /// the number.
    pub fn close(&mut self, coach: u8) -> Result<(), Refusal>
        ensures card { self.new.card ≡ self.old.card }
        ensures refused { is_err result ≡ true → self.new ≡ self.old }
        ensures ok { OnOk result (self.new ≡ record self.old {
          sessions = slice_set self.old.sessions coach closed;
        }) }
        ensures step { Step (seen C.entries C.size self.old)
            (closing coach) (done_reply result)
            (seen C.entries C.size self.new) }
    {
        if self.start.is_none() {
            return Err(Refusal::NotLoaded);
        }
        let Some(place) = open_place(&self.sessions, coach) else {
            return Err(Refusal::BadCoach);
        };
        self.sessions[place] = Session::closed();
        Ok(())
    }
}

// Whether a turn takes a quota with so many mark slots.
fn is_good_quota(quota: usize, slots: usize) -> bool
    ensures { Decides result (GoodQuota quota slots) }
{
    1 <= quota && quota <= MOST_QUOTA && quota <= slots
}
