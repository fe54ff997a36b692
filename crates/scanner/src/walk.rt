ghost use Rattle.std.specs.Prelude.{◌≡◌, ◌+◌, ◌<◌, ◌≤◌, Decides, ◌≢◌};
ghost use Rattle.scanner.specs.Walks.{longest, Outcome, Only};

use card::rules::Card;
use ternary::refusal::Refusal;
use ternary::words::{Mark, Progress, StateCode};

// The most bytes that one piece may have: each place in it fits a mark.
const LONGEST_PIECE: usize = 65_536;

// Takes leading bytes of the piece, one search a byte, while each has an entry and the marks fit the buffer.
pub fn walk<C: Card>(
    card: &C,
    from: StateCode,
    piece: &[u8],
    marks: &mut [Mark],
) -> Result<Progress, Refusal>
    ensures outcome { Outcome (C.entries card.now) from piece.now marks.old marks.new result }
    ensures only { Only (C.entries card.now) from piece.now marks.old marks.new result }
{
    if piece.len() > LONGEST_PIECE {
        return Err(Refusal::PieceTooLong);
    }
    let mut code = from;
    let mut written = 0;
    for (i, byte) in piece.iter().enumerate() {
        let Some((next, class)) = card.search(code, *byte) else {
            return Err(Refusal::NoEntry(stopped(i, written, code, false)));
        };
        if lacks_slot(class, written, marks.len()) {
            return Ok(stopped(i, written, code, true));
        }
        if class != 0 {
            marks[written] = Mark {
                place: i as u16,
                class,
            };
            written += 1;
        }
        code = next;
    }
    Ok(Progress {
        taken: piece.len(),
        marks: written,
        code,
        marks_full: false,
        searches: piece.len(),
    })
}

// Whether a byte that leads to this class gives a mark, and no slot is left for it.
fn lacks_slot(class: u8, written: usize, slots: usize) -> bool
    ensures { Decides result ((class ≢ 0) × (slots ≤ written)) }
{
    class != 0 && written >= slots
}

// The answer of a walk that stops before the end of its piece: the search for the next byte counts too.
fn stopped(taken: usize, marks: usize, code: StateCode, marks_full: bool) -> Progress
    requires { taken < longest }
    ensures { result ≡ record { taken = taken; marks = marks; code = code; marks_full = marks_full; searches = taken + 1 } }
{
    Progress {
        taken,
        marks,
        code,
        marks_full,
        searches: taken + 1,
    }
}
