ghost use Rattle.std.specs.Prelude.{◌≡◌, ◌+◌, ◌-◌, ◌<◌, ◌≤◌, length, cond, IfErr, Some, None};
ghost use Rattle.ternary.specs.Marks.{mark};
ghost use Rattle.ternary.specs.Match as one_byte;
ghost use Rattle.pairs.specs.Cards.{listed};
ghost use Rattle.pair_walk.specs.Ways.{full, fits, stopped, by_stride, last as last_byte, alone};
ghost use Rattle.pair_walk.specs.Steps.{put_marks, stop_at, told_on, LongWay};
ghost use Rattle.pair_walk.specs.Walks.{answer, leaves, over, AsOneByte, Declines, Serves};

use card::rules::Card;
use pairs::list::PairCard;
use pairs::stride::Stride;
use ternary::refusal::Refusal;
use ternary::words::{Mark, Progress, StateCode};

// The most bytes that one piece may have: each place in it fits a mark.
const LONGEST_PIECE: usize = 65_536;

// How far a walk has come: the bytes taken, the marks written, the code reached, and the searches made.
#[derive(Clone, Copy)]
struct Way {
    taken: usize,
    written: usize,
    code: StateCode,
    searches: usize,
}

impl Way {
    // The answer of a walk that stops here, after so many searches more.
    fn stop(self, searches: usize, marks_full: bool) -> Progress
        requires { (self.searches ≤ 65536) × (searches ≤ 2) }
        ensures { result ≡ stop_at self searches marks_full }
    {
        Progress {
            taken: self.taken,
            marks: self.written,
            code: self.code,
            marks_full,
            searches: self.searches + searches,
        }
    }
}

// Writes the mark of a byte at a place, if its class gives one, and answers the marks written then; nothing where no slot
// is left for it.
fn put(marks: &mut [Mark], written: usize, place: usize, class: u8) -> Option<usize>
    requires place { place < 65536 }
    requires written { written ≤ length marks.old }
    ensures written { result ≡ cond (fits (length marks.old - written) class)
        (Some (written + length (mark place class))) None }
    ensures marks { marks.new ≡ cond (fits (length marks.old - written) class)
        (put_marks marks.old written (mark place class)) marks.old }
{
    if class == 0 {
        return Some(written);
    }
    if written >= marks.len() {
        return None;
    }
    marks[written] = Mark {
        place: place as u16,
        class,
    };
    Some(written + 1)
}

// The first of two bytes alone, where the mark of the second has no slot: the walk stops after it, or before it if it has a
// mark.
fn first_alone<C: Card>(one: &C, way: Way, byte: u8) -> Result<Progress, Refusal>
    requires { LongWay way }
    ensures { result ≡ told_on way (alone way.code
        (one_byte.first (C.entries one.now) way.code.0 byte)) }
{
    match one.search(way.code, byte) {
        None => Err(Refusal::NoEntry(way.stop(2, false))),
        Some((next, class)) => {
            if class == 0 {
                Ok(Progress {
                    taken: way.taken + 1,
                    marks: way.written,
                    code: next,
                    marks_full: true,
                    searches: way.searches + 2,
                })
            } else {
                Ok(way.stop(2, true))
            }
        }
    }
}

// The last byte of a piece.
fn last<C: Card>(one: &C, way: Way, byte: u8, marks: &mut [Mark]) -> Result<Progress, Refusal>
    requires way { LongWay way }
    requires written { way.written ≤ length marks.old }
    ensures answer { result ≡ told_on way (last_byte (length marks.old - way.written) way.taken
        way.code (one_byte.first (C.entries one.now) way.code.0 byte)) }
    ensures marks { marks.new ≡ put_marks marks.old way.written
        (last_byte (length marks.old - way.written) way.taken way.code
        (one_byte.first (C.entries one.now) way.code.0 byte)).ms }
{
    let Some((next, class)) = one.search(way.code, byte) else {
        return Err(Refusal::NoEntry(way.stop(1, false)));
    };
    let Some(written) = put(marks, way.written, way.taken, class) else {
        return Ok(way.stop(1, true));
    };
    Ok(Progress {
        taken: way.taken + 1,
        marks: written,
        code: next,
        marks_full: false,
        searches: way.searches + 1,
    })
}

// The mark of a decision has no slot. One of a single byte stops the walk; one of two lets it take the first alone.
fn no_slot<C: Card>(one: &C, way: Way, stride: Stride, byte: u8) -> Result<Progress, Refusal>
    requires { LongWay way }
    ensures { result ≡ told_on way (by_stride stride (stopped way.code 1 full)
        (alone way.code (one_byte.first (C.entries one.now) way.code.0 byte))) }
{
    match stride {
        Stride::One => Ok(way.stop(1, true)),
        Stride::Two => first_alone(one, way, byte),
    }
}

/// Takes leading bytes of the piece while searches find something and the marks fit the buffer: two bytes or more that are
/// left are searched on the two-byte card, which says whether one or two are taken, and a single one on the one-byte card.
pub fn walk<C: Card>(
    two: &PairCard<'_>,
    one: &C,
    from: StateCode,
    piece: &[u8],
    marks: &mut [Mark],
) -> Result<Progress, Refusal>
    // Exactly so, whatever the cards hold.
    ensures answer { result ≡ answer (C.entries one.now) (listed two.now) from piece.now
        (length marks.old) }
    ensures marks { marks.new ≡ leaves (C.entries one.now) (listed two.now) from piece.now
        marks.old }
    // So it is refused by 9 or by 7 alone.
    ensures refused { IfErr result (Declines
        (over (C.entries one.now) (listed two.now) from piece.now (length marks.old))
        piece.now marks.old marks.new) }
    // Where both cards carry an automaton by the same codes, as the walk of one byte a search.
    ensures same { Serves (C.entries one.now) (listed two.now) from →
        AsOneByte (C.entries one.now) from piece.now marks.old marks.new result }
{
    if piece.len() > LONGEST_PIECE {
        return Err(Refusal::PieceTooLong);
    }
    let mut way = Way {
        taken: 0,
        written: 0,
        code: from,
        searches: 0,
    };
    let mut rest = piece;
    while let [byte, second, ..] = rest {
        let Some((next, class, stride)) = two.search(way.code, *byte, *second) else {
            return Err(Refusal::NoEntry(way.stop(1, false)));
        };
        let bytes = stride.bytes();
        let Some(written) = put(marks, way.written, way.taken + bytes - 1, class) else {
            return no_slot(one, way, stride, *byte);
        };
        way = Way {
            taken: way.taken + bytes,
            written,
            code: next,
            searches: way.searches + 1,
        };
        rest = &rest[bytes..];
    }
    match rest {
        [byte, ..] => last(one, way, *byte, marks),
        [] => Ok(way.stop(0, false)),
    }
}
