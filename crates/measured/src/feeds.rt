// Feeds of a scanner over a list card, many of them.
ghost use Rattle.std.specs.Prelude.{◌≡◌, ◌≤◌, length};
ghost use Rattle.automaton.specs.Limits.{handed};
ghost use Rattle.measured.specs.Told.{numbers_handed};
ghost use Rattle.measured.specs.Feeds.{FeedTold, Fed, FeedsTold, marked, marks_sum, progress_sum, fed_sum};

use crate::states::{MOST_SUCCESSORS, states_of};
use automaton::words::Automaton;
use card::list::ListCard;
use card::rules::Card;
use scanner::scanner::Scanner;
use ternary::entry::Entry;
use ternary::refusal::Refusal;
use ternary::words::{MOST_ENTRIES, Mark, Progress, StateNo};

// The mark slots of a feed or a turn.
pub const SLOTS: usize = 4096;

// A sum with a mark more.
fn marked(sum: u64, mark: &Mark) -> u64
    ensures { result ≡ marked sum mark.now }
{
    let value = 256 * mark.place as u64 + mark.class as u64;
    sum.wrapping_mul(31).wrapping_add(value)
}

// A sum with so many marks more.
fn marks_sum(marks: &[Mark], sum: u64) -> u64
    ensures { result ≡ marks_sum marks.now sum }
{
    marks.iter().fold(sum, |sum, mark| marked(sum, mark))
}

// A sum with the bytes that a feed took and the code that it reached.
fn progress_sum(progress: Progress, sum: u64) -> u64
    ensures { result ≡ progress_sum progress sum }
{
    let taken = sum.wrapping_mul(31).wrapping_add(progress.taken as u64);
    taken.wrapping_mul(31).wrapping_add(progress.code.0 as u64)
}

// A sum with what a walk answers and the marks that it left, or with the number of a refusal.
pub fn fed_sum(answer: Result<Progress, Refusal>, marks: &[Mark], sum: u64) -> u64
    ensures { result ≡ fed_sum answer marks.now sum }
{
    match answer {
        Ok(progress) => {
            let sum = progress_sum(progress, sum);
            let count = progress.marks.min(marks.len());
            marks_sum(&marks[..count], sum)
        }
        Err(why) => sum.wrapping_mul(31).wrapping_add(why.number() as u64),
    }
}

// Feeds a piece, and adds what is answered and the marks to a sum, or the number of a refusal.
fn feed<C: Card>(scanner: &mut Scanner<C>, piece: &[u8], marks: &mut [Mark], sum: u64) -> u64
    ensures told { FeedTold (C.entries scanner.old.card) piece.now scanner.old.position scanner.new.position marks.old marks.new sum result }
    ensures card { scanner.new.card ≡ scanner.old.card }
{
    let answer = scanner.feed(piece, marks);
    fed_sum(answer, marks, sum)
}

// Feeds a piece so many times.
fn feeds<C: Card>(scanner: &mut Scanner<C>, piece: &[u8], marks: &mut [Mark], count: u32) -> u64
    ensures told { Fed (C.entries scanner.old.card) piece.now scanner.old.position marks.old count scanner.new.position marks.new result }
{
    let mut sum = 0;
    for _round in 0..count {
        sum = feed(scanner, piece, marks, sum);
    }
    sum
}

// Loads a scanner and feeds it a piece so many times. Answers the number of a refused load.
fn loaded_feeds(automaton: Automaton<'_>, image: &[u8], piece: &[u8], count: u32) -> u64
    ensures { FeedsTold (handed automaton.entry) image.now piece.now count result }
{
    let mut buffer = [Entry::default(); MOST_ENTRIES];
    let mut scanner = Scanner::new(ListCard::new(&mut buffer));
    let mut marks = [Mark::default(); SLOTS];
    match scanner.load(automaton, image) {
        Ok(()) => feeds(&mut scanner, piece, &mut marks, count),
        Err(why) => why.number() as u64,
    }
}

// Loads a scanner over a list card and feeds it a piece so many times: a sum over what is answered, or the number of a
// refused load.
#[unsafe(no_mangle)]
pub extern "C" fn measured_feed(
    states: u16,
    start: u16,
    successors: &[u16],
    classes: &[u8],
    image: &[u8],
    piece: &[u8],
    count: u32,
) -> u64
    ensures { FeedsTold (numbers_handed states start successors.now classes.now) image.now piece.now count result }
{
    if successors.len() > MOST_SUCCESSORS {
        return Refusal::BadAutomaton.number() as u64;
    }
    let successors = states_of(successors);
    let automaton = Automaton {
        states,
        start: StateNo(start),
        successors: successors.as_slice(),
        classes,
    };
    loaded_feeds(automaton, image, piece, count)
}
