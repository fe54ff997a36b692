// Feeds of a scanner over a two-byte and a one-byte list card, many of them.
ghost use Rattle.std.specs.Prelude.{◌≡◌, ◌≤◌, length};
ghost use Rattle.automaton.specs.Limits.{handed};
ghost use Rattle.card.specs.ListCards.{listed as one_listed};
ghost use Rattle.pairs.specs.Cards.{listed};
ghost use Rattle.measured.specs.Told.{numbers_handed};
ghost use Rattle.measured.specs.PairFeeds.{mixed, marked, marks_sum, progress_sum, PairFeedTold, PairFed, PairFeedsTold};

use crate::states::{MOST_SUCCESSORS, states_of};
use automaton::words::Automaton;
use card::list::ListCard;
use pair_scanner::lent::PairScanner;
use pairs::list::PairCard;
use pairs::pair::PairEntry;
use ternary::entry::Entry;
use ternary::refusal::Refusal;
use ternary::words::{MOST_ENTRIES, Mark, Progress, StateNo};

// The mark slots of a feed.
const SLOTS: usize = 4096;

// A sum with a number more: its bits turned by five places, and those of the number put in.
fn mixed(sum: u64, number: u64) -> u64
    ensures { result ≡ mixed sum number }
{
    sum.rotate_left(5) ^ number
}

// A sum with a mark more.
fn marked(sum: u64, mark: &Mark) -> u64
    ensures { result ≡ marked sum mark.now }
{
    mixed(sum, 256 * mark.place as u64 + mark.class as u64)
}

// A sum with so many marks more.
fn marks_sum(marks: &[Mark], sum: u64) -> u64
    ensures { result ≡ marks_sum marks.now sum }
{
    marks.iter().fold(sum, |sum, mark| marked(sum, mark))
}

// A sum with the bytes that a feed took, the code that it reached and the searches that it made.
fn progress_sum(progress: Progress, sum: u64) -> u64
    ensures { result ≡ progress_sum progress sum }
{
    let taken = mixed(sum, progress.taken as u64);
    let code = mixed(taken, progress.code.0 as u64);
    mixed(code, progress.searches as u64)
}

// Feeds a piece, and adds what is answered and the marks to a sum, or the number of a refusal.
fn feed(
    scanner: &mut PairScanner,
    two: &PairCard<'_>,
    one: &ListCard<'_>,
    piece: &[u8],
    marks: &mut [Mark],
    sum: u64,
) -> u64
    ensures { PairFeedTold (listed two.now) (one_listed one.now) piece.now scanner.old.position scanner.new.position marks.old marks.new sum result }
{
    match scanner.feed(two, one, piece, marks) {
        Ok(progress) => {
            let sum = progress_sum(progress, sum);
            let count = progress.marks.min(marks.len());
            marks_sum(&marks[..count], sum)
        }
        Err(why) => mixed(sum, why.number() as u64),
    }
}

// Feeds a piece so many times.
fn feeds(
    scanner: &mut PairScanner,
    two: &PairCard<'_>,
    one: &ListCard<'_>,
    piece: &[u8],
    marks: &mut [Mark],
    count: u32,
) -> u64
    ensures { PairFed (listed two.now) (one_listed one.now) piece.now scanner.old.position marks.old count scanner.new.position marks.new result }
{
    let mut sum = 0;
    for _round in 0..count {
        sum = feed(scanner, two, one, piece, marks, sum);
    }
    sum
}

// Loads a scanner and feeds it a piece so many times. Answers the number of a refused load.
fn loaded_feeds(
    automaton: Automaton<'_>,
    two_image: &[u8],
    one_image: &[u8],
    piece: &[u8],
    count: u32,
) -> u64
    ensures { PairFeedsTold (handed automaton.entry) two_image.now one_image.now piece.now count result }
{
    let mut two_places = [PairEntry::default(); MOST_ENTRIES];
    let mut one_places = [Entry::default(); MOST_ENTRIES];
    let mut two = PairCard::new(&mut two_places);
    let mut one = ListCard::new(&mut one_places);
    let mut scanner = PairScanner::new();
    let mut marks = [Mark::default(); SLOTS];
    match scanner.load(&mut two, &mut one, automaton, two_image, one_image) {
        Ok(()) => feeds(&mut scanner, &two, &one, piece, &mut marks, count),
        Err(why) => why.number() as u64,
    }
}

// Loads a scanner over a two-byte and a one-byte list card and feeds it a piece so many times: a sum over what is answered,
// or the number of a refused load.
#[unsafe(no_mangle)]
pub extern "C" fn measured_pair_feed(
    states: u16,
    start: u16,
    successors: &[u16],
    classes: &[u8],
    two_image: &[u8],
    one_image: &[u8],
    piece: &[u8],
    count: u32,
) -> u64
    ensures { PairFeedsTold (numbers_handed states start successors.now classes.now) two_image.now one_image.now piece.now count result }
{
    if successors.len() > MOST_SUCCESSORS {
        return Refusal::BadAutomaton.number() as u64;
    }
    let successors = states_of(successors);
    let automaton = Automaton {
        states,
        start: StateNo(start),
        successors: successors.as_slice(),
        classes,
    };
    loaded_feeds(automaton, two_image, one_image, piece, count)
}
