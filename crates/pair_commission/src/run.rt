ghost use Rattle.std.specs.Prelude.{is_ok, IfOk};
ghost use Rattle.pairs.specs.Cards.{places};
ghost use Rattle.pair_scanner.specs.Scanners.{seen};
ghost use Rattle.pair_commission.specs.Journeys.{loading, feeding, restarting};
ghost use Rattle.pair_commission.specs.Laws.{Step};
ghost use Rattle.pair_commission.specs.Runs.{filed, asked, replied, Ran};

use crate::words::{Answer, Call, Done, Filing};
use card::rules::Card;
use pair_scanner::lent::PairScanner;
use pairs::list::PairCard;
use std::alloc::{AllocError, Global};
use ternary::words::Mark;

/// Makes the calls one after another on a new scanner, with these two cards lent to each, and puts their answers behind those
/// that are there.
pub fn run<C: Card>(
    heap: Global,
    two: &mut PairCard<'_>,
    one: &mut C,
    calls: &[Call],
    answers: &mut Vec<Answer>,
) -> Result<(), AllocError>
    ensures { Ran (places two.old) (C.size one.old) calls.now answers.old.items answers.new.items
        (is_ok result) }
{
    let mut scanner = PairScanner::new();
    for call in calls {
        let answer = answer_to(&mut scanner, two, one, heap, call)?;
        answers.push(answer)?;
    }
    Ok(())
}

// One call of the scanner.
fn answer_to<C: Card>(
    scanner: &mut PairScanner,
    two: &mut PairCard<'_>,
    one: &mut C,
    heap: Global,
    call: &Call,
) -> Result<Answer, AllocError>
    ensures { IfOk result (λ a. Step
        (seen C.entries C.size two.old one.old scanner.old) (asked call.now) (replied a)
        (seen C.entries C.size two.new one.new scanner.new)) }
{
    match call {
        Call::Load(filing) => Ok(load(scanner, two, one, filing)),
        Call::Feed(piece, slots) => feed(scanner, two, one, heap, piece, *slots),
        Call::Restart => Ok(restart(scanner, two, one)),
    }
}

// A load of what is filed.
fn load<C: Card>(
    scanner: &mut PairScanner,
    two: &mut PairCard<'_>,
    one: &mut C,
    filing: &Filing,
) -> Answer
    ensures { Step
        (seen C.entries C.size two.old one.old scanner.old)
        (loading (filed filing.now) filing.now.two.items filing.now.one.items) (replied result)
        (seen C.entries C.size two.new one.new scanner.new) }
{
    let answer = scanner.load(
        two,
        one,
        filing.automaton(),
        filing.two.as_slice(),
        filing.one.as_slice(),
    );
    answer.map(|()| Done::Accepted)
}

// A feed of a piece, with so many slots for marks.
fn feed<C: Card>(
    scanner: &mut PairScanner,
    two: &PairCard<'_>,
    one: &C,
    heap: Global,
    piece: &Vec<u8>,
    slots: usize,
) -> Result<Answer, AllocError>
    ensures { IfOk result (λ a. Step
        (seen C.entries C.size two.now one.now scanner.old)
        (feeding piece.now.items slots) (replied a)
        (seen C.entries C.size two.now one.now scanner.new)) }
{
    let mut marks = vec![in heap; Mark::default(); slots]?;
    match scanner.feed(two, one, piece.as_slice(), marks.as_mut_slice()) {
        Ok(progress) => {
            marks.truncate(progress.marks);
            Ok(Ok(Done::Fed(progress, marks)))
        }
        Err(why) => Ok(Err(why)),
    }
}

// A restart, which reads no card.
fn restart<C: Card>(scanner: &mut PairScanner, two: &PairCard<'_>, one: &C) -> Answer
    ensures { Step
        (seen C.entries C.size two.now one.now scanner.old) restarting (replied result)
        (seen C.entries C.size two.now one.now scanner.new) }
{
    let answer = scanner.restart();
    answer.map(|()| Done::Accepted)
}
