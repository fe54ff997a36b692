ghost use Rattle.std.specs.Prelude.{◌≡◌, is_ok, IfOk};
ghost use Rattle.scanner.specs.Scanners.{seen, KeepsOn};
ghost use Rattle.commission.specs.declared.words.Call.TheVariants.{Load, Feed, Restart};
ghost use Rattle.commission.specs.Journeys.{told, Turn, Ran};

use crate::words::{Answer, Call, Done};
use card::rules::Card;
use scanner::scanner::Scanner;
use std::alloc::{AllocError, Global};
use table::filing::Filing;
use ternary::words::Mark;

// Makes the calls one after another on a new scanner over the card, and puts their answers behind those that are there.
pub fn run<C: Card + Drop>(
    heap: Global,
    card: C,
    calls: &[Call],
    answers: &mut Vec<Answer>,
) -> Result<(), AllocError>
    ensures { Ran (C.size card) calls.now answers.old.items answers.new.items (is_ok result) }
{
    let mut scanner = Scanner::new(card);
    for call in calls {
        let answer = answer_to(&mut scanner, heap, call)?;
        answers.push(answer)?;
    }
    Ok(())
}

// One call of the scanner.
fn answer_to<C: Card>(
    scanner: &mut Scanner<C>,
    heap: Global,
    call: &Call,
) -> Result<Answer, AllocError>
    ensures capacity { C.size scanner.new.card ≡ C.size scanner.old.card }
    ensures keeps { IfOk result (λ a. KeepsOn (Turn (C.size scanner.old.card) call.now) (seen C.entries C.size scanner.old) (told a) (seen C.entries C.size scanner.new)) }
{
    match call {
        Call::Load(filing) => Ok(load(scanner, filing)),
        Call::Feed(piece, slots) => feed(scanner, heap, piece, *slots),
        Call::Restart => Ok(restart(scanner)),
    }
}

// A load of what is filed.
fn load<C: Card>(scanner: &mut Scanner<C>, filing: &Filing) -> Answer
    ensures capacity { C.size scanner.new.card ≡ C.size scanner.old.card }
    ensures keeps { KeepsOn (Turn (C.size scanner.old.card) (Load filing.now)) (seen C.entries C.size scanner.old) (told result) (seen C.entries C.size scanner.new) }
{
    let answer = scanner.load(filing.automaton(), filing.image.as_slice());
    answer.map(|()| Done::Accepted)
}

// A feed of a piece, with so many slots for marks.
fn feed<C: Card>(
    scanner: &mut Scanner<C>,
    heap: Global,
    piece: &Vec<u8>,
    slots: usize,
) -> Result<Answer, AllocError>
    ensures capacity { C.size scanner.new.card ≡ C.size scanner.old.card }
    ensures keeps { IfOk result (λ a. KeepsOn (Turn (C.size scanner.old.card) (Feed piece.now slots)) (seen C.entries C.size scanner.old) (told a) (seen C.entries C.size scanner.new)) }
{
    let mut marks = vec![in heap; Mark::default(); slots]?;
    match scanner.feed(piece.as_slice(), marks.as_mut_slice()) {
        Ok(progress) => {
            marks.truncate(progress.marks);
            Ok(Ok(Done::Fed(progress, marks)))
        }
        Err(why) => Ok(Err(why)),
    }
}

// A restart.
fn restart<C: Card>(scanner: &mut Scanner<C>) -> Answer
    ensures capacity { C.size scanner.new.card ≡ C.size scanner.old.card }
    ensures keeps { KeepsOn (Turn (C.size scanner.old.card) Restart) (seen C.entries C.size scanner.old) (told result) (seen C.entries C.size scanner.new) }
{
    let answer = scanner.restart();
    answer.map(|()| Done::Accepted)
}
