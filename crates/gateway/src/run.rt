ghost use Rattle.std.specs.Prelude.{◌≡◌, is_ok, IfOk};
ghost use Rattle.gateway.specs.Gateways.{seen, Step, loading, opening, posting, turning, closing, done_reply};
ghost use Rattle.scanner.specs.Scanners.{fed_told};
ghost use Rattle.automaton.specs.Limits.{handed};
ghost use Rattle.table.specs.Filed.{filed};
ghost use Rattle.gateway.specs.Runs.{asked, walk_told, replied, Ran};

use crate::gateway::Gateway;
use crate::words::{Answer, Call, Done, Turn};
use card::rules::Card;
use std::alloc::{AllocError, Global};
use table::filing::Filing;
use ternary::refusal::Refusal;
use ternary::words::{Mark, Progress};

/// Makes the calls one after another on a new gateway over the card, and puts their answers behind those that are there.
/// Each turn has mark slots of its own, from `heap`. For want of memory it stops with the error of the allocator: the
/// answers of the calls before are kept.
pub fn run<C: Card + Drop>(
    heap: Global,
    card: C,
    calls: &[Call],
    answers: &mut Vec<Answer>,
) -> Result<(), AllocError>
    ensures { Ran (C.size card) calls.now answers.old.items answers.new.items (is_ok result) }
{
    let mut gateway = Gateway::new(card);
    for call in calls {
        let answer = answer_to(&mut gateway, heap, call)?;
        answers.push(answer)?;
    }
    Ok(())
}

// One call of the gateway.
fn answer_to<C: Card>(
    gateway: &mut Gateway<C>,
    heap: Global,
    call: &Call,
) -> Result<Answer, AllocError>
    ensures { IfOk result (λ a. Step (seen C.entries C.size gateway.old)
        (asked call.now) (replied a)
        (seen C.entries C.size gateway.new)) }
{
    match call {
        Call::Load(filing) => Ok(load(gateway, filing)),
        Call::Open(coach) => Ok(done(gateway.open(*coach))),
        Call::Post(coach, part) => Ok(done(gateway.post(*coach, part.place, part.length))),
        Call::Turn(given) => turn(gateway, heap, given),
        Call::Close(coach) => Ok(done(gateway.close(*coach))),
    }
}

// A load of what is filed.
fn load<C: Card>(gateway: &mut Gateway<C>, filing: &Filing) -> Answer
    ensures { Step (seen C.entries C.size gateway.old)
        (loading (filed filing.now) filing.now.image.items) (replied result)
        (seen C.entries C.size gateway.new) }
{
    done(gateway.load(filing.automaton(), filing.image.as_slice()))
}

// A turn, with so many slots for marks.
fn turn<C: Card>(gateway: &mut Gateway<C>, heap: Global, given: &Turn) -> Result<Answer, AllocError>
    ensures { IfOk result (λ a. Step (seen C.entries C.size gateway.old)
        (turning given.now.buffer.items given.now.slots given.now.quota) (replied a)
        (seen C.entries C.size gateway.new)) }
{
    let mut marks = vec![in heap; Mark::default(); given.slots]?;
    match gateway.turn(given.buffer.as_slice(), marks.as_mut_slice(), given.quota) {
        Ok(Some(served)) => {
            keep_written(&mut marks, &served.walk);
            Ok(Ok(Done::Served(served, marks)))
        }
        Ok(None) => Ok(Ok(Done::Idle)),
        Err(why) => Ok(Err(why)),
    }
}

// Keeps the marks that a walk wrote.
fn keep_written(marks: &mut Vec<Mark>, walk: &Result<Progress, Refusal>)
    ensures { walk_told walk.now marks.new.items ≡ fed_told walk.now marks.old.items }
{
    if let Ok(progress) = walk {
        marks.truncate(progress.marks);
    }
}

// What a load, an open, a post or a close answers.
fn done(answer: Result<(), Refusal>) -> Answer
    ensures { replied result ≡ done_reply answer }
{
    match answer {
        Ok(()) => Ok(Done::Accepted),
        Err(why) => Err(why),
    }
}
