// Turns of a gateway over a list card, many of them.
ghost use Rattle.std.specs.Prelude.{◌≡◌, Some, length};
ghost use Rattle.ternary.specs.declared.words.StateCode.{StateCode};
ghost use Rattle.automaton.specs.Limits.{handed};
ghost use Rattle.gateway.specs.Sessions.{AllClosed};
ghost use Rattle.gateway.specs.Gateways.{seen};
ghost use Rattle.measured.specs.Told.{numbers_handed};
ghost use Rattle.measured.specs.Feeds.{added};
ghost use Rattle.measured.specs.Turns.{AllWait, TurnTold, Turned, TurnsTold, turned_sum};

use crate::feeds::{SLOTS, fed_sum};
use crate::states::{MOST_SUCCESSORS, states_of};
use automaton::words::Automaton;
use card::list::ListCard;
use card::rules::Card;
use gateway::gateway::Gateway;
use gateway::words::Served;
use ternary::entry::Entry;
use ternary::refusal::Refusal;
use ternary::words::{MOST_ENTRIES, Mark, StateNo};

// A sum with a number more.
fn added(sum: u64, number: u8) -> u64
    ensures { result ≡ added sum number }
{
    sum.wrapping_mul(31).wrapping_add(number as u64)
}

// A sum with what a turn answers and the marks that it left.
fn turned_sum(answer: Result<Option<Served>, Refusal>, marks: &[Mark], sum: u64) -> u64
    ensures { result ≡ turned_sum answer marks.now sum }
{
    match answer {
        Ok(Some(served)) => fed_sum(served.walk, marks, added(sum, served.coach)),
        Ok(None) => sum,
        Err(why) => added(sum, why.number()),
    }
}

// A turn: adds what is answered and the marks to a sum.
fn turn<C: Card>(
    gateway: &mut Gateway<C>,
    buffer: &[u8],
    marks: &mut [Mark],
    quota: usize,
    sum: u64,
) -> u64
    ensures { TurnTold buffer.now quota
        (seen C.entries C.size gateway.old) (seen C.entries C.size gateway.new)
        marks.old marks.new sum result }
{
    let answer = gateway.turn(buffer, marks, quota);
    turned_sum(answer, marks, sum)
}

// So many turns.
fn turns<C: Card>(
    gateway: &mut Gateway<C>,
    buffer: &[u8],
    marks: &mut [Mark],
    quota: usize,
    count: u32,
) -> u64
    ensures { Turned buffer.now quota (seen C.entries C.size gateway.old) marks.old count
        (seen C.entries C.size gateway.new) marks.new result }
{
    let mut sum = 0;
    for _round in 0..count {
        sum = turn(gateway, buffer, marks, quota, sum);
    }
    sum
}

// Opens each coach of a loaded gateway, and lets the whole of a buffer of so many bytes wait for it.
fn all_wait<C: Card>(gateway: &mut Gateway<C>, bytes: usize)
    requires closed { AllClosed gateway.old.sessions }
    ensures { (code : StateCode) → gateway.old.start ≡ Some code → gateway.old.next ≡ 0
        → AllWait (C.entries gateway.old.card) code bytes (seen C.entries C.size gateway.new) }
{
    for coach in 0..64 {
        let _ = gateway.open(coach);
        let _ = gateway.post(coach, 0, bytes);
    }
}

// Loads a gateway, lets the whole buffer wait for each coach, and makes so many turns. Answers the number of a refused load.
fn loaded_turns(
    automaton: Automaton<'_>,
    image: &[u8],
    buffer: &[u8],
    quota: usize,
    count: u32,
) -> u64
    ensures { TurnsTold (handed automaton.entry) image.now buffer.now quota count result }
{
    let mut places = [Entry::default(); MOST_ENTRIES];
    let mut gateway = Gateway::new(ListCard::new(&mut places));
    let mut marks = [Mark::default(); SLOTS];
    match gateway.load(automaton, image) {
        Ok(()) => {
            all_wait(&mut gateway, buffer.len());
            turns(&mut gateway, buffer, &mut marks, quota, count)
        }
        Err(why) => why.number() as u64,
    }
}

// Loads a gateway over a list card, opens all coaches, lets the whole buffer wait for each, and makes so many turns: a sum
// over what is answered, or the number of a refused load.
#[unsafe(no_mangle)]
pub extern "C" fn measured_turns(
    states: u16,
    start: u16,
    successors: &[u16],
    classes: &[u8],
    image: &[u8],
    buffer: &[u8],
    quota: usize,
    count: u32,
) -> u64
    ensures { TurnsTold (numbers_handed states start successors.now classes.now)
        image.now buffer.now quota count result }
{
    if successors.len() > MOST_SUCCESSORS {
        return Refusal::BadAutomaton.number() as u64;
    }
    let successors = states_of(successors);
    let automaton = Automaton {
        states,
        start: StateNo(start),
        successors: successors.as_slice(),
        classes,
    };
    loaded_turns(automaton, image, buffer, quota, count)
}
