// A compiling of patterns.
ghost use Rattle.std.specs.Prelude.{◌≡◌};
ghost use Rattle.measured.specs.Feeds.{added};
ghost use Rattle.measured.specs.Compiling.{CompileTold, places_of, state_added, states_sum, classes_sum};

use compiler::compile::compile;
use std::array;
use syntax::places::place::Place;
use ternary::words::{MOST_STATES, StateNo};

// The patterns that are compiled.
const PATTERNS: usize = 32;

// So many patterns of one length, one after another.
fn places(len: u16) -> [Place; PATTERNS]
    ensures { result ≡ places_of len }
{
    let len = len as usize;
    array::from_fn(|i| Place {
        start: i * len,
        len,
    })
}

// A sum with a successor more.
fn state_added(sum: u64, next: &StateNo) -> u64
    ensures { result ≡ state_added sum next.now }
{
    sum.wrapping_mul(31).wrapping_add(next.0 as u64)
}

// A sum with a class more.
fn class_added(sum: u64, class: &u8) -> u64
    ensures { result ≡ added sum class.now }
{
    sum.wrapping_mul(31).wrapping_add(*class as u64)
}

// A sum with the successors of all states.
fn states_sum(successors: &[StateNo], sum: u64) -> u64
    ensures { result ≡ states_sum successors.now sum }
{
    successors
        .iter()
        .fold(sum, |sum, next| state_added(sum, next))
}

// A sum with the classes of all states.
fn classes_sum(classes: &[u8], sum: u64) -> u64
    ensures { result ≡ classes_sum classes.now sum }
{
    classes
        .iter()
        .fold(sum, |sum, class| class_added(sum, class))
}

// Compiles 32 patterns of one length, which stand one after another: a sum over what both buffers hold, or the number of a
// refusal.
#[unsafe(no_mangle)]
pub extern "C" fn measured_compile(buffer: &[u8], len: u16) -> u64
    ensures { CompileTold buffer.now len result }
{
    let mut successors = [StateNo(0); 256 * MOST_STATES];
    let mut classes = [0; MOST_STATES];
    match compile(buffer, &places(len), &mut successors, &mut classes) {
        Ok(header) => classes_sum(&classes, states_sum(&successors, header.states as u64)),
        Err(why) => why.number() as u64,
    }
}
