#![tactic(auto)]

// Tries compiled patterns beside regular expressions of the kit: `pattern_trial SETS SEED` draws so many sets of patterns, with
// the seeds from that one on, and `pattern_trial` a few. After each byte of random inputs, and before the first, the class is
// to be that of the lowest pattern with a match that ends there. The line that counts is `0 differences`.
use crate::random::Random;
use crate::sets::{Buffers, Set};
use crate::texts::input;
use regex::bytes::{Matcher, Regex};
use std::alloc::{AllocError, Global};
use std::env;

mod random;
mod sets;
mod texts;

// The sets where none are asked for, and the seed of the first.
const SETS: u64 = 60;

const SEED: u64 = 1;

// The inputs that each set is tried on.
const INPUTS: usize = 6;

// What was tried, and how often the two differed.
#[derive(Clone, Copy, Drop)]
struct Counts {
    sets: u64,
    refused: u64,
    classes: u64,
    differences: u64,
}

fn main(rt: HostRuntime) -> anyhow::Result<()> {
    let heap = rt.alloc();
    let mut words = env::args(&rt)?.skip(1);
    let sets = number(words.next(), SETS)?;
    let seed = number(words.next(), SEED)?;
    let mut buffers = Buffers::new(heap)?;
    let mut counts = Counts {
        sets: 0,
        refused: 0,
        classes: 0,
        differences: 0,
    };
    for set in 0..sets {
        let mut random = Random::new(seed.wrapping_add(set));
        try_set(heap, &mut random, &mut buffers, &mut counts)?;
    }
    let Counts {
        sets,
        refused,
        classes,
        differences,
    } = counts;
    println!(&rt; "{sets} sets, {refused} of them refused, {classes} classes")?;
    println!(&rt; "{differences} differences")?;
    Ok(())
}

// The number that a word says, or the usual one where there is no word.
fn number(word: Option<String>, usual: u64) -> anyhow::Result<u64> {
    match word {
        Some(word) => Ok(word.as_str().parse()?),
        None => Ok(usual),
    }
}

// Draws a set of patterns, and tries it. Only sets that are too large may be refused.
fn try_set(
    heap: Global,
    random: &mut Random,
    buffers: &mut Buffers,
    counts: &mut Counts,
) -> Result<(), AllocError> {
    counts.sets = counts.sets.wrapping_add(1);
    let set = Set::draw(heap, random)?;
    if let Err(why) = set.compile(buffers) {
        counts.refused = counts.refused.wrapping_add(1);
        if why.number() != 21 {
            counts.differences = counts.differences.wrapping_add(1);
        }
        return Ok(());
    }
    match set.expressions(heap)? {
        Some(expressions) => try_inputs(heap, random, buffers, &expressions, counts),
        None => {
            counts.differences = counts.differences.wrapping_add(1);
            Ok(())
        }
    }
}

// Tries a set on some inputs.
fn try_inputs(
    heap: Global,
    random: &mut Random,
    buffers: &Buffers,
    expressions: &Vec<Regex>,
    counts: &mut Counts,
) -> Result<(), AllocError> {
    let mut matchers = Vec::new(heap);
    for expression in expressions.iter() {
        matchers.push(expression.matcher(heap)?)?;
    }
    for _input in 0..INPUTS {
        let input = input(heap, random)?;
        for end in 0..=input.len() {
            let before = input.as_slice().get(..end).unwrap_or(b"");
            let class = lowest(&mut matchers, before);
            counts.classes = counts.classes.wrapping_add(1);
            if buffers.class(before) != Some(class) {
                counts.differences = counts.differences.wrapping_add(1);
            }
        }
    }
    Ok(())
}

// The lowest pattern with a match that ends where the input ends, and 0 if none has.
fn lowest(matchers: &mut Vec<Matcher<'_>>, input: &[u8]) -> u8 {
    for (index, matcher) in matchers.iter_mut().enumerate() {
        if matcher.is_match(input) {
            return (index % 32) as u8 + 1;
        }
    }
    0
}
