#![tactic(auto)]

// Tries the library beside an automaton's own run: the figures of the rules that are not proved as one fact, and automata
// drawn at random. `trial ROUNDS SEED` makes so many rounds, with the seeds from that one on, and `trial` a few. The
// counts that it prints show how much was tried, and nothing is proved by them: the line that counts is
// `0 differences`.
use crate::figures::try_figures;
use crate::findings::Findings;
use crate::rounds::try_round;
use crate::trial::Trial;
use crate::two::turns::{try_large_turn, try_turn};
use std::alloc::AllocError;
use std::env;

mod altered;
mod cases;
mod coaches;
mod counts;
mod depot;
mod figures;
mod findings;
mod journey;
mod kinds;
mod lists;
mod machine;
mod parts;
mod plan;
mod random;
mod rounds;
mod scan;
mod streams;
mod trial;
mod two;
mod verdict;
mod wrong;

// The rounds where none are asked for, and the seed of the first.
const ROUNDS: u64 = 40;

const SEED: u64 = 1;

fn main(rt: HostRuntime) -> anyhow::Result<()> {
    let mut words = env::args(&rt)?.skip(1);
    let rounds = number(words.next(), ROUNDS)?;
    let seed = number(words.next(), SEED)?;
    let mut trial = Trial::new(rt.alloc());
    try_figures(rt.alloc(), &mut trial.findings)?;
    try_rounds(&mut trial, rounds, seed)?;
    try_turns(&mut trial, rounds, seed)?;
    print_findings(&rt, &trial.findings)
}

// The number that a word says, or the usual one where there is no word.
fn number(word: Option<String>, usual: u64) -> anyhow::Result<u64> {
    match word {
        Some(word) => Ok(word.as_str().parse()?),
        None => Ok(usual),
    }
}

// Makes so many rounds, each with the next seed.
fn try_rounds(trial: &mut Trial, rounds: u64, seed: u64) -> Result<(), AllocError> {
    for round in 0..rounds {
        trial.begin(seed.wrapping_add(round));
        try_round(trial)?;
    }
    Ok(())
}

// Makes so many turns of two bytes in a search, each with the next seed, and a large one behind every twentieth.
fn try_turns(trial: &mut Trial, turns: u64, seed: u64) -> Result<(), AllocError> {
    for turn in 0..turns {
        trial.begin(seed.wrapping_add(turn));
        try_turn(trial)?;
        if turn % 20 == 19 {
            try_large_turn(trial, 512)?;
        }
    }
    Ok(())
}

// Prints the counts and each difference.
fn print_findings(rt: &HostRuntime, findings: &Findings) -> anyhow::Result<()> {
    let counts = findings.counts;
    println!(rt; "{counts}")?;
    let tallies = findings.tallies;
    println!(rt; "{tallies}")?;
    for difference in findings.differences.iter() {
        println!(rt; "seed {}: {:?}", difference.seed, difference.subject)?;
    }
    println!(rt; "{} differences", findings.differences.len())?;
    Ok(())
}
