#![tactic(auto)]

//! Takes an automaton into service with two bytes in one search: `pair_commissioner AUTOMATON TWO ONE STREAM`, four files.
//! It checks the two-byte image and the one-byte image, builds two of its own, and makes calls on a scanner over two list
//! cards: a restart before the load, the load, the stream piece by piece, a restart, and the whole stream once more as one
//! piece with one mark slot.
use anyhow::Context;
use automaton::file::read;
use card::list::ListCard;
use forest::plan::FIXED_WORK;
use pair_commission::commission::commission;
use pair_commission::words::{Answer, Call, Done, Filing, Report};
use pairs::list::PairCard;
use pairs::pair::PairEntry;
use std::alloc::{AllocError, Global};
use std::{env, fs, io};
use ternary::entry::Entry;
use ternary::refusal::Refusal;
use ternary::words::{MOST_ENTRIES, MOST_STATES, StateNo};

// The bytes of a piece, and the mark slots for it.
const PIECE: usize = 8;

const SLOTS: usize = 4;

// The successors of the largest automaton.
const MOST_SUCCESSORS: usize = 256 * MOST_STATES;

// The numbers of working memory that suffice for the largest automaton, and the bytes of the largest images.
const WORK: usize = MOST_STATES * MOST_STATES + FIXED_WORK;

const LARGEST_TWO: usize = 12 + 2 * MOST_STATES + 12 * MOST_ENTRIES;

const LARGEST_ONE: usize = 12 + 2 * MOST_STATES + 9 * MOST_ENTRIES;

fn main(rt: HostRuntime) -> anyhow::Result<()> {
    serve(&rt)
}

// Reads the four files, commissions, and prints what was done.
fn serve(rt: &HostRuntime) -> anyhow::Result<()> {
    let heap = rt.alloc();
    let mut words = env::args(rt)?.skip(1);
    let file = fs::read(rt, words.next().context("no automaton")?.as_str())?;
    let two = fs::read(rt, words.next().context("no two-byte image")?.as_str())?;
    let one = fs::read(rt, words.next().context("no one-byte image")?.as_str())?;
    let stream = fs::read(rt, words.next().context("no stream")?.as_str())?;
    let mut successors = vec![in heap; StateNo(0); MOST_SUCCESSORS]?;
    let mut classes = vec![in heap; 0; MOST_STATES]?;
    let header = match read(
        file.as_slice(),
        successors.as_mut_slice(),
        classes.as_mut_slice(),
    ) {
        Ok(header) => header,
        Err(why) => return Ok(println!(rt; "read: {why}")?),
    };
    let states = header.states as usize;
    successors.truncate(256 * states);
    classes.truncate(states);
    let filing = Filing {
        states: header.states,
        start: header.start,
        successors,
        classes,
        two,
        one,
    };
    Ok(show(rt, filing, stream.as_slice())?)
}

// Commissions what is filed, and prints what was done.
fn show(rt: &HostRuntime, filing: Filing, stream: &[u8]) -> io::Result<()> {
    let heap = rt.alloc();
    let calls = journey(heap, &filing, stream)?;
    let mut work = vec![in heap; 0; WORK]?;
    let mut two_out = vec![in heap; 0; LARGEST_TWO]?;
    let mut one_out = vec![in heap; 0; LARGEST_ONE]?;
    let mut two_places = vec![in heap; PairEntry::default(); MOST_ENTRIES]?;
    let mut one_places = vec![in heap; Entry::default(); MOST_ENTRIES]?;
    let mut two = PairCard::new(two_places.as_mut_slice());
    let mut one = ListCard::new(one_places.as_mut_slice());
    let report = commission(
        heap,
        &filing,
        work.as_mut_slice(),
        two_out.as_mut_slice(),
        one_out.as_mut_slice(),
        &mut two,
        &mut one,
        calls.as_slice(),
    );
    print_report(rt, report, calls.as_slice())
}

// The calls: a restart before the load, the load, the stream in pieces, a restart, and the stream in one piece.
fn journey(heap: Global, filing: &Filing, stream: &[u8]) -> Result<Vec<Call>, AllocError> {
    let mut calls = Vec::new(heap);
    calls.push(Call::Restart)?;
    calls.push(Call::Load(filing.clone()?))?;
    for piece in stream.chunks(PIECE) {
        calls.push(Call::Feed(piece.to_vec(heap)?, SLOTS))?;
    }
    calls.push(Call::Restart)?;
    calls.push(Call::Feed(stream.to_vec(heap)?, 1))?;
    Ok(calls)
}

// Prints what the checks answered, what the builds did, and each call's answer with its marks.
fn print_report(rt: &HostRuntime, report: Report, calls: &[Call]) -> io::Result<()> {
    print_check(rt, "two", report.two_vendor)?;
    print_check(rt, "one", report.one_vendor)?;
    print_build(rt, "two", report.two_built)?;
    print_build(rt, "one", report.one_built)?;
    for (call, answer) in calls.iter().zip(report.answers.iter()) {
        print_answer(rt, name(call), answer)?;
    }
    if report.ended.is_err() {
        println!(rt; "out of memory")?;
    }
    Ok(())
}

// Prints the answer of a check.
fn print_check(rt: &HostRuntime, kind: &str, answer: Result<(), Refusal>) -> io::Result<()> {
    match answer {
        Ok(()) => println!(rt; "check {kind}: accepted"),
        Err(why) => println!(rt; "check {kind}: {why}"),
    }
}

// Prints the answer of a build.
fn print_build(rt: &HostRuntime, kind: &str, answer: Result<usize, Refusal>) -> io::Result<()> {
    match answer {
        Ok(size) => println!(rt; "build {kind}: {size} bytes"),
        Err(why) => println!(rt; "build {kind}: {why}"),
    }
}

// What a call is called.
fn name(call: &Call) -> &'static str {
    match call {
        Call::Load(_) => "load",
        Call::Feed(_, _) => "feed",
        Call::Restart => "restart",
    }
}

// Prints the answer of a call.
fn print_answer(rt: &HostRuntime, name: &str, answer: &Answer) -> io::Result<()> {
    match answer {
        Ok(Done::Accepted) => println!(rt; "{name}: accepted"),
        Err(why) => println!(rt; "{name}: {why}"),
        Ok(Done::Fed(progress, marks)) => {
            let taken = progress.taken;
            let code = progress.code.0;
            let searches = progress.searches;
            print!(rt; "{name}: taken {taken}, code {code}, searches {searches}, marks")?;
            for mark in marks.iter() {
                print!(rt; " {mark}")?;
            }
            println!(rt; "")
        }
    }
}
