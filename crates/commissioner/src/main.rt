#![tactic(auto)]

// Takes an automaton into service: `commissioner AUTOMATON IMAGE STREAM`, three files. It checks the image, builds one of
// its own, and makes calls on a scanner over a list card: a restart before the load, the load, the stream piece by
// piece, a restart, and the whole stream once more as one piece with one mark slot.
use anyhow::Context;
use automaton::file::read;
use card::list::ListCard;
use commission::commission::commission;
use commission::words::{Answer, Call, Done, Report};
use forest::plan::FIXED_WORK;
use std::alloc::{AllocError, Global};
use std::{env, fs, io};
use table::filing::Filing;
use ternary::entry::Entry;
use ternary::words::{MOST_ENTRIES, MOST_STATES, StateNo};

// The bytes of a piece, and the mark slots for it.
const PIECE: usize = 8;

const SLOTS: usize = 4;

// The successors of the largest automaton.
const MOST_SUCCESSORS: usize = 256 * MOST_STATES;

// The numbers of working memory that suffice for the largest automaton, and the bytes of the largest image.
const WORK: usize = MOST_STATES * MOST_STATES + FIXED_WORK;

const LARGEST_IMAGE: usize = 12 + 2 * MOST_STATES + 9 * MOST_ENTRIES;

fn main(rt: HostRuntime) -> anyhow::Result<()> {
    serve(&rt)
}

// Reads the three files, commissions, and prints what was done.
fn serve(rt: &HostRuntime) -> anyhow::Result<()> {
    let heap = rt.alloc();
    let mut words = env::args(rt)?.skip(1);
    let file = fs::read(rt, words.next().context("no automaton")?.as_str())?;
    let image = fs::read(rt, words.next().context("no image")?.as_str())?;
    let stream = fs::read(rt, words.next().context("no stream")?.as_str())?;
    let mut successors = vec![in heap; StateNo(0); MOST_SUCCESSORS]?;
    let mut classes = vec![in heap; 0; MOST_STATES]?;
    let header = match read(
        file.as_slice(),
        successors.as_mut_slice(),
        classes.as_mut_slice(),
    ) {
        Ok(header) => header,
        Err(why) => return Ok(println!(rt; "read: {why}")?),
    };
    let states = header.states as usize;
    successors.truncate(256 * states);
    classes.truncate(states);
    let filing = Filing {
        states: header.states,
        start: header.start,
        successors,
        classes,
        image,
    };
    Ok(show(rt, filing, stream.as_slice())?)
}

// Commissions what is filed, and prints what was done.
fn show(rt: &HostRuntime, filing: Filing, stream: &[u8]) -> io::Result<()> {
    let heap = rt.alloc();
    let calls = journey(heap, &filing, stream)?;
    let mut work = vec![in heap; 0; WORK]?;
    let mut out = vec![in heap; 0; LARGEST_IMAGE]?;
    let mut places = vec![in heap; Entry::default(); MOST_ENTRIES]?;
    let report = commission(
        heap,
        filing.automaton(),
        filing.image.as_slice(),
        work.as_mut_slice(),
        out.as_mut_slice(),
        ListCard::new(places.as_mut_slice()),
        calls.as_slice(),
    );
    print_report(rt, report, calls.as_slice())
}

// The calls: a restart before the load, the load, the stream in pieces, a restart, and the stream in one piece.
fn journey(heap: Global, filing: &Filing, stream: &[u8]) -> Result<Vec<Call>, AllocError> {
    let mut calls = Vec::new(heap);
    calls.push(Call::Restart)?;
    calls.push(Call::Load(filing.clone()?))?;
    for piece in stream.chunks(PIECE) {
        calls.push(Call::Feed(piece.to_vec(heap)?, SLOTS))?;
    }
    calls.push(Call::Restart)?;
    calls.push(Call::Feed(stream.to_vec(heap)?, 1))?;
    Ok(calls)
}

// Prints check's answer, build's, and each call's with its marks.
fn print_report(rt: &HostRuntime, report: Report, calls: &[Call]) -> io::Result<()> {
    match report.vendor {
        Ok(()) => println!(rt; "check: accepted")?,
        Err(why) => println!(rt; "check: {why}")?,
    }
    match report.built {
        Ok(size) => println!(rt; "build: {size} bytes")?,
        Err(why) => println!(rt; "build: {why}")?,
    }
    for (call, answer) in calls.iter().zip(report.answers.iter()) {
        print_answer(rt, name(call), answer)?;
    }
    if report.ended.is_err() {
        println!(rt; "out of memory")?;
    }
    Ok(())
}

// What a call is called.
fn name(call: &Call) -> &'static str {
    match call {
        Call::Load(_) => "load",
        Call::Feed(_, _) => "feed",
        Call::Restart => "restart",
    }
}

// Prints the answer of a call.
fn print_answer(rt: &HostRuntime, name: &str, answer: &Answer) -> io::Result<()> {
    match answer {
        Ok(Done::Accepted) => println!(rt; "{name}: accepted"),
        Err(why) => println!(rt; "{name}: {why}"),
        Ok(Done::Fed(progress, marks)) => {
            let taken = progress.taken;
            let code = progress.code.0;
            let searches = progress.searches;
            print!(rt; "{name}: taken {taken}, code {code}, searches {searches}, marks")?;
            for mark in marks.iter() {
                print!(rt; " {mark}")?;
            }
            println!(rt; "")
        }
    }
}
