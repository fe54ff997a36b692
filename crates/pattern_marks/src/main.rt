#![tactic(auto)]

// From patterns to the marks of a stream: `pattern_marks STREAM PATTERNS ..`, a file that is marked and files of patterns, one
// a line. For each file of patterns it prints the table of their automaton, and each byte of the stream at which a word of a
// pattern ends, with the lowest such pattern; or why the patterns are refused.
use anyhow::Context;
use card::list::ListCard;
use commission::words::{Answer, Call, Done};
use image::reader::unpack;
use pattern_service::service::{Served, serve};
use printed::tables::image_text;
use std::alloc::{AllocError, Global};
use std::{env, fs, io};
use syntax::places::place::Place;
use ternary::entry::Entry;
use ternary::refusal::Refusal;
use ternary::words::MOST_ENTRIES;

// The bytes of a piece. A feed has as many mark slots, so that each piece is taken whole.
const PIECE: usize = 4096;

fn main(rt: HostRuntime) -> anyhow::Result<()> {
    let heap = rt.alloc();
    let mut words = env::args(&rt)?.skip(1);
    let stream = fs::read(&rt, words.next().context("no stream")?.as_str())?;
    for name in words {
        let text = fs::read(&rt, name.as_str())?;
        let name = name.as_str();
        println!(&rt; "{name}")?;
        mark(&rt, heap, text.as_slice(), stream.as_slice())?;
    }
    Ok(())
}

// The lines of a text; a line feed at its end begins no line.
fn lines(heap: Global, text: &[u8]) -> Result<Vec<Place>, AllocError> {
    let text = text.strip_suffix(b"\n").unwrap_or(text);
    let mut places = Vec::new(heap);
    let mut start = 0usize;
    for line in text.split(|byte| *byte == b'\n') {
        let len = line.len();
        places.push(Place { start, len })?;
        start = start.wrapping_add(len + 1);
    }
    Ok(places)
}

// The feeds of a stream, piece by piece.
fn feeds(heap: Global, stream: &[u8]) -> Result<Vec<Call>, AllocError> {
    let mut calls = Vec::new(heap);
    for piece in stream.chunks(PIECE) {
        calls.push(Call::Feed(piece.to_vec(heap)?, PIECE))?;
    }
    Ok(calls)
}

// Takes the patterns into service, feeds the stream, and prints what was done.
fn mark(rt: &HostRuntime, heap: Global, text: &[u8], stream: &[u8]) -> io::Result<()> {
    let places = lines(heap, text)?;
    let mut entries = vec![in heap; Entry::default(); MOST_ENTRIES]?;
    let card = ListCard::new(entries.as_mut_slice());
    match serve(heap, text, places.as_slice(), card, feeds(heap, stream)?)? {
        Ok(served) => print_served(rt, heap, &served),
        Err(why) => print_refusal(rt, heap, text, places.as_slice(), why),
    }
}

// Prints the table that was loaded, and the marks of the feeds.
fn print_served(rt: &HostRuntime, heap: Global, served: &Served) -> io::Result<()> {
    if let [Call::Load(filing), ..] = served.calls.as_slice() {
        if let Ok(image) = unpack(filing.image.as_slice()) {
            rt.print(image_text(heap, image)?)?;
        }
    }
    let mut taken = 0u64;
    for answer in served.report.answers.iter() {
        taken = print_marks(rt, taken, answer)?;
    }
    if served.report.ended.is_err() {
        println!(rt; "out of memory")?;
    }
    Ok(())
}

// Prints the marks of a feed that follows so many bytes, and answers how many bytes were taken since the load.
fn print_marks(rt: &HostRuntime, taken: u64, answer: &Answer) -> io::Result<u64> {
    match answer {
        Ok(Done::Accepted) => Ok(taken),
        Ok(Done::Fed(progress, marks)) => {
            for mark in marks.iter() {
                let place = taken.wrapping_add(mark.place as u64);
                let pattern = mark.class;
                println!(rt; "at {place}: pattern {pattern}")?;
            }
            Ok(taken.wrapping_add(progress.taken as u64))
        }
        Err(why) => {
            println!(rt; "{why}")?;
            Ok(taken)
        }
    }
}

// Prints a refusal. A pattern that is wrong is named with the place in it, and its text has a caret below that place.
fn print_refusal(
    rt: &HostRuntime,
    heap: Global,
    text: &[u8],
    places: &[Place],
    why: Refusal,
) -> io::Result<()> {
    let Refusal::WrongPattern(pattern, place) = why else {
        return println!(rt; "{why}");
    };
    println!(rt; "{why}: pattern {pattern}, place {place}")?;
    let Some(wrong) = places.get(pattern.wrapping_sub(1)) else {
        return Ok(());
    };
    let end = wrong.start.saturating_add(wrong.len);
    print_text(rt, text.get(wrong.start..end).unwrap_or(b""))?;
    for _column in 0..place {
        print!(rt; " ")?;
    }
    println!(rt; "^")
}

// Prints bytes as a line, one column each: those that are no printable ASCII as question marks.
fn print_text(rt: &HostRuntime, bytes: &[u8]) -> io::Result<()> {
    for byte in bytes {
        let shown = if byte.is_ascii_graphic() || *byte == b' ' {
            *byte as char
        } else {
            '?'
        };
        print!(rt; "{shown}")?;
    }
    println!(rt; "")
}
