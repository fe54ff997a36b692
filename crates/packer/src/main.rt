#![tactic(auto)]

// Packs the table of an automaton that marks "ab", prints its image, and prints what the image holds.
use image::reader::{Image, unpack};
use image::writer::pack;
use std::io;
use ternary::entry::Entry;
use ternary::words::{StateCode, StateNo};

// The entries of the table: after 'a' a 'b' leads to the marked state, an 'a' leads to the state after
// an 'a', and all else leads to the start.
fn entries() -> [Entry; 3] {
    [
        Entry::new(1, 3, 0x62, 0xff, StateCode(2), 7),
        Entry::new(0, 0, 0x61, 0xff, StateCode(1), 0),
        Entry::new(0, 0, 0, 0, StateCode(0), 0),
    ]
}

// Prints some bytes, sixteen to a line.
fn print_bytes(rt: &HostRuntime, bytes: &[u8]) -> io::Result<()> {
    for (at, byte) in bytes.iter().enumerate() {
        if at % 16 == 15 || at + 1 == bytes.len() {
            println!(rt; "{byte:02x}")?;
        } else {
            print!(rt; "{byte:02x} ")?;
        }
    }
    Ok(())
}

// Prints the codes of an image, state by state.
fn print_codes(rt: &HostRuntime, image: &Image) -> io::Result<()> {
    for (state, code) in (0..image.header().states).zip(image.codes()) {
        let bits = code.0;
        println!(rt; "state {state}: code {bits:04x}")?;
    }
    Ok(())
}

// Prints the entries of an image in their order.
fn print_entries(rt: &HostRuntime, image: &Image) -> io::Result<()> {
    for (index, entry) in (0..image.header().entries).zip(image.entries()) {
        print!(rt;
            "entry {index}: code {:04x} under {:04x}, ",
            entry.code_value(),
            entry.code_mask()
        )?;
        print!(rt;
            "byte {:02x} under {:02x}, ",
            entry.byte_value(),
            entry.byte_mask()
        )?;
        println!(rt; "next {:04x}, class {}", entry.next().0, entry.class())?;
    }
    Ok(())
}

// Prints the parts of an image.
fn print_image(rt: &HostRuntime, image: &Image) -> io::Result<()> {
    let header = image.header();
    println!(rt;
        "{} code bits, {} states, start {}, {} entries",
        header.width, header.states, header.start.0, header.entries
    )?;
    print_codes(rt, image)?;
    print_entries(rt, image)
}

fn main(rt: HostRuntime) -> io::Result<()> {
    let codes = [StateCode(0), StateCode(1), StateCode(2)];
    let mut out = [0; 64];
    let size = match pack(2, StateNo(0), &codes, &entries(), &mut out) {
        Ok(size) => size,
        Err(refusal) => return println!(rt; "{refusal}"),
    };
    println!(rt; "{size} bytes")?;
    print_bytes(&rt, &out[0..size])?;
    match unpack(&out[0..size]) {
        Ok(image) => print_image(&rt, &image),
        Err(refusal) => println!(rt; "{refusal}"),
    }
}
