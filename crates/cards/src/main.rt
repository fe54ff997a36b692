#![tactic(auto)]

// Marks each "ab" of a text with the same three entries on cards of different makes.
use card::list::ListCard;
use card::rules::Card;
use card::tandem::Tandem;
use scanner::walk::walk;
use std::io;
use ternary::entry::Entry;
use ternary::words::{Mark, StateCode};

fn main(rt: HostRuntime) -> io::Result<()> {
    let mut whole = places();
    let mut list = ListCard::new(&mut whole);
    show(&rt, "list card", &mut list)?;
    let mut first = places();
    let mut second = places();
    let mut pair = Tandem::new(
        ListCard::new(&mut first[0..1]),
        ListCard::new(&mut second[0..2]),
    );
    show(&rt, "tandem", &mut pair)?;
    let mut a = places();
    let mut b = places();
    let mut c = places();
    let rest = Tandem::new(ListCard::new(&mut b[0..1]), ListCard::new(&mut c[0..1]));
    let mut nested = Tandem::new(ListCard::new(&mut a[0..1]), rest);
    show(&rt, "tandem in a tandem", &mut nested)
}

// Room for three entries.
fn places() -> [Entry; 3] {
    [Entry::default(); 3]
}

// The entries that mark each "ab" with class 7, over codes of two bits.
fn entries_ab() -> [Entry; 3] {
    [
        Entry::new(1, 3, b'b', 255, StateCode(2), 7),
        Entry::new(0, 0, b'a', 255, StateCode(1), 0),
        Entry::new(0, 0, 0, 0, StateCode(0), 0),
    ]
}

// Fills the card, and shows what walks with two mark slots and with one answer.
fn show<C: Card>(rt: &HostRuntime, name: &str, card: &mut C) -> io::Result<()> {
    for e in entries_ab() {
        if let Err(refusal) = card.append(e) {
            println!(rt; "{name}: {refusal}")?;
        }
    }
    show_walk(rt, name, card, &mut [Mark::default(); 2])?;
    show_walk(rt, name, card, &mut [Mark::default(); 1])
}

// Walks over "xabab" from code 0, and shows the answer and the marks.
fn show_walk<C: Card>(
    rt: &HostRuntime,
    name: &str,
    card: &C,
    marks: &mut [Mark],
) -> io::Result<()> {
    let slots = marks.len();
    match walk(card, StateCode(0), b"xabab", marks) {
        Ok(progress) => {
            print!(rt; "{name}, slots {slots}: taken {}, marks", progress.taken)?;
            for mark in marks.iter().take(progress.marks) {
                print!(rt; " {mark}")?;
            }
            let code = progress.code.0;
            let stopped = progress.marks_full;
            println!(rt;
                ", code {code}, stopped {stopped}, searches {}",
                progress.searches
            )
        }
        Err(refusal) => println!(rt; "{name}, slots {slots}: {refusal}"),
    }
}
