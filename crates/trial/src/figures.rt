// Figures of the rules that are not proved as one fact: limits, altered tables, and chains of deferment.
use crate::findings::{Findings, Subject};
use crate::machine::Machine;
use crate::parts::{Parts, built};
use card::list::ListCard;
use image::reader::unpack;
use scanner::scanner::Scanner;
use std::alloc::{AllocError, Global};
use table::check::check;
use ternary::entry::Entry;
use ternary::refusal::Refusal;
use ternary::words::{Mark, Progress, StateCode, StateNo};

// The automaton that marks each "ab" with class 7.
pub fn machine_ab(heap: Global) -> Result<Machine, AllocError> {
    let mut machine = Machine::new(heap, 3, 0, next_in_ab)?;
    machine.classes.clear();
    machine.classes.push(0)?;
    machine.classes.push(0)?;
    machine.classes.push(7)?;
    Ok(machine)
}

// Every "a" leads to state 1, "b" after it to state 2, and all else to state 0.
fn next_in_ab(state: u16, byte: u8) -> u16 {
    match (state, byte) {
        (_, b'a') => 1,
        (1, b'b') => 2,
        _ => 0,
    }
}

// Tries all figures.
pub fn try_figures(heap: Global, findings: &mut Findings) -> Result<(), AllocError> {
    try_states(heap, findings)?;
    try_pieces(heap, findings)?;
    try_tables(heap, findings)?;
    try_chains(heap, findings)
}

// The number of the refusal, or 0 if there is none.
fn number<T>(answer: &Result<T, Refusal>) -> u8 {
    match answer {
        Ok(_) => 0,
        Err(why) => why.number(),
    }
}

// 512 states pass, and 513 are refused by all calls.
fn try_states(heap: Global, findings: &mut Findings) -> Result<(), AllocError> {
    let most = Machine::new(heap, 512, 0, |_, _| 0)?;
    findings.figure(Subject::MostStates, number(&most.automaton().limits()) == 0)?;
    let image = built(heap, most.automaton())?;
    findings.figure(Subject::MostStates, number(&image) == 0)?;
    let more = Machine::new(heap, 513, 0, |_, _| 0)?;
    let more = more.automaton();
    findings.figure(Subject::MoreStates, number(&more.limits()) == 1)?;
    findings.figure(Subject::MoreStates, number(&built(heap, more)?) == 1)?;
    findings.figure(Subject::MoreStates, number(&check(more, &[])) == 1)?;
    let mut scanner = Scanner::new(ListCard::new(&mut []));
    findings.figure(Subject::MoreStates, number(&scanner.load(more, &[])) == 1)
}

// A piece of 65,536 bytes passes, and one of 65,537 is refused.
fn try_pieces(heap: Global, findings: &mut Findings) -> Result<(), AllocError> {
    let ab = machine_ab(heap)?;
    let Ok(image) = built(heap, ab.automaton())? else {
        return findings.figure(Subject::Ab, false);
    };
    let mut places = [Entry::default(); 3];
    let mut scanner = Scanner::new(ListCard::new(&mut places));
    let loaded = scanner.load(ab.automaton(), image.as_slice());
    findings.figure(Subject::Ab, number(&loaded) == 0)?;
    let piece = vec![in heap; b'a'; 65_537]?;
    let mut marks = [Mark::default(); 1];
    let refused = scanner.feed(piece.as_slice(), &mut marks);
    findings.figure(Subject::LongerPiece, number(&refused) == 9)?;
    let passed = match piece.as_slice().get(..65_536) {
        Some(shorter) => scanner.feed(shorter, &mut marks),
        None => refused,
    };
    let all = Progress {
        taken: 65_536,
        marks: 0,
        code: StateCode(1),
        marks_full: false,
        searches: 65_536,
    };
    findings.figure(Subject::LongestPiece, passed == Ok(all))
}

// The entries that mark each "ab" with class 7, over codes of two bits, of which the first has this successor code.
fn entries_ab(second: StateCode) -> [Entry; 3] {
    [
        Entry::new(1, 3, b'b', 255, second, 7),
        Entry::new(0, 0, b'a', 255, StateCode(1), 0),
        Entry::new(0, 0, 0, 0, StateCode(0), 0),
    ]
}

// What a check of the automaton "ab" answers of a table with this code of state 2 and these entries.
fn checked_ab(
    heap: Global,
    second: StateCode,
    entries: &[Entry],
) -> Result<Result<(), Refusal>, AllocError> {
    let ab = machine_ab(heap)?;
    let parts = Parts {
        width: 2,
        start: StateNo(0),
        codes: vec![in heap; StateCode(0), StateCode(1), second]?,
        entries: entries.to_vec(heap)?,
    };
    Ok(match parts.packed(heap)? {
        Ok(image) => check(ab.automaton(), image.as_slice()),
        Err(why) => Err(why),
    })
}

// The table of "ab" with its last two entries swapped, with the first one removed, and with a shared code.
fn try_tables(heap: Global, findings: &mut Findings) -> Result<(), AllocError> {
    let [first, second, third] = entries_ab(StateCode(2));
    let whole = checked_ab(heap, StateCode(2), &[first, second, third])?;
    findings.figure(Subject::Ab, whole == Ok(()))?;
    let swapped = checked_ab(heap, StateCode(2), &[first, third, second])?;
    findings.figure(Subject::TwoSwapped, swapped == wrong(0, 0x61))?;
    let removed = checked_ab(heap, StateCode(2), &[second, third])?;
    findings.figure(Subject::OneRemoved, removed == wrong(1, 0x62))?;
    let shared = checked_ab(heap, StateCode(0), &entries_ab(StateCode(0)))?;
    findings.figure(Subject::SharedCode, shared == Ok(()))
}

// The refusal at this state and byte.
fn wrong(state: u16, byte: u8) -> Result<(), Refusal> {
    Err(Refusal::WrongEntry(StateNo(state), byte))
}

// A chain of deferment of 17 states has 16 code bits, and one of 18 is built flat with 5.
fn try_chains(heap: Global, findings: &mut Findings) -> Result<(), AllocError> {
    findings.figure(Subject::ChainOf17, chain_width(heap, 17)? == Some(16))?;
    findings.figure(Subject::ChainOf18, chain_width(heap, 18)? == Some(5))
}

// How many bits a code of the image has that is built for such a chain.
fn chain_width(heap: Global, states: u16) -> Result<Option<u8>, AllocError> {
    let chain = Machine::new(heap, states, 3, next_in_chain)?;
    Ok(match built(heap, chain.automaton())? {
        Ok(image) => unpack(image.as_slice())
            .ok()
            .map(|image| image.header().width),
        Err(_) => None,
    })
}

// With q an eighth of the byte, to state q + 1 from the states above q, and else to state 0.
pub fn next_in_chain(state: u16, byte: u8) -> u16 {
    let eighth = u16::from(byte) / 8;
    if eighth < state { eighth + 1 } else { 0 }
}
