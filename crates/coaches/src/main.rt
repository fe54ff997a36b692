#![tactic(auto)]

// Serves three coaches in turns over one loaded card: each "ab" in the bytes of one coach is marked, though its bytes
// come in parts, and those of the others between them.
use automaton::words::Automaton;
use card::list::ListCard;
use card::rules::Card;
use gateway::gateway::Gateway;
use std::io;
use ternary::entry::Entry;
use ternary::refusal::Refusal;
use ternary::words::{Mark, StateNo};

// What the receive buffer holds: five bytes of coach 0, three of coach 7 and five of coach 63.
const RECEIVED: &[u8] = b"xababaabbbaba";

// The table that marks each "ab" with class 7.
const IMAGE: [u8; 45] = [
    1, 0, 0, 0, 40, 2, 0, 3, 0, 0, 0, 3, 0, 0, 0, 1, 0, 2, 0, 1, 0, 3, 98, 255, 0, 2, 7, 0, 0, 0,
    0, 97, 255, 0, 1, 0, 0, 0, 0, 0, 0, 0, 0, 0, 0,
];

fn main(rt: HostRuntime) -> io::Result<()> {
    let mut places = [Entry::default(); 3];
    let mut gateway = Gateway::new(ListCard::new(&mut places));
    show(&rt, "open 0", gateway.open(0))?;
    load(&rt, &mut gateway)?;
    open_and_post(&rt, &mut gateway)?;
    turns(&rt, &mut gateway, 9)?;
    go_on(&rt, &mut gateway)?;
    leave_the_buffer(&rt, &mut gateway)?;
    load(&rt, &mut gateway)?;
    show(&rt, "close 63", gateway.close(63))
}

// Loads the automaton that marks each "ab", and its image.
fn load<C: Card>(rt: &HostRuntime, gateway: &mut Gateway<C>) -> io::Result<()> {
    let mut successors = [StateNo(0); 768];
    successors[97] = StateNo(1);
    successors[256 + 97] = StateNo(1);
    successors[256 + 98] = StateNo(2);
    successors[512 + 97] = StateNo(1);
    let automaton = Automaton {
        states: 3,
        start: StateNo(0),
        successors: &successors,
        classes: &[0, 0, 7],
    };
    show(rt, "load", gateway.load(automaton, &IMAGE))
}

// Three coaches are opened, and their parts posted; what cannot be is refused.
fn open_and_post<C: Card>(rt: &HostRuntime, gateway: &mut Gateway<C>) -> io::Result<()> {
    show(rt, "open 0", gateway.open(0))?;
    show(rt, "open 7", gateway.open(7))?;
    show(rt, "open 63", gateway.open(63))?;
    show(rt, "open 64", gateway.open(64))?;
    show(rt, "open 7", gateway.open(7))?;
    show(rt, "post 1", gateway.post(1, 0, 5))?;
    show(rt, "post 0", gateway.post(0, 0, 5))?;
    show(rt, "post 7", gateway.post(7, 5, 3))?;
    show(rt, "post 63", gateway.post(63, 8, 5))?;
    show(rt, "post 7", gateway.post(7, 0, 0))?;
    turn(rt, gateway, 0)?;
    turn(rt, gateway, 5)
}

// The run of a coach goes on with its next part, and begins anew at its next open: what waits at a close is dropped.
fn go_on<C: Card>(rt: &HostRuntime, gateway: &mut Gateway<C>) -> io::Result<()> {
    show(rt, "post 63", gateway.post(63, 4, 1))?;
    turns(rt, gateway, 1)?;
    show(rt, "post 63", gateway.post(63, 0, 13))?;
    show(rt, "close 63", gateway.close(63))?;
    turns(rt, gateway, 1)?;
    show(rt, "open 63", gateway.open(63))?;
    show(rt, "post 63", gateway.post(63, 4, 1))?;
    turns(rt, gateway, 1)
}

// A part that leaves the buffer stops the turns until its coach is closed, wherever it begins.
fn leave_the_buffer<C: Card>(rt: &HostRuntime, gateway: &mut Gateway<C>) -> io::Result<()> {
    show(rt, "post 0", gateway.post(0, 12, 2))?;
    show(rt, "post 7", gateway.post(7, usize::MAX, 2))?;
    turns(rt, gateway, 1)?;
    show(rt, "close 0", gateway.close(0))?;
    turns(rt, gateway, 1)?;
    show(rt, "close 7", gateway.close(7))?;
    turns(rt, gateway, 1)
}

// So many turns of two bytes at most.
fn turns<C: Card>(rt: &HostRuntime, gateway: &mut Gateway<C>, count: usize) -> io::Result<()> {
    for _ in 0..count {
        turn(rt, gateway, 2)?;
    }
    Ok(())
}

// One turn with four mark slots, and what it did.
fn turn<C: Card>(rt: &HostRuntime, gateway: &mut Gateway<C>, quota: usize) -> io::Result<()> {
    let mut marks = [Mark::default(); 4];
    match gateway.turn(RECEIVED, &mut marks, quota) {
        Ok(Some(served)) => {
            let coach = served.coach;
            match served.walk {
                Ok(progress) => {
                    let code = progress.code.0;
                    print!(rt;
                        "turn: coach {coach}, taken {}, code {code}, marks",
                        progress.taken
                    )?;
                    for mark in marks.iter().take(progress.marks) {
                        print!(rt; " {mark}")?;
                    }
                    println!(rt; "")
                }
                Err(refusal) => println!(rt; "turn: coach {coach}, {refusal}"),
            }
        }
        Ok(None) => println!(rt; "turn: none waits"),
        Err(refusal) => println!(rt; "turn: {refusal}"),
    }
}

// What a call answered.
fn show(rt: &HostRuntime, call: &str, answer: Result<(), Refusal>) -> io::Result<()> {
    match answer {
        Ok(()) => println!(rt; "{call}: accepted"),
        Err(refusal) => println!(rt; "{call}: {refusal}"),
    }
}
