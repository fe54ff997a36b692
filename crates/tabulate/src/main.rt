#![tactic(auto)]

// Prints the table of the automaton file on standard input.
use printed::reading::LONGEST_FILE;
use printed::tabulating::tabulated;
use std::io;
use std::io::Read;

// One byte more than the longest file, so that a longer one is seen.
const MOST_READ: u64 = LONGEST_FILE + 1;

fn main(rt: HostRuntime) -> io::Result<()> {
    let mut file = Vec::new(rt.alloc());
    rt.stdin().take(MOST_READ).read_to_end(&mut file)?;
    rt.print(tabulated(rt.alloc(), file.as_slice())?)
}
