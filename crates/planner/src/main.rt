#![tactic(auto)]

// Prints the plan of the automaton file on standard input: who defers to whom, and the codes and shadows.
use printed::plans::file_text;
use printed::reading::LONGEST_FILE;
use std::io;
use std::io::Read;

// One byte more than the longest file, so that a longer one is seen.
const MOST_READ: u64 = LONGEST_FILE + 1;

fn main(rt: HostRuntime) -> io::Result<()> {
    let mut file = Vec::new(rt.alloc());
    rt.stdin().take(MOST_READ).read_to_end(&mut file)?;
    rt.print(file_text(rt.alloc(), file.as_slice())?)
}
