// Patterns and inputs, drawn at random.
use crate::random::Random;
use std::alloc::{AllocError, Global};

// Atoms, as both kinds of patterns have them.
const ATOMS: [&str; 18] = [
    "a", "b", "c", "a", "b", "-", ".", "[ab]", "[^a]", "[a-c]", "[^b-z]", "[\\]\\-]", "[.*]",
    "[^\\^c]", "\\*", "\\\\", "\\.", "\\]",
];

// The bytes of inputs; those that patterns have come oftener.
const BYTES: &[u8; 16] = b"aaaabbbbcc-*.]\n\xff";

// What stands last in a branch.
#[derive(Clone, Copy, PartialEq, Eq)]
enum Last {
    Nothing,
    Atom,
    Repeat,
}

// A pattern that is being drawn: its text, how many parentheses are open, and what stands last.
#[derive(Drop)]
struct Draft {
    text: String,
    open: u32,
    last: Last,
}

impl Draft {
    // Adds a token that can follow.
    fn add(&mut self, random: &mut Random) -> Result<(), AllocError> {
        match random.below(12) {
            0 if self.open < 3 => self.push("(", self.open + 1, Last::Nothing),
            1 | 2 if self.open > 0 && self.last != Last::Nothing => {
                self.push(")", self.open - 1, Last::Atom)
            }
            3 if self.last != Last::Nothing => self.push("|", self.open, Last::Nothing),
            4 if self.last == Last::Atom => self.push("*", self.open, Last::Repeat),
            5 if self.last == Last::Atom => self.push("+", self.open, Last::Repeat),
            6 if self.last == Last::Atom => self.push("?", self.open, Last::Repeat),
            _ => {
                let atom = ATOMS.get(random.below(ATOMS.len())).unwrap_or(&"a");
                self.push(atom, self.open, Last::Atom)
            }
        }
    }

    // Adds a token's text.
    fn push(&mut self, token: &str, open: u32, last: Last) -> Result<(), AllocError> {
        self.text.push_str(token)?;
        self.open = open;
        self.last = last;
        Ok(())
    }
}

// A pattern.
pub fn pattern(heap: Global, random: &mut Random) -> Result<String, AllocError> {
    let mut draft = Draft {
        text: String::new(heap),
        open: 0,
        last: Last::Nothing,
    };
    for _token in 0..1 + random.below(9).min(8) {
        draft.add(random)?;
    }
    let open = draft.open;
    if draft.last == Last::Nothing {
        draft.push("a", open, Last::Atom)?;
    }
    for _parenthesis in 0..open {
        draft.text.push_str(")")?;
    }
    Ok(draft.text)
}

// An input.
pub fn input(heap: Global, random: &mut Random) -> Result<Vec<u8>, AllocError> {
    let mut input = Vec::new(heap);
    for _byte in 0..random.below(13) {
        input.push(*BYTES.get(random.below(16)).unwrap_or(&b'a'))?;
    }
    Ok(input)
}
