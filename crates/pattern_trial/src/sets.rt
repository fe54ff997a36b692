// A set of patterns, compiled and as regular expressions of another kind.
use crate::random::Random;
use crate::texts::pattern;
use automaton::words::Header;
use compiler::compile::compile;
use regex::bytes::Regex;
use std::alloc::{AllocError, Global};
use syntax::places::place::Place;
use ternary::refusal::Refusal;
use ternary::words::StateNo;

// The buffers that patterns are compiled into.
#[derive(Drop)]
pub struct Buffers {
    successors: Vec<StateNo>,
    classes: Vec<u8>,
}

impl Buffers {
    // Buffers that suffice for every automaton.
    pub fn new(heap: Global) -> Result<Buffers, AllocError> {
        Ok(Buffers {
            successors: vec![in heap; StateNo(0); 131072]?,
            classes: vec![in heap; 0; 512]?,
        })
    }

    // The class of an input, by the automaton that they hold.
    pub fn class(&self, input: &[u8]) -> Option<u8> {
        let mut state = 0usize;
        for byte in input {
            let next = self.successors.get(256 * (state % 512) + *byte as usize)?;
            state = next.0 as usize;
        }
        self.classes.get(state).copied()
    }
}

// The texts of patterns, one after another in a buffer, and their places in it.
#[derive(Drop)]
pub struct Set {
    buffer: Vec<u8>,
    places: Vec<Place>,
}

impl Set {
    // One to four patterns.
    pub fn draw(heap: Global, random: &mut Random) -> Result<Set, AllocError> {
        let mut buffer = Vec::new(heap);
        let mut places = Vec::new(heap);
        for _pattern in 0..1 + random.below(4).min(3) {
            let text = pattern(heap, random)?;
            let start = buffer.len();
            buffer.extend_from_slice(text.as_str().as_bytes())?;
            places.push(Place {
                start,
                len: text.as_str().len(),
            })?;
        }
        Ok(Set { buffer, places })
    }

    // Compiles the patterns.
    pub fn compile(&self, buffers: &mut Buffers) -> Result<Header, Refusal> {
        compile(
            self.buffer.as_slice(),
            self.places.as_slice(),
            buffers.successors.as_mut_slice(),
            buffers.classes.as_mut_slice(),
        )
    }

    // The same patterns as regular expressions, each for a word that ends where the input ends; none of a text that is no such
    // expression.
    pub fn expressions(&self, heap: Global) -> Result<Option<Vec<Regex>>, AllocError> {
        let mut expressions = Vec::new(heap);
        for place in self.places.iter() {
            let end = place.start.saturating_add(place.len);
            let text = self.buffer.get(place.start..end).unwrap_or(b"");
            let Ok(text) = std::str::from_utf8(text) else {
                return Ok(None);
            };
            let source = format!(in heap; "(?s-u)(?:{text})\\z")?;
            match Regex::new(heap, source.as_str()) {
                Ok(expression) => expressions.push(expression)?,
                Err(_) => return Ok(None),
            }
        }
        Ok(Some(expressions))
    }
}
