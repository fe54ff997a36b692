// Pieces of streams drawn at random, and how many slots for marks a feed is given.
use crate::random::Random;
use std::alloc::{AllocError, Global};

// How the bytes of a piece are drawn.
#[derive(Clone, Copy)]
enum Stream {
    Any,
    Letters,
    Counting,
    Same,
}

impl Stream {
    // One of the ways.
    fn drawn(random: &mut Random) -> Stream {
        match random.below(8) {
            0 => Stream::Letters,
            1 | 2 => Stream::Counting,
            3 => Stream::Same,
            _ => Stream::Any,
        }
    }

    // The byte after another.
    fn next(self, random: &mut Random, before: u8) -> u8 {
        match self {
            Stream::Any => random.byte(),
            Stream::Letters => b'a' | (random.byte() & 3),
            Stream::Counting => before.wrapping_add(1),
            Stream::Same => before,
        }
    }

    // So many bytes, of which the first comes after this one.
    fn bytes(
        self,
        heap: Global,
        random: &mut Random,
        before: u8,
        length: usize,
    ) -> Result<Vec<u8>, AllocError> {
        let mut byte = before;
        let mut bytes = Vec::new(heap);
        for _ in 0..length {
            byte = self.next(random, byte);
            bytes.push(byte)?;
        }
        Ok(bytes)
    }
}

// A piece.
pub fn drawn_piece(heap: Global, random: &mut Random) -> Result<Vec<u8>, AllocError> {
    let stream = Stream::drawn(random);
    let before = random.byte();
    let length = drawn_length(random);
    stream.bytes(heap, random, before, length)
}

// So many bytes.
pub fn drawn_bytes(
    heap: Global,
    random: &mut Random,
    length: usize,
) -> Result<Vec<u8>, AllocError> {
    let stream = Stream::drawn(random);
    let before = random.byte();
    stream.bytes(heap, random, before, length)
}

// How many bytes: mostly few, and seldom the most of all.
fn drawn_length(random: &mut Random) -> usize {
    match random.below(200) {
        0 => 65_536,
        1..=9 => random.below(3000),
        10..=29 => 0,
        30..=99 => random.below(12),
        _ => random.below(300),
    }
}

// How many slots for the marks of a piece of so many bytes.
pub fn drawn_slots(random: &mut Random, bytes: usize) -> usize {
    match random.below(6) {
        0 => 0,
        1 => 1,
        2 => random.below(8),
        3 => random.below(100),
        4 => random.below(bytes),
        _ => bytes,
    }
}
