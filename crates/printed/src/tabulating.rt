// The table of an automaton file as it is printed.
ghost use Rattle.std.specs.Prelude.{◌≤◌, length, IfOk, string_bytes};
ghost use Rattle.printed.specs.Images.{FileImage, FileTable};
ghost use Rattle.printed.specs.Lines.{small_answer};

use crate::reading::{SMALL_WORK, SmallAutomaton};
use crate::refused::{ended_line, refusal_line};
use crate::tables::image_text;
use builder::build::build;
use image::reader::{Image, unpack};
use std::alloc::{AllocError, Global};
use ternary::refusal::Refusal;
use ternary::words::{MOST_ENTRIES, MOST_STATES};

// The bytes of the largest image.
const LARGEST_IMAGE: usize = 12 + 2 * MOST_STATES + 9 * MOST_ENTRIES;

// What is printed for an automaton file: its table, or why it is refused.
pub fn tabulated(heap: Global, file: &[u8]) -> Result<String, AllocError>
    ensures { IfOk result (λ s. FileTable file.now (small_answer file.now) (string_bytes s)) }
{
    let mut out = [0; LARGEST_IMAGE];
    match image_of(file, &mut out) {
        Ok(image) => image_text(heap, image),
        Err(refusal) => ended_line(heap, refusal_line(heap, refusal)?),
    }
}

// The image of the automaton in a file, built in the lent bytes; or why it is refused: first for its length, then for a
// fault, then for its number of states, then for the entries that it needs.
fn image_of<'a>(file: &[u8], out: &'a mut [u8]) -> Result<Image<'a>, Refusal>
    requires room { 37900 ≤ length out.old }
    ensures { FileImage file.now (small_answer file.now) result }
{
    let mut small = SmallAutomaton::new();
    small.read(file)?;
    let mut work = [0; SMALL_WORK];
    let size = build(small.automaton(), &mut work, out)?;
    unpack(&out[..size])
}
