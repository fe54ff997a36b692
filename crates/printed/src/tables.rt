// A table as it is printed, line by line.
ghost use Rattle.std.specs.Prelude.{◌≡◌, IfOk, string_bytes};
ghost use Rattle.image.specs.Calls.{parts_of};
ghost use Rattle.printed.specs.Images.{image_text};
ghost use Rattle.printed.specs.Lines.{table_text, entry_text};

use crate::bits::{code_text, word_text};
use crate::refused::ended_line;
use image::reader::Image;
use std::alloc::{AllocError, Global};
use ternary::entry::Entry;

// The head line of a table: how many entries it has, and how many bits a code has.
pub fn table_line(heap: Global, entries: u16, width: u8) -> Result<String, AllocError>
    ensures { IfOk result (λ s. string_bytes s ≡ table_text entries width) }
{
    format!(in heap; "{entries} entries, {width} code bits")
}

// The line of an entry: its shadow, its byte word, the successor's code and class.
pub fn entry_line(heap: Global, width: u8, entry: &Entry) -> Result<String, AllocError>
    ensures { IfOk result (λ s. string_bytes s ≡ entry_text width entry.now) }
{
    let shadow = word_text(heap, width, entry.code_value(), entry.code_mask())?;
    let byte = word_text(heap, 8, entry.byte_value() as u16, entry.byte_mask() as u16)?;
    let next = code_text(heap, width, entry.next())?;
    let class = entry.class();
    format!(in heap; "{shadow} {byte} {next} {class}")
}

// A table as it is printed: its head line, and a line for each entry.
pub fn image_text(heap: Global, image: Image<'_>) -> Result<String, AllocError>
    ensures { IfOk result (λ s. string_bytes s ≡ image_text (parts_of image.entry)) }
{
    let header = image.header();
    let mut text = ended_line(heap, table_line(heap, header.entries, header.width)?)?;
    for entry in image.entries() {
        let line = ended_line(heap, entry_line(heap, header.width, &entry)?)?;
        text.push_str(line.as_str())?;
    }
    Ok(text)
}
