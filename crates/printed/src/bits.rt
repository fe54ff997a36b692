// Codes and ternary words as they are printed, a character a bit.
ghost use Rattle.std.specs.Prelude.{◌≡◌, ◌<◌, IfOk, Some, None, string_bytes};
ghost use Rattle.ternary.specs.Bits.{bit};
ghost use Rattle.printed.specs.Lines.{symbol as symbol_of, compares, symbols as symbols_of, code_text, word_text};

use std::alloc::{AllocError, Global};
use ternary::words::StateCode;

// The bits in a 16-bit number.
const BITS: u8 = 16;

// A code of so many bits as it is printed: `0` or `1` for each bit, the highest first, or a hyphen for no bit.
pub fn code_text(heap: Global, width: u8, code: StateCode) -> Result<String, AllocError>
    ensures { IfOk result (λ s. string_bytes s ≡ code_text width code.0) }
{
    symbols(heap, width, code.0, None)
}

// A ternary word of so many bits as it is printed: as a code, but `*` for a bit that is not compared.
pub fn word_text(heap: Global, width: u8, value: u16, mask: u16) -> Result<String, AllocError>
    ensures { IfOk result (λ s. string_bytes s ≡ word_text width value mask) }
{
    symbols(heap, width, value, Some(mask))
}

// A character for each bit; without a mask all bits are compared.
fn symbols(heap: Global, width: u8, value: u16, mask: Option<u16>) -> Result<String, AllocError>
    ensures { IfOk result (λ s. string_bytes s ≡ symbols_of width value mask) }
{
    if width == 0 {
        return String::from_str(heap, "-");
    }
    let mut text = String::new(heap);
    // The place of a bit may lie past the number, where no slice goes.
    for place in (0..width).rev() {
        text.push(symbol(is_compared(mask, place), bit_at(value, place)))?;
    }
    Ok(text)
}

// The character of a bit, by whether it is compared and whether it is set.
fn symbol(compared: bool, set: bool) -> char
    ensures value { result ≡ symbol_of compared set }
    ensures ascii { result < 128 }
{
    match (compared, set) {
        (false, _) => '*',
        (true, false) => '0',
        (true, true) => '1',
    }
}

// Whether a mask compares the bit at a place.
fn is_compared(mask: Option<u16>, place: u8) -> bool
    ensures { result ≡ compares mask place }
{
    mask.is_none_or(|mask| bit_at(mask, place))
}

// Whether the bit at a place is set; the lowest stands at place 0.
fn bit_at(number: u16, place: u8) -> bool
    ensures { result ≡ bit number place }
{
    place < BITS && (number >> place) % 2 == 1
}
