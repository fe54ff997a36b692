ghost use Rattle.std.specs.Prelude.{◌≡◌, IfOk, string_bytes};
ghost use Rattle.ternary.specs.Refusals.{refusal_text};
ghost use Rattle.printed.specs.Lines.{ended};

use std::alloc::{AllocError, Global};
use ternary::refusal::Refusal;

// A refusal as it is printed: its number, and the offset where a file or an image is malformed.
pub fn refusal_line(heap: Global, refusal: Refusal) -> Result<String, AllocError>
    ensures { IfOk result (λ s. string_bytes s ≡ refusal_text refusal) }
{
    format!(in heap; "{refusal}")
}

// A line and the line feed that ends it.
pub(crate) fn ended_line(heap: Global, line: String) -> Result<String, AllocError>
    ensures { IfOk result (λ s. string_bytes s ≡ ended (string_bytes line)) }
{
    format!(in heap; "{line}\n")
}
