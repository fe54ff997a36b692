#![tactic(auto)]

pub mod frame;

ghost use Rattle.std.specs.Prelude.{◌≡◌, slice_index};
ghost use Rattle.fields.specs.Fields.{word};

// The byte at `at`, and 0 past the end.
pub fn byte_at(bytes: &[u8], at: usize) -> u8
    ensures { result ≡ slice_index bytes.now at }
{
    bytes.get(at).copied().unwrap_or(0)
}

// The number in the two bytes at `at`, the high one first; a byte past the end counts as 0.
pub fn word_at(bytes: &[u8], at: usize) -> u16
    ensures { result ≡ word bytes.now at }
{
    match bytes.get(at) {
        Some(high) => u16::from_be_bytes([*high, byte_at(bytes, at + 1)]),
        None => 0,
    }
}
