ghost use Rattle.std.specs.Prelude.{◌≡◌, ◌≤◌, bit_and};

use crate::words::StateCode;

pub mod matching;

// One row of a table: a ternary word over a code and a byte, and the decision where it matches.
// A mask bit 1 is compared and a mask bit 0 is a star; no value has a bit under a star.
#[derive(Clone, Copy, PartialEq, Eq, Debug)]
pub struct Entry {
    code_value: u16,
    code_mask: u16,
    byte_value: u8,
    byte_mask: u8,
    next: StateCode,
    class: u8,
    ghost code_clear: { bit_and code_value code_mask ≡ code_value },
    ghost byte_clear: { bit_and byte_value byte_mask ≡ byte_value },
}

impl Entry {
    // The entry with these masks, which clears each value bit under a star.
    pub fn new(
        code_value: u16,
        code_mask: u16,
        byte_value: u8,
        byte_mask: u8,
        next: StateCode,
        class: u8,
    ) -> Entry
        ensures code_value { result.code_value ≡ bit_and code_value code_mask }
        ensures code_mask { result.code_mask ≡ code_mask }
        ensures byte_value { result.byte_value ≡ bit_and byte_value byte_mask }
        ensures byte_mask { result.byte_mask ≡ byte_mask }
        ensures next { result.next ≡ next }
        ensures class { result.class ≡ class }
    {
        Entry {
            code_value: cleared(code_value, code_mask),
            code_mask,
            byte_value: cleared(byte_value as u16, byte_mask as u16) as u8,
            byte_mask,
            next,
            class,
        }
    }

    // The bits that a code is compared with.
    pub fn code_value(&self) -> u16
        ensures { result ≡ self.now.code_value }
    {
        self.code_value
    }

    // The bits of a code that are compared.
    pub fn code_mask(&self) -> u16
        ensures { result ≡ self.now.code_mask }
    {
        self.code_mask
    }

    // The bits that a byte is compared with.
    pub fn byte_value(&self) -> u8
        ensures { result ≡ self.now.byte_value }
    {
        self.byte_value
    }

    // The bits of a byte that are compared.
    pub fn byte_mask(&self) -> u8
        ensures { result ≡ self.now.byte_mask }
    {
        self.byte_mask
    }

    // The code of the successor.
    pub fn next(&self) -> StateCode
        ensures { result ≡ self.now.next }
    {
        self.next
    }

    // The class of the successor.
    pub fn class(&self) -> u8
        ensures { result ≡ self.now.class }
    {
        self.class
    }
}

// An entry with a star for every bit, which decides the code 0 without a mark: what an unused place holds.
impl Default for Entry {
    ghost is_default = { λ e. (e.code_mask ≡ 0) × (e.byte_mask ≡ 0) × (e.next.0 ≡ 0) × (e.class ≡ 0) };

    fn default() -> Entry {
        Entry::new(0, 0, 0, 0, StateCode(0), 0)
    }
}

// A value without its bits under a star.
fn cleared(value: u16, mask: u16) -> u16
    ensures value { result ≡ bit_and value mask }
    ensures clear { bit_and result mask ≡ result }
    ensures bound { result ≤ mask }
{
    value & mask
}
