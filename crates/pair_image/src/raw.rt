// An entry, as an image holds it.
ghost use Rattle.std.specs.Prelude.{◌≡◌, refl};
ghost use Rattle.pair_image.specs.Format.{entry_bytes, entry_from, fields_at, raw_bytes, raw_of, stride_of};
ghost use Rattle.pair_image.specs.Rules.{entry_fault, raw_fault};

use crate::item::{Item, Readable, Writable, put};
use fields::{byte_at, word_at};
use pairs::pair::PairEntry;
use pairs::stride::Stride;
use ternary::entry::Entry;
use ternary::refusal::Refusal;
use ternary::words::StateCode;

// The fields of an entry as they stand in an image, whether or not they keep the rules.
#[derive(Clone, Copy)]
pub(crate) struct RawPair {
    code_value: u16,
    code_mask: u16,
    byte_value: u8,
    byte_mask: u8,
    second_value: u8,
    second_mask: u8,
    next: StateCode,
    class: u8,
    stride: u8,
}

impl RawPair {
    // The twelve bytes of these fields.
    pub(crate) fn bytes(self) -> [u8; 12]
        ensures { result ≡ raw_bytes self }
    {
        let [v1, v0] = self.code_value.to_be_bytes();
        let [m1, m0] = self.code_mask.to_be_bytes();
        let [n1, n0] = self.next.0.to_be_bytes();
        [
            v1,
            v0,
            m1,
            m0,
            self.byte_value,
            self.byte_mask,
            self.second_value,
            self.second_mask,
            n1,
            n0,
            self.class,
            self.stride,
        ]
    }
}

impl From<&PairEntry> for RawPair {
    ghost from_gives = { λ entry raw. raw ≡ raw_of entry.now };

    // The fields of an entry.
    fn from(entry: &PairEntry) -> RawPair {
        let one = entry.entry();
        RawPair {
            code_value: one.code_value(),
            code_mask: one.code_mask(),
            byte_value: one.byte_value(),
            byte_mask: one.byte_mask(),
            second_value: entry.second_value(),
            second_mask: entry.second_mask(),
            next: one.next(),
            class: one.class(),
            stride: entry.stride().bytes() as u8,
        }
    }
}

// The stride of a number: two bytes for 2, and else one.
fn stride_of(bytes: u8) -> Stride
    ensures { result ≡ stride_of bytes }
{
    if bytes == 2 { Stride::Two } else { Stride::One }
}

impl From<RawPair> for PairEntry {
    ghost from_gives = { λ raw entry. entry ≡ entry_from raw };

    // The entry with these fields.
    fn from(raw: RawPair) -> PairEntry {
        let one = Entry::new(
            raw.code_value,
            raw.code_mask,
            raw.byte_value,
            raw.byte_mask,
            raw.next,
            raw.class,
        );
        PairEntry::new(
            one,
            raw.second_value,
            raw.second_mask,
            stride_of(raw.stride),
        )
    }
}

impl Item for RawPair {
    ghost SIZE = { 12 };

    const SIZE: usize = 12;

    ghost fault = { raw_fault };

    fn check(self, limit: u32, at: usize) -> Result<(), Refusal> {
        if self.code_value as u32 >= limit || self.code_value & self.code_mask != self.code_value {
            Err(Refusal::Malformed(at))
        } else if self.code_mask as u32 >= limit {
            Err(Refusal::Malformed(at + 2))
        } else if self.byte_value & self.byte_mask != self.byte_value {
            Err(Refusal::Malformed(at + 4))
        } else if self.second_value & self.second_mask != self.second_value {
            Err(Refusal::Malformed(at + 6))
        } else if self.next.0 as u32 >= limit {
            Err(Refusal::Malformed(at + 8))
        } else if self.stride != 1 && self.stride != 2 {
            Err(Refusal::Malformed(at + 11))
        } else {
            Ok(())
        }
    }
}

impl Readable for RawPair {
    ghost said = { fields_at };

    fn read(bytes: &[u8], at: usize) -> RawPair {
        RawPair {
            code_value: word_at(bytes, at),
            code_mask: word_at(bytes, at + 2),
            byte_value: byte_at(bytes, at + 4),
            byte_mask: byte_at(bytes, at + 5),
            second_value: byte_at(bytes, at + 6),
            second_mask: byte_at(bytes, at + 7),
            next: StateCode(word_at(bytes, at + 8)),
            class: byte_at(bytes, at + 10),
            stride: byte_at(bytes, at + 11),
        }
    }
}

impl Item for PairEntry {
    ghost SIZE = { 12 };

    const SIZE: usize = 12;

    ghost fault = { entry_fault };

    fn check(self, limit: u32, at: usize) -> Result<(), Refusal> {
        RawPair::from(&self).check(limit, at)
    }
}

impl Writable for PairEntry {
    ghost bytes = { entry_bytes };

    fn put(self, out: &mut [u8], at: usize) {
        put(out, at, &RawPair::from(&self).bytes());
    }

    ghost long = { λ _. refl };
}
