// An entry, as an image holds it.
ghost use Rattle.std.specs.Prelude.{◌≡◌, refl};
ghost use Rattle.image.specs.Format.{entry_bytes, entry_from, fields_at, raw_bytes, raw_of};
ghost use Rattle.image.specs.Rules.{entry_fault, raw_fault};

use crate::item::{Item, Readable, Writable, put};
use fields::{byte_at, word_at};
use ternary::entry::Entry;
use ternary::refusal::Refusal;
use ternary::words::StateCode;

// The fields of an entry as they stand in an image, whether or not they keep the rules.
#[derive(Clone, Copy)]
pub(crate) struct RawEntry {
    code_value: u16,
    code_mask: u16,
    byte_value: u8,
    byte_mask: u8,
    next: StateCode,
    class: u8,
}

impl RawEntry {
    // The nine bytes of these fields.
    pub(crate) fn bytes(self) -> [u8; 9]
        ensures { result ≡ raw_bytes self }
    {
        let [v1, v0] = self.code_value.to_be_bytes();
        let [m1, m0] = self.code_mask.to_be_bytes();
        let [n1, n0] = self.next.0.to_be_bytes();
        [
            v1,
            v0,
            m1,
            m0,
            self.byte_value,
            self.byte_mask,
            n1,
            n0,
            self.class,
        ]
    }
}

impl From<&Entry> for RawEntry {
    ghost from_gives = { λ entry raw. raw ≡ raw_of entry.now };

    // The fields of an entry.
    fn from(entry: &Entry) -> RawEntry {
        RawEntry {
            code_value: entry.code_value(),
            code_mask: entry.code_mask(),
            byte_value: entry.byte_value(),
            byte_mask: entry.byte_mask(),
            next: entry.next(),
            class: entry.class(),
        }
    }
}

impl From<RawEntry> for Entry {
    ghost from_gives = { λ raw entry. entry ≡ entry_from raw };

    // The entry with these fields.
    fn from(raw: RawEntry) -> Entry {
        Entry::new(
            raw.code_value,
            raw.code_mask,
            raw.byte_value,
            raw.byte_mask,
            raw.next,
            raw.class,
        )
    }
}

impl Item for RawEntry {
    ghost SIZE = { 9 };

    const SIZE: usize = 9;

    ghost fault = { raw_fault };

    fn check(self, limit: u32, at: usize) -> Result<(), Refusal> {
        if self.code_value as u32 >= limit || self.code_value & self.code_mask != self.code_value {
            Err(Refusal::Malformed(at))
        } else if self.code_mask as u32 >= limit {
            Err(Refusal::Malformed(at + 2))
        } else if self.byte_value & self.byte_mask != self.byte_value {
            Err(Refusal::Malformed(at + 4))
        } else if self.next.0 as u32 >= limit {
            Err(Refusal::Malformed(at + 6))
        } else {
            Ok(())
        }
    }
}

impl Readable for RawEntry {
    ghost said = { fields_at };

    fn read(bytes: &[u8], at: usize) -> RawEntry {
        RawEntry {
            code_value: word_at(bytes, at),
            code_mask: word_at(bytes, at + 2),
            byte_value: byte_at(bytes, at + 4),
            byte_mask: byte_at(bytes, at + 5),
            next: StateCode(word_at(bytes, at + 6)),
            class: byte_at(bytes, at + 8),
        }
    }
}

impl Item for Entry {
    ghost SIZE = { 9 };

    const SIZE: usize = 9;

    ghost fault = { entry_fault };

    fn check(self, limit: u32, at: usize) -> Result<(), Refusal> {
        RawEntry::from(&self).check(limit, at)
    }
}

impl Writable for Entry {
    ghost bytes = { entry_bytes };

    fn put(self, out: &mut [u8], at: usize) {
        put(out, at, &RawEntry::from(&self).bytes());
    }

    ghost long = { λ _. refl };
}
