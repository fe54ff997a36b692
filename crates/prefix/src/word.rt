ghost use Rattle.std.specs.Prelude.{◌≡◌, ℕ, ◌-◌, ◌<◌, ◌==◌, bit_and};
ghost use Rattle.prefix.specs.Masks.{byte_mask, byte_value};
ghost use Rattle.prefix.specs.Words.{Formed, matches};

// A prefix word: it compares the first `bits` bits of a byte with `value`, and decides `next`.
#[derive(Clone, Copy, Default, PartialEq, Eq, Debug)]
pub struct PrefixWord<D> {
    pub bits: u8,
    pub value: u8,
    pub next: D,
}

impl<D> PrefixWord<D> {
    // The bits of a byte that the word compares.
    pub fn byte_mask(&self) -> u8
        ensures { result ≡ byte_mask self.now }
    {
        (256 - (1u16 << self.stars())) as u8
    }

    // What the compared bits of a byte have to be; the other bits are 0.
    pub fn byte_value(&self) -> u8
        ensures value { result ≡ byte_value self.now }
        ensures clear { bit_and result (byte_mask self.now) ≡ result }
        ensures matches { Formed self.now → (byte : ℕ) → byte < 256 → (bit_and byte (byte_mask self.now) == result) ≡ matches self.now byte }
    {
        ((self.value as u16) << self.stars() & 0xff) as u8
    }

    // How many bits of a byte the word does not compare.
    fn stars(&self) -> u8
        ensures { result ≡ 8 - self.now.bits }
    {
        8 - self.bits.min(8)
    }
}
