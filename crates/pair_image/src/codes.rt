// The code of a state, as an image holds it.
ghost use Rattle.std.specs.Prelude.{◌≡◌, refl};
ghost use Rattle.pair_image.specs.Format.{code_bytes, code_in};
ghost use Rattle.pair_image.specs.Rules.{code_fault};

use crate::item::{Item, Readable, Writable, put};
use fields::word_at;
use ternary::refusal::Refusal;
use ternary::words::StateCode;

impl Item for StateCode {
    ghost SIZE = { 2 };

    const SIZE: usize = 2;

    ghost fault = { code_fault };

    fn check(self, limit: u32, at: usize) -> Result<(), Refusal> {
        if self.0 as u32 >= limit {
            Err(Refusal::Malformed(at))
        } else {
            Ok(())
        }
    }
}

impl Readable for StateCode {
    ghost said = { code_in };

    fn read(bytes: &[u8], at: usize) -> StateCode {
        StateCode(word_at(bytes, at))
    }
}

impl Writable for StateCode {
    ghost bytes = { code_bytes };

    fn put(self, out: &mut [u8], at: usize) {
        put(out, at, &self.0.to_be_bytes());
    }

    ghost long = { λ _. refl };
}
