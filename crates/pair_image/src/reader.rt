ghost use Rattle.std.specs.Prelude.{◌≡◌, ◌^◌, ◌<◌, Some, MatchResult};
ghost use Rattle.std.specs.List.{slice_get};
ghost use Rattle.std.specs.Option.{option_map};
ghost use Rattle.ternary.specs.declared.refusal.Refusal.TheVariants.{Malformed};
ghost use Rattle.pair_image.specs.Calls.{Accepted, header_in, header_of, parts_of};
ghost use Rattle.pair_image.specs.Rules.{fault};

use crate::item::Readable;
use crate::raw::RawPair;
use crate::reader::checks::check_image;
use fields::{byte_at, word_at};
use pairs::pair::PairEntry;
use ternary::refusal::Refusal;
use ternary::words::{StateCode, StateNo};

mod checks;

/// The fields of an image before its codes: the code width, the number of states, the start state and
/// the number of entries.
#[derive(Clone, Copy, PartialEq, Eq, Debug)]
pub struct Header {
    pub width: u8,
    pub states: u16,
    pub start: StateNo,
    pub entries: u16,
}

impl Header {
    // The header that some bytes say.
    pub(crate) fn read(bytes: &[u8]) -> Header
        ensures { result ≡ header_in bytes.now }
    {
        Header {
            width: byte_at(bytes, 5),
            states: word_at(bytes, 6),
            start: StateNo(word_at(bytes, 8)),
            entries: word_at(bytes, 10),
        }
    }
}

/// A table image, over the bytes that hold it.
#[derive(Clone, Copy)]
pub struct Image<'a> {
    bytes: &'a [u8],
}

impl Image<'_> {
    /// The fields before the codes.
    pub fn header(&self) -> Header
        ensures { result ≡ header_of (parts_of self.now) }
    {
        Header::read(self.bytes)
    }

    /// The code of a state, and none past the last state.
    pub fn code(&self, state: StateNo) -> Option<StateCode>
        ensures { result ≡ slice_get (parts_of self.now).codes state.0 }
    {
        if state.0 < self.header().states {
            Some(StateCode::read(self.bytes, 12 + 2 * usize::from(state)))
        } else {
            None
        }
    }

    /// An entry by its place in the table, and none past the last.
    pub fn entry(&self, index: usize) -> Option<PairEntry>
        ensures { result ≡ slice_get (parts_of self.now).entries index }
    {
        let header = self.header();
        if index < header.entries as usize {
            let at = 12 + 2 * header.states as usize + 12 * index;
            Some(RawPair::read(self.bytes, at).into())
        } else {
            None
        }
    }
}

/// The image in some bytes, or the offset of the first field that breaks a rule.
pub fn unpack(bytes: &[u8]) -> Result<Image<'_>, Refusal>
    ensures { MatchResult result (λ image. Accepted bytes.now image)
        (λ refusal. option_map Malformed (fault bytes.now) ≡ Some refusal) }
{
    check_image(bytes)?;
    Ok(Image { bytes })
}
