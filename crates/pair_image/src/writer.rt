ghost use Rattle.std.specs.Prelude.{◌≡◌, ◌+◌, ◌*◌, ◌^◌, ◌<◌, ◌≤◌, map, length, take, IfOk, None};
ghost use Rattle.std.specs.List.{flat_map};
ghost use Rattle.ternary.specs.Refusals.{verdict};
ghost use Rattle.fields.specs.Fields.{written, each_fault};
ghost use Rattle.pair_image.specs.Calls.{pack_after, pack_answer};
ghost use Rattle.pair_image.specs.Format.{code_bytes, decode, entry_bytes, header_bytes, parts_from, raw_of};
ghost use Rattle.pair_image.specs.Rules.{code_fault, fault, parts_fault, raw_fault};

use crate::item::{check_all, put, put_all};
use crate::reader::Header;
use crate::rules::{check_header, code_limit};
use pairs::pair::PairEntry;
use ternary::refusal::Refusal;
use ternary::words::{StateCode, StateNo};

// Refuses the first field that would break a rule in the image of these parts.
fn check_parts(
    width: u8,
    start: StateNo,
    codes: &[StateCode],
    entries: &[PairEntry],
) -> Result<(), Refusal>
    ensures { result ≡ verdict (parts_fault (parts_from width start codes.now entries.now)) }
{
    check_header(width, codes.len(), start, entries.len())?;
    let limit = code_limit(width);
    check_all(codes, limit, 12)?;
    check_all(entries, limit, 12 + 2 * codes.len())
}

impl Header {
    // The bytes before the codes.
    fn bytes(self) -> [u8; 12]
        ensures { result ≡ header_bytes self.width self.states self.start.0 self.entries }
    {
        let rest = 7 + 2 * self.states as u32 + 12 * self.entries as u32;
        let [r3, r2, r1, r0] = rest.to_be_bytes();
        let [n1, n0] = self.states.to_be_bytes();
        let [s1, s0] = self.start.0.to_be_bytes();
        let [m1, m0] = self.entries.to_be_bytes();
        [3, r3, r2, r1, r0, self.width, n1, n0, s1, s0, m1, m0]
    }
}

/// Writes the image of these parts over the first bytes of the output, and answers its size; or the
/// offset of the first field that would break a rule, or that the output is too short.
pub fn pack(
    width: u8,
    start: StateNo,
    codes: &[StateCode],
    entries: &[PairEntry],
    out: &mut [u8],
) -> Result<usize, Refusal>
    ensures answer { result ≡ pack_answer (parts_from width start codes.now entries.now)
        (length out.old) }
    ensures after { out.new ≡ pack_after (parts_from width start codes.now entries.now) out.old }
    ensures back { IfOk result (λ size. (fault (take size out.new) ≡ None) ×
        (decode (take size out.new) ≡ parts_from width start codes.now entries.now)) }
{
    check_parts(width, start, codes, entries)?;
    let states = codes.len();
    let size = 12 + 2 * states + 12 * entries.len();
    if out.len() < size {
        return Err(Refusal::OutputTooShort);
    }
    let header = Header {
        width,
        states: states as u16,
        start,
        entries: entries.len() as u16,
    };
    put(out, 0, &header.bytes());
    put_all(out, 12, codes);
    put_all(out, 12 + 2 * states, entries);
    Ok(size)
}
