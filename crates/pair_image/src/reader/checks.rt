ghost use Rattle.std.specs.Prelude.{◌≡◌, ◌+◌, ◌*◌, ◌≤◌, map};
ghost use Rattle.std.specs.List.{range_with_len};
ghost use Rattle.ternary.specs.Refusals.{verdict};
ghost use Rattle.fields.specs.Fields.{each_fault};
ghost use Rattle.pair_image.specs.Format.{code_at, raw_at};
ghost use Rattle.pair_image.specs.Rules.{code_fault, fault, items_fault, raw_fault};

use crate::item::check_in;
use crate::raw::RawPair;
use crate::reader::Header;
use crate::rules::{check_frame, check_header, code_limit};
use ternary::refusal::Refusal;
use ternary::words::StateCode;

// Refuses the first field after the header that breaks a rule.
fn check_items(bytes: &[u8], header: Header) -> Result<(), Refusal>
    requires { header.width ≤ 16 }
    ensures { result ≡ verdict (items_fault header.width
        (map (code_at bytes.now) (range_with_len 0 header.states))
        (map (raw_at bytes.now header.states) (range_with_len 0 header.entries))) }
{
    let limit = code_limit(header.width);
    let states = header.states as usize;
    check_in::<StateCode>(bytes, limit, 12, states)?;
    check_in::<RawPair>(bytes, limit, 12 + 2 * states, header.entries as usize)
}

// Refuses the first field that breaks a rule.
pub(crate) fn check_image(bytes: &[u8]) -> Result<(), Refusal>
    ensures { result ≡ verdict (fault bytes.now) }
{
    check_frame(bytes, 7)?;
    let header = Header::read(bytes);
    let states = header.states as usize;
    let entries = header.entries as usize;
    check_header(header.width, states, header.start, entries)?;
    if bytes.len() != 12 + 2 * states + 12 * entries {
        return Err(Refusal::Malformed(12));
    }
    check_items(bytes, header)
}
