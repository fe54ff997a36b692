ghost use Rattle.std.specs.Prelude.{◌≡◌, ◌^◌, ◌≤◌};
ghost use Rattle.ternary.specs.Refusals.{verdict};
ghost use Rattle.pair_image.specs.Rules.{header_fault, pair_frame_fault};

use ternary::refusal::Refusal;
use ternary::words::{MOST_BITS, MOST_ENTRIES, MOST_STATES, StateNo};

// Refuses the first field of the header after its length that breaks a rule.
pub(crate) fn check_header(
    width: u8,
    states: usize,
    start: StateNo,
    entries: usize,
) -> Result<(), Refusal>
    ensures { result ≡ verdict (header_fault width states start.0 entries) }
{
    if u32::from(width) > MOST_BITS {
        Err(Refusal::Malformed(5))
    } else if states < 1 || states > MOST_STATES {
        Err(Refusal::Malformed(6))
    } else if usize::from(start) >= states {
        Err(Refusal::Malformed(8))
    } else if entries > MOST_ENTRIES {
        Err(Refusal::Malformed(10))
    } else {
        Ok(())
    }
}

// Codes of `width` bits are below this.
pub(crate) fn code_limit(width: u8) -> u32
    requires { width ≤ 16 }
    ensures { result ≡ 2 ^ width }
{
    1 << width
}

// Refuses bytes that are too few for a rest of `least` bytes, are not of version 3, or say another length of the rest.
pub(crate) fn check_frame(bytes: &[u8], least: usize) -> Result<(), Refusal>
    ensures { result ≡ verdict (pair_frame_fault least bytes.now) }
{
    let [version, l3, l2, l1, l0, rest @ ..] = bytes else {
        return Err(Refusal::Malformed(bytes.len()));
    };
    if rest.len() < least {
        Err(Refusal::Malformed(bytes.len()))
    } else if *version != 3 {
        Err(Refusal::Malformed(0))
    } else if u32::from_be_bytes([*l3, *l2, *l1, *l0]) as usize != rest.len() {
        Err(Refusal::Malformed(1))
    } else {
        Ok(())
    }
}
