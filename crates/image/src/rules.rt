ghost use Rattle.std.specs.Prelude.{◌≡◌, ◌^◌, ◌≤◌};
ghost use Rattle.ternary.specs.Refusals.{verdict};
ghost use Rattle.image.specs.Rules.{header_fault};

use ternary::refusal::Refusal;
use ternary::words::{MOST_BITS, MOST_ENTRIES, MOST_STATES, StateNo};

// Refuses the first field of the header after its length that breaks a rule.
pub(crate) fn check_header(
    width: u8,
    states: usize,
    start: StateNo,
    entries: usize,
) -> Result<(), Refusal>
    ensures { result ≡ verdict (header_fault width states start.0 entries) }
{
    if u32::from(width) > MOST_BITS {
        Err(Refusal::Malformed(5))
    } else if states < 1 || states > MOST_STATES {
        Err(Refusal::Malformed(6))
    } else if usize::from(start) >= states {
        Err(Refusal::Malformed(8))
    } else if entries > MOST_ENTRIES {
        Err(Refusal::Malformed(10))
    } else {
        Ok(())
    }
}

// Codes of `width` bits are below this.
pub(crate) fn code_limit(width: u8) -> u32
    requires { width ≤ 16 }
    ensures { result ≡ 2 ^ width }
{
    1 << width
}
