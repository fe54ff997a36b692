ghost use Rattle.std.specs.Prelude.{◌^◌, ◌<◌, length};

use ternary::words::StateNo;

mod parts;

// A state's record taken apart: its class, its default successor, and its ranges, four bytes each.
#[derive(Clone, Copy)]
pub(crate) struct Record<'a> {
    class: u8,
    default: StateNo,
    ranges: &'a [[u8; 4]],
    ghost few: { length ranges.now < 2 ^ 14 },
}
