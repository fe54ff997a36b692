ghost use Rattle.std.specs.Prelude.{◌≡◌, ◌+◌, ◌*◌, ◌^◌, ◌<◌, ◌≤◌, cond, length, map, Some, None};
ghost use Rattle.std.specs.List.{find};
ghost use Rattle.std.specs.Option.{option_map};
ghost use Rattle.ternary.specs.Refusals.{verdict};
ghost use Rattle.automaton.specs.File.{said, length_fits, record_in, in_range, next_by, range_of, range_fault, row_of, parts_fault};
ghost use Rattle.fields.specs.Fields.{each_fault};

use crate::file::record::Record;
use crate::words::ByteRange;
use std::array;
use ternary::refusal::Refusal;
use ternary::words::StateNo;

impl<'a> Record<'a> {
    // The record that some bytes begin with; none if its length is wrong or overruns them.
    pub(crate) fn read(rest: &'a [u8]) -> Option<Record<'a>>
        ensures { option_map said result ≡ cond (length_fits rest.now) (Some (record_in rest.now)) None }
    {
        let [len_hi, len_lo, class, def_hi, def_lo, ranges @ ..] = rest else {
            return None;
        };
        let len = u16::from_be_bytes([*len_hi, *len_lo]) as usize;
        if 2 + len > rest.len() || len % 4 != 3 {
            return None;
        }
        let (ranges, _) = ranges[..len - 3].as_chunks::<4>();
        Some(Record {
            class: *class,
            default: StateNo(u16::from_be_bytes([*def_hi, *def_lo])),
            ranges,
        })
    }
}

impl Record<'_> {
    // How many bytes the record takes, the two that say its length included.
    pub(crate) fn size(&self) -> usize
        ensures { result ≡ 5 + 4 * length (said self.now).ranges }
    {
        5 + 4 * self.ranges.len()
    }

    // The class of the state.
    pub(crate) fn class(&self) -> u8
        ensures { result ≡ (said self.now).class }
    {
        self.class
    }

    // Writes the successors of the state. Where no range decides anything, all bytes go to the default.
    pub(crate) fn write(&self, row: &mut [StateNo])
        requires { length row.old ≡ 256 }
        ensures { row.new ≡ row_of (said self.now) }
    {
        if self.ranges.is_empty() {
            row.fill(self.default);
        } else {
            row.copy_from_slice(&self.row());
        }
    }

    // The successors of the state.
    fn row(&self) -> [StateNo; 256]
        ensures { result ≡ row_of (said self.now) }
    {
        array::from_fn(|byte| self.next(byte as u8))
    }

    // The successor on a byte: the first range that holds it decides, else the default.
    fn next(&self, byte: u8) -> StateNo
        ensures { result ≡ next_by (said self.now).ranges (said self.now).default byte }
    {
        deciding(self.ranges, byte).map_or(self.default, |range| range.next)
    }

    // Refuses the first fault of the default and the ranges, in a file of so many states, the record standing at `at`.
    pub(crate) fn check(&self, states: u16, at: usize) -> Result<(), Refusal>
        requires { at < 2 ^ 63 }
        ensures { result ≡ verdict (parts_fault states at (said self.now)) }
    {
        if self.default.0 >= states {
            return Err(Refusal::Malformed(at + 3));
        }
        for (index, range) in self.ranges.iter().enumerate() {
            ByteRange::from(*range).check(states, at + 5 + 4 * index)?;
        }
        Ok(())
    }
}

// The first of some ranges that holds a byte.
fn deciding(ranges: &[[u8; 4]], byte: u8) -> Option<ByteRange>
    ensures { result ≡ find (λ r. in_range r byte) (map range_of ranges.now) }
{
    ranges
        .iter()
        .map(|range| ByteRange::from(*range))
        .find(|range| range.holds(byte))
}

impl From<[u8; 4]> for ByteRange {
    ghost from_gives = { λ bytes range. range ≡ range_of bytes };

    // The range that four bytes say: lowest byte, highest byte, successor.
    fn from([low, high, n1, n0]: [u8; 4]) -> ByteRange {
        ByteRange {
            low,
            high,
            next: StateNo(u16::from_be_bytes([n1, n0])),
        }
    }
}

impl ByteRange {
    // Whether the range holds a byte.
    pub(crate) fn holds(&self, byte: u8) -> bool
        ensures { result ≡ in_range self.now byte }
    {
        self.low <= byte && byte <= self.high
    }

    // Refuses the first fault of the range, which stands at `at`.
    pub(crate) fn check(&self, states: u16, at: usize) -> Result<(), Refusal>
        requires { at + 2 < 2 ^ 64 }
        ensures { result ≡ verdict (range_fault states at self.now) }
    {
        if self.low > self.high {
            Err(Refusal::Malformed(at))
        } else if self.next.0 >= states {
            Err(Refusal::Malformed(at + 2))
        } else {
            Ok(())
        }
    }
}
