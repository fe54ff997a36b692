//! The record of a state.
ghost use Rattle.std.specs.Prelude.{◌≡◌, ℕ, ◌+◌, ◌*◌, ◌<◌, ◌≤◌, ◌++◌, length};
ghost use Rattle.std.specs.List.{flat_map};
ghost use Rattle.arrayvec.specs.ArrayVec.{array_vec_len};
ghost use Rattle.fields.specs.Fields.{written};
ghost use Rattle.automaton.specs.File.{range_bytes, record_bytes};
ghost use Rattle.automaton_writer.specs.Filed.{run_range, ranges_of, record_by, Leads};

use arrayvec::ArrayVec;
use ternary::words::StateNo;

/// The bytes of the ranges of a record, four a range.
pub(crate) type RangeBytes = ArrayVec<u8, 1024>;

/// Appends the range of a run of bytes that lead to one state, unless that is the default.
fn push_run(ranges: &mut RangeBytes, default: StateNo, low: u8, high: u8, to: StateNo)
    requires { array_vec_len ranges.old + 4 ≤ 1024 }
    ensures items { ranges.new.items
        ≡ ranges.old.items ++ flat_map range_bytes (run_range default.0 low high to.0) }
    ensures few { array_vec_len ranges.new ≤ array_vec_len ranges.old + 4 }
{
    if to != default {
        let [to_high, to_low] = to.0.to_be_bytes();
        ranges.push(low);
        ranges.push(high);
        ranges.push(to_high);
        ranges.push(to_low);
    }
}

/// The bytes of the ranges of a state with these successors.
fn ranges(row: &[StateNo; 256]) -> RangeBytes
    ensures bytes { (next : ℕ → ℕ) → Leads row.now next
        → result.items ≡ flat_map range_bytes (ranges_of next) }
    ensures few { array_vec_len result ≤ 1024 }
{
    let mut ranges = ArrayVec::new();
    let mut low = 0usize;
    for at in 1..256usize {
        if row[at] != row[low] {
            push_run(&mut ranges, row[0], low as u8, (at - 1) as u8, row[low]);
            low = at;
        }
    }
    push_run(&mut ranges, row[0], low as u8, 255, row[low]);
    ranges
}

/// Writes a field over the bytes at `at`.
pub(crate) fn put(out: &mut [u8], at: usize, field: &[u8])
    requires { at + length field.now ≤ length out.old }
    ensures { out.new ≡ written out.old at field.now }
{
    let end = at + field.len();
    out[at..end].copy_from_slice(field);
}

/// The record of a state: its length, its class and its default successor, and the bytes of its ranges.
#[derive(Drop)]
pub(crate) struct Record {
    head: [u8; 5],
    ranges: RangeBytes,
}

impl Record {
    ghost use Rattle.automaton_writer.specs.Records.{bytes_of};

    /// The record of a state of this class with these successors.
    pub(crate) fn of(class: u8, row: &[StateNo; 256]) -> Record
        ensures bytes { (next : ℕ → ℕ) → Leads row.now next
            → bytes_of result ≡ record_bytes (record_by class next) }
        ensures few { length (bytes_of result) ≤ 1029 }
    {
        let ranges = ranges(row);
        let [len_high, len_low] = (3 + ranges.len() as u16).to_be_bytes();
        let [default_high, default_low] = row[0].0.to_be_bytes();
        Record {
            head: [len_high, len_low, class, default_high, default_low],
            ranges,
        }
    }

    /// How many bytes the record takes.
    pub(crate) fn size(&self) -> usize
        ensures { result ≡ length (bytes_of self.now) }
    {
        5 + self.ranges.len()
    }

    /// Writes the record over the bytes at `at`.
    pub(crate) fn put(&self, out: &mut [u8], at: usize)
        requires { at + length (bytes_of self.now) ≤ length out.old }
        ensures { out.new ≡ written out.old at (bytes_of self.now) }
    {
        put(out, at, &self.head);
        put(out, at + 5, self.ranges.as_slice());
    }
}
