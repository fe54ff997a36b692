ghost use Rattle.std.specs.Prelude.{◌≡◌, ◌*◌, ◌≤◌, false, map, length, is_some};
ghost use Rattle.std.specs.List.{flat_map};
ghost use Rattle.fields.specs.Fields.{written};
ghost use Rattle.automaton.specs.File.{records_in, row_of, class_of, records_fault};

use crate::file::record::Record;
use ternary::words::StateNo;

// Writes the successors and the classes of the states whose records these are.
pub(crate) fn fill(records: &[u8], successors: &mut [StateNo], classes: &mut [u8], states: usize)
    requires sound { is_some (records_fault states states 9 records.now) ≡ false }
    requires rows { 256 * states ≤ length successors.old }
    requires marks { states ≤ length classes.old }
    ensures rows { successors.new ≡ written successors.old 0 (flat_map row_of (records_in states records.now)) }
    ensures marks { classes.new ≡ written classes.old 0 (map class_of (records_in states records.now)) }
{
    let mut rest = records;
    // Two buffers are filled from a third that is read record by record: no iterator walks all three.
    for state in 0..states {
        let Some(record) = Record::read(rest) else {
            return unreachable();
        };
        let at = 256 * state;
        record.write(&mut successors[at..at + 256]);
        classes[state] = record.class();
        rest = &rest[record.size()..];
    }
}
