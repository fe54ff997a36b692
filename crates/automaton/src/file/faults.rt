ghost use Rattle.std.specs.Prelude.{◌≡◌, ◌+◌, ◌^◌, ◌<◌, length, Ok};
ghost use Rattle.ternary.specs.Refusals.{refuse_or, verdict};
ghost use Rattle.automaton.specs.File.{fault, record_fault, record_size, records_fault};

use crate::file::record::Record;
use crate::words::Header;
use fields::frame::check_frame;
use ternary::refusal::Refusal;
use ternary::words::MOST_STATES;

// Refuses the first field of an automaton file that breaks a rule.
pub(crate) fn check_file(file: &[u8]) -> Result<(), Refusal>
    ensures { result ≡ verdict (fault file.now) }
{
    check_frame(file, 4)?;
    let Header { states, start } = Header::read(file);
    if states < 1 || usize::from(states) > MOST_STATES {
        return Err(Refusal::Malformed(5));
    }
    if start.0 >= states {
        return Err(Refusal::Malformed(7));
    }
    check_records(&file[9..], states)
}

// Refuses the first fault of the records: there are as many as states, and no byte after the last.
fn check_records(records: &[u8], states: u16) -> Result<(), Refusal>
    requires { 9 + length records.now < 2 ^ 63 }
    ensures { result ≡ verdict (records_fault states states 9 records.now) }
{
    let mut rest = records;
    let mut at = 9;
    // A record says its own length, so there is no slice of records to walk.
    for _state in 0..states {
        let size = check_record(states, at, rest)?;
        rest = &rest[size..];
        at += size;
    }
    if rest.is_empty() {
        Ok(())
    } else {
        Err(Refusal::Malformed(at))
    }
}

// Refuses the first fault of the record that `rest` begins with, which stands at `at`; else answers its size.
fn check_record(states: u16, at: usize, rest: &[u8]) -> Result<usize, Refusal>
    requires { at + length rest.now < 2 ^ 63 }
    ensures { result ≡ refuse_or (record_fault states at rest.now) (Ok (record_size rest.now)) }
{
    let record = Record::read(rest).ok_or(Refusal::Malformed(at))?;
    record.check(states, at)?;
    Ok(record.size())
}
