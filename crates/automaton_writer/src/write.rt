//! Writing an automaton file.
ghost use Rattle.std.specs.Prelude.{◌≡◌, ℕ, ◌+◌, ◌-◌, ◌^◌, ◌∷◌, ◌++◌, ◌<◌, ◌≤◌, length, take, IfOk};
ghost use Rattle.fields.specs.Fields.{be16, be32, written};
ghost use Rattle.automaton.specs.File.{record_bytes};
ghost use Rattle.automaton.specs.Limits.{handed};
ghost use Rattle.automaton.specs.Sound.{meant};
ghost use Rattle.automaton_writer.specs.Filed.{record_by, file_of};
ghost use Rattle.automaton_writer.specs.Records.{bytes_of};
ghost use Rattle.automaton_writer.specs.Writes.{WriteAnswer, ReadsBack};

use crate::record::{Record, put};
use automaton::sound::SoundAutomaton;
use automaton::words::Automaton;
use ternary::refusal::Refusal;
use ternary::words::StateNo;

/// Writes the file of an automaton over the first bytes of the output, and answers the file's size:
/// at most 524,809 bytes. Each run of bytes that lead to one state is a range, but for those that lead
/// where byte 0 leads, which is the default.
pub fn write(automaton: Automaton<'_>, out: &mut [u8]) -> Result<usize, Refusal>
    ensures answer { WriteAnswer (handed automaton.entry) out.old out.new result }
    ensures back { IfOk result (λ size. ReadsBack (handed automaton.entry) (take size out.new)) }
{
    let automaton = automaton.sound()?;
    let size = file_size(&automaton);
    if out.len() < size {
        return Err(Refusal::OutputTooShort);
    }
    write_all(&automaton, size, out);
    Ok(size)
}

/// The record of a state.
fn record_of(automaton: &SoundAutomaton<'_>, number: u16) -> Record
    requires { number < (meant automaton.now).states }
    ensures bytes { bytes_of result
        ≡ record_bytes (record_by ((meant automaton.now).class number) ((meant automaton.now).next number)) }
    ensures few { length (bytes_of result) ≤ 1029 }
    ensures class { (meant automaton.now).class number < 256 }
{
    let state = StateNo(number);
    Record::of(automaton.class(state), automaton.successors(state))
}

/// How many bytes the file of an automaton takes. Its classes are bytes.
fn file_size(automaton: &SoundAutomaton<'_>) -> usize
    ensures size { result ≡ length (file_of (meant automaton.now)) }
    ensures few { result < 2 ^ 20 }
    ensures classes { (s : ℕ) → s < (meant automaton.now).states
        → (meant automaton.now).class s < 256 }
{
    let mut size = 9;
    for number in 0..automaton.states() {
        size += record_of(automaton, number).size();
    }
    size
}

/// What a file begins with: its version, the length of the rest, and the states of the automaton.
fn head(size: u32, automaton: &SoundAutomaton<'_>) -> [u8; 9]
    requires { 5 ≤ size }
    ensures { result ≡ 1 ∷ be32 (size - 5)
        ++ (be16 (meant automaton.now).states ++ be16 (meant automaton.now).start) }
{
    let [rest3, rest2, rest1, rest0] = (size - 5).to_be_bytes();
    let [states1, states0] = automaton.states().to_be_bytes();
    let [start1, start0] = automaton.start().0.to_be_bytes();
    [
        1, rest3, rest2, rest1, rest0, states1, states0, start1, start0,
    ]
}

/// Writes the file of an automaton, which is so many bytes long, over the first bytes of the output.
fn write_all(automaton: &SoundAutomaton<'_>, size: usize, out: &mut [u8])
    requires size { size ≡ length (file_of (meant automaton.now)) }
    requires few { size < 2 ^ 20 }
    requires room { size ≤ length out.old }
    ensures { out.new ≡ written out.old 0 (file_of (meant automaton.now)) }
{
    put(out, 0, &head(size as u32, automaton));
    let mut at = 9;
    for number in 0..automaton.states() {
        let record = record_of(automaton, number);
        record.put(out, at);
        at += record.size();
    }
}
