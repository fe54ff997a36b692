// Building the table image of an automaton.
ghost use Rattle.std.specs.Prelude.{length, take, IfOk};
ghost use Rattle.automaton.specs.Limits.{handed, dfa};
ghost use Rattle.table.specs.Acceptance.{Acceptable};
ghost use Rattle.image.specs.Format.{decode};
ghost use Rattle.builder.specs.Build.{BuildAnswer, HeaviestImage, OverShortest, RoomSuffices, ShortestImage, SoleAnswer};

use crate::gathered::Gathered;
use crate::planned::Planned;
use automaton::words::Automaton;
use image::writer::pack;
use ternary::refusal::Refusal;

// Writes the table image of an automaton over the first bytes of the output, and answers the image's size. The
// entries are gathered on the stack, so that nothing of the output is written before the last refusal is past.
pub fn build(automaton: Automaton<'_>, work: &mut [u32], out: &mut [u8]) -> Result<usize, Refusal>
    ensures answer { BuildAnswer (handed automaton.entry) work.old work.new out.old out.new result }
    ensures only { SoleAnswer (handed automaton.entry) work.old out.old result }
    ensures suffices { RoomSuffices (length out.old) result }
    ensures parts { IfOk result (λ size. OverShortest (dfa (handed automaton.entry)) (decode (take size out.new))) }
    ensures accepted { IfOk result (λ size. Acceptable (handed automaton.entry) (take size out.new)) }
    ensures shortest { IfOk result (λ size. ShortestImage (dfa (handed automaton.entry)) (take size out.new)) }
    ensures heaviest { let a = dfa (handed automaton.entry) in
        IfOk result (λ size. HeaviestImage a (decode (take size out.new))) }
{
    let planned = Planned::of(automaton, work)?;
    let mut entries = Gathered::new();
    planned.gather(&mut entries)?;
    let codes = planned.codes();
    pack(
        planned.plan.width(),
        planned.automaton.start(),
        codes.as_slice(),
        entries.as_slice(),
        out,
    )
}
