// Building the two-byte table image of an automaton.
ghost use Rattle.std.specs.Prelude.{length, take, IfOk};
ghost use Rattle.automaton.specs.Limits.{handed, dfa};
ghost use Rattle.pair_image.specs.Format.{decode};
ghost use Rattle.pair_table.specs.Acceptance.{Acceptable};
ghost use Rattle.pair_builder.specs.Build.{BuildAnswer, OverChosen, RoomSuffices, ShortestImage, SoleAnswer};

use crate::planned::Planned;
use automaton::words::Automaton;
use pair_image::writer::pack;
use ternary::refusal::Refusal;

/// Writes the two-byte table image of an automaton over the first bytes of the output, and answers the image's size. The
/// entries are gathered on the stack, so that nothing of the output is written before the last refusal is past.
pub fn build(automaton: Automaton<'_>, work: &mut [u32], out: &mut [u8]) -> Result<usize, Refusal>
    ensures answer { BuildAnswer (handed automaton.entry) work.old work.new out.old out.new result }
    ensures only { SoleAnswer (handed automaton.entry) work.old out.old result }
    ensures suffices { RoomSuffices (length out.old) result }
    ensures parts { IfOk result (λ size. OverChosen (dfa (handed automaton.entry))
        (decode (take size out.new))) }
    ensures accepted { IfOk result (λ size. Acceptable (handed automaton.entry)
        (take size out.new)) }
    ensures shortest { IfOk result (λ size. ShortestImage (dfa (handed automaton.entry))
        (take size out.new)) }
{
    let planned = Planned::of(automaton, work)?;
    let entries = planned.entries()?;
    let codes = planned.codes();
    pack(
        planned.plan.width(),
        planned.automaton.start(),
        codes.as_slice(),
        entries.as_slice(),
        out,
    )
}
