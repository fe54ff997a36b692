ghost use Rattle.std.specs.Prelude.{take, IfOk};
ghost use Rattle.automaton.specs.Limits.{handed, dfa};
ghost use Rattle.builder.specs.Build.{BuildAnswer, ShortestImage};
ghost use Rattle.table.specs.Acceptance.{Acceptable};
ghost use Rattle.commission.specs.Guarantee.{Guarantee};

use crate::run::run;
use crate::words::{Call, Report};
use automaton::words::Automaton;
use builder::build::build;
use card::rules::Card;
use std::alloc::Global;
use table::check::check;
use ternary::refusal::Refusal;

// Takes an automaton into service: checks a vendor's image of it, builds an image of its own and checks that too, and
// makes the calls on a new scanner over the card.
pub fn commission<C: Card + Drop>(
    heap: Global,
    automaton: Automaton<'_>,
    vendor: &[u8],
    work: &mut [u32],
    out: &mut [u8],
    card: C,
    calls: &[Call],
) -> Report
    ensures { Guarantee (handed automaton.entry) vendor.now work.old work.new out.old out.new (C.size card) calls.now result }
{
    let vendor = check(automaton, vendor);
    let built = build_and_check(automaton, work, out);
    let mut answers = Vec::new(heap);
    let ended = run(heap, card, calls, &mut answers);
    Report {
        vendor,
        built,
        answers,
        ended,
    }
}

// Builds an image, and has it checked: a refusal of either is handed on.
fn build_and_check(
    automaton: Automaton<'_>,
    work: &mut [u32],
    out: &mut [u8],
) -> Result<usize, Refusal>
    ensures answer { BuildAnswer (handed automaton.entry) work.old work.new out.old out.new result }
    ensures accepted { IfOk result (λ size. Acceptable (handed automaton.entry) (take size out.new)) }
    ensures shortest { IfOk result (λ size. ShortestImage (dfa (handed automaton.entry)) (take size out.new)) }
{
    let size = build(automaton, work, out)?;
    check(automaton, &out[0..size])?;
    Ok(size)
}
