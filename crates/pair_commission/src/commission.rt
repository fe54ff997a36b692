ghost use Rattle.std.specs.Prelude.{take, IfOk};
ghost use Rattle.automaton.specs.Limits.{handed, dfa};
ghost use Rattle.builder.specs.Build.{BuildAnswer, OverShortest, ShortestImage};
ghost use Rattle.image.specs.Format.{decode};
ghost use Rattle.table.specs.Acceptance.{Acceptable};
ghost use Rattle.pairs.specs.Cards.{places};
ghost use Rattle.pair_builder.specs.Build.{BuildAnswer as PairBuildAnswer, OverChosen, ShortestImage as ShortestPairImage};
ghost use Rattle.pair_image.specs.Format.{decode as pair_decode};
ghost use Rattle.pair_table.specs.Acceptance.{Acceptable as PairAcceptable};
ghost use Rattle.pair_commission.specs.Guarantee.{Guarantee};

use crate::run::run;
use crate::words::{Call, Filing, Report};
use automaton::words::Automaton;
use builder::build::build;
use card::rules::Card;
use pair_builder::build::build as build_pairs;
use pair_table::check::check as check_pairs;
use pairs::list::PairCard;
use std::alloc::Global;
use table::check::check;
use ternary::refusal::Refusal;

/// Takes an automaton into service with two bytes in one search: checks a vendor's two images of it, builds two of its own
/// and checks these too, and makes the calls on a new scanner with both cards lent to each. 50,188 bytes of `two_out` and
/// 37,900 of `one_out` suffice for every automaton.
pub fn commission<C: Card>(
    heap: Global,
    vendor: &Filing,
    work: &mut [u32],
    two_out: &mut [u8],
    one_out: &mut [u8],
    two: &mut PairCard<'_>,
    one: &mut C,
    calls: &[Call],
) -> Report
    ensures { Guarantee vendor.now work.old work.new two_out.old two_out.new one_out.old one_out.new
        (places two.old) (C.size one.old) calls.now result }
{
    let automaton = vendor.automaton();
    let two_vendor = check_pairs(automaton, vendor.two.as_slice());
    let one_vendor = check(automaton, vendor.one.as_slice());
    let two_built = build_two(automaton, work, two_out);
    let one_built = build_one(automaton, work, one_out);
    let mut answers = Vec::new(heap);
    let ended = run(heap, two, one, calls, &mut answers);
    Report {
        two_vendor,
        one_vendor,
        two_built,
        one_built,
        answers,
        ended,
    }
}

// Builds a two-byte image, and has it checked: a refusal of either is handed on.
fn build_two(automaton: Automaton<'_>, work: &mut [u32], out: &mut [u8]) -> Result<usize, Refusal>
    ensures answer { PairBuildAnswer (handed automaton.entry) work.old work.new out.old out.new
        result }
    ensures parts { IfOk result (λ n. OverChosen (dfa (handed automaton.entry))
        (pair_decode (take n out.new))) }
    ensures accepted { IfOk result (λ n. PairAcceptable (handed automaton.entry) (take n out.new)) }
    ensures shortest { IfOk result (λ n. ShortestPairImage (dfa (handed automaton.entry))
        (take n out.new)) }
{
    let size = build_pairs(automaton, work, out)?;
    check_pairs(automaton, &out[0..size])?;
    Ok(size)
}

// The same for a one-byte image.
fn build_one(automaton: Automaton<'_>, work: &mut [u32], out: &mut [u8]) -> Result<usize, Refusal>
    ensures answer { BuildAnswer (handed automaton.entry) work.old work.new out.old out.new result }
    ensures parts { IfOk result (λ n. OverShortest (dfa (handed automaton.entry))
        (decode (take n out.new))) }
    ensures accepted { IfOk result (λ n. Acceptable (handed automaton.entry) (take n out.new)) }
    ensures shortest { IfOk result (λ n. ShortestImage (dfa (handed automaton.entry))
        (take n out.new)) }
{
    let size = build(automaton, work, out)?;
    check(automaton, &out[0..size])?;
    Ok(size)
}
