// Depths and parents, found in rounds from the roots.
ghost use Rattle.std.specs.Prelude.{◌≡◌, ℕ, ◌+◌, ◌<◌, ◌≤◌, length, if◌then◌else◌, Some, None, slice_index_or};
ghost use Rattle.automaton.specs.Runs.{Dfa};
ghost use Rattle.automaton.specs.Sound.{meant};
ghost use Rattle.forest.specs.Deferment.{trees_of};
ghost use Rattle.forest.specs.Joining.{trees_in};
ghost use Rattle.forest.specs.Placing.{root_place, visited, Placed, AllInPlace, better_in, beaten_in};

use crate::codes::each_state;
use crate::joining::Grove;
use crate::sharing::ByteCounts;
use arrayvec::ArrayVec;
use ternary::words::{MOST_STATES, StateNo};

// Where a state stands: how many joins lead to its root, and the state that it defers to, unless it is a root.
#[derive(Clone, Copy, Default)]
pub(crate) struct Place {
    pub(crate) depth: u16,
    pub(crate) parent: Option<StateNo>,
}

// Places `t` below `s`, if `s` stands at depth `r` and `t` has no place yet.
fn visit(places: &mut [Option<Place>], r: u16, s: StateNo, t: StateNo)
    requires inside { (s.0 < length places.old) × (t.0 < length places.old) }
    requires room { r < 65535 }
    ensures { places.new ≡ visited places.old r s t }
{
    let stands = places[usize::from(s)].is_some_and(|place| place.depth == r);
    if stands && places[usize::from(t)].is_none() {
        places[usize::from(t)] = Some(Place {
            depth: r + 1,
            parent: Some(s),
        });
    }
}

// One round: every state without a place that is joined to a state at depth `r` is placed below it.
fn place_round(grove: &Grove, r: u16, places: &mut [Option<Place>])
    requires size { length places.old ≡ 512 }
    requires room { r < 65535 }
    ensures { (a : Dfa) → trees_in grove.now ≡ trees_of a → r < a.states → Placed a (trees_of a) r places.old →
        Placed a (trees_of a) (r + 1) places.new }
{
    // What holds of a round is told by the places of the joins, so the empty ones are walked too.
    for join in &grove.joins {
        if let Some(join) = join {
            visit(places, r, join.low, join.high);
            visit(places, r, join.high, join.low);
        }
    }
}

// Whether `t` stands in the tree of `s` and is a better root: more bytes lead to itself, or as many and its number is lower.
fn is_better(grove: &Grove, counts: &ByteCounts<'_>, t: StateNo, s: StateNo) -> bool
    requires inside { (t.0 < (meant counts.now.automaton).states) × (s.0 < (meant counts.now.automaton).states) }
    ensures { result ≡ better_in grove.now.labels (meant counts.now.automaton) t.0 s.0 }
{
    grove.labels[usize::from(t)] == grove.labels[usize::from(s)]
        && (counts.loops(s), t.0) < (counts.loops(t), s.0)
}

// Whether a state of the tree of `s` is a better root.
fn is_beaten(grove: &Grove, counts: &ByteCounts<'_>, s: StateNo) -> bool
    requires inside { s.0 < (meant counts.now.automaton).states }
    ensures { result ≡ beaten_in grove.now.labels (meant counts.now.automaton) s.0 }
{
    (0..counts.states()).any(|t| is_better(grove, counts, StateNo(t), s))
}

// Places the roots, and no other state yet.
fn roots(grove: &Grove, counts: &ByteCounts<'_>) -> [Option<Place>; MOST_STATES]
    ensures { let a = meant counts.now.automaton in
        (s : ℕ) → s < a.states → slice_index_or result s None ≡ (if beaten_in grove.now.labels a s then None else Some root_place) }
{
    let mut places = [None; MOST_STATES];
    // The number of a place is the state that is asked about.
    for (s, place) in places[..counts.states() as usize].iter_mut().enumerate() {
        *place = (!is_beaten(grove, counts, StateNo(s as u16))).then_some(Place {
            depth: 0,
            parent: None,
        });
    }
    places
}

// The place of each state of an automaton in its trees.
pub(crate) fn places(grove: &Grove, counts: &ByteCounts<'_>) -> ArrayVec<Place, MOST_STATES>
    requires grown { trees_in grove.now ≡ trees_of (meant counts.now.automaton) }
    ensures { AllInPlace (meant counts.now.automaton) result.items }
{
    let mut places = roots(grove, counts);
    // A round is known by its number alone.
    for r in 0..counts.states() {
        place_round(grove, r, &mut places);
    }
    each_state(counts.states(), |s| places[usize::from(s)].unwrap())
}
