// Joining states that share bytes into trees, in the order of the rule.
ghost use Rattle.std.specs.Prelude.{◌≡◌, ℕ, ◌<◌, ◌≤◌, length, Decides, if◌then◌else◌, ◌==◌};
ghost use Rattle.std.specs.List.{AllByRecursion};
ghost use Rattle.forest.specs.Labels.{label, Numbered};

use crate::sharing::ByteCounts;
use std::array;
use ternary::words::{MOST_STATES, StateNo};

// Two states that are joined.
#[derive(Clone, Copy)]
pub(crate) struct Join {
    pub(crate) low: StateNo,
    pub(crate) high: StateNo,
}

// The trees of the states so far, each numbered by one of its states, and the joins that made them. A join is kept at
// the number of the tree that it ended.
#[derive(Drop)]
pub(crate) struct Grove {
    pub(crate) labels: [StateNo; MOST_STATES],
    pub(crate) joins: [Option<Join>; MOST_STATES],
    ghost numbered: { Numbered labels joins },
}

impl Grove {
    ghost use Rattle.std.specs.Prelude.{◌+◌};
    ghost use Rattle.automaton.specs.Sound.{meant};
    ghost use Rattle.forest.specs.Deferment.{kruskal, pairs_of, pairs_below, trees_of, alone};
    ghost use Rattle.forest.specs.Joining.{turn, trees_in, OneTree};

    // At first each state is a tree of its own number, and nothing is joined.
    fn alone() -> Grove
        ensures { trees_in result ≡ alone }
    {
        Grove {
            labels: array::from_fn(|k| StateNo(k as u16)),
            joins: [None; MOST_STATES],
        }
    }

    // Joins two states, or passes them over if they stand in one tree.
    fn join(&mut self, low: StateNo, high: StateNo)
        requires inside { (low.0 < 512) × (high.0 < 512) }
        ensures { trees_in self.new ≡ turn (trees_in self.old) (low.0, high.0) }
    {
        let to = self.labels[usize::from(low)];
        let ended = self.labels[usize::from(high)];
        if ended != to {
            relabel(&mut self.labels, ended, to);
            self.joins[usize::from(ended)] = Some(Join { low, high });
        }
    }

    // Joins the state `s` with each larger state that it shares so many bytes with, lower ones first.
    fn join_row(&mut self, counts: &ByteCounts<'_>, shared: u32, s: StateNo)
        requires inside { s.0 < (meant counts.now.automaton).states }
        ensures { let a = meant counts.now.automaton in
            trees_in self.new ≡ kruskal (trees_in self.old) (pairs_of a shared s.0 a.states) }
    {
        // The numbers of two states ask for their count; no slice holds the states.
        for t in s.0 + 1..counts.states() {
            if counts.shared(s, StateNo(t)) == shared {
                self.join(s, StateNo(t));
            }
        }
    }

    // Joins the pairs that share so many bytes, the lower smaller state first, then the lower larger state.
    fn join_sharing(&mut self, counts: &ByteCounts<'_>, shared: u32)
        requires few { shared ≤ 256 }
        ensures { let a = meant counts.now.automaton in
            trees_in self.new ≡ kruskal (trees_in self.old) (pairs_below a shared a.states) }
    {
        if !counts.meets(shared) {
            return;
        }
        if self.is_one_tree(counts.states()) {
            return;
        }
        // States have no slice behind their numbers.
        for s in 0..counts.states() {
            self.join_row(counts, shared, StateNo(s));
        }
    }

    // Whether the states below a number stand in one tree, so that a pair of them is passed over.
    fn is_one_tree(&self, states: u16) -> bool
        requires few { states ≤ 512 }
        ensures { Decides result (OneTree (trees_in self.now) states) }
    {
        are_all(&self.labels[..usize::from(states)], self.labels[0])
    }

    // The trees of an automaton: joins the pairs that share 32 bytes or more, those that share more first.
    pub(crate) fn of(counts: &ByteCounts<'_>) -> Grove
        ensures { trees_in result ≡ trees_of (meant counts.now.automaton) }
    {
        let mut grove = Grove::alone();
        // A count is a number, and the larger come first.
        for shared in (32..=256).rev() {
            grove.join_sharing(counts, shared);
        }
        grove
    }
}

// Gives the number `to` to the states of the tree `ended`.
fn relabel(labels: &mut [StateNo], ended: StateNo, to: StateNo)
    ensures { (k : ℕ) → k < length labels.old → label labels.new k ≡ (if label labels.old k == ended.0 then to.0 else label labels.old k) }
{
    for label in labels.iter_mut() {
        if *label == ended {
            *label = to;
        }
    }
}

// Whether all of some numbers of trees are this one.
fn are_all(labels: &[StateNo], label: StateNo) -> bool
    ensures { Decides result (AllByRecursion (λ l. l.0 ≡ label.0) labels.now) }
{
    labels.iter().all(|other| *other == label)
}
