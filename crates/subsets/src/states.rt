//! The states of the automaton, which are sets of positions.
ghost use Rattle.std.specs.Prelude.{◌≡◌, ◌+◌, ◌∷◌, [], ◌++◌, ◌<◌, ◌≤◌, ℕ, List, true, false, length, IfNone, IfSome};
ghost use Rattle.patterns.specs.Language.{Regex};
ghost use Rattle.patterns.specs.Patterns.{Flags, none, total};
ghost use Rattle.patterns.specs.Subsets.{number, enter, turn, states_of};
ghost use Rattle.syntax.specs.Compile.{too_many};
ghost use Rattle.positions.specs.Tables.{set_at};
ghost use Rattle.positions.specs.Patterns.{ArePositions};

use crate::bucket::bucket;
use crate::next::{reach, step};
use positions::build::Positions;
use positions::set::Set;

/// The sets of the states, in the order in which they were found, and an index over them: for each
/// bucket its newest state, and for each state the next older one of its bucket, each one higher, and 0
/// for none.
#[derive(Clone, Copy)]
pub struct States {
    pub sets: [Set; 512],
    pub count: usize,
    newest: [u16; 512],
    older: [u16; 512],
}

impl States {
    ghost use Rattle.subsets.specs.Index.{IsIndexed};
    ghost use Rattle.subsets.specs.States.{AreStates, IsWithin, flags_of};

    /// The empty set alone.
    pub fn new() -> States
        ensures indexed { IsIndexed result }
        ensures some { result.count ≡ 1 }
        ensures states { (rs : List Regex) → AreStates result rs (none rs ∷ []) }
    {
        let none = Set::empty();
        let mut states = States {
            sets: [none; 512],
            count: 0,
            newest: [0; 512],
            older: [0; 512],
        };
        states.push(&none);
        states
    }

    /// The number of a set among the states, and how many they are if it is not there.
    pub fn find(&self, set: &Set) -> usize
        requires { IsIndexed self.now }
        ensures low { result ≤ self.now.count }
        ensures absent { result ≡ self.now.count
            → (k : ℕ) → k < self.now.count → set_at self.now.sets k ≡ set.now → ⊥ }
        ensures number { (rs : List Regex) (ss : List Flags) → AreStates self.now rs ss
            → IsWithin rs set.now → result ≡ number (flags_of rs set.now) ss }
    {
        let mut next = self.newest[bucket(set)] as usize;
        while next > 0 {
            let place = next - 1;
            if self.sets[place].is_same(set) {
                return place;
            }
            next = self.older[place] as usize;
        }
        self.count
    }

    /// Makes a set that is not among the states the last of them.
    fn push(&mut self, set: &Set)
        requires room { self.old.count < 512 }
        requires indexed { IsIndexed self.old }
        requires absent { (k : ℕ) → k < self.old.count → set_at self.old.sets k ≡ set.now → ⊥ }
        ensures count { self.new.count ≡ self.old.count + 1 }
        ensures indexed { IsIndexed self.new }
        ensures states { (rs : List Regex) (ss : List Flags) → AreStates self.old rs ss
            → IsWithin rs set.now → AreStates self.new rs (ss ++ (flags_of rs set.now ∷ [])) }
    {
        let place = self.count;
        let bucket = bucket(set);
        self.older[place] = self.newest[bucket];
        self.newest[bucket] = place as u16 + 1;
        self.sets[place] = *set;
        self.count = place + 1;
    }

    /// Makes a set the last of the states if it is not among them, where there is room.
    pub fn enter(&mut self, set: &Set) -> bool
        requires { IsIndexed self.old }
        ensures indexed { IsIndexed self.new }
        ensures entered { result ≡ true → (rs : List Regex) (ss : List Flags) → AreStates self.old rs ss
            → IsWithin rs set.now → AreStates self.new rs (enter ss (flags_of rs set.now)) }
        ensures full { result ≡ false → (rs : List Regex) (ss : List Flags) → AreStates self.old rs ss
            → IsWithin rs set.now → 512 < length (enter ss (flags_of rs set.now)) }
    {
        let place = self.find(set);
        if place < self.count {
            return true;
        }
        if self.count == 512 {
            return false;
        }
        self.push(set);
        true
    }

    /// The turn of a state: enters the sets that its bytes lead to, where there is room.
    pub fn turn(&mut self, p: &Positions, m: usize) -> bool
        requires inside { m < self.old.count }
        requires indexed { IsIndexed self.old }
        ensures indexed { IsIndexed self.new }
        ensures turned { result ≡ true → (rs : List Regex) (ss : List Flags) → total rs ≤ 256
            → ArePositions p.now rs → AreStates self.old rs ss
            → AreStates self.new rs (turn rs ss m) }
        ensures full { result ≡ false → (rs : List Regex) (ss : List Flags) → total rs ≤ 256
            → ArePositions p.now rs → AreStates self.old rs ss → 512 < length (turn rs ss m) }
    {
        let reached = reach(p, &self.sets[m]);
        for b in 0..256usize {
            let set = step(p, &reached, b);
            if !self.enter(&set) {
                return false;
            }
        }
        true
    }
}

ghost use Rattle.subsets.specs.Index.{IsIndexed};
ghost use Rattle.subsets.specs.States.{AreStates};

/// The sets of positions that can be reached, if there are at most 512.
pub fn explore(p: &Positions) -> Option<States>
    ensures none { IfNone result ((rs : List Regex) → total rs ≤ 256 → ArePositions p.now rs
        → too_many rs ≡ true) }
    ensures indexed { IfSome result (λ st. IsIndexed st) }
    ensures some { IfSome result (λ st. (rs : List Regex) → total rs ≤ 256 → ArePositions p.now rs
        → AreStates st rs (states_of rs)) }
{
    let mut states = States::new();
    let mut m = 0;
    while m < states.count {
        if !states.turn(p, m) {
            return None;
        }
        m += 1;
    }
    Some(states)
}
