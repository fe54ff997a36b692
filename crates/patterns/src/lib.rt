//! Patterns of bytes and their automaton.
#![tactic(auto)]

ghost use Rattle.patterns.specs.Laws.{PositionsStand, StepsStand, EndsStand, ClassesStand, SetsStand, AutomatonStands};

/// The computed set of positions has just those that a match begun anywhere in the input may have
/// read last.
pub fn positions_stand()
    ensures { PositionsStand }
{}

/// A step reads just the first and the following positions whose class holds the byte.
pub fn steps_stand()
    ensures { StepsStand }
{}

/// A word ends where the set has a last position.
pub fn ends_stand()
    ensures { EndsStand }
{}

/// The class of the set is the lowest pattern with a word that ends where the input ends.
pub fn classes_stand()
    ensures { ClassesStand }
{}

/// The sets found are distinct, and each is reached by an input.
pub fn sets_stand()
    ensures { SetsStand }
{}

/// With at most 512 sets, the automaton follows every input: its state has the set of last-read
/// positions and the class of the input.
pub fn automaton_stands()
    ensures { AutomatonStands }
{}
