//! The successors and the classes of the states, into buffers.
ghost use Rattle.std.specs.Prelude.{◌≡◌, ◌*◌, ◌<◌, ◌≤◌, List, length};
ghost use Rattle.patterns.specs.Language.{Regex};
ghost use Rattle.patterns.specs.Patterns.{total};
ghost use Rattle.patterns.specs.Subsets.{automaton_of, states_of};
ghost use Rattle.fields.specs.Fields.{written};
ghost use Rattle.positions.specs.Patterns.{ArePositions};
ghost use Rattle.subsets.specs.Index.{IsIndexed};
ghost use Rattle.subsets.specs.States.{AreStates};
ghost use Rattle.compiler.specs.Filled.{row_of, rows as rows_of, classes as classes_of};

use positions::build::Positions;
use positions::set::Set;
use subsets::next::{class_of, reach, step};
use subsets::states::States;
use ternary::words::StateNo;

/// The successors of a state.
fn row(p: &Positions, states: &States, s: usize) -> [StateNo; 256]
    requires inside { s < states.now.count }
    requires indexed { IsIndexed states.now }
    ensures { (rs : List Regex) → total rs ≤ 256 → ArePositions p.now rs
        → AreStates states.now rs (states_of rs) → result ≡ row_of (automaton_of rs) s }
{
    let reached = reach(p, &states.sets[s]);
    let mut row = [StateNo(0); 256];
    for b in 0..256usize {
        let to = states.find(&step(p, &reached, b));
        row[b] = StateNo(to as u16);
    }
    row
}

/// Writes the successors and the classes of the states.
pub(crate) fn fill(p: &Positions, states: &States, successors: &mut [StateNo], classes: &mut [u8])
    requires patterns { p.now.count ≤ 32 }
    requires indexed { IsIndexed states.now }
    requires rows { 256 * states.now.count ≤ length successors.old }
    requires marks { states.now.count ≤ length classes.old }
    ensures rows { (rs : List Regex) → total rs ≤ 256 → ArePositions p.now rs
        → AreStates states.now rs (states_of rs)
        → successors.new ≡ written successors.old 0 (rows_of (automaton_of rs)) }
    ensures marks { (rs : List Regex) → total rs ≤ 256 → ArePositions p.now rs
        → AreStates states.now rs (states_of rs)
        → classes.new ≡ written classes.old 0 (classes_of (automaton_of rs)) }
{
    for s in 0..states.count {
        let at = 256 * s;
        successors[at..at + 256].copy_from_slice(&row(p, states, s));
        classes[s] = class_of(p, &states.sets[s]);
    }
}
