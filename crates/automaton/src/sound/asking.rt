// What is asked of an automaton that keeps its limits.
ghost use Rattle.std.specs.Prelude.{◌≡◌, ℕ, ◌+◌, ◌*◌, ◌<◌, slice_index_or, slice_range};
ghost use Rattle.automaton.specs.Limits.{handed};
ghost use Rattle.automaton.specs.Sound.{meant};

use crate::sound::SoundAutomaton;
use ternary::words::StateNo;

impl<'a> SoundAutomaton<'a> {
    // How many states there are.
    pub fn states(&self) -> u16
        ensures { result ≡ (meant self.now).states }
    {
        self.automaton.states
    }

    // The start state.
    pub fn start(&self) -> StateNo
        ensures { result.0 ≡ (meant self.now).start }
    {
        self.automaton.start
    }

    // The successor of a state on a byte; state 0 for a number that no state has.
    pub fn next(&self, state: StateNo, byte: u8) -> StateNo
        ensures value { result.0 ≡ (meant self.now).next state.0 byte }
        ensures below { result.0 < (meant self.now).states }
    {
        let place = 256 * usize::from(state) + byte as usize;
        let successor = self.automaton.successors.get(place);
        successor.copied().unwrap_or_default()
    }

    // The successors of a state, byte by byte; none for a number that no state has.
    fn row(&self, state: StateNo) -> &'a [StateNo]
        ensures { result.now ≡ slice_range (handed self.now.automaton).successors (256 * state.0) (256 * state.0 + 256) }
    {
        let start = 256 * usize::from(state);
        let row = self.automaton.successors.get(start..start + 256);
        row.unwrap_or(&[])
    }

    // The successors of a state as an array; state 0 throughout for a number that no state has.
    pub fn successors(&self, state: StateNo) -> &'a [StateNo; 256]
        ensures each { (byte : ℕ) → byte < 256 → slice_index_or result.now byte (record { 0 = 0 }) ≡ record { 0 = (meant self.now).next state.0 byte } }
        ensures row { state.0 < (meant self.now).states → result.now ≡ slice_range (handed self.now.automaton).successors (256 * state.0) (256 * state.0 + 256) }
    {
        let row = self.row(state).first_chunk();
        row.unwrap_or(&[StateNo(0); 256])
    }

    // The class of a state; no mark for a number that no state has.
    pub fn class(&self, state: StateNo) -> u8
        ensures { result ≡ (meant self.now).class state.0 }
    {
        let class = self.automaton.classes.get(usize::from(state));
        class.copied().unwrap_or(0)
    }
}
