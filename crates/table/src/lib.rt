#![tactic(auto)]

// Automata and their table images: when an image carries its automaton, and both as they are filed.
pub mod check;
pub mod filing;
