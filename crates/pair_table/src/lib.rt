#![tactic(auto)]

//! Automata and their two-byte table images: when an image carries its automaton.
pub mod check;
