//! Automata written as automaton files.
#![tactic(auto)]

mod record;
pub mod write;
