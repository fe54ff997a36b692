//! From the tables of positions to the states of the automaton.
#![tactic(auto)]

mod bucket;
pub mod next;
pub mod states;
