#![tactic(auto)]

// The table image of an automaton.
pub mod build;
mod filling;
mod gathered;
mod places;
mod planned;
mod rows;
