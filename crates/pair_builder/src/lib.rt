#![tactic(auto)]

//! The builder of the two-byte table image of an automaton.
pub mod build;
mod entries;
mod filling;
pub mod law;
mod places;
mod planned;
mod rows;
