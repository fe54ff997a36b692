#![tactic(auto)]

mod costs;
mod emit;
pub mod lists;
mod sets;
mod trees;
pub mod word;
