#![tactic(auto)]

mod codes;
mod item;
pub mod listed;
mod raw;
pub mod reader;
mod rules;
pub mod writer;
