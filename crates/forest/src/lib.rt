#![tactic(auto)]

mod codes;
mod deferment;
mod joining;
mod placing;
pub mod plan;
mod sharing;
