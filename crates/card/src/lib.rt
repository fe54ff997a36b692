#![tactic(auto)]

pub mod list;
pub mod rules;
pub mod tandem;
