#![tactic(auto)]

pub mod commission;
pub mod run;
pub mod words;
