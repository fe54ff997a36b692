#![tactic(auto)]

pub mod entry;
pub mod refusal;
pub mod words;
