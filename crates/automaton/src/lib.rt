#![tactic(auto)]

pub mod file;
pub mod limits;
pub mod sound;
pub mod words;
