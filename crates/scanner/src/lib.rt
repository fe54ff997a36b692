#![tactic(auto)]

pub mod loading;
pub mod scanner;
pub mod walk;
