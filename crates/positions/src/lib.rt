//! From the tokens of patterns to their positions: which may be read first, last and after
//! another.
#![tactic(auto)]

pub mod build;
pub mod groups;
pub mod measure;
pub mod parse;
pub mod part;
pub mod set;
pub mod tables;
