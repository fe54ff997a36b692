#![tactic(auto)]

//! Whole runs of calls of a scanner over two lent cards, and the call that carries the whole guarantee for two bytes in one
//! search.
pub mod commission;
pub mod laws;
pub mod run;
pub mod words;
