#![tactic(auto)]

//! The scanner that takes two bytes in one search where it can. It owns no card: both are lent to its calls.
pub mod lent;
