#![tactic(auto)]

//! The walk over a piece with two bytes in one search, on a two-byte card and a one-byte card.
pub mod walk;
