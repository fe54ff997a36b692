#![tactic(auto)]

//! The two-byte table: its entries, its first match, and the list card that holds it.
pub mod list;
pub mod pair;
pub mod stride;
