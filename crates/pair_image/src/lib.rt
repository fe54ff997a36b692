#![tactic(auto)]

//! The image of a two-byte table: its packer and its unpacker.
mod codes;
mod item;
pub mod listed;
mod raw;
pub mod reader;
mod rules;
pub mod writer;
