#![tactic(auto)]

// What is measured beside plain Rust: calls of the library, exported for a program that is not Rattle. This crate is there
// for measuring alone.
mod calls;
mod compiling;
mod feeds;
mod pair_calls;
mod pair_feeds;
mod searches;
mod states;
mod turns;
