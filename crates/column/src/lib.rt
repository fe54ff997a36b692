#![tactic(auto)]

// The column card: a lookup card made of bitmaps.
mod bitmaps;
pub mod columns;
