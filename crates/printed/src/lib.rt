#![tactic(auto)]

pub mod bits;
pub mod plans;
pub mod reading;
pub mod refused;
pub mod summary;
pub mod tables;
pub mod tabulating;
