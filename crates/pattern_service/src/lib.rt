//! Patterns taken into service: from their texts to the marks of a stream.
#![tactic(auto)]

pub mod service;
