#![tactic(auto)]

//! A gateway: sixty-four coaches, whose bytes are marked by turns over one loaded image on one card.
//!
//! - [`gateway`]: the five calls, `load`, `open`, `post`, `turn` and `close`, each with its exact answer and with all that
//!   it leaves.
//! - [`session`]: the record that a gateway keeps of a coach.
//! - [`laws`]: what holds of any series of these calls: each coach's marks are the loaded automaton's own over its own
//!   bytes, and a coach that waits is served within 64 turns that are not refused.
//! - [`run`]: any list of calls on a new gateway, with their answers.
//! - [`words`]: the numbers of a gateway, and calls and answers as values.
//!
//! An owner loads a gateway once, opens coaches, posts where their bytes lie as these come in, and turns:
//!
//! ```text
//! let mut gateway = Gateway::new(card);
//! gateway.load(automaton, image)?;
//! gateway.open(7)?;
//! gateway.post(7, 0, 300)?; // the bytes 0 to 299 of the receive buffer wait for coach 7
//! while let Some(served) = gateway.turn(buffer, &mut marks, 256)? {
//!     // 256 bytes of coach 7 are taken, then 44: served.walk has what was marked
//! }
//! ```
pub mod gateway;
pub mod laws;
pub mod run;
pub mod session;
pub mod words;
