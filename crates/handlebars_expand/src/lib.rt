//! What a rendering is given and what it passes on: registered and user-defined parts, errors in a word or two, the pieces
//! that are emitted or captured, and traces of outputs. Nothing is rendered here.
#![tactic(auto)]

pub mod ahead;
pub mod boxed;
pub mod called;
pub mod pieces;
pub mod registered;
pub mod trace;
pub mod user;
