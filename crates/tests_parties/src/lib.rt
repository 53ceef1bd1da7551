//! Those who are asked in the tests: a helper whose answers are set beforehand, and a history of
//! which a call can fail; and by which errors they fail.
#![tactic(auto)]

pub mod advisor;
pub mod countdown;
pub mod fault;
pub mod guide;
pub mod pieces;
pub mod shelf;
pub mod source;
