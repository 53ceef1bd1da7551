//! What a host in another language holds: a session over bytes, with bindings by names, words for
//! completion and a history as text.
#![tactic(auto)]

pub mod bound;
pub mod names;
pub mod pending;
pub mod pieces;
pub mod session;
pub mod settings;
pub mod status;
