//! Reads a line from a terminal.
#![tactic(auto)]

mod begun;
pub mod completing;
pub mod editor;
pub mod iter;
pub mod laws;
pub mod listing;
mod modal;
pub mod mode;
pub mod searching;
mod setup;
mod turns;
