//! Hostile use, as tables of cases, and lists of keys that are made from a number.

pub(crate) mod bench;
mod commands;
mod cuts;
mod every;
mod handler;
mod mended;
mod movements;
mod random;
