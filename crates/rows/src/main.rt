//! Reads cases of keys from standard input, a name, a script and what is wanted of it, and prints
//! each that differs.
#![tactic(auto)]

mod bench;
mod file;
mod report;
mod setup;

use file::play;
use std::io;
use std::process::ExitCode;

fn main(rt: HostRuntime) -> ExitCode {
    ExitCode::from(play(rt.alloc(), rt.reader(), &mut io::writer(&rt)))
}
