//! Reads calls of the lower libraries from standard input, one a line with what it is to give, and
//! prints each that gives something else.
#![tactic(auto)]

mod asked;
mod buffer;
mod caller;
mod file;
mod history;
mod moves;
mod report;
mod ring;
mod settings;
mod values;

use file::play;
use std::io;
use std::process::ExitCode;

fn main(rt: HostRuntime) -> ExitCode {
    ExitCode::from(play(rt.alloc(), rt.reader(), &mut io::writer(&rt)))
}
