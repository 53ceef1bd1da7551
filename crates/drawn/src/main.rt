//! Runs a script of keys through the line editor on a terminal, and prints after each turn the
//! bytes that were written, and where the terminal is to show what. `tests/terminal/` hands the
//! bytes to terminals that others wrote.
#![tactic(auto)]

mod cells;
mod printed;
mod turns;

use std::io;
use std::process::ExitCode;
use turns::play;

fn main(rt: HostRuntime) -> ExitCode {
    match play(rt.alloc(), rt.reader(), &mut io::writer(&rt)) {
        Ok(()) => ExitCode::SUCCESS,
        Err(_) => ExitCode::from(3),
    }
}
