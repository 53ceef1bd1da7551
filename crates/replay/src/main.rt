//! Runs a script of keys through the line editor, and prints what became of the line.
#![tactic(auto)]

use line_screen::Plain;
use line_script::{Script, play};
use std::io;
use std::process::ExitCode;

fn main(rt: HostRuntime) -> ExitCode {
    let mut errors = rt.stderr();
    ExitCode::from(play(rt.alloc(), rt.reader(), &mut io::writer(&rt), &mut errors))
}
