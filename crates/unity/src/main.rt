//! Reads standard input and writes standard output, as the words after the program's name say.
#![tactic(auto)]

use std::env;
use std::io::ErrorKind;
use std::process::ExitCode;
use unity_cli::{Status, exit_for};

/// The exit where the runtime names a cause other than memory for not giving the words.
const NO_WORDS: u8 = 11;

fn main(rt: HostRuntime) -> ExitCode {
    let words = match env::args(&rt) {
        Ok(words) => words,
        Err(e) => {
            return match e.kind() {
                ErrorKind::OutOfMemory => ExitCode::from(Status::WantOfMemory.number()),
                _ => ExitCode::from(NO_WORDS),
            };
        }
    };
    let Ok(words) = words.skip(1).collect::<Vec<String>>(rt.alloc()) else {
        return ExitCode::from(Status::WantOfMemory.number());
    };
    exit_for(rt.alloc(), &words, rt.stdin(), rt.stdout())
}
