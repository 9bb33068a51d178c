//! The program `lower_costs`: lowers lists of copies and barriers and fills their layouts, to show what that costs.
//!
//! usage: lower_costs list|among|only N
#![tactic(auto)]

mod cases;
mod lists;

use crate::cases::{Case, filled_commands, named};
use dx_base::Memory;
use std::process::ExitCode;
use std::{env, io};

/// The words behind the program's name. OutOfMemory: memory was refused. Any other error: an argument is no text.
fn words(rt: &HostRuntime) -> io::Result<Vec<String>> {
    let mut arguments = env::args(rt)?;
    let _name = arguments.next();
    Ok(arguments.collect(rt.alloc())?)
}

/// The case of two words.
fn asked(words: &[String]) -> Option<Case> {
    if words.len() != 2 {
        return None;
    }
    match words[1].as_str().parse::<u32>() {
        Ok(count) => named(words[0].as_str(), count),
        Err(_) => None,
    }
}

/// Says how many commands a list gives; the exit status.
fn say(rt: &HostRuntime, case: Case) -> io::Result<u8> {
    match filled_commands(rt.alloc(), case) {
        Ok(commands) => {
            println!(rt; "{commands} commands")?;
            Ok(0)
        }
        Err(Memory) => {
            println!(rt; "memory was refused")?;
            Ok(70)
        }
    }
}

/// The exit status.
fn run(rt: &HostRuntime) -> io::Result<u8> {
    let words = words(rt)?;
    match asked(words.as_slice()) {
        Some(case) => say(rt, case),
        None => {
            println!(rt; "usage: lower_costs list|among|only N")?;
            Ok(64)
        }
    }
}

fn main(rt: HostRuntime) -> ExitCode {
    match run(&rt) {
        Ok(status) => ExitCode::from(status),
        Err(_) => ExitCode::from(74),
    }
}
