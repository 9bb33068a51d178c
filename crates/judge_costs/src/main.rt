//! The program `judge_costs`: has the judge of races judge copies, to show what that costs.
//!
//! usage: judge_costs scope|history|wide N
#![tactic(auto)]

mod cases;
mod worlds;

use crate::cases::{Case, clean_events, named};
use dx_base::Memory;
use std::process::ExitCode;
use std::{env, io};

/// The words behind the program's name. OutOfMemory: memory was refused. Any other error: an argument is no text.
fn words(rt: &HostRuntime) -> io::Result<Vec<String>> {
    let mut arguments = env::args(rt)?;
    let _name = arguments.next();
    Ok(arguments.collect(rt.alloc())?)
}

/// The case and the count of two words.
fn asked(words: &[String]) -> Option<(Case, u32)> {
    if words.len() != 2 {
        return None;
    }
    match words[1].as_str().parse::<u32>() {
        Ok(count) => named(words[0].as_str(), count),
        Err(_) => None,
    }
}

/// Says how many events break nothing; the exit status.
fn say(rt: &HostRuntime, case: Case, count: u32) -> io::Result<u8> {
    match clean_events(rt.alloc(), case, count) {
        Ok(Some(clean)) => {
            println!(rt; "{clean} events are clean")?;
            Ok(0)
        }
        Ok(None) => {
            println!(rt; "no world for a judge")?;
            Ok(65)
        }
        Err(Memory) => {
            println!(rt; "memory was refused")?;
            Ok(70)
        }
    }
}

/// The exit status.
fn run(rt: &HostRuntime) -> io::Result<u8> {
    let words = words(rt)?;
    match asked(words.as_slice()) {
        Some((case, count)) => say(rt, case, count),
        None => {
            println!(rt; "usage: judge_costs scope|history|wide N")?;
            Ok(64)
        }
    }
}

fn main(rt: HostRuntime) -> ExitCode {
    match run(&rt) {
        Ok(status) => ExitCode::from(status),
        Err(_) => ExitCode::from(74),
    }
}
