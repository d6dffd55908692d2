//! Replays a list of requests through a cache of the given capacity, and reports which of them hit.
#![tactic(auto)]

mod fault;
mod program;
mod report;

use fault::status;
use program::run;
use std::process::ExitCode;

fn main(rt: HostRuntime) -> ExitCode {
    let number = match run(rt.alloc(), &mut rt.stdin(), &mut rt.stdout()) {
        Ok(()) => 0,
        Err(fault) => status(&fault),
    };
    ExitCode::from(number)
}

#[cfg(test)]
mod tests;
