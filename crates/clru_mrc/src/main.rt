//! Reports what an LRU cache of each capacity misses on a list of requests.
#![tactic(auto)]

mod files;
mod lines;
mod ratio;
mod several;
mod sized;
mod split;
mod votes;
mod watch;
mod words;
mod written;

use clru_report::run;
use clru_text::{Fault, Options, Refusal, Seed, exit_status, write_report};
use files::InputFiles;
use split::split_budget;
use std::io::IsTerminal;
use std::process::ExitCode;
use watch::Watch;
use words::{Asked, Task, parse_args};
use written::Written;

fn main(rt: HostRuntime) -> ExitCode {
    ExitCode::from(match parse_args(&rt) {
        Ok(asked) => run_task(&rt, &asked),
        Err(Refusal::Wrong(line)) => {
            say(&rt, &line);
            2
        }
        Err(Refusal::Memory) => report_outcome(&rt, &Err(Fault::Memory), ""),
    })
}

// The line of a refusal.
pub(crate) fn wrong(rt: &HostRuntime, line: &str) -> Refusal {
    match String::from_str(rt.alloc(), line) {
        Ok(line) => Refusal::Wrong(line),
        Err(_) => Refusal::Memory,
    }
}

// Does it, and gives the exit status.
fn run_task(rt: &HostRuntime, asked: &Asked) -> u8 {
    if let Task::Print(text, more) = &asked.task {
        let outcome = match write_report(&mut rt.stdout(), text.as_bytes()) {
            Ok(()) => write_report(&mut rt.stdout(), more.as_bytes()),
            fault => fault,
        };
        return report_outcome(rt, &outcome, "");
    }
    let mut files = InputFiles::new(rt, &asked.paths);
    if !files.are_there() {
        files.tell_trouble();
        return 4;
    }
    let Some(seed) = seed_of(rt) else {
        return 4;
    };
    files.tell_terminal();
    match &asked.task {
        Task::Report(options) => {
            // A terminal sees how far the input is read, and so does who asks.
            let progress = asked.progress || rt.stderr().is_terminal();
            run_report(rt, options, files, progress, seed)
        }
        Task::Split(options) => split_budget(rt, *options, files, seed),
        Task::Print(_, _) => 0,
    }
}

// The seed for hashes, or else a line that says that there is none.
fn seed_of(rt: &HostRuntime) -> Option<Seed> {
    match Seed::new(rt) {
        Ok(seed) => Some(seed),
        Err(_) => {
            say(rt, "the system gives no random bytes, so there is no seed");
            None
        }
    }
}

// Writes the report, tells what of its input looks wrong, and gives the exit status.
fn run_report(
    rt: &HostRuntime,
    options: &Options,
    files: InputFiles<'_>,
    progress: bool,
    seed: Seed,
) -> u8 {
    let name = files.name();
    let mut input = Watch::new(rt, files, name, progress, options, seed);
    let mut output = Written::new(rt, rt.stdout());
    let outcome = run(rt.alloc(), options, &mut input, &mut output, seed);
    let line = match outcome {
        Ok(()) => {
            input.warn(output.last_misses(), options);
            input.warn_of_ratio(output.last_row(options.sizes), options);
            None
        }
        Err(Fault::NoSize(number)) => input.say_line(number, options),
        Err(_) => None,
    };
    let more = match &line {
        Some(line) => line.as_str(),
        None => "",
    };
    match outcome {
        Err(Fault::NoSize(number)) if options.times.is_some() && options.sizes => {
            let _ = eprintln!(rt;
                "clru_mrc: line {number} has no time and size: with --times --sizes each begins with both, as in 1700000000.123 512 /index.html{more}"
            );
            exit_status(&outcome)
        }
        Err(Fault::NoSize(number)) if options.times.is_some() => {
            let _ = eprintln!(rt;
                "clru_mrc: line {number} has no time: with --times each begins with one and a blank, as in 1700000000.123 /index.html{more}"
            );
            exit_status(&outcome)
        }
        Err(Fault::Reading) => {
            input.inner().tell_trouble();
            exit_status(&outcome)
        }
        _ => report_outcome(rt, &outcome, more),
    }
}

// Tells of a fault, but for a pipe that was closed, and gives the exit status.
fn report_outcome(rt: &HostRuntime, outcome: &Result<(), Fault>, more: &str) -> u8 {
    match outcome {
        Err(fault) if *fault != Fault::Closed => {
            let fault = *fault;
            let _ = eprintln!(rt; "clru_mrc: {fault}{more}");
        }
        _ => {}
    }
    exit_status(outcome)
}

fn say(rt: &HostRuntime, line: &str) {
    let _ = eprintln!(rt; "clru_mrc: {line}");
}
