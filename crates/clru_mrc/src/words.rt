//! What the arguments ask for. Those of the input are taken out here; all others are read by `command_of`.

use crate::split::{budget_of, no_budget};
use crate::wrong;
use clru_shares::{SplitOptions, split_options_of};
use clru_text::{Command, HELP, Options, Refusal, VERSION, command_of};
use std::env;
use std::io::ErrorKind;
use std::num::NonZeroUsize;

// What `--help` prints of files, which this program alone reads.
const FILES: &str = "
Files
    FILE ..      are read in this order, each up to its end, in place of
                 standard input, which - names; behind -- each argument is one;
                 one that cannot be read is named, with status 4

An option may have its value behind =, as in --at=5,10.
";

/// What is to be done.
#[derive(Drop)]
pub(crate) enum Task {
    // These, one behind the other.
    Print(&'static str, &'static str),
    Report(Options),
    Split(SplitOptions),
}

/// What the arguments ask for.
#[derive(Drop)]
pub(crate) struct Asked {
    pub(crate) task: Task,
    /// The files to read. There is one at least.
    pub(crate) paths: Vec<String>,
    /// Whether how far the input is read is shown.
    pub(crate) progress: bool,
}

// What a word is to be.
#[derive(Clone, Copy)]
enum Next {
    Any,
    // The value of the report's option before it.
    Value,
    Budget,
    // A file, whatever it begins with.
    Path,
    // It is not read.
    None,
}

// The arguments, taken apart.
#[derive(Drop)]
struct Words {
    // Those of the report.
    report: Vec<String>,
    paths: Vec<String>,
    budget: Option<NonZeroUsize>,
    progress: bool,
    next: Next,
}

/// Reads the arguments.
pub(crate) fn parse_args(rt: &HostRuntime) -> Result<Asked, Refusal> {
    match env::args(rt) {
        Ok(words) => {
            let mut apart = Words::new(rt);
            for word in words.skip(1) {
                apart.take(rt, word)?;
            }
            apart.end(rt)
        }
        Err(error) if error.kind() == ErrorKind::OutOfMemory => Err(Refusal::Memory),
        Err(_) => Err(wrong(
            rt,
            "an argument is no UTF-8 text: clru_mrc --help names them",
        )),
    }
}

impl Words {
    fn new(rt: &HostRuntime) -> Words {
        Words {
            report: Vec::new(rt.alloc()),
            paths: Vec::new(rt.alloc()),
            budget: None,
            progress: false,
            next: Next::Any,
        }
    }

    // One more word. An option may have its value behind `=`.
    fn take(&mut self, rt: &HostRuntime, word: String) -> Result<(), Refusal> {
        if let (Next::Any, Some((option, value))) = (self.next, word.split_once('=')) {
            if option == "--split" || has_value(option) {
                self.take_one(rt, text_of(rt, option)?)?;
                return self.take_one(rt, text_of(rt, value)?);
            }
        }
        self.take_one(rt, word)
    }

    fn take_one(&mut self, rt: &HostRuntime, word: String) -> Result<(), Refusal> {
        match self.next {
            Next::Any => return self.take_any(word),
            Next::Value => push(&mut self.report, word)?,
            Next::Budget => self.budget = Some(budget_of(rt, word.as_str())?),
            Next::Path => return push(&mut self.paths, word),
            Next::None => return Ok(()),
        }
        self.next = Next::Any;
        Ok(())
    }

    fn take_any(&mut self, word: String) -> Result<(), Refusal> {
        let option = word.as_str();
        match option {
            "--progress" => self.progress = true,
            "--split" => self.next = Next::Budget,
            "--" => self.next = Next::Path,
            "-" => return push(&mut self.paths, word),
            "-h" | "--help" | "-V" | "--version" => {
                self.next = Next::None;
                return push(&mut self.report, word);
            }
            _ if !option.starts_with('-') => return push(&mut self.paths, word),
            _ => {
                if has_value(option) {
                    self.next = Next::Value;
                }
                return push(&mut self.report, word);
            }
        }
        Ok(())
    }

    // There are no more words.
    fn end(self, rt: &HostRuntime) -> Result<Asked, Refusal> {
        let Words {
            report,
            mut paths,
            budget,
            progress,
            next,
        } = self;
        let command = command_of(rt.alloc(), &report)?;
        if let Next::Budget = next {
            return Err(no_budget(rt, ""));
        }
        let task = match command {
            Command::Help => Task::Print(HELP, FILES),
            Command::Version => Task::Print(VERSION, ""),
            Command::Report(options) => match budget {
                Some(budget) => split_asked(rt, budget, &options)?,
                None => Task::Report(options),
            },
        };
        if paths.is_empty() {
            push(&mut paths, text_of(rt, "-")?)?;
        }
        Ok(Asked {
            task,
            paths,
            progress,
        })
    }
}

fn push(words: &mut Vec<String>, word: String) -> Result<(), Refusal> {
    match words.push(word) {
        Ok(()) => Ok(()),
        Err(_) => Err(Refusal::Memory),
    }
}

fn text_of(rt: &HostRuntime, word: &str) -> Result<String, Refusal> {
    match String::from_str(rt.alloc(), word) {
        Ok(text) => Ok(text),
        Err(_) => Err(Refusal::Memory),
    }
}

// Whether the report's option has a value behind it.
fn has_value(option: &str) -> bool {
    matches!(
        option,
        "--at"
            | "--hit-ratio"
            | "--byte-hit-ratio"
            | "--sample"
            | "--sampled"
            | "--requests"
            | "--after"
            | "--title"
            | "--unit"
            | "--from"
            | "--to"
            | "--max-idle"
            | "--max-age"
    )
}

fn split_asked(rt: &HostRuntime, budget: NonZeroUsize, options: &Options) -> Result<Task, Refusal> {
    match split_options_of(budget, options) {
        Ok(options) => Ok(Task::Split(options)),
        Err(line) => Err(wrong(rt, line)),
    }
}
