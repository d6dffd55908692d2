//! One budget for several caches: the word that follows `--split`, and its run.

use crate::files::InputFiles;
use crate::lines::quoted;
use crate::wrong;
use clru_shares::{SplitFault, SplitOptions, run_split, split_status};
use clru_text::{Fault, Refusal, Seed, number_of_word};
use std::num::NonZeroUsize;

/// The budget that a word names.
pub(crate) fn budget_of(rt: &HostRuntime, word: &str) -> Result<NonZeroUsize, Refusal> {
    match number_of_word(word) {
        Some(budget) => Ok(budget),
        None => Err(no_budget(rt, word)),
    }
}

/// The word after `--split` names no budget, often because of a comma.
pub(crate) fn no_budget(rt: &HostRuntime, word: &str) -> Refusal {
    if word.contains(',') {
        wrong(
            rt,
            "--split does not understand the comma in its budget: write --split 10000, or with --sizes --split 2GB",
        )
    } else {
        wrong(
            rt,
            "--split wants a budget: write --split 10000, or with --sizes --split 2GB",
        )
    }
}

/// Writes how the budget is split, and gives the exit status.
pub(crate) fn split_budget(
    rt: &HostRuntime,
    options: SplitOptions,
    mut files: InputFiles<'_>,
    seed: Seed,
) -> u8 {
    let mut beginning = Vec::new(rt.alloc());
    let outcome = run_split(
        rt.alloc(),
        options,
        &mut files,
        &mut rt.stdout(),
        seed,
        &mut beginning,
    );
    match &outcome {
        Ok(()) | Err(SplitFault::Other(Fault::Closed)) => {}
        Err(SplitFault::Other(Fault::Reading)) => files.tell_trouble(),
        Err(fault) => tell_fault(rt, *fault, &beginning),
    }
    split_status(&outcome)
}

fn tell_fault(rt: &HostRuntime, fault: SplitFault, beginning: &[u8]) {
    let line = it_begins(rt, fault, beginning);
    let more = match &line {
        Some(line) => line.as_str(),
        None => "",
    };
    let _ = eprintln!(rt; "clru_mrc: {fault}{more}");
}

// How the line begins that a fault names, or which class it is.
fn it_begins(rt: &HostRuntime, fault: SplitFault, beginning: &[u8]) -> Option<String> {
    let what = match fault {
        SplitFault::NoTime(_)
        | SplitFault::NoClass(_)
        | SplitFault::TooManyClasses(_)
        | SplitFault::NoSize(_) => "it begins",
        SplitFault::NoRoom(_) => "the class is",
        SplitFault::TooLarge | SplitFault::Other(_) => return None,
    };
    let shown = quoted(rt, beginning).ok()?;
    format!(in rt.alloc(); ": {what} {shown}").ok()
}
