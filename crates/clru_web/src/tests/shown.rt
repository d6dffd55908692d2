//! What `{:?}` prints of what the arguments ask for, and of a key.

use clru_text::{Command, Key, Refusal, command_of};
use ration::{equal, shows};
use std::alloc::Global;

#[test]
fn commands_and_refusals_print(rt: HostRuntime) {
    for (words, text) in [
        (["--help"].as_slice(), "Ok(Help)"),
        (
            &["--at=2,1", "--svg"],
            "Ok(Report(Options { capacities: Named([1, 2]), sizes: false, one_size: false, least: false, floor: false, sample: Whole, after: None, form: Picture, look: Look { title: None, unit: None, from: None, to: None }, times: None }))",
        ),
        (
            &["--sizes"],
            "Ok(Report(Options { capacities: Usual, sizes: true, one_size: false, least: false, floor: false, sample: Whole, after: None, form: Table, look: Look { title: None, unit: None, from: None, to: None }, times: None }))",
        ),
        (
            &["--at"],
            "Err(Wrong(\"--at wants capacities: write --at 100,1000\"))",
        ),
    ] {
        let command: Result<Command, Refusal> = command_of(rt.alloc(), words);
        equal!(rt; shows(rt.alloc(), &command, text), Ok(true), text);
    }
}

#[test]
fn a_key_prints_its_bytes(rt: HostRuntime) {
    equal!(rt; shows(rt.alloc(), &Key(b"ab"), "Key([97, 98])"), Ok(true));
}
