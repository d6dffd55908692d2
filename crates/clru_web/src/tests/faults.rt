//! Reports whose reader, writer or memory fails, each with its status, and arguments that find no memory.

use crate::tests::fakes::{Breaking, Filling, plain};
use clru_report::{DefaultState, run};
use clru_text::{
    Capacities, Fault, Form, Options, Refusal, Sample, command_of, exit_status, write_report,
};
use ration::{Rationed, equal};
use std::alloc::{Allocator, Global};
use std::io::ErrorKind;
use std::process::Abort;
use std::test::Fail;

const TEN: &[u8] = b"a\nb\na\nc\nb\na\nd\na\nb\ne\n";

const SIZED: &[u8] = b"5 a\n3 b\n5 a\n0 z\n12 c\n3 b\n5 a\n0 z\n1 y\n3 b\n";

fn by_keys<A: Allocator>(least: bool, form: Form) -> Options<A> {
    Options {
        capacities: Capacities::Usual,
        sizes: false,
        one_size: false,
        least,
        floor: false,
        sample: Sample::Whole,
        after: None,
        form,
        look: plain(),
        times: None,
    }
}

fn by_size<A: Allocator>(one_size: bool, form: Form) -> Options<A> {
    Options {
        capacities: Capacities::Each,
        sizes: true,
        one_size,
        least: false,
        floor: true,
        sample: Sample::Whole,
        after: None,
        form,
        look: plain(),
        times: None,
    }
}

#[test]
fn a_failed_read_is_a_fault_and_nothing_is_written(rt: HostRuntime) {
    let mut reader = Breaking {
        left: TEN,
        kind: ErrorKind::TimedOut,
        calls: 0,
    };
    let mut written = Vec::new(rt.alloc());
    let options = by_keys(true, Form::Picture);
    let outcome = run(
        rt.alloc(),
        &options,
        &mut reader,
        &mut written,
        DefaultState,
    );
    equal!(rt; exit_status(&outcome), 4);
    equal!(rt; outcome, Err(Fault::Reading));
    equal!(rt; written.len(), 0);
}

/// How a run ends whose writer takes so many bytes, and how many it got.
fn filled(alloc: Global, most: usize, kind: ErrorKind) -> (Result<(), Fault>, usize) {
    let mut writer = Filling {
        got: Vec::new(alloc),
        most,
        error: Some(kind),
    };
    let mut reader = TEN;
    let options = by_keys(true, Form::Picture);
    let outcome = run(alloc, &options, &mut reader, &mut writer, DefaultState);
    (outcome, writer.got.len())
}

#[test]
fn a_failed_write_is_a_fault_and_a_closed_pipe_another(rt: HostRuntime) {
    let rows = [
        (0, ErrorKind::StorageFull, Fault::Writing),
        (30, ErrorKind::StorageFull, Fault::Writing),
        (30, ErrorKind::BrokenPipe, Fault::Closed),
    ];
    for (most, kind, fault) in rows {
        let (outcome, count) = filled(rt.alloc(), most, kind);
        equal!(rt; exit_status(&outcome), 5, most);
        equal!(rt; outcome, Err(fault), most);
        equal!(rt; count, most);
    }
}

#[test]
fn a_report_is_written_whole_or_its_fault_is_told(rt: HostRuntime) {
    let rows = [
        (3, ErrorKind::StorageFull, Ok(())),
        (2, ErrorKind::StorageFull, Err(Fault::Writing)),
        (2, ErrorKind::BrokenPipe, Err(Fault::Closed)),
    ];
    for (most, kind, wanted) in rows {
        let mut writer = Filling {
            got: Vec::new(rt.alloc()),
            most,
            error: Some(kind),
        };
        equal!(rt; write_report(&mut writer, b"abc"), wanted, most);
        equal!(rt; writer.got.len(), most);
    }
}

/// Makes a run whose requests behind the first n are refused, and answers whether there was one.
fn refused_after<'h>(
    rt: &impl Abort,
    heap: &'h Rationed<Global>,
    n: u64,
    options: &Options<&'h Rationed<Global>>,
    input: &[u8],
    mut written: Vec<u8>,
) -> bool {
    heap.refuse_after(n);
    let mut reader = input;
    let outcome = run(heap, options, &mut reader, &mut written, DefaultState);
    equal!(rt; heap.blocks(), 0, n);
    if heap.refused() == 0 {
        equal!(rt; outcome, Ok(()), n);
        return false;
    }
    equal!(rt; exit_status(&outcome), 3, n);
    equal!(rt; outcome, Err(Fault::Memory), n);
    equal!(rt; written.len(), 0, n);
    true
}

/// How many requests are refused in turn at most.
const MOST: u64 = 1000;

#[test]
fn each_refused_request_is_want_of_memory(rt: HostRuntime) {
    let rows = [
        (false, false, Form::Table, TEN),
        (false, false, Form::Summary, TEN),
        (false, true, Form::Picture, TEN),
        (true, false, Form::Table, SIZED),
        (true, true, Form::Table, SIZED),
        (true, false, Form::Picture, SIZED),
    ];
    for (sizes, more, form, input) in rows {
        let mut met = 0;
        for n in 0..MOST {
            let heap = Rationed::new(rt.alloc());
            let options = if sizes {
                by_size(more, form)
            } else {
                by_keys(more, form)
            };
            if !refused_after(&rt, &heap, n, &options, input, Vec::new(rt.alloc())) {
                break;
            }
            met = n;
        }
        equal!(rt; met > 0 && met < MOST - 1, true, input);
    }
}

#[test]
fn arguments_without_memory_are_not_called_wrong(rt: HostRuntime) {
    // (a capacity that is kept, and a refusal that is written)
    for word in ["--at=1", "--no"] {
        let heap = Rationed::new(rt.alloc());
        heap.refuse_after(0);
        let is_memory = matches!(command_of(&heap, &[word]), Err(Refusal::Memory));
        equal!(rt; is_memory, true, word);
        equal!(rt; heap.blocks(), 0, word);
    }
}

/// How a table ends, by keys, also with the least, or by size, whose heap has so many bytes.
fn within(
    rt: &impl Abort,
    alloc: Global,
    sizes: bool,
    least: bool,
    bytes: u64,
    input: &[u8],
) -> Result<(), Fault> {
    let heap = Rationed::new(alloc);
    heap.limit_bytes(bytes);
    let options = Options {
        capacities: Capacities::Usual,
        sizes,
        one_size: false,
        least: least && !sizes,
        floor: false,
        sample: Sample::Whole,
        after: None,
        form: Form::Table,
        look: plain(),
        times: None,
    };
    let mut reader = input;
    let mut written = Vec::new(alloc);
    let outcome = run(&heap, &options, &mut reader, &mut written, DefaultState);
    equal!(rt; heap.blocks(), 0);
    outcome
}

// An input of four megabytes in a heap of one, since one line of it is held.
#[test]
fn no_input_is_held(rt: HostRuntime) -> Result<(), Fail> {
    let mut input = Vec::new(rt.alloc());
    for _ in 0..10_000 {
        input.extend_from_slice(b"7 ")?;
        input.resize(input.len() + 400, b'a')?;
        input.push(b'\n')?;
    }
    equal!(rt; within(&rt, rt.alloc(), false, false, 100_000, &input), Ok(()));
    equal!(rt; within(&rt, rt.alloc(), false, true, 300_000, &input), Ok(()));
    equal!(rt; within(&rt, rt.alloc(), true, false, 1_000_000, &input), Ok(()));
    equal!(rt; within(&rt, rt.alloc(), false, false, 50_000, &input), Err(Fault::Memory));
    Ok(())
}
