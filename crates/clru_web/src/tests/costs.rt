//! How often a report hashes a line and asks for memory, in each form.
use crate::tests::fakes::{Counting, plain};
use clru_report::{NonZeroUsize, run};
use clru_text::{Capacities, Form, Options, Sample};
use ration::{Rationed, equal};
use std::alloc::{AllocError, Global};
use std::cell::Cell;
use std::test::Fail;

/// How many lines of a thousand are new.
const KEYS: usize = 10;

// Of a form, whether by size, and whether with the least, or by size the floors: its requests for memory, and their bytes.
static REQUESTS: &[(Form, bool, bool, u64, u64)] = &[
    (Form::Table, false, false, 29, 68584),
    (Form::Table, true, false, 45, 104040),
    (Form::Table, true, true, 57, 184280),
    (Form::Table, false, true, 45, 78016),
    (Form::Json, false, false, 30, 69096),
    (Form::Json, true, true, 58, 185304),
    (Form::Picture, false, false, 42, 88134),
    (Form::Picture, true, false, 67, 173534),
    (Form::Picture, true, true, 84, 258425),
    (Form::Picture, false, true, 60, 98997),
    (Form::Summary, false, false, 24, 68177),
    (Form::Summary, true, false, 36, 102496),
    (Form::Summary, true, true, 36, 102496),
    (Form::Summary, false, true, 24, 68177),
];

// The same of a sample, which keeps half of the keys: whether by size.
static OF_SAMPLES: &[(Form, bool, u64, u64)] = &[
    (Form::Table, false, 25, 67904),
    (Form::Table, true, 39, 86336),
    (Form::Picture, false, 37, 86463),
    (Form::Picture, true, 60, 131079),
    (Form::Summary, false, 15, 67017),
    (Form::Summary, true, 32, 85568),
];

/// A thousand lines of ten keys, each with the size 7.
fn thousand(alloc: Global) -> Result<Vec<u8>, AllocError> {
    let mut input = Vec::new(alloc);
    for line in 0..1_000 {
        input.extend_from_slice(b"7 ")?;
        input.push(b'a' + (line % KEYS) as u8)?;
        input.push(b'\n')?;
    }
    Ok(input)
}

/// The hashes, the requests for memory and their bytes of a report.
fn costs_of(
    alloc: Global,
    input: &[u8],
    form: Form,
    flags: (bool, bool),
    sample: Sample,
) -> Result<(u64, u64, u64), Fail> {
    let count = Cell::new(0);
    let heap = Rationed::new(alloc);
    // Only a whole log by keys can have the least.
    let least = match sample {
        Sample::Whole => flags.1 && !flags.0,
        _ => false,
    };
    let floor = flags.0 && flags.1;
    let options = Options {
        capacities: Capacities::Usual,
        sizes: flags.0,
        one_size: false,
        least,
        floor,
        sample,
        after: None,
        form,
        look: plain(),
        times: None,
    };
    let mut reader = input;
    let mut written = Vec::new(alloc);
    run(&heap, &options, &mut reader, &mut written, Counting(&count))?;
    Ok((count.get(), heap.requests(), heap.requested_bytes()))
}

#[test]
fn each_form_hashes_a_line_as_often(rt: HostRuntime) -> Result<(), Fail> {
    let input = thousand(rt.alloc())?;
    // Each line is hashed once: there are places for 64 at once.
    for (form, sizes, least, requests, bytes) in REQUESTS {
        let costs = costs_of(rt.alloc(), &input, *form, (*sizes, *least), Sample::Whole)?;
        equal!(rt; costs, (1_000, *requests, *bytes), (*form, *sizes, *least));
    }
    Ok(())
}

// From 4,096 keys on lines are looked up ahead. An index for twice as many keys hashes all of them again. If announced
// strings were never dropped, the report would ask for more memory; if none were looked up, for less.
#[test]
fn a_line_that_is_looked_up_ahead_is_hashed_once(rt: HostRuntime) -> Result<(), Fail> {
    let mut input = Vec::new(rt.alloc());
    for line in 0..18_000u32 {
        let mut key = line % 6_000;
        input.extend_from_slice(b"7 ")?;
        for _ in 0..4 {
            input.push(b'a' + (key % 10) as u8)?;
            key /= 10;
        }
        input.push(b'\n')?;
    }
    for (sizes, requests, bytes) in [(false, 91, 804_753), (true, 103, 1_541_816)] {
        let costs = costs_of(
            rt.alloc(),
            &input,
            Form::Summary,
            (sizes, false),
            Sample::Whole,
        )?;
        equal!(rt; costs, (18_000 + 8_128, requests, bytes), sizes);
    }
    Ok(())
}

#[test]
fn each_form_of_a_sample_hashes_kept_lines_alone(rt: HostRuntime) -> Result<(), Fail> {
    let input = thousand(rt.alloc())?;
    let two = NonZeroUsize::new(2).ok_or("two")?;
    for (form, sizes, requests, bytes) in OF_SAMPLES {
        let costs = costs_of(
            rt.alloc(),
            &input,
            *form,
            (*sizes, false),
            Sample::OneIn(two),
        )?;
        equal!(rt; costs, (500, *requests, *bytes), (*form, *sizes));
    }
    Ok(())
}
