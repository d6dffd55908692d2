//! What the arguments ask for.
ghost use Rattle.std.specs.Prelude.{◌≡◌, ◌<◌, ◌≤◌, ◌++◌, ◌==◌, true, false, None, Some, IfErr, IfOk, IsSomeAnd, [], ◌∷◌, length, map, OnOk, string_bytes};
ghost use Rattle.std.specs.Int.NonZero.{non_zero_usize_get};
ghost use Rattle.std.specs.List.{slice_split};
ghost use Rattle.std.specs.Option.{option_map};
ghost use Rattle.clru_text.specs.Arguments.{AreCapacitiesOf, AreTimesOf, asked_by, form_of as form_by, go_together, is_wrong, IsAskedFor, IsRefusedLine, IsSampleOf, IsSortedSet, one_in as one_in_by, part_of, reading_after};
ghost use Rattle.clru_text.specs.Choices.{AreAscending};
ghost use Rattle.clru_text.specs.CommandLine.{numbers_and, read_all, read_word, value_behind, with_argument, with_flag, with_value_of, asks, nothing, wrong as is_not_read};
ghost use Rattle.clru_text.specs.Numbers.{number_in};
ghost use Rattle.clru_text.specs.Ratios.{ratio_in};
ghost use Rattle.clru_text.specs.Times.{duration_in};

mod conflicts;

use crate::numbers::number_of_word;
use crate::options::{Capacities, Form, Look, Options, Sample, Times};
use crate::ratio::{Billionths, ratio_of_word};
use crate::time::duration_of_word;
use conflicts::conflict_in;
use std::alloc::{Allocator, Global};
use std::convert::AsStr;
use std::num::NonZeroUsize;

/// What the program is to do.
#[derive(Debug, Drop)]
pub enum Command<A: Allocator = Global> {
    /// Print how it is used.
    Help,
    /// Print its name and version.
    Version,
    /// Read the input and write its report.
    Report(Options<A>),
}

/// Why the arguments are refused.
#[derive(Debug, Drop)]
pub enum Refusal<A: Allocator = Global> {
    /// What is wrong and what would be right, in one line.
    Wrong(String<A>),
    /// A request for memory was refused.
    Memory,
}

// What was asked for so far.
#[derive(Drop)]
struct Draft<A: Allocator> {
    named: Vec<NonZeroUsize, A>,
    all: bool,
    hit_ratio: Option<Billionths>,
    byte_hit_ratio: Option<Billionths>,
    sizes: bool,
    one_size: bool,
    least: bool,
    floor: bool,
    json: bool,
    svg: bool,
    summary: bool,
    sample: Option<NonZeroUsize>,
    sampled: Option<NonZeroUsize>,
    requests: Option<NonZeroUsize>,
    after: Option<NonZeroUsize>,
    look: Look<A>,
    times: bool,
    max_idle: Option<usize>,
    max_age: Option<usize>,
}

// What follows an argument.
#[derive(Clone, Copy, PartialEq, Eq)]
enum Value {
    Capacities,
    HitRatio,
    ByteHitRatio,
    Sample,
    Sampled,
    Requests,
    After,
    Title,
    Unit,
    From,
    To,
    MaxIdle,
    MaxAge,
}

// What one word leads to.
#[derive(Clone, Copy)]
enum Step {
    Help,
    Version,
    // The next word is this value, or else an argument.
    Next(Option<Value>),
}

/// Reads the words after the program's name, which are in any order. What follows `--help` or `--version` is not read.
///
/// It refuses the first word that is no argument, and else arguments that do not go together.
pub fn command_of<S: AsStr, A: Allocator + Copy>(
    alloc: A,
    words: &[S],
) -> Result<Command<A>, Refusal<A>>
    ensures command { IfOk result (λ command. IsAskedFor (read_all (map S.text words.now)) command) }
    ensures refused { IfErr result (λ refusal. is_wrong refusal ≡ true → IsRefusedLine (read_all (map S.text words.now))) }
{
    let mut draft = draft_of(alloc);
    let mut next = None;
    for word in words {
        match read_one(alloc, &mut draft, next, word.as_str())? {
            Step::Help => return Ok(Command::Help),
            Step::Version => return Ok(Command::Version),
            Step::Next(value) => next = value,
        }
    }
    match next {
        None => finish(alloc, draft),
        Some(value) => Err(wrong(alloc, no_value(value))),
    }
}

// Nothing is asked for.
fn draft_of<A: Allocator + Copy>(alloc: A) -> Draft<A>
    ensures { asked_by result ≡ nothing }
{
    Draft {
        named: Vec::new(alloc),
        all: false,
        hit_ratio: None,
        byte_hit_ratio: None,
        sizes: false,
        one_size: false,
        least: false,
        floor: false,
        json: false,
        svg: false,
        summary: false,
        sample: None,
        sampled: None,
        requests: None,
        after: None,
        look: Look {
            title: None,
            unit: None,
            from: None,
            to: None,
        },
        times: false,
        max_idle: None,
        max_age: None,
    }
}

// One word: an argument, or the value of the one before it.
fn read_one<A: Allocator + Copy>(
    alloc: A,
    draft: &mut Draft<A>,
    next: Option<Value>,
    word: &str,
) -> Result<Step, Refusal<A>>
    ensures step { IfOk result (λ step. read_word next word.now (asked_by draft.old) ≡ reading_after step (asked_by draft.new)) }
    ensures refused { IfErr result (λ refusal. is_wrong refusal ≡ true
        → read_word next word.now (asked_by draft.old) ≡ is_not_read) }
{
    match next {
        None => read_argument(alloc, draft, word),
        Some(value) => {
            take_value(alloc, draft, value, word)?;
            Ok(Step::Next(None))
        }
    }
}

fn read_argument<A: Allocator + Copy>(
    alloc: A,
    draft: &mut Draft<A>,
    word: &str,
) -> Result<Step, Refusal<A>>
    ensures step { IfOk result (λ step. read_word None word.now (asked_by draft.old) ≡ reading_after step (asked_by draft.new)) }
    ensures refused { IfErr result (λ refusal. is_wrong refusal ≡ true
        → read_word None word.now (asked_by draft.old) ≡ is_not_read) }
{
    if word == "--help" || word == "-h" {
        return Ok(Step::Help);
    }
    if word == "--version" || word == "-V" {
        return Ok(Step::Version);
    }
    if let Some(value) = value_of(word) {
        return Ok(Step::Next(Some(value)));
    }
    take_argument(alloc, draft, word)?;
    Ok(Step::Next(None))
}

// An argument that no value follows.
fn take_argument<A: Allocator + Copy>(
    alloc: A,
    draft: &mut Draft<A>,
    word: &str,
) -> Result<(), Refusal<A>>
    ensures argument { OnOk result (with_argument word.now (asked_by draft.old) ≡ Some (asked_by draft.new)) }
    ensures refused { IfErr result (λ refusal. is_wrong refusal ≡ true
        → with_argument word.now (asked_by draft.old) ≡ None) }
{
    if take_flag(draft, word) {
        return Ok(());
    }
    match word.strip_prefix("--at=") {
        Some(capacities) => name_capacities(alloc, &mut draft.named, capacities),
        None => Err(unknown(alloc, word)),
    }
}

// The value that follows an argument, if one does.
fn value_of(word: &str) -> Option<Value>
    ensures { result ≡ value_behind word.now }
{
    match word {
        "--at" => Some(Value::Capacities),
        "--hit-ratio" => Some(Value::HitRatio),
        "--byte-hit-ratio" => Some(Value::ByteHitRatio),
        "--sample" => Some(Value::Sample),
        "--sampled" => Some(Value::Sampled),
        "--requests" => Some(Value::Requests),
        "--after" => Some(Value::After),
        "--title" => Some(Value::Title),
        "--unit" => Some(Value::Unit),
        "--from" => Some(Value::From),
        "--to" => Some(Value::To),
        "--max-idle" => Some(Value::MaxIdle),
        "--max-age" => Some(Value::MaxAge),
        _ => None,
    }
}

// Returns whether the word is an argument that stands alone.
fn take_flag<A: Allocator>(draft: &mut Draft<A>, word: &str) -> bool
    ensures flag { result ≡ true → with_flag word.now (asked_by draft.old) ≡ Some (asked_by draft.new) }
    ensures none { result ≡ false → (with_flag word.now (asked_by draft.old) ≡ None) × (asked_by draft.new ≡ asked_by draft.old) }
{
    match word {
        "--all" => draft.all = true,
        "--sizes" => draft.sizes = true,
        "--one-size" => draft.one_size = true,
        "--least" => draft.least = true,
        "--floor" => draft.floor = true,
        "--json" => draft.json = true,
        "--svg" => draft.svg = true,
        "--summary" => draft.summary = true,
        "--times" => draft.times = true,
        _ => return false,
    }
    true
}

fn take_value<A: Allocator + Copy>(
    alloc: A,
    draft: &mut Draft<A>,
    value: Value,
    word: &str,
) -> Result<(), Refusal<A>>
    ensures value { OnOk result (with_value_of value word.now (asked_by draft.old) ≡ Some (asked_by draft.new)) }
    ensures refused { IfErr result (λ refusal. is_wrong refusal ≡ true
        → with_value_of value word.now (asked_by draft.old) ≡ None) }
{
    match value {
        Value::Capacities => name_capacities(alloc, &mut draft.named, word)?,
        Value::HitRatio => draft.hit_ratio = Some(ratio_named(alloc, value, word)?),
        Value::ByteHitRatio => draft.byte_hit_ratio = Some(ratio_named(alloc, value, word)?),
        Value::Sample => draft.sample = Some(number_named(alloc, value, word)?),
        Value::Sampled => draft.sampled = Some(number_named(alloc, value, word)?),
        Value::Requests => draft.requests = Some(number_named(alloc, value, word)?),
        Value::After => draft.after = Some(number_named(alloc, value, word)?),
        Value::Title => draft.look.title = Some(text_of(alloc, word)?),
        Value::Unit => draft.look.unit = Some(text_of(alloc, word)?),
        Value::From => draft.look.from = Some(number_named(alloc, value, word)?),
        Value::To => draft.look.to = Some(number_named(alloc, value, word)?),
        Value::MaxIdle => draft.max_idle = Some(duration_named(alloc, value, word)?),
        Value::MaxAge => draft.max_age = Some(duration_named(alloc, value, word)?),
    }
    Ok(())
}

fn text_of<A: Allocator + Copy>(alloc: A, word: &str) -> Result<String<A>, Refusal<A>>
    ensures text { IfOk result (λ text. string_bytes text ≡ word.now) }
    ensures refused { IfErr result (λ refusal. is_wrong refusal ≡ false) }
{
    match String::from_str(alloc, word) {
        Ok(text) => Ok(text),
        Err(_) => Err(Refusal::Memory),
    }
}

fn number_named<A: Allocator + Copy>(
    alloc: A,
    value: Value,
    word: &str,
) -> Result<NonZeroUsize, Refusal<A>>
    ensures number { IfOk result (λ number. number_in word.now ≡ Some (non_zero_usize_get number)) }
    ensures refused { IfErr result (λ refusal. is_wrong refusal ≡ true → number_in word.now ≡ None) }
{
    match number_of_word(word) {
        Some(number) => Ok(number),
        None => Err(no_number(alloc, value, word)),
    }
}

fn ratio_named<A: Allocator + Copy>(
    alloc: A,
    value: Value,
    word: &str,
) -> Result<Billionths, Refusal<A>>
    ensures ratio { IfOk result (λ ratio. ratio_in word.now ≡ Some ratio.number) }
    ensures refused { IfErr result (λ refusal. is_wrong refusal ≡ true → ratio_in word.now ≡ None) }
{
    match ratio_of_word(word) {
        Some(ratio) => Ok(ratio),
        None => Err(no_ratio(alloc, value, word)),
    }
}

fn duration_named<A: Allocator + Copy>(
    alloc: A,
    value: Value,
    word: &str,
) -> Result<usize, Refusal<A>>
    ensures duration { IfOk result (λ duration. duration_in word.now ≡ Some duration) }
    ensures refused { IfErr result (λ refusal. is_wrong refusal ≡ true → duration_in word.now ≡ None) }
{
    match duration_of_word(word) {
        Some(duration) => Ok(duration),
        None => Err(no_duration(alloc, value, word)),
    }
}

// What is wrong where the word is not there, or is none of those.
fn no_value(value: Value) -> &'static str {
    match value {
        Value::Capacities => NO_CAPACITIES,
        Value::HitRatio | Value::ByteHitRatio => {
            "--hit-ratio and --byte-hit-ratio want a part of all: write --hit-ratio 0.8, or 80%"
        }
        Value::Sample | Value::Sampled | Value::Requests => {
            "--sample, --sampled and --requests want a number: write --sample 100, or --sampled 100 --requests 500M"
        }
        Value::After => "--after wants a number of requests: write --after 1M",
        Value::Title | Value::Unit => {
            "--title and --unit want a text: write --title 'May, all servers'"
        }
        Value::From | Value::To => { "--from and --to want a capacity: write --from 1000 --to 1M" }
        Value::MaxIdle => "--max-idle wants a time: write --max-idle 10m",
        Value::MaxAge => "--max-age wants a time: write --max-age 1h",
    }
}

const NO_CAPACITIES: &str = "--at wants capacities: write --at 100,1000";

// Each `--at` adds to those before it.
fn name_capacities<A: Allocator + Copy>(
    alloc: A,
    named: &mut Vec<NonZeroUsize, A>,
    list: &str,
) -> Result<(), Refusal<A>>
    ensures numbers { OnOk result (numbers_and (map non_zero_usize_get named.old.items) (slice_split (λ b. b == 44) list.now)
        ≡ Some (map non_zero_usize_get named.new.items)) }
    ensures refused { IfErr result (λ refusal. is_wrong refusal ≡ true
        → numbers_and (map non_zero_usize_get named.old.items) (slice_split (λ b. b == 44) list.now) ≡ None) }
{
    let mut left = list;
    'parts: while let Some((part, rest)) = left.split_once(',') {
        name_capacity(alloc, named, part)?;
        left = rest;
    }
    name_capacity(alloc, named, left)
}

fn name_capacity<A: Allocator + Copy>(
    alloc: A,
    named: &mut Vec<NonZeroUsize, A>,
    part: &str,
) -> Result<(), Refusal<A>>
    ensures number { OnOk result (numbers_and (map non_zero_usize_get named.old.items) (part.now ∷ [])
        ≡ Some (map non_zero_usize_get named.new.items)) }
    ensures refused { IfErr result (λ refusal. is_wrong refusal ≡ true
        → numbers_and (map non_zero_usize_get named.old.items) (part.now ∷ []) ≡ None) }
{
    let Some(capacity) = number_of_word(part) else {
        return Err(no_capacity(alloc, part));
    };
    match named.push(capacity) {
        Ok(()) => Ok(()),
        Err(_) => Err(Refusal::Memory),
    }
}

// Once all words are read, since the order of words is free.
fn finish<A: Allocator + Copy>(alloc: A, draft: Draft<A>) -> Result<Command<A>, Refusal<A>>
    ensures options { IfOk result (λ command. IsAskedFor (asks None (asked_by draft)) command) }
    ensures refused { IfErr result (λ refusal. is_wrong refusal ≡ true → go_together (asked_by draft) ≡ false) }
{
    if let Some(line) = conflict_in(&draft) {
        return Err(wrong(alloc, line));
    }
    let sample = sample_of(&draft);
    let form = form_of(&draft);
    let Draft {
        named,
        all,
        hit_ratio,
        byte_hit_ratio,
        sizes,
        one_size,
        least,
        floor,
        json: _,
        svg: _,
        summary: _,
        sample: _,
        sampled: _,
        requests: _,
        after,
        look,
        times,
        max_idle,
        max_age,
    } = draft;
    Ok(Command::Report(Options {
        capacities: capacities_of(named, all, hit_ratio, byte_hit_ratio, sample),
        sizes,
        one_size,
        least,
        floor,
        sample,
        after,
        form,
        look,
        times: times_of(times, max_idle, max_age),
    }))
}

// How lines begin with times, if they do.
fn times_of(times: bool, max_idle: Option<usize>, max_age: Option<usize>) -> Option<Times>
    ensures { AreTimesOf times max_idle max_age result }
{
    if times {
        Some(Times { max_idle, max_age })
    } else {
        None
    }
}

// Those that are named, once each and in order. Of a sample they are so many times less, at least 1.
fn capacities_of<A: Allocator>(
    mut named: Vec<NonZeroUsize, A>,
    all: bool,
    hit_ratio: Option<Billionths>,
    byte_hit_ratio: Option<Billionths>,
    sample: Sample,
) -> Capacities<A>
    ensures asked { AreCapacitiesOf all (map non_zero_usize_get named.items) (option_map (λ r. r.number) hit_ratio)
        (option_map (λ r. r.number) byte_hit_ratio) (one_in_by sample) result }
    ensures ascending { AreAscending result }
{
    if let Some(ratio) = hit_ratio {
        return Capacities::HitRatio(ratio);
    }
    if let Some(ratio) = byte_hit_ratio {
        return Capacities::ByteHitRatio(ratio);
    }
    if all {
        return Capacities::Each;
    }
    if named.is_empty() {
        return Capacities::Usual;
    }
    take_parts(&mut named, one_in_of(sample));
    sort_and_dedup(&mut named);
    Capacities::Named(named)
}

// One key in how many is read.
fn one_in_of(sample: Sample) -> NonZeroUsize
    ensures { non_zero_usize_get result ≡ one_in_by sample }
{
    match sample {
        Sample::Whole => NonZeroUsize::MIN,
        Sample::OneIn(one_in) => one_in,
        Sample::Taken(one_in, _) => one_in,
    }
}

fn take_parts<A: Allocator>(named: &mut Vec<NonZeroUsize, A>, one_in: NonZeroUsize)
    ensures { map non_zero_usize_get named.new.items
        ≡ map (part_of (non_zero_usize_get one_in)) (map non_zero_usize_get named.old.items) }
{
    for index in 0..named.len() {
        named[index] = parts_of(named[index], one_in);
    }
}

fn parts_of(capacity: NonZeroUsize, one_in: NonZeroUsize) -> NonZeroUsize
    ensures { non_zero_usize_get result ≡ part_of (non_zero_usize_get one_in) (non_zero_usize_get capacity) }
{
    NonZeroUsize::new(capacity.get() / one_in.get()).unwrap_or(NonZeroUsize::MIN)
}

fn sort_and_dedup<A: Allocator>(named: &mut Vec<NonZeroUsize, A>)
    ensures { IsSortedSet (map non_zero_usize_get named.old.items) (map non_zero_usize_get named.new.items) }
{
    named.sort_unstable();
    named.dedup();
}

fn form_of<A: Allocator>(draft: &Draft<A>) -> Form
    ensures { result ≡ form_by (asked_by draft.now) }
{
    if draft.summary {
        Form::Summary
    } else if draft.svg {
        Form::Picture
    } else if draft.json {
        Form::Json
    } else {
        Form::Table
    }
}

fn sample_of<A: Allocator>(draft: &Draft<A>) -> Sample
    ensures { IsSampleOf (asked_by draft.now) result }
{
    if let Some(one_in) = draft.sample {
        return Sample::OneIn(one_in);
    }
    if let Some(one_in) = draft.sampled {
        if let Some(requests) = draft.requests {
            return Sample::Taken(one_in, requests.get());
        }
    }
    Sample::Whole
}

fn wrong<A: Allocator + Copy>(alloc: A, line: &str) -> Refusal<A> {
    match String::from_str(alloc, line) {
        Ok(line) => Refusal::Wrong(line),
        Err(_) => Refusal::Memory,
    }
}

// What stands in quotes has its line breaks escaped. A word that looks like no option is mostly the name of a file.
fn unknown<A: Allocator + Copy>(alloc: A, word: &str) -> Refusal<A> {
    let line = if word.starts_with('-') && word != "-" {
        format!(in alloc; "{word:?} is no argument: clru_mrc --help names them")
    } else {
        format!(in alloc;
            "{word:?} is no argument: the log goes to standard input, as in clru_mrc < FILE"
        )
    };
    match line {
        Ok(line) => Refusal::Wrong(line),
        Err(_) => Refusal::Memory,
    }
}

fn no_capacity<A: Allocator + Copy>(alloc: A, part: &str) -> Refusal<A> {
    if part.is_empty() {
        return wrong(
            alloc,
            "--at has an empty number: quote a list that has blanks, as in --at '500MB, 1.5G'",
        );
    }
    if part.starts_with("--") {
        return wrong(alloc, NO_CAPACITIES);
    }
    let line = format!(in alloc; "{part:?} is no capacity: {UNDERSTOOD}");
    match line {
        Ok(line) => Refusal::Wrong(line),
        Err(_) => Refusal::Memory,
    }
}

// A word that is the next argument leaves the number out.
fn no_number<A: Allocator + Copy>(alloc: A, value: Value, word: &str) -> Refusal<A> {
    if word.is_empty() || word.starts_with("--") {
        return wrong(alloc, no_value(value));
    }
    let line = format!(in alloc; "{word:?} is no number: {UNDERSTOOD}");
    match line {
        Ok(line) => Refusal::Wrong(line),
        Err(_) => Refusal::Memory,
    }
}

fn no_ratio<A: Allocator + Copy>(alloc: A, value: Value, word: &str) -> Refusal<A> {
    if word.is_empty() || word.starts_with("--") {
        return wrong(alloc, no_value(value));
    }
    let line = format!(in alloc;
        "{word:?} is no hit ratio: write a part of all as 0.8 or 80%, more than 0 and at most 1, with up to nine decimals, or seven before %"
    );
    match line {
        Ok(line) => Refusal::Wrong(line),
        Err(_) => Refusal::Memory,
    }
}

fn no_duration<A: Allocator + Copy>(alloc: A, value: Value, word: &str) -> Refusal<A> {
    if word.is_empty() || word.starts_with("--") {
        return wrong(alloc, no_value(value));
    }
    let line = format!(in alloc;
        "{word:?} is no time: write a number in the unit of the log, as 3600 or 0.5, or if that is the second also 30s, 10m, 1.5h or 7d"
    );
    match line {
        Ok(line) => Refusal::Wrong(line),
        Err(_) => Refusal::Memory,
    }
}

const UNDERSTOOD: &str =
    "write 1 to 18446744073709551615, or with a unit 500MB, 1.5G or 64MiB (K, M, G, T or KB, MB, GB, TB by 1000; KiB, MiB, GiB, TiB by 1024)";
