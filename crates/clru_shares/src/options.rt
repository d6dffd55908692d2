//! How a budget is split.
ghost use Rattle.std.specs.Prelude.{◌≡◌, true, false, Some, IfErr, IfOk};
ghost use Rattle.std.specs.Int.NonZero.{non_zero_usize_get};
ghost use Rattle.std.specs.Option.{is_none, option_map};
ghost use Rattle.clru_shares.specs.Arguments.{form_of_split, goes_with_split, has_look as has_look_by, has_no_age as has_no_age_by, holds_all_lines as holds_all_lines_by, idle_of as idle_of_by, is_usual as is_usual_by, sample_number};

use crate::form::SplitForm;
use clru_text::{Capacities, Form, Look, Options, Sample, Times};
use std::alloc::Allocator;
use std::num::NonZeroUsize;

/// How a budget is split.
#[derive(Clone, Copy, Debug, PartialEq, Eq)]
pub struct SplitOptions {
    /// The keys that all caches together have room for, or by size their total size.
    pub budget: NonZeroUsize,

    /// Whether a size and a blank follow the class of each line, and capacities are sums of sizes.
    pub sizes: bool,

    /// If each line begins with a time, before its class: the greatest idle time, in millionths of the log's unit. A later request counts
    /// as a first one.
    pub idle: Option<usize>,

    /// If not all keys are read: those whose hash by FNV-1a is a multiple of this number. What is written is an estimate for all.
    pub sample: Option<NonZeroUsize>,

    /// What is written.
    pub form: SplitForm,
}

/// Returns how this budget is split beside the options of a report, or a line that says which of them does not go with `--split`.
/// Cost: none.
pub fn split_options_of<A: Allocator>(
    budget: NonZeroUsize,
    options: &Options<A>,
) -> Result<SplitOptions, &'static str>
    ensures budget { IfOk result (λ split. split.budget ≡ budget) }
    ensures sizes { IfOk result (λ split. split.sizes ≡ options.now.sizes) }
    ensures idle { IfOk result (λ split. split.idle ≡ idle_of_by options.now.times) }
    ensures sample { IfOk result (λ split. option_map non_zero_usize_get split.sample ≡ sample_number options.now.sample) }
    ensures form { IfOk result (λ split. form_of_split options.now.form ≡ Some split.form) }
    ensures goes { IfOk result (λ split. goes_with_split options.now ≡ true) }
    ensures refused { IfErr result (λ line. goes_with_split options.now ≡ false) }
{
    if let Some(line) = conflict_in(options) {
        return Err(line);
    }
    match split_form_of(options.form) {
        Some(form) => Ok(SplitOptions {
            budget,
            sizes: options.sizes,
            idle: idle_of(options.times),
            sample: sample_of(options.sample),
            form,
        }),
        None => Err(NO_SUMMARY),
    }
}

const NO_SUMMARY: &str = "--split and --summary do not go together: leave one out";

fn split_form_of(form: Form) -> Option<SplitForm>
    ensures { result ≡ form_of_split form }
{
    match form {
        Form::Table => Some(SplitForm::Table),
        Form::Json => Some(SplitForm::Json),
        Form::Picture => Some(SplitForm::Picture),
        Form::Summary => None,
    }
}

// Which option does not go with `--split`, if one does not.
fn conflict_in<A: Allocator>(options: &Options<A>) -> Option<&'static str>
    ensures { is_none result ≡ goes_with_split options.now }
{
    if !is_usual(&options.capacities) {
        return Some(
            "--split chooses capacities, so it goes with none of --at, --all and a hit ratio: leave them out",
        );
    }
    if options.one_size {
        return Some("--split and --one-size do not go together: leave one out");
    }
    if options.least || options.floor {
        return Some("--split goes with neither --least nor --floor: leave them out");
    }
    if !holds_all_lines(options.sample) {
        return Some("--split does not go with --sampled: take the whole log for it, or --sample");
    }
    if options.after.is_some() {
        return Some("--split and --after do not go together: leave one out");
    }
    if split_form_of(options.form).is_none() {
        return Some(NO_SUMMARY);
    }
    if has_look(&options.look) {
        return Some(
            "--title, --unit, --from and --to are not of the picture of a split: leave them out",
        );
    }
    if !has_no_age(options.times) {
        return Some("--split and --max-age do not go together: leave one out, or take --max-idle");
    }
    None
}

fn has_no_age(times: Option<Times>) -> bool
    ensures { result ≡ has_no_age_by times }
{
    match times {
        Some(limits) => limits.max_age.is_none(),
        None => true,
    }
}

// The limit, if lines have times: one that is not named is the greatest.
fn idle_of(times: Option<Times>) -> Option<usize>
    ensures { result ≡ idle_of_by times }
{
    match times {
        Some(limits) => Some(limits.max_idle.unwrap_or(usize::MAX)),
        None => None,
    }
}

fn is_usual<A: Allocator>(capacities: &Capacities<A>) -> bool
    ensures { result ≡ is_usual_by capacities.now }
{
    match capacities {
        Capacities::Usual => true,
        _ => false,
    }
}

fn holds_all_lines(sample: Sample) -> bool
    ensures { result ≡ holds_all_lines_by sample }
{
    match sample {
        Sample::Whole | Sample::OneIn(_) => true,
        Sample::Taken(_, _) => false,
    }
}

fn sample_of(sample: Sample) -> Option<NonZeroUsize>
    ensures { option_map non_zero_usize_get result ≡ sample_number sample }
{
    match sample {
        Sample::OneIn(one_in) => Some(one_in),
        Sample::Whole | Sample::Taken(_, _) => None,
    }
}

fn has_look<A: Allocator>(look: &Look<A>) -> bool
    ensures { result ≡ has_look_by look.now }
{
    look.title.is_some() || look.unit.is_some() || look.from.is_some() || look.to.is_some()
}
