//! Which arguments do not go together.
ghost use Rattle.std.specs.Prelude.{◌≡◌};
ghost use Rattle.std.specs.Option.{is_none};
ghost use Rattle.clru_text.specs.Arguments.{after_goes_together, ages_go_together, asked_by, forms_go_together, go_together, is_half_told, ratios_go_together, samples_go_together, times_go_together, wants_all, wants_look, wants_more, wants_part, wants_ratio, wants_rows, wants_two};

use super::Draft;
use std::alloc::Allocator;

/// Returns which arguments do not go together, if any do not.
pub(super) fn conflict_in<A: Allocator>(draft: &Draft<A>) -> Option<&'static str>
    ensures { is_none result ≡ go_together (asked_by draft.now) }
{
    if let Some(line) = conflict_of(draft) {
        return Some(line);
    }
    if let Some(line) = conflict_of_sample(draft) {
        return Some(line);
    }
    if let Some(line) = conflict_of_after(draft) {
        return Some(line);
    }
    if let Some(line) = conflict_of_times(draft) {
        return Some(line);
    }
    conflict_of_age(draft)
}

// Which arguments do not go with a hit ratio.
fn conflict_of_ratio<A: Allocator>(draft: &Draft<A>) -> Option<&'static str>
    ensures { is_none result ≡ ratios_go_together (asked_by draft.now) }
{
    if draft.hit_ratio.is_some() && draft.byte_hit_ratio.is_some() {
        return Some("--hit-ratio and --byte-hit-ratio do not go together: leave one out");
    }
    if asks_for_ratio(draft) && (draft.all || !draft.named.is_empty()) {
        return Some(
            "a hit ratio asks for one capacity, so it goes with neither --at nor --all: leave one out",
        );
    }
    if draft.byte_hit_ratio.is_some() && !draft.sizes {
        return Some(
            "--byte-hit-ratio counts bytes: write --sizes as well, and a size before each key",
        );
    }
    None
}

fn asks_for_ratio<A: Allocator>(draft: &Draft<A>) -> bool
    ensures { result ≡ wants_ratio (asked_by draft.now) }
{
    draft.hit_ratio.is_some() || draft.byte_hit_ratio.is_some()
}

// Which arguments do not go together, those of a sample aside.
fn conflict_of<A: Allocator>(draft: &Draft<A>) -> Option<&'static str>
    ensures { is_none result ≡ forms_go_together (asked_by draft.now) }
{
    if let Some(line) = conflict_of_ratio(draft) {
        return Some(line);
    }
    if draft.all && !draft.named.is_empty() {
        return Some("--all and --at do not go together: leave one out");
    }
    if draft.summary && asks_for_rows(draft) {
        return Some(
            "--summary goes alone, or with --sizes or a sample: leave the other arguments out",
        );
    }
    if draft.sizes && draft.least {
        return Some(
            "--least and --sizes do not go together: the least in bytes is too hard to compute, so leave one out",
        );
    }
    if draft.json && draft.svg {
        return Some("--json and --svg do not go together: leave one out");
    }
    if draft.one_size && !draft.sizes {
        return Some("--one-size is of sizes: write --sizes as well");
    }
    if asks_for_look(draft) && !draft.svg {
        return Some("--title, --unit, --from and --to are of a picture: write --svg as well");
    }
    None
}

fn conflict_of_sample<A: Allocator>(draft: &Draft<A>) -> Option<&'static str>
    ensures { is_none result ≡ samples_go_together (asked_by draft.now) }
{
    if asks_for_two(draft) {
        return Some("--sample and --sampled do not go together: leave one out");
    }
    if tells_half(draft) {
        return Some(
            "--sampled and --requests go together: write how many requests there were in all",
        );
    }
    if asks_for_more(draft) {
        return Some("a sample does not go with --least: take the whole log for it");
    }
    None
}

fn conflict_of_after<A: Allocator>(draft: &Draft<A>) -> Option<&'static str>
    ensures { is_none result ≡ after_goes_together (asked_by draft.now) }
{
    if draft.after.is_some() && asks_for_all(draft) {
        return Some(
            "--after does not go with --least, --floor or --summary: these are of all requests, so leave one out",
        );
    }
    if draft.after.is_some() && asks_for_part(draft) {
        return Some("--after does not go with a sample: take the whole log for it");
    }
    if draft.after.is_some() && draft.one_size {
        return Some("--after and --one-size do not go together: leave one out");
    }
    None
}

fn conflict_of_times<A: Allocator>(draft: &Draft<A>) -> Option<&'static str>
    ensures { is_none result ≡ times_go_together (asked_by draft.now) }
{
    if draft.max_idle.is_some() && !draft.times {
        return Some("--max-idle is of times: write --times as well, and a time before each key");
    }
    if draft.times && asks_for_all(draft) {
        return Some(
            "--times does not go with --least, --floor or --summary: these know no times, so leave one out",
        );
    }
    if draft.times && draft.one_size {
        return Some("--times and --one-size do not go together: leave one out");
    }
    if draft.times && draft.after.is_some() {
        return Some("--times and --after do not go together: leave one out");
    }
    None
}

fn conflict_of_age<A: Allocator>(draft: &Draft<A>) -> Option<&'static str>
    ensures { is_none result ≡ ages_go_together (asked_by draft.now) }
{
    if draft.max_age.is_some() && !draft.times {
        return Some("--max-age is of times: write --times as well, and a time before each key");
    }
    if draft.max_age.is_some() && (draft.all || asks_for_ratio(draft)) {
        return Some(
            "--max-age counts at few capacities, so it goes with neither --all nor a hit ratio: leave one out",
        );
    }
    if draft.max_age.is_some() && draft.svg {
        return Some("--max-age and --svg do not go together: leave one out");
    }
    None
}

// Whether something is asked for that is of all requests.
fn asks_for_all<A: Allocator>(draft: &Draft<A>) -> bool
    ensures { result ≡ wants_all (asked_by draft.now) }
{
    draft.least || draft.floor || draft.summary
}

fn asks_for_part<A: Allocator>(draft: &Draft<A>) -> bool
    ensures { result ≡ wants_part (asked_by draft.now) }
{
    draft.sample.is_some() || draft.sampled.is_some()
}

fn asks_for_two<A: Allocator>(draft: &Draft<A>) -> bool
    ensures { result ≡ wants_two (asked_by draft.now) }
{
    draft.sample.is_some() && draft.sampled.is_some()
}

// Of a sample that was taken before it has to be said of how many requests, and of no other one.
fn tells_half<A: Allocator>(draft: &Draft<A>) -> bool
    ensures { result ≡ is_half_told (asked_by draft.now) }
{
    (draft.sampled.is_some() && draft.requests.is_none())
        || (draft.requests.is_some() && draft.sampled.is_none())
}

// Whether something is asked for that no sample has.
fn asks_for_more<A: Allocator>(draft: &Draft<A>) -> bool
    ensures { result ≡ wants_more (asked_by draft.now) }
{
    (draft.sample.is_some() || draft.sampled.is_some()) && draft.least
}

fn asks_for_look<A: Allocator>(draft: &Draft<A>) -> bool
    ensures { result ≡ wants_look (asked_by draft.now) }
{
    let look = &draft.look;
    look.title.is_some() || look.unit.is_some() || look.from.is_some() || look.to.is_some()
}

// Whether something is asked for that no summary has.
fn asks_for_rows<A: Allocator>(draft: &Draft<A>) -> bool
    ensures { result ≡ wants_rows (asked_by draft.now) }
{
    draft.all
        || !draft.named.is_empty()
        || draft.least
        || draft.floor
        || draft.svg
        || draft.json
        || asks_for_ratio(draft)
}
