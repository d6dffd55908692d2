//! The laws, at types of a caller's.

use clru::{
    ZeroWeightScale, law_by_position, law_dropped, law_greater_capacity, law_growth, law_inclusion,
    law_longest_fit, law_requests, law_schedules_by_position, law_size_bound, law_sizes,
};
use clru_curve::{law_bounds, law_distances, law_parts, law_spans_by_position};
use clru_least::{law_floor, law_greedy_floor, law_least};
use clru_runs::{law_included_runs, law_put_runs, law_sized_put_runs};

#[test]
fn laws_do_nothing() {
    law_by_position::<&'static str>();
    law_schedules_by_position::<&'static str>();
    law_growth::<&'static str>();
    law_greater_capacity::<&'static str>();
    law_inclusion::<u64, &'static str>();
    law_longest_fit::<u64, &'static str>();
    law_requests::<&'static str, u64>();
    law_sizes::<usize, &'static str>();
    law_size_bound::<u64, &'static str>();
    law_included_runs::<&'static str, u64, ZeroWeightScale>();
    law_put_runs::<&'static str, u64, ZeroWeightScale>();
    law_sized_put_runs::<&'static str, u64, ZeroWeightScale>();
    law_of_drops(&|_, _| {});
}

/// Those that speak of curves and of the least.
#[test]
fn laws_are_called() {
    law_bounds::<u64>();
    law_distances::<u64>();
    law_parts::<u64>();
    law_spans_by_position::<u64>();
    clru_curve::law_sizes::<u64, ()>();
    law_least::<u8>();
    law_floor::<u8>();
    law_greedy_floor::<u8>();
}

/// `law_dropped` for the type of a closure.
fn law_of_drops<F: FnMut(u64, u64)>(_on_drop: &F) {
    law_dropped::<u64, u64, ZeroWeightScale, F>();
}
