//! Hit ratios of the report.

use clru_text::Billionths;

const BILLION: u128 = 1_000_000_000;

/// Whether at least that part of the whole hits, where so many miss.
pub(crate) fn has_ratio(ratio: Billionths, missed: u64, whole: u64) -> bool {
    let allowed = BILLION.saturating_sub(ratio.number as u128) * whole as u128;
    BILLION * missed as u128 <= allowed
}
