//! The report of a log from its part.
ghost use Rattle.std.specs.Prelude.{◌≡◌, ◌&&◌, ℕ, List, is_some, IfOk, IfSome, string_bytes};
ghost use Rattle.clru_joins.specs.PartsOfLogs.{IsPartOf, is_whole};
ghost use Rattle.clru_report.specs.Parts.{needs_only_curve as only_curve};
ghost use Rattle.clru_report.specs.Report.{IsReport};

use clru_parts::Part;
use clru_report::report_of_curve;
use clru_text::Options;
use std::alloc::{AllocError, Allocator};

/// Returns the report of a log from its part, or `None` if the options ask for what a part does not tell, or it is of a sample.
/// Cost: that of `report_of_curve`.
pub fn report_of_part<A: Allocator + Copy>(
    alloc: A,
    options: &Options<A>,
    part: &Part<A>,
) -> Result<Option<String<A>>, AllocError>
    ensures given { IfOk result (λ report. is_some report ≡ (is_whole part.now.counts && only_curve options.now)) }
    ensures report { (log : List ℕ) → IsPartOf log part.now
        → IfOk result (λ report. IfSome report (λ text. IsReport options.now log (string_bytes text))) }
{
    let counts = part.counts;
    if counts.one_in != 1 {
        return Ok(None);
    }
    report_of_curve(
        alloc,
        options,
        counts.requests,
        counts.bytes,
        part.curve.as_slice(),
    )
}
