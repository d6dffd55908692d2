//! The time that figures name. `clru_text` has these functions too; its own take their place here once they are public.
ghost use Rattle.std.specs.Prelude.{◌≡◌, ◌<◌, ◌≤◌, ◌^◌, ◌==◌, position};
ghost use Rattle.clru_text.specs.Times.{decimal_time, in_time as in_time_by, millionths_of as millionths_by, time_in as time_by};

use clru_text::digits_of;

const MILLION: u128 = 1_000_000;

/// Returns the time that figures name, in millionths: 1 to 20 digits, and behind a point 1 to 20 more.
pub(crate) fn time_in(figures: &[u8]) -> Option<usize>
    ensures { result ≡ time_by figures.now }
{
    match point_at(figures) {
        None => in_time(digits_of(figures)? * MILLION),
        Some(at) => time_with(&figures[..at], &figures[at + 1..]),
    }
}

fn time_with(whole: &[u8], decimals: &[u8]) -> Option<usize>
    ensures { result ≡ decimal_time whole.now decimals.now }
{
    let whole = digits_of(whole)?;
    let part = digits_of(decimals)?;
    in_time(whole * MILLION + millionths_of(part, decimals.len()))
}

fn in_time(number: u128) -> Option<usize>
    ensures { result ≡ in_time_by number }
{
    usize::try_from(number).ok()
}

/// Returns so many decimals as millionths.
pub(crate) fn millionths_of(part: u128, places: usize) -> u128
    requires few { places ≤ 20 }
    requires below { part < 10 ^ 20 }
    ensures value { result ≡ millionths_by part places }
    ensures below { result < 10 ^ 26 }
{
    if places <= 6 {
        part * power_of_ten(6 - places)
    } else {
        part / 10u128.pow((places - 6) as u32)
    }
}

fn power_of_ten(exponent: usize) -> u128
    requires { exponent ≤ 6 }
    ensures { result ≡ 10 ^ exponent }
{
    match exponent {
        0 => 1,
        1 => 10,
        2 => 10 * 10,
        3 => 10 * 10 * 10,
        4 => 10 * 10 * 10 * 10,
        5 => 10 * 10 * 10 * 10 * 10,
        _ => MILLION,
    }
}

// The place of the first point.
fn point_at(figures: &[u8]) -> Option<usize>
    ensures { result ≡ position (λ b. b == 46) figures.now }
{
    figures.iter().position(|byte| *byte == b'.')
}
