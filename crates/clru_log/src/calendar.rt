//! Days since 1970.
ghost use Rattle.std.specs.Prelude.{◌≡◌, ◌-◌, ◌<◌, ◌≤◌, slice_index, IfSome};
ghost use Rattle.clru_log.specs.Calendar.{days_before as days_before_by, days_from_1970 as days_by, days_to as days_to_by, is_date as is_date_by, is_leap as is_leap_by, months_of};

/// Returns the days from the first of January 1970 to a date, or `None` if the calendar has no such date or it is before 1970.
/// Months and days count from 1.
pub(crate) fn days_to(year: usize, month: usize, day: usize) -> Option<usize>
    requires { year < 10000 }
    ensures days { result ≡ days_to_by year month day }
    ensures few { IfSome result (λ days. days < 3000000) }
{
    if is_date(year, month, day) {
        Some(days_from_1970(year, month, day))
    } else {
        None
    }
}

fn is_date(year: usize, month: usize, day: usize) -> bool
    ensures { result ≡ is_date_by year month day }
{
    year >= 1970 && month >= 1 && day >= 1 && day <= days_of_month(year, month)
}

// Leap years have one day more, and of the hundredth years each fourth is one.
fn days_from_1970(year: usize, month: usize, day: usize) -> usize
    requires years { 1970 ≤ year }
    requires four_digits { year < 10000 }
    requires months { 1 ≤ month }
    requires twelve { month ≤ 12 }
    requires days { 1 ≤ day }
    requires of_a_month { day ≤ 31 }
    ensures days { result ≡ days_by year month day }
    ensures few { result < 3000000 }
{
    let before = year - 1;
    let leap_days = before / 4 - before / 100 + before / 400;
    before * 365 + leap_days - DAYS_TO_1970 + days_before(year, month) + (day - 1)
}

// As many as the years 1 to 1969 would have.
const DAYS_TO_1970: usize = 719_162;

// The days of the months before this one.
fn days_before(year: usize, month: usize) -> usize
    requires months { 1 ≤ month }
    requires twelve { month ≤ 12 }
    ensures days { result ≡ days_before_by year month }
    ensures few { result < 336 }
{
    let leap_day = if is_leap(year) { 1 } else { 0 };
    match month {
        1 => 0,
        2 => 31,
        3 => 59 + leap_day,
        4 => 90 + leap_day,
        5 => 120 + leap_day,
        6 => 151 + leap_day,
        7 => 181 + leap_day,
        8 => 212 + leap_day,
        9 => 243 + leap_day,
        10 => 273 + leap_day,
        11 => 304 + leap_day,
        _ => 334 + leap_day,
    }
}

// The days of a month, or 0 if there is no such month.
fn days_of_month(year: usize, month: usize) -> usize
    requires { 1 ≤ month }
    ensures { result ≡ slice_index (months_of year) (month - 1) }
{
    match month {
        2 => if is_leap(year) { 29 } else { 28 },
        4 | 6 | 9 | 11 => 30,
        1 | 3 | 5 | 7 | 8 | 10 | 12 => 31,
        _ => 0,
    }
}

fn is_leap(year: usize) -> bool
    ensures { result ≡ is_leap_by year }
{
    year % 4 == 0 && (year % 100 != 0 || year % 400 == 0)
}
