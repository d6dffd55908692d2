//! What is true of dates, whatever they are.
ghost use Rattle.clru_log.specs.DateLaws.{DaysFollow, LaterDaysAreLater, LaterMonthsAreLater, LaterYearsAreLater, MonthsFollow, WorkedTimes, YearsFollow};

/// States that of two dates the later one is more days from 1970, and that days, months and years follow each other: the next day of
/// a month is one day later, the next month as many as the month has, the next year as many as the year has. It also states what times
/// some columns name.
pub fn law_dates()
    ensures years { LaterYearsAreLater }
    ensures months { LaterMonthsAreLater }
    ensures days { LaterDaysAreLater }
    ensures next_day { DaysFollow }
    ensures next_month { MonthsFollow }
    ensures next_year { YearsFollow }
    ensures worked { WorkedTimes }
{}
