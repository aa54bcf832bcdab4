//! The months of a span of days that begins on the first day of a month.
ghost use Rattle.std.specs.Prelude.{◌≡◌, suc, ◌*◌, ◌<◌, ◌≤◌, MatchOption};
ghost use Rattle.ledger.specs.Calendar.{is_leap, month_days, days_in_month, length_of, first_day, whole_months, window_first, window_end, Spans, NoSpan};

use crate::range::number_in;

mod limits;

pub use limits::Calendar;

/// Days of a span: `first` and those after it, up to `end`, which is left out.
#[derive(Clone, Copy, Debug, PartialEq, Eq)]
pub struct Span {
    pub first: u32,
    pub end: u32,
}

/// Whether February has 29 days.
fn is_leap(year: u16) -> bool
    ensures { result ≡ is_leap year }
{
    year % 4 == 0 && year % 100 != 0 || year % 400 == 0
}

/// How many days a month has: 31 where the number is no month's.
fn month_days(year: u16, month: u8) -> u8
    ensures value { result ≡ month_days year month }
    ensures limits { (28 ≤ result) × (result ≤ 31) }
{
    match month {
        2 => { if is_leap(year) { 29 } else { 28 } }
        4 | 6 | 9 | 11 => 30,
        _ => 31,
    }
}

/// How many days a month of a year has, where the number is from 1 to 12.
pub fn days_in_month(year: u16, month: u8) -> Option<u8>
    ensures { result ≡ days_in_month year month }
{
    if month < 1 || month > 12 {
        return None;
    }
    Some(month_days(year, month))
}

impl Calendar {
    /// A span of 1 to 400 days that begins with a month of the years 2000 to 2099.
    pub fn new(year: i64, month: i64, days: i64) -> Option<Calendar>
        ensures { MatchOption result (NoSpan year month days) (λ c. Spans c.year c.month c.days year month days) }
    {
        let year = number_in(year, 2000, 2099)?;
        let month = number_in(month, 1, 12)?;
        let days = number_in(days, 1, 400)?;
        Some(Calendar {
            year,
            month: month as u8,
            days,
        })
    }

    /// How many days the span has.
    pub fn days(self) -> u16
        ensures value { result ≡ self.days }
        ensures limits { (1 ≤ result) × (result ≤ 400) }
    {
        self.days
    }

    /// How many days the month has.
    pub fn length(self, month: u16) -> u8
        ensures value { result ≡ length_of self.year self.month month }
        ensures limits { (28 ≤ result) × (result ≤ 31) }
    {
        let n = self.month as u32 - 1 + month as u32;
        month_days(self.year + (n / 12) as u16, (n % 12 + 1) as u8)
    }

    /// The first day of the month.
    pub fn first_day(self, month: u16) -> u32
        ensures value { result ≡ first_day self.year self.month month }
        ensures limits { (28 * month ≤ result) × (result ≤ 31 * month) }
    {
        (0..month).map(|m| u32::from(self.length(m))).sum()
    }

    /// The day after the month's last.
    fn end_day(self, month: u16) -> u32
        ensures { result ≡ first_day self.year self.month (suc month) }
    {
        self.first_day(month) + self.length(month) as u32
    }

    /// How many months lie wholly inside the span.
    pub fn months(self) -> u16
        ensures value { result ≡ whole_months self.year self.month self.days }
        ensures few { result ≤ 13 }
        ensures last { first_day self.year self.month result ≤ self.days }
        ensures next { self.days < first_day self.year self.month (suc result) }
    {
        (0..14)
            .filter(|m| self.end_day(*m) <= u32::from(self.days))
            .count() as u16
    }

    /// The days of the twelve months that end with the month, or of as many as there are.
    pub fn window(self, month: u16) -> Span
        ensures first { result.first ≡ window_first self.year self.month month }
        ensures end { result.end ≡ window_end self.year self.month month }
    {
        Span {
            first: self.first_day(month.saturating_sub(11)),
            end: self.end_day(month),
        }
    }
}
