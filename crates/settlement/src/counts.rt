//! A book's counts, and their limits.
ghost use Rattle.std.specs.Prelude.{◌≡◌, ◌≤◌};
ghost use Rattle.ledger.specs.Calendar.{whole_months};

use ledger::calendar::Calendar;

/// How many Days, users, entry points and zones a book has, and when it begins.
#[derive(Clone, Copy, Debug, PartialEq, Eq)]
pub struct Counts {
    pub(crate) calendar: Calendar,
    pub(crate) days: u16,
    /// The months that lie wholly in the book.
    pub(crate) months: u16,
    pub(crate) users: u16,
    pub(crate) entries: u16,
    pub(crate) zones: u16,
    ghost day_limits: { (1 ≤ days) × (days ≤ 400) },
    ghost month_limits: { months ≤ 13 },
    ghost user_limits: { (1 ≤ users) × (users ≤ 16) },
    ghost entry_limits: { (1 ≤ entries) × (entries ≤ 8) },
    ghost zone_limits: { (1 ≤ zones) × (zones ≤ 4) },
    ghost spans: { days ≡ calendar.days },
    ghost whole: { months ≡ whole_months calendar.year calendar.month days },
}
