//! A span of days, and its limits.
ghost use Rattle.std.specs.Prelude.{◌≤◌};

/// `days` days from the first day of the month `month` (1 to 12) of `year`.
#[derive(Clone, Copy, Debug, PartialEq, Eq)]
pub struct Calendar {
    pub(crate) year: u16,
    pub(crate) month: u8,
    pub(crate) days: u16,
    ghost years: { (2000 ≤ year) × (year ≤ 2099) },
    ghost months: { (1 ≤ month) × (month ≤ 12) },
    ghost length: { (1 ≤ days) × (days ≤ 400) },
}
