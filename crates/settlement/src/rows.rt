//! What the rows of the tables hold.
ghost use Rattle.std.specs.Prelude.{◌≡◌};
ghost use Rattle.settlement.specs.Classes.{class_of, least_days as days_carried, takes_daily};

/// How often a point of class 4 is read: by the least days between two readings.
#[derive(Clone, Copy, Debug, PartialEq, Eq)]
pub enum ReadFrequency {
    Monthly,
    Annual,
    AnnualSmaller,
}

/// A point's class, with what the class carries.
#[derive(Clone, Copy, Debug, PartialEq, Eq)]
pub enum Class {
    One,
    Two,
    Three,
    Four(ReadFrequency),
}

impl Class {
    /// The class by its number and the least days, where they go together.
    // No `TryFrom`, which would convert a pair of numbers that is no value of its own.
    pub fn of(class: i64, least_days: i64) -> Option<Class>
        ensures { result ≡ class_of class least_days }
    {
        match (class, least_days) {
            (1, 0) => Some(Class::One),
            (2, 0) => Some(Class::Two),
            (3, 1) => Some(Class::Three),
            (4, 7) => Some(Class::Four(ReadFrequency::Monthly)),
            (4, 14) => Some(Class::Four(ReadFrequency::Annual)),
            (4, 25) => Some(Class::Four(ReadFrequency::AnnualSmaller)),
            _ => None,
        }
    }

    /// The least days between two readings.
    pub fn least_days(self) -> u16
        ensures { result ≡ days_carried self }
    {
        match self {
            Class::One | Class::Two => 0,
            Class::Three => 1,
            Class::Four(ReadFrequency::Monthly) => 7,
            Class::Four(ReadFrequency::Annual) => 14,
            Class::Four(ReadFrequency::AnnualSmaller) => 25,
        }
    }

    /// Whether the class takes daily quantities.
    pub fn takes_daily_quantities(self) -> bool
        ensures { result ≡ takes_daily self }
    {
        match self {
            Class::One | Class::Two => true,
            Class::Three | Class::Four(_) => false,
        }
    }
}

/// An exit point.
#[derive(Clone, Copy, Debug, PartialEq, Eq)]
pub struct Point {
    pub zone: u16,
    /// The registered user.
    pub user: u16,
    pub class: Class,
    pub band: u16,
    /// The annual quantity.
    pub aq: u64,
    /// The meter's index at the beginning of Day 0.
    pub first_index: u64,
    /// How many Days, from Day 0 on, the entered readings cover.
    pub covered: u16,
    /// The index of the last entered reading; before any, the first index.
    pub last_index: u64,
}

/// A zone's weather on a Day.
#[derive(Clone, Copy, Debug, PartialEq, Eq)]
pub struct Weather {
    /// The calorific value, in tenths of MJ per cubic metre.
    pub cv: u64,
    /// The weather correction factor, in thousandths.
    pub wcf: i64,
}

/// A band's demand profile on a Day, in thousandths.
#[derive(Clone, Copy, Debug, PartialEq, Eq)]
pub struct Profile {
    pub alp: u64,
    pub daf: i64,
}

/// A user's figures in a zone on a Day.
#[derive(Clone, Copy, Debug, Default, PartialEq, Eq)]
pub struct ZoneFigures {
    pub output: u64,
    /// The adjusted output, which gives weights.
    pub adjusted: u64,
    pub unidentified: i64,
}

/// A user's balance on a Day.
#[derive(Clone, Copy, Debug, Default, PartialEq, Eq)]
pub struct Balance {
    /// Trades bought less trades sold.
    pub traded: i64,
    pub imbalance: i64,
}

/// A user's figures in a zone and month.
#[derive(Clone, Copy, Debug, Default, PartialEq, Eq)]
pub struct MonthFigures {
    pub reconciled: i64,
    pub returned: i64,
}
