//! What a call asks for, with each number as a text has it.

/// What a new book is to be.
#[derive(Clone, Copy, Debug, PartialEq, Eq)]
pub struct BookTerms {
    pub year: i64,
    pub month: i64,
    pub days: i64,
    pub users: i64,
    pub entries: i64,
    pub zones: i64,
}

/// What a new point is to be.
#[derive(Clone, Copy, Debug, PartialEq, Eq)]
pub struct PointTerms {
    pub zone: i64,
    pub user: i64,
    pub class: i64,
    pub least_days: i64,
    pub band: i64,
    pub aq: i64,
    pub index: i64,
}

/// What was measured at an entry point.
#[derive(Clone, Copy, Debug, PartialEq, Eq)]
pub struct EntryMeasurementTerms {
    pub day: i64,
    pub entry: i64,
    pub quantity: i64,
}

/// What was measured of a zone.
#[derive(Clone, Copy, Debug, PartialEq, Eq)]
pub struct ZoneMeasurementTerms {
    pub day: i64,
    pub zone: i64,
    pub quantity: i64,
}

/// A zone's calorific value and weather correction factor.
#[derive(Clone, Copy, Debug, PartialEq, Eq)]
pub struct WeatherTerms {
    pub day: i64,
    pub zone: i64,
    pub cv: i64,
    pub wcf: i64,
}

/// A band's annual load profile and daily adjustment factor.
#[derive(Clone, Copy, Debug, PartialEq, Eq)]
pub struct ProfileTerms {
    pub day: i64,
    pub band: i64,
    pub alp: i64,
    pub daf: i64,
}

/// What a user states to have put in at an entry point.
#[derive(Clone, Copy, Debug, PartialEq, Eq)]
pub struct StatementTerms {
    pub day: i64,
    pub entry: i64,
    pub user: i64,
    pub quantity: i64,
}

/// What a point of class 1 or 2 took.
#[derive(Clone, Copy, Debug, PartialEq, Eq)]
pub struct DailyQuantityTerms {
    pub day: i64,
    pub point: i64,
    pub quantity: i64,
}

/// What a user sold to another.
#[derive(Clone, Copy, Debug, PartialEq, Eq)]
pub struct TradeTerms {
    pub day: i64,
    pub seller: i64,
    pub buyer: i64,
    pub quantity: i64,
}
