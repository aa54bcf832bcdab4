//! The tables and registers that a caller lends with each call.
use crate::day_records::{DailyQuantity, Statement, Trade};
use crate::rows::{Balance, MonthFigures, Point, Profile, Weather, ZoneFigures};

// That the same slices are still lent after a call ties two moments, so each contract says it, and no invariant.
/// Slices of any length, with anything in them. A table has one row for each combination of the things that index it.
#[derive(Drop)]
pub struct Tables<'a> {
    /// Exit points, 48 rows.
    pub points: &'a mut [Option<Point>],
    /// Measurements of entry points, by Day and entry point.
    pub entry_measurements: &'a mut [Option<u64>],
    /// Measurements of zones, by Day and zone.
    pub zone_measurements: &'a mut [Option<u64>],
    /// By Day and zone.
    pub weather: &'a mut [Option<Weather>],
    /// By Day and band.
    pub profiles: &'a mut [Option<Profile>],
    /// By Day, entry point and user; they give weights.
    pub inputs: &'a mut [u64],
    /// By Day and point.
    pub outputs: &'a mut [u64],
    /// Prevailing quantities, by point and Day; they give weights.
    pub prevailing: &'a mut [u64],
    /// By Day, zone and user.
    pub zone_figures: &'a mut [ZoneFigures],
    /// By Day and user.
    pub balances: &'a mut [Balance],
    /// Reconciliation quantities since the last month close, by zone and user.
    pub reconciliations: &'a mut [i64],
    /// By month, zone and user.
    pub months: &'a mut [MonthFigures],
    /// The register of statements.
    pub statements: &'a mut [Option<Statement>],
    /// The register of daily quantities.
    pub daily_quantities: &'a mut [Option<DailyQuantity>],
    /// The register of trades.
    pub trades: &'a mut [Option<Trade>],
}
