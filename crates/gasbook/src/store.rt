//! The memory for the program's tables: a book of 62 Days, and registers of 1,024 records.
use settlement::{
    Balance, DailyQuantity, MonthFigures, Point, Profile, Statement, Tables, Trade, Weather,
    ZoneFigures,
};
use std::alloc::{AllocError, Global};

const DAYS: usize = 62;

const USERS: usize = 16;

const ENTRIES: usize = 8;

const ZONES: usize = 4;

const POINTS: usize = 48;

const BANDS: usize = 9;

/// No 62 Days hold more than two whole months.
const MONTHS: usize = 2;

const RECORDS: usize = 1024;

/// The memory of each table.
#[derive(Drop)]
pub(crate) struct Store {
    points: Vec<Option<Point>>,
    entry_measurements: Vec<Option<u64>>,
    zone_measurements: Vec<Option<u64>>,
    weather: Vec<Option<Weather>>,
    profiles: Vec<Option<Profile>>,
    inputs: Vec<u64>,
    outputs: Vec<u64>,
    prevailing: Vec<u64>,
    zone_figures: Vec<ZoneFigures>,
    balances: Vec<Balance>,
    reconciliations: Vec<i64>,
    months: Vec<MonthFigures>,
    statements: Vec<Option<Statement>>,
    daily_quantities: Vec<Option<DailyQuantity>>,
    trades: Vec<Option<Trade>>,
}

impl Store {
    /// Tables with nothing in them.
    pub(crate) fn new(heap: Global) -> Result<Store, AllocError> {
        Ok(Store {
            points: vec![in heap; None; POINTS]?,
            entry_measurements: vec![in heap; None; DAYS * ENTRIES]?,
            zone_measurements: vec![in heap; None; DAYS * ZONES]?,
            weather: vec![in heap; None; DAYS * ZONES]?,
            profiles: vec![in heap; None; DAYS * BANDS]?,
            inputs: vec![in heap; 0; DAYS * ENTRIES * USERS]?,
            outputs: vec![in heap; 0; DAYS * POINTS]?,
            prevailing: vec![in heap; 0; DAYS * POINTS]?,
            zone_figures: vec![in heap; ZoneFigures::default(); DAYS * ZONES * USERS]?,
            balances: vec![in heap; Balance::default(); DAYS * USERS]?,
            reconciliations: vec![in heap; 0; ZONES * USERS]?,
            months: vec![in heap; MonthFigures::default(); MONTHS * ZONES * USERS]?,
            statements: vec![in heap; None; RECORDS]?,
            daily_quantities: vec![in heap; None; RECORDS]?,
            trades: vec![in heap; None; RECORDS]?,
        })
    }

    /// The tables, as a book takes them.
    pub(crate) fn tables(&mut self) -> Tables<'_> {
        Tables {
            points: &mut self.points,
            entry_measurements: &mut self.entry_measurements,
            zone_measurements: &mut self.zone_measurements,
            weather: &mut self.weather,
            profiles: &mut self.profiles,
            inputs: &mut self.inputs,
            outputs: &mut self.outputs,
            prevailing: &mut self.prevailing,
            zone_figures: &mut self.zone_figures,
            balances: &mut self.balances,
            reconciliations: &mut self.reconciliations,
            months: &mut self.months,
            statements: &mut self.statements,
            daily_quantities: &mut self.daily_quantities,
            trades: &mut self.trades,
        }
    }
}
