//! A caller that owns the tables.
use settlement::{
    Balance, BookTerms, Class, DailyQuantity, MonthFigures, Point, Profile, Statement, Tables,
    Trade, Weather, ZoneFigures,
};
use std::alloc::{AllocError, Global};

/// How many rows each table has: the twelve tables in their order, then the three registers.
// numbers by place, and no struct, since a test shortens one table after the other
pub(crate) type Lengths = [usize; 15];

// apart from the program's store, since one struct for both would be library code that takes memory from the heap
#[derive(Drop)]
pub(crate) struct Owner {
    pub(crate) points: Vec<Option<Point>>,
    pub(crate) entry_measurements: Vec<Option<u64>>,
    pub(crate) zone_measurements: Vec<Option<u64>>,
    pub(crate) weather: Vec<Option<Weather>>,
    pub(crate) profiles: Vec<Option<Profile>>,
    pub(crate) inputs: Vec<u64>,
    pub(crate) outputs: Vec<u64>,
    pub(crate) prevailing: Vec<u64>,
    pub(crate) zone_figures: Vec<ZoneFigures>,
    pub(crate) balances: Vec<Balance>,
    pub(crate) reconciliations: Vec<i64>,
    pub(crate) months: Vec<MonthFigures>,
    pub(crate) statements: Vec<Option<Statement>>,
    pub(crate) daily_quantities: Vec<Option<DailyQuantity>>,
    pub(crate) trades: Vec<Option<Trade>>,
}

impl Owner {
    /// Tables with nothing in them.
    pub(crate) fn empty(heap: Global, n: Lengths) -> Result<Owner, AllocError> {
        Ok(Owner {
            points: vec![in heap; None; n[0]]?,
            entry_measurements: vec![in heap; None; n[1]]?,
            zone_measurements: vec![in heap; None; n[2]]?,
            weather: vec![in heap; None; n[3]]?,
            profiles: vec![in heap; None; n[4]]?,
            inputs: vec![in heap; 0; n[5]]?,
            outputs: vec![in heap; 0; n[6]]?,
            prevailing: vec![in heap; 0; n[7]]?,
            zone_figures: vec![in heap; ZoneFigures::default(); n[8]]?,
            balances: vec![in heap; Balance::default(); n[9]]?,
            reconciliations: vec![in heap; 0; n[10]]?,
            months: vec![in heap; MonthFigures::default(); n[11]]?,
            statements: vec![in heap; None; n[12]]?,
            daily_quantities: vec![in heap; None; n[13]]?,
            trades: vec![in heap; None; n[14]]?,
        })
    }

    /// Tables full of what no book would hold.
    pub(crate) fn wild(heap: Global, n: Lengths) -> Result<Owner, AllocError> {
        let point = Point {
            zone: 9,
            user: 77,
            class: Class::Two,
            band: 0,
            aq: u64::MAX,
            first_index: 5,
            covered: 500,
            last_index: 4,
        };
        Ok(Owner {
            points: vec![in heap; Some(point); n[0]]?,
            entry_measurements: vec![in heap; Some(u64::MAX); n[1]]?,
            zone_measurements: vec![in heap; Some(0); n[2]]?,
            weather: vec![in heap; Some(Weather {
                cv: 0,
                wcf: i64::MIN
            }); n[3]]?,
            profiles: vec![in heap; Some(Profile {
                alp: 0,
                daf: i64::MAX
            }); n[4]]?,
            inputs: vec![in heap; 1; n[5]]?,
            outputs: vec![in heap; u64::MAX; n[6]]?,
            prevailing: vec![in heap; 7; n[7]]?,
            zone_figures: vec![in heap; ZoneFigures {
                output: 0,
                adjusted: 0,
                unidentified: -1
            }; n[8]]?,
            balances: vec![in heap; Balance {
                traded: 0,
                imbalance: 1
            }; n[9]]?,
            reconciliations: vec![in heap; i64::MIN; n[10]]?,
            months: vec![in heap; MonthFigures {
                reconciled: -1,
                returned: 0
            }; n[11]]?,
            statements: vec![in heap; Some(Statement {
                day: 900,
                entry: 0,
                user: 0,
                quantity: 0
            }); n[12]]?,
            daily_quantities: vec![in heap; Some(DailyQuantity {
                day: 0,
                point: 0,
                quantity: 0
            }); n[13]]?,
            trades: vec![in heap; Some(Trade {
                day: 0,
                seller: 1,
                buyer: 1,
                quantity: 0
            }); n[14]]?,
        })
    }

    pub(crate) fn tables(&mut self) -> Tables<'_> {
        Tables {
            points: &mut self.points,
            entry_measurements: &mut self.entry_measurements,
            zone_measurements: &mut self.zone_measurements,
            weather: &mut self.weather,
            profiles: &mut self.profiles,
            inputs: &mut self.inputs,
            outputs: &mut self.outputs,
            prevailing: &mut self.prevailing,
            zone_figures: &mut self.zone_figures,
            balances: &mut self.balances,
            reconciliations: &mut self.reconciliations,
            months: &mut self.months,
            statements: &mut self.statements,
            daily_quantities: &mut self.daily_quantities,
            trades: &mut self.trades,
        }
    }
}

pub(crate) fn terms(
    year: i64,
    month: i64,
    days: i64,
    users: i64,
    entries: i64,
    zones: i64,
) -> BookTerms {
    BookTerms {
        year,
        month,
        days,
        users,
        entries,
        zones,
    }
}
