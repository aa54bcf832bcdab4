//! The settlement book.
#![tactic(auto)]

mod book;
mod counts;
mod day_records;
mod draft;
mod drafting;
mod fault;
mod keyed_records;
mod live;
mod recording;
mod rows;
mod shape;
mod tables;
mod terms;

pub use book::{Book, Call};
pub use counts::Counts;
pub use day_records::{DailyQuantity, DailyQuantityKey, Statement, StatementKey, Trade, TradeKey};
pub use draft::Draft;
pub use fault::Fault;
pub use live::Live;
pub use rows::{Balance, Class, MonthFigures, Point, Profile, ReadFrequency, Weather, ZoneFigures};
pub use tables::Tables;
pub use terms::{
    BookTerms, DailyQuantityTerms, EntryMeasurementTerms, PointTerms, ProfileTerms, StatementTerms,
    TradeTerms, WeatherTerms, ZoneMeasurementTerms,
};
